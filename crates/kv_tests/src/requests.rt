//! How long a request and a line may be, by `docs/COMMANDS.md`.

use resp_wire::ProtocolFault::TooLong;
use resp_wire::{NextFault, Reader};
use std::test::Fail;

/// Feeds a word of so many times 256 bytes.
fn feed_word(reader: &mut Reader, line: &[u8], times: usize) -> Result<(), Fail> {
    reader.feed(line)?;
    for _ in 0..times {
        reader.feed(&[b'x'; 256])?;
        let _ = reader.next()?;
    }
    reader.feed(b"\r\n")?;
    Ok(())
}

/// Fifteen words of 1,048,576 bytes leave room for one of 1,048,320, and that one for none.
#[test]
fn reads_a_request_up_to_its_room(rt: HostRuntime) -> Result<(), Fail> {
    let mut reader = Reader::new(rt.alloc());
    reader.feed(b"*17\r\n")?;
    for _ in 0..15 {
        feed_word(&mut reader, b"$1048576\r\n", 4096)?;
    }
    feed_word(&mut reader, b"$1048320\r\n", 4095)?;
    reader.feed(b"$")?;
    assert_eq!(rt; reader.next()?.is_none(), true);
    reader.feed(b"0")?;
    assert_eq!(rt; reader.next().err(), Some(NextFault::Wire(TooLong, 2)));
    Ok(())
}

/// A line of 65,536 bytes is read, and the next byte decides: a line feed ends it, and any other is too much.
#[test]
fn reads_a_line_up_to_its_limit(rt: HostRuntime) -> Result<(), Fail> {
    let line = vec![in rt.alloc(); b'x'; 65_536]?;
    let mut reader = Reader::new(rt.alloc());
    reader.feed(&line)?;
    reader.feed(b"\n")?;
    assert_eq!(rt; reader.next()?.is_some(), true);
    reader.feed(&line)?;
    assert_eq!(rt; reader.next()?.is_none(), true);
    reader.feed(b"'")?;
    assert_eq!(rt; reader.next().err(), Some(NextFault::Wire(TooLong, 65_537)));
    Ok(())
}
