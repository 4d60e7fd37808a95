//! Replies that no run of the server gives yet, byte by byte, by RESP2 and `docs/COMMANDS.md`.

use kv_base::Items;
use kv_fakes::{Calls, MemSink};
use redis_model::{Reply, ReplyError};
use resp_wire::{write_error, write_reply};
use std::alloc::Global;
use std::test::Fail;

fn written(alloc: Global, reply: &Reply) -> Result<MemSink, Fail> {
    let mut sink = MemSink::new(alloc, Calls::new(alloc));
    write_reply(reply, &mut sink)?;
    Ok(sink)
}

#[test]
fn writes_arrays_in_arrays(rt: HostRuntime) -> Result<(), Fail> {
    let alloc = rt.alloc();
    let numbers = vec![in alloc; Reply::Int(i64::MIN), Reply::Int(i64::MAX)]?;
    let errors = vec![in alloc; Reply::Error(ReplyError::NoSuchKey), Reply::NullArray]?;
    let nested = vec![in alloc;
        Reply::Array(Items::from_vec(numbers)),
        Reply::Array(Items::from_vec(errors)),
        Reply::Array(Items::new(alloc)),
    ]?;
    let sink = written(alloc, &Reply::Array(Items::from_vec(nested)))?;
    assert_eq!(rt;
        sink.bytes(),
        b"*3\r\n*2\r\n:-9223372036854775808\r\n:9223372036854775807\r\n\
        *2\r\n-ERR no such key\r\n*-1\r\n*0\r\n"
            .as_slice()
    );
    Ok(())
}

fn written_error(alloc: Global, error: ReplyError) -> Result<MemSink, Fail> {
    let mut sink = MemSink::new(alloc, Calls::new(alloc));
    write_error(error, &mut sink)?;
    Ok(sink)
}

#[test]
fn writes_errors(rt: HostRuntime) -> Result<(), Fail> {
    for (error, want) in [
        (
            ReplyError::HashNotInt,
            "-ERR hash value is not an integer\r\n",
        ),
        (ReplyError::NoSuchKey, "-ERR no such key\r\n"),
        (ReplyError::IndexRange, "-ERR index out of range\r\n"),
        (ReplyError::ScoreRange, "-ERR score is out of range\r\n"),
        (ReplyError::Pinned, "-ERR connection is pinned\r\n"),
        (ReplyError::AlreadyPinned, "-ERR already pinned\r\n"),
        (ReplyError::NotPinned, "-ERR not pinned\r\n"),
    ] {
        let sink = written_error(rt.alloc(), error)?;
        assert_eq!(rt; sink.bytes(), want.as_bytes(), "{want}");
    }
    Ok(())
}
