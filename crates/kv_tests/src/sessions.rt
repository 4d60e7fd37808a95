//! Sessions at a desk that fails. Those at a store are transcripts.

mod desk;

use desk::FaultyDesk;
use kv_base::Blob;
use kv_fakes::{Calls, MemSink, MemSource, Sizes};
use session::{Outcome, serve_session};
use std::test::Fail;

/// Each fault is told in its line, and the session goes on.
#[test]
fn faults_of_a_desk_are_told_in_their_lines(rt: HostRuntime) -> Result<(), Fail> {
    let requests = b"PING\nGET k\nSET k v\nDEL k\nPING\nPING\nPING\nPING\nPING\n";
    let lines = b"-IOERR a file call failed\r\n-NOMEM no memory\r\n-DAMAGED slot-a 0\r\n\
        -DAMAGED slot-b 1\r\n-DAMAGED wal-7 12\r\n-DAMAGED t-7-2 4096\r\n-ERR sequence exhausted\r\n\
        -ERR batch too large\r\n+PONG\r\n";
    let mut source = MemSource::new(
        Blob::copy(rt.alloc(), requests)?,
        Sizes::new(rt.alloc()),
        Calls::new(rt.alloc()),
    );
    let mut sink = MemSink::new(rt.alloc(), Calls::new(rt.alloc()));
    let mut desk = FaultyDesk::new();
    let outcome = serve_session(rt.alloc(), &mut desk, &mut source, &mut sink);
    assert_eq!(rt; outcome, Outcome::Closed);
    assert_eq!(rt; sink.bytes(), lines.as_slice());
    Ok(())
}
