//! Links that are cut, or that fail, and accepting that fails.

use crate::clients::Clients;
use kv_fakes::{Calls, MemDisk};
use std::test::Fail;

/// A client that goes away inside a request is told so, and the next one is served from the keys that it left.
#[test]
fn a_cut_link_ends_its_own_session(rt: HostRuntime) -> Result<(), Fail> {
    let mut clients = Clients::new(rt, rt.alloc());
    clients.add(b"SET a 1\r\n*3\r\n$3\r\nSET\r\n$1\r\na\r\n$1\r\n")?;
    clients.add(b"GET a\r\nSET a 2\r\nGET")?;
    clients.add(b"GET a\r\n")?;
    let mut files = MemDisk::new(rt.alloc(), Calls::new(rt.alloc()));
    let served = clients.serve(&mut files, Calls::new(rt.alloc()))?;
    assert_eq!(rt; served.status, 0);
    for (client, told) in [
        (0, b"+OK\r\n-ERR Protocol error: cut at 9\r\n".as_slice()),
        (
            1,
            b"$1\r\n1\r\n+OK\r\n-ERR Protocol error: cut at 16\r\n".as_slice(),
        ),
        (2, b"$1\r\n2\r\n".as_slice()),
    ] {
        assert_eq!(rt; served.told(client)?.bytes(), told, "client {client}");
    }
    Ok(())
}

/// A client whose bytes can't be read, or who can't be written to, is served so far, and the next one from the keys that
/// it left. What was carried out stays, whether or not the client was told.
#[test]
fn a_link_that_fails_ends_its_own_session(rt: HostRuntime) -> Result<(), Fail> {
    let mut clients = Clients::new(rt, rt.alloc());
    clients.add_unread(b"SET a 1\nSET a 2\n", 0)?;
    clients.add_unread(b"SET b 1\nSET b 2\n", 1)?;
    clients.add_unwritten(b"SET c 1\nSET c 2\n", 0)?;
    clients.add_unwritten(b"SET d 1\nSET d 2\nSET d 3\n", 1)?;
    clients.add(b"MGET a b c d\n")?;
    let mut files = MemDisk::new(rt.alloc(), Calls::new(rt.alloc()));
    let served = clients.serve(&mut files, Calls::new(rt.alloc()))?;
    assert_eq!(rt; served.status, 0);
    for (client, told) in [
        (0, b"".as_slice()),
        (1, b"+OK\r\n".as_slice()),
        (2, b"".as_slice()),
        (3, b"+OK\r\n".as_slice()),
        (
            4,
            b"*4\r\n$-1\r\n$1\r\n1\r\n$1\r\n1\r\n$1\r\n2\r\n".as_slice(),
        ),
    ] {
        assert_eq!(rt; served.told(client)?.bytes(), told, "client {client}");
    }
    Ok(())
}

/// Where accepting fails the status is 9, and the next server finds what was answered.
#[test]
fn a_failed_accept_ends_the_serving(rt: HostRuntime) -> Result<(), Fail> {
    let mut files = MemDisk::new(rt.alloc(), Calls::new(rt.alloc()));
    let mut clients = Clients::new(rt, rt.alloc());
    clients.add(b"SET a 1\n")?;
    clients.add(b"SET a 2\n")?;
    let served = clients.serve(&mut files, Calls::from_slice(rt.alloc(), &[1])?)?;
    assert_eq!(rt; served.status, 9);
    assert_eq!(rt; served.told(0)?.bytes(), b"+OK\r\n".as_slice());
    assert_eq!(rt; served.told(1)?.bytes(), b"".as_slice());

    let mut later = Clients::new(rt, rt.alloc());
    later.add(b"GET a\n")?;
    let served = later.serve(&mut files, Calls::new(rt.alloc()))?;
    assert_eq!(rt; served.status, 0);
    assert_eq!(rt; served.told(0)?.bytes(), b"$1\r\n1\r\n".as_slice());
    Ok(())
}
