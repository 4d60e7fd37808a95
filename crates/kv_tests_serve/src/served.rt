//! Clients one after the other.

use crate::clients::Clients;
use kv_fakes::{Calls, MemDisk};
use std::test::Fail;

/// Each client is answered from the keys that the clients before it left, and accepting ends with status 0. A client that
/// quits is told nothing behind its `OK`.
#[test]
fn each_client_finds_what_those_before_it_left(rt: HostRuntime) -> Result<(), Fail> {
    let mut clients = Clients::new(rt, rt.alloc());
    clients.add(b"PING\n")?;
    clients.add(b"SET a 1\nQUIT\nGET a\n")?;
    clients.add(b"")?;
    clients.add(b"GET a\nINCR a\nRPUSH l x y\n")?;
    clients.add(b"GET a\nLPOP l\n")?;
    let mut files = MemDisk::new(rt.alloc(), Calls::new(rt.alloc()));
    let served = clients.serve(&mut files, Calls::new(rt.alloc()))?;
    assert_eq!(rt; served.status, 0);
    for (client, told) in [
        (0, b"+PONG\r\n".as_slice()),
        (1, b"+OK\r\n+OK\r\n".as_slice()),
        (2, b"".as_slice()),
        (3, b"$1\r\n1\r\n:2\r\n:2\r\n".as_slice()),
        (4, b"$1\r\n2\r\n$1\r\nx\r\n".as_slice()),
    ] {
        assert_eq!(rt; served.told(client)?.bytes(), told, "client {client}");
    }
    Ok(())
}
