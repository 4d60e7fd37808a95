//! Many clients.

use crate::clients::{Clients, Served};
use kv_base::NoMem;
use kv_fakes::{Calls, MemDisk};
use std::alloc::Global;
use std::sync::Wait;
use std::test::Fail;

/// So many clients come in.
const MANY: usize = 1000;

/// Clients of which each counts one up.
fn counting<R: Wait + Copy>(rt: R, alloc: Global) -> Result<Clients<R>, NoMem> {
    let mut clients = Clients::new(rt, alloc);
    for _ in 0..MANY {
        clients.add(b"*2\r\n$4\r\nINCR\r\n$1\r\nn\r\n")?;
    }
    Ok(clients)
}

/// Whether this client was told this number.
fn is_told<R: Wait + Copy>(
    alloc: Global,
    served: &Served<R>,
    client: usize,
    number: usize,
) -> Result<bool, NoMem> {
    let line = format!(in alloc; ":{number}\r\n")?;
    let told = served.told(client)?;
    Ok(told.bytes() == line.as_bytes())
}

#[test]
fn a_thousand_clients_are_served_in_turn(rt: HostRuntime) -> Result<(), Fail> {
    let mut files = MemDisk::new(rt.alloc(), Calls::new(rt.alloc()));
    let clients = counting(rt, rt.alloc())?;
    let served = clients.serve(&mut files, Calls::new(rt.alloc()))?;
    assert_eq!(rt; served.status, 0);
    for client in 0..MANY {
        let told = is_told(rt.alloc(), &served, client, client + 1)?;
        assert!(rt; told, "client {client}");
    }
    Ok(())
}
