//! A client and its link. Which bytes go over one is in no contract.

use kv_doors::Acceptor;
use kv_outside::{Failed, Sink, Source};
use kv_tcp::TcpDoor;
use std::io::{Read, Write};
use std::net::{Shutdown, TcpStream};
use std::test::Fail;

/// Where doors listen: at a port that the system picks.
const HERE: &str = "127.0.0.1:0";

#[test]
fn bytes_come_and_go(rt: HostRuntime) -> Result<(), Fail> {
    let mut door = TcpDoor::bind(&rt, HERE);
    let mut client = TcpStream::connect(&rt, door.address().ok_or("no address")?)?;
    let (mut source, mut sink) = door.accept()?.ok_or("no link")?;
    client.write_all(b"PING\r\n")?;
    let mut piece = [b'.'; 8];
    assert_eq!(rt; source.read(&mut piece), Ok(6));
    assert_eq!(rt; piece, *b"PING\r\n..");
    assert_eq!(rt; sink.write(b"+PONG\r\n"), Ok(7));
    let mut answer = [0; 7];
    client.read_exact(&mut answer)?;
    assert_eq!(rt; answer, *b"+PONG\r\n");
    Ok(())
}

/// The end of what a client sends is answered again and again, and the client can still be told something.
#[test]
fn the_end_of_the_input_is_answered(rt: HostRuntime) -> Result<(), Fail> {
    let mut door = TcpDoor::bind(&rt, HERE);
    let mut client = TcpStream::connect(&rt, door.address().ok_or("no address")?)?;
    let (mut source, mut sink) = door.accept()?.ok_or("no link")?;
    client.write_all(b"QUIT")?;
    client.shutdown(Shutdown::Write)?;
    let mut piece = [0; 8];
    for count in [4, 0, 0] {
        assert_eq!(rt; source.read(&mut piece), Ok(count));
    }
    assert_eq!(rt; sink.write(b"+OK\r\n"), Ok(5));
    let mut answer = [0; 5];
    client.read_exact(&mut answer)?;
    assert_eq!(rt; answer, *b"+OK\r\n");
    Ok(())
}

/// How many writes of a byte a sink takes, up to a hundred.
fn writes_taken<K: Sink>(sink: &mut K) -> u32 {
    for number in 0..100 {
        if sink.write(b".").is_err() {
            return number;
        }
    }
    100
}

/// A client that goes away can't be written to, which is an error and no signal. The door lets the next one in.
#[test]
fn a_client_goes_away(rt: HostRuntime) -> Result<(), Fail> {
    let mut door = TcpDoor::bind(&rt, HERE);
    let address = door.address().ok_or("no address")?;
    let gone = TcpStream::connect(&rt, address)?;
    let (mut source, mut sink) = door.accept()?.ok_or("no link")?;
    drop(gone);
    assert_eq!(rt; source.read(&mut [0; 8]), Ok(0));
    assert!(rt; writes_taken(&mut sink) < 100);

    let mut client = TcpStream::connect(&rt, address)?;
    let (mut source, _) = door.accept()?.ok_or("no second link")?;
    client.write_all(b"GET")?;
    assert_eq!(rt; source.read(&mut [0; 8]), Ok(3));
    Ok(())
}

/// At an address that is taken there is no door: it has no address, and lets nobody in.
#[test]
fn an_address_is_taken(rt: HostRuntime) -> Result<(), Fail> {
    let door = TcpDoor::bind(&rt, HERE);
    let address = door.address().ok_or("no address")?;
    let text = format!(in rt.alloc(); "{address}")?;
    let mut second = TcpDoor::bind(&rt, &text);
    assert!(rt; second.address().is_none());
    assert!(rt; second.accept().is_err());
    Ok(())
}
