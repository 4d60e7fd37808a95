ghost use Rattle.std.specs.Prelude.{◌≡◌, ℕ, None};

use crate::stream::{TcpIn, TcpOut};
use kv_doors::Acceptor;
use kv_outside::Failed;
use std::io;
use std::io::ErrorKind;
use std::marker::Model;
use std::net::{Net, OpenListener, OpenStream, SocketAddr, TcpListener};
use std::time::Duration;

/// How many clients may go away in a row before they are accepted.
const TRIES: u32 = 1 << 20;

/// How many seconds a write waits for a client that takes nothing.
const WRITE_SECONDS: u64 = 60;

/// A listener on a TCP address. One that could not be bound fails at each accept. Every error is counted, but for that of
/// a client that went away before it was accepted: then the next one is waited for.
#[derive(Drop)]
pub struct TcpDoor<R: Net> {
    listener: Option<R::Listener>,
    faults: u64,
}

/// Contracts see how often accepting has failed.
impl<R: Net> Model for TcpDoor<R> {
    ghost Value = { ℕ };

    ghost view = { λ door. door.faults };
}

impl<R: Net> TcpDoor<R> {
    /// Listens on an address, `HOST:PORT`: where the host has several, on the first that can be bound. The port 0 stands
    /// for one that the system chooses.
    pub fn bind(rt: &R, address: &str) -> TcpDoor<R>
        ensures { result ≡ 0 }
    {
        TcpDoor {
            listener: TcpListener::bind(rt, address).ok(),
            faults: 0,
        }
    }

    /// The address that is listened on: `None` where none could be bound.
    pub fn address(&self) -> Option<SocketAddr> {
        match &self.listener {
            Some(listener) => listener.local_addr().ok(),
            None => None,
        }
    }
}

/// The next client that has not gone away.
fn next_stream<L: OpenListener>(listener: &L) -> io::Result<L::Stream> {
    for _ in 0..TRIES {
        match listener.accept() {
            Ok((stream, _)) => return Ok(stream),
            Err(error) if error.kind() == ErrorKind::ConnectionAborted => {}
            Err(error) => return Err(error),
        }
    }
    Err(ErrorKind::ConnectionAborted.into())
}

/// The next link. As far as the system does so, an answer is sent at once and not held back for a later one, and a write
/// fails when its client has taken nothing for so many seconds; a read waits as long as its client says nothing.
fn next_link<R: Net>(door: &TcpDoor<R>) -> io::Result<(TcpIn<R::Stream>, TcpOut<R::Stream>)> {
    let listener = match &door.listener {
        Some(listener) => listener,
        None => return Err(ErrorKind::NotConnected.into()),
    };
    let stream = next_stream(listener)?;
    let _ = stream.set_nodelay(true);
    let _ = stream.set_write_timeout(Some(Duration::from_secs(WRITE_SECONDS)));
    let back = stream.try_clone()?;
    Ok((TcpIn::new(stream), TcpOut::new(back)))
}

impl<R: Net> Acceptor for TcpDoor<R> {
    type In = TcpIn<R::Stream>;

    type Out = TcpOut<R::Stream>;

    ghost to_come = { λ _. None };

    ghost faults = { λ door. door };

    /// Waits for a client. Accepting never ends.
    fn accept(&mut self) -> Result<Option<(TcpIn<R::Stream>, TcpOut<R::Stream>)>, Failed> {
        match next_link(self) {
            Ok(link) => Ok(Some(link)),
            Err(_) => {
                self.faults = self.faults.saturating_add(1);
                Err(Failed)
            }
        }
    }
}
