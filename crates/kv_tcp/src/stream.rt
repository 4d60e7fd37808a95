//! The two ends of a connection.

ghost use Rattle.std.specs.Prelude.{◌≡◌, None, false};
ghost use Rattle.std.specs.Io.{ReadsAtMost, WritesAtMost};

use kv_outside::{Failed, Sink, Source};
use std::io;
use std::io::{ErrorKind, Read, Write};
use std::marker::Model;

/// How often a call is made that a signal interrupts each time.
const TRIES: u32 = 1 << 20;

/// What a client sends. A read that a signal interrupts is made again; every other error is counted.
#[derive(Drop)]
pub struct TcpIn<S: Drop> {
    stream: S,
    ended: bool,
    faults: u64,
}

/// What a client is sent. A write that a signal interrupts is made again; every other error is counted, that of a client
/// which takes nothing for too long among them, as is a write that takes nothing of a piece that has bytes.
#[derive(Drop)]
pub struct TcpOut<S: Drop> {
    stream: S,
    faults: u64,
}

impl<S: Drop> Model for TcpIn<S> {
    ghost use Rattle.kv_tcp.specs.Stream.{TcpInput};

    ghost Value = { TcpInput };

    ghost view = { λ s. record { ended = s.ended; faults = s.faults } };
}

impl<S: Drop> Model for TcpOut<S> {
    ghost use Rattle.std.specs.Prelude.{ℕ};

    ghost Value = { ℕ };

    ghost view = { λ s. s.faults };
}

impl<S: Read + Drop> TcpIn<S> {
    /// The source over this stream.
    pub fn new(stream: S) -> TcpIn<S>
        ensures { result ≡ record { ended = false; faults = 0 } }
    {
        TcpIn {
            stream,
            ended: false,
            faults: 0,
        }
    }
}

impl<S: Write + Drop> TcpOut<S> {
    /// The sink over this stream.
    pub fn new(stream: S) -> TcpOut<S>
        ensures { result ≡ 0 }
    {
        TcpOut { stream, faults: 0 }
    }
}

/// One `recv` that no signal interrupted.
fn receive<S: Read>(stream: &mut S, out: &mut [u8]) -> io::Result<usize>
    ensures { ReadsAtMost result out.new }
{
    for _ in 0..TRIES {
        match stream.read(out) {
            Err(error) if error.kind() == ErrorKind::Interrupted => {}
            outcome => return outcome,
        }
    }
    Err(ErrorKind::Interrupted.into())
}

/// One `send` that no signal interrupted.
fn send<S: Write>(stream: &mut S, piece: &[u8]) -> io::Result<usize>
    ensures { WritesAtMost result piece.now }
{
    for _ in 0..TRIES {
        match stream.write(piece) {
            Err(error) if error.kind() == ErrorKind::Interrupted => {}
            outcome => return outcome,
        }
    }
    Err(ErrorKind::Interrupted.into())
}

impl<S: Read + Drop> Source for TcpIn<S> {
    ghost left = { λ _. None };

    ghost ended = { λ s. s.ended };

    ghost faults = { λ s. s.faults };

    fn read(&mut self, out: &mut [u8]) -> Result<usize, Failed> {
        match receive(&mut self.stream, out) {
            Ok(count) => {
                self.ended = self.ended || (!out.is_empty() && count == 0);
                Ok(count)
            }
            Err(_) => {
                self.faults = self.faults.saturating_add(1);
                Err(Failed)
            }
        }
    }
}

impl<S: Write + Drop> Sink for TcpOut<S> {
    ghost held = { λ _. None };

    ghost faults = { λ s. s };

    fn write(&mut self, piece: &[u8]) -> Result<usize, Failed> {
        let outcome = send(&mut self.stream, piece);
        let stalls = matches!(outcome, Ok(0)) && !piece.is_empty();
        if stalls || outcome.is_err() {
            self.faults = self.faults.saturating_add(1);
        }
        outcome.map_err(|_| Failed)
    }
}
