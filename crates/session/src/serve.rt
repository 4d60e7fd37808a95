ghost use Rattle.std.specs.Prelude.{◌≡◌, ◌≤◌};
ghost use Rattle.cmd_words.specs.Words.{AreRequestWords};
ghost use Rattle.session.specs.Serving.{Answers, NextAs, Serves};
ghost use Rattle.session.specs.declared.serve.Stopped.TheVariants.{WriteFault as write_fault};

use crate::send::send;
use crate::turn::take_turn;
use kv_base::Blobs;
use kv_outside::{Failed, OutputBuffer, Sink};
use redis_model::Desk;
use resp_wire::{NextFault, ProtocolFault, Reader};
use std::alloc::Global;

/// Why no further request is answered.
#[derive(Clone, Copy, Debug, PartialEq, Eq)]
pub enum Stopped {
    /// There is no memory for the next request.
    NoMem,
    WriteFault,
    /// The bytes are off the wire's grammar, at a place from which on so many of those fed stand.
    Wire(ProtocolFault, usize),
    /// A QUIT was answered.
    Quit,
}

impl From<Failed> for Stopped {
    ghost from_gives = { λ _ e. e ≡ write_fault };

    fn from(_error: Failed) -> Stopped {
        Stopped::WriteFault
    }
}

/// Answers a request, and writes the answer.
fn answer<D: Desk, K: Sink>(
    alloc: Global,
    words: Blobs,
    desk: &mut D,
    output: &mut OutputBuffer,
    sink: &mut K,
) -> Result<(), Stopped>
    requires { AreRequestWords words }
    ensures said { Answers D.told desk.old desk.new (K.held sink.old) (K.held sink.new) output.old.bytes output.new.bytes (K.faults sink.old) (K.faults sink.new) words result }
    ensures later { K.faults sink.old ≤ K.faults sink.new }
    ensures loans { D.loans desk.new ≡ D.loans desk.old }
{
    let said = take_turn(alloc, words, desk);
    send(&said, output, sink)?;
    if said.is_quit() {
        return Err(Stopped::Quit);
    }
    Ok(())
}

/// The words of the next request, where one is whole.
fn next_words(reader: &mut Reader) -> Result<Option<Blobs>, Stopped>
    ensures { NextAs reader.old reader.new result }
{
    match reader.next() {
        Ok(words) => Ok(words),
        Err(NextFault::NoMem) => Err(Stopped::NoMem),
        Err(NextFault::Wire(kind, left)) => Err(Stopped::Wire(kind, left)),
    }
}

/// Answers the requests that are whole, in order, up to a QUIT.
pub fn serve<D: Desk, K: Sink>(
    alloc: Global,
    reader: &mut Reader,
    desk: &mut D,
    output: &mut OutputBuffer,
    sink: &mut K,
) -> Result<(), Stopped>
    ensures served { Serves D.told desk.old desk.new (K.held sink.old) (K.held sink.new) output.old.bytes output.new.bytes (K.faults sink.old) (K.faults sink.new) reader.old reader.new result }
    ensures later { K.faults sink.old ≤ K.faults sink.new }
    ensures loans { D.loans desk.new ≡ D.loans desk.old }
{
    while let Some(words) = next_words(reader)? {
        answer(alloc, words, desk, output, sink)?;
    }
    Ok(())
}
