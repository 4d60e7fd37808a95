ghost use Rattle.std.specs.Prelude.{◌-◌};
ghost use Rattle.kv_outside.specs.Writing.{Writes};
ghost use Rattle.resp_wire.specs.Fault.{fault_line};
ghost use Rattle.resp_wire.specs.Grammar.{requests};
ghost use Rattle.resp_wire.specs.Reading.{IsUnfinished};
ghost use Rattle.session.specs.Serving.{TellsAs, StopsAs, FinishesAs};

use crate::serve::Stopped;
use crate::session::Outcome;
use kv_outside::{Failed, OutputBuffer, Sink};
use resp_wire::{Reader, WireFault, write_fault};
use std::alloc::Global;

/// Writes the line of a fault, all at once where there is memory for it.
fn write_line<K: Sink>(
    alloc: Global,
    fault: WireFault,
    place: u64,
    sink: &mut K,
) -> Result<(), Failed>
    ensures { Writes (K.held sink.old) (K.held sink.new) (K.faults sink.old) (K.faults sink.new) (fault_line fault place) result }
{
    let mut output = OutputBuffer::new(alloc);
    match write_fault(fault, place, &mut output) {
        Ok(()) => output.flush(sink),
        Err(_) => write_fault(fault, place, sink),
    }
}

/// Tells the client of a fault of the wire, at a place from which on so many of the bytes taken stand.
fn tell<K: Sink>(alloc: Global, fault: WireFault, left: usize, taken: u64, sink: &mut K) -> Outcome
    ensures { TellsAs (K.held sink.old) (K.held sink.new) (K.faults sink.old) (K.faults sink.new) (fault_line fault (taken - left)) result }
{
    let place = taken.saturating_sub(left as u64);
    match write_line(alloc, fault, place, sink) {
        Ok(()) => Outcome::Protocol,
        Err(_) => Outcome::WriteFault,
    }
}

/// How a session ends that was stopped.
pub fn stop<K: Sink>(alloc: Global, stopped: Stopped, taken: u64, sink: &mut K) -> Outcome
    ensures { StopsAs (K.held sink.old) (K.held sink.new) (K.faults sink.old) (K.faults sink.new) taken stopped result }
{
    match stopped {
        Stopped::NoMem => Outcome::NoMem,
        Stopped::WriteFault => Outcome::WriteFault,
        Stopped::Wire(kind, left) => tell(alloc, WireFault::from(kind), left, taken, sink),
        Stopped::Quit => Outcome::Closed,
    }
}

/// How a session ends whose input has ended.
pub fn finish<K: Sink>(alloc: Global, reader: &Reader, taken: u64, sink: &mut K) -> Outcome
    requires { IsUnfinished reader.now }
    ensures { FinishesAs (K.held sink.old) (K.held sink.new) (K.faults sink.old) (K.faults sink.new) taken (requests reader.now).1 result }
{
    match reader.finish() {
        None => Outcome::Closed,
        Some(left) => tell(alloc, WireFault::Cut, left, taken, sink),
    }
}
