ghost use Rattle.std.specs.Prelude.{◌≡◌, [], ℕ, length, Some, IfOk};
ghost use Rattle.std.specs.Io.{WritesAtMost};
ghost use Rattle.std.specs.Io.KnownBytes.{WriteAppends};
ghost use Rattle.kv_outside.specs.Causes.{HasCause};
ghost use Rattle.kv_outside.specs.Sink.{StallCounts};
ghost use Rattle.kv_fakes.specs.Tally.{Counts};

use crate::Calls;
use crate::failures::Failures;
use kv_outside::{Failed, Sink};
use std::alloc::Global;
use std::marker::Model;

/// A sink that keeps what it takes.
#[derive(Drop)]
pub struct MemSink {
    bytes: Vec<u8>,
    calls: Failures,
}

/// Contracts see the bytes that it has taken, and its calls.
impl Model for MemSink {
    ghost use Rattle.kv_fakes.specs.Sink.{SinkParts};

    ghost Value = { SinkParts };

    ghost view = { λ s. record { bytes = s.bytes.items; calls = s.calls } };
}

impl MemSink {
    /// A sink that has taken nothing, and whose writes of these numbers, from 0, fail.
    pub fn new(alloc: Global, fails: Calls) -> MemSink
        ensures bytes { result.bytes ≡ [] }
        ensures fails { result.calls.fails ≡ fails }
        ensures made { result.calls.made ≡ 0 }
        ensures failed { result.calls.failed ≡ 0 }
    {
        MemSink {
            bytes: Vec::new(alloc),
            calls: Failures::new(fails),
        }
    }

    /// The bytes that it has taken.
    pub fn bytes(&self) -> &[u8]
        ensures { result.now ≡ self.now.bytes }
    {
        self.bytes.as_slice()
    }
}

impl Sink for MemSink {
    ghost held = { λ s. Some s.bytes };

    ghost faults = { λ s. s.calls.failed };

    /// Takes the whole piece. It fails where the call's number is listed, and where there is no memory for the piece.
    fn write(&mut self, piece: &[u8]) -> Result<usize, Failed>
        ensures bound { WritesAtMost result piece.now }
        ensures bytes { WriteAppends (Some self.old.bytes) (Some self.new.bytes) result piece.now }
        ensures cause { HasCause self.old.calls.failed self.new.calls.failed result }
        ensures stall { StallCounts self.old.calls.failed self.new.calls.failed piece.now result }
        ensures whole { IfOk result (λ count. count ≡ length piece.now) }
        ensures counts { Counts self.old.calls self.new.calls result }
    {
        if self.calls.turn() {
            return Err(self.calls.fail());
        }
        match self.bytes.extend_from_slice(piece) {
            Ok(()) => Ok(piece.len()),
            Err(_) => Err(self.calls.fail()),
        }
    }
}
