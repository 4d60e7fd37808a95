ghost use Rattle.std.specs.Prelude.{◌≡◌, ◌≤◌, [], length, take};
ghost use Rattle.kv_outside.specs.Writing.{Writes};

use crate::failed::Failed;
use crate::sink::Sink;
use crate::writing::write_all;
use std::alloc::Global;
use std::marker::Model;

/// Bytes that wait in memory to be passed on to a sink, so that many small writes become few large ones. It keeps its
/// memory for what comes next.
#[derive(Drop)]
pub struct OutputBuffer {
    bytes: Vec<u8>,
    faults: u64,
}

impl Model for OutputBuffer {
    ghost use Rattle.kv_outside.specs.OutputBuffer.{Waiting};

    ghost Value = { Waiting };

    ghost view = { λ o. record { bytes = o.bytes.items; faults = o.faults } };
}

impl OutputBuffer {
    /// An output in which nothing waits.
    pub fn new(alloc: Global) -> OutputBuffer
        ensures bytes { result.bytes ≡ [] }
        ensures faults { result.faults ≡ 0 }
    {
        OutputBuffer {
            bytes: Vec::new(alloc),
            faults: 0,
        }
    }

    /// How many bytes wait.
    pub fn len(&self) -> usize
        ensures { result ≡ length self.now.bytes }
    {
        self.bytes.len()
    }

    /// Takes back what came after the first `len` bytes.
    pub fn truncate(&mut self, len: usize)
        ensures bytes { self.new.bytes ≡ take len self.old.bytes }
        ensures faults { self.new.faults ≡ self.old.faults }
    {
        self.bytes.truncate(len);
    }

    /// Writes all that waits to the sink, or a front of it where the sink fails. Nothing waits afterwards.
    pub fn flush<K: Sink>(&mut self, sink: &mut K) -> Result<(), Failed>
        ensures written { Writes (K.held sink.old) (K.held sink.new) (K.faults sink.old) (K.faults sink.new) self.old.bytes result }
        ensures empty { self.new.bytes ≡ [] }
        ensures faults { self.new.faults ≡ self.old.faults }
    {
        let written = write_all(&self.bytes, sink);
        self.bytes.clear();
        written
    }
}

/// A write fails where there is no memory for the piece, and takes all of it else.
impl Sink for OutputBuffer {
    ghost use Rattle.std.specs.Prelude.{Some};

    ghost held = { λ o. Some o.bytes };

    ghost faults = { λ o. o.faults };

    fn write(&mut self, piece: &[u8]) -> Result<usize, Failed> {
        match self.bytes.extend_from_slice(piece) {
            Ok(()) => Ok(piece.len()),
            Err(_) => {
                self.faults = self.faults.saturating_add(1);
                Err(Failed)
            }
        }
    }
}
