ghost use Rattle.std.specs.Prelude.{◌≡◌, ℕ, None, IfOk};

use kv_base::{Blob, NoMem};
use kv_fakes::{Calls, MemSink};
use kv_outside::{Failed, Sink};
use std::alloc::Global;
use std::marker::Model;
use std::sync::{Arc, Mutex, Wait};

/// One of several values over the same sink in memory, each with a count of its own faults. No clause tells the bytes,
/// since any of them may add some.
#[derive(Drop)]
pub struct SharedSink<R: Wait + Copy> {
    rt: R,
    sink: Arc<Mutex<MemSink>, Global>,
    faults: u64,
}

/// Contracts see the count of its faults.
impl<R: Wait + Copy> Model for SharedSink<R> {
    ghost Value = { ℕ };

    ghost view = { λ s. s.faults };
}

impl<R: Wait + Copy> SharedSink<R> {
    /// A sink that has taken nothing, and whose writes of these numbers, from 0, fail, whichever value they come by.
    pub fn new(rt: R, alloc: Global, fails: Calls) -> Result<SharedSink<R>, NoMem>
        ensures { IfOk result (λ s. s ≡ 0) }
    {
        match Arc::new(alloc, Mutex::new(MemSink::new(alloc, fails))) {
            Ok(sink) => Ok(SharedSink {
                rt,
                sink,
                faults: 0,
            }),
            Err(_) => Err(NoMem),
        }
    }

    /// Another value over the same sink.
    pub fn also(&self) -> Result<SharedSink<R>, NoMem>
        ensures { IfOk result (λ s. s ≡ 0) }
    {
        let sink = Arc::try_clone(&self.sink)?;
        Ok(SharedSink {
            rt: self.rt,
            sink,
            faults: 0,
        })
    }

    /// A copy of the bytes that the sink has taken so far, whichever value they came by.
    pub fn taken(&self, alloc: Global) -> Result<Blob, NoMem> {
        let sink = self.sink.lock(&self.rt);
        Blob::copy(alloc, sink.bytes())
    }
}

impl<R: Wait + Copy> Sink for SharedSink<R> {
    ghost held = { λ _. None };

    ghost faults = { λ s. s };

    /// Takes the whole piece. It fails where the call's number is listed, and where there is no memory for the piece.
    fn write(&mut self, piece: &[u8]) -> Result<usize, Failed> {
        let outcome = self.sink.lock(&self.rt).write(piece);
        if outcome.is_err() {
            self.faults = self.faults.saturating_add(1);
        }
        outcome
    }
}
