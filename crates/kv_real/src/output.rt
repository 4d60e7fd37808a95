ghost use Rattle.std.specs.Prelude.{◌≡◌};

use crate::faults::Faults;
use kv_outside::{Failed, Sink};
use std::io::Write;
use std::marker::Model;

/// A sink over a writer of std, as standard output: each write is one of the writer's, and each error is counted, as is
/// a write that takes nothing of a piece that has bytes.
#[derive(Drop)]
pub struct StdOut<W: Drop> {
    writer: W,
    faults: Faults,
}

impl<W: Drop> Model for StdOut<W> {
    ghost use Rattle.kv_real.specs.Output.{Output};

    ghost Value = { Output W };

    ghost view = { λ s. record { writer = s.writer; faults = s.faults } };
}

impl<W: Write + Drop> StdOut<W> {
    /// The sink over this writer.
    pub fn new(writer: W) -> StdOut<W>
        ensures { result ≡ record { writer = writer; faults = 0 } }
    {
        StdOut {
            writer,
            faults: Faults::none(),
        }
    }
}

impl<W: Write + Drop> Sink for StdOut<W> {
    ghost held = { λ s. W.contents s.writer };

    ghost faults = { λ s. s.faults };

    fn write(&mut self, piece: &[u8]) -> Result<usize, Failed> {
        let count = self.faults.note(self.writer.write(piece))?;
        if count == 0 && !piece.is_empty() {
            let _ = self.faults.add();
        }
        Ok(count)
    }
}
