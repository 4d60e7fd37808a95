ghost use Rattle.std.specs.Prelude.{◌≡◌, ◌==◌, ◌&&◌, None, false, nat_lt};

use crate::faults::Faults;
use kv_base::PathText;
use kv_outside::{Failed, Source};
use std::fs;
use std::fs::File;
use std::io::Read;
use std::marker::Model;

/// Whether the answer of a read into this much room says that the input has ended.
fn is_end(room: usize, count: usize) -> bool
    ensures { result ≡ (nat_lt 0 room && (count == 0)) }
{
    room > 0 && count == 0
}

/// A source over a reader of std, as standard input: each read is one of the reader's, and each error is counted.
#[derive(Drop)]
pub struct StdIn<R: Drop> {
    reader: R,
    ended: bool,
    faults: Faults,
}

impl<R: Drop> Model for StdIn<R> {
    ghost use Rattle.kv_real.specs.Input.{Input};

    ghost Value = { Input R };

    ghost view = { λ s. record { reader = s.reader; ended = s.ended; faults = s.faults } };
}

impl<R: Read + Drop> StdIn<R> {
    /// The source over this reader.
    pub fn new(reader: R) -> StdIn<R>
        ensures { result ≡ record { reader = reader; ended = false; faults = 0 } }
    {
        StdIn {
            reader,
            ended: false,
            faults: Faults::none(),
        }
    }
}

impl<R: Read + Drop> Source for StdIn<R> {
    ghost left = { λ s. R.remaining s.reader };

    ghost ended = { λ s. s.ended };

    ghost faults = { λ s. s.faults };

    fn read(&mut self, out: &mut [u8]) -> Result<usize, Failed> {
        let count = self.faults.note(self.reader.read(out))?;
        self.ended = self.ended || is_end(out.len(), count);
        Ok(count)
    }
}

/// The bytes of a file as a source, from the first on: each read is one `read` of the system. A file that can't be
/// opened fails at each read. Each error is counted.
#[derive(Drop)]
pub struct FileIn {
    file: Option<File>,
    ended: bool,
    faults: Faults,
}

impl Model for FileIn {
    ghost use Rattle.kv_real.specs.Input.{FileInput};

    ghost Value = { FileInput };

    ghost view = { λ s. record { ended = s.ended; faults = s.faults } };
}

impl FileIn {
    /// Opens the file: one `openat`.
    pub fn new<R: fs::Files<File = File>>(rt: &R, path: PathText) -> FileIn
        ensures { result ≡ record { ended = false; faults = 0 } }
    {
        FileIn {
            file: File::open(rt, path.text()).ok(),
            ended: false,
            faults: Faults::none(),
        }
    }
}

impl Source for FileIn {
    ghost left = { λ _. None };

    ghost ended = { λ s. s.ended };

    ghost faults = { λ s. s.faults };

    fn read(&mut self, out: &mut [u8]) -> Result<usize, Failed> {
        let file = match &mut self.file {
            Some(file) => file,
            None => return Err(self.faults.add()),
        };
        let count = self.faults.note(file.read(out))?;
        self.ended = self.ended || is_end(out.len(), count);
        Ok(count)
    }
}
