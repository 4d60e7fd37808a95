ghost use Rattle.std.specs.Prelude.{◌≡◌, ◌≤◌, List, OnOk, OnErr};
ghost use Rattle.kv_outside.specs.Causes.{HasCause};
ghost use Rattle.kv_outside.specs.Disk.{CrashLeaves};
ghost use Rattle.redis_model.specs.declared.command.Cmds.{Cmds};
ghost use Rattle.redis_model.specs.Desk.{last_sequence};
ghost use Rattle.redis_model.specs.Machine.{State};
ghost use Rattle.log_store.specs.Keeping.{log_file, ComesToKeys, IsKept, Keeps, KeepsOrMore, StandsFor};
ghost use Rattle.log_store.specs.Playing.{IsUnchanged};

use kv_outside::{Failed, Files};
use mem_table::MemTable;
use std::marker::Model;
use wal_log::Segment;

/// A store whose rows lie in one memtable, and the log from which they can be made again.
#[derive(Drop)]
pub struct LogStore<F: Files> {
    pub(crate) table: MemTable,
    pub(crate) log: Segment<F>,
    /// The sequence of the last batch.
    pub(crate) sequence: u64,
    /// The greatest reading of the clock so far, in milliseconds.
    pub(crate) floor: u64,
    /// The moment of the last batch, in milliseconds, or 0 before the first one.
    pub(crate) written: u64,
    /// How many bytes the body has that the last call planned to write: 0 where there was nothing to write.
    pub(crate) planned: u64,
}

impl<F: Files> Model for LogStore<F> {
    ghost use Rattle.std.specs.Prelude.{◌≤◌, ◌^◌, IsTrue};
    ghost use Rattle.redis_model.specs.Desk.{last_sequence};
    ghost use Rattle.row_model.specs.Rows.{are_upto, at};
    ghost use Rattle.log_store.specs.Keeping.{KeptState};

    ghost Value = { KeptState };

    ghost view = { λ s. record { rows = at s.table s.sequence; floor = s.floor; written = s.written; log = s.log; sequence = s.sequence; planned = s.planned } };

    ghost invariant = { λ s. (s.sequence ≤ last_sequence) × (s.floor ≤ 2 ^ 61) × (s.written ≤ s.floor) × IsTrue (are_upto s.sequence s.table) };
}

impl<F: Files> LogStore<F> {
    /// The sequence of the last batch, or 0 before the first one.
    pub fn sequence(&self) -> u64
        ensures sequence { result ≡ self.now.sequence }
        ensures limit { result ≤ last_sequence }
    {
        self.sequence
    }

    /// How many bytes the body has that the last call planned to write, or 2^64 - 1 where it has more: 0 where there was
    /// nothing to write.
    pub fn planned(&self) -> u64
        ensures { result ≡ self.now.planned }
    {
        self.planned
    }

    /// Ends the use of the log: where its last append failed, the gate of that record is closed.
    ///
    /// It fails where a call to the files failed. Then a crash may leave the rows as they are, or after the batch that was
    /// tried.
    pub fn close(&mut self, files: &mut F) -> Result<(), Failed>
        ensures kept { OnOk result ((failed : List Cmds) → IsKept (F.disk files.old) self.old failed → Keeps (F.disk files.new) self.old) }
        ensures keys { OnOk result ((failed : List Cmds) → IsKept (F.disk files.old) self.old failed → (s : State) → StandsFor self.old s
            → CrashLeaves (F.disk files.new) log_file (ComesToKeys s.floor s.keys)) }
        ensures kept_or_more { OnErr result ((failed : List Cmds) → IsKept (F.disk files.old) self.old failed → KeepsOrMore (F.disk files.new) self.old failed) }
        ensures unchanged { IsUnchanged self.old self.new }
        ensures cause { HasCause (F.faults files.old) (F.faults files.new) result }
    {
        self.log.mend(files)
    }
}
