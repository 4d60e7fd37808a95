//! The rows of a memtable become a table.

ghost use Rattle.std.specs.Prelude.{◌≡◌, ◌≤◌, ◌<◌, IfErr, IfOk, is_some, length, true, Some};
ghost use Rattle.kv_base.specs.Map.{Bytes};
ghost use Rattle.kv_base.specs.declared.name.FileName.{FileName};
ghost use Rattle.kv_outside.specs.Causes.{IsCause};
ghost use Rattle.kv_outside.specs.Disk.{CrashLeaves, Touches};
ghost use Rattle.sst_file.specs.Reading.{nowhere};
ghost use Rattle.sst_writer.specs.Written.{IsTableOf};
ghost use Rattle.compact_job.specs.Flushing.{IsFlushTable, flush_id};

use kv_base::{StoreFault, TableId};
use kv_outside::Files;
use mem_cursor::MemoryRows;
use mem_table::MemTable;
use merge_rows::Ahead;
use sst_file::Table;
use sst_writer::write_table;
use std::alloc::Global;

/// What a flush has to do.
#[derive(Drop)]
pub struct FlushTask {
    /// Who has taken it.
    pub caller: u32,
    /// The rows to write.
    pub table: MemTable,
    /// The run that the table is to have.
    pub run: u64,
}

/// Writes all rows of the task's memtable, which has some, as one table.
///
/// The file begins empty, whatever it had, and is synced and sealed; no other file is changed, and what was written stays
/// also where the call fails. The fault is one of the files, or want of memory, which also stands for a length that fits no
/// four bytes.
pub fn flush<F: Files>(
    alloc: Global,
    files: &mut F,
    task: &FlushTask,
) -> Result<Table<F>, StoreFault>
    requires rows { 0 < length task.now.table }
    ensures table { IfOk result (λ table. IsFlushTable task.now.run task.now.table table) }
    ensures told { IfOk result (λ table. (bytes : Bytes) → (F.disk files.old).reads (FileName.Table (flush_id task.now.run)) ≡ Some bytes → is_some table.rows ≡ true) }
    // From then on a crash leaves the bytes that the format gives for the rows.
    ensures durable { IfOk result (λ table. CrashLeaves (F.disk files.new) (FileName.Table (flush_id task.now.run)) (λ c. IsTableOf c table.rows)) }
    ensures touched { Touches (FileName.Table (flush_id task.now.run)) (F.disk files.old) (F.disk files.new) (λ c. Unit {0}) }
    ensures cause { IfErr result (λ fault. IsCause (F.faults files.old) (F.faults files.new) nowhere fault) }
    ensures later { F.faults files.old ≤ F.faults files.new }
{
    let id = TableId {
        run: task.run,
        part: 0,
    };
    let mut rows = Ahead::new(MemoryRows::of_table(&task.table, &[]));
    let Some(table) = write_table(alloc, files, id, &mut rows, None)? else {
        // There is one, since there are rows.
        return Err(StoreFault::NoMem);
    };
    Ok(table)
}
