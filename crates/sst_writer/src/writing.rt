//! A table's file as it is written.

ghost use Rattle.std.specs.Prelude.{◌≡◌, ◌≤◌, ◌++◌, [], ◌∷◌, List, IfOk, IfErr, IfSome, OnOk, length, is_some, true, Some};
ghost use Rattle.kv_base.specs.Map.{Bytes};
ghost use Rattle.kv_base.specs.RowRefs.{row_seen};
ghost use Rattle.kv_base.specs.declared.row.Row.{Row};
ghost use Rattle.kv_outside.specs.Causes.{HasCause, IsCause};
ghost use Rattle.kv_outside.specs.Disk.{Agrees, IsDurable, Touches};
ghost use Rattle.kv_outside.specs.Files.{Goes};
ghost use Rattle.sst_file.specs.Reading.{nowhere};
ghost use Rattle.sst_parts.specs.Tables.{table_text};
ghost use Rattle.sst_writer.specs.Building.{AreThose, IsBuilt, chunk};
ghost use Rattle.sst_writer.specs.Ending.{IsFinished};
ghost use Rattle.sst_writer.specs.Writing.{HoldsBlocks, Longer, LongerUpTo};

use crate::building::{Added, TableBuilder};
use crate::ending::{Finished, finish};
use kv_base::{FileName, NoMem, RowRef, StoreFault};
use kv_outside::{Failed, Files};
use sst_parts::HEAD;
use std::alloc::Global;

/// So many bytes are written together.
const TOGETHER: usize = 65_536;

/// A table whose file is being written: its rows so far, and the bytes that wait behind those that the file has.
#[derive(Drop)]
pub(crate) struct Draft {
    pub table: TableBuilder,
    /// How many bytes the file has.
    pub written: u64,
    pub waiting: Vec<u8>,
}

impl Draft {
    /// A table without rows, whose head waits.
    pub fn new(alloc: Global) -> Result<Draft, NoMem>
        ensures built { IfOk result (λ draft. IsBuilt draft.table.end draft.table.block draft.table.spots.items draft.table.sums.rows draft.table.sums.keys.items draft.table.sums.least draft.table.sums.last []) }
        ensures file { IfOk result (λ draft. HoldsBlocks [] draft.written draft.waiting.items (Some [])) }
    {
        let mut waiting = Vec::with_capacity(alloc, TOGETHER)?;
        waiting.extend_from_slice(&HEAD)?;
        Ok(Draft {
            table: TableBuilder::new(alloc)?,
            written: 0,
            waiting,
        })
    }
}

/// Writes bytes behind those that the file has.
fn append<F: Files>(files: &mut F, log: &mut F::Log, end: u64, bytes: &[u8]) -> Result<(), Failed>
    requires { IfSome (F.bytes_of log.old) (λ c. end ≡ length c) }
    ensures longer { OnOk result (Goes (Longer bytes.now) (F.bytes_of log.old) (F.bytes_of log.new)) }
    ensures name { F.name_of log.new ≡ F.name_of log.old }
    ensures agrees { Agrees (F.disk files.old) (F.name_of log.old) (F.bytes_of log.old) → Agrees (F.disk files.new) (F.name_of log.old) (F.bytes_of log.new) }
    ensures touched { Touches (F.name_of log.old) (F.disk files.old) (F.disk files.new) (λ c. Unit {0}) }
    ensures cause { HasCause (F.faults files.old) (F.faults files.new) result }
{
    files.write_at(log, end, bytes)?;
    Ok(())
}

/// Writes what waits, and answers how many bytes the file has then.
fn flush<F: Files>(
    files: &mut F,
    log: &mut F::Log,
    written: u64,
    waiting: &mut Vec<u8>,
) -> Result<u64, StoreFault>
    requires { IfSome (F.bytes_of log.old) (λ c. written ≡ length c) }
    ensures file { IfOk result (λ end. Goes (LongerUpTo waiting.old.items end) (F.bytes_of log.old) (F.bytes_of log.new)) }
    ensures waiting { OnOk result (waiting.new.items ≡ []) }
    ensures name { F.name_of log.new ≡ F.name_of log.old }
    ensures agrees { Agrees (F.disk files.old) (F.name_of log.old) (F.bytes_of log.old) → Agrees (F.disk files.new) (F.name_of log.old) (F.bytes_of log.new) }
    ensures touched { Touches (F.name_of log.old) (F.disk files.old) (F.disk files.new) (λ c. Unit {0}) }
    ensures cause { IfErr result (λ fault. IsCause (F.faults files.old) (F.faults files.new) nowhere fault) }
    ensures later { F.faults files.old ≤ F.faults files.new }
{
    let Some(end) = written.checked_add(waiting.len() as u64) else {
        return Err(StoreFault::NoMem);
    };
    let Ok(()) = append(files, log, written, waiting.as_slice()) else {
        return Err(StoreFault::Failed);
    };
    waiting.clear();
    Ok(end)
}

/// With a block behind them, where there is one.
fn with_full(waiting: Vec<u8>, full: Option<Vec<u8>>) -> Result<Vec<u8>, NoMem>
    ensures { IfOk result (λ all. all.items ≡ waiting.items ++ chunk full) }
{
    let mut all = waiting;
    if let Some(block) = full {
        all.extend_from_slice(block.as_slice())?;
    }
    Ok(all)
}

/// Adds a row. The blocks that fill are written once they are many bytes together.
pub(crate) fn add<F: Files>(
    alloc: Global,
    files: &mut F,
    log: &mut F::Log,
    draft: Draft,
    row: RowRef<'_>,
) -> Result<Draft, StoreFault>
    requires { IfSome (F.bytes_of log.old) (λ c. draft.written ≡ length c) }
    ensures built { IfOk result (λ more. (rows : List Row) → IsBuilt draft.table.end draft.table.block draft.table.spots.items draft.table.sums.rows draft.table.sums.keys.items draft.table.sums.least draft.table.sums.last rows
        → IsBuilt more.table.end more.table.block more.table.spots.items more.table.sums.rows more.table.sums.keys.items more.table.sums.least more.table.sums.last (rows ++ row_seen row.entry ∷ [])) }
    ensures file { IfOk result (λ more. (rows : List Row) → IsBuilt draft.table.end draft.table.block draft.table.spots.items draft.table.sums.rows draft.table.sums.keys.items draft.table.sums.least draft.table.sums.last rows
        → HoldsBlocks rows draft.written draft.waiting.items (F.bytes_of log.old) → HoldsBlocks (rows ++ row_seen row.entry ∷ []) more.written more.waiting.items (F.bytes_of log.new)) }
    ensures told { OnOk result (is_some (F.bytes_of log.new) ≡ is_some (F.bytes_of log.old)) }
    ensures name { F.name_of log.new ≡ F.name_of log.old }
    ensures agrees { Agrees (F.disk files.old) (F.name_of log.old) (F.bytes_of log.old) → Agrees (F.disk files.new) (F.name_of log.old) (F.bytes_of log.new) }
    ensures touched { Touches (F.name_of log.old) (F.disk files.old) (F.disk files.new) (λ c. Unit {0}) }
    ensures cause { IfErr result (λ fault. IsCause (F.faults files.old) (F.faults files.new) nowhere fault) }
    ensures later { F.faults files.old ≤ F.faults files.new }
{
    let Draft {
        table,
        written,
        waiting,
    } = draft;
    let Added { builder, full } = table.with(alloc, row)?;
    let mut waiting = with_full(waiting, full)?;
    if waiting.len() < TOGETHER {
        return Ok(Draft {
            table: builder,
            written,
            waiting,
        });
    }
    let written = flush(files, log, written, &mut waiting)?;
    Ok(Draft {
        table: builder,
        written,
        waiting,
    })
}

/// A file of a table that was written whole, and what is kept of it.
#[derive(Drop)]
pub(crate) struct Sealed<F: Files> {
    pub file: F::Sealed,
    pub table: Finished,
}

/// Writes what waits and what the table ends with, syncs the file and seals it.
pub(crate) fn end<F: Files>(
    alloc: Global,
    files: &mut F,
    log: F::Log,
    draft: Draft,
) -> Result<Sealed<F>, StoreFault>
    requires { IfSome (F.bytes_of log) (λ c. draft.written ≡ length c) }
    ensures finished { IfOk result (λ done. (rows : List Row) → IsBuilt draft.table.end draft.table.block draft.table.spots.items draft.table.sums.rows draft.table.sums.keys.items draft.table.sums.least draft.table.sums.last rows
        → IsFinished rows done.table.tail.items done.table.builder.spots.items done.table.bits done.table.size) }
    ensures sums { IfOk result (λ done. AreThose done.table.builder.sums.rows draft.table.sums.rows done.table.builder.sums.keys.items draft.table.sums.keys.items done.table.builder.sums.least draft.table.sums.least done.table.builder.sums.last draft.table.sums.last) }
    ensures file { IfOk result (λ done. (rows : List Row) → IsBuilt draft.table.end draft.table.block draft.table.spots.items draft.table.sums.rows draft.table.sums.keys.items draft.table.sums.least draft.table.sums.last rows
        → HoldsBlocks rows draft.written draft.waiting.items (F.bytes_of log) → IfSome (F.sealed_bytes done.file) (λ c. c ≡ table_text rows)) }
    ensures told { IfOk result (λ done. is_some (F.sealed_bytes done.file) ≡ is_some (F.bytes_of log)) }
    ensures durable { IfOk result (λ done. Agrees (F.disk files.old) (F.name_of log) (F.bytes_of log) → IsDurable (F.disk files.new) (F.name_of log) (F.sealed_bytes done.file)) }
    ensures touched { Touches (F.name_of log) (F.disk files.old) (F.disk files.new) (λ c. Unit {0}) }
    ensures cause { IfErr result (λ fault. IsCause (F.faults files.old) (F.faults files.new) nowhere fault) }
    ensures later { F.faults files.old ≤ F.faults files.new }
{
    let Draft {
        table,
        written,
        waiting,
    } = draft;
    let done = finish(alloc, table)?;
    let mut bytes = waiting;
    bytes.extend_from_slice(done.tail.as_slice())?;
    let Ok(file) = close_file(files, log, written, bytes.as_slice()) else {
        return Err(StoreFault::Failed);
    };
    Ok(Sealed { file, table: done })
}

/// Writes the last bytes of a file, and gives it up for writing.
fn close_file<F: Files>(
    files: &mut F,
    log: F::Log,
    end: u64,
    bytes: &[u8],
) -> Result<F::Sealed, Failed>
    requires { IfSome (F.bytes_of log) (λ c. end ≡ length c) }
    ensures longer { IfOk result (λ file. Goes (Longer bytes.now) (F.bytes_of log) (F.sealed_bytes file)) }
    ensures durable { IfOk result (λ file. Agrees (F.disk files.old) (F.name_of log) (F.bytes_of log) → IsDurable (F.disk files.new) (F.name_of log) (F.sealed_bytes file)) }
    ensures touched { Touches (F.name_of log) (F.disk files.old) (F.disk files.new) (λ c. Unit {0}) }
    ensures cause { HasCause (F.faults files.old) (F.faults files.new) result }
{
    let mut log = log;
    append(files, &mut log, end, bytes)?;
    files.sync(&mut log)?;
    files.seal(log)
}

/// Opens a file, and takes away what it has.
pub(crate) fn open_empty<F: Files>(files: &mut F, name: FileName) -> Result<F::Log, Failed>
    ensures name { IfOk result (λ log. F.name_of log ≡ name) }
    ensures empty { IfOk result (λ log. IfSome (F.bytes_of log) (λ c. c ≡ [])) }
    ensures told { IfOk result (λ log. (bytes : Bytes) → (F.disk files.old).reads name ≡ Some bytes → is_some (F.bytes_of log) ≡ true) }
    ensures agrees { IfOk result (λ log. Agrees (F.disk files.new) name (F.bytes_of log)) }
    ensures touched { Touches name (F.disk files.old) (F.disk files.new) (λ c. Unit {0}) }
    ensures cause { HasCause (F.faults files.old) (F.faults files.new) result }
{
    let mut log = files.open(name)?;
    if files.length(&log)? > 0 {
        files.cut(&mut log, 0)?;
    }
    Ok(log)
}
