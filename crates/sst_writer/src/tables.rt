//! Writing the next table of a run of rows.

ghost use Rattle.std.specs.Prelude.{◌≡◌, ◌≤◌, List, IfOk, IfErr, IfSome, OnErr, OnOk, Some, true, is_some, not};
ghost use Rattle.kv_base.specs.Map.{Bytes};
ghost use Rattle.kv_base.specs.declared.row.Row.{Row};
ghost use Rattle.kv_outside.specs.Causes.{IsCause};
ghost use Rattle.kv_outside.specs.Disk.{CrashLeaves, IsDurable, Touches};
ghost use Rattle.sst_file.specs.Opening.{IsDescOf};
ghost use Rattle.sst_grammar.specs.Judging.{has_none};
ghost use Rattle.sst_writer.specs.Cutting.{AreLeftOver};
ghost use Rattle.sst_writer.specs.Written.{AreBehind, IsNextSealed, IsNextTable, IsSealed, IsTableFor, IsTableOf};

use crate::building::TableBuilder;
use crate::ending::Finished;
use crate::filling::fill;
use crate::writing::{Sealed, end, open_empty};
use kv_base::{FileName, NoMem, StoreFault, TableDesc, TableId};
use kv_outside::Files;
use merge_rows::{Ahead, Cursor, Upcoming};
use sst_file::Table;
use sst_sums::Sums;
use std::alloc::Global;

/// What is known of a table with these sums without its file.
fn desc_of(id: TableId, bytes: u64, sums: Sums) -> Result<TableDesc, NoMem>
    ensures { IfOk result (λ desc. IsDescOf desc id bytes sums.rows sums.least sums.last) }
{
    let Sums {
        rows,
        least,
        last,
        ..
    } = sums;
    // A table of some rows has both.
    let (Some(least), Some(last)) = (least, last) else {
        return Err(NoMem);
    };
    Ok(TableDesc {
        id,
        rows,
        bytes,
        least,
        greatest: last.raw,
    })
}

/// The table of a file that was written whole.
fn table_of<F: Files>(alloc: Global, id: TableId, sealed: Sealed<F>) -> Result<Table<F>, NoMem>
    requires { (rows : List Row) × IsSealed rows sealed.table.tail.items sealed.table.builder.spots.items sealed.table.bits sealed.table.size sealed.table.builder.sums.rows sealed.table.builder.sums.keys.items sealed.table.builder.sums.least sealed.table.builder.sums.last (F.sealed_bytes sealed.file) }
    ensures { IfOk result (λ table. (rows : List Row) → IsSealed rows sealed.table.tail.items sealed.table.builder.spots.items sealed.table.bits sealed.table.size sealed.table.builder.sums.rows sealed.table.builder.sums.keys.items sealed.table.builder.sums.least sealed.table.builder.sums.last (F.sealed_bytes sealed.file)
        → IsTableFor id rows (F.sealed_bytes sealed.file) table) }
{
    let Sealed { file, table } = sealed;
    let Finished {
        builder,
        bits,
        size,
        ..
    } = table;
    let TableBuilder { spots, sums, .. } = builder;
    let desc = desc_of(id, size, sums)?;
    let table = Table::of_written(alloc, file, desc, spots, bits)?;
    Ok(table)
}

/// Writes the file of the next table.
fn write_file<F: Files, C: Cursor<F>>(
    alloc: Global,
    files: &mut F,
    id: TableId,
    rows: &mut Ahead<C>,
    limit: Option<u64>,
) -> Result<Sealed<F>, StoreFault>
    ensures sealed { IfOk result (λ sealed. IsNextSealed limit (⟦<Ahead<C> as Upcoming>⟧.rows rows.old) (⟦<Ahead<C> as Upcoming>⟧.rows rows.new) sealed.table.tail.items sealed.table.builder.spots.items sealed.table.bits sealed.table.size sealed.table.builder.sums.rows sealed.table.builder.sums.keys.items sealed.table.builder.sums.least sealed.table.builder.sums.last (F.sealed_bytes sealed.file)) }
    ensures told { IfOk result (λ sealed. (bytes : Bytes) → (F.disk files.old).reads (FileName.Table id) ≡ Some bytes → is_some (F.sealed_bytes sealed.file) ≡ true) }
    ensures durable { IfOk result (λ sealed. IsDurable (F.disk files.new) (FileName.Table id) (F.sealed_bytes sealed.file)) }
    ensures rest { OnErr result (AreLeftOver (⟦<Ahead<C> as Upcoming>⟧.rows rows.old) (⟦<Ahead<C> as Upcoming>⟧.rows rows.new)) }
    ensures off { ⟦<Ahead<C> as Upcoming>⟧.off rows.new ≡ ⟦<Ahead<C> as Upcoming>⟧.off rows.old }
    ensures left { ⟦<Ahead<C> as Upcoming>⟧.left rows.new ≤ ⟦<Ahead<C> as Upcoming>⟧.left rows.old }
    ensures touched { Touches (FileName.Table id) (F.disk files.old) (F.disk files.new) (λ c. Unit {0}) }
    ensures cause { IfErr result (λ fault. IsCause (F.faults files.old) (F.faults files.new) (⟦<Ahead<C> as Upcoming>⟧.off rows.old) fault) }
    ensures later { F.faults files.old ≤ F.faults files.new }
{
    let Ok(log) = open_empty(files, FileName::Table(id)) else {
        return Err(StoreFault::Failed);
    };
    let mut log = log;
    let draft = fill(alloc, files, &mut log, rows, limit)?;
    end(alloc, files, log, draft)
}

/// Writes the next table of the rows that the cursor has ahead, and leaves the others. There is none exactly where no
/// row is left.
///
/// The table ends with the rows, or before the first row of another raw key once the bodies of its blocks have as many
/// bytes as the limit. Its file begins empty, whatever it had, and is synced and sealed; what was written stays also
/// where the call fails, and no other file is changed. Want of memory is answered also where a length fits no four
/// bytes, and for a row that a cursor whose rows are told cannot give: one that is off its grammar, or not behind the
/// one before it. After a fault the rows that were taken are gone, and the others are still to come.
pub fn write_table<F: Files, C: Cursor<F>>(
    alloc: Global,
    files: &mut F,
    id: TableId,
    rows: &mut Ahead<C>,
    limit: Option<u64>,
) -> Result<Option<Table<F>>, StoreFault>
    ensures some { IfOk result (λ table. IfSome (⟦<Ahead<C> as Upcoming>⟧.rows rows.old) (λ all. is_some table ≡ not (has_none all))) }
    ensures table { IfOk result (λ table. IfSome table (λ table. IfSome (⟦<Ahead<C> as Upcoming>⟧.rows rows.old) (λ all. IsNextTable id limit all table))) }
    ensures told { IfOk result (λ table. IfSome table (λ table. (bytes : Bytes) → (F.disk files.old).reads (FileName.Table id) ≡ Some bytes → is_some table.rows ≡ true)) }
    // From then on a crash leaves the bytes that the format gives for the table's rows.
    ensures durable { IfOk result (λ table. IfSome table (λ table. CrashLeaves (F.disk files.new) (FileName.Table id) (λ c. IsTableOf c table.rows))) }
    ensures behind { OnOk result (AreBehind limit (⟦<Ahead<C> as Upcoming>⟧.rows rows.old) (⟦<Ahead<C> as Upcoming>⟧.rows rows.new)) }
    ensures rest { OnErr result (AreLeftOver (⟦<Ahead<C> as Upcoming>⟧.rows rows.old) (⟦<Ahead<C> as Upcoming>⟧.rows rows.new)) }
    ensures off { ⟦<Ahead<C> as Upcoming>⟧.off rows.new ≡ ⟦<Ahead<C> as Upcoming>⟧.off rows.old }
    ensures left { ⟦<Ahead<C> as Upcoming>⟧.left rows.new ≤ ⟦<Ahead<C> as Upcoming>⟧.left rows.old }
    ensures touched { Touches (FileName.Table id) (F.disk files.old) (F.disk files.new) (λ c. Unit {0}) }
    ensures cause { IfErr result (λ fault. IsCause (F.faults files.old) (F.faults files.new) (⟦<Ahead<C> as Upcoming>⟧.off rows.old) fault) }
    ensures later { F.faults files.old ≤ F.faults files.new }
{
    rows.peek(alloc, files)?;
    if rows.shown().is_none() {
        return Ok(None);
    }
    let sealed = write_file(alloc, files, id, rows, limit)?;
    let table = table_of(alloc, id, sealed)?;
    Ok(Some(table))
}
