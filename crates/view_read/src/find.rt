//! The newest row of a raw key, of those in several places.

ghost use Rattle.std.specs.Prelude.{◌≡◌, ◌≤◌, ◌∷◌, Some, IfOk, IfErr, map};
ghost use Rattle.kv_outside.specs.Disk.{NothingNew};
ghost use Rattle.row_model.specs.Rows.{newer, seen_at};
ghost use Rattle.kv_outside.specs.Causes.{IsCause};
ghost use Rattle.view_read.specs.Shows.{ShowsInAll};
ghost use Rattle.view_read.specs.Sources.{frozen_told, table_rows, all_tables, tables_off};

use kv_base::{NoMem, Row, StoreFault};
use kv_outside::Files;
use mem_table::MemTable;
use sst_file::Table;
use std::alloc::Global;

/// The row of greater sequence, of two that may be there; the first where they tie.
pub(crate) fn newer(row: Option<Row>, other: Option<Row>) -> Option<Row>
    ensures { result ≡ newer row other }
{
    match (row, other) {
        (None, other) => other,
        (Some(row), None) => Some(row),
        (Some(row), Some(other)) => {
            if row.seq < other.seq {
                Some(other)
            } else {
                Some(row)
            }
        }
    }
}

/// A copy of the row of a memtable that shows at a sequence.
pub(crate) fn find_in_memory(
    alloc: Global,
    table: &MemTable,
    raw: &[u8],
    seq: u64,
) -> Result<Option<Row>, NoMem>
    ensures { IfOk result (λ row. row ≡ seen_at table.now seq raw.now) }
{
    match table.find(raw, seq) {
        Some(row) => Ok(Some(row.copy(alloc)?)),
        None => Ok(None),
    }
}

/// The row that a memtable and a frozen one show at a sequence.
pub(crate) fn find_in_both(
    alloc: Global,
    memory: &MemTable,
    frozen: &Option<MemTable>,
    raw: &[u8],
    seq: u64,
) -> Result<Option<Row>, NoMem>
    ensures { IfOk result (λ row. ShowsInAll (Some memory.now ∷ frozen_told frozen.now) seq raw.now row) }
{
    let newest = find_in_memory(alloc, memory, raw, seq)?;
    match frozen {
        Some(frozen) => Ok(newer(newest, find_in_memory(alloc, frozen, raw, seq)?)),
        None => Ok(newest),
    }
}

/// The row that the tables of one level show at a sequence.
fn find_in_tables<F: Files>(
    alloc: Global,
    files: &mut F,
    tables: &[Table<F>],
    raw: &[u8],
    seq: u64,
) -> Result<Option<Row>, StoreFault>
    ensures row { IfOk result (λ row. ShowsInAll (table_rows tables.now) seq raw.now row) }
    ensures disk { NothingNew (F.disk files.old) (F.disk files.new) }
    ensures cause { IfErr result (λ fault. IsCause (F.faults files.old) (F.faults files.new) (tables_off tables.now) fault) }
    ensures later { F.faults files.old ≤ F.faults files.new }
{
    let mut newest = None;
    for table in tables {
        let found = table.find(alloc, files, raw, seq)?;
        newest = newer(newest, found);
    }
    Ok(newest)
}

/// The row that the tables of all levels show at a sequence.
pub(crate) fn find_in_levels<F: Files>(
    alloc: Global,
    files: &mut F,
    levels: &[Vec<Table<F>>],
    raw: &[u8],
    seq: u64,
) -> Result<Option<Row>, StoreFault>
    ensures row { IfOk result (λ row. ShowsInAll (table_rows (all_tables (map (λ level. level.items) levels.now))) seq raw.now row) }
    ensures disk { NothingNew (F.disk files.old) (F.disk files.new) }
    ensures cause { IfErr result (λ fault. IsCause (F.faults files.old) (F.faults files.new) (tables_off (all_tables (map (λ level. level.items) levels.now))) fault) }
    ensures later { F.faults files.old ≤ F.faults files.new }
{
    let mut newest = None;
    for level in levels {
        let found = find_in_tables(alloc, files, level.as_slice(), raw, seq)?;
        newest = newer(newest, found);
    }
    Ok(newest)
}
