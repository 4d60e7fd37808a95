//! Three batches: all in one memtable, and each in a place of its own.
ghost use Rattle.std.specs.Prelude.{◌≡◌, ◌<◌, ◌≤◌, IfOk, IfSome, IsTrue};
ghost use Rattle.row_model.specs.Rows.{are_upto};
ghost use Rattle.kv_tests_views.specs.Over.{AreDistinctUpto, are_over};

use batch_codec::Batch;
use kv_base::{Blob, NoMem, TableId, is_raw, is_value};
use kv_fakes::MemDisk;
use mem_cursor::MemoryRows;
use mem_table::MemTable;
use merge_rows::Ahead;
use sst_file::Table;
use sst_writer::write_table;
use std::alloc::Global;
use std::sync::Arc;
use std::test::Fail;
use view_read::Sources;

const ID: TableId = TableId { run: 1, part: 0 };

/// The metadata of `a`, `b`, `c` and `d`.
pub const A: &[u8] = b"\x6D\x00\x61";

pub const B: &[u8] = b"\x6D\x00\x62";

pub const C: &[u8] = b"\x6D\x00\x63";

pub const D: &[u8] = b"\x6D\x00\x64";

/// The strings `1` and `22`.
pub const ONE: &[u8] = b"\x81\0\0\0\0\0\0\0\0\x31";

pub const TWO: &[u8] = b"\x81\0\0\0\0\0\0\0\0\x32\x32";

fn put(alloc: Global, batch: &mut Batch, raw: &[u8], value: &[u8]) -> Result<(), Fail> {
    if !is_value(raw, value) {
        return Err(Fail::from("a row"));
    }
    Ok(batch.put(Blob::copy(alloc, raw)?, Blob::copy(alloc, value)?)?)
}

fn delete(alloc: Global, batch: &mut Batch, raw: &[u8]) -> Result<(), Fail> {
    if !is_raw(raw) {
        return Err(Fail::from("a raw key"));
    }
    Ok(batch.delete(Blob::copy(alloc, raw)?)?)
}

/// `A`, `B` and `C` are put under 5.
fn oldest(alloc: Global) -> Result<Batch, Fail> {
    let mut batch = Batch::new(alloc);
    put(alloc, &mut batch, A, ONE)?;
    put(alloc, &mut batch, B, ONE)?;
    put(alloc, &mut batch, C, ONE)?;
    Ok(batch)
}

/// `B` is deleted and `C` put again under 9.
fn newer(alloc: Global) -> Result<Batch, Fail> {
    let mut batch = Batch::new(alloc);
    delete(alloc, &mut batch, B)?;
    put(alloc, &mut batch, C, TWO)?;
    Ok(batch)
}

/// `A` is deleted and `B` and `D` put under 12.
fn newest(alloc: Global) -> Result<Batch, Fail> {
    let mut batch = Batch::new(alloc);
    delete(alloc, &mut batch, A)?;
    put(alloc, &mut batch, B, TWO)?;
    put(alloc, &mut batch, D, ONE)?;
    Ok(batch)
}

/// The table with a batch under a sequence that is above the greatest one.
#[tactic(auto, using(row_model::specs::RowOrderLaws::below_from_upto))]
fn grown(
    alloc: Global,
    table: &MemTable,
    batch: &Batch,
    last: u64,
    seq: u64,
) -> Result<MemTable, NoMem>
    requires held { IsTrue (are_upto last table.now) }
    requires above { last < seq }
    ensures { IfOk result (λ next. IsTrue (are_upto seq next)) }
{
    table.with(alloc, batch, seq)
}

/// All three in one memtable.
pub fn together(alloc: Global) -> Result<Sources<MemDisk>, Fail> {
    let first = grown(alloc, &MemTable::new(), &oldest(alloc)?, 0, 5)?;
    let second = grown(alloc, &first, &newer(alloc)?, 5, 9)?;
    let third = grown(alloc, &second, &newest(alloc)?, 9, 12)?;
    Ok(Sources::in_memory(alloc, third)?)
}

/// A memtable of one batch.
#[tactic(auto, using(crate::proofs::Distinct::over_batch))]
fn alone(alloc: Global, batch: &Batch, last: u64, seq: u64) -> Result<MemTable, NoMem>
    requires { last < seq }
    ensures upto { IfOk result (λ table. IsTrue (are_upto seq table)) }
    ensures over { IfOk result (λ table. IsTrue (are_over last table)) }
{
    MemTable::new().with(alloc, batch, seq)
}

/// A table of the rows of a memtable.
fn written(
    alloc: Global,
    disk: &mut MemDisk,
    memory: &MemTable,
    last: u64,
) -> Result<Table<MemDisk>, Fail>
    requires { IsTrue (are_upto last memory.now) }
    ensures { IfOk result (λ table. IfSome table.rows (AreDistinctUpto last)) }
{
    let mut rows = Ahead::new(MemoryRows::of_table(memory, &[]));
    match write_table(alloc, disk, ID, &mut rows, None)? {
        Some(table) => Ok(table),
        None => Err(Fail::from("a table")),
    }
}

/// A memtable over a frozen one, and this over a table.
fn layered(
    alloc: Global,
    memory: MemTable,
    frozen: MemTable,
    table: Table<MemDisk>,
    high: u64,
    low: u64,
) -> Result<Sources<MemDisk>, NoMem>
    requires memory { IsTrue (are_over high memory) }
    requires frozen { IsTrue (are_over low frozen) }
    requires frozen_upto { IsTrue (are_upto high frozen) }
    requires table { IfSome table.rows (AreDistinctUpto low) }
    requires order { low ≤ high }
{
    let _rows = memory.len();
    let _more = frozen.len();
    let mut level = Vec::new(alloc);
    level.push(table)?;
    let mut levels = Vec::new(alloc);
    levels.push(level)?;
    let levels = Arc::new(alloc, levels)?;
    Ok(Sources::new(memory, Some(frozen), levels))
}

/// The oldest batch in a table, the newer one in a frozen memtable, and the newest one in a memtable.
pub fn apart(alloc: Global, disk: &mut MemDisk) -> Result<Sources<MemDisk>, Fail> {
    let old = alone(alloc, &oldest(alloc)?, 0, 5)?;
    let table = written(alloc, disk, &old, 5)?;
    let frozen = alone(alloc, &newer(alloc)?, 5, 9)?;
    let memory = alone(alloc, &newest(alloc)?, 9, 12)?;
    Ok(layered(alloc, memory, frozen, table, 9, 5)?)
}
