//! What a table ends with: the last block, the index, the filter and the foot.

ghost use Rattle.std.specs.Prelude.{◌≡◌, ◌++◌, List, IfOk};
ghost use Rattle.kv_base.specs.declared.row.Row.{Row};
ghost use Rattle.sst_parts.specs.Tables.{IsFoot};
ghost use Rattle.sst_writer.specs.Building.{AreThose, IsBuilt, chunk};
ghost use Rattle.sst_writer.specs.Ending.{IsAll, IsEnding, IsFinished, foot_behind};

use crate::building::{Added, TableBuilder, close};
use kv_base::NoMem;
use sst_parts::{Bits, Foot, encode_index};
use std::alloc::Global;

/// A table whose rows are all there, the bytes that stand behind those that came out before, its filter, and the bytes
/// of the whole file.
#[derive(Drop)]
pub(crate) struct Finished {
    pub builder: TableBuilder,
    pub tail: Vec<u8>,
    pub bits: Bits,
    pub size: u64,
}

/// Index, filter and foot.
#[derive(Drop)]
struct Ending {
    bytes: Vec<u8>,
    bits: Bits,
    size: u64,
}

/// The table of the rows that came in.
pub(crate) fn finish(alloc: Global, table: TableBuilder) -> Result<Finished, NoMem>
    ensures finished { IfOk result (λ done. (rows : List Row) → IsBuilt table.end table.block table.spots.items table.sums.rows table.sums.keys.items table.sums.least table.sums.last rows
        → IsFinished rows done.tail.items done.builder.spots.items done.bits done.size) }
    ensures sums { IfOk result (λ done. AreThose done.builder.sums.rows table.sums.rows done.builder.sums.keys.items table.sums.keys.items done.builder.sums.least table.sums.least done.builder.sums.last table.sums.last) }
{
    let Added { builder, full } = close_last(alloc, table)?;
    let Ending { bytes, bits, size } = ending_of(alloc, &builder)?;
    let tail = joined(full, bytes)?;
    Ok(Finished {
        builder,
        tail,
        bits,
        size,
    })
}

/// With its open block closed, where that has rows.
fn close_last(alloc: Global, table: TableBuilder) -> Result<Added, NoMem>
    ensures all { IfOk result (λ added. (rows : List Row) → IsBuilt table.end table.block table.spots.items table.sums.rows table.sums.keys.items table.sums.least table.sums.last rows
        → IsAll rows added.builder.end added.builder.spots.items (chunk added.full)) }
    ensures sums { IfOk result (λ added. AreThose added.builder.sums.rows table.sums.rows added.builder.sums.keys.items table.sums.keys.items added.builder.sums.least table.sums.least added.builder.sums.last table.sums.last) }
{
    if table.block.len() == 0 {
        return Ok(Added {
            builder: table,
            full: None,
        });
    }
    let TableBuilder {
        end,
        block,
        spots,
        sums,
    } = table;
    let Some(row) = &sums.last else {
        return Err(NoMem);
    };
    let last = row.raw.try_copy(alloc)?;
    close(alloc, end, block, spots, sums, last)
}

/// Index, filter and foot of a table whose blocks are closed.
fn ending_of(alloc: Global, table: &TableBuilder) -> Result<Ending, NoMem>
    ensures { IfOk result (λ ending. IsEnding table.now.end table.now.spots.items table.now.sums.rows table.now.sums.keys.items ending.bytes.items ending.bits ending.size) }
{
    let index = encode_index(alloc, table.spots.as_slice())?;
    let bits = Bits::of_hashes(alloc, table.sums.keys.as_slice())?;
    let filter = bits.text(alloc)?;
    let foot = foot_of(table.end, index.len(), filter.len(), table.sums.rows)?;
    let foot = foot.encode(alloc)?;
    let mut bytes = index;
    bytes.extend_from_slice(filter.as_slice())?;
    bytes.extend_from_slice(foot.as_slice())?;
    let Some(size) = table.end.checked_add(bytes.len() as u64) else {
        return Err(NoMem);
    };
    Ok(Ending { bytes, bits, size })
}

/// The foot behind blocks up to an end, an index of this length and a filter of this length, where its fields have room
/// for them.
fn foot_of(end: u64, index: usize, filter: usize, rows: u64) -> Result<Foot, NoMem>
    ensures foot { IfOk result (λ foot. foot ≡ foot_behind end index filter rows) }
    ensures room { IfOk result (λ foot. IsFoot (foot_behind end index filter rows)) }
{
    let Ok(index_length) = u32::try_from(index) else {
        return Err(NoMem);
    };
    let Ok(filter_length) = u32::try_from(filter) else {
        return Err(NoMem);
    };
    let Some(place) = end.checked_add(index as u64) else {
        return Err(NoMem);
    };
    Ok(Foot {
        index: end,
        index_length,
        filter: place,
        filter_length,
        rows,
    })
}

fn joined(full: Option<Vec<u8>>, bytes: Vec<u8>) -> Result<Vec<u8>, NoMem>
    ensures { IfOk result (λ all. all.items ≡ chunk full ++ bytes.items) }
{
    match full {
        Some(block) => {
            let mut all = block;
            all.extend_from_slice(bytes.as_slice())?;
            Ok(all)
        }
        None => Ok(bytes),
    }
}
