//! A table as it is built, in memory: rows go in, and the bytes of the blocks that they fill come out.

ghost use Rattle.std.specs.Prelude.{◌≡◌, ◌++◌, [], ◌∷◌, List, IfOk};
ghost use Rattle.kv_base.specs.declared.row.Row.{Row};
ghost use Rattle.kv_base.specs.RowRefs.{row_seen};
ghost use Rattle.sst_parts.specs.Blocks.{is_next_row};
ghost use Rattle.sst_writer.specs.Building.{AreThose, IsBuilt, IsClosed, IsMore, chunk};

use kv_base::{Blob, NoMem, RowRef};
use sst_parts::{BLOCK_SIZE, BlockWriter, HEAD, Spot, is_next};
use sst_sums::Sums;
use std::alloc::Global;

/// What is kept of a table's rows while it is built: the place behind the closed blocks, the rows of the open one, the
/// spots of the closed ones, and what is summed up of all rows.
#[derive(Drop)]
pub(crate) struct TableBuilder {
    pub end: u64,
    pub block: BlockWriter,
    pub spots: Vec<Spot>,
    pub sums: Sums,
}

/// A table with a row more, and the bytes of the block that the row filled.
#[derive(Drop)]
pub(crate) struct Added {
    pub builder: TableBuilder,
    pub full: Option<Vec<u8>>,
}

impl TableBuilder {
    /// A table without rows.
    pub fn new(alloc: Global) -> Result<TableBuilder, NoMem>
        ensures { IfOk result (λ table. IsBuilt table.end table.block table.spots.items table.sums.rows table.sums.keys.items table.sums.least table.sums.last []) }
    {
        Ok(TableBuilder {
            end: HEAD.len() as u64,
            block: BlockWriter::new(alloc)?,
            spots: Vec::new(alloc),
            sums: Sums::new(alloc),
        })
    }

    /// With a row behind those that it has. Want of memory is answered also for a row that may not stand there: one
    /// that is off its grammar, or not behind the last one.
    pub fn with(self, alloc: Global, row: RowRef<'_>) -> Result<Added, NoMem>
        ensures built { IfOk result (λ added. (rows : List Row) → IsBuilt self.end self.block self.spots.items self.sums.rows self.sums.keys.items self.sums.least self.sums.last rows
            → IsBuilt added.builder.end added.builder.block added.builder.spots.items added.builder.sums.rows added.builder.sums.keys.items added.builder.sums.least added.builder.sums.last (rows ++ row_seen row.entry ∷ [])) }
        ensures more { IfOk result (λ added. (rows : List Row) → IsBuilt self.end self.block self.spots.items self.sums.rows self.sums.keys.items self.sums.least self.sums.last rows
            → IsMore rows (row_seen row.entry) (chunk added.full)) }
    {
        let TableBuilder {
            end,
            block,
            spots,
            sums,
        } = self;
        if !may_follow(&sums, row) {
            return Err(NoMem);
        }
        let mut block = block;
        block.push(row)?;
        let sums = sums.with(alloc, &[row])?;
        if block.len() < BLOCK_SIZE {
            let builder = TableBuilder {
                end,
                block,
                spots,
                sums,
            };
            return Ok(Added {
                builder,
                full: None,
            });
        }
        let last = Blob::copy(alloc, row.raw)?;
        close(alloc, end, block, spots, sums, last)
    }
}

/// Is the row on its grammar, and behind those that are summed up?
fn may_follow(sums: &Sums, row: RowRef<'_>) -> bool
    ensures { result ≡ is_next_row sums.now.last (row_seen row.entry) }
{
    match &sums.last {
        Some(last) => is_next(Some(last.by_ref()), row),
        None => is_next(None, row),
    }
}

/// Closes the open block behind this raw key.
pub(crate) fn close(
    alloc: Global,
    end: u64,
    block: BlockWriter,
    spots: Vec<Spot>,
    sums: Sums,
    last: Blob,
) -> Result<Added, NoMem>
    ensures closed { IfOk result (λ added. IsClosed end block spots.items last added.builder.end added.builder.block added.builder.spots.items (chunk added.full)) }
    ensures sums { IfOk result (λ added. AreThose added.builder.sums.rows sums.rows added.builder.sums.keys.items sums.keys.items added.builder.sums.least sums.least added.builder.sums.last sums.last) }
{
    let bytes = block.finish()?;
    let Ok(count) = u32::try_from(bytes.len()) else {
        return Err(NoMem);
    };
    let Some(next) = end.checked_add(u64::from(count)) else {
        return Err(NoMem);
    };
    let mut spots = spots;
    spots.push(Spot {
        place: end,
        bytes: count,
        last,
    })?;
    let builder = TableBuilder {
        end: next,
        block: BlockWriter::new(alloc)?,
        spots,
        sums,
    };
    Ok(Added {
        builder,
        full: Some(bytes),
    })
}
