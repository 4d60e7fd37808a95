//! The blocks of a table, as they are read when it is opened.

ghost use Rattle.std.specs.Prelude.{◌≡◌, ◌≤◌, IfOk, IfErr, IfSome, None, option_map};
ghost use Rattle.kv_outside.specs.Disk.{NothingNew};
ghost use Rattle.kv_base.specs.RowRefs.{row_seen};
ghost use Rattle.sst_file.specs.BlockReads.{AreAllRead, IsBlockRead, judged_block};
ghost use Rattle.sst_grammar.specs.Judging.{judged_blocks};
ghost use Rattle.sst_file.specs.Opening.{IsBlame};

use crate::opening::{Opened, off};
use crate::reading::bytes_at;
use kv_base::{NoMem, Row, RowRef, StoreFault, TableId};
use kv_outside::Files;
use sst_parts::Spot;
use sst_sums::{Sums, block_rows};
use std::alloc::Global;

fn copied(alloc: Global, row: &Option<Row>) -> Result<Option<Row>, NoMem>
    ensures { IfOk result (λ copy. copy ≡ row.now) }
{
    match row {
        Some(row) => Ok(Some(row.by_ref().copy(alloc)?)),
        None => Ok(None),
    }
}

fn by_ref(row: &Option<Row>) -> Option<RowRef<'_>>
    ensures { option_map row_seen result ≡ row.now }
{
    match row {
        Some(row) => Some(row.by_ref()),
        None => None,
    }
}

/// Reads a block behind those that are summed up.
fn open_block<F: Files>(
    alloc: Global,
    files: &mut F,
    id: TableId,
    opened: &Opened<F>,
    spot: &Spot,
    is_last: bool,
    sums: Sums,
) -> Result<Sums, StoreFault>
    ensures found { IfOk result (λ more. IfSome (F.sealed_bytes opened.now.file) (IsBlockRead is_last spot.now sums.rows more.rows sums.keys.items more.keys.items sums.least more.least sums.last more.last)) }
    ensures blame { IfErr result (λ fault. IsBlame (F.faults files.old) (F.faults files.new) id (F.sealed_bytes opened.now.file) (judged_block is_last sums.last spot.now) fault) }
    ensures disk { NothingNew (F.disk files.old) (F.disk files.new) }
    ensures later { F.faults files.old ≤ F.faults files.new }
{
    let block = bytes_at(alloc, files, &opened.file, spot.place, spot.bytes)?;
    let last = copied(alloc, &sums.last)?;
    match block_rows(alloc, by_ref(&last), is_last, spot, block.as_slice())? {
        Some(rows) => Ok(sums.with(alloc, rows.as_slice())?),
        None => Err(off(id, spot.place)),
    }
}

/// Reads all blocks, one after the other.
pub(crate) fn open_blocks<F: Files>(
    alloc: Global,
    files: &mut F,
    id: TableId,
    opened: &Opened<F>,
    spots: &[Spot],
) -> Result<Sums, StoreFault>
    ensures found { IfOk result (λ sums. IfSome (F.sealed_bytes opened.now.file) (AreAllRead spots.now sums.rows sums.keys.items sums.least sums.last)) }
    ensures blame { IfErr result (λ fault. IsBlame (F.faults files.old) (F.faults files.new) id (F.sealed_bytes opened.now.file) (judged_blocks None spots.now) fault) }
    ensures disk { NothingNew (F.disk files.old) (F.disk files.new) }
    ensures later { F.faults files.old ≤ F.faults files.new }
{
    let mut sums = Sums::new(alloc);
    for at in 0..spots.len() {
        let is_last = at + 1 == spots.len();
        sums = open_block(alloc, files, id, opened, &spots[at], is_last, sums)?;
    }
    Ok(sums)
}
