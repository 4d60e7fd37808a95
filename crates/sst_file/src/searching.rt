//! Searching the blocks of a table.

ghost use Rattle.std.specs.Prelude.{◌≡◌, ◌≤◌, ◌<◌, true, false, List, IfOk, IfErr, IfSome, Some, length, drop, option_map};
ghost use Rattle.std.specs.List.Sorted.{IsPartitionPoint, IsPartitionedBy};
ghost use Rattle.kv_base.specs.Map.{Bytes, kept, same};
ghost use Rattle.kv_outside.specs.Disk.{NothingNew};
ghost use Rattle.kv_base.specs.declared.row.Row.{Row};
ghost use Rattle.kv_base.specs.RowRefs.{row_seen};
ghost use Rattle.row_model.specs.Rows.{seen_at};
ghost use Rattle.kv_outside.specs.Causes.{IsCause};
ghost use Rattle.sst_parts.specs.Blocks.{block_text};
ghost use Rattle.sst_parts.specs.Seeking.{AreReadable, first_from};
ghost use Rattle.sst_grammar.specs.Judging.{slice_at};
ghost use Rattle.sst_file.specs.Searching.{HasBlock, with_raw_key, ends_below};
ghost use Rattle.sst_file.specs.States.{StandsForTable, off_where_untold, rows_of_table};

use crate::reading::bytes_at;
use crate::table::Parts;
use kv_base::{Blob, FileName, NoMem, Row, RowRef, StoreFault, take_text};
use kv_outside::Files;
use sst_parts::{Sought, Spot, seek};
use std::alloc::Global;

/// The row in a block that shows at a sequence, where the block tells: the first row that does not stand in front of
/// the raw key at the sequence is it, if it is one of the raw key. There is no answer where all rows stand in front.
fn find_in<F: Files>(
    alloc: Global,
    files: &mut F,
    parts: &Parts<F>,
    spot: &Spot,
    raw: &[u8],
    seq: u64,
) -> Result<Option<Option<Row>>, StoreFault>
    requires { IfSome (F.sealed_bytes parts.now.file) (HasBlock spot.now) }
    ensures row { IfOk result (λ found. IfSome (F.sealed_bytes parts.now.file) (λ bytes. (rows : List Row) → AreReadable rows → slice_at spot.now.place spot.now.bytes bytes ≡ block_text rows → found ≡ option_map (with_raw_key raw.now) (first_from raw.now seq rows))) }
    ensures disk { NothingNew (F.disk files.old) (F.disk files.new) }
    ensures cause { IfErr result (λ fault. IsCause (F.faults files.old) (F.faults files.new) (off_where_untold parts.now.desc.id (F.sealed_bytes parts.now.file)) fault) }
    ensures later { F.faults files.old ≤ F.faults files.new }
{
    let block = bytes_at(alloc, files, &parts.file, spot.place, spot.bytes)?;
    let Some((body, _)) = take_text(block.as_slice()) else {
        return Err(damaged(parts, spot));
    };
    match seek(body, raw, seq) {
        Sought::Row(row) => {
            if raw.cmp(row.raw).is_eq() {
                Ok(Some(Some(row.copy(alloc)?)))
            } else {
                Ok(Some(None))
            }
        }
        Sought::Behind => Ok(None),
        Sought::Off => Err(damaged(parts, spot)),
    }
}

/// A block of the table is off its grammar.
fn damaged<F: Files>(parts: &Parts<F>, spot: &Spot) -> StoreFault
    ensures { result ≡ StoreFault.Damaged (FileName.Table parts.now.desc.id) spot.now.place }
{
    StoreFault::Damaged {
        file: FileName::Table(parts.desc.id),
        place: spot.place,
    }
}

/// The first block whose last raw key is not below this one, where these rise.
pub(crate) fn first_block(spots: &[Spot], raw: &[u8]) -> usize
    ensures bound { result ≤ length spots.now }
    ensures split { IsPartitionedBy (ends_below raw.now) spots.now → IsPartitionPoint (λ spot. ends_below raw.now spot ≡ true) (λ spot. ends_below raw.now spot ≡ false) spots.now result }
{
    spots.partition_point(|spot| spot.last.bytes().cmp(raw).is_lt())
}

/// The row of a raw key that shows at a sequence. A block is read, and further ones only where the rows of the raw key
/// fill it.
pub(crate) fn find_from<F: Files>(
    alloc: Global,
    files: &mut F,
    parts: &Parts<F>,
    raw: &[u8],
    seq: u64,
) -> Result<Option<Row>, StoreFault>
    requires { StandsForTable parts.now.spots.items parts.now.bits parts.now.desc (F.sealed_bytes parts.now.file) }
    ensures row { IfOk result (λ row. IfSome (rows_of_table (F.sealed_bytes parts.now.file)) (λ rows. row ≡ seen_at rows seq raw.now)) }
    ensures disk { NothingNew (F.disk files.old) (F.disk files.new) }
    ensures cause { IfErr result (λ fault. IsCause (F.faults files.old) (F.faults files.new) (off_where_untold parts.now.desc.id (F.sealed_bytes parts.now.file)) fault) }
    ensures later { F.faults files.old ≤ F.faults files.new }
{
    let spots = parts.spots.as_slice();
    for at in first_block(spots, raw)..spots.len() {
        if let Some(row) = find_in(alloc, files, parts, &spots[at], raw, seq)? {
            return Ok(row);
        }
    }
    Ok(None)
}
