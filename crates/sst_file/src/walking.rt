//! How a table's rows are given, block by block.

ghost use Rattle.std.specs.Prelude.{◌≡◌, ◌≤◌, ◌<◌, ◌^◌, [], IfErr, IfOk, IfSome, OnErr, drop, length};
ghost use Rattle.kv_outside.specs.Causes.{IsCause};
ghost use Rattle.kv_outside.specs.Disk.{NothingNew};
ghost use Rattle.merge_rows.specs.Cursors.{Takes};
ghost use Rattle.sst_file.specs.Searching.{HasBlock};
ghost use Rattle.sst_file.specs.States.{off_where_untold};
ghost use Rattle.sst_file.specs.Walking.{AreAhead, IsBodyAt, bytes_ahead, rows_unread};

use crate::block_rest::BlockRest;
use crate::opening::off;
use crate::reading::bytes_at;
use crate::table::Parts;
use kv_base::{Row, StoreFault};
use kv_outside::Files;
use sst_parts::Spot;
use std::alloc::Global;

/// How far the rows of a table were given.
#[derive(Drop)]
pub(crate) struct TableWalk {
    /// What is left of the block that was read last.
    pub rest: BlockRest,
    /// The block that is read next.
    pub next: usize,
}

impl TableWalk {
    /// Nothing is read yet.
    pub fn new(alloc: Global, next: usize) -> TableWalk
        ensures rest { result.rest ≡ [] }
        ensures next { result.next ≡ next }
    {
        TableWalk {
            rest: BlockRest::none(alloc),
            next,
        }
    }
}

/// Reads the block at a spot.
fn read_block<F: Files>(
    alloc: Global,
    files: &mut F,
    parts: &Parts<F>,
    spot: &Spot,
) -> Result<BlockRest, StoreFault>
    requires { IfSome (F.sealed_bytes parts.now.file) (HasBlock spot.now) }
    ensures body { IfOk result (λ rest. IfSome (F.sealed_bytes parts.now.file) (IsBodyAt spot.now rest)) }
    ensures short { IfOk result (λ rest. length rest < 2 ^ 32) }
    ensures disk { NothingNew (F.disk files.old) (F.disk files.new) }
    ensures cause { IfErr result (λ fault. IsCause (F.faults files.old) (F.faults files.new) (off_where_untold parts.now.desc.id (F.sealed_bytes parts.now.file)) fault) }
    ensures later { F.faults files.old ≤ F.faults files.new }
{
    let block = bytes_at(alloc, files, &parts.file, spot.place, spot.bytes)?;
    match BlockRest::of_block(spot.place, block) {
        Some(rest) => Ok(rest),
        None => Err(off(parts.desc.id, spot.place)),
    }
}

/// Takes the next row that is not below a raw key; `None` exactly where none is left. A block is read when what is left
/// of the one before it has none.
pub(crate) fn walk_on<F: Files>(
    alloc: Global,
    files: &mut F,
    parts: &Parts<F>,
    raw: &[u8],
    walk: &mut TableWalk,
) -> Result<Option<Row>, StoreFault>
    requires { IfSome (F.sealed_bytes parts.now.file) (AreAhead walk.old.rest (drop walk.old.next parts.now.spots.items)) }
    ensures ahead { IfSome (F.sealed_bytes parts.now.file) (AreAhead walk.new.rest (drop walk.new.next parts.now.spots.items)) }
    ensures row { IfOk result (λ row. Takes (rows_unread raw.now walk.old.rest walk.old.next parts.now.spots.items (F.sealed_bytes parts.now.file)) row (rows_unread raw.now walk.new.rest walk.new.next parts.now.spots.items (F.sealed_bytes parts.now.file))) }
    ensures unchanged { OnErr result (rows_unread raw.now walk.new.rest walk.new.next parts.now.spots.items (F.sealed_bytes parts.now.file) ≡ rows_unread raw.now walk.old.rest walk.old.next parts.now.spots.items (F.sealed_bytes parts.now.file)) }
    ensures left { bytes_ahead walk.new.rest walk.new.next parts.now.spots.items ≤ bytes_ahead walk.old.rest walk.old.next parts.now.spots.items }
    ensures nearer { IfOk result (λ row. IfSome row (λ _. bytes_ahead walk.new.rest walk.new.next parts.now.spots.items < bytes_ahead walk.old.rest walk.old.next parts.now.spots.items)) }
    ensures disk { NothingNew (F.disk files.old) (F.disk files.new) }
    ensures cause { IfErr result (λ fault. IsCause (F.faults files.old) (F.faults files.new) (off_where_untold parts.now.desc.id (F.sealed_bytes parts.now.file)) fault) }
    ensures later { F.faults files.old ≤ F.faults files.new }
{
    if let Some(row) = walk.rest.take(alloc, parts.desc.id, raw)? {
        return Ok(Some(row));
    }
    let spots = parts.spots.as_slice();
    for at in walk.next..spots.len() {
        walk.rest = read_block(alloc, files, parts, &spots[at])?;
        walk.next = at + 1;
        if let Some(row) = walk.rest.take(alloc, parts.desc.id, raw)? {
            return Ok(Some(row));
        }
    }
    Ok(None)
}
