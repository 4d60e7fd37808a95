//! What is summed up of a table's rows while its blocks are read.

ghost use Rattle.std.specs.Prelude.{◌≡◌, ◌≤◌, ◌==◌, ◌++◌, ◌&&◌, ◌||◌, Bool, IfOk, OnOk, Some, None, length, map, not, option_map};
ghost use Rattle.kv_base.specs.Map.{Bytes, same};
ghost use Rattle.kv_base.specs.RowRefs.{row_seen};
ghost use Rattle.sst_parts.specs.Blocks.{is_full as fills};
ghost use Rattle.sst_parts.specs.Filter.{hash_of};
ghost use Rattle.sst_parts.specs.Index.{last_raw};
ghost use Rattle.sst_parts.specs.RowTexts.{rows_text};
ghost use Rattle.sst_grammar.specs.Judging.{are_of_spot, has_none, read_block};
ghost use Rattle.sst_sums.specs.Summing.{is_new, new_keys};

use kv_base::{NoMem, RowRef, take_text};
use sst_parts::{BLOCK_SIZE, KeyHash, Spot, read_body};
use std::alloc::Global;

/// Is the raw key another one than the one before it?
fn is_new(last: Option<&[u8]>, raw: &[u8]) -> bool
    ensures { result ≡ is_new (option_map (λ bytes. bytes.now) last.entry) raw.now }
{
    match last {
        Some(last) => !last.cmp(raw).is_eq(),
        None => true,
    }
}

/// Adds the hashes of the raw keys that are new behind this one.
pub(crate) fn note_keys<'a>(
    keys: &mut Vec<KeyHash>,
    before: Option<&'a [u8]>,
    rows: &[RowRef<'a>],
) -> Result<(), NoMem>
    ensures { OnOk result (keys.new.items ≡ keys.old.items ++ map hash_of (new_keys (option_map (λ bytes. bytes.now) before.entry) (map row_seen rows.now))) }
{
    let mut last = before;
    for row in rows {
        if is_new(last, row.raw) {
            keys.push(KeyHash::of(row.raw))?;
            last = Some(row.raw);
        }
    }
    Ok(())
}

/// Is a block closed where it is to be, and named in the index as it is?
fn is_well_closed(is_named: bool, is_last: bool, is_full: bool) -> bool
    ensures { result ≡ (is_named && (is_last || is_full)) }
{
    is_named && (is_last || is_full)
}

/// Are these the rows of a block with this spot? They are some, the last of them has the spot's raw key, and but for
/// the last block they fill it.
fn are_of_spot(is_last: bool, spot: &Spot, rows: &[RowRef<'_>], is_full: bool) -> bool
    requires { is_full ≡ fills (map row_seen rows.now) }
    ensures { result ≡ are_of_spot is_last spot.now (map row_seen rows.now) }
{
    let Some(row) = rows.last() else {
        return false;
    };
    let is_named = row.raw.cmp(spot.last.bytes()).is_eq();
    is_well_closed(is_named, is_last, is_full)
}

/// The rows of a block with this spot, the first of them behind this row; none exactly where the block is off its
/// grammar.
#[tactic(auto, unfolding(sst_grammar::specs::Judging::read_block))]
pub fn block_rows<'a>(
    alloc: Global,
    before: Option<RowRef<'a>>,
    is_last: bool,
    spot: &Spot,
    block: &'a [u8],
) -> Result<Option<Vec<RowRef<'a>>>, NoMem>
    ensures { IfOk result (λ found. option_map (λ rows. map row_seen rows.items) found ≡ read_block is_last (option_map row_seen before.entry) spot.now block.now) }
{
    let Some((body, rest)) = take_text(block) else {
        return Ok(None);
    };
    if !rest.is_empty() {
        return Ok(None);
    }
    let Some(rows) = read_body(alloc, before, body)? else {
        return Ok(None);
    };
    if are_of_spot(is_last, spot, rows.as_slice(), body.len() >= BLOCK_SIZE) {
        Ok(Some(rows))
    } else {
        Ok(None)
    }
}
