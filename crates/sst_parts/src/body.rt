//! The bodies of blocks as they are read.

ghost use Rattle.std.specs.Prelude.{◌≡◌, ◌≤◌, IfOk, length, map, option_map};
ghost use Rattle.kv_base.specs.RowRefs.{row_seen};
ghost use Rattle.row_model.specs.Rows.{is_row_text};
ghost use Rattle.row_model.specs.RowOrder.{row_cmp};
ghost use Rattle.sst_parts.specs.Blocks.{has_room, is_row_behind, is_next_row, read_block_body, read_next};

use crate::block::BLOCK_SIZE;
use crate::row::{RowFront, take_row};
use kv_base::{NoMem, RowRef, is_raw, is_value};
use std::alloc::Global;
use std::cmp::Ordering;

/// The rows of a block's body, of which the first stands behind `last`. There are none exactly where the body is off
/// its grammar: it is whole rows, each on its grammar and behind the one before it, and no row begins where the body
/// has 4,096 bytes already.
pub fn read_body<'a>(
    alloc: Global,
    last: Option<RowRef<'a>>,
    body: &'a [u8],
) -> Result<Option<Vec<RowRef<'a>>>, NoMem>
    ensures { IfOk result (λ found. option_map (λ rows. map row_seen rows.items) found ≡ read_block_body (option_map row_seen last.entry) body.now) }
{
    let mut rows = Vec::new(alloc);
    let mut before = last;
    let mut rest = body;
    while !rest.is_empty() {
        let Some(front) = next_row(body.len(), before, rest) else {
            return Ok(None);
        };
        rows.push(front.row)?;
        before = Some(front.row);
        rest = front.behind;
    }
    Ok(Some(rows))
}

/// The row in front of the rest of a body of this length.
#[tactic(auto, unfolding(crate::specs::Blocks::read_next))]
pub fn next_row<'a>(whole: usize, last: Option<RowRef<'a>>, rest: &'a [u8]) -> Option<RowFront<'a>>
    ensures { option_map (λ front. (row_seen front.row, front.behind.now)) result ≡ read_next whole (option_map row_seen last.entry) rest.now }
{
    let front = take_row(rest)?;
    if is_next(last, front.row) && has_room(whole, rest) {
        Some(front)
    } else {
        None
    }
}

fn has_room(whole: usize, rest: &[u8]) -> bool
    ensures { result ≡ has_room whole rest.now }
{
    whole.saturating_sub(rest.len()) < BLOCK_SIZE
}

/// Is the row on its grammar, and behind the one before it, where there is one?
pub fn is_next(last: Option<RowRef<'_>>, row: RowRef<'_>) -> bool
    ensures { result ≡ is_next_row (option_map row_seen last.entry) (row_seen row.entry) }
{
    is_behind(last, row) && is_row(row)
}

fn is_behind(last: Option<RowRef<'_>>, row: RowRef<'_>) -> bool
    ensures { result ≡ is_row_behind (option_map row_seen last.entry) (row_seen row.entry) }
{
    match last {
        Some(last) => order(last, row).is_lt(),
        None => true,
    }
}

/// The order in which rows are kept: by raw key, and then the greater sequence first.
pub fn order(row: RowRef<'_>, other: RowRef<'_>) -> Ordering
    ensures { result ≡ row_cmp (row_seen row.entry) (row_seen other.entry) }
{
    row.raw.cmp(other.raw).then(other.seq.cmp(&row.seq))
}

fn is_row(row: RowRef<'_>) -> bool
    ensures { result ≡ is_row_text (row_seen row.entry) }
{
    match row.value {
        Some(value) => is_value(row.raw, value),
        None => is_raw(row.raw),
    }
}
