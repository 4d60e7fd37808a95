ghost use Rattle.std.specs.Prelude.{◌≡◌, ◌++◌, [], IfOk, OnOk, option_map};
ghost use Rattle.lives_model.specs.LiveRowLists.{pairs};
ghost use Rattle.lives_model.specs.Page.{page};
ghost use Rattle.kv_base.specs.RowRefs.{row_seen};
ghost use Rattle.row_model.specs.Rows.{at as map_at};
ghost use Rattle.view_read.specs.Walk.{greater, hides, listed, value_shown};

use kv_base::{Blob, NoMem};
use lives_model::{LiveRow, LiveRows};
use mem_table::{MemTable, RowRef};
use std::alloc::Global;

/// The first rows that a memtable shows at a sequence whose raw keys begin with the prefix and are not below `from`, in
/// the order of their raw keys: so many as `limit` says, or all where there are fewer.
///
/// It begins at the first row that is asked for, and ends behind the last one.
pub fn first_rows(
    alloc: Global,
    table: &MemTable,
    sequence: u64,
    from: &[u8],
    prefix: &[u8],
    limit: usize,
) -> Result<LiveRows, NoMem>
    ensures { IfOk result (λ found. pairs found ≡ page (map_at table.now sequence) from.now prefix.now limit) }
{
    let mut found = LiveRows::new(alloc);
    let mut front = None;
    let mut rows = table.rows_from(greater(from, prefix));
    while let Some(row) = rows.next() {
        if found.len() == limit {
            return Ok(found);
        }
        if !row.raw.starts_with(prefix) {
            return Ok(found);
        }
        push_shown(alloc, &mut found, sequence, front, row)?;
        front = Some(row);
    }
    Ok(found)
}

/// The greater of two raw keys.
fn greater<'a>(raw: &'a [u8], other: &'a [u8]) -> &'a [u8]
    ensures { result.now ≡ greater raw.now other.now }
{
    if raw.cmp(other).is_lt() { other } else { raw }
}

/// Adds a copy of a row where it shows at a sequence, behind the row in front of it.
fn push_shown(
    alloc: Global,
    found: &mut LiveRows,
    sequence: u64,
    front: Option<RowRef<'_>>,
    row: RowRef<'_>,
) -> Result<(), NoMem>
    ensures { OnOk result (pairs found.new ≡ pairs found.old ++ listed row.entry.raw.now (value_shown sequence (option_map row_seen front.entry) (row_seen row.entry)) []) }
{
    if let Some(value) = shown_value(sequence, front, row) {
        let raw = Blob::copy(alloc, row.raw)?;
        let value = Blob::copy(alloc, value)?;
        found.push(LiveRow { raw, value })?;
    }
    Ok(())
}

/// The value of a row that shows at a sequence; `None` where it is a delete, or does not show.
fn shown_value<'a>(sequence: u64, front: Option<RowRef<'_>>, row: RowRef<'a>) -> Option<&'a [u8]>
    ensures { option_map (λ value. value.now) result ≡ value_shown sequence (option_map row_seen front.entry) (row_seen row.entry) }
{
    if row.seq <= sequence && !hides(sequence, front, row.raw) {
        row.value
    } else {
        None
    }
}

/// Is the row in front one of this raw key that shows, so that no row behind it does?
fn hides(sequence: u64, front: Option<RowRef<'_>>, raw: &[u8]) -> bool
    ensures { result ≡ hides sequence (option_map row_seen front.entry) raw.now }
{
    match front {
        Some(front) => raw.cmp(front.raw).is_eq() && front.seq <= sequence,
        None => false,
    }
}
