//! A page of the rows that show at a sequence.

ghost use Rattle.std.specs.Prelude.{◌≡◌, ◌≤◌, ◌++◌, [], IfOk, IfErr, IfSome, OnOk, IsTrue, None, not, take, filter, nat_eq, nat_le, ◌&&◌};
ghost use Rattle.std.specs.List.{list_all, starts_with};
ghost use Rattle.kv_outside.specs.Disk.{NothingNew};
ghost use Rattle.lives_model.specs.LiveRowLists.{pairs};
ghost use Rattle.row_model.specs.RowOrder.{is_below};
ghost use Rattle.kv_outside.specs.Causes.{IsCause};
ghost use Rattle.view_read.specs.Walk.{greater, hides, listed, value_shown, walked};

use kv_base::{NoMem, Row, StoreFault};
use kv_outside::Files;
use lives_model::{LiveRow, LiveRows};
use merge_rows::Cursor;
use std::alloc::Global;

/// The greater of two raw keys.
pub(crate) fn greater<'a>(raw: &'a [u8], other: &'a [u8]) -> &'a [u8]
    ensures { result.now ≡ greater raw.now other.now }
{
    if raw.cmp(other).is_lt() { other } else { raw }
}

/// The first of the rows still to come that show at a sequence and begin with the prefix: so many as `limit` says, or all
/// where there are fewer. None of the rows is below the prefix.
///
/// It ends behind the last row that it gives, or at the first one past the prefix.
pub(crate) fn read_page<F: Files, C: Cursor<F>>(
    alloc: Global,
    files: &mut F,
    rows: &mut C,
    seq: u64,
    prefix: &[u8],
    limit: usize,
) -> Result<LiveRows, StoreFault>
    requires { IfSome (C.rows rows.old) (λ all. IsTrue (list_all (λ row. not (is_below prefix.now row)) all)) }
    ensures value { IfOk result (λ found. IfSome (C.rows rows.old) (λ all. pairs found ≡ take limit (filter (λ entry. starts_with nat_eq entry.0 prefix.now) (walked seq None all)))) }
    ensures disk { NothingNew (F.disk files.old) (F.disk files.new) }
    ensures cause { IfErr result (λ fault. IsCause (F.faults files.old) (F.faults files.new) (C.off rows.old) fault) }
    ensures later { F.faults files.old ≤ F.faults files.new }
{
    let mut found = LiveRows::new(alloc);
    let mut front = None;
    while found.len() < limit {
        let Some(row) = rows.step(alloc, files)? else {
            return Ok(found);
        };
        if !row.raw.bytes().starts_with(prefix) {
            return Ok(found);
        }
        front = Some(push_shown(alloc, &mut found, seq, &front, row)?);
    }
    Ok(found)
}

/// Adds a row where it shows at a sequence, behind the row in front of it, and gives the row back without its value.
fn push_shown(
    alloc: Global,
    found: &mut LiveRows,
    seq: u64,
    front: &Option<Row>,
    row: Row,
) -> Result<Row, NoMem>
    ensures shown { OnOk result (pairs found.new ≡ pairs found.old ++ listed row.raw (value_shown seq front.now row) []) }
    ensures same { IfOk result (λ left. (left.raw ≡ row.raw) × (left.seq ≡ row.seq)) }
{
    let shows = shows(seq, front, &row);
    let Row {
        raw,
        seq: own,
        value,
    } = row;
    if let Some(value) = value {
        if shows {
            let raw = raw.try_copy(alloc)?;
            found.push(LiveRow { raw, value })?;
        }
    }
    Ok(Row {
        raw,
        seq: own,
        value: None,
    })
}

/// Does a row show at a sequence, behind the row in front of it?
fn shows(seq: u64, front: &Option<Row>, row: &Row) -> bool
    ensures { result ≡ (nat_le row.now.seq seq && not (hides seq front.now row.now.raw)) }
{
    row.seq <= seq && !hides(seq, front, row.raw.bytes())
}

/// Is the row in front one of this raw key that shows, so that no row behind it does?
fn hides(seq: u64, front: &Option<Row>, raw: &[u8]) -> bool
    ensures { result ≡ hides seq front.now raw.now }
{
    match front {
        Some(front) => raw.cmp(front.raw.bytes()).is_eq() && front.seq <= seq,
        None => false,
    }
}
