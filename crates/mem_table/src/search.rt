//! Where rows stand in a tree.
ghost use Rattle.std.specs.Prelude.{◌≡◌, ◌≤◌, ◌+◌, ◌++◌, IsTrue, length, take, drop, not};
ghost use Rattle.std.specs.List.{list_all};
ghost use Rattle.row_model.specs.RowOrder.{is_ordered};
ghost use Rattle.mem_table.specs.Search.{is_short, rows_at};
ghost use Rattle.mem_table.specs.Shared.{rows_of};
ghost use Rattle.mem_table.specs.Tree.{leaf_rows};

use crate::branch::Branch;
use crate::cursor::MemCursor;
use crate::leaf::Leaf;
use crate::place::{is_short, place};
use kv_base::Row;
use std::sync::Arc;

/// The rows from the place of the raw key at the sequence on; with no sequence, from the raw key's first row on.
///
/// It is a binary search over the branches, over the leaves of one and over the rows of one.
pub fn seek<'a>(branches: &'a [Arc<Branch>], raw: &[u8], seq: Option<u64>) -> MemCursor<'a>
    requires { IsTrue (is_ordered (leaf_rows branches.now)) }
    ensures { result ≡ rows_at raw.now seq (leaf_rows branches.now) }
{
    let (_, rest) = branches.split_at(branch_at(branches, raw, seq));
    match rest.split_first() {
        Some((branch, others)) => {
            let (rows, leaves) = seek_leaf(branch.leaves(), raw, seq);
            MemCursor::of(rows, leaves, others)
        }
        None => MemCursor::of(&[], &[], rest),
    }
}

/// The rows of one of the leaves from that place on, and the leaves behind it.
fn seek_leaf<'a>(
    leaves: &'a [Arc<Leaf>],
    raw: &[u8],
    seq: Option<u64>,
) -> (&'a [Arc<Row>], &'a [Arc<Leaf>])
    requires { IsTrue (is_ordered (leaf_rows leaves.now)) }
    ensures { rows_of result.0.now ++ leaf_rows result.1.now ≡ rows_at raw.now seq (leaf_rows leaves.now) }
{
    let (_, rest) = leaves.split_at(leaf_at(leaves, raw, seq));
    match rest.split_first() {
        Some((leaf, others)) => {
            let rows = leaf.rows();
            let (_, rows) = rows.split_at(place(rows, raw, seq));
            (rows, others)
        }
        None => (&[], rest),
    }
}

/// The first leaf that has a row which is not short of that place: in front of it each row is, behind it none.
fn leaf_at(leaves: &[Arc<Leaf>], raw: &[u8], seq: Option<u64>) -> usize
    requires { IsTrue (is_ordered (leaf_rows leaves.now)) }
    ensures bound { result ≤ length leaves.now }
    ensures front { IsTrue (list_all (is_short raw.now seq) (leaf_rows (take result leaves.now))) }
    ensures behind { IsTrue (list_all (λ row. not (is_short raw.now seq row)) (leaf_rows (drop (result + 1) leaves.now))) }
{
    let mut low = 0;
    let mut high = leaves.len();
    while low < high {
        let middle = low + (high - low) / 2;
        if is_short(leaves[middle].last(), raw, seq) {
            low = middle + 1;
        } else {
            high = middle;
        }
    }
    low
}

/// The first branch that has such a row.
pub fn branch_at(branches: &[Arc<Branch>], raw: &[u8], seq: Option<u64>) -> usize
    requires { IsTrue (is_ordered (leaf_rows branches.now)) }
    ensures bound { result ≤ length branches.now }
    ensures front { IsTrue (list_all (is_short raw.now seq) (leaf_rows (take result branches.now))) }
    ensures behind { IsTrue (list_all (λ row. not (is_short raw.now seq row)) (leaf_rows (drop (result + 1) branches.now))) }
{
    let mut low = 0;
    let mut high = branches.len();
    while low < high {
        let middle = low + (high - low) / 2;
        if is_short(branches[middle].last(), raw, seq) {
            low = middle + 1;
        } else {
            high = middle;
        }
    }
    low
}
