//! Branches in a list: the tree that a table is.
ghost use Rattle.std.specs.Prelude.{◌≡◌, ◌<◌, ◌≤◌, ◌++◌, IsTrue, IfOk, length, take, drop};
ghost use Rattle.std.specs.Arc.{arc_value};
ghost use Rattle.std.specs.List.{list_all};
ghost use Rattle.row_model.specs.RowOrder.{is_ordered, merged};
ghost use Rattle.row_model.specs.RowOrderLaws.{are_untied};
ghost use Rattle.mem_table.specs.Shared.{rows_of};
ghost use Rattle.mem_table.specs.Tree.{are_before, are_behind, lead, leaf_rows};

use crate::branch::{Branch, branch_with, cut_leaves};
use crate::leaf::cut_rows;
use crate::place::place;
use crate::search::branch_at;
use kv_base::{NoMem, Row};
use std::alloc::Global;
use std::sync::Arc;

/// The rows of the branches and new ones, each at its place. A branch that gets none is shared.
pub fn branches_with(
    alloc: Global,
    old: &[Arc<Branch>],
    new: Vec<Arc<Row>>,
) -> Result<Vec<Arc<Branch>>, NoMem>
    requires old { IsTrue (is_ordered (leaf_rows old.now)) }
    requires new { IsTrue (is_ordered (rows_of new.items)) }
    requires apart { IsTrue (are_untied (rows_of new.items) (leaf_rows old.now)) }
    ensures { IfOk result (λ branches. leaf_rows branches.items ≡ merged (leaf_rows old.now) (rows_of new.items)) }
{
    if old.is_empty() {
        let branches = cut_whole(alloc, new)?;
        return Ok(branches);
    }
    spread(alloc, old, new.as_slice())
}

/// The rows in branches of leaves, as full as they can be.
pub fn cut_whole(alloc: Global, rows: Vec<Arc<Row>>) -> Result<Vec<Arc<Branch>>, NoMem>
    ensures { IfOk result (λ branches. leaf_rows branches.items ≡ rows_of rows.items) }
{
    let leaves = cut_rows(alloc, rows)?;
    cut_leaves(alloc, leaves)
}

fn spread(alloc: Global, old: &[Arc<Branch>], new: &[Arc<Row>]) -> Result<Vec<Arc<Branch>>, NoMem>
    requires some { 0 < length old.now }
    requires old { IsTrue (is_ordered (leaf_rows old.now)) }
    requires new { IsTrue (is_ordered (rows_of new.now)) }
    requires apart { IsTrue (are_untied (rows_of new.now) (leaf_rows old.now)) }
    ensures { IfOk result (λ branches. leaf_rows branches.items ≡ merged (leaf_rows old.now) (rows_of new.now)) }
{
    let parts = old.split_at(in_front(old, new));
    let mut branches = Vec::with_capacity(alloc, old.len())?;
    branches.extend_with_clones(parts.0)?;
    let mut old = parts.1;
    let mut new = new;
    while let Some((branch, others)) = old.split_first() {
        let (here, behind) = new.split_at(until(new, others));
        put_branch(alloc, &mut branches, branch, here)?;
        old = others;
        new = behind;
    }
    Ok(branches)
}

/// How many branches stand in front of all of the rows, but for the last branch: these are shared without a look at each.
fn in_front(branches: &[Arc<Branch>], rows: &[Arc<Row>]) -> usize
    requires some { 0 < length branches.now }
    requires branches { IsTrue (is_ordered (leaf_rows branches.now)) }
    requires rows { IsTrue (is_ordered (rows_of rows.now)) }
    ensures bound { result < length branches.now }
    ensures front { IsTrue (list_all (are_before (leaf_rows (take result branches.now))) (rows_of rows.now)) }
{
    match rows.split_first() {
        Some((row, _)) => {
            let first: &Row = row;
            branch_at(branches, first.raw.bytes(), Some(first.seq)).min(branches.len() - 1)
        }
        None => 0,
    }
}

/// Puts a branch with these rows behind branches: the branch itself, shared, where there is no such row.
#[tactic(auto, unfolding(row_model::specs::RowOrder::merged))]
fn put_branch(
    alloc: Global,
    branches: &mut Vec<Arc<Branch>>,
    branch: &Arc<Branch>,
    new: &[Arc<Row>],
) -> Result<(), NoMem>
    requires old { IsTrue (is_ordered (arc_value branch.now)) }
    requires new { IsTrue (is_ordered (rows_of new.now)) }
    requires apart { IsTrue (are_untied (rows_of new.now) (arc_value branch.now)) }
    ensures { IfOk result (λ _. leaf_rows branches.new.items ≡ leaf_rows branches.old.items ++ merged (arc_value branch.now) (rows_of new.now)) }
{
    if new.is_empty() {
        branches.push(Arc::try_clone(branch)?)?;
        return Ok(());
    }
    let mut more = branch_with(alloc, branch, new)?;
    branches.append(&mut more)?;
    Ok(())
}

/// How many of the rows stand in front of where the branches begin: all where there is no branch.
fn until(rows: &[Arc<Row>], branches: &[Arc<Branch>]) -> usize
    requires rows { IsTrue (is_ordered (rows_of rows.now)) }
    requires branches { IsTrue (is_ordered (leaf_rows branches.now)) }
    ensures bound { result ≤ length rows.now }
    ensures front { IsTrue (lead (take result (rows_of rows.now)) (leaf_rows branches.now)) }
    ensures behind { IsTrue (are_behind (leaf_rows branches.now) (drop result (rows_of rows.now))) }
{
    if rows.is_empty() {
        return 0;
    }
    match branches.split_first() {
        Some((branch, _)) => {
            let first = branch.first();
            place(rows, first.raw.bytes(), Some(first.seq))
        }
        None => rows.len(),
    }
}
