//! Leaves in lists of at most 64.
ghost use Rattle.std.specs.Prelude.{◌≡◌, ◌<◌, ◌≤◌, ◌-◌, ◌++◌, [], ◌∷◌, IsTrue, IfOk, length, take, drop};
ghost use Rattle.std.specs.Arc.{arc_value};
ghost use Rattle.row_model.specs.RowOrder.{is_ordered, merged};
ghost use Rattle.row_model.specs.RowOrderLaws.{are_untied};
ghost use Rattle.mem_table.specs.Shared.{rows_of};
ghost use Rattle.mem_table.specs.Tree.{are_behind, lead, leaf_rows};

use crate::leaf::{Leaf, leaf_with, piece};
use crate::place::place;
use kv_base::{NoMem, Row};
use std::alloc::Global;
use std::marker::Model;
use std::sync::Arc;

/// Between one leaf and 64. Contracts see the list of their rows.
///
/// A pointer to the last row stands here too: a search of branches looks at no leaf of theirs.
#[derive(Drop)]
pub struct Branch {
    leaves: Vec<Arc<Leaf>>,
    last: Arc<Row>,
}

impl Model for Branch {
    ghost use Rattle.std.specs.Prelude.{◌≡◌, ◌≤◌, ◌<◌, ◌-◌, ◌++◌, List, [], ◌∷◌, length, take};
    ghost use Rattle.std.specs.Arc.{arc_value};
    ghost use Rattle.kv_base.specs.declared.row.Row.{Row};
    ghost use Rattle.mem_table.specs.Tree.{leaf_rows};

    ghost Value = { List Row };

    ghost view = { λ b. leaf_rows b.leaves.items };

    ghost invariant = { λ b. (0 < length b.leaves.items) × (length b.leaves.items ≤ 64) × (leaf_rows b.leaves.items ≡ take (length (leaf_rows b.leaves.items) - 1) (leaf_rows b.leaves.items) ++ arc_value b.last ∷ []) };
}

impl Branch {
    /// A branch of these leaves. It fails only where its last row is shared too often to count.
    pub fn of(leaves: Vec<Arc<Leaf>>) -> Result<Branch, NoMem>
        requires some { 0 < length leaves.items }
        requires limit { length leaves.items ≤ 64 }
        ensures { IfOk result (λ branch. branch ≡ leaf_rows leaves.items) }
    {
        let last = Arc::try_clone(leaves[leaves.len() - 1].last_pointer())?;
        Ok(Branch { leaves, last })
    }

    /// Its leaves.
    pub fn leaves(&self) -> &[Arc<Leaf>]
        ensures all { leaf_rows result.now ≡ self.now }
        ensures some { 0 < length result.now }
        ensures limit { length result.now ≤ 64 }
    {
        self.leaves.as_slice()
    }

    /// The first of its rows.
    pub fn first(&self) -> &Row
        ensures { self.now ≡ result.now ∷ drop 1 self.now }
    {
        self.leaves[0].first()
    }

    /// The last of its rows.
    pub fn last(&self) -> &Row
        ensures { self.now ≡ take (length self.now - 1) self.now ++ result.now ∷ [] }
    {
        &self.last
    }

    /// Its first leaf, and the leaves behind it.
    pub fn split(&self) -> (&Leaf, &[Arc<Leaf>])
        ensures { self.now ≡ result.0.now ++ leaf_rows result.1.now }
    {
        let leaves = self.leaves.as_slice();
        (&leaves[0], &leaves[1..])
    }
}

/// The branch's rows and new ones, each at its place. A leaf that gets none is shared.
pub fn branch_with(
    alloc: Global,
    branch: &Branch,
    new: &[Arc<Row>],
) -> Result<Vec<Arc<Branch>>, NoMem>
    requires old { IsTrue (is_ordered branch.now) }
    requires new { IsTrue (is_ordered (rows_of new.now)) }
    requires apart { IsTrue (are_untied (rows_of new.now) branch.now) }
    ensures { IfOk result (λ branches. leaf_rows branches.items ≡ merged branch.now (rows_of new.now)) }
{
    let leaves = leaves_with(alloc, branch.leaves(), new)?;
    cut_leaves(alloc, leaves)
}

/// The rows of the leaves and new ones, each at its place.
fn leaves_with(alloc: Global, old: &[Arc<Leaf>], new: &[Arc<Row>]) -> Result<Vec<Arc<Leaf>>, NoMem>
    requires some { 0 < length old.now }
    requires old { IsTrue (is_ordered (leaf_rows old.now)) }
    requires new { IsTrue (is_ordered (rows_of new.now)) }
    requires apart { IsTrue (are_untied (rows_of new.now) (leaf_rows old.now)) }
    ensures { IfOk result (λ leaves. leaf_rows leaves.items ≡ merged (leaf_rows old.now) (rows_of new.now)) }
{
    let mut leaves = Vec::with_capacity(alloc, old.len())?;
    let mut old = old;
    let mut new = new;
    while let Some((leaf, others)) = old.split_first() {
        let (here, behind) = new.split_at(until(new, others));
        put_leaf(alloc, &mut leaves, leaf, here)?;
        old = others;
        new = behind;
    }
    Ok(leaves)
}

/// Puts a leaf with these rows behind leaves: the leaf itself, shared, where there is no such row.
#[tactic(auto, unfolding(row_model::specs::RowOrder::merged))]
fn put_leaf(
    alloc: Global,
    leaves: &mut Vec<Arc<Leaf>>,
    leaf: &Arc<Leaf>,
    new: &[Arc<Row>],
) -> Result<(), NoMem>
    requires old { IsTrue (is_ordered (arc_value leaf.now)) }
    requires new { IsTrue (is_ordered (rows_of new.now)) }
    requires apart { IsTrue (are_untied (rows_of new.now) (arc_value leaf.now)) }
    ensures { IfOk result (λ _. leaf_rows leaves.new.items ≡ leaf_rows leaves.old.items ++ merged (arc_value leaf.now) (rows_of new.now)) }
{
    if new.is_empty() {
        leaves.push(Arc::try_clone(leaf)?)?;
        return Ok(());
    }
    let mut more = leaf_with(alloc, leaf, new)?;
    leaves.append(&mut more)?;
    Ok(())
}

/// How many of the rows stand in front of where the leaves begin: all where there is no leaf.
fn until(rows: &[Arc<Row>], leaves: &[Arc<Leaf>]) -> usize
    requires rows { IsTrue (is_ordered (rows_of rows.now)) }
    requires leaves { IsTrue (is_ordered (leaf_rows leaves.now)) }
    ensures bound { result ≤ length rows.now }
    ensures front { IsTrue (lead (take result (rows_of rows.now)) (leaf_rows leaves.now)) }
    ensures behind { IsTrue (are_behind (leaf_rows leaves.now) (drop result (rows_of rows.now))) }
{
    if rows.is_empty() {
        return 0;
    }
    match leaves.split_first() {
        Some((leaf, _)) => {
            let first = leaf.first();
            place(rows, first.raw.bytes(), Some(first.seq))
        }
        None => rows.len(),
    }
}

/// The leaves in branches, cut as rows are into leaves.
pub fn cut_leaves(alloc: Global, leaves: Vec<Arc<Leaf>>) -> Result<Vec<Arc<Branch>>, NoMem>
    ensures { IfOk result (λ branches. leaf_rows branches.items ≡ leaf_rows leaves.items) }
{
    let size = piece(leaves.len());
    let mut branches = Vec::new(alloc);
    let mut leaves = leaves;
    while leaves.len() > 64 {
        let last = leaves.split_off(leaves.len() - size)?;
        branches.push(Arc::new(alloc, Branch::of(last)?)?)?;
    }
    if !leaves.is_empty() {
        leaves.shrink_to_fit();
        branches.push(Arc::new(alloc, Branch::of(leaves)?)?)?;
    }
    branches.reverse();
    Ok(branches)
}
