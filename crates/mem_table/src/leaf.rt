//! Rows in lists of at most 64.
ghost use Rattle.std.specs.Prelude.{◌≡◌, ◌<◌, ◌≤◌, ◌-◌, ◌++◌, [], ◌∷◌, IsTrue, IfOk, length, take, drop};
ghost use Rattle.std.specs.Arc.{arc_value};
ghost use Rattle.row_model.specs.RowOrder.{is_ordered, merged};
ghost use Rattle.row_model.specs.RowOrderLaws.{are_untied};
ghost use Rattle.mem_table.specs.Shared.{rows_of};
ghost use Rattle.mem_table.specs.Tree.{leaf_rows};

use crate::merge::merge;
use kv_base::{NoMem, Row};
use std::alloc::Global;
use std::marker::Model;
use std::sync::Arc;

/// Between one row and 64, in order where they are a table's. Contracts see the list of them.
#[derive(Drop)]
pub struct Leaf {
    rows: Vec<Arc<Row>>,
}

impl Model for Leaf {
    ghost use Rattle.std.specs.Prelude.{◌≤◌, ◌<◌, List, length};
    ghost use Rattle.kv_base.specs.declared.row.Row.{Row};
    ghost use Rattle.mem_table.specs.Shared.{rows_of};

    ghost Value = { List Row };

    ghost view = { λ l. rows_of l.rows.items };

    ghost invariant = { λ l. (0 < length l.rows.items) × (length l.rows.items ≤ 64) };
}

impl Leaf {
    /// Its rows.
    pub fn rows(&self) -> &[Arc<Row>]
        ensures all { rows_of result.now ≡ self.now }
        ensures some { 0 < length result.now }
        ensures limit { length result.now ≤ 64 }
    {
        self.rows.as_slice()
    }

    /// The first of its rows.
    pub fn first(&self) -> &Row
        ensures { self.now ≡ result.now ∷ drop 1 self.now }
    {
        &self.rows[0]
    }

    /// The last of its rows.
    pub fn last(&self) -> &Row
        ensures { self.now ≡ take (length self.now - 1) self.now ++ result.now ∷ [] }
    {
        self.last_pointer()
    }

    /// The pointer to the last of its rows.
    pub fn last_pointer(&self) -> &Arc<Row>
        ensures { self.now ≡ take (length self.now - 1) self.now ++ arc_value result.now ∷ [] }
    {
        let rows = self.rows.as_slice();
        &rows[rows.len() - 1]
    }
}

/// The leaf's rows and new ones, each at its place. A leaf that would grow beyond 64 rows is split.
pub fn leaf_with(alloc: Global, leaf: &Leaf, new: &[Arc<Row>]) -> Result<Vec<Arc<Leaf>>, NoMem>
    requires old { IsTrue (is_ordered leaf.now) }
    requires new { IsTrue (is_ordered (rows_of new.now)) }
    requires apart { IsTrue (are_untied (rows_of new.now) leaf.now) }
    ensures { IfOk result (λ leaves. leaf_rows leaves.items ≡ merged leaf.now (rows_of new.now)) }
{
    let rows = merge(alloc, leaf.rows(), new)?;
    cut_rows(alloc, rows)
}

/// The rows in leaves: in one where they fit, in halves where they fit into two, and else in full ones behind the first.
///
/// The pointers are moved: rows that fit become the leaf as they lie there, and of more rows each leaf is cut off the end.
pub fn cut_rows(alloc: Global, rows: Vec<Arc<Row>>) -> Result<Vec<Arc<Leaf>>, NoMem>
    ensures { IfOk result (λ leaves. leaf_rows leaves.items ≡ rows_of rows.items) }
{
    let size = piece(rows.len());
    let mut leaves = Vec::new(alloc);
    let mut rows = rows;
    while rows.len() > 64 {
        let last = rows.split_off(rows.len() - size)?;
        leaves.push(Arc::new(alloc, Leaf { rows: last })?)?;
    }
    if !rows.is_empty() {
        // What was cut off is still allocated: a leaf shall not hold it.
        rows.shrink_to_fit();
        leaves.push(Arc::new(alloc, Leaf { rows })?)?;
    }
    leaves.reverse();
    Ok(leaves)
}

/// How many of so many items stand in each list of at most 64: half of them where they fit into two.
pub fn piece(count: usize) -> usize
    ensures some { 0 < result }
    ensures limit { result ≤ 64 }
{
    if count > 64 && count <= 128 {
        count - count / 2
    } else {
        64
    }
}
