ghost use Rattle.std.specs.Prelude.{◌≡◌, ◌++◌, drop, option_map};
ghost use Rattle.std.specs.List.{slice_get};
ghost use Rattle.kv_base.specs.RowRefs.{row_seen};
ghost use Rattle.mem_table.specs.Shared.{rows_of};
ghost use Rattle.mem_table.specs.Tree.{leaf_rows};

use crate::branch::Branch;
use crate::leaf::Leaf;
use kv_base::{Row, RowRef};
use std::marker::Model;
use std::sync::Arc;

/// Rows of a table from a place on, given one after the other. It borrows them and copies none.
///
/// Contracts see the list of the rows that are still to come.
#[derive(Drop)]
pub struct MemCursor<'a> {
    rows: &'a [Arc<Row>],
    leaves: &'a [Arc<Leaf>],
    branches: &'a [Arc<Branch>],
}

impl<'a> Model for MemCursor<'a> {
    ghost use Rattle.std.specs.Prelude.{◌≡◌, ◌++◌, List, [], length};
    ghost use Rattle.kv_base.specs.declared.row.Row.{Row};
    ghost use Rattle.mem_table.specs.Shared.{rows_of};
    ghost use Rattle.mem_table.specs.Tree.{leaf_rows};

    ghost Value = { List Row };

    ghost view = { λ c. rows_of c.rows.now ++ (leaf_rows c.leaves.now ++ leaf_rows c.branches.now) };

    ghost invariant = { λ c. length c.rows.now ≡ 0 → length (leaf_rows c.leaves.now ++ leaf_rows c.branches.now) ≡ 0 };
}

impl<'a> MemCursor<'a> {
    /// The rows of a leaf, then those of the leaves behind it in its branch, then those of the branches behind that.
    pub(crate) fn of(
        rows: &'a [Arc<Row>],
        leaves: &'a [Arc<Leaf>],
        branches: &'a [Arc<Branch>],
    ) -> MemCursor<'a>
        ensures { result ≡ rows_of rows.now ++ (leaf_rows leaves.now ++ leaf_rows branches.now) }
    {
        if !rows.is_empty() {
            return MemCursor {
                rows,
                leaves,
                branches,
            };
        }
        if let Some((leaf, leaves)) = leaves.split_first() {
            return MemCursor {
                rows: leaf.rows(),
                leaves,
                branches,
            };
        }
        match branches.split_first() {
            Some((branch, branches)) => {
                let (leaf, leaves) = branch.split();
                MemCursor {
                    rows: leaf.rows(),
                    leaves,
                    branches,
                }
            }
            None => MemCursor {
                rows,
                leaves,
                branches,
            },
        }
    }

    /// Takes the first of the rows that are still to come; `None` exactly where none is left.
    pub fn next(&mut self) -> Option<RowRef<'a>>
        ensures row { option_map row_seen result ≡ slice_get self.old 0 }
        ensures rest { self.new ≡ drop 1 self.old }
    {
        let (row, rows) = self.rows.split_first()?;
        *self = MemCursor::of(rows, self.leaves, self.branches);
        Some(row.by_ref())
    }
}
