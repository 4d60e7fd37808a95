ghost use Rattle.std.specs.Prelude.{◌≡◌, ◌==◌, ◌≤◌, ◌<◌, ◌+◌, ◌-◌, ◌^◌, ℕ, [], IsTrue, IfOk, min, length, option_map};
ghost use Rattle.kv_base.specs.Map.{empty};
ghost use Rattle.batch_codec.specs.Batches.{after};
ghost use Rattle.row_model.specs.Rows.{are_below, are_row_texts, are_upto, at as map_at, batch_rows, seen_at};
ghost use Rattle.row_model.specs.Replays.{do_rise, last_from, replayed, rows_after};
ghost use Rattle.row_model.specs.RowOrder.{is_ordered, merged};
ghost use Rattle.kv_base.specs.RowRefs.{row_seen};
ghost use Rattle.mem_table.specs.Search.{rows_from};
ghost use Rattle.mem_table.specs.Tree.{leaf_rows};
ghost use Rattle.mem_table.specs.Weights.{rows_weight};

use crate::branch::Branch;
use crate::cursor::MemCursor;
use crate::merge::copy_rows;
use crate::replay::replay_rows;
use crate::root::{branches_with, cut_whole};
use crate::search::seek;
use crate::weight::weight;
use batch_codec::{Batch, Record};
use kv_base::{NoMem, RowRef};
use std::alloc::Global;
use std::marker::Model;
use std::sync::Arc;

/// Rows in order: raw keys ascend, and sequences fall within one. Contracts see the list of them.
///
/// Raw keys and values are on their grammar. The rows are shared, so a table is handed on without copying them.
#[derive(Drop)]
pub struct MemTable {
    root: Option<Arc<Vec<Arc<Branch>>>>,
    count: usize,
    bytes: u64,
}

impl Model for MemTable {
    ghost use Rattle.std.specs.Prelude.{◌≡◌, ◌-◌, ◌^◌, List, IsTrue, length, min};
    ghost use Rattle.kv_base.specs.declared.row.Row.{Row};
    ghost use Rattle.row_model.specs.Rows.{are_row_texts};
    ghost use Rattle.row_model.specs.RowOrder.{is_ordered};
    ghost use Rattle.mem_table.specs.Tree.{tree_rows};
    ghost use Rattle.mem_table.specs.Weights.{rows_weight};

    ghost Value = { List Row };

    ghost view = { λ t. tree_rows t.root };

    ghost invariant = { λ t. IsTrue (is_ordered (tree_rows t.root)) × IsTrue (are_row_texts (tree_rows t.root)) × (t.count ≡ length (tree_rows t.root)) × (t.bytes ≡ min (rows_weight (tree_rows t.root)) (2 ^ 64 - 1)) };
}

impl MemTable {
    /// A table of no rows, which takes no memory.
    #[tactic(auto, unfolding(row_model::specs::RowOrder::is_ordered))]
    pub fn new() -> MemTable
        ensures { result ≡ [] }
    {
        MemTable {
            root: None,
            count: 0,
            bytes: 0,
        }
    }

    /// The table with the rows of a batch under a sequence, which is above every sequence held. This table stays as it is.
    ///
    /// The batch's raw keys and values are copied. Of the rows held none is copied, and of the pointers to them those that
    /// stand beside a new row in a list of at most 64: the lists without a new row are shared with this table. Beside that
    /// a call takes a step for each list of at most 64 such lists.
    pub fn with(&self, alloc: Global, batch: &Batch, seq: u64) -> Result<MemTable, NoMem>
        requires { IsTrue (are_below seq self.now) }
        ensures rows { IfOk result (λ table. table ≡ merged self.now (batch_rows seq batch.now)) }
        ensures shows { IfOk result (λ table. (last : ℕ) → IsTrue (are_upto last self.now) → last < seq → map_at table seq ≡ after (map_at self.now last) batch.now) }
        ensures last { IfOk result (λ table. IsTrue (are_upto seq table)) }
        ensures older { IfOk result (λ table. (s : ℕ) → s < seq → map_at table s ≡ map_at self.now s) }
    {
        let new = copy_rows(alloc, batch, seq)?;
        let count = sum(self.count, new.as_slice().len())?;
        let bytes = self.bytes.saturating_add(weight(new.as_slice()));
        let root = branches_with(alloc, self.branches(), new)?;
        Ok(MemTable {
            root: Some(Arc::new(alloc, root)?),
            count,
            bytes,
        })
    }

    /// The table of the rows of these records' batches, each under its record's sequence: the one that `with` comes to by
    /// one record after the other. Each record's sequence is above that of the record before it.
    ///
    /// The rows are sorted once, so a call takes time n log n by their number, and not that number for each record.
    pub fn replay(alloc: Global, records: &[Record]) -> Result<MemTable, NoMem>
        requires { IsTrue (do_rise records.now) }
        ensures rows { IfOk result (λ table. table ≡ replayed [] records.now) }
        ensures shows { IfOk result (λ table. map_at table (last_from 0 records.now) ≡ rows_after empty records.now) }
        ensures last { IfOk result (λ table. IsTrue (are_upto (last_from 0 records.now) table)) }
    {
        let rows = replay_rows(alloc, records)?;
        let bytes = weight(rows.as_slice());
        let count = rows.as_slice().len();
        let root = cut_whole(alloc, rows)?;
        Ok(MemTable {
            root: Some(Arc::new(alloc, root)?),
            count,
            bytes,
        })
    }

    /// The row of a raw key with the greatest sequence not above `seq`; `None` exactly where there is none.
    pub fn find(&self, raw: &[u8], seq: u64) -> Option<RowRef<'_>>
        ensures { option_map row_seen result ≡ seen_at self.now seq raw.now }
    {
        let mut rows = seek(self.branches(), raw, Some(seq));
        let row = rows.next()?;
        if row.raw == raw { Some(row) } else { None }
    }

    /// The sum of the lengths of the raw keys and values held, in bytes, or 2^64 - 1 where it is greater.
    pub fn bytes(&self) -> u64
        ensures { result ≡ min (rows_weight self.now) (2 ^ 64 - 1) }
    {
        self.bytes
    }

    /// The same rows once more, which copies none of them. It fails only where the table is shared too often to count.
    pub fn share(&self) -> Result<MemTable, NoMem>
        ensures { IfOk result (λ table. table ≡ self.now) }
    {
        let root = match &self.root {
            Some(root) => Some(Arc::try_clone(root)?),
            None => None,
        };
        Ok(MemTable {
            root,
            count: self.count,
            bytes: self.bytes,
        })
    }

    /// The number of rows.
    pub fn len(&self) -> usize
        ensures count { result ≡ length self.now }
        ensures order { IsTrue (is_ordered self.now) }
        ensures grammar { IsTrue (are_row_texts self.now) }
    {
        self.count
    }

    /// Is there no row?
    pub fn is_empty(&self) -> bool
        ensures { result ≡ (length self.now == 0) }
    {
        self.len() == 0
    }

    /// The rows whose raw keys are not below this one, in order. None of them is copied.
    pub fn rows_from(&self, raw: &[u8]) -> MemCursor<'_>
        ensures rows { result ≡ rows_from raw.now self.now }
        ensures order { IsTrue (is_ordered self.now) }
        ensures grammar { IsTrue (are_row_texts self.now) }
    {
        seek(self.branches(), raw, None)
    }

    fn branches(&self) -> &[Arc<Branch>]
        ensures all { leaf_rows result.now ≡ self.now }
        ensures order { IsTrue (is_ordered self.now) }
        ensures grammar { IsTrue (are_row_texts self.now) }
    {
        match &self.root {
            Some(root) => root.as_slice(),
            None => &[],
        }
    }
}

/// The sum, where it fits.
fn sum(count: usize, more: usize) -> Result<usize, NoMem>
    ensures { IfOk result (λ all. all ≡ count + more) }
{
    match count.checked_add(more) {
        Some(all) => Ok(all),
        None => Err(NoMem),
    }
}
