//! Rows in a plain sorted list, which a table's tree is compared with.
ghost use Rattle.std.specs.Prelude.{◌≤◌, length};

use batch_codec::Batch;
use kv_base::{Row, RowRef};
use mem_table::MemTable;
use std::alloc::Global;
use std::test::Fail;

/// Rows in one list: raw keys ascend, and sequences fall within one.
#[derive(Drop)]
pub struct SortedRows {
    rows: Vec<Row>,
}

impl SortedRows {
    pub fn new(alloc: Global) -> SortedRows {
        SortedRows {
            rows: Vec::new(alloc),
        }
    }

    /// Puts each row of a batch at its place.
    pub fn add(&mut self, alloc: Global, batch: &Batch, seq: u64) -> Result<(), Fail> {
        for at in 0..batch.len() {
            if let Some((raw, value)) = batch.entry(at) {
                let row = RowRef { raw, seq, value }.copy(alloc)?;
                let place = place(self.rows.as_slice(), raw, seq);
                self.rows.insert(place, row)?;
            }
        }
        Ok(())
    }

    /// The newest row of a raw key that is not above the sequence.
    pub fn find(&self, raw: &[u8], seq: u64) -> Option<RowRef<'_>> {
        for row in self.rows.as_slice() {
            if row.raw.bytes() == raw && row.seq <= seq {
                return Some(row.by_ref());
            }
        }
        None
    }

    /// Are the rows that are not above the sequence those of the table, in one order?
    pub fn is_held_by(&self, table: &MemTable, last: u64) -> bool {
        let mut held = table.rows_from(b"");
        for row in self.rows.as_slice() {
            if row.seq <= last && held.next() != Some(row.by_ref()) {
                return false;
            }
        }
        held.next() == None
    }
}

/// The first place whose row does not stand in front of a raw key at a sequence.
fn place(rows: &[Row], raw: &[u8], seq: u64) -> usize
    ensures { result ≤ length rows.now }
{
    rows.partition_point(|row| row.raw.bytes().cmp(raw).then(seq.cmp(&row.seq)).is_lt())
}
