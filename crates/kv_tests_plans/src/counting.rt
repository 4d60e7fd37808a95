//! Rows in memory that count what is asked of them.

use batch_codec::Batch;
use kv_base::{Blob, NoMem, StoreFault};
use lives_model::{ListView, LiveRows, RawView};
use std::alloc::Global;

/// What was asked of a view.
#[derive(Clone, Copy, Debug, PartialEq, Eq)]
pub struct Asked {
    /// How many values were looked up.
    pub lookups: u64,
    /// How many ranges were asked for.
    pub ranges: u64,
    /// How many rows the ranges had together.
    pub rows: u64,
}

/// Nothing.
pub const NOTHING: Asked = Asked {
    lookups: 0,
    ranges: 0,
    rows: 0,
};

/// A view of rows in memory, and what was asked of it.
#[derive(Drop)]
pub struct CountingView {
    rows: ListView,
    pub asked: Asked,
}

impl CountingView {
    /// A view of no rows.
    pub fn new(alloc: Global) -> CountingView {
        CountingView {
            rows: ListView::new(alloc),
            asked: NOTHING,
        }
    }

    /// The rows after a batch.
    pub fn write(&mut self, alloc: Global, batch: &Batch) -> Result<(), NoMem> {
        self.rows.write(alloc, batch)
    }
}

impl RawView for CountingView {
    ghost use Rattle.lives_model.specs.Views.{in_memory};

    ghost told = { λ v. in_memory v.rows };

    fn get(&mut self, alloc: Global, raw: &[u8]) -> Result<Option<Blob>, StoreFault> {
        self.asked.lookups = self.asked.lookups.saturating_add(1);
        let value = self.rows.get(alloc, raw)?;
        Ok(value)
    }

    fn range(
        &mut self,
        alloc: Global,
        from: &[u8],
        prefix: &[u8],
        limit: usize,
    ) -> Result<LiveRows, StoreFault> {
        self.asked.ranges = self.asked.ranges.saturating_add(1);
        let found = self.rows.range(alloc, from, prefix, limit)?;
        self.asked.rows = self.asked.rows.saturating_add(found.len() as u64);
        Ok(found)
    }
}
