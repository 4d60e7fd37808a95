//! Tables that grow by one batch after the other.
ghost use Rattle.std.specs.Prelude.{IsTrue};
ghost use Rattle.row_model.specs.Rows.{are_upto};

use batch_codec::Batch;
use kv_base::{Blob, is_raw, is_value};
use mem_table::MemTable;
use std::alloc::Global;
use std::test::Fail;

/// A table, and a sequence that none of its rows is above.
#[derive(Drop)]
pub struct Grown {
    pub table: MemTable,
    last: u64,
    ghost upto: { IsTrue (are_upto last table) },
}

impl Grown {
    /// No rows.
    pub fn new() -> Grown {
        Grown {
            table: MemTable::new(),
            last: 0,
        }
    }

    /// The rows of a batch more, whose sequence is to be above the greatest one.
    #[tactic(auto, using(row_model::specs::RowOrderLaws::below_from_upto))]
    pub fn add(&mut self, alloc: Global, batch: &Batch, seq: u64) -> Result<(), Fail> {
        if seq <= self.last {
            return Err(Fail::from("a sequence above the greatest one"));
        }
        *self = Grown {
            table: self.table.with(alloc, batch, seq)?,
            last: seq,
        };
        Ok(())
    }
}

/// Puts a row that is to be on its grammar.
pub fn put(alloc: Global, batch: &mut Batch, raw: &[u8], value: &[u8]) -> Result<(), Fail> {
    if !is_value(raw, value) {
        return Err(Fail::from("a row"));
    }
    Ok(batch.put(Blob::copy(alloc, raw)?, Blob::copy(alloc, value)?)?)
}

/// Puts a delete of a raw key that is to be on its grammar.
pub fn delete(alloc: Global, batch: &mut Batch, raw: &[u8]) -> Result<(), Fail> {
    if !is_raw(raw) {
        return Err(Fail::from("a raw key"));
    }
    Ok(batch.delete(Blob::copy(alloc, raw)?)?)
}
