use crate::page::first_rows;
use kv_base::{Blob, StoreFault};
use lives_model::{LiveRows, RawView};
use mem_table::MemTable;
use std::alloc::Global;

/// The rows that a memtable shows at a sequence. Reading them calls no file.
#[derive(Clone, Copy)]
pub struct TableView<'a> {
    pub table: &'a MemTable,
    pub sequence: u64,
}

impl RawView for TableView<'_> {
    ghost use Rattle.row_model.specs.Rows.{at};
    ghost use Rattle.lives_model.specs.Views.{in_memory};

    ghost told = { λ view. in_memory (at view.table.now view.sequence) };

    fn get(&mut self, alloc: Global, raw: &[u8]) -> Result<Option<Blob>, StoreFault> {
        let Some(row) = self.table.find(raw, self.sequence) else {
            return Ok(None);
        };
        match row.value {
            Some(value) => Ok(Some(Blob::copy(alloc, value)?)),
            None => Ok(None),
        }
    }

    fn range(
        &mut self,
        alloc: Global,
        from: &[u8],
        prefix: &[u8],
        limit: usize,
    ) -> Result<LiveRows, StoreFault> {
        Ok(first_rows(alloc, self.table, self.sequence, from, prefix, limit)?)
    }
}
