ghost use Rattle.std.specs.Prelude.{◌≡◌};

use crate::page::{greater, read_page};
use crate::sources::Sources;
use kv_base::{Blob, StoreFault};
use kv_outside::Files;
use lives_model::{LiveRows, RawView};
use std::alloc::Global;

/// The rows of a store at a sequence. How they are spread over memtables and tables decides nothing.
#[derive(Drop)]
pub struct View<'a, F: Files> {
    pub(crate) sources: &'a Sources<F>,
    pub(crate) files: &'a mut F,
    pub(crate) seq: u64,
}

impl<F: Files> RawView for View<'_, F> {
    ghost use Rattle.std.specs.Prelude.{[], ◌∷◌, None};
    ghost use Rattle.view_read.specs.Sources.{map_of_sources, all_tables, tables_off};

    ghost told = { λ view. record {
      rows = map_of_sources view.sources.now view.seq;
      faults = F.faults view.files.now;
      disk = F.disk view.files.now;
      off = tables_off (all_tables view.sources.now.levels);
      loans = (view.files.ghost_name, None) ∷ [];
    } };

    fn get(&mut self, alloc: Global, raw: &[u8]) -> Result<Option<Blob>, StoreFault> {
        match self.sources.find(alloc, self.files, raw, self.seq)? {
            Some(row) => Ok(row.value),
            None => Ok(None),
        }
    }

    fn range(
        &mut self,
        alloc: Global,
        from: &[u8],
        prefix: &[u8],
        limit: usize,
    ) -> Result<LiveRows, StoreFault> {
        let mut rows = self.sources.rows_from(alloc, greater(from, prefix))?;
        read_page(alloc, self.files, &mut rows, self.seq, prefix, limit)
    }
}
