ghost use Rattle.std.specs.Prelude.{◌≡◌, ◌≤◌, ℕ, [], Some, None, IfOk, IfErr, map, option_map};
ghost use Rattle.std.specs.Arc.{arc_value};
ghost use Rattle.kv_outside.specs.Disk.{NothingNew};
ghost use Rattle.kv_outside.specs.Causes.{IsCause};
ghost use Rattle.mem_table.specs.Search.{rows_from};
ghost use Rattle.merge_rows.specs.Merged.{AreDistinct, all_told_rows, merged_rows};
ghost use Rattle.view_read.specs.Shows.{ShowsInAll};
ghost use Rattle.row_model.specs.Rows.{at as map_at};
ghost use Rattle.view_read.specs.Sources.{SourcesState, map_of_sources, source_rows, all_tables, tables_off};

use crate::any_cursor::AnyCursor;
use crate::cursors::source_cursors;
use crate::find::{find_in_both, find_in_levels, newer};
use crate::view::View;
use kv_base::{NoMem, Row, StoreFault};
use kv_outside::Files;
use mem_table::MemTable;
use merge_rows::{Merge, Upcoming};
use sst_file::Table;
use std::alloc::Global;
use std::marker::Model;
use std::sync::Arc;

/// The places where a store has rows: its memtable, the frozen one where there is one, and the tables of each level.
///
/// No two rows of them have both raw key and sequence equal. Sharing the sources copies neither rows nor tables.
#[derive(Drop)]
pub struct Sources<F: Files> {
    memory: MemTable,
    frozen: Option<MemTable>,
    levels: Arc<Vec<Vec<Table<F>>>>,
}

impl<F: Files> Model for Sources<F> {
    ghost use Rattle.std.specs.Prelude.{map};
    ghost use Rattle.std.specs.Arc.{arc_value};
    ghost use Rattle.merge_rows.specs.Merged.{AreDistinct, all_told_rows};
    ghost use Rattle.view_read.specs.Sources.{SourcesState, source_rows};

    ghost Value = { SourcesState };

    ghost view = { λ s. record { memory = s.memory; frozen = s.frozen; levels = map (λ level. level.items) (arc_value s.levels).items } };

    ghost invariant = { λ s. AreDistinct (all_told_rows (source_rows (record { memory = s.memory; frozen = s.frozen; levels = map (λ level. level.items) (arc_value s.levels).items }))) };
}

impl<F: Files> Sources<F> {
    /// These places. No two rows of them have both raw key and sequence equal.
    pub fn new(
        memory: MemTable,
        frozen: Option<MemTable>,
        levels: Arc<Vec<Vec<Table<F>>>>,
    ) -> Sources<F>
        requires distinct { AreDistinct (all_told_rows (source_rows (record { memory = memory; frozen = frozen; levels = map (λ level. level.items) (arc_value levels).items }))) }
        ensures { result ≡ record { memory = memory; frozen = frozen; levels = map (λ level. level.items) (arc_value levels).items } }
    {
        Sources {
            memory,
            frozen,
            levels,
        }
    }

    /// The rows of one memtable alone.
    #[tactic(auto, using(crate::proofs::Spreading::distinct_alone, crate::proofs::Spreading::at_alone))]
    pub fn in_memory(alloc: Global, memory: MemTable) -> Result<Sources<F>, NoMem>
        ensures rows { IfOk result (λ sources. sources ≡ record { memory = memory; frozen = None; levels = [] }) }
        ensures shows { IfOk result (λ sources. (seq : ℕ) → map_of_sources sources seq ≡ Some (map_at memory seq)) }
    {
        let _count = memory.len();
        let levels = Arc::new(alloc, Vec::new(alloc))?;
        Ok(Sources {
            memory,
            frozen: None,
            levels,
        })
    }

    /// The same places once more. It fails only where one is shared too often to count.
    pub fn share(&self) -> Result<Sources<F>, NoMem>
        ensures { IfOk result (λ sources. sources ≡ self.now) }
    {
        let memory = self.memory.share()?;
        let frozen = share_frozen(&self.frozen)?;
        let levels = Arc::try_clone(&self.levels)?;
        Ok(Sources {
            memory,
            frozen,
            levels,
        })
    }

    /// The rows at a sequence.
    pub fn view<'a>(&'a self, files: &'a mut F, seq: u64) -> View<'a, F>
        ensures sources { result.sources.now ≡ self.now }
        ensures files { result.files.now ≡ files.old }
        ensures same_files { result.files.ghost_name ≡ files.entry.ghost_name }
        ensures seq { result.seq ≡ seq }
    {
        View {
            sources: self,
            files,
            seq,
        }
    }

    /// The row of a raw key with the greatest sequence not above `seq`; `None` exactly where there is none.
    pub(crate) fn find(
        &self,
        alloc: Global,
        files: &mut F,
        raw: &[u8],
        seq: u64,
    ) -> Result<Option<Row>, StoreFault>
        ensures row { IfOk result (λ row. ShowsInAll (source_rows self.now) seq raw.now row) }
        ensures disk { NothingNew (F.disk files.old) (F.disk files.new) }
        ensures cause { IfErr result (λ fault. IsCause (F.faults files.old) (F.faults files.new) (tables_off (all_tables self.now.levels)) fault) }
        ensures later { F.faults files.old ≤ F.faults files.new }
    {
        let newest = find_in_both(alloc, &self.memory, &self.frozen, raw, seq)?;
        let found = find_in_levels(alloc, files, self.levels.as_slice(), raw, seq)?;
        Ok(newer(newest, found))
    }

    /// All rows whose raw keys are not below this one, in order.
    pub(crate) fn rows_from<'a>(
        &'a self,
        alloc: Global,
        raw: &[u8],
    ) -> Result<Merge<AnyCursor<'a, F>>, NoMem>
        ensures rows { IfOk result (λ rows. ⟦<Merge<AnyCursor<'a, F>> as Upcoming>⟧.rows rows ≡ merged_rows (map (option_map (rows_from raw.now)) (source_rows self.now))) }
        ensures off { IfOk result (λ rows. ⟦<Merge<AnyCursor<'a, F>> as Upcoming>⟧.off rows ≡ tables_off (all_tables self.now.levels)) }
        ensures distinct { AreDistinct (all_told_rows (source_rows self.now)) }
    {
        let cursors = source_cursors(
            alloc,
            &self.memory,
            &self.frozen,
            self.levels.as_slice(),
            raw,
        )?;
        Ok(Merge::new(alloc, cursors)?)
    }
}

fn share_frozen(frozen: &Option<MemTable>) -> Result<Option<MemTable>, NoMem>
    ensures { IfOk result (λ shared. shared ≡ frozen.now) }
{
    match frozen {
        Some(frozen) => Ok(Some(frozen.share()?)),
        None => Ok(None),
    }
}
