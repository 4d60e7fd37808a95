//! Tables that are open for reading.

ghost use Rattle.std.specs.Prelude.{◌≡◌, ◌≤◌, IfOk, IfErr, IfSome, Some};
ghost use Rattle.std.specs.Arc.{arc_value};
ghost use Rattle.kv_base.specs.Map.{Bytes};
ghost use Rattle.kv_outside.specs.Disk.{CrashLeaves, NothingNew};
ghost use Rattle.row_model.specs.Rows.{seen_at};
ghost use Rattle.kv_outside.specs.Causes.{IsCause};
ghost use Rattle.sst_grammar.specs.Judging.{judged_table};
ghost use Rattle.sst_file.specs.Opening.{IsBlame};
ghost use Rattle.sst_file.specs.States.{HasRows, StandsForTable, rows_of_table, table_off};

use crate::open_table::open_parts;
use crate::opening::open_sealed;
use crate::searching::find_from;
use kv_base::{FileName, NoMem, Row, StoreFault, TableDesc, TableId};
use kv_outside::Files;
use sst_parts::{Bits, Spot};
use std::alloc::Global;
use std::marker::Model;
use std::sync::Arc;

/// What is kept of a table in memory, beside its file.
#[derive(Drop)]
pub(crate) struct Parts<F: Files> {
    pub file: F::Sealed,
    pub desc: TableDesc,
    pub spots: Vec<Spot>,
    pub bits: Bits,
}

/// A table that is open for reading. Its file never changes, so it is shared at will.
///
/// It keeps the index and the filter in memory. A look-up asks the filter, and reads one block of the file where the
/// filter lets it pass, mostly.
#[derive(Drop)]
pub struct Table<F: Files> {
    pub(crate) parts: Arc<Parts<F>>,
}

impl<F: Files> Model for Table<F> {
    ghost use Rattle.std.specs.Arc.{arc_value};
    ghost use Rattle.sst_file.specs.States.{StandsForTable, TableState, rows_of_table};

    ghost Value = { TableState };

    ghost view = { λ t. record { desc = (arc_value t.parts).desc; rows = rows_of_table (F.sealed_bytes (arc_value t.parts).file) } };

    ghost invariant = { λ t. StandsForTable (arc_value t.parts).spots.items (arc_value t.parts).bits (arc_value t.parts).desc (F.sealed_bytes (arc_value t.parts).file) };
}

impl<F: Files> Table<F> {
    /// Opens a table: its file is synced, sealed, and read whole, block by block.
    ///
    /// It is `Damaged` exactly at the first place at which the file is off its grammar: head, foot, index, filter and
    /// blocks are judged in this order. A file that is not there is an empty one, which is off its grammar at 0.
    pub fn open(alloc: Global, files: &mut F, id: TableId) -> Result<Table<F>, StoreFault>
        ensures found { IfOk result (λ table. (bytes : Bytes) → (F.disk files.old).reads (FileName.Table id) ≡ Some bytes → HasRows bytes table.rows) }
        ensures id { IfOk result (λ table. table.desc.id ≡ id) }
        ensures blame { IfErr result (λ fault. IsBlame (F.faults files.old) (F.faults files.new) id ((F.disk files.old).reads (FileName.Table id)) judged_table fault) }
        // From then on a crash leaves a table of these rows.
        ensures durable { IfOk result (λ table. CrashLeaves (F.disk files.new) (FileName.Table id) (λ c. rows_of_table (Some c) ≡ table.rows)) }
        ensures disk { NothingNew (F.disk files.old) (F.disk files.new) }
        ensures later { F.faults files.old ≤ F.faults files.new }
    {
        let Ok(opened) = open_sealed(files, id) else {
            return Err(StoreFault::Failed);
        };
        let parts = shared(alloc, open_parts(alloc, files, id, opened)?)?;
        Ok(Table { parts })
    }

    /// A table whose file was written and sealed, by what is kept of it.
    pub fn of_written(
        alloc: Global,
        file: F::Sealed,
        desc: TableDesc,
        spots: Vec<Spot>,
        bits: Bits,
    ) -> Result<Table<F>, NoMem>
        requires { StandsForTable spots.items bits desc (F.sealed_bytes file) }
        ensures desc { IfOk result (λ table. table.desc ≡ desc) }
        ensures rows { IfOk result (λ table. table.rows ≡ rows_of_table (F.sealed_bytes file)) }
    {
        let parts = Parts {
            file,
            desc,
            spots,
            bits,
        };
        Ok(Table {
            parts: shared(alloc, parts)?,
        })
    }

    /// What the manifest records of the table.
    pub fn desc(&self) -> &TableDesc
        ensures { result.now ≡ self.now.desc }
    {
        &self.parts.desc
    }

    /// The same table once more. It fails only where the table is shared too often to count.
    pub fn share(&self) -> Result<Table<F>, NoMem>
        ensures { IfOk result (λ table. table ≡ self.now) }
    {
        Ok(Table {
            parts: Arc::try_clone(&self.parts)?,
        })
    }

    /// The row of a raw key with the greatest sequence not above `seq`; `None` exactly where the table has none.
    pub fn find(
        &self,
        alloc: Global,
        files: &mut F,
        raw: &[u8],
        seq: u64,
    ) -> Result<Option<Row>, StoreFault>
        ensures row { IfOk result (λ row. IfSome self.now.rows (λ rows. row ≡ seen_at rows seq raw.now)) }
        ensures disk { NothingNew (F.disk files.old) (F.disk files.new) }
        ensures cause { IfErr result (λ fault. IsCause (F.faults files.old) (F.faults files.new) (table_off self.now) fault) }
        ensures later { F.faults files.old ≤ F.faults files.new }
    {
        let parts = &*self.parts;
        if !parts.bits.may_hold(raw) {
            return Ok(None);
        }
        find_from(alloc, files, parts, raw, seq)
    }
}

fn shared<F: Files>(alloc: Global, parts: Parts<F>) -> Result<Arc<Parts<F>>, NoMem>
    ensures { IfOk result (λ shared. arc_value shared ≡ parts) }
{
    Ok(Arc::new(alloc, parts)?)
}
