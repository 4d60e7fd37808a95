//! The rows of a table, as they are taken from a cursor.

ghost use Rattle.std.specs.Prelude.{◌≡◌, ◌≤◌, ◌<◌, ◌++◌, [], ◌∷◌, List, IfOk, IfErr, IfSome, OnErr, OnOk, length, option_map, is_some};
ghost use Rattle.kv_base.specs.declared.row.Row.{Row};
ghost use Rattle.kv_outside.specs.Causes.{IsCause};
ghost use Rattle.kv_outside.specs.Disk.{Agrees, NothingNew, Touches};
ghost use Rattle.sst_writer.specs.Building.{IsBuilt};
ghost use Rattle.sst_writer.specs.Cutting.{AreLeftOver, TakesNext, ends_at};
ghost use Rattle.sst_writer.specs.Filling.{IsFilled};

use crate::building::TableBuilder;
use crate::cutting::ends_before;
use crate::writing::{Draft, add};
use kv_base::{Row, StoreFault};
use kv_outside::Files;
use merge_rows::{Ahead, Cursor, Upcoming};
use std::alloc::Global;

/// Does the table end with the rows, or before the next one?
fn ends_at(table: &TableBuilder, limit: Option<u64>, next: Option<&Row>) -> bool
    ensures { (done : List Row) → IsBuilt table.now.end table.now.block table.now.spots.items table.now.sums.rows table.now.sums.keys.items table.now.sums.least table.now.sums.last done → result ≡ ends_at limit done (option_map (λ row. row.now) next.entry) }
{
    match next {
        Some(row) => ends_before(table, limit, row),
        None => true,
    }
}

/// Takes the next row of the table; `None` where the table ends.
fn take_next<F: Files, C: Cursor<F>>(
    alloc: Global,
    files: &mut F,
    table: &TableBuilder,
    rows: &mut Ahead<C>,
    limit: Option<u64>,
) -> Result<Option<Row>, StoreFault>
    ensures next { IfOk result (λ row. (done : List Row) → IsBuilt table.now.end table.now.block table.now.spots.items table.now.sums.rows table.now.sums.keys.items table.now.sums.least table.now.sums.last done
        → TakesNext limit done (⟦<Ahead<C> as Upcoming>⟧.rows rows.old) row (⟦<Ahead<C> as Upcoming>⟧.rows rows.new)) }
    ensures unchanged { OnErr result (⟦<Ahead<C> as Upcoming>⟧.rows rows.new ≡ ⟦<Ahead<C> as Upcoming>⟧.rows rows.old) }
    ensures off { ⟦<Ahead<C> as Upcoming>⟧.off rows.new ≡ ⟦<Ahead<C> as Upcoming>⟧.off rows.old }
    ensures left { ⟦<Ahead<C> as Upcoming>⟧.left rows.new ≤ ⟦<Ahead<C> as Upcoming>⟧.left rows.old }
    ensures nearer { IfOk result (λ row. IfSome row (λ _. ⟦<Ahead<C> as Upcoming>⟧.left rows.new < ⟦<Ahead<C> as Upcoming>⟧.left rows.old)) }
    ensures disk { NothingNew (F.disk files.old) (F.disk files.new) }
    ensures cause { IfErr result (λ fault. IsCause (F.faults files.old) (F.faults files.new) (⟦<Ahead<C> as Upcoming>⟧.off rows.old) fault) }
    ensures later { F.faults files.old ≤ F.faults files.new }
{
    rows.peek(alloc, files)?;
    if ends_at(table, limit, rows.shown()) {
        return Ok(None);
    }
    rows.step(alloc, files)
}

/// Takes the rows of the next table, and writes the blocks that they fill.
pub(crate) fn fill<F: Files, C: Cursor<F>>(
    alloc: Global,
    files: &mut F,
    log: &mut F::Log,
    rows: &mut Ahead<C>,
    limit: Option<u64>,
) -> Result<Draft, StoreFault>
    requires { IfSome (F.bytes_of log.old) (λ c. c ≡ []) }
    ensures filled { IfOk result (λ draft. IsFilled limit (⟦<Ahead<C> as Upcoming>⟧.rows rows.old) (⟦<Ahead<C> as Upcoming>⟧.rows rows.new) (F.bytes_of log.new) draft.written draft.waiting.items draft.table.end draft.table.block draft.table.spots.items draft.table.sums.rows draft.table.sums.keys.items draft.table.sums.least draft.table.sums.last) }
    ensures rest { OnErr result (AreLeftOver (⟦<Ahead<C> as Upcoming>⟧.rows rows.old) (⟦<Ahead<C> as Upcoming>⟧.rows rows.new)) }
    ensures off { ⟦<Ahead<C> as Upcoming>⟧.off rows.new ≡ ⟦<Ahead<C> as Upcoming>⟧.off rows.old }
    ensures left { ⟦<Ahead<C> as Upcoming>⟧.left rows.new ≤ ⟦<Ahead<C> as Upcoming>⟧.left rows.old }
    ensures told { OnOk result (is_some (F.bytes_of log.new) ≡ is_some (F.bytes_of log.old)) }
    ensures name { F.name_of log.new ≡ F.name_of log.old }
    ensures agrees { Agrees (F.disk files.old) (F.name_of log.old) (F.bytes_of log.old) → Agrees (F.disk files.new) (F.name_of log.old) (F.bytes_of log.new) }
    ensures touched { Touches (F.name_of log.old) (F.disk files.old) (F.disk files.new) (λ c. Unit {0}) }
    ensures cause { IfErr result (λ fault. IsCause (F.faults files.old) (F.faults files.new) (⟦<Ahead<C> as Upcoming>⟧.off rows.old) fault) }
    ensures later { F.faults files.old ≤ F.faults files.new }
{
    let mut draft = Draft::new(alloc)?;
    while let Some(row) = take_next(alloc, files, &draft.table, rows, limit)? {
        draft = add(alloc, files, log, draft, row.by_ref())?;
    }
    Ok(draft)
}
