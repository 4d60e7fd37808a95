//! What the rows that a command wants change of the rows that are there.

ghost use Rattle.kv_base.specs.Map.{get, size};
ghost use Rattle.std.specs.Prelude.{◌≡◌, ◌≤◌, ◌<◌, ◌+◌, ◌-◌, ◌^◌, IfOk, IfSome, OnOk, IsTrue, if◌then◌else◌, option_map, slice_get};
ghost use Rattle.batch_codec.specs.Batches.{are_rows, is_row};
ghost use Rattle.lives_model.specs.Plans.{same_row};
ghost use Rattle.lives_model.specs.Views.{ReadsView};
ghost use Rattle.plan_base.specs.LifeChanges.{added_rows, differing, removed_rows};
ghost use Rattle.life_changes.specs.ChangeSteps.{TakesWish};
ghost use Rattle.kv_base.specs.Map as table;

use batch_codec::{Batch, BatchBuilder};
use kv_base::{Blob, NoMem, StoreFault};
use lives_model::RawView;
use std::alloc::Global;

/// What the rows that are wanted change.
#[derive(Drop)]
pub struct LifeChange {
    /// Those that differ from the rows that are there.
    pub rows: Batch,
    /// The number of rows that are put where there is none.
    pub added: u64,
    /// The number of rows that are there and go.
    pub removed: u64,
}

/// The same of the rows so far.
#[derive(Drop)]
pub(crate) struct Changing {
    pub rows: BatchBuilder,
    pub added: u64,
    pub removed: u64,
}

/// What the rows that are wanted change of the rows of a view. One row is looked up for each, and one that differs is copied
/// once.
///
/// The fault is one of the view, or want of memory. It leaves the view's rows as they are, as does an answer.
pub fn changes<V: RawView>(
    alloc: Global,
    view: &mut V,
    wanted: &Batch,
) -> Result<LifeChange, StoreFault>
    ensures rows { IfOk result (λ change. IfSome (V.told view.old).rows (λ c. change.rows ≡ differing c wanted.now)) }
    ensures added { IfOk result (λ change. IfSome (V.told view.old).rows (λ c. change.added ≡ added_rows c wanted.now)) }
    ensures removed { IfOk result (λ change. IfSome (V.told view.old).rows (λ c. change.removed ≡ removed_rows c wanted.now)) }
    ensures few { IfOk result (λ change. change.added + change.removed ≤ size wanted.now) }
    ensures reads { ReadsView (V.told view.old) (V.told view.new) result }
{
    let mut changing = Changing {
        rows: BatchBuilder::new(alloc),
        added: 0,
        removed: 0,
    };
    for at in 0..wanted.len() {
        take_entry(alloc, view, wanted, at, &mut changing)?;
    }
    let change = finish(changing)?;
    Ok(change)
}

/// The change, of the rows so far.
fn finish(changing: Changing) -> Result<LifeChange, NoMem>
    ensures rows { IfOk result (λ change. change.rows ≡ changing.rows) }
    ensures added { IfOk result (λ change. change.added ≡ changing.added) }
    ensures removed { IfOk result (λ change. change.removed ≡ changing.removed) }
{
    let Changing {
        rows,
        added,
        removed,
    } = changing;
    let rows = rows.build()?;
    Ok(LifeChange {
        rows,
        added,
        removed,
    })
}

/// Takes in the entry at a place. After a fault what was counted is unknown.
fn take_entry<V: RawView>(
    alloc: Global,
    view: &mut V,
    wanted: &Batch,
    at: usize,
    changing: &mut Changing,
) -> Result<(), StoreFault>
    requires grammar { IsTrue (are_rows wanted.now.entries) }
    requires few { changing.old.added + changing.old.removed < 2 ^ 64 - 1 }
    ensures taken { OnOk result (IfSome (V.told view.old).rows
        (λ c. IfSome (slice_get wanted.now.entries at) (λ e. TakesWish (get c e.0) e changing.old changing.new))) }
    ensures few { OnOk result (changing.new.added + changing.new.removed ≤ changing.old.added + changing.old.removed + 1) }
    ensures reads { ReadsView (V.told view.old) (V.told view.new) result }
{
    let Some((raw, row)) = wanted.entry(at) else {
        return Ok(());
    };
    let old = view.get(alloc, raw)?;
    take_row(alloc, changing, raw, row, &old)?;
    Ok(())
}

/// Takes in a row that is wanted, where this one is there. After an error what was counted is unknown.
fn take_row(
    alloc: Global,
    changing: &mut Changing,
    raw: &[u8],
    row: Option<&[u8]>,
    old: &Option<Blob>,
) -> Result<(), NoMem>
    requires grammar { IsTrue (is_row (raw.now, option_map (λ value. value.now) row)) }
    requires few { changing.old.added + changing.old.removed < 2 ^ 64 - 1 }
    ensures taken { OnOk result (TakesWish old.now (raw.now, option_map (λ value. value.now) row.entry) changing.old changing.new) }
    ensures few { OnOk result (changing.new.added + changing.new.removed ≤ changing.old.added + changing.old.removed + 1) }
{
    changing.added += one_where(row.is_some() && old.is_none());
    changing.removed += one_where(row.is_none() && old.is_some());
    if is_same(old, row) {
        return Ok(());
    }
    put_row(alloc, &mut changing.rows, raw, row)
}

fn one_where(test: bool) -> u64
    ensures { result ≡ (if test then 1 else 0) }
{
    if test { 1 } else { 0 }
}

/// Is the row that is there the one that is wanted?
fn is_same(old: &Option<Blob>, row: Option<&[u8]>) -> bool
    ensures { result ≡ same_row old.now (option_map (λ value. value.now) row.entry) }
{
    let Some(old) = old else {
        return row.is_none();
    };
    let Some(row) = row else {
        return false;
    };
    old.bytes().cmp(row).is_eq()
}

/// Puts a copy of a row, or the delete. On an error the batch is as before.
fn put_row(
    alloc: Global,
    rows: &mut BatchBuilder,
    raw: &[u8],
    row: Option<&[u8]>,
) -> Result<(), NoMem>
    requires { IsTrue (is_row (raw.now, option_map (λ value. value.now) row)) }
    ensures { OnOk result (rows.new ≡ table.insert rows.old raw.now (option_map (λ value. value.now) row.entry)) }
{
    let raw = Blob::copy(alloc, raw)?;
    match row {
        Some(value) => rows.put(raw, Blob::copy(alloc, value)?),
        None => rows.delete(raw),
    }
}
