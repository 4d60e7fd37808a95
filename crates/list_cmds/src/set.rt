//! LSET.

ghost use Rattle.std.specs.Prelude.{◌≡◌, IfOk, IfSome, IsTrue, Some};
ghost use Rattle.kv_base.specs.RawKeys.{is_version};
ghost use Rattle.lives_model.specs.Plans.{same_row};
ghost use Rattle.lives_model.specs.Views.{ReadsView};
ghost use Rattle.list_changes.specs.Found.{IsFoundList, found_at, item_found, item_of, item_raw};
ghost use Rattle.list_cmds.specs.Planned.{l_set_plan};
ghost use Rattle.list_plans.specs.ListRows.{set_row};
ghost use Rattle.redis_model.specs.Limits.{IsShort};

use batch_codec::BatchBuilder;
use kv_base::{Blob, Key, NoMem, StoreFault};
use list_changes::{ListFound, find_list, list_plan, place, put_item, read_place};
use list_plans::ListSight;
use lives_model::{Plan, RawView};
use plan_base::{MetaKey, answering};
use redis_model::{Reply, ReplyError};
use std::alloc::Global;

/// LSET. Beside metadata one row is looked up, and none where the place is that of no item. The item is copied once.
///
/// The fault is one of the view, or want of memory. It leaves the view's rows as they are, as does an answer.
pub(crate) fn l_set<V: RawView>(
    alloc: Global,
    view: &mut V,
    moment: u64,
    key: &Key,
    at: i64,
    item: &Blob,
) -> Result<Plan, StoreFault>
    requires { IsShort item.now }
    ensures plan { IfOk result (λ plan. IfSome (V.told view.old).rows
        (λ c. plan ≡ l_set_plan moment (found_at c moment key.now) key.now at item.now (item_found (item_of c key.now at) (found_at c moment key.now).list))) }
    ensures reads { ReadsView (V.told view.old) (V.told view.new) result }
{
    let meta = MetaKey::new(alloc, key)?;
    let found = find_list(alloc, view, moment, &meta)?;
    let row = read_place(alloc, view, key, found, at)?;
    let plan = l_set_plan(alloc, moment, key, meta, found, at, item, &row)?;
    Ok(plan)
}

/// The plan of LSET by what was found, and by the item that was looked up.
#[tactic(auto, unfolding(crate::specs::Planned::l_set_plan))]
fn l_set_plan(
    alloc: Global,
    moment: u64,
    key: &Key,
    meta: MetaKey,
    found: ListFound,
    at: i64,
    item: &Blob,
    row: &Option<Blob>,
) -> Result<Plan, NoMem>
    requires meta { meta ≡ key.now }
    requires found { IsFoundList moment found }
    requires short { IsShort item.now }
    ensures { IfOk result (λ plan. plan ≡ l_set_plan moment found key.now at item.now row.now) }
{
    let list = match found.list {
        Ok(Some(list)) => list,
        Ok(None) => {
            let no_key = Reply::Error(ReplyError::NoSuchKey);
            return Ok(answering(alloc, moment, found.deadline, no_key));
        }
        Err(error) => return Ok(answering(alloc, moment, found.deadline, Reply::Error(error))),
    };
    let Some(place) = place(list.tail - list.head, at) else {
        let no_place = Reply::Error(ReplyError::IndexRange);
        return Ok(answering(alloc, moment, found.deadline, no_place));
    };
    let rows = set_row(alloc, key, list, list.head + place, item, row)?;
    list_plan(alloc, moment, meta, found.deadline, list, rows, Reply::Ok)
}

/// The row of an item in the place of the one that is there, if that is another one.
fn set_row(
    alloc: Global,
    key: &Key,
    list: ListSight,
    index: u64,
    item: &Blob,
    row: &Option<Blob>,
) -> Result<BatchBuilder, NoMem>
    requires version { IsTrue (is_version list.version) }
    requires short { IsShort item.now }
    ensures { IfOk result (λ rows. rows ≡ set_row row.now (item_raw key.now list index) item.now) }
{
    let mut rows = BatchBuilder::new(alloc);
    if !is_same(row, item.bytes()) {
        put_item(alloc, &mut rows, key, list, index, item)?;
    }
    Ok(rows)
}

/// Is this the value that is there?
fn is_same(there: &Option<Blob>, value: &[u8]) -> bool
    ensures { result ≡ same_row there.now (Some value.now) }
{
    match there {
        None => false,
        Some(there) => there.bytes().cmp(value).is_eq(),
    }
}
