//! LPOP and RPOP.

ghost use Rattle.std.specs.Prelude.{◌≡◌, IfOk, IfSome};
ghost use Rattle.lives_model.specs.Views.{ReadsView};
ghost use Rattle.list_changes.specs.Found.{IsFoundList, item_at_end, found_at, item_found};
ghost use Rattle.list_cmds.specs.Planned.{pop_plan};

use batch_codec::BatchBuilder;
use kv_base::{Blob, Key, NoMem, StoreFault};
use list_changes::{
    ListFound, cut_item, end_index, find_list, gone_plan, list_plan, read_end, sight_popped,
};
use lives_model::{Plan, RawView};
use plan_base::{MetaKey, answering, bulk_or_null};
use redis_model::{End, Reply};
use std::alloc::Global;

/// LPOP and RPOP. Beside metadata one row is looked up, and none where there is no list. The item is moved into the answer,
/// and the key goes with the last one.
///
/// The fault is one of the view, or want of memory. It leaves the view's rows as they are, as does an answer.
pub(crate) fn pop<V: RawView>(
    alloc: Global,
    view: &mut V,
    moment: u64,
    key: &Key,
    end: End,
) -> Result<Plan, StoreFault>
    ensures plan { IfOk result (λ plan. IfSome (V.told view.old).rows
        (λ c. plan ≡ pop_plan moment (found_at c moment key.now) key.now end (item_found (item_at_end c key.now end) (found_at c moment key.now).list))) }
    ensures reads { ReadsView (V.told view.old) (V.told view.new) result }
{
    let meta = MetaKey::new(alloc, key)?;
    let found = find_list(alloc, view, moment, &meta)?;
    let item = read_end(alloc, view, key, found, end)?;
    let plan = pop_plan(alloc, moment, key, meta, found, end, item)?;
    Ok(plan)
}

/// The plan of a pop by what was found, and by the item that was looked up.
#[tactic(auto, using(list_changes::specs::EndLaws::popped_within), unfolding(crate::specs::Planned::pop_plan))]
fn pop_plan(
    alloc: Global,
    moment: u64,
    key: &Key,
    meta: MetaKey,
    found: ListFound,
    end: End,
    item: Option<Blob>,
) -> Result<Plan, NoMem>
    requires meta { meta ≡ key.now }
    requires found { IsFoundList moment found }
    ensures { IfOk result (λ plan. plan ≡ pop_plan moment found key.now end item) }
{
    let list = match found.list {
        Ok(Some(list)) => list,
        Ok(None) => return Ok(answering(alloc, moment, found.deadline, Reply::Null)),
        Err(error) => return Ok(answering(alloc, moment, found.deadline, Reply::Error(error))),
    };
    let reply = bulk_or_null(item);
    if list.tail - list.head == 1 {
        return gone_plan(alloc, moment, meta, found.deadline, reply);
    }
    let mut rows = BatchBuilder::new(alloc);
    cut_item(alloc, &mut rows, key, list, end_index(end, list))?;
    let left = sight_popped(end, list);
    list_plan(alloc, moment, meta, found.deadline, left, rows, reply)
}
