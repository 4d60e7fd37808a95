//! LTRIM.

ghost use Rattle.std.specs.Prelude.{◌≡◌, ◌-◌, ◌≤◌, IfOk, IfSome, IsTrue};
ghost use Rattle.kv_base.specs.MetaValues.{is_deadline};
ghost use Rattle.lives_model.specs.Views.{ReadsView};
ghost use Rattle.list_changes.specs.Found.{IsFoundList, found_at};
ghost use Rattle.list_cmds.specs.Planned.{l_trim_plan, trimming_to};
ghost use Rattle.list_plans.specs.ListLives.{IsSightWithin};
ghost use Rattle.plan_base.specs.MetaRows.{expire_number};
ghost use Rattle.redis_model.specs.Value.{lives};

use batch_codec::BatchBuilder;
use kv_base::{Key, NoMem, StoreFault};
use list_changes::{ListFound, cut_items, find_list, gone_plan, list_plan};
use list_plans::ListSight;
use lives_model::{Plan, RawView};
use plan_base::{MetaKey, answering, end_at, start_at};
use redis_model::Reply;
use std::alloc::Global;

/// LTRIM. Metadata alone is looked up. One row is deleted for each item that goes, and none where all go: then the key's
/// metadata is deleted alone.
///
/// The fault is one of the view, or want of memory. It leaves the view's rows as they are, as does an answer.
pub(crate) fn l_trim<V: RawView>(
    alloc: Global,
    view: &mut V,
    moment: u64,
    key: &Key,
    first: i64,
    last: i64,
) -> Result<Plan, StoreFault>
    ensures plan { IfOk result (λ plan. IfSome (V.told view.old).rows (λ c. plan ≡ l_trim_plan moment (found_at c moment key.now) key.now first last)) }
    ensures reads { ReadsView (V.told view.old) (V.told view.new) result }
{
    let meta = MetaKey::new(alloc, key)?;
    let found = find_list(alloc, view, moment, &meta)?;
    let plan = l_trim_plan(alloc, moment, key, meta, found, first, last)?;
    Ok(plan)
}

/// The plan of LTRIM by what was found.
#[tactic(auto, unfolding(crate::specs::Planned::l_trim_plan))]
fn l_trim_plan(
    alloc: Global,
    moment: u64,
    key: &Key,
    meta: MetaKey,
    found: ListFound,
    first: i64,
    last: i64,
) -> Result<Plan, NoMem>
    requires meta { meta ≡ key.now }
    requires found { IsFoundList moment found }
    ensures { IfOk result (λ plan. plan ≡ l_trim_plan moment found key.now first last) }
{
    match found.list {
        Ok(Some(list)) => {
            let count = list.tail - list.head;
            let from = start_at(count, first);
            let end = end_at(count, last);
            trimming_to(alloc, moment, key, meta, found.deadline, list, from, end)
        }
        Ok(None) => Ok(answering(alloc, moment, found.deadline, Reply::Ok)),
        Err(error) => Ok(answering(alloc, moment, found.deadline, Reply::Error(error))),
    }
}

/// The plan after which the items from one place up to another stay: all of them, none, or some.
#[tactic(auto, unfolding(crate::specs::Planned::trimming_to, life_plans::specs::WantedRows::wanted))]
fn trimming_to(
    alloc: Global,
    moment: u64,
    key: &Key,
    meta: MetaKey,
    deadline: Option<u64>,
    list: ListSight,
    from: u64,
    end: u64,
) -> Result<Plan, NoMem>
    requires meta { meta ≡ key.now }
    requires lives { IsTrue (lives moment deadline) }
    requires deadline { IsTrue (is_deadline (expire_number deadline)) }
    requires list { IsSightWithin list }
    requires within { end ≤ list.tail - list.head }
    ensures { IfOk result (λ plan. plan ≡ trimming_to moment key.now deadline list from end) }
{
    if from == 0 && end == list.tail - list.head {
        return Ok(answering(alloc, moment, deadline, Reply::Ok));
    }
    if end <= from {
        return gone_plan(alloc, moment, meta, deadline, Reply::Ok);
    }
    let mut rows = BatchBuilder::new(alloc);
    cut_items(alloc, &mut rows, key, list, from, end)?;
    let left = ListSight {
        version: list.version,
        head: list.head + from,
        tail: list.head + end,
    };
    list_plan(alloc, moment, meta, deadline, left, rows, Reply::Ok)
}
