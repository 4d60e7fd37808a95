//! LPUSH, RPUSH, LPUSHX and RPUSHX.

ghost use Rattle.std.specs.Prelude.{◌≡◌, ◌<◌, All, IfOk, IfSome, IsTrue, length};
ghost use Rattle.kv_base.specs.MetaValues.{is_deadline};
ghost use Rattle.kv_base.specs.RawKeys.{is_version};
ghost use Rattle.lives_model.specs.Views.{ReadsView};
ghost use Rattle.list_changes.specs.Ends.{IsSightOn};
ghost use Rattle.list_changes.specs.Found.{IsFoundList, found_at};
ghost use Rattle.list_cmds.specs.Planned.{push_plan, push_x_plan, pushing, pushing_x};
ghost use Rattle.plan_base.specs.MetaRows.{expire_number};
ghost use Rattle.redis_model.specs.Limits.{IsShort};
ghost use Rattle.redis_model.specs.Value.{lives};

use batch_codec::BatchBuilder;
use kv_base::{Blob, Key, NoMem, StoreFault};
use list_changes::{
    ListFound, find_list, is_too_long, list_on, list_plan, put_items, sight_pushed,
};
use list_plans::ListSight;
use lives_model::{Plan, RawView};
use plan_base::{MetaKey, answering};
use redis_model::{End, Reply, ReplyError};
use std::alloc::Global;

/// LPUSH and RPUSH. Metadata alone is looked up, whatever the list's size. Each item is copied once.
///
/// The fault is one of the view, or want of memory. It leaves the view's rows as they are, as does an answer.
#[tactic(auto, using(lives_model::specs::ViewLaws::reading), unfolding(crate::specs::Planned::push_plan))]
pub(crate) fn push<V: RawView>(
    alloc: Global,
    view: &mut V,
    moment: u64,
    version: u64,
    key: &Key,
    end: End,
    items: &[Blob],
) -> Result<Plan, StoreFault>
    requires version { IsTrue (is_version version) }
    requires some { 0 < length items.now }
    requires short { All IsShort items.now }
    ensures plan { IfOk result (λ plan. IfSome (V.told view.old).rows (λ c. plan ≡ push_plan moment version (found_at c moment key.now) key.now end items.now)) }
    ensures reads { ReadsView (V.told view.old) (V.told view.new) result }
{
    let meta = MetaKey::new(alloc, key)?;
    let found = find_list(alloc, view, moment, &meta)?;
    let plan = push_plan(alloc, moment, version, key, meta, found, end, items)?;
    Ok(plan)
}

/// The plan of a push by what was found. Without a key there is a new list.
#[tactic(auto, using(list_changes::specs::EndLaws::on_within), unfolding(crate::specs::Planned::push_plan))]
fn push_plan(
    alloc: Global,
    moment: u64,
    version: u64,
    key: &Key,
    meta: MetaKey,
    found: ListFound,
    end: End,
    items: &[Blob],
) -> Result<Plan, NoMem>
    requires version { IsTrue (is_version version) }
    requires meta { meta ≡ key.now }
    requires found { IsFoundList moment found }
    requires some { 0 < length items.now }
    requires short { All IsShort items.now }
    ensures { IfOk result (λ plan. plan ≡ push_plan moment version found key.now end items.now) }
{
    match found.list {
        Ok(list) => {
            let list = list_on(version, list);
            pushing(alloc, moment, key, meta, found.deadline, list, end, items)
        }
        Err(error) => Ok(answering(alloc, moment, found.deadline, Reply::Error(error))),
    }
}

/// LPUSHX and RPUSHX: as LPUSH and RPUSH, but only where the key is there.
///
/// The fault is one of the view, or want of memory. It leaves the view's rows as they are, as does an answer.
#[tactic(auto, using(lives_model::specs::ViewLaws::reading), unfolding(crate::specs::Planned::push_x_plan))]
pub(crate) fn push_x<V: RawView>(
    alloc: Global,
    view: &mut V,
    moment: u64,
    key: &Key,
    end: End,
    items: &[Blob],
) -> Result<Plan, StoreFault>
    requires some { 0 < length items.now }
    requires short { All IsShort items.now }
    ensures plan { IfOk result (λ plan. IfSome (V.told view.old).rows (λ c. plan ≡ push_x_plan moment (found_at c moment key.now) key.now end items.now)) }
    ensures reads { ReadsView (V.told view.old) (V.told view.new) result }
{
    let meta = MetaKey::new(alloc, key)?;
    let found = find_list(alloc, view, moment, &meta)?;
    let plan = push_x_plan(alloc, moment, key, meta, found, end, items)?;
    Ok(plan)
}

/// The plan of a push by what was found. Without a key nothing is written.
#[tactic(auto, using(list_changes::specs::EndLaws::sight_is_on), unfolding(crate::specs::Planned::push_x_plan))]
fn push_x_plan(
    alloc: Global,
    moment: u64,
    key: &Key,
    meta: MetaKey,
    found: ListFound,
    end: End,
    items: &[Blob],
) -> Result<Plan, NoMem>
    requires meta { meta ≡ key.now }
    requires found { IsFoundList moment found }
    requires some { 0 < length items.now }
    requires short { All IsShort items.now }
    ensures { IfOk result (λ plan. plan ≡ push_x_plan moment found key.now end items.now) }
{
    match found.list {
        Ok(Some(list)) => pushing(alloc, moment, key, meta, found.deadline, list, end, items),
        Ok(None) => Ok(answering(alloc, moment, found.deadline, Reply::Int(0))),
        Err(error) => Ok(answering(alloc, moment, found.deadline, Reply::Error(error))),
    }
}

/// The plan of a push to a list that goes on, or to a new one. Too many items are an error.
#[tactic(auto, using(list_changes::specs::EndLaws::long_room, list_changes::specs::EndLaws::pushed_within), unfolding(crate::specs::Planned::pushing, life_plans::specs::WantedRows::wanted))]
fn pushing(
    alloc: Global,
    moment: u64,
    key: &Key,
    meta: MetaKey,
    deadline: Option<u64>,
    list: ListSight,
    end: End,
    items: &[Blob],
) -> Result<Plan, NoMem>
    requires meta { meta ≡ key.now }
    requires lives { IsTrue (lives moment deadline) }
    requires deadline { IsTrue (is_deadline (expire_number deadline)) }
    requires list { IsSightOn list }
    requires some { 0 < length items.now }
    requires short { All IsShort items.now }
    ensures { IfOk result (λ plan. plan ≡ pushing moment key.now deadline end items.now list) }
{
    let count = items.len() as u64;
    if is_too_long(end, list, count) {
        let too_large = Reply::Error(ReplyError::TooLarge);
        return Ok(answering(alloc, moment, deadline, too_large));
    }
    let mut rows = BatchBuilder::new(alloc);
    put_items(alloc, &mut rows, key, list, end, items)?;
    let size = list.tail - list.head + count;
    let left = sight_pushed(end, list, count);
    list_plan(
        alloc,
        moment,
        meta,
        deadline,
        left,
        rows,
        Reply::Int(size as i64),
    )
}
