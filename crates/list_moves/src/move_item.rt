//! An item is moved from one list to another.

ghost use Rattle.std.specs.Prelude.{◌≡◌, IfOk, IfSome, IsTrue};
ghost use Rattle.kv_base.specs.Map.{same};
ghost use Rattle.kv_base.specs.RawKeys.{is_version};
ghost use Rattle.list_moves.specs.Places.{IsPlace, IsSoughtList};
ghost use Rattle.list_moves.specs.Planned.{leaving, move_plan, moving, moving_found, moving_item, turning};
ghost use Rattle.list_plans.specs.ListLives.{IsSightWithin};
ghost use Rattle.lives_model.specs.Views.{ReadsView};
ghost use Rattle.redis_model.specs.Limits.{IsShort};

use crate::place::{Place, Sought};
use crate::rows::{bring, item_taken, turned_rows};
use batch_codec::Batch;
use kv_base::{Blob, Key, NoMem, StoreFault};
use list_changes::{
    find_list, is_too_long, list_on, list_plan, read_end, sight_popped, sight_pushed,
};
use lives_model::{Plan, RawView};
use plan_base::{MetaKey, until_of};
use redis_model::{End, Reply, ReplyError};
use std::alloc::Global;

/// The most bytes that an item has.
const MAX_ITEM: usize = 1048576;

/// The plan that moves the item at an end of the list at the source to an end of the list at the target. A list that
/// begins there gets the version `fresh`.
///
/// The metadata of both keys and one row are looked up, whatever the lengths of the lists.
///
/// The fault is one of the view, or want of memory. It leaves the view's rows as they are, as does an answer.
#[tactic(auto, using(lives_model::specs::ViewLaws::reading), unfolding(crate::specs::Planned::move_plan))]
pub(crate) fn move_item<V: RawView>(
    alloc: Global,
    view: &mut V,
    moment: u64,
    fresh: u64,
    source: &Key,
    target: &Key,
    from: End,
    to: End,
) -> Result<Plan, StoreFault>
    requires fresh { IsTrue (is_version fresh) }
    ensures plan { IfOk result (λ plan. IfSome (V.told view.old).rows (λ c. plan ≡ move_plan c moment fresh source.now target.now from to)) }
    ensures reads { ReadsView (V.told view.old) (V.told view.new) result }
{
    let source_key = MetaKey::new(alloc, source)?;
    let target_key = MetaKey::new(alloc, target)?;
    let source_list = find_list(alloc, view, moment, &source_key)?;
    let target_list = find_list(alloc, view, moment, &target_key)?;
    let item = read_end(alloc, view, source, source_list, from)?;
    let leaves = Sought {
        key: source_key,
        found: source_list,
        end: from,
    };
    let comes = Sought {
        key: target_key,
        found: target_list,
        end: to,
    };
    let plan = moving_found(alloc, moment, fresh, source, target, leaves, comes, item)?;
    Ok(plan)
}

/// The plan by what was found at both keys, and the item at the end of the source.
#[tactic(auto, using(list_changes::specs::EndLaws::on_within, list_changes::specs::EndLaws::sight_is_on))]
fn moving_found(
    alloc: Global,
    moment: u64,
    fresh: u64,
    source: &Key,
    target: &Key,
    leaves: Sought,
    comes: Sought,
    item: Option<Blob>,
) -> Result<Plan, NoMem>
    requires fresh { IsTrue (is_version fresh) }
    requires source { IsSoughtList moment source.now leaves }
    requires target { IsSoughtList moment target.now comes }
    ensures { IfOk result (λ plan. plan ≡ moving_found moment fresh source.now target.now leaves.end comes.end leaves.found comes.found item) }
{
    let old = leaves.found.deadline;
    let other = comes.found.deadline;
    let list = match leaves.found.list {
        Ok(Some(list)) => list,
        Ok(None) => return Ok(leaving(alloc, moment, old, other, Reply::Null)),
        Err(error) => return Ok(leaving(alloc, moment, old, other, Reply::Error(error))),
    };
    let there = match comes.found.list {
        Ok(there) => there,
        Err(error) => return Ok(leaving(alloc, moment, old, other, Reply::Error(error))),
    };
    let leaves = Place {
        key: leaves.key,
        deadline: old,
        list,
        end: leaves.end,
    };
    let comes = Place {
        key: comes.key,
        deadline: other,
        list: list_on(fresh, there),
        end: comes.end,
    };
    moving_item(alloc, moment, source, target, leaves, comes, item)
}

/// The plan by both lists and the item. No batch puts an item that has more bytes than a value may have: it counts as want
/// of memory.
fn moving_item(
    alloc: Global,
    moment: u64,
    source: &Key,
    target: &Key,
    leaves: Place,
    comes: Place,
    item: Option<Blob>,
) -> Result<Plan, NoMem>
    requires source { IsPlace moment source.now leaves }
    requires target { IsPlace moment target.now comes }
    requires list { IsSightWithin leaves.list }
    ensures { IfOk result (λ plan. plan ≡ moving_item moment source.now target.now leaves.deadline comes.deadline leaves.end comes.end leaves.list comes.list item) }
{
    let Some(item) = item else {
        return Ok(leaving(alloc, moment, leaves.deadline, comes.deadline, Reply::Null));
    };
    if item.bytes().len() > MAX_ITEM {
        return Err(NoMem);
    }
    if is_one(source, target) {
        turning(alloc, moment, source, leaves, comes.end, item)
    } else {
        moving(alloc, moment, source, target, leaves, comes, item)
    }
}

/// Are both keys one?
fn is_one(source: &Key, target: &Key) -> bool
    ensures { result ≡ same source.now target.now }
{
    source.bytes().cmp(target.bytes()).is_eq()
}

/// The plan that takes an item from an end of a list and puts it at an end of the same list.
#[tactic(auto, using(crate::specs::MoveEndLaws::popped_on, list_changes::specs::EndLaws::pushed_within, list_changes::specs::EndLaws::long_room))]
fn turning(
    alloc: Global,
    moment: u64,
    key: &Key,
    place: Place,
    to: End,
    item: Blob,
) -> Result<Plan, NoMem>
    requires place { IsPlace moment key.now place }
    requires list { IsSightWithin place.list }
    requires short { IsShort item }
    ensures { IfOk result (λ plan. plan ≡ turning moment key.now place.deadline place.end to place.list item) }
{
    let Place {
        key: raw,
        deadline,
        list,
        end: from,
    } = place;
    let rest = sight_popped(from, list);
    if is_too_long(to, rest, 1) {
        let too_large = Reply::Error(ReplyError::TooLarge);
        return Ok(leaving(alloc, moment, deadline, deadline, too_large));
    }
    let rows = turned_rows(alloc, key, from, to, list, &item)?;
    let turned = sight_pushed(to, rest, 1);
    list_plan(
        alloc,
        moment,
        raw,
        deadline,
        turned,
        rows,
        Reply::Bulk(item),
    )
}

/// The plan that takes an item from an end of a list and brings it to an end of another one.
#[tactic(auto, using(list_changes::specs::EndLaws::pushed_within, list_changes::specs::EndLaws::long_room))]
fn moving(
    alloc: Global,
    moment: u64,
    source: &Key,
    target: &Key,
    leaves: Place,
    comes: Place,
    item: Blob,
) -> Result<Plan, NoMem>
    requires source { IsPlace moment source.now leaves }
    requires target { IsPlace moment target.now comes }
    requires list { IsSightWithin leaves.list }
    requires short { IsShort item }
    ensures { IfOk result (λ plan. plan ≡ moving moment source.now target.now leaves.deadline comes.deadline leaves.end comes.end leaves.list comes.list item) }
{
    if is_too_long(comes.end, comes.list, 1) {
        let too_large = Reply::Error(ReplyError::TooLarge);
        return Ok(leaving(alloc, moment, leaves.deadline, comes.deadline, too_large));
    }
    let until = until_of(moment, leaves.deadline, comes.deadline);
    let mut batch = item_taken(alloc, moment, source, leaves)?;
    bring(alloc, &mut batch, moment, target, comes, &item)?;
    let batch = batch.build()?;
    Ok(Plan {
        reply: Reply::Bulk(item),
        batch,
        until,
    })
}

/// The plan that answers and writes nothing, of a command whose two keys have these deadlines.
fn leaving(alloc: Global, moment: u64, old: Option<u64>, other: Option<u64>, reply: Reply) -> Plan
    ensures { result ≡ leaving moment old other reply }
{
    Plan {
        reply,
        batch: Batch::new(alloc),
        until: until_of(moment, old, other),
    }
}
