//! Rows of a move, in a batch that is being filled.

ghost use Rattle.std.specs.Prelude.{◌≡◌, IfOk, IsTrue, OnOk};
ghost use Rattle.kv_base.specs.MetaValues.{is_deadline};
ghost use Rattle.list_changes.specs.Ends as ends;
ghost use Rattle.list_moves.specs.Places.{IsPlace};
ghost use Rattle.list_moves.specs.Planned.{brought, next_index, item_taken, turned_rows};
ghost use Rattle.list_plans.specs.ListLives.{IsSightWithin};
ghost use Rattle.list_plans.specs.ListPlans.{list_batch};
ghost use Rattle.list_plans.specs.ListRows.{end_has_room};
ghost use Rattle.plan_base.specs.MetaRows.{expire_number};
ghost use Rattle.redis_model.specs.Limits.{IsShort};
ghost use Rattle.redis_model.specs.Value.{lives};

use crate::place::Place;
use batch_codec::BatchBuilder;
use kv_base::{Blob, Key, NoMem};
use list_changes::{cut_item, end_index, put_item, sight_popped, sight_pushed};
use list_plans::ListSight;
use meta_codec::MetaRef;
use plan_base::{MetaKey, delete_key, expire_number, put_meta};
use redis_model::End;
use std::alloc::Global;

/// Puts the metadata of a list at its key, whose deadline stays.
#[tactic(auto, using(list_changes::specs::ItemLaws::sight_fits))]
fn put_list(
    alloc: Global,
    batch: &mut BatchBuilder,
    moment: u64,
    key: MetaKey,
    deadline: Option<u64>,
    list: ListSight,
) -> Result<(), NoMem>
    requires lives { IsTrue (lives moment deadline) }
    requires deadline { IsTrue (is_deadline (expire_number deadline)) }
    requires list { IsSightWithin list }
    ensures { OnOk result (batch.new ≡ list_batch key deadline list batch.old) }
{
    let meta = MetaRef::List {
        expire: expire_number(deadline),
        version: list.version,
        head: list.head,
        tail: list.tail,
    };
    put_meta(alloc, batch, key, moment, deadline, meta)
}

/// A batch that takes the item at an end away from its list, and the key with the last one.
#[tactic(auto, using(list_changes::specs::EndLaws::popped_within))]
pub(crate) fn item_taken(
    alloc: Global,
    moment: u64,
    key: &Key,
    place: Place,
) -> Result<BatchBuilder, NoMem>
    requires place { IsPlace moment key.now place }
    requires list { IsSightWithin place.list }
    ensures { IfOk result (λ batch. batch ≡ item_taken key.now place.deadline place.end place.list) }
{
    let Place {
        key: raw,
        deadline,
        list,
        end,
    } = place;
    let mut batch = BatchBuilder::new(alloc);
    if list.tail - list.head == 1 {
        delete_key(&mut batch, raw)?;
        return Ok(batch);
    }
    cut_item(alloc, &mut batch, key, list, end_index(end, list))?;
    put_list(
        alloc,
        &mut batch,
        moment,
        raw,
        deadline,
        sight_popped(end, list),
    )?;
    Ok(batch)
}

/// The index of one more item at an end.
#[tactic(auto, using(list_changes::specs::ItemLaws::room_before))]
fn next_index(end: End, list: ListSight) -> u64
    requires { IsTrue (end_has_room end list 1) }
    ensures { result ≡ next_index end list }
{
    match end {
        End::Left => list.head - 1,
        End::Right => list.tail,
    }
}

/// Brings an item to an end of a list. It is copied once.
pub(crate) fn bring(
    alloc: Global,
    batch: &mut BatchBuilder,
    moment: u64,
    key: &Key,
    place: Place,
    item: &Blob,
) -> Result<(), NoMem>
    requires place { IsPlace moment key.now place }
    requires room { IsTrue (end_has_room place.end place.list 1) }
    requires within { IsSightWithin (ends.sight_pushed place.end 1 place.list) }
    requires short { IsShort item.now }
    ensures { OnOk result (batch.new ≡ brought key.now place.deadline place.end place.list item.now batch.old) }
{
    let Place {
        key: raw,
        deadline,
        list,
        end,
    } = place;
    put_item(alloc, batch, key, list, next_index(end, list), item)?;
    put_list(
        alloc,
        batch,
        moment,
        raw,
        deadline,
        sight_pushed(end, list, 1),
    )
}

/// A batch that puts the item at one end of a list back at an end. At the same end its row stays.
#[tactic(auto, using(list_changes::specs::ItemLaws::room_before))]
pub(crate) fn turned_rows(
    alloc: Global,
    key: &Key,
    from: End,
    to: End,
    list: ListSight,
    item: &Blob,
) -> Result<BatchBuilder, NoMem>
    requires list { IsSightWithin list }
    requires room { IsTrue (end_has_room to (ends.sight_popped from list) 1) }
    requires short { IsShort item.now }
    ensures { IfOk result (λ rows. rows ≡ turned_rows key.now from to list item.now) }
{
    let mut rows = BatchBuilder::new(alloc);
    match (from, to) {
        (End::Left, End::Right) => {
            put_item(alloc, &mut rows, key, list, list.tail, item)?;
            cut_item(alloc, &mut rows, key, list, list.head)?;
        }
        (End::Right, End::Left) => {
            cut_item(alloc, &mut rows, key, list, list.tail - 1)?;
            put_item(alloc, &mut rows, key, list, list.head - 1, item)?;
        }
        (End::Left, End::Left) | (End::Right, End::Right) => {}
    }
    Ok(rows)
}
