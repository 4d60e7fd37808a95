//! Rows of items in a batch that is being filled.

ghost use Rattle.std.specs.Prelude.{◌≡◌, ◌≤◌, ◌<◌, ◌+◌, ◌-◌, ◌^◌, ◌∷◌, ◌++◌, [], All, fold, length, IsTrue, OnOk, Some, None};
ghost use Rattle.kv_base.specs.Fields.{u64 as number};
ghost use Rattle.kv_base.specs.Map.{insert};
ghost use Rattle.kv_base.specs.RawKeys.{is_version};
ghost use Rattle.life_plans.specs.WantedRows.{with_wish};
ghost use Rattle.list_changes.specs.Found.{item_raw};
ghost use Rattle.list_plans.specs.ListRows.{cuts_before, cuts_from, end_has_room, puts_before, puts_from, pushes, trims};
ghost use Rattle.redis_model.specs.Limits.{IsShort};

use crate::found::item_raw;
use batch_codec::BatchBuilder;
use kv_base::{Blob, Key, NoMem};
use list_plans::ListSight;
use redis_model::End;
use std::alloc::Global;

/// Puts a copy of an item under an index.
#[tactic(auto, using(crate::specs::ItemLaws::item_is_value))]
pub fn put_item(
    alloc: Global,
    batch: &mut BatchBuilder,
    key: &Key,
    list: ListSight,
    index: u64,
    item: &Blob,
) -> Result<(), NoMem>
    requires version { IsTrue (is_version list.version) }
    requires short { IsShort item.now }
    ensures { OnOk result (batch.new ≡ insert batch.old (item_raw key.now list index) (Some item.now)) }
{
    let raw = item_raw(alloc, key, list, index)?;
    let item = item.try_copy(alloc)?;
    batch.put(raw, item)
}

/// Takes an item away.
pub fn cut_item(
    alloc: Global,
    batch: &mut BatchBuilder,
    key: &Key,
    list: ListSight,
    index: u64,
) -> Result<(), NoMem>
    requires { IsTrue (is_version list.version) }
    ensures { OnOk result (batch.new ≡ insert batch.old (item_raw key.now list index) None) }
{
    let raw = item_raw(alloc, key, list, index)?;
    batch.delete(raw)
}

/// Puts items before the head of a list, one after the other. Each is copied once.
fn put_before(
    alloc: Global,
    batch: &mut BatchBuilder,
    key: &Key,
    list: ListSight,
    items: &[Blob],
) -> Result<(), NoMem>
    requires version { IsTrue (is_version list.version) }
    requires room { length items.now ≤ list.head }
    requires short { All IsShort items.now }
    ensures { OnOk result (batch.new ≡ fold (with_wish key.now list.version) batch.old (puts_before list.head items.now)) }
{
    for (at, item) in items.iter().enumerate() {
        let index = list.head - 1 - at as u64;
        put_item(alloc, batch, key, list, index, item)?;
    }
    Ok(())
}

/// Puts items from the tail of a list on. Each is copied once.
fn put_behind(
    alloc: Global,
    batch: &mut BatchBuilder,
    key: &Key,
    list: ListSight,
    items: &[Blob],
) -> Result<(), NoMem>
    requires version { IsTrue (is_version list.version) }
    requires room { list.tail + length items.now < 2 ^ 64 }
    requires short { All IsShort items.now }
    ensures { OnOk result (batch.new ≡ fold (with_wish key.now list.version) batch.old (puts_from list.tail items.now)) }
{
    for (at, item) in items.iter().enumerate() {
        let index = list.tail + at as u64;
        put_item(alloc, batch, key, list, index, item)?;
    }
    Ok(())
}

/// Pushes items at an end of a list.
#[tactic(auto, using(crate::specs::ItemLaws::room_before, crate::specs::ItemLaws::room_behind))]
pub fn put_items(
    alloc: Global,
    batch: &mut BatchBuilder,
    key: &Key,
    list: ListSight,
    end: End,
    items: &[Blob],
) -> Result<(), NoMem>
    requires version { IsTrue (is_version list.version) }
    requires room { IsTrue (end_has_room end list (length items.now)) }
    requires short { All IsShort items.now }
    ensures { OnOk result (batch.new ≡ fold (with_wish key.now list.version) batch.old (pushes end list items.now)) }
{
    match end {
        End::Left => put_before(alloc, batch, key, list, items),
        End::Right => put_behind(alloc, batch, key, list, items),
    }
}

/// Takes away so many items of a list from its head on.
fn cut_from(
    alloc: Global,
    batch: &mut BatchBuilder,
    key: &Key,
    list: ListSight,
    count: u64,
) -> Result<(), NoMem>
    requires version { IsTrue (is_version list.version) }
    requires within { list.head + count < 2 ^ 64 }
    ensures { OnOk result (batch.new ≡ fold (with_wish key.now list.version) batch.old (cuts_from list.head count)) }
{
    for at in 0..count {
        cut_item(alloc, batch, key, list, list.head + at)?;
    }
    Ok(())
}

/// Takes away so many items of a list before its tail.
fn cut_before(
    alloc: Global,
    batch: &mut BatchBuilder,
    key: &Key,
    list: ListSight,
    count: u64,
) -> Result<(), NoMem>
    requires version { IsTrue (is_version list.version) }
    requires within { count ≤ list.tail }
    ensures { OnOk result (batch.new ≡ fold (with_wish key.now list.version) batch.old (cuts_before list.tail count)) }
{
    for at in 0..count {
        cut_item(alloc, batch, key, list, list.tail - 1 - at)?;
    }
    Ok(())
}

/// Takes away all items of a list but those from one place up to another.
#[tactic(auto, using(crate::specs::ItemLaws::trims_fold))]
pub fn cut_items(
    alloc: Global,
    batch: &mut BatchBuilder,
    key: &Key,
    list: ListSight,
    from: u64,
    end: u64,
) -> Result<(), NoMem>
    requires version { IsTrue (is_version list.version) }
    requires within { (from ≤ end) }
    requires ends { list.head + end ≤ list.tail }
    ensures { OnOk result (batch.new ≡ fold (with_wish key.now list.version) batch.old (trims list from end)) }
{
    cut_from(alloc, batch, key, list, from)?;
    let behind = list.tail - list.head - end;
    cut_before(alloc, batch, key, list, behind)
}
