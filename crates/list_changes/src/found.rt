//! What is found of a list at a key, and of its items, one at a time.

ghost use Rattle.std.specs.Prelude.{◌≡◌, ◌<◌, IfOk, IfSome, IsTrue, option_map};
ghost use Rattle.kv_base.specs.Map.{get};
ghost use Rattle.kv_base.specs.RawKeys.{is_raw_text, is_version};
ghost use Rattle.kv_base.specs.RowRefs.{meta_seen};
ghost use Rattle.lives_model.specs.Views.{ReadsView};
ghost use Rattle.list_changes.specs.Found.{IsFoundList, item_at_end, found_at, found_in, item_found, item_of, item_raw};
ghost use Rattle.list_plans.specs.ListLives.{IsFoundWithin, items_found, list_found, list_on};
ghost use Rattle.list_plans.specs.ListRows.{end_index};
ghost use Rattle.plan_base.specs.Seen.{live_in};

use crate::places::place;
use kv_base::{Blob, Key, NoMem, StoreFault};
use list_plans::ListSight;
use lives_model::RawView;
use meta_codec::MetaRef;
use plan_base::{MetaKey, deadline_found, live_meta, read_text};
use redis_model::{End, ReplyError};
use std::alloc::Global;
use subkey_codec::index_key;

/// What is found of a list at a key.
#[derive(Clone, Copy, Debug)]
pub struct ListFound {
    /// The deadline of the key in milliseconds, of whatever type it is, if it has one.
    pub deadline: Option<u64>,
    /// The list, `None` where there is no key, and `WrongType` where the key has another type.
    pub list: Result<Option<ListSight>, ReplyError>,
}

/// What is found of a list at a key that has not expired at a moment. The metadata of the key alone is looked up.
///
/// The fault is one of the view, or want of memory. It leaves the view's rows as they are, as does an answer.
#[tactic(auto, using(lives_model::specs::ViewLaws::reading), unfolding(lives_model::specs::Clean::live_at))]
pub fn find_list<V: RawView>(
    alloc: Global,
    view: &mut V,
    moment: u64,
    key: &MetaKey,
) -> Result<ListFound, StoreFault>
    ensures found { IfOk result (λ found. IfSome (V.told view.old).rows (λ c. found ≡ found_at c moment key.now)) }
    ensures within { IfOk result (λ found. IsFoundList moment found) }
    ensures reads { ReadsView (V.told view.old) (V.told view.new) result }
{
    let text = read_text(alloc, view, key)?;
    Ok(found_by(&text, moment))
}

#[tactic(auto, using(crate::specs::FoundLaws::found_is_within))]
fn found_by(text: &Option<Blob>, moment: u64) -> ListFound
    ensures found { result ≡ found_in (live_in moment text.now) }
    ensures within { IsFoundList moment result }
{
    let found = live_meta(text, moment);
    ListFound {
        deadline: deadline_found(found),
        list: list_found(found),
    }
}

fn list_found(found: Option<MetaRef<'_>>) -> Result<Option<ListSight>, ReplyError>
    ensures { result ≡ list_found (option_map meta_seen found.entry) }
{
    match found {
        None => Ok(None),
        Some(
            MetaRef::List {
                expire: _,
                version,
                head,
                tail,
            },
        ) => Ok(Some(ListSight {
            version,
            head,
            tail,
        })),
        Some(_) => Err(ReplyError::WrongType),
    }
}

/// The number of items that was found.
pub fn items_found(list: Option<ListSight>) -> u64
    requires { IsFoundWithin list }
    ensures { result ≡ items_found list }
{
    match list {
        None => 0,
        Some(list) => list.tail - list.head,
    }
}

/// The list that was found, or a new one with this version, whose first item is to have the index 2^63.
pub fn list_on(version: u64, list: Option<ListSight>) -> ListSight
    ensures { result ≡ list_on version list }
{
    match list {
        None => ListSight {
            version,
            head: 1 << 63,
            tail: 1 << 63,
        },
        Some(list) => list,
    }
}

/// The index of the item at an end.
pub fn end_index(end: End, list: ListSight) -> u64
    requires { list.head < list.tail }
    ensures { result ≡ end_index end list }
{
    match end {
        End::Left => list.head,
        End::Right => list.tail - 1,
    }
}

/// The raw key of the item with an index.
#[tactic(auto, unfolding(lives_model::specs::Rows::row_key, kv_base::specs::RawKeys::raw_text))]
pub fn item_raw(alloc: Global, key: &Key, list: ListSight, index: u64) -> Result<Blob, NoMem>
    requires { IsTrue (is_version list.version) }
    ensures bytes { IfOk result (λ raw. raw ≡ item_raw key.now list index) }
    ensures raw_key { IfOk result (λ raw. IsTrue (is_raw_text raw)) }
{
    index_key(alloc, key, list.version, index)
}

/// The item with an index. One row is looked up.
///
/// The fault is one of the view, or want of memory. It leaves the view's rows as they are, as does an answer.
pub fn read_item<V: RawView>(
    alloc: Global,
    view: &mut V,
    key: &Key,
    list: ListSight,
    index: u64,
) -> Result<Option<Blob>, StoreFault>
    requires { IsTrue (is_version list.version) }
    ensures item { IfOk result (λ item. IfSome (V.told view.old).rows (λ c. item ≡ get c (item_raw key.now list index))) }
    ensures reads { ReadsView (V.told view.old) (V.told view.new) result }
{
    let raw = item_raw(alloc, key, list, index)?;
    let item = view.get(alloc, raw.bytes())?;
    Ok(item)
}

/// The item at a place of the list that was found; `None` also where the place is none. Then nothing is looked up.
///
/// The fault is one of the view, or want of memory. It leaves the view's rows as they are, as does an answer.
pub fn read_place<V: RawView>(
    alloc: Global,
    view: &mut V,
    key: &Key,
    found: ListFound,
    at: i64,
) -> Result<Option<Blob>, StoreFault>
    requires { IfOk found.list IsFoundWithin }
    ensures item { IfOk result (λ item. IfSome (V.told view.old).rows (λ c. item ≡ item_found (item_of c key.now at) found.list)) }
    ensures reads { ReadsView (V.told view.old) (V.told view.new) result }
{
    let Ok(Some(list)) = found.list else {
        return Ok(None);
    };
    let Some(place) = place(list.tail - list.head, at) else {
        return Ok(None);
    };
    read_item(alloc, view, key, list, list.head + place)
}

/// The item at an end of the list that was found; `None` where there is no list.
///
/// The fault is one of the view, or want of memory. It leaves the view's rows as they are, as does an answer.
pub fn read_end<V: RawView>(
    alloc: Global,
    view: &mut V,
    key: &Key,
    found: ListFound,
    end: End,
) -> Result<Option<Blob>, StoreFault>
    requires { IfOk found.list IsFoundWithin }
    ensures item { IfOk result (λ item. IfSome (V.told view.old).rows (λ c. item ≡ item_found (item_at_end c key.now end) found.list)) }
    ensures reads { ReadsView (V.told view.old) (V.told view.new) result }
{
    let Ok(Some(list)) = found.list else {
        return Ok(None);
    };
    read_item(alloc, view, key, list, end_index(end, list))
}
