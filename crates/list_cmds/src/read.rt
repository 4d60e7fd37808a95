//! LLEN, LINDEX and LRANGE.

ghost use Rattle.std.specs.Prelude.{◌≡◌, ◌++◌, IfOk, IfSome, length, map, reverse};
ghost use Rattle.redis_model.specs.Outcome.{bulks};
ghost use Rattle.lives_model.specs.LiveRowLists.{pairs};
ghost use Rattle.lives_model.specs.Views.{ReadsView};
ghost use Rattle.list_plans.specs.ListLives.{IsFoundWithin};
ghost use Rattle.list_changes.specs.Found.{IsFoundList, found_at, item_found, item_of};
ghost use Rattle.list_cmds.specs.Planned.{l_index_plan, l_len_plan, l_range_plan, items_in_range};

use kv_base::{Blob, Key, NoMem, StoreFault};
use life_pages::read_range;
use list_changes::{ListFound, find_list, items_found, read_place};
use list_plans::ListSight;
use lives_model::{LiveRow, LiveRows, Plan, RawView};
use plan_base::{MetaKey, answering, bulk_or_null, end_at, start_at};
use redis_model::{Replies, Reply};
use std::alloc::Global;

/// LLEN. Metadata alone is looked up.
///
/// The fault is one of the view, or want of memory. It leaves the view's rows as they are, as does an answer.
pub(crate) fn l_len<V: RawView>(
    alloc: Global,
    view: &mut V,
    moment: u64,
    key: &Key,
) -> Result<Plan, StoreFault>
    ensures plan { IfOk result (λ plan. IfSome (V.told view.old).rows (λ c. plan ≡ l_len_plan moment (found_at c moment key.now))) }
    ensures reads { ReadsView (V.told view.old) (V.told view.new) result }
{
    let meta = MetaKey::new(alloc, key)?;
    let found = find_list(alloc, view, moment, &meta)?;
    Ok(l_len_plan(alloc, moment, found))
}

#[tactic(auto, unfolding(crate::specs::Planned::l_len_plan))]
fn l_len_plan(alloc: Global, moment: u64, found: ListFound) -> Plan
    requires { IfOk found.list IsFoundWithin }
    ensures { result ≡ l_len_plan moment found }
{
    let reply = match found.list {
        Ok(list) => Reply::Int(items_found(list) as i64),
        Err(error) => Reply::Error(error),
    };
    answering(alloc, moment, found.deadline, reply)
}

/// LINDEX. Beside metadata one row is looked up, and none where the place is that of no item.
///
/// The fault is one of the view, or want of memory. It leaves the view's rows as they are, as does an answer.
pub(crate) fn l_index<V: RawView>(
    alloc: Global,
    view: &mut V,
    moment: u64,
    key: &Key,
    at: i64,
) -> Result<Plan, StoreFault>
    ensures plan { IfOk result (λ plan. IfSome (V.told view.old).rows
        (λ c. plan ≡ l_index_plan moment (found_at c moment key.now) (item_found (item_of c key.now at) (found_at c moment key.now).list))) }
    ensures reads { ReadsView (V.told view.old) (V.told view.new) result }
{
    let meta = MetaKey::new(alloc, key)?;
    let found = find_list(alloc, view, moment, &meta)?;
    let item = read_place(alloc, view, key, found, at)?;
    Ok(l_index_plan(alloc, moment, found, item))
}

#[tactic(auto, unfolding(crate::specs::Planned::l_index_plan))]
fn l_index_plan(alloc: Global, moment: u64, found: ListFound, item: Option<Blob>) -> Plan
    ensures { result ≡ l_index_plan moment found item }
{
    let reply = match found.list {
        Ok(_) => bulk_or_null(item),
        Err(error) => Reply::Error(error),
    };
    answering(alloc, moment, found.deadline, reply)
}

/// LRANGE. Beside metadata one page of rows is asked for, with just the items that are answered, and none where there are
/// no such items. Items are moved into the answer.
///
/// The fault is one of the view, or want of memory. It leaves the view's rows as they are, as does an answer.
#[tactic(auto, using(lives_model::specs::ViewLaws::reading), unfolding(crate::specs::Planned::l_range_plan))]
pub(crate) fn l_range<V: RawView>(
    alloc: Global,
    view: &mut V,
    moment: u64,
    key: &Key,
    first: i64,
    last: i64,
) -> Result<Plan, StoreFault>
    ensures plan { IfOk result (λ plan. IfSome (V.told view.old).rows (λ c. plan ≡ l_range_plan c moment (found_at c moment key.now) key.now first last)) }
    ensures reads { ReadsView (V.told view.old) (V.told view.new) result }
{
    let meta = MetaKey::new(alloc, key)?;
    let found = find_list(alloc, view, moment, &meta)?;
    let reply = match found.list {
        Ok(list) => range_reply(alloc, view, key, list, first, last)?,
        Err(error) => Reply::Error(error),
    };
    Ok(answering(alloc, moment, found.deadline, reply))
}

fn range_reply<V: RawView>(
    alloc: Global,
    view: &mut V,
    key: &Key,
    list: Option<ListSight>,
    first: i64,
    last: i64,
) -> Result<Reply, StoreFault>
    requires { IsFoundWithin list }
    ensures reply { IfOk result (λ reply. IfSome (V.told view.old).rows (λ c. reply ≡ bulks (items_in_range c key.now first last list))) }
    ensures reads { ReadsView (V.told view.old) (V.told view.new) result }
{
    let Some(list) = list else {
        return Ok(Reply::Array(Replies::new(alloc)));
    };
    let count = list.tail - list.head;
    let from = start_at(count, first);
    let end = end_at(count, last);
    if end <= from {
        return Ok(Reply::Array(Replies::new(alloc)));
    }
    let wanted = (end - from) as usize;
    let rows = read_range(alloc, view, key, list.version, list.head + from, wanted)?;
    let reply = bulks_of(alloc, rows)?;
    Ok(reply)
}

/// The values of rows. They are taken from the last one on, and the answer is turned round.
fn bulks_of(alloc: Global, mut rows: LiveRows) -> Result<Reply, NoMem>
    ensures { IfOk result (λ reply. reply ≡ bulks (map (λ row. row.1) (pairs rows))) }
{
    let mut parts = Vec::new(alloc);
    while let Some(row) = rows.pop() {
        let LiveRow { value, .. } = row;
        parts.push(Reply::Bulk(value))?;
    }
    parts.reverse();
    Ok(Reply::Array(Replies::from_vec(parts)))
}
