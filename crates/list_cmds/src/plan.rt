//! Which function plans which command.

ghost use Rattle.std.specs.Prelude.{IfOk, IfSome, IsTrue};
ghost use Rattle.kv_base.specs.RawKeys.{is_version};
ghost use Rattle.redis_model.specs.Limits.{IsWithin};
ghost use Rattle.lives_model.specs.Plans.{IsPlan};
ghost use Rattle.lives_model.specs.Views.{ReadsView};
ghost use Rattle.redis_model.specs.Families.{changes_lists, is_list_command, reads_lists};

use crate::pop::pop;
use crate::push::{push, push_x};
use crate::read::{l_index, l_len, l_range};
use crate::set::l_set;
use crate::trim::l_trim;
use kv_base::StoreFault;
use list_moves::plan_move;
use lives_model::{Plan, RawView};
use redis_model::{Command, End};
use std::alloc::Global;

/// The plan of a command on lists, at a moment in milliseconds. A list that it starts has this version.
///
/// The metadata of each key is read once. LRANGE asks for one page of rows, LTRIM deletes a row for each item that goes, and
/// every other command looks up one row at most, whatever the list's size.
///
/// The fault is one of the view, or want of memory. It leaves the view's rows as they are, as does an answer.
pub fn plan_list<V: RawView>(
    alloc: Global,
    view: &mut V,
    moment: u64,
    version: u64,
    command: &Command,
) -> Result<Plan, StoreFault>
    requires family { IsTrue (is_list_command command.now) }
    requires within { IsWithin command.now }
    requires version { IsTrue (is_version version) }
    ensures plan { IfOk result (λ plan. IfSome (V.told view.old).rows (λ c. IsPlan c moment version command.now plan.batch plan.reply plan.until)) }
    ensures reads { ReadsView (V.told view.old) (V.told view.new) result }
{
    match command {
        Command::LLen(_, _) | Command::LIndex(_, _, _) | Command::LRange(_, _, _, _) => {
            plan_reading(alloc, view, moment, version, command)
        }
        Command::RPopLPush(_, _, _) | Command::LMove(_, _, _, _, _) => {
            plan_move(alloc, view, moment, version, command)
        }
        _ => plan_changes(alloc, view, moment, version, command),
    }
}

/// The plan of a command that reads a list.
fn plan_reading<V: RawView>(
    alloc: Global,
    view: &mut V,
    moment: u64,
    version: u64,
    command: &Command,
) -> Result<Plan, StoreFault>
    requires family { IsTrue (reads_lists command.now) }
    requires within { IsWithin command.now }
    requires version { IsTrue (is_version version) }
    ensures plan { IfOk result (λ plan. IfSome (V.told view.old).rows (λ c. IsPlan c moment version command.now plan.batch plan.reply plan.until)) }
    ensures reads { ReadsView (V.told view.old) (V.told view.new) result }
{
    match command {
        Command::LLen(key, _) => l_len(alloc, view, moment, key),
        Command::LIndex(key, at, _) => l_index(alloc, view, moment, key, *at),
        Command::LRange(key, first, last, _) => l_range(alloc, view, moment, key, *first, *last),
        _ => unreachable!(),
    }
}

/// The plan of a command that changes one list.
fn plan_changes<V: RawView>(
    alloc: Global,
    view: &mut V,
    moment: u64,
    version: u64,
    command: &Command,
) -> Result<Plan, StoreFault>
    requires family { IsTrue (changes_lists command.now) }
    requires within { IsWithin command.now }
    requires version { IsTrue (is_version version) }
    ensures plan { IfOk result (λ plan. IfSome (V.told view.old).rows (λ c. IsPlan c moment version command.now plan.batch plan.reply plan.until)) }
    ensures reads { ReadsView (V.told view.old) (V.told view.new) result }
{
    match command {
        Command::LPush(key, items, _) => {
            push(
                alloc,
                view,
                moment,
                version,
                key,
                End::Left,
                items.as_slice(),
            )
        }
        Command::RPush(key, items, _) => {
            push(
                alloc,
                view,
                moment,
                version,
                key,
                End::Right,
                items.as_slice(),
            )
        }
        Command::LPushX(key, items, _) => {
            push_x(alloc, view, moment, key, End::Left, items.as_slice())
        }
        Command::RPushX(key, items, _) => {
            push_x(alloc, view, moment, key, End::Right, items.as_slice())
        }
        Command::LPop(key, _) => pop(alloc, view, moment, key, End::Left),
        Command::RPop(key, _) => pop(alloc, view, moment, key, End::Right),
        Command::LSet(key, at, item, _) => l_set(alloc, view, moment, key, *at, item),
        Command::LTrim(key, first, last, _) => l_trim(alloc, view, moment, key, *first, *last),
        _ => unreachable!(),
    }
}
