//! Which function plans which command, a group at a time.

ghost use Rattle.std.specs.Prelude.{◌||◌, IfOk, IfSome, IsTrue};
ghost use Rattle.kv_base.specs.RawKeys.{is_version};
ghost use Rattle.redis_model.specs.Limits.{IsWithin};
ghost use Rattle.lives_model.specs.Plans.{IsPlan};
ghost use Rattle.lives_model.specs.Views.{ReadsView};
ghost use Rattle.redis_model.specs.Families.{changes_sets, combines_sets, is_set_command, stores_sets};

use crate::card::s_card;
use crate::change_members::{s_add, s_rem};
use crate::member::{s_is_member, s_m_is_member};
use crate::move_member::s_move;
use kv_base::StoreFault;
use life_pages::{Whole, whole_plan};
use lives_model::{Plan, RawView};
use meta_codec::Kind;
use redis_model::Command;
use set_operations::plan_combined;
use std::alloc::Global;

/// The plan of a command on sets, at a moment in milliseconds. A life that it starts has this version.
///
/// The metadata is read once for each key that the command names. For each member that it names one row at most is looked up
/// at each key, whatever the sizes of the sets.
///
/// The fault is one of the view, or want of memory. It leaves the view's rows as they are, as does an answer.
pub fn plan_set<V: RawView>(
    alloc: Global,
    view: &mut V,
    moment: u64,
    version: u64,
    command: &Command,
) -> Result<Plan, StoreFault>
    requires family { IsTrue (is_set_command command.now) }
    requires within { IsWithin command.now }
    requires version { IsTrue (is_version version) }
    ensures plan { IfOk result (λ plan. IfSome (V.told view.old).rows (λ c. IsPlan c moment version command.now plan.batch plan.reply plan.until)) }
    ensures reads { ReadsView (V.told view.old) (V.told view.new) result }
{
    match command {
        Command::SIsMember(key, member, _) => s_is_member(alloc, view, moment, key, member),
        Command::SMIsMember(key, members, _) => {
            s_m_is_member(alloc, view, moment, key, members.as_slice())
        }
        Command::SCard(key, _) => s_card(alloc, view, moment, key),
        Command::SMembers(key, _) => {
            whole_plan(alloc, view, moment, key, Kind::Set, Whole::Subkeys)
        }
        _ => plan_changes(alloc, view, moment, version, command),
    }
}

/// The plan of a command that changes sets by members that it names, and of those behind them.
fn plan_changes<V: RawView>(
    alloc: Global,
    view: &mut V,
    moment: u64,
    version: u64,
    command: &Command,
) -> Result<Plan, StoreFault>
    requires family { IsTrue (changes_sets command.now || (combines_sets command.now || stores_sets command.now)) }
    requires within { IsWithin command.now }
    requires version { IsTrue (is_version version) }
    ensures plan { IfOk result (λ plan. IfSome (V.told view.old).rows (λ c. IsPlan c moment version command.now plan.batch plan.reply plan.until)) }
    ensures reads { ReadsView (V.told view.old) (V.told view.new) result }
{
    match command {
        Command::SAdd(key, members, _) => {
            s_add(alloc, view, moment, version, key, members.as_slice())
        }
        Command::SRem(key, members, _) => {
            s_rem(alloc, view, moment, version, key, members.as_slice())
        }
        Command::SMove(from, to, member, _) => {
            s_move(alloc, view, moment, version, from, to, member)
        }
        _ => plan_combined(alloc, view, moment, version, command),
    }
}
