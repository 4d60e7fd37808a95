//! Which function plans which command.

ghost use Rattle.std.specs.Prelude.{IfOk, IfSome, IsTrue};
ghost use Rattle.kv_base.specs.RawKeys.{is_version};
ghost use Rattle.redis_model.specs.Families.{is_sorted_set_command, reads_sorted_sets};
ghost use Rattle.redis_model.specs.Limits.{IsWithin};
ghost use Rattle.lives_model.specs.Plans.{IsPlan};
ghost use Rattle.lives_model.specs.Views.{ReadsView};

use crate::add::{z_add, z_incr_by};
use crate::remove::z_rem;
use crate::take::{Taking, how_many, z_take};
use kv_base::StoreFault;
use lives_model::{Plan, RawView};
use redis_model::Command;
use std::alloc::Global;
use zset_reads::plan_sorted_set_read;

/// The plan of a command on sorted sets, at a moment in milliseconds. A life that it starts has this version.
///
/// The metadata of the key is read once, and one row at most is looked up for each member that the command names, whatever the
/// size of the sorted set. Members that go by rank or by score are found in pages, as those that are read (`zset_reads`).
///
/// The fault is one of the view, or want of memory. It leaves the view's rows as they are, as does an answer.
pub fn plan_zset<V: RawView>(
    alloc: Global,
    view: &mut V,
    moment: u64,
    version: u64,
    command: &Command,
) -> Result<Plan, StoreFault>
    requires family { IsTrue (is_sorted_set_command command.now) }
    requires within { IsWithin command.now }
    requires version { IsTrue (is_version version) }
    ensures plan { IfOk result (λ plan. IfSome (V.told view.old).rows (λ c. IsPlan c moment version command.now plan.batch plan.reply plan.until)) }
    ensures reads { ReadsView (V.told view.old) (V.told view.new) result }
{
    match command {
        Command::ZAdd(key, scores, members, how, _) => z_add(
            alloc,
            view,
            moment,
            version,
            key,
            scores.as_slice(),
            members.as_slice(),
            *how,
        ),
        Command::ZIncrBy(key, score, member, _) => {
            z_incr_by(alloc, view, moment, version, key, *score, member)
        }
        Command::ZRem(key, members, _) => {
            z_rem(alloc, view, moment, version, key, members.as_slice())
        }
        Command::ZRemRangeByRank(key, first, last, _) => {
            let taking = Taking::Places(*first, *last);
            z_take(alloc, view, moment, version, key, taking)
        }
        Command::ZRemRangeByScore(key, low, high, _) => {
            let taking = Taking::Within(*low, *high);
            z_take(alloc, view, moment, version, key, taking)
        }
        Command::ZPopMin(key, count, _) => {
            let taking = Taking::Lowest(how_many(*count));
            z_take(alloc, view, moment, version, key, taking)
        }
        Command::ZPopMax(key, count, _) => {
            let taking = Taking::Highest(how_many(*count));
            z_take(alloc, view, moment, version, key, taking)
        }
        _ => plan_read(alloc, view, moment, version, command),
    }
}

/// The plan of a command that reads a sorted set.
fn plan_read<V: RawView>(
    alloc: Global,
    view: &mut V,
    moment: u64,
    version: u64,
    command: &Command,
) -> Result<Plan, StoreFault>
    requires family { IsTrue (reads_sorted_sets command.now) }
    requires within { IsWithin command.now }
    ensures plan { IfOk result (λ plan. IfSome (V.told view.old).rows (λ c. IsPlan c moment version command.now plan.batch plan.reply plan.until)) }
    ensures reads { ReadsView (V.told view.old) (V.told view.new) result }
{
    plan_sorted_set_read(alloc, view, moment, command)
}
