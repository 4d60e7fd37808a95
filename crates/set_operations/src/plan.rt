//! Which function plans which command.

ghost use Rattle.std.specs.Prelude.{IfOk, IfSome, IsTrue, ◌||◌};
ghost use Rattle.kv_base.specs.RawKeys.{is_version};
ghost use Rattle.redis_model.specs.Families.{combines_sets, stores_sets};
ghost use Rattle.redis_model.specs.Limits.{IsWithin};
ghost use Rattle.lives_model.specs.Plans.{IsPlan};
ghost use Rattle.lives_model.specs.Views.{ReadsView};

use crate::combine::{Combination, combine};
use crate::store::store;
use kv_base::StoreFault;
use lives_model::{Plan, RawView};
use redis_model::Command;
use std::alloc::Global;

/// The plan of a command that combines sets, at a moment in milliseconds: it answers the members, or stores them over whatever
/// its target held, in a new life of this version. A key of another type among the sets is answered as an error, and so are
/// more members than a set can have; nothing is written then.
///
/// The metadata of each key is read once. Of an intersection or a difference the first set is read, and one row of each other
/// set is looked up for each of its members, up to the first that decides it; of a union all sets are read.
///
/// The fault is one of the view, or want of memory. It leaves the view's rows as they are, as does an answer.
pub fn plan_combined<V: RawView>(
    alloc: Global,
    view: &mut V,
    moment: u64,
    version: u64,
    command: &Command,
) -> Result<Plan, StoreFault>
    requires family { IsTrue (combines_sets command.now || stores_sets command.now) }
    requires within { IsWithin command.now }
    requires version { IsTrue (is_version version) }
    ensures plan { IfOk result (λ plan. IfSome (V.told view.old).rows (λ c. IsPlan c moment version command.now plan.batch plan.reply plan.until)) }
    ensures reads { ReadsView (V.told view.old) (V.told view.new) result }
{
    match command {
        Command::SInter(keys, _) => {
            combine(alloc, view, moment, Combination::Inter, keys.as_slice())
        }
        Command::SUnion(keys, _) => {
            combine(alloc, view, moment, Combination::Union, keys.as_slice())
        }
        Command::SDiff(keys, _) => {
            combine(alloc, view, moment, Combination::Diff, keys.as_slice())
        }
        _ => plan_stored(alloc, view, moment, version, command),
    }
}

/// The plan of a command that stores what sets come to.
fn plan_stored<V: RawView>(
    alloc: Global,
    view: &mut V,
    moment: u64,
    version: u64,
    command: &Command,
) -> Result<Plan, StoreFault>
    requires family { IsTrue (stores_sets command.now) }
    requires within { IsWithin command.now }
    requires version { IsTrue (is_version version) }
    ensures plan { IfOk result (λ plan. IfSome (V.told view.old).rows (λ c. IsPlan c moment version command.now plan.batch plan.reply plan.until)) }
    ensures reads { ReadsView (V.told view.old) (V.told view.new) result }
{
    match command {
        Command::SInterStore(target, keys, _) => {
            let how = Combination::Inter;
            store(alloc, view, moment, version, how, target, keys.as_slice())
        }
        Command::SUnionStore(target, keys, _) => {
            let how = Combination::Union;
            store(alloc, view, moment, version, how, target, keys.as_slice())
        }
        Command::SDiffStore(target, keys, _) => {
            let how = Combination::Diff;
            store(alloc, view, moment, version, how, target, keys.as_slice())
        }
        _ => unreachable!(),
    }
}
