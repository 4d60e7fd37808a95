//! ZREM.

ghost use Rattle.std.specs.Prelude.{◌≡◌, All, IfOk, IfSome, IsTrue};
ghost use Rattle.kv_base.specs.RawKeys.{is_version};
ghost use Rattle.redis_model.specs.Limits.{IsName};
ghost use Rattle.redis_model.specs.SortedSets.{remove_scored, without};
ghost use Rattle.lives_model.specs.Views.{ReadsView};
ghost use Rattle.zset_plans.specs.ScorePlans.{PlansScores};
ghost use Rattle.zset_changes.specs.Founds.{IsScoresFound};
ghost use Rattle.zset_cmds.specs.Planned.{PlansFound};

use crate::found::find_scores;
use kv_base::{Blob, Key, StoreFault};
use life_changes::LifeFound;
use lives_model::{Plan, RawView};
use std::alloc::Global;
use zset_changes::{remove_members, removing_plan};

/// ZREM. At most one row is looked up for each member, whatever the size of the sorted set.
///
/// The fault is one of the view, or want of memory. It leaves the view's rows as they are, as does an answer.
pub(crate) fn z_rem<V: RawView>(
    alloc: Global,
    view: &mut V,
    moment: u64,
    fresh: u64,
    key: &Key,
    members: &[Blob],
) -> Result<Plan, StoreFault>
    requires fresh { IsTrue (is_version fresh) }
    requires key { IsName key.now }
    requires members { All IsName members.now }
    ensures plan { IfOk result (λ plan. IfSome (V.told view.old).rows (λ c. PlansScores c moment key.now fresh (remove_scored members.now) plan)) }
    ensures reads { ReadsView (V.told view.old) (V.told view.new) result }
{
    let found = match find_scores(alloc, view, moment, fresh, key)? {
        Ok(found) => found,
        Err(plan) => return Ok(plan),
    };
    let plan = remove_all(alloc, view, key, found, members)?;
    Ok(plan)
}

/// The plan that takes members away, by what was found.
///
/// The fault is one of the view, or want of memory. It leaves the view's rows as they are, as does an answer.
fn remove_all<V: RawView>(
    alloc: Global,
    view: &mut V,
    key: &Key,
    found: LifeFound,
    members: &[Blob],
) -> Result<Plan, StoreFault>
    requires found { IsScoresFound found key.now }
    requires members { All IsName members.now }
    ensures plan { IfOk result (λ plan. IfSome (V.told view.old).rows (λ c. PlansFound c key.now found (λ z. without z members.now) plan)) }
    ensures reads { ReadsView (V.told view.old) (V.told view.new) result }
{
    let scorings = remove_members(alloc, view, key, found.life, members)?;
    let plan = removing_plan(alloc, key, found, scorings.as_slice())?;
    Ok(plan)
}
