//! The plan of a command that makes this of the scores of members.

ghost use Rattle.std.specs.Prelude.{◌≡◌, ◌<◌, ◌^◌, IfOk, IsTrue, length};
ghost use Rattle.zset_plans.specs.ScorePlans.{scoring_plan};
ghost use Rattle.zset_changes.specs.ScoreTables.{AllStand};
ghost use Rattle.zset_changes.specs.Founds.{IsScoresFound, gone_number};

use crate::rows::scoring_rows;
use kv_base::{Key, NoMem};
use life_changes::{LifeFound, changing_plan, life_version, size_after};
use lives_model::Plan;
use plan_base::life_size;
use redis_model::Reply;
use std::alloc::Global;
use zset_plans::Scoring;

/// The plan of a command that answers so and makes this of the scores of members of the sorted set at its only key.
///
/// Too many members are an error, and a sorted set that becomes empty leaves no key.
#[tactic(auto, unfolding(zset_plans::specs::ScorePlans::scoring_plan))]
pub fn scoring_plan(
    alloc: Global,
    key: &Key,
    found: LifeFound,
    scorings: &[Scoring],
    reply: Reply,
) -> Result<Plan, NoMem>
    requires found { IsScoresFound found key.now }
    requires stand { AllStand scorings.now }
    requires few { length scorings.now < 2 ^ 63 }
    ensures { IfOk result (λ plan. plan ≡ scoring_plan found.moment key.now found.old found.fresh found.life scorings.now reply) }
{
    let version = life_version(found.fresh, found.life);
    let change = scoring_rows(alloc, key, version, scorings)?;
    changing_plan(alloc, found, false, change, reply)
}

/// The same of a command that answers how many members go.
pub fn removing_plan(
    alloc: Global,
    key: &Key,
    found: LifeFound,
    scorings: &[Scoring],
) -> Result<Plan, NoMem>
    requires found { IsScoresFound found key.now }
    requires stand { AllStand scorings.now }
    requires few { length scorings.now < 2 ^ 63 }
    ensures { IfOk result (λ plan. plan ≡ scoring_plan found.moment key.now found.old found.fresh found.life scorings.now (gone_number found.life scorings.now)) }
{
    let version = life_version(found.fresh, found.life);
    let change = scoring_rows(alloc, key, version, scorings)?;
    let size = size_after(found.life, change.added, change.removed);
    let gone = life_size(found.life).saturating_sub(size);
    changing_plan(alloc, found, false, change, Reply::Int(gone as i64))
}
