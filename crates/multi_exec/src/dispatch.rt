//! Which crate plans which command.

ghost use Rattle.std.specs.Prelude.{◌≤◌, IfOk, IfSome, IsTrue};
ghost use Rattle.kv_base.specs.RawKeys.{is_version};
ghost use Rattle.redis_model.specs.declared.command.Cmds.TheVariants.{One};
ghost use Rattle.redis_model.specs.Desk.{last_sequence};
ghost use Rattle.redis_model.specs.Limits.{IsWithin};
ghost use Rattle.lives_model.specs.Plans.{IsPlan, IsPlanned};
ghost use Rattle.lives_model.specs.Views.{ReadsView};

use crate::version::version;
use hash_cmds::plan_hash;
use kv_base::StoreFault;
use list_cmds::plan_list;
use lives_model::{Plan, RawView};
use redis_model::Command;
use set_cmds::plan_set;
use std::alloc::Global;
use string_cmds::{plan_no_keys, plan_string};
use zset_cmds::plan_zset;

/// The plan of one command, at a moment in milliseconds, on rows up to the sequence `base`. A life that it starts has a
/// version above all of theirs.
///
/// The fault is one of the view, or want of memory. It leaves the view's rows as they are, as does an answer.
pub fn plan<V: RawView>(
    alloc: Global,
    view: &mut V,
    moment: u64,
    base: u64,
    command: &Command,
) -> Result<Plan, StoreFault>
    requires base { base ≤ last_sequence }
    requires within { IsWithin command.now }
    ensures plan { IfOk result (λ plan. IfSome (V.told view.old).rows
        (λ c. IsPlanned c moment base (One command.now) plan.batch plan.reply plan.until)) }
    ensures reads { ReadsView (V.told view.old) (V.told view.new) result }
{
    let version = version(base, 0);
    plan_at(alloc, view, moment, version, command)
}

/// The plan of one command, at a moment in milliseconds. A life that it starts has this version.
///
/// The fault is one of the view, or want of memory. It leaves the view's rows as they are, as does an answer.
#[tactic(auto, using(crate::proofs::Planning::is_on_strings))]
pub(crate) fn plan_at<V: RawView>(
    alloc: Global,
    view: &mut V,
    moment: u64,
    version: u64,
    command: &Command,
) -> Result<Plan, StoreFault>
    requires version { IsTrue (is_version version) }
    requires within { IsWithin command.now }
    ensures plan { IfOk result (λ plan. IfSome (V.told view.old).rows
        (λ c. IsPlan c moment version command.now plan.batch plan.reply plan.until)) }
    ensures reads { ReadsView (V.told view.old) (V.told view.new) result }
{
    if command.is_keyless() {
        return Ok(plan_no_keys(alloc, command)?);
    }
    if command.is_on_hashes() {
        return plan_hash(alloc, view, moment, version, command);
    }
    if command.is_on_lists() {
        return plan_list(alloc, view, moment, version, command);
    }
    if command.is_on_sets() {
        return plan_set(alloc, view, moment, version, command);
    }
    if command.is_on_sorted_sets() {
        return plan_zset(alloc, view, moment, version, command);
    }
    plan_string(alloc, view, moment, version, command)
}
