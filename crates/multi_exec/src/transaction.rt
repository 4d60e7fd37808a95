//! The plan of many commands, one after the other.

ghost use Rattle.std.specs.Prelude.{◌≤◌, IfOk, IfSome, IsTrue};
ghost use Rattle.kv_base.specs.RawKeys.{is_version};
ghost use Rattle.batch_codec.specs.Batches.{after};
ghost use Rattle.redis_model.specs.declared.command.Cmds.TheVariants.{Many};
ghost use Rattle.redis_model.specs.Desk.{last_sequence};
ghost use Rattle.redis_model.specs.Limits.{IsWithin};
ghost use Rattle.lives_model.specs.Plans.{IsPlan, IsPlanned, AreAsked};
ghost use Rattle.lives_model.specs.Views.{ReadsView};

use crate::dispatch::plan_at;
use crate::version::version;
use batch_codec::Batch;
use kv_base::StoreFault;
use lives_model::{Plan, RawView};
use multi_plans::GrowingPlan;
use plan_base::Overlay;
use redis_model::{Command, Commands};
use std::alloc::Global;

/// The plan of the commands of a transaction, at a moment in milliseconds, on rows up to the sequence `base`. Each sees the
/// rows as those before it leave them, and a life that it starts has a version of its own, above all of the rows'. The reply
/// is the array of their replies.
///
/// What the commands so far write is one batch, so a read asks that batch and, for what it does not have, the view once,
/// however many commands came before.
///
/// The fault is one of the view, or want of memory. It leaves the view's rows as they are, as does an answer.
pub fn plan_all<V: RawView>(
    alloc: Global,
    view: &mut V,
    moment: u64,
    base: u64,
    commands: &Commands,
) -> Result<Plan, StoreFault>
    requires base { base ≤ last_sequence }
    requires asked { AreAsked (Many commands.now) }
    ensures plan { IfOk result (λ plan. IfSome (V.told view.old).rows
        (λ c. IsPlanned c moment base (Many commands.now) plan.batch plan.reply plan.until)) }
    ensures reads { ReadsView (V.told view.old) (V.told view.new) result }
{
    let mut growing = GrowingPlan::new(alloc);
    for (place, command) in commands.as_slice().iter().enumerate() {
        let version = version(base, place);
        let plan = plan_after(alloc, view, &growing.batch, moment, version, command)?;
        growing = growing.with(alloc, plan)?;
    }
    Ok(growing.whole())
}

/// The plan of one command on the rows of a view after a batch. A life that it starts has this version.
fn plan_after<V: RawView>(
    alloc: Global,
    view: &mut V,
    batch: &Batch,
    moment: u64,
    version: u64,
    command: &Command,
) -> Result<Plan, StoreFault>
    requires version { IsTrue (is_version version) }
    requires within { IsWithin command.now }
    ensures plan { IfOk result (λ plan. IfSome (V.told view.old).rows
        (λ c. IsPlan (after c batch.now) moment version command.now plan.batch plan.reply plan.until)) }
    ensures reads { ReadsView (V.told view.old) (V.told view.new) result }
{
    let mut rows = Overlay::new(view, batch);
    plan_at(alloc, &mut rows, moment, version, command)
}
