//! The plan of a command that wants rows of the collection at its only key.

ghost use Rattle.kv_base.specs.Map.{size};
ghost use Rattle.std.specs.Prelude.{◌≡◌, ◌<◌, ◌+◌, ◌^◌, IfOk, IfSome, IsTrue};
ghost use Rattle.kv_base.specs.RawKeys.{is_version};
ghost use Rattle.kv_base.specs.MetaValues.{is_deadline};
ghost use Rattle.lives_model.specs.Views.{ReadsView};
ghost use Rattle.plan_base.specs.LifeChanges.{added_rows, differing, removed_rows};
ghost use Rattle.plan_base.specs.Lives.{HasSizeIn, HasVersionIn};
ghost use Rattle.plan_base.specs.MetaRows.{expire_number};
ghost use Rattle.life_plans.specs.ChangePlans.{changing_plan, size_after};
ghost use Rattle.life_changes.specs.ChangeAnswers.{answer_by};

use crate::change::{LifeChange, changes};
use crate::plan::{LifeFound, changing_plan};
use batch_codec::Batch;
use kv_base::StoreFault;
use lives_model::{Plan, RawView};
use redis_model::Reply;
use std::alloc::Global;

/// What a command answers that changes a collection.
#[derive(Drop)]
pub enum ChangeAnswer {
    /// This reply.
    Given(Reply),
    /// The number of elements that it adds.
    Added,
    /// The number of elements that it removes.
    Removed,
}

/// The plan of a command that wants these rows of the collection at its only key, by what it found there. `again` says that
/// it writes its key again also where nothing changes. One row is looked up for each that is wanted.
///
/// The fault is one of the view, or want of memory. It leaves the view's rows as they are, as does an answer.
pub fn wishing_plan<V: RawView>(
    alloc: Global,
    view: &mut V,
    found: LifeFound,
    again: bool,
    wanted: &Batch,
    answer: ChangeAnswer,
) -> Result<Plan, StoreFault>
    requires fresh { IsTrue (is_version found.fresh) }
    requires version { HasVersionIn found.life }
    requires size { HasSizeIn found.life }
    requires deadline { IsTrue (is_deadline (expire_number found.old)) }
    requires few { size wanted.now < 2 ^ 63 }
    ensures plan { IfOk result (λ plan. IfSome (V.told view.old).rows (λ c. plan ≡ changing_plan found.moment found.key found.kind found.old found.fresh found.life again
        (differing c wanted.now) (size_after found.life (added_rows c wanted.now) (removed_rows c wanted.now))
        (answer_by answer (added_rows c wanted.now) (removed_rows c wanted.now)))) }
    ensures reads { ReadsView (V.told view.old) (V.told view.new) result }
{
    let change = changes(alloc, view, wanted)?;
    let reply = reply_of(answer, &change);
    let plan = changing_plan(alloc, found, again, change, reply)?;
    Ok(plan)
}

/// The reply after a change.
fn reply_of(answer: ChangeAnswer, change: &LifeChange) -> Reply
    requires { change.now.added + change.now.removed < 2 ^ 63 }
    ensures { result ≡ answer_by answer change.now.added change.now.removed }
{
    match answer {
        ChangeAnswer::Given(reply) => reply,
        ChangeAnswer::Added => Reply::Int(change.added as i64),
        ChangeAnswer::Removed => Reply::Int(change.removed as i64),
    }
}
