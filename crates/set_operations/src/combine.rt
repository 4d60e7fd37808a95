//! SINTER, SUNION and SDIFF, and what several sets come to together.

ghost use Rattle.std.specs.Prelude.{◌≡◌, All, IfOk, IfSome, length, zip};
ghost use Rattle.redis_model.specs.Limits.{IsName};
ghost use Rattle.lives_model.specs.Views.{ReadsView};
ghost use Rattle.redis_model.specs.Outcome.{bulks};
ghost use Rattle.set_operations.specs.Combined.{HasFoundVersion, combined_at, combined_members, combining_plan, members_reply};

use crate::kept::kept;
use crate::sets::{first_error, look_at_sets, soonest};
use crate::united::united;
use batch_codec::Batch;
use kv_base::{Blobs, Key, NoMem, StoreFault};
use lives_model::{Plan, RawView};
use plan_base::KeyLife;
use redis_model::{Replies, Reply, ReplyError};
use std::alloc::Global;

/// How sets are combined.
#[derive(Clone, Copy, Debug)]
pub(crate) enum Combination {
    /// What is in each of them.
    Inter,
    /// What is in one of them at least.
    Union,
    /// What is in the first one and in no other.
    Diff,
}

/// SINTER, SUNION and SDIFF. Of the sets of an intersection or a difference one at a time is in memory, the first one; of
/// the others one row is looked up for each of its members.
///
/// The fault is one of the view, or want of memory. It leaves the view's rows as they are, as does an answer.
#[tactic(auto, using(lives_model::specs::ViewLaws::reading), unfolding(crate::specs::Combined::combining_plan))]
pub(crate) fn combine<V: RawView>(
    alloc: Global,
    view: &mut V,
    moment: u64,
    how: Combination,
    keys: &[Key],
) -> Result<Plan, StoreFault>
    ensures plan { IfOk result (λ plan. IfSome (V.told view.old).rows (λ c. plan ≡ combining_plan c moment how keys.now)) }
    ensures reads { ReadsView (V.told view.old) (V.told view.new) result }
{
    let lives = look_at_sets(alloc, view, moment, keys)?;
    let until = soonest(moment, lives.as_slice());
    let reply = combined_reply(alloc, view, how, keys, lives.as_slice())?;
    Ok(Plan {
        reply,
        batch: Batch::new(alloc),
        until,
    })
}

/// The answer by what is found at the keys.
fn combined_reply<V: RawView>(
    alloc: Global,
    view: &mut V,
    how: Combination,
    keys: &[Key],
    lives: &[KeyLife],
) -> Result<Reply, StoreFault>
    requires count { length lives.now ≡ length keys.now }
    requires versions { All HasFoundVersion lives.now }
    ensures reply { IfOk result (λ reply. IfSome (V.told view.old).rows (λ c. reply ≡ members_reply (combined_at c how keys.now lives.now))) }
    ensures reads { ReadsView (V.told view.old) (V.told view.new) result }
{
    match combined_at(alloc, view, how, keys, lives)? {
        Ok(members) => {
            let reply = bulks(alloc, members)?;
            Ok(reply)
        }
        Err(error) => Ok(Reply::Error(error)),
    }
}

/// An array of the members.
fn bulks(alloc: Global, members: Blobs) -> Result<Reply, NoMem>
    ensures { IfOk result (λ reply. reply ≡ bulks members) }
{
    let mut members = members;
    let mut answers = Vec::new(alloc);
    while let Some(member) = members.pop() {
        answers.push(Reply::Bulk(member))?;
    }
    answers.reverse();
    Ok(Reply::Array(Replies::from_vec(answers)))
}

/// The members that the sets come to together, in order, or the error at the first key that holds another type.
///
/// The fault is one of the view, or want of memory. It leaves the view's rows as they are, as does an answer.
pub(crate) fn combined_at<V: RawView>(
    alloc: Global,
    view: &mut V,
    how: Combination,
    keys: &[Key],
    lives: &[KeyLife],
) -> Result<Result<Blobs, ReplyError>, StoreFault>
    requires count { length lives.now ≡ length keys.now }
    requires versions { All HasFoundVersion lives.now }
    ensures members { IfOk result (λ members. IfSome (V.told view.old).rows (λ c. members ≡ combined_at c how keys.now lives.now)) }
    ensures names { IfOk result (λ members. IfOk members (λ xs. All IsName xs)) }
    ensures reads { ReadsView (V.told view.old) (V.told view.new) result }
{
    if let Some(error) = first_error(lives) {
        return Ok(Err(error));
    }
    let members = combined(alloc, view, how, keys, lives)?;
    Ok(Ok(members))
}

/// The members that the sets come to together, in order.
#[tactic(auto, using(lives_model::specs::ViewLaws::reading), unfolding(crate::specs::Combined::combined_members))]
fn combined<V: RawView>(
    alloc: Global,
    view: &mut V,
    how: Combination,
    keys: &[Key],
    lives: &[KeyLife],
) -> Result<Blobs, StoreFault>
    requires count { length lives.now ≡ length keys.now }
    requires versions { All HasFoundVersion lives.now }
    ensures members { IfOk result (λ members. IfSome (V.told view.old).rows (λ c. members ≡ combined_members c how (zip keys.now lives.now))) }
    ensures names { IfOk result (λ members. All IsName members) }
    ensures reads { ReadsView (V.told view.old) (V.told view.new) result }
{
    match how {
        Combination::Inter => kept(alloc, view, true, keys, lives),
        Combination::Union => united(alloc, view, keys, lives),
        Combination::Diff => kept(alloc, view, false, keys, lives),
    }
}
