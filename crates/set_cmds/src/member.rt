//! SISMEMBER and SMISMEMBER.

ghost use Rattle.std.specs.Prelude.{◌≡◌, All, IfOk, IfSome, map};
ghost use Rattle.lives_model.specs.Views.{ReadsView};
ghost use Rattle.plan_base.specs.LifePlans.{life_reply};
ghost use Rattle.plan_base.specs.Lives.{HasVersionIn};
ghost use Rattle.redis_model.specs.Limits.{IsName};
ghost use Rattle.redis_model.specs.Outcome.{yes_no};
ghost use Rattle.redis_model.specs.declared.reply.Reply.TheVariants as answer;
ghost use Rattle.life_plans.specs.SetLives.{has_member};
ghost use Rattle.set_cmds.specs.Planned.{s_is_member_plan, s_m_is_member_plan};

use kv_base::{Blob, Key, StoreFault};
use lives_model::{Plan, RawView};
use meta_codec::Kind;
use plan_base::{LifeSight, MetaKey, answering, has_in_life, look_at_life, yes_no};
use redis_model::{Replies, Reply, ReplyError};
use std::alloc::Global;

/// SISMEMBER. At most two rows are looked up, whatever the set's size.
///
/// The fault is one of the view, or want of memory. It leaves the view's rows as they are, as does an answer.
#[tactic(auto, using(lives_model::specs::ViewLaws::reading), unfolding(crate::specs::Planned::s_is_member_plan))]
pub(crate) fn s_is_member<V: RawView>(
    alloc: Global,
    view: &mut V,
    moment: u64,
    key: &Key,
    member: &Blob,
) -> Result<Plan, StoreFault>
    requires { IsName member.now }
    ensures plan { IfOk result (λ plan. IfSome (V.told view.old).rows (λ c. plan ≡ s_is_member_plan c moment key.now member.now)) }
    ensures reads { ReadsView (V.told view.old) (V.told view.new) result }
{
    let raw = MetaKey::new(alloc, key)?;
    let found = look_at_life(alloc, view, moment, Kind::Set, &raw)?;
    let reply = membership(alloc, view, key, found.life, member)?;
    Ok(answering(alloc, moment, found.deadline, reply))
}

/// 1 where the set has the member and else 0, by its life.
#[tactic(auto, using(lives_model::specs::ViewLaws::reading, plan_base::specs::KeyLimitLaws::name_is_key))]
fn membership<V: RawView>(
    alloc: Global,
    view: &mut V,
    key: &Key,
    life: Result<Option<LifeSight>, ReplyError>,
    member: &Blob,
) -> Result<Reply, StoreFault>
    requires version { IfOk life HasVersionIn }
    requires member { IsName member.now }
    ensures reply { IfOk result (λ reply. IfSome (V.told view.old).rows (λ c. reply ≡ life_reply (λ found. yes_no (has_member c key.now found member.now)) life)) }
    ensures reads { ReadsView (V.told view.old) (V.told view.new) result }
{
    match life {
        Ok(life) => {
            let there = has_in_life(alloc, view, key, life, member.bytes())?;
            Ok(yes_no(there))
        }
        Err(error) => Ok(Reply::Error(error)),
    }
}

/// SMISMEMBER. One row is looked up for each member, whatever the set's size, and none where there is no key.
///
/// The fault is one of the view, or want of memory. It leaves the view's rows as they are, as does an answer.
#[tactic(auto, using(lives_model::specs::ViewLaws::reading), unfolding(crate::specs::Planned::s_m_is_member_plan))]
pub(crate) fn s_m_is_member<V: RawView>(
    alloc: Global,
    view: &mut V,
    moment: u64,
    key: &Key,
    members: &[Blob],
) -> Result<Plan, StoreFault>
    requires { All IsName members.now }
    ensures plan { IfOk result (λ plan. IfSome (V.told view.old).rows (λ c. plan ≡ s_m_is_member_plan c moment key.now members.now)) }
    ensures reads { ReadsView (V.told view.old) (V.told view.new) result }
{
    let raw = MetaKey::new(alloc, key)?;
    let found = look_at_life(alloc, view, moment, Kind::Set, &raw)?;
    let reply = memberships(alloc, view, key, found.life, members)?;
    Ok(answering(alloc, moment, found.deadline, reply))
}

/// The same of each member, in an array.
fn memberships<V: RawView>(
    alloc: Global,
    view: &mut V,
    key: &Key,
    life: Result<Option<LifeSight>, ReplyError>,
    members: &[Blob],
) -> Result<Reply, StoreFault>
    requires version { IfOk life HasVersionIn }
    requires members { All IsName members.now }
    ensures reply { IfOk result (λ reply. IfSome (V.told view.old).rows
        (λ c. reply ≡ life_reply (λ found. answer.Array (map (λ x. yes_no (has_member c key.now found x)) members.now)) life)) }
    ensures reads { ReadsView (V.told view.old) (V.told view.new) result }
{
    match life {
        Ok(life) => {
            let answers = each_has(alloc, view, key, life, members)?;
            Ok(Reply::Array(answers))
        }
        Err(error) => Ok(Reply::Error(error)),
    }
}

/// For each member 1 or 0, by the life of a set.
fn each_has<V: RawView>(
    alloc: Global,
    view: &mut V,
    key: &Key,
    life: Option<LifeSight>,
    members: &[Blob],
) -> Result<Replies, StoreFault>
    requires version { HasVersionIn life }
    requires members { All IsName members.now }
    ensures answers { IfOk result (λ answers. IfSome (V.told view.old).rows (λ c. answers ≡ map (λ x. yes_no (has_member c key.now life x)) members.now)) }
    ensures reads { ReadsView (V.told view.old) (V.told view.new) result }
{
    let mut answers = Replies::new(alloc);
    for member in members {
        let there = has_in_life(alloc, view, key, life, member.bytes())?;
        answers.push(yes_no(there))?;
    }
    Ok(answers)
}
