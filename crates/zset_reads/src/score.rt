//! ZSCORE and ZCARD.

ghost use Rattle.std.specs.Prelude.{◌≡◌, IfOk, IfSome, IsTrue};
ghost use Rattle.kv_base.specs.RawKeys.{is_key};
ghost use Rattle.redis_model.specs.Limits.{IsName};
ghost use Rattle.redis_model.specs.SortedSets.{score_or_null};
ghost use Rattle.lives_model.specs.Views.{ReadsView};
ghost use Rattle.plan_base.specs.Lives.{HasVersionIn};
ghost use Rattle.zset_reads.specs.ReadPlans.{score_in, score_in_life, z_card_plan, z_score_plan};

use crate::answers::score_bulk;
use kv_base::{Blob, Key, NoMem, StoreFault};
use lives_model::{Plan, RawView};
use meta_codec::Kind;
use plan_base::{LifeSight, MetaKey, answering, life_size, look_at_life, read_in_life};
use redis_model::Reply;
use std::alloc::Global;
use subkey_codec::decode_score;

/// ZSCORE. One row is looked up, whatever the size of the sorted set.
///
/// The fault is one of the view, or want of memory. It leaves the view's rows as they are, as does an answer.
#[tactic(auto, using(lives_model::specs::ViewLaws::reading, plan_base::specs::KeyLimitLaws::name_is_key), unfolding(crate::specs::ReadPlans::z_score_plan))]
pub(crate) fn z_score<V: RawView>(
    alloc: Global,
    view: &mut V,
    moment: u64,
    key: &Key,
    member: &Blob,
) -> Result<Plan, StoreFault>
    requires member { IsName member.now }
    ensures plan { IfOk result (λ plan. IfSome (V.told view.old).rows (λ c. plan ≡ z_score_plan c moment key.now member.now)) }
    ensures reads { ReadsView (V.told view.old) (V.told view.new) result }
{
    let raw = MetaKey::new(alloc, key)?;
    let found = look_at_life(alloc, view, moment, Kind::ZSet, &raw)?;
    let reply = match found.life {
        Ok(life) => {
            let score = read_score(alloc, view, key, life, member.bytes())?;
            score_or_null(alloc, score)?
        }
        Err(error) => Reply::Error(error),
    };
    Ok(answering(alloc, moment, found.deadline, reply))
}

/// The score of a member in the life that is found at a key; `None` where there is no such member. One row is looked up where
/// there is a life, and none where there is no key.
///
/// The fault is one of the view, or want of memory. It leaves the view's rows as they are, as does an answer.
pub(crate) fn read_score<V: RawView>(
    alloc: Global,
    view: &mut V,
    key: &Key,
    life: Option<LifeSight>,
    member: &[u8],
) -> Result<Option<i64>, StoreFault>
    requires version { HasVersionIn life }
    requires member { IsTrue (is_key member.now) }
    ensures score { IfOk result (λ score. IfSome (V.told view.old).rows (λ c. score ≡ score_in_life c key.now member.now life)) }
    ensures reads { ReadsView (V.told view.old) (V.told view.new) result }
{
    let row = read_in_life(alloc, view, key, life, member)?;
    Ok(score_in(&row))
}

/// The score in a row that was looked up.
fn score_in(row: &Option<Blob>) -> Option<i64>
    ensures { result ≡ score_in row.now }
{
    let Some(row) = row else {
        return None;
    };
    decode_score(row.bytes())
}

fn score_or_null(alloc: Global, score: Option<i64>) -> Result<Reply, NoMem>
    ensures { IfOk result (λ reply. reply ≡ score_or_null score) }
{
    match score {
        None => Ok(Reply::Null),
        Some(score) => score_bulk(alloc, score),
    }
}

/// ZCARD. The metadata alone is read.
///
/// The fault is one of the view, or want of memory. It leaves the view's rows as they are, as does an answer.
#[tactic(auto, using(lives_model::specs::ViewLaws::reading), unfolding(crate::specs::ReadPlans::z_card_plan))]
pub(crate) fn z_card<V: RawView>(
    alloc: Global,
    view: &mut V,
    moment: u64,
    key: &Key,
) -> Result<Plan, StoreFault>
    ensures plan { IfOk result (λ plan. IfSome (V.told view.old).rows (λ c. plan ≡ z_card_plan c moment key.now)) }
    ensures reads { ReadsView (V.told view.old) (V.told view.new) result }
{
    let raw = MetaKey::new(alloc, key)?;
    let found = look_at_life(alloc, view, moment, Kind::ZSet, &raw)?;
    let reply = match found.life {
        Ok(life) => Reply::Int(life_size(life) as i64),
        Err(error) => Reply::Error(error),
    };
    Ok(answering(alloc, moment, found.deadline, reply))
}
