//! ZCOUNT, ZRANK and ZREVRANK.

ghost use Rattle.std.specs.Prelude.{◌≡◌, ◌<◌, ◌≤◌, ◌^◌, IfOk, IfSome, IsTrue};
ghost use Rattle.kv_base.specs.RawKeys.{is_key, is_version};
ghost use Rattle.redis_model.specs.Limits.{IsBound, IsName};
ghost use Rattle.redis_model.specs.SortedSets.{rank_or_null};
ghost use Rattle.lives_model.specs.Views.{ReadsView};
ghost use Rattle.plan_base.specs.Lives.{HasSizeIn, HasVersionIn};
ghost use Rattle.zset_reads.specs.ReadPlans.{count_in_life, place_in_life, place_of, z_count_plan, z_rank_plan};

use crate::score::read_score;
use kv_base::{Blob, Key, StoreFault};
use lives_model::{Plan, RawView};
use meta_codec::Kind;
use plan_base::{LifeSight, MetaKey, answering, look_at_life};
use redis_model::{Bound, Reply};
use std::alloc::Global;
use zset_pages::{count_ahead, count_between, count_from};

/// ZCOUNT. Rows are asked for in pages, from the lower bound on.
///
/// The fault is one of the view, or want of memory. It leaves the view's rows as they are, as does an answer.
#[tactic(auto, using(lives_model::specs::ViewLaws::reading), unfolding(crate::specs::ReadPlans::z_count_plan))]
pub(crate) fn z_count<V: RawView>(
    alloc: Global,
    view: &mut V,
    moment: u64,
    key: &Key,
    low: Bound,
    high: Bound,
) -> Result<Plan, StoreFault>
    requires low { IsBound low }
    requires high { IsBound high }
    ensures plan { IfOk result (λ plan. IfSome (V.told view.old).rows (λ c. plan ≡ z_count_plan c moment key.now low high)) }
    ensures reads { ReadsView (V.told view.old) (V.told view.new) result }
{
    let raw = MetaKey::new(alloc, key)?;
    let found = look_at_life(alloc, view, moment, Kind::ZSet, &raw)?;
    let reply = match found.life {
        Ok(life) => {
            let number = count_in_life(alloc, view, key, life, low, high)?;
            Reply::Int(number as i64)
        }
        Err(error) => Reply::Error(error),
    };
    Ok(answering(alloc, moment, found.deadline, reply))
}

/// How many members of the life that is found at a key lie between two bounds.
fn count_in_life<V: RawView>(
    alloc: Global,
    view: &mut V,
    key: &Key,
    life: Option<LifeSight>,
    low: Bound,
    high: Bound,
) -> Result<u64, StoreFault>
    requires version { HasVersionIn life }
    requires size { HasSizeIn life }
    requires low { IsBound low }
    requires high { IsBound high }
    ensures number { IfOk result (λ number. IfSome (V.told view.old).rows (λ c. number ≡ count_in_life c key.now low high life)) }
    ensures few { IfOk result (λ number. number < 2 ^ 32) }
    ensures reads { ReadsView (V.told view.old) (V.told view.new) result }
{
    let Some(life) = life else {
        return Ok(0);
    };
    let number = count_between(alloc, view, key, life, low, high)?;
    Ok(number)
}

/// ZRANK, and from the highest ZREVRANK. One row is looked up, and then rows are asked for in pages, up to the member's or from
/// it on.
///
/// The fault is one of the view, or want of memory. It leaves the view's rows as they are, as does an answer.
#[tactic(auto, using(lives_model::specs::ViewLaws::reading, plan_base::specs::KeyLimitLaws::name_is_key), unfolding(crate::specs::ReadPlans::z_rank_plan))]
pub(crate) fn z_rank<V: RawView>(
    alloc: Global,
    view: &mut V,
    moment: u64,
    key: &Key,
    member: &Blob,
    highest: bool,
) -> Result<Plan, StoreFault>
    requires member { IsName member.now }
    ensures plan { IfOk result (λ plan. IfSome (V.told view.old).rows (λ c. plan ≡ z_rank_plan c moment key.now member.now highest)) }
    ensures reads { ReadsView (V.told view.old) (V.told view.new) result }
{
    let raw = MetaKey::new(alloc, key)?;
    let found = look_at_life(alloc, view, moment, Kind::ZSet, &raw)?;
    let reply = match found.life {
        Ok(life) => {
            let place = place_in_life(alloc, view, key, life, member.bytes(), highest)?;
            rank_or_null(place)
        }
        Err(error) => Reply::Error(error),
    };
    Ok(answering(alloc, moment, found.deadline, reply))
}

/// The place of a member in the life that is found at a key; `None` where there is no such member.
fn place_in_life<V: RawView>(
    alloc: Global,
    view: &mut V,
    key: &Key,
    life: Option<LifeSight>,
    member: &[u8],
    highest: bool,
) -> Result<Option<u64>, StoreFault>
    requires version { HasVersionIn life }
    requires size { HasSizeIn life }
    requires member { IsTrue (is_key member.now) }
    ensures place { IfOk result (λ place. IfSome (V.told view.old).rows (λ c. place ≡ place_in_life c key.now member.now highest life)) }
    ensures few { IfOk result (λ place. IfSome place (λ place. place < 2 ^ 32)) }
    ensures reads { ReadsView (V.told view.old) (V.told view.new) result }
{
    let Some(life) = life else {
        return Ok(None);
    };
    let score = read_score(alloc, view, key, Some(life), member)?;
    let Some(score) = score else {
        return Ok(None);
    };
    let place = place_of(alloc, view, key, life, member, score, highest)?;
    Ok(Some(place))
}

/// The place of a member with a score. From its own row on stand those behind it, and itself.
fn place_of<V: RawView>(
    alloc: Global,
    view: &mut V,
    key: &Key,
    life: LifeSight,
    member: &[u8],
    score: i64,
    highest: bool,
) -> Result<u64, StoreFault>
    requires version { IsTrue (is_version life.version) }
    ensures place { IfOk result (λ place. IfSome (V.told view.old).rows (λ c. place ≡ place_of c key.now member.now life highest score)) }
    ensures few { IfOk result (λ place. place ≤ life.size) }
    ensures reads { ReadsView (V.told view.old) (V.told view.new) result }
{
    if highest {
        let number = count_from(alloc, view, key, life, member, score)?;
        Ok(number.saturating_sub(1))
    } else {
        count_ahead(alloc, view, key, life, member, score)
    }
}

fn rank_or_null(place: Option<u64>) -> Reply
    requires few { IfSome place (λ place. place < 2 ^ 32) }
    ensures { result ≡ rank_or_null place }
{
    match place {
        None => Reply::Null,
        Some(place) => Reply::Int(place as i64),
    }
}
