//! ZRANGE, ZREVRANGE and ZRANGEBYSCORE.

ghost use Rattle.std.specs.Prelude.{◌≡◌, IfOk, IfSome, map, reverse};
ghost use Rattle.redis_model.specs.Limits.{IsBound};
ghost use Rattle.lives_model.specs.Views.{ReadsView};
ghost use Rattle.plan_base.specs.Lives.{HasVersionIn};
ghost use Rattle.zset_pages.specs.Ranks.{scored_of};
ghost use Rattle.zset_reads.specs.ReadPlans.{limit_count, limit_skip, ranks_limited, ranks_ranged, ranks_turned, z_range_by_score_plan, z_range_plan, z_rev_range_plan};

use crate::answers::{told, told_back};
use kv_base::{Key, StoreFault};
use lives_model::{Plan, RawView};
use meta_codec::Kind;
use plan_base::{LifeSight, MetaKey, answering, end_at, look_at_life, start_at};
use redis_model::{Bound, Limit, Reply};
use std::alloc::Global;
use zset_pages::{Ranks, ranks_at, ranks_between};

/// ZRANGE. Rows are asked for in pages, from the lowest member on, and those that are answered are kept.
///
/// The fault is one of the view, or want of memory. It leaves the view's rows as they are, as does an answer.
#[tactic(auto, using(lives_model::specs::ViewLaws::reading), unfolding(crate::specs::ReadPlans::z_range_plan))]
pub(crate) fn z_range<V: RawView>(
    alloc: Global,
    view: &mut V,
    moment: u64,
    key: &Key,
    first: i64,
    last: i64,
    scores: bool,
) -> Result<Plan, StoreFault>
    ensures plan { IfOk result (λ plan. IfSome (V.told view.old).rows (λ c. plan ≡ z_range_plan c moment key.now first last scores)) }
    ensures reads { ReadsView (V.told view.old) (V.told view.new) result }
{
    let raw = MetaKey::new(alloc, key)?;
    let found = look_at_life(alloc, view, moment, Kind::ZSet, &raw)?;
    let reply = match found.life {
        Ok(life) => {
            let ranks = ranks_ranged(alloc, view, key, life, first, last)?;
            told(alloc, ranks, scores)?
        }
        Err(error) => Reply::Error(error),
    };
    Ok(answering(alloc, moment, found.deadline, reply))
}

/// The members between two places, lowest first.
fn ranks_ranged<V: RawView>(
    alloc: Global,
    view: &mut V,
    key: &Key,
    life: Option<LifeSight>,
    first: i64,
    last: i64,
) -> Result<Ranks, StoreFault>
    requires version { HasVersionIn life }
    ensures ranks { IfOk result (λ ranks. IfSome (V.told view.old).rows (λ c. map scored_of ranks ≡ ranks_ranged c key.now first last life)) }
    ensures reads { ReadsView (V.told view.old) (V.told view.new) result }
{
    let Some(life) = life else {
        return Ok(Ranks::new(alloc));
    };
    let from = start_at(life.size, first);
    let end = end_at(life.size, last);
    let ranks = ranks_at(alloc, view, key, life, from, end.saturating_sub(from))?;
    Ok(ranks)
}

/// ZREVRANGE. Rows are asked for in pages, from the lowest member on, and those that are answered are kept.
///
/// The fault is one of the view, or want of memory. It leaves the view's rows as they are, as does an answer.
#[tactic(auto, using(lives_model::specs::ViewLaws::reading), unfolding(crate::specs::ReadPlans::z_rev_range_plan))]
pub(crate) fn z_rev_range<V: RawView>(
    alloc: Global,
    view: &mut V,
    moment: u64,
    key: &Key,
    first: i64,
    last: i64,
    scores: bool,
) -> Result<Plan, StoreFault>
    ensures plan { IfOk result (λ plan. IfSome (V.told view.old).rows (λ c. plan ≡ z_rev_range_plan c moment key.now first last scores)) }
    ensures reads { ReadsView (V.told view.old) (V.told view.new) result }
{
    let raw = MetaKey::new(alloc, key)?;
    let found = look_at_life(alloc, view, moment, Kind::ZSet, &raw)?;
    let reply = match found.life {
        Ok(life) => {
            let ranks = ranks_to_turn(alloc, view, key, life, first, last)?;
            told_back(alloc, ranks, scores)?
        }
        Err(error) => Reply::Error(error),
    };
    Ok(answering(alloc, moment, found.deadline, reply))
}

/// The members between two places that are counted from the highest, lowest first.
fn ranks_to_turn<V: RawView>(
    alloc: Global,
    view: &mut V,
    key: &Key,
    life: Option<LifeSight>,
    first: i64,
    last: i64,
) -> Result<Ranks, StoreFault>
    requires version { HasVersionIn life }
    ensures ranks { IfOk result (λ ranks. IfSome (V.told view.old).rows (λ c. reverse (map scored_of ranks) ≡ ranks_turned c key.now first last life)) }
    ensures reads { ReadsView (V.told view.old) (V.told view.new) result }
{
    let Some(life) = life else {
        return Ok(Ranks::new(alloc));
    };
    let from = start_at(life.size, first);
    let end = end_at(life.size, last);
    let ranks = ranks_at(
        alloc,
        view,
        key,
        life,
        life.size - end,
        end.saturating_sub(from),
    )?;
    Ok(ranks)
}

/// ZRANGEBYSCORE. Rows are asked for in pages, from the lower bound on, and those that are answered are kept.
///
/// The fault is one of the view, or want of memory. It leaves the view's rows as they are, as does an answer.
#[tactic(auto, using(lives_model::specs::ViewLaws::reading), unfolding(crate::specs::ReadPlans::z_range_by_score_plan))]
pub(crate) fn z_range_by_score<V: RawView>(
    alloc: Global,
    view: &mut V,
    moment: u64,
    key: &Key,
    low: Bound,
    high: Bound,
    scores: bool,
    limit: Option<Limit>,
) -> Result<Plan, StoreFault>
    requires low { IsBound low }
    requires high { IsBound high }
    ensures plan { IfOk result (λ plan. IfSome (V.told view.old).rows (λ c. plan ≡ z_range_by_score_plan c moment key.now low high scores limit)) }
    ensures reads { ReadsView (V.told view.old) (V.told view.new) result }
{
    let raw = MetaKey::new(alloc, key)?;
    let found = look_at_life(alloc, view, moment, Kind::ZSet, &raw)?;
    let reply = match found.life {
        Ok(life) => {
            let ranks = ranks_limited(alloc, view, key, life, low, high, limit)?;
            told(alloc, ranks, scores)?
        }
        Err(error) => Reply::Error(error),
    };
    Ok(answering(alloc, moment, found.deadline, reply))
}

/// The members between two bounds within a limit, lowest first.
fn ranks_limited<V: RawView>(
    alloc: Global,
    view: &mut V,
    key: &Key,
    life: Option<LifeSight>,
    low: Bound,
    high: Bound,
    limit: Option<Limit>,
) -> Result<Ranks, StoreFault>
    requires version { HasVersionIn life }
    requires low { IsBound low }
    requires high { IsBound high }
    ensures ranks { IfOk result (λ ranks. IfSome (V.told view.old).rows (λ c. map scored_of ranks ≡ ranks_limited c key.now low high limit life)) }
    ensures reads { ReadsView (V.told view.old) (V.told view.new) result }
{
    let Some(life) = life else {
        return Ok(Ranks::new(alloc));
    };
    let skip = limit_skip(limit);
    let count = limit_count(life.size, limit);
    let ranks = ranks_between(alloc, view, key, life, low, high, skip, count)?;
    Ok(ranks)
}

/// How many members a limit passes over.
fn limit_skip(limit: Option<Limit>) -> u64
    ensures { result ≡ limit_skip limit }
{
    match limit {
        Some(limit) if 0 <= limit.offset => limit.offset as u64,
        _ => 0,
    }
}

/// How many follow at most, of so many.
fn limit_count(size: u64, limit: Option<Limit>) -> u64
    ensures { result ≡ limit_count size limit }
{
    match limit {
        None => size,
        Some(limit) if limit.offset < 0 => 0,
        Some(limit) if limit.count < 0 => size,
        Some(limit) => limit.count as u64,
    }
}
