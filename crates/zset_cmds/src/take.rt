//! ZPOPMIN, ZPOPMAX, ZREMRANGEBYRANK and ZREMRANGEBYSCORE.

ghost use Rattle.std.specs.Prelude.{◌≡◌, IfOk, IfSome, IsTrue, map};
ghost use Rattle.kv_base.specs.RawKeys.{is_version};
ghost use Rattle.redis_model.specs.Limits.{IsBound, IsName};
ghost use Rattle.redis_model.specs.SortedSets.{how_many};
ghost use Rattle.lives_model.specs.Views.{ReadsView};
ghost use Rattle.plan_base.specs.Lives.{HasVersionIn};
ghost use Rattle.zset_plans.specs.ScorePlans.{PlansScores};
ghost use Rattle.zset_pages.specs.Ranks.{scored_of};
ghost use Rattle.zset_changes.specs.Founds.{IsScoresFound};
ghost use Rattle.zset_changes.specs.ScoreTables.{AllStand, CanStand};
ghost use Rattle.zset_cmds.specs.Planned.{PlansFound};
ghost use Rattle.zset_cmds.specs.Taken.{HasBounds, TakesMembers, taking_outcome, by_place, scored_leaving, ranks_taken, span_of};

use crate::found::find_scores;
use kv_base::{Key, MAX_KEY, NoMem, StoreFault};
use life_changes::LifeFound;
use lives_model::{Plan, RawView};
use plan_base::{LifeSight, end_at, start_at};
use redis_model::Bound;
use std::alloc::Global;
use zset_changes::{is_score, removing_plan, scoring_plan};
use zset_pages::{Ranked, Ranks, ranks_between};
use zset_plans::Scoring;
use zset_reads::{told, told_back};

/// Which members of a sorted set go.
#[derive(Clone, Copy, Debug)]
pub(crate) enum Taking {
    /// So many from the lowest on.
    Lowest(u64),
    /// So many from the highest back.
    Highest(u64),
    /// Those between two places, both counted in. A negative place counts from the highest, which is -1.
    Places(i64, i64),
    /// Those between two bounds.
    Within(Bound, Bound),
}

/// Where members stand that go: between two bounds, some that stay ahead of them, and so many at most.
#[derive(Clone, Copy, Debug)]
pub(crate) struct TakenSpan {
    pub low: Bound,
    pub high: Bound,
    pub skip: u64,
    pub count: u64,
}

/// A command that takes members away which it finds by rank or by score: ZPOPMIN and ZPOPMAX, which answer them with their
/// scores, and ZREMRANGEBYRANK and ZREMRANGEBYSCORE, which answer how many they are. Rows are asked for in pages: from the
/// lower bound on, or from the lowest member on, to the last one that goes.
///
/// The fault is one of the view, or want of memory. It leaves the view's rows as they are, as does an answer.
pub(crate) fn z_take<V: RawView>(
    alloc: Global,
    view: &mut V,
    moment: u64,
    fresh: u64,
    key: &Key,
    taking: Taking,
) -> Result<Plan, StoreFault>
    requires fresh { IsTrue (is_version fresh) }
    requires key { IsName key.now }
    requires bounds { HasBounds taking }
    ensures plan { IfOk result (λ plan. IfSome (V.told view.old).rows (λ c. PlansScores c moment key.now fresh (taking_outcome taking) plan)) }
    ensures reads { ReadsView (V.told view.old) (V.told view.new) result }
{
    let found = match find_scores(alloc, view, moment, fresh, key)? {
        Ok(found) => found,
        Err(plan) => return Ok(plan),
    };
    let plan = take_all(alloc, view, key, found, taking)?;
    Ok(plan)
}

/// How many members a pop takes: one without a number.
pub(crate) fn how_many(count: Option<i64>) -> u64
    ensures { result ≡ how_many count }
{
    match count {
        None => 1,
        Some(count) if 0 <= count => count as u64,
        _ => 0,
    }
}

/// The plan that takes members away, by what was found.
///
/// The fault is one of the view, or want of memory. It leaves the view's rows as they are, as does an answer.
fn take_all<V: RawView>(
    alloc: Global,
    view: &mut V,
    key: &Key,
    found: LifeFound,
    taking: Taking,
) -> Result<Plan, StoreFault>
    requires found { IsScoresFound found key.now }
    requires bounds { HasBounds taking }
    ensures plan { IfOk result (λ plan. IfSome (V.told view.old).rows (λ c. PlansFound c key.now found (taking_outcome taking) plan)) }
    ensures reads { ReadsView (V.told view.old) (V.told view.new) result }
{
    let ranks = ranks_taken(alloc, view, key, found.life, taking)?;
    let plan = taking_plan(alloc, key, found, taking, ranks)?;
    Ok(plan)
}

/// The members that go of the life that is found at a key, lowest first.
///
/// The fault is one of the view, or want of memory. It leaves the view's rows as they are, as does an answer.
fn ranks_taken<V: RawView>(
    alloc: Global,
    view: &mut V,
    key: &Key,
    life: Option<LifeSight>,
    taking: Taking,
) -> Result<Ranks, StoreFault>
    requires version { HasVersionIn life }
    requires bounds { HasBounds taking }
    ensures ranks { IfOk result (λ ranks. IfSome (V.told view.old).rows (λ c. map scored_of ranks ≡ ranks_taken c key.now taking life)) }
    ensures reads { ReadsView (V.told view.old) (V.told view.new) result }
{
    let Some(life) = life else {
        return Ok(Ranks::new(alloc));
    };
    let span = span_of(taking, life.size);
    let ranks = ranks_between(
        alloc, view, key, life, span.low, span.high, span.skip, span.count,
    )?;
    Ok(ranks)
}

/// Where the members that go stand, of so many.
fn span_of(taking: Taking, size: u64) -> TakenSpan
    requires bounds { HasBounds taking }
    ensures span { result ≡ span_of taking size }
    ensures low { IsBound result.low }
    ensures high { IsBound result.high }
{
    match taking {
        Taking::Lowest(count) => by_place(0, count),
        Taking::Highest(count) => by_place(size.saturating_sub(count), count),
        Taking::Places(first, last) => {
            let from = start_at(size, first);
            by_place(from, end_at(size, last).saturating_sub(from))
        }
        Taking::Within(low, high) => TakenSpan {
            low,
            high,
            skip: 0,
            count: size,
        },
    }
}

/// So many members from a place on.
fn by_place(skip: u64, count: u64) -> TakenSpan
    ensures { result ≡ by_place skip count }
{
    TakenSpan {
        low: Bound::Least,
        high: Bound::Greatest,
        skip,
        count,
    }
}

/// The plan that takes these members away, by what was found, and the answer.
///
/// Want of memory also stands for a member or a score that no command can have written.
fn taking_plan(
    alloc: Global,
    key: &Key,
    found: LifeFound,
    taking: Taking,
    ranks: Ranks,
) -> Result<Plan, NoMem>
    requires found { IsScoresFound found key.now }
    ensures { IfOk result (λ plan. TakesMembers key.now found taking (map scored_of ranks) plan) }
{
    let scorings = all_leaving(alloc, ranks.as_slice())?;
    let scorings = scorings.as_slice();
    match taking {
        Taking::Lowest(_) => {
            let reply = told(alloc, ranks, true)?;
            scoring_plan(alloc, key, found, scorings, reply)
        }
        Taking::Highest(_) => {
            let reply = told_back(alloc, ranks, true)?;
            scoring_plan(alloc, key, found, scorings, reply)
        }
        Taking::Places(_, _) | Taking::Within(_, _) => removing_plan(alloc, key, found, scorings),
    }
}

/// What becomes of members that go.
fn all_leaving(alloc: Global, ranks: &[Ranked]) -> Result<Vec<Scoring>, NoMem>
    ensures scorings { IfOk result (λ scorings. scorings.items ≡ map scored_leaving (map scored_of ranks.now)) }
    ensures stand { IfOk result (λ scorings. AllStand scorings.items) }
{
    let mut scorings = Vec::new(alloc);
    for rank in ranks {
        let scoring = scored_leaving(alloc, rank)?;
        scorings.push(scoring)?;
    }
    Ok(scorings)
}

/// What becomes of one of them. No command writes a member or a score that is out of its range.
fn scored_leaving(alloc: Global, rank: &Ranked) -> Result<Scoring, NoMem>
    ensures leaving { IfOk result (λ scoring. scoring ≡ scored_leaving (scored_of rank.now)) }
    ensures stands { IfOk result CanStand }
{
    if rank.member.bytes().len() > MAX_KEY || !is_score(rank.score) {
        return Err(NoMem);
    }
    Ok(Scoring {
        member: rank.member.try_copy(alloc)?,
        before: Some(rank.score),
        after: None,
    })
}
