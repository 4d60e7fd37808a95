//! ZADD and ZINCRBY.

ghost use Rattle.std.specs.Prelude.{◌≡◌, All, IfOk, IfSome, IsTrue, Ok, ◌+◌, ◌<◌, ◌^◌, if◌then◌else◌, length, pos, zip};
ghost use Rattle.kv_base.specs.RawKeys.{is_version};
ghost use Rattle.redis_model.specs.Limits.{IsName, IsWholeScore};
ghost use Rattle.redis_model.specs.Outcome.{number};
ghost use Rattle.redis_model.specs.SortedSets.{all_raised, all_set, counted, raise_score, score_after, score_raised, set_scores};
ghost use Rattle.lives_model.specs.Views.{ReadsView};
ghost use Rattle.zset_plans.specs.ScorePlans.{PlansScores};
ghost use Rattle.zset_changes.specs.Founds.{IsScoresFound};
ghost use Rattle.zset_cmds.specs.Planned.{PlansFound, RaisesScore};

use crate::found::find_scores;
use kv_base::{Blob, Key, NoMem, StoreFault};
use life_changes::LifeFound;
use lives_model::{Plan, RawView};
use plan_base::answering;
use redis_model::{Reply, ReplyError, When, ZAddHow};
use std::alloc::Global;
use zset_changes::{ScoresAdded, add_scores, allowed, is_score, score_at, scoring_plan};
use zset_plans::Scoring;
use zset_reads::score_bulk;

/// ZADD. At most one row is looked up for each member, whatever the size of the sorted set.
///
/// The fault is one of the view, or want of memory. It leaves the view's rows as they are, as does an answer.
pub(crate) fn z_add<V: RawView>(
    alloc: Global,
    view: &mut V,
    moment: u64,
    fresh: u64,
    key: &Key,
    scores: &[i64],
    members: &[Blob],
    how: ZAddHow,
) -> Result<Plan, StoreFault>
    requires fresh { IsTrue (is_version fresh) }
    requires key { IsName key.now }
    requires scores { All IsWholeScore scores.now }
    requires members { All IsName members.now }
    requires pairs { length scores.now ≡ length members.now }
    ensures plan { IfOk result (λ plan. IfSome (V.told view.old).rows (λ c. PlansScores c moment key.now fresh (set_scores scores.now members.now how) plan)) }
    ensures reads { ReadsView (V.told view.old) (V.told view.new) result }
{
    let found = match find_scores(alloc, view, moment, fresh, key)? {
        Ok(found) => found,
        Err(plan) => return Ok(plan),
    };
    if how.incr {
        let plan = raise_first(alloc, view, key, found, how.when, scores, members)?;
        return Ok(plan);
    }
    let plan = add_all(alloc, view, key, found, how, scores, members)?;
    Ok(plan)
}

/// The plan of ZADD without INCR, by what was found.
///
/// The fault is one of the view, or want of memory. It leaves the view's rows as they are, as does an answer.
fn add_all<V: RawView>(
    alloc: Global,
    view: &mut V,
    key: &Key,
    found: LifeFound,
    how: ZAddHow,
    scores: &[i64],
    members: &[Blob],
) -> Result<Plan, StoreFault>
    requires found { IsScoresFound found key.now }
    requires scores { All IsWholeScore scores.now }
    requires members { All IsName members.now }
    requires pairs { length scores.now ≡ length members.now }
    ensures plan { IfOk result (λ plan. IfSome (V.told view.old).rows
        (λ c. PlansFound c key.now found (λ z. let n = all_set how.when z (zip members.now scores.now) in Ok (number (counted how.changed n), n.scores)) plan)) }
    ensures reads { ReadsView (V.told view.old) (V.told view.new) result }
{
    let set = add_scores(alloc, view, key, found.life, how.when, scores, members)?;
    let count = counted(&set, how.changed);
    let plan = scoring_plan(
        alloc,
        key,
        found,
        set.scorings.as_slice(),
        Reply::Int(count),
    )?;
    Ok(plan)
}

/// How many members were added, and with CH how many changed their score, too.
fn counted(set: &ScoresAdded, changed: bool) -> i64
    requires few { set.now.added + set.now.changed < 2 ^ 63 }
    ensures { result ≡ pos (if changed then set.now.added + set.now.changed else set.now.added) }
{
    if changed {
        return (set.added + set.changed) as i64;
    }
    set.added as i64
}

/// The plan of ZADD with INCR, by what was found: there is one pair.
///
/// The fault is one of the view, or want of memory. It leaves the view's rows as they are, as does an answer.
fn raise_first<V: RawView>(
    alloc: Global,
    view: &mut V,
    key: &Key,
    found: LifeFound,
    when: When,
    scores: &[i64],
    members: &[Blob],
) -> Result<Plan, StoreFault>
    requires found { IsScoresFound found key.now }
    requires scores { All IsWholeScore scores.now }
    requires members { All IsName members.now }
    requires pairs { length scores.now ≡ length members.now }
    ensures plan { IfOk result (λ plan. IfSome (V.told view.old).rows
        (λ c. PlansFound c key.now found (λ z. all_raised when z (zip members.now scores.now)) plan)) }
    ensures reads { ReadsView (V.told view.old) (V.told view.new) result }
{
    if members.is_empty() {
        let none = Vec::new(alloc);
        let plan = scoring_plan(alloc, key, found, none.as_slice(), Reply::Null)?;
        return Ok(plan);
    }
    let plan = raise(alloc, view, key, found, when, scores[0], &members[0])?;
    Ok(plan)
}

/// ZINCRBY. At most one row is looked up beside the metadata, whatever the size of the sorted set.
///
/// The fault is one of the view, or want of memory. It leaves the view's rows as they are, as does an answer.
pub(crate) fn z_incr_by<V: RawView>(
    alloc: Global,
    view: &mut V,
    moment: u64,
    fresh: u64,
    key: &Key,
    score: i64,
    member: &Blob,
) -> Result<Plan, StoreFault>
    requires fresh { IsTrue (is_version fresh) }
    requires key { IsName key.now }
    requires score { IsWholeScore score }
    requires member { IsName member.now }
    ensures plan { IfOk result (λ plan. IfSome (V.told view.old).rows (λ c. PlansScores c moment key.now fresh (raise_score score member.now) plan)) }
    ensures reads { ReadsView (V.told view.old) (V.told view.new) result }
{
    let found = match find_scores(alloc, view, moment, fresh, key)? {
        Ok(found) => found,
        Err(plan) => return Ok(plan),
    };
    let plan = raise(alloc, view, key, found, When::Any, score, member)?;
    Ok(plan)
}

/// The plan that raises the score of a member, by what was found.
///
/// The fault is one of the view, or want of memory. It leaves the view's rows as they are, as does an answer.
fn raise<V: RawView>(
    alloc: Global,
    view: &mut V,
    key: &Key,
    found: LifeFound,
    when: When,
    score: i64,
    member: &Blob,
) -> Result<Plan, StoreFault>
    requires found { IsScoresFound found key.now }
    requires score { IsWholeScore score }
    requires member { IsName member.now }
    ensures plan { IfOk result (λ plan. IfSome (V.told view.old).rows (λ c. PlansFound c key.now found (λ z. score_raised when z (member.now, score)) plan)) }
    ensures reads { ReadsView (V.told view.old) (V.told view.new) result }
{
    let before = score_at(alloc, view, key, found.life, member.bytes())?;
    let plan = raised(alloc, key, found, when, before, score, member)?;
    Ok(plan)
}

/// The plan that raises the score that a member has. Where the options do not allow it null is answered, and a score out of its range is
/// an error.
fn raised(
    alloc: Global,
    key: &Key,
    found: LifeFound,
    when: When,
    before: Option<i64>,
    score: i64,
    member: &Blob,
) -> Result<Plan, NoMem>
    requires found { IsScoresFound found key.now }
    requires before { IfSome before IsWholeScore }
    requires score { IsWholeScore score }
    requires member { IsName member.now }
    ensures { IfOk result (λ plan. RaisesScore key.now found when member.now score before plan) }
{
    let mut scorings = Vec::new(alloc);
    if !allowed(when, before.is_some()) {
        return scoring_plan(alloc, key, found, scorings.as_slice(), Reply::Null);
    }
    let after = score_after(before, score);
    if !is_score(after) {
        let error = Reply::Error(ReplyError::ScoreRange);
        return Ok(answering(alloc, found.moment, found.old, error));
    }
    scorings.push(Scoring {
        member: member.try_copy(alloc)?,
        before,
        after: Some(after),
    })?;
    let reply = score_bulk(alloc, after)?;
    scoring_plan(alloc, key, found, scorings.as_slice(), reply)
}

/// A score that goes up, from 0 where there is none.
fn score_after(before: Option<i64>, score: i64) -> i64
    requires before { IfSome before IsWholeScore }
    requires score { IsWholeScore score }
    ensures { result ≡ score_after before score }
{
    match before {
        None => score,
        Some(before) => before + score,
    }
}
