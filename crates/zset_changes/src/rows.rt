//! The rows on both sides of a sorted set that come and go with scorings.

ghost use Rattle.std.specs.Prelude.{◌≡◌, ◌<◌, ◌≤◌, ◌+◌, ◌-◌, ◌^◌, [], IfOk, IfSome, OnOk, IsTrue, None, Some, length, if◌then◌else◌, option_map};
ghost use Rattle.kv_base.specs.Map as table;
ghost use Rattle.kv_base.specs.RawKeys.{is_version};
ghost use Rattle.lives_model.specs.Means.{score_text};
ghost use Rattle.lives_model.specs.Rows.{Elements, row_key};
ghost use Rattle.redis_model.specs.Limits.{IsName, IsWholeScore};
ghost use Rattle.zset_plans.specs.Scorings.{coming, going, is_coming, is_going, same_score, scored_rows, with_rank};
ghost use Rattle.zset_changes.specs.ScoreTables.{AllStand, CanStand};
ghost use Rattle.zset_changes.specs.ScoreRows.{TakesScoring};

use batch_codec::BatchBuilder;
use kv_base::{Blob, Key, NoMem};
use life_changes::LifeChange;
use plan_base::element_key;
use std::alloc::Global;
use subkey_codec::{score_key, score_value};
use zset_plans::Scoring;

/// The rows of scorings so far.
#[derive(Drop)]
pub(crate) struct ScoringRows {
    pub rows: BatchBuilder,
    pub added: u64,
    pub removed: u64,
}

/// What scorings change of the rows of a life: the score of each member whose score changes, the row under the score that it had, and
/// the one under the score that it is to have.
pub fn scoring_rows(
    alloc: Global,
    key: &Key,
    version: u64,
    scorings: &[Scoring],
) -> Result<LifeChange, NoMem>
    requires key { IsName key.now }
    requires version { IsTrue (is_version version) }
    requires stand { AllStand scorings.now }
    ensures rows { IfOk result (λ change. change.rows ≡ scored_rows key.now version scorings.now) }
    ensures added { IfOk result (λ change. change.added ≡ coming scorings.now) }
    ensures removed { IfOk result (λ change. change.removed ≡ going scorings.now) }
    ensures few { IfOk result (λ change. change.added + change.removed ≤ length scorings.now) }
{
    let mut now = ScoringRows {
        rows: BatchBuilder::new(alloc),
        added: 0,
        removed: 0,
    };
    for scoring in scorings {
        take_scoring(alloc, key, version, scoring, &mut now)?;
    }
    finish(now)
}

/// The change, of the rows so far.
fn finish(now: ScoringRows) -> Result<LifeChange, NoMem>
    ensures rows { IfOk result (λ change. change.rows ≡ now.rows) }
    ensures added { IfOk result (λ change. change.added ≡ now.added) }
    ensures removed { IfOk result (λ change. change.removed ≡ now.removed) }
{
    let ScoringRows {
        rows,
        added,
        removed,
    } = now;
    let rows = rows.build()?;
    Ok(LifeChange {
        rows,
        added,
        removed,
    })
}

/// One scoring more. After an error what was taken in is unknown.
fn take_scoring(
    alloc: Global,
    key: &Key,
    version: u64,
    scoring: &Scoring,
    now: &mut ScoringRows,
) -> Result<(), NoMem>
    requires key { IsName key.now }
    requires version { IsTrue (is_version version) }
    requires stands { CanStand scoring.now }
    requires few { now.old.added + now.old.removed < 2 ^ 64 - 1 }
    ensures takes { OnOk result (TakesScoring key.now version scoring.now now.old now.new) }
    ensures few { OnOk result (now.new.added + now.new.removed ≤ now.old.added + now.old.removed + 1) }
{
    let Scoring {
        member,
        before,
        after,
    } = scoring;
    now.added += one_where(after.is_some() && before.is_none());
    now.removed += one_where(after.is_none() && before.is_some());
    if same_score(*before, *after) {
        return Ok(());
    }
    put_score(alloc, &mut now.rows, key, version, member.bytes(), *after)?;
    put_rank(
        alloc,
        &mut now.rows,
        key,
        version,
        member.bytes(),
        *before,
        false,
    )?;
    put_rank(
        alloc,
        &mut now.rows,
        key,
        version,
        member.bytes(),
        *after,
        true,
    )
}

fn one_where(test: bool) -> u64
    ensures { result ≡ (if test then 1 else 0) }
{
    if test { 1 } else { 0 }
}

/// Are they the same score, or is there none both times?
fn same_score(score: Option<i64>, other: Option<i64>) -> bool
    ensures { result ≡ same_score score other }
{
    match (score, other) {
        (None, None) => true,
        (Some(score), Some(other)) => score == other,
        _ => false,
    }
}

/// Puts the score of a member, or the delete. On an error the batch is as before.
#[tactic(auto, using(plan_base::specs::KeyLimitLaws::name_is_key, crate::proofs::Values::score_value_fits))]
fn put_score(
    alloc: Global,
    rows: &mut BatchBuilder,
    key: &Key,
    version: u64,
    member: &[u8],
    score: Option<i64>,
) -> Result<(), NoMem>
    requires key { IsName key.now }
    requires version { IsTrue (is_version version) }
    requires member { IsName member.now }
    ensures { OnOk result (rows.new ≡ table.insert rows.old (row_key Elements key.now version member.now) (option_map score_text score)) }
{
    let raw = element_key(alloc, key, version, member)?;
    match score {
        Some(score) => rows.put(raw, score_value(alloc, score)?),
        None => rows.delete(raw),
    }
}

/// Puts the row of a member under a score where `there` holds, and else the delete. On an error the batch is as before.
#[tactic(auto, using(plan_base::specs::KeyLimitLaws::name_is_key, crate::proofs::Values::range_is, crate::proofs::Values::rank_fits, crate::proofs::Values::rank_key_is))]
fn put_rank(
    alloc: Global,
    rows: &mut BatchBuilder,
    key: &Key,
    version: u64,
    member: &[u8],
    score: Option<i64>,
    there: bool,
) -> Result<(), NoMem>
    requires key { IsName key.now }
    requires version { IsTrue (is_version version) }
    requires member { IsName member.now }
    requires score { IfSome score IsWholeScore }
    ensures { OnOk result (rows.new ≡ with_rank key.now version member.now score (if there then Some [] else None) rows.old) }
{
    let Some(score) = score else {
        return Ok(());
    };
    let raw = score_key(alloc, key, version, score, member)?;
    if there {
        return rows.put(raw, Blob::from_vec(Vec::new(alloc)));
    }
    rows.delete(raw)
}
