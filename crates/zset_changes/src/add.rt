//! ZADD's pairs of a score and a member, one after the other.

ghost use Rattle.std.specs.Prelude.{◌≡◌, ◌≤◌, ◌<◌, ◌+◌, ◌-◌, ◌^◌, All, IfOk, IfSome, OnOk, Some, length, zip, ℤ};
ghost use Rattle.kv_base.specs.Map.{Map};
ghost use Rattle.lives_model.specs.Views.{ReadsView};
ghost use Rattle.plan_base.specs.Lives.{HasVersionIn};
ghost use Rattle.redis_model.specs.Limits.{IsName, IsWholeScore};
ghost use Rattle.redis_model.specs.Strings.{allowed};
ghost use Rattle.zset_plans.specs.Scorings.{same_score};
ghost use Rattle.zset_changes.specs.SeenScores.{TellsScores};
ghost use Rattle.zset_changes.specs.ScoreTables.{AddsScore, AllStand, IsScoreTable, SetsScores, sets_score, track_in, tracks_in, CanStand};

use crate::score::score_at;
use crate::table::{ScoreTable, Track};
use kv_base::{Blob, Key, StoreFault};
use lives_model::RawView;
use plan_base::LifeSight;
use redis_model::When;
use std::alloc::Global;
use zset_plans::Scoring;

/// What ZADD makes of the scores of members.
#[derive(Drop)]
pub struct ScoresAdded {
    /// What became of the members, each once.
    pub scorings: Vec<Scoring>,
    /// How many members were added.
    pub added: u64,
    /// How often a member that was there got another score.
    pub changed: u64,
}

/// The same of the pairs so far.
#[derive(Drop)]
pub(crate) struct Tally {
    pub table: ScoreTable,
    pub added: u64,
    pub changed: u64,
}

/// What ZADD without INCR makes of the scores of members in the life that is found at a key, pair by pair. At most one row is
/// looked up for each member, whatever the size of the sorted set.
///
/// The fault is one of the view, or want of memory. It leaves the view's rows as they are, as does an answer.
pub fn add_scores<V: RawView>(
    alloc: Global,
    view: &mut V,
    key: &Key,
    life: Option<LifeSight>,
    when: When,
    scores: &[i64],
    members: &[Blob],
) -> Result<ScoresAdded, StoreFault>
    requires version { HasVersionIn life }
    requires scores { All IsWholeScore scores.now }
    requires members { All IsName members.now }
    requires pairs { length scores.now ≡ length members.now }
    ensures sets { IfOk result (λ set. IfSome (V.told view.old).rows
        (λ c. (z : Map ℤ) → TellsScores c key.now life z → SetsScores when z (zip members.now scores.now) set)) }
    ensures stand { IfOk result (λ set. AllStand set.scorings.items) }
    ensures few { IfOk result (λ set. set.added + set.changed ≤ length members.now) }
    ensures reads { ReadsView (V.told view.old) (V.told view.new) result }
{
    let mut tally = Tally {
        table: ScoreTable::new(alloc),
        added: 0,
        changed: 0,
    };
    for (at, member) in members.iter().enumerate() {
        add_score(alloc, view, key, life, when, scores[at], member, &mut tally)?;
    }
    let Tally {
        table,
        added,
        changed,
    } = tally;
    let scorings = table.into_scorings(alloc)?;
    Ok(ScoresAdded {
        scorings,
        added,
        changed,
    })
}

/// One pair more. After a fault what was tallied is unknown.
fn add_score<V: RawView>(
    alloc: Global,
    view: &mut V,
    key: &Key,
    life: Option<LifeSight>,
    when: When,
    score: i64,
    member: &Blob,
    tally: &mut Tally,
) -> Result<(), StoreFault>
    requires version { HasVersionIn life }
    requires score { IsWholeScore score }
    requires member { IsName member.now }
    requires table { IsScoreTable (tracks_in tally.old.table) }
    requires few { tally.old.added + tally.old.changed < 2 ^ 64 - 1 }
    ensures adds { OnOk result (IfSome (V.told view.old).rows
        (λ c. AddsScore when member.now score (track_in c key.now life (tracks_in tally.old.table) member.now) tally.old tally.new)) }
    ensures table { OnOk result (IsScoreTable (tracks_in tally.new.table)) }
    ensures few { OnOk result (tally.new.added + tally.new.changed ≤ tally.old.added + tally.old.changed + 1) }
    ensures reads { ReadsView (V.told view.old) (V.told view.new) result }
{
    let track = track_in(alloc, view, key, life, &tally.table, member)?;
    if !sets_score(when, track.now, score) {
        return Ok(());
    }
    if track.now.is_some() {
        tally.changed += 1;
    } else {
        tally.added += 1;
    }
    let track = Track {
        before: track.before,
        now: Some(score),
    };
    tally.table.set(member.try_copy(alloc)?, track)?;
    Ok(())
}

/// The track of a member, which begins with the score in the life that is found.
///
/// The fault is one of the view, or want of memory. It leaves the view's rows as they are, as does an answer.
#[tactic(auto, using(lives_model::specs::ViewLaws::reading, crate::specs::ScoreTableLaws::track_stands))]
pub(crate) fn track_in<V: RawView>(
    alloc: Global,
    view: &mut V,
    key: &Key,
    life: Option<LifeSight>,
    table: &ScoreTable,
    member: &Blob,
) -> Result<Track, StoreFault>
    requires version { HasVersionIn life }
    requires member { IsName member.now }
    requires table { IsScoreTable (tracks_in table.now) }
    ensures track { IfOk result (λ track. IfSome (V.told view.old).rows (λ c. track ≡ track_in c key.now life (tracks_in table.now) member.now)) }
    ensures before { IfOk result (λ track. IfSome track.before IsWholeScore) }
    ensures reads { ReadsView (V.told view.old) (V.told view.new) result }
{
    if let Some(track) = table.track(member) {
        return Ok(track);
    }
    let score = score_at(alloc, view, key, life, member.bytes())?;
    Ok(Track {
        before: score,
        now: score,
    })
}

/// Does ZADD set this score where a member has that one?
fn sets_score(when: When, now: Option<i64>, score: i64) -> bool
    ensures { result ≡ sets_score when now score }
{
    allowed(when, now.is_some()) && !has_score(now, score)
}

fn has_score(now: Option<i64>, score: i64) -> bool
    ensures { result ≡ same_score now (Some score) }
{
    match now {
        None => false,
        Some(now) => now == score,
    }
}

/// Whether the options of ZADD allow it to set a member that is there, or one that is not.
pub fn allowed(when: When, there: bool) -> bool
    ensures { result ≡ allowed when there }
{
    match when {
        When::Any => true,
        When::IfAbsent => !there,
        When::IfPresent => there,
    }
}
