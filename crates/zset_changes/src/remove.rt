//! ZREM's members, one after the other.

ghost use Rattle.std.specs.Prelude.{◌≡◌, All, IfOk, IfSome, OnOk, ℤ};
ghost use Rattle.kv_base.specs.Map.{Map};
ghost use Rattle.lives_model.specs.Views.{ReadsView};
ghost use Rattle.plan_base.specs.Lives.{HasVersionIn};
ghost use Rattle.redis_model.specs.Limits.{IsName};
ghost use Rattle.zset_changes.specs.SeenScores.{TellsScores};
ghost use Rattle.zset_changes.specs.ScoreTables.{AllStand, IsScoreTable, Removes, TakesMember, track_in, tracks_in};

use crate::add::track_in;
use crate::table::{ScoreTable, Track};
use kv_base::{Blob, Key, StoreFault};
use lives_model::RawView;
use plan_base::LifeSight;
use std::alloc::Global;
use zset_plans::Scoring;

/// What becomes of the scores of members in the life that is found at a key where these go. At most one row is looked up for
/// each member, whatever the size of the sorted set.
///
/// The fault is one of the view, or want of memory. It leaves the view's rows as they are, as does an answer.
pub fn remove_members<V: RawView>(
    alloc: Global,
    view: &mut V,
    key: &Key,
    life: Option<LifeSight>,
    members: &[Blob],
) -> Result<Vec<Scoring>, StoreFault>
    requires version { HasVersionIn life }
    requires members { All IsName members.now }
    ensures removes { IfOk result (λ scorings. IfSome (V.told view.old).rows
        (λ c. (z : Map ℤ) → TellsScores c key.now life z → Removes z members.now scorings.items)) }
    ensures stand { IfOk result (λ scorings. AllStand scorings.items) }
    ensures reads { ReadsView (V.told view.old) (V.told view.new) result }
{
    let mut table = ScoreTable::new(alloc);
    for member in members {
        remove_member(alloc, view, key, life, member, &mut table)?;
    }
    let scorings = table.into_scorings(alloc)?;
    Ok(scorings)
}

/// One member more. After a fault what was tracked is unknown.
fn remove_member<V: RawView>(
    alloc: Global,
    view: &mut V,
    key: &Key,
    life: Option<LifeSight>,
    member: &Blob,
    table: &mut ScoreTable,
) -> Result<(), StoreFault>
    requires version { HasVersionIn life }
    requires member { IsName member.now }
    requires table { IsScoreTable (tracks_in table.old) }
    ensures takes { OnOk result (IfSome (V.told view.old).rows
        (λ c. TakesMember member.now (track_in c key.now life (tracks_in table.old) member.now) (tracks_in table.old) (tracks_in table.new))) }
    ensures table { OnOk result (IsScoreTable (tracks_in table.new)) }
    ensures reads { ReadsView (V.told view.old) (V.told view.new) result }
{
    let track = track_in(alloc, view, key, life, table, member)?;
    if track.now.is_none() {
        return Ok(());
    }
    let track = Track {
        before: track.before,
        now: None,
    };
    table.set(member.try_copy(alloc)?, track)?;
    Ok(())
}
