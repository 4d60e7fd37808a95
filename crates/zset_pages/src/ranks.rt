//! The members of a sorted set between two places, or between two bounds.

ghost use Rattle.std.specs.Prelude.{◌≡◌, IfOk, IfSome, IsTrue, Some, drop, map, take};
ghost use Rattle.kv_base.specs.RawKeys.{is_version};
ghost use Rattle.redis_model.specs.Limits.{IsBound};
ghost use Rattle.lives_model.specs.Views.{ReadsView};
ghost use Rattle.zset_pages.specs.Ranks.{ranks_between, ranks_in, scored_of};

use crate::range::bound_range;
use crate::walk::{RankWalk, walk_ranks};
use kv_base::{Blob, Items, Key, StoreFault};
use lives_model::RawView;
use plan_base::LifeSight;
use redis_model::Bound;
use std::alloc::Global;

/// A member of a sorted set and its score.
#[derive(Debug, Drop)]
pub struct Ranked {
    pub member: Blob,
    pub score: i64,
}

/// A list of members.
pub type Ranks = Items<Ranked>;

/// The members of a life from a place on, counted from the lowest: so many as `count` says, or all where there are fewer. The
/// rows ahead of them are asked for too, in pages, and not kept.
///
/// The fault is one of the view, or want of memory. It leaves the view's rows as they are, as does an answer.
pub fn ranks_at<V: RawView>(
    alloc: Global,
    view: &mut V,
    key: &Key,
    life: LifeSight,
    start: u64,
    count: u64,
) -> Result<Ranks, StoreFault>
    requires version { IsTrue (is_version life.version) }
    ensures ranks { IfOk result (λ ranks. IfSome (V.told view.old).rows (λ c. map scored_of ranks ≡ take count (drop start (ranks_in c key.now (Some life))))) }
    ensures reads { ReadsView (V.told view.old) (V.told view.new) result }
{
    let ranks = ranks_between(
        alloc,
        view,
        key,
        life,
        Bound::Least,
        Bound::Greatest,
        start,
        count,
    )?;
    Ok(ranks)
}

/// The members of a life between two bounds, lowest first: `skip` of them are passed over, and then so many follow as `count`
/// says, or all where there are fewer. Rows are asked for in pages, from the lower bound on, and not beyond a page that reaches
/// over the upper one or has enough.
///
/// The fault is one of the view, or want of memory. It leaves the view's rows as they are, as does an answer.
#[tactic(auto, using(lives_model::specs::ViewLaws::reading, crate::proofs::Parts::found_is))]
pub fn ranks_between<V: RawView>(
    alloc: Global,
    view: &mut V,
    key: &Key,
    life: LifeSight,
    low: Bound,
    high: Bound,
    skip: u64,
    count: u64,
) -> Result<Ranks, StoreFault>
    requires version { IsTrue (is_version life.version) }
    requires low { IsBound low }
    requires high { IsBound high }
    ensures ranks { IfOk result (λ ranks. IfSome (V.told view.old).rows (λ c. map scored_of ranks ≡ take count (drop skip (ranks_between c key.now life low high)))) }
    ensures reads { ReadsView (V.told view.old) (V.told view.new) result }
{
    if count == 0 {
        return Ok(Ranks::new(alloc));
    }
    let range = bound_range(alloc, key, life.version, low, high)?;
    let walk = walk_ranks(alloc, view, key, &range, skip as usize, count as usize)?;
    Ok(found_by(walk))
}

fn found_by(walk: RankWalk) -> Ranks
    ensures { result ≡ walk.found }
{
    let RankWalk { found, .. } = walk;
    found
}
