//! How many members of a sorted set stand between two bounds, ahead of a member, or from it on.

ghost use Rattle.std.specs.Prelude.{◌≡◌, ◌≤◌, IfOk, IfSome, IsTrue, length, take};
ghost use Rattle.kv_base.specs.RawKeys.{is_version};
ghost use Rattle.redis_model.specs.Limits.{IsBound};
ghost use Rattle.lives_model.specs.Views.{ReadsView};
ghost use Rattle.zset_pages.specs.Ranks.{number_ahead, number_between, number_from, rows_between};

use crate::range::{RankRange, bound_range, range_ahead, range_from};
use crate::walk::walk_ranks;
use kv_base::{Key, StoreFault};
use lives_model::RawView;
use plan_base::LifeSight;
use redis_model::Bound;
use std::alloc::Global;

/// How many members of a life stand between two bounds. Their rows are asked for in pages, and not kept.
///
/// The fault is one of the view, or want of memory. It leaves the view's rows as they are, as does an answer.
#[tactic(auto, using(lives_model::specs::ViewLaws::reading, crate::proofs::Parts::as_many))]
pub fn count_between<V: RawView>(
    alloc: Global,
    view: &mut V,
    key: &Key,
    life: LifeSight,
    low: Bound,
    high: Bound,
) -> Result<u64, StoreFault>
    requires version { IsTrue (is_version life.version) }
    requires low { IsBound low }
    requires high { IsBound high }
    ensures number { IfOk result (λ number. IfSome (V.told view.old).rows (λ c. number ≡ number_between c key.now life low high)) }
    ensures few { IfOk result (λ number. number ≤ life.size) }
    ensures reads { ReadsView (V.told view.old) (V.told view.new) result }
{
    let range = bound_range(alloc, key, life.version, low, high)?;
    let number = count_rows(alloc, view, key, &range, life.size)?;
    Ok(number)
}

/// How many members of a life stand ahead of one. Their rows are asked for in pages, and not kept.
///
/// The fault is one of the view, or want of memory. It leaves the view's rows as they are, as does an answer.
pub fn count_ahead<V: RawView>(
    alloc: Global,
    view: &mut V,
    key: &Key,
    life: LifeSight,
    member: &[u8],
    score: i64,
) -> Result<u64, StoreFault>
    requires version { IsTrue (is_version life.version) }
    ensures number { IfOk result (λ number. IfSome (V.told view.old).rows (λ c. number ≡ number_ahead c key.now life (member.now, score))) }
    ensures few { IfOk result (λ number. number ≤ life.size) }
    ensures reads { ReadsView (V.told view.old) (V.told view.new) result }
{
    let range = range_ahead(alloc, key, life.version, member, score)?;
    let number = count_rows(alloc, view, key, &range, life.size)?;
    Ok(number)
}

/// How many members of a life stand from one on, itself among them. Their rows are asked for in pages, and not kept.
///
/// The fault is one of the view, or want of memory. It leaves the view's rows as they are, as does an answer.
pub fn count_from<V: RawView>(
    alloc: Global,
    view: &mut V,
    key: &Key,
    life: LifeSight,
    member: &[u8],
    score: i64,
) -> Result<u64, StoreFault>
    requires version { IsTrue (is_version life.version) }
    ensures number { IfOk result (λ number. IfSome (V.told view.old).rows (λ c. number ≡ number_from c key.now life (member.now, score))) }
    ensures few { IfOk result (λ number. number ≤ life.size) }
    ensures reads { ReadsView (V.told view.old) (V.told view.new) result }
{
    let range = range_from(alloc, key, life.version, member, score)?;
    let number = count_rows(alloc, view, key, &range, life.size)?;
    Ok(number)
}

/// How many rows are in a range, but no more than `most`: a walk passes over them.
#[tactic(auto, using(lives_model::specs::ViewLaws::reading, crate::proofs::Parts::passed_over))]
fn count_rows<V: RawView>(
    alloc: Global,
    view: &mut V,
    key: &Key,
    range: &RankRange,
    most: u64,
) -> Result<u64, StoreFault>
    ensures number { IfOk result (λ number. IfSome (V.told view.old).rows
        (λ c. number ≡ length (take most (rows_between c range.now.prefix range.now.from range.now.until)))) }
    ensures few { IfOk result (λ number. number ≤ most) }
    ensures reads { ReadsView (V.told view.old) (V.told view.new) result }
{
    let walk = walk_ranks(alloc, view, key, range, most as usize, 1)?;
    Ok(most - walk.skip as u64)
}
