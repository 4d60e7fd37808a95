//! Ranges of members by rank, and the raw keys at their edges.

ghost use Rattle.std.specs.Prelude.{◌≡◌, ◌++◌, IfOk, IsTrue, None, Some};
ghost use Rattle.kv_base.specs.RawKeys.{is_version};
ghost use Rattle.redis_model.specs.Limits.{IsBound};
ghost use Rattle.zset_pages.specs.Ranks.{high_edge, low_edge, rank_edge, ranks_prefix};

use kv_base::{Blob, Key, NoMem};
use redis_model::Bound;
use std::alloc::Global;
use subkey_codec::{SCORES, life_prefix, score_value};

/// Where a walk goes.
#[derive(Drop)]
pub(crate) struct RankRange {
    /// What the raw keys begin with.
    pub(crate) prefix: Blob,
    /// The raw key that it begins at, or none, which is behind all.
    pub(crate) from: Option<Blob>,
    /// The raw key that it ends ahead of, or none, which is behind all.
    pub(crate) until: Option<Blob>,
}

/// The range between two bounds.
pub(crate) fn bound_range(
    alloc: Global,
    key: &Key,
    version: u64,
    low: Bound,
    high: Bound,
) -> Result<RankRange, NoMem>
    requires version { IsTrue (is_version version) }
    requires low { IsBound low }
    requires high { IsBound high }
    ensures prefix { IfOk result (λ range. range.prefix ≡ ranks_prefix key.now version) }
    ensures from { IfOk result (λ range. range.from ≡ low_edge (ranks_prefix key.now version) low) }
    ensures until { IfOk result (λ range. range.until ≡ high_edge (ranks_prefix key.now version) high) }
{
    let prefix = life_prefix(alloc, SCORES, key, version)?;
    let from = low_edge(alloc, prefix.bytes(), low)?;
    let until = high_edge(alloc, prefix.bytes(), high)?;
    Ok(RankRange {
        prefix,
        from,
        until,
    })
}

/// The range of what stands ahead of a member.
pub(crate) fn range_ahead(
    alloc: Global,
    key: &Key,
    version: u64,
    member: &[u8],
    score: i64,
) -> Result<RankRange, NoMem>
    requires version { IsTrue (is_version version) }
    ensures prefix { IfOk result (λ range. range.prefix ≡ ranks_prefix key.now version) }
    ensures from { IfOk result (λ range. range.from ≡ Some (ranks_prefix key.now version)) }
    ensures until { IfOk result (λ range. range.until ≡ rank_edge (ranks_prefix key.now version) (member.now, score)) }
{
    let prefix = life_prefix(alloc, SCORES, key, version)?;
    let from = prefix.try_copy(alloc)?;
    let until = rank_edge(alloc, prefix.bytes(), member, score)?;
    Ok(RankRange {
        prefix,
        from: Some(from),
        until: Some(until),
    })
}

/// The range of a member and what stands behind it.
pub(crate) fn range_from(
    alloc: Global,
    key: &Key,
    version: u64,
    member: &[u8],
    score: i64,
) -> Result<RankRange, NoMem>
    requires version { IsTrue (is_version version) }
    ensures prefix { IfOk result (λ range. range.prefix ≡ ranks_prefix key.now version) }
    ensures from { IfOk result (λ range. range.from ≡ rank_edge (ranks_prefix key.now version) (member.now, score)) }
    ensures until { IfOk result (λ range. range.until ≡ None) }
{
    let prefix = life_prefix(alloc, SCORES, key, version)?;
    let from = rank_edge(alloc, prefix.bytes(), member, score)?;
    Ok(RankRange {
        prefix,
        from: Some(from),
        until: None,
    })
}

/// Where the members begin that are within a lower bound, or none where no member is.
fn low_edge(alloc: Global, prefix: &[u8], bound: Bound) -> Result<Option<Blob>, NoMem>
    requires { IsBound bound }
    ensures { IfOk result (λ edge. edge ≡ low_edge prefix.now bound) }
{
    let edge = match bound {
        Bound::Least => Blob::copy(alloc, prefix)?,
        Bound::Greatest => return Ok(None),
        Bound::Closed(score) => rank_edge(alloc, prefix, &[], score)?,
        Bound::Past(score) => rank_edge(alloc, prefix, &[], score + 1)?,
    };
    Ok(Some(edge))
}

/// Where the members have ended that are within an upper bound, or none where all are.
fn high_edge(alloc: Global, prefix: &[u8], bound: Bound) -> Result<Option<Blob>, NoMem>
    requires { IsBound bound }
    ensures { IfOk result (λ edge. edge ≡ high_edge prefix.now bound) }
{
    match bound {
        Bound::Closed(score) => low_edge(alloc, prefix, Bound::Past(score)),
        Bound::Past(score) => low_edge(alloc, prefix, Bound::Closed(score)),
        Bound::Least | Bound::Greatest => low_edge(alloc, prefix, bound),
    }
}

/// Where a member with a score stands under a prefix: behind the score in eight bytes.
fn rank_edge(alloc: Global, prefix: &[u8], member: &[u8], score: i64) -> Result<Blob, NoMem>
    ensures { IfOk result (λ edge. Some edge ≡ rank_edge prefix.now (member.now, score)) }
{
    let score = score_value(alloc, score)?;
    let mut edge = Vec::new(alloc);
    edge.extend_from_slice(prefix)?;
    edge.extend_from_slice(score.bytes())?;
    edge.extend_from_slice(member)?;
    Ok(Blob::from_vec(edge))
}
