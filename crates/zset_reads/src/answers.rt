//! What is answered of members and scores.

ghost use Rattle.std.specs.Prelude.{◌≡◌, ◌++◌, IfOk, OnOk, map, reverse};
ghost use Rattle.redis_model.specs.Outcome.{score_bulk};
ghost use Rattle.redis_model.specs.SortedSets.{told};
ghost use Rattle.zset_pages.specs.Ranks.{scored_of};
ghost use Rattle.zset_reads.specs.ReadPlans.{member_parts};

use itoa::Buffer;
use kv_base::{Blob, NoMem};
use redis_model::{Replies, Reply};
use std::alloc::Global;
use zset_pages::{Ranked, Ranks};

/// The digits of a score.
pub fn score_bulk(alloc: Global, score: i64) -> Result<Reply, NoMem>
    ensures { IfOk result (λ reply. reply ≡ score_bulk score) }
{
    let mut buffer = Buffer::new();
    let digits = Blob::copy(alloc, buffer.format(score).as_bytes())?;
    Ok(Reply::Bulk(digits))
}

/// The members in their order, each followed by its score where that is asked.
pub fn told(alloc: Global, ranks: Ranks, scores: bool) -> Result<Reply, NoMem>
    ensures { IfOk result (λ reply. reply ≡ told scores (map scored_of ranks)) }
{
    let back = turned(alloc, ranks)?;
    told_back(alloc, back, scores)
}

/// The members from the last one to the first, each followed by its score where that is asked. They are moved into the answer.
#[tactic(auto, using(crate::proofs::Members::last_first))]
pub fn told_back(alloc: Global, mut ranks: Ranks, scores: bool) -> Result<Reply, NoMem>
    ensures { IfOk result (λ reply. reply ≡ told scores (reverse (map scored_of ranks))) }
{
    let mut parts = Replies::new(alloc);
    while let Some(rank) = ranks.pop() {
        push_rank(alloc, rank, scores, &mut parts)?;
    }
    Ok(Reply::Array(parts))
}

fn push_rank(alloc: Global, rank: Ranked, scores: bool, parts: &mut Replies) -> Result<(), NoMem>
    ensures { OnOk result (parts.new ≡ parts.old ++ member_parts scores (scored_of rank)) }
{
    let Ranked { member, score } = rank;
    parts.push(Reply::Bulk(member))?;
    if scores {
        let digits = score_bulk(alloc, score)?;
        parts.push(digits)?;
    }
    Ok(())
}

/// The members from the last one to the first.
fn turned(alloc: Global, mut ranks: Ranks) -> Result<Ranks, NoMem>
    ensures { IfOk result (λ turned. turned ≡ reverse ranks) }
{
    let mut turned = Ranks::new(alloc);
    while let Some(rank) = ranks.pop() {
        turned.push(rank)?;
    }
    Ok(turned)
}
