//! Walks over the members of a life by rank, in pages of rows.

ghost use Rattle.std.specs.Prelude.{◌≡◌, ◌<◌, ◌≤◌, ◌-◌, ◌&&◌, ◌==◌, ◌++◌, ◌∷◌, nat_lt, nat_le, List, [], IfOk, IfSome, OnOk, length, map, take};
ghost use Rattle.lives_model.specs.LiveRowLists.{pairs};
ghost use Rattle.lives_model.specs.Views.{ReadsView};
ghost use Rattle.zset_pages.specs.Ranks.{rows_between, scored_of};
ghost use Rattle.zset_pages.specs.RankWalks.{IsRankStart, TakesRanks, found_of};

use crate::page::{push_ranks, rows_ahead};
use crate::range::RankRange;
use crate::ranks::Ranks;
use kv_base::{Blob, Key, NoMem, StoreFault};
use lives_model::{LiveRow, RawView};
use std::alloc::Global;

/// How many rows are asked for together at most. It bounds the memory of one answer of the view.
const PAGE: usize = 1024;

/// A walk.
#[derive(Drop)]
pub(crate) struct RankWalk {
    /// The members that were found so far.
    pub(crate) found: Ranks,
    /// How many members are still to be passed over.
    pub(crate) skip: usize,
    /// How many are still to be found.
    left: usize,
    /// Where the next page begins.
    next: Blob,
    /// May there be a next page?
    more: bool,
}

/// The members of a key's life in a range, so many at most, once the first ones are passed over. Rows are asked for in pages,
/// and not beyond those that are wanted.
///
/// The fault is one of the view, or want of memory. It leaves the view's rows as they are, as does an answer.
pub(crate) fn walk_ranks<V: RawView>(
    alloc: Global,
    view: &mut V,
    key: &Key,
    range: &RankRange,
    skip: usize,
    count: usize,
) -> Result<RankWalk, StoreFault>
    requires { 0 < count }
    ensures found { IfOk result (λ walk. IfSome (V.told view.old).rows
        (λ c. map scored_of walk.found ≡ found_of key.now skip count (rows_between c range.now.prefix range.now.from range.now.until))) }
    ensures skipped { IfOk result (λ walk. IfSome (V.told view.old).rows
        (λ c. walk.skip ≡ skip - length (rows_between c range.now.prefix range.now.from range.now.until))) }
    ensures fewer { IfOk result (λ walk. walk.skip ≤ skip) }
    ensures reads { ReadsView (V.told view.old) (V.told view.new) result }
{
    let mut walk = start(alloc, &range.from, skip, count)?;
    while walk.more {
        let limit = page_limit(walk.skip, walk.left);
        let page = view.range(alloc, walk.next.bytes(), range.prefix.bytes(), limit)?;
        take_ranks(alloc, key, &range.until, page.as_slice(), limit, &mut walk)?;
    }
    Ok(walk)
}

/// A walk that begins at an edge.
fn start(alloc: Global, from: &Option<Blob>, skip: usize, count: usize) -> Result<RankWalk, NoMem>
    ensures { IfOk result (λ walk. IsRankStart from.now skip count walk) }
{
    let next = match from {
        None => Blob::copy(alloc, &[])?,
        Some(edge) => edge.try_copy(alloc)?,
    };
    Ok(RankWalk {
        found: Ranks::new(alloc),
        skip,
        left: count,
        next,
        more: from.is_some(),
    })
}

/// How many rows to ask for.
fn page_limit(skip: usize, left: usize) -> usize
    requires { 0 < left }
    ensures { 0 < result }
{
    skip.saturating_add(left).min(PAGE)
}

/// Adds what the rows of a page tell. A page that is not full, or that reaches beyond the range, is the last one, and so is
/// one with all that are wanted.
fn take_ranks(
    alloc: Global,
    key: &Key,
    until: &Option<Blob>,
    page: &[LiveRow],
    limit: usize,
    walk: &mut RankWalk,
) -> Result<(), NoMem>
    ensures { OnOk result (TakesRanks key.now until.now page.now limit walk.old walk.new) }
{
    let ahead = rows_ahead(page, until);
    find_ranks(alloc, key, page, ahead, walk)?;
    walk.more = may_go_on(walk.left, limit, page.len(), ahead);
    if walk.more {
        walk.next = behind_last(alloc, page)?;
    }
    Ok(())
}

/// Adds what the first rows of a page tell.
fn find_ranks(
    alloc: Global,
    key: &Key,
    page: &[LiveRow],
    ahead: usize,
    walk: &mut RankWalk,
) -> Result<(), NoMem>
    requires { ahead ≤ length page.now }
    ensures found { OnOk result (map scored_of walk.new.found ≡ map scored_of walk.old.found ++ found_of key.now walk.old.skip walk.old.left (take ahead (pairs page.now))) }
    ensures skip { OnOk result (walk.new.skip ≡ walk.old.skip - ahead) }
    ensures left { OnOk result (walk.new.left ≡ walk.old.left - (ahead - walk.old.skip)) }
{
    let from = walk.skip.min(ahead);
    let wanted = walk.left.min(ahead - from);
    push_ranks(alloc, key, &page[from..from + wanted], &mut walk.found)?;
    walk.skip -= from;
    walk.left -= wanted;
    Ok(())
}

/// May there be members on a next page, behind one of so many rows that are all wanted but for those behind the first ones?
fn may_go_on(left: usize, limit: usize, rows: usize, ahead: usize) -> bool
    ensures { result ≡ (nat_lt 0 left && (nat_le limit rows && (ahead == rows))) }
{
    0 < left && limit <= rows && ahead == rows
}

/// The least raw key above that of the last row, or no bytes where there is none.
fn behind_last(alloc: Global, rows: &[LiveRow]) -> Result<Blob, NoMem>
    ensures { IfOk result (λ next. (front : List LiveRow) (last : LiveRow) → rows.now ≡ front ++ last ∷ [] → next ≡ last.raw ++ 0 ∷ []) }
{
    let mut next = Vec::new(alloc);
    if let Some(at) = rows.len().checked_sub(1) {
        next.extend_from_slice(rows[at].raw.bytes())?;
        next.push(0)?;
    }
    Ok(Blob::from_vec(next))
}
