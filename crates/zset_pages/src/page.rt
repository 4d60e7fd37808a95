//! What a walk finds on a page.

ghost use Rattle.std.specs.Prelude.{◌≡◌, ◌<◌, ◌≤◌, ◌^◌, ◌++◌, ◌∷◌, List, [], IfOk, OnOk, length, map, option_map};
ghost use Rattle.lives_model.specs.LiveRowLists.{pairs};
ghost use Rattle.zset_pages.specs.Ranks.{is_ahead_of, rank_in, rows_ahead, scored_in, scored_of};

use crate::ranks::{Ranked, Ranks};
use kv_base::{Blob, Key, NoMem};
use life_pages::subkey_of;
use lives_model::LiveRow;
use std::alloc::Global;
use subkey_codec::decode_score;

/// How many bytes a score has in a raw key.
const SCORE: usize = 8;

/// How many rows stand ahead of an edge, from the first one on.
pub(crate) fn rows_ahead(rows: &[LiveRow], until: &Option<Blob>) -> usize
    ensures ahead { result ≡ length (rows_ahead until.now (pairs rows.now)) }
    ensures within { result ≤ length rows.now }
{
    let mut ahead = 0;
    while ahead < rows.len() && is_ahead_of(rows[ahead].raw.bytes(), until) {
        ahead += 1;
    }
    ahead
}

fn is_ahead_of(raw: &[u8], until: &Option<Blob>) -> bool
    ensures { result ≡ is_ahead_of until.now raw.now }
{
    match until {
        None => true,
        Some(edge) => raw.cmp(edge.bytes()).is_lt(),
    }
}

/// The members that rows tell are found.
pub(crate) fn push_ranks(
    alloc: Global,
    key: &Key,
    rows: &[LiveRow],
    found: &mut Ranks,
) -> Result<(), NoMem>
    ensures { OnOk result (map scored_of found.new ≡ map scored_of found.old ++ map (rank_in key.now) (pairs rows.now)) }
{
    for row in rows {
        let rank = rank_of(alloc, key, row.raw.bytes())?;
        found.push(rank)?;
    }
    Ok(())
}

/// The member and the score in the raw key of a row of a life of a key. The member is copied.
#[tactic(auto, using(std::proofs::lemmas::List::take_min, std::proofs::lemmas::List::drop_min))]
fn rank_of(alloc: Global, key: &Key, raw: &[u8]) -> Result<Ranked, NoMem>
    ensures { IfOk result (λ rank. scored_of rank ≡ scored_in key.now raw.now) }
{
    let subkey = subkey_of(raw, key);
    let (score, member) = subkey.split_at(subkey.len().min(SCORE));
    Ok(Ranked {
        member: Blob::copy(alloc, member)?,
        score: decode_score(score).unwrap_or(0),
    })
}
