//! ZRANGE, ZREVRANGE and ZRANGEBYSCORE and their options.

ghost use Rattle.std.specs.Prelude.{◌≡◌, Option};
ghost use Rattle.cmd_words.specs.Options.{flag as flag_at, said_range, limit as limit_at, limited as limited_at, bounds as bounds_at, with_scores, range_options as range_options_at, range_by_score as range_by_score_row};

use crate::case::is_word;
use crate::counts::three_and_more;
use crate::fault::FaultKind;
use crate::places::{bound, int, key_at};
use kv_base::{Blob, Blobs, Key};
use redis_model::{Bound, Command, Limit};

/// What options of ZRANGEBYSCORE say so far. The numbers of LIMIT are judged when all options are.
#[derive(Clone, Copy)]
pub struct RangeOptions {
    scores: bool,
    limit: Option<Result<Limit, FaultKind>>,
}

/// WITHSCORES or nothing.
#[tactic(auto, unfolding(crate::specs::Options::flag))]
fn flag(words: &[Blob]) -> Option<bool>
    ensures { result ≡ flag_at words.now }
{
    match words {
        [] => Some(false),
        [word] if is_word(word, b"withscores") => Some(true),
        _ => None,
    }
}

#[tactic(auto, unfolding(crate::specs::Options::said_range))]
pub fn key_range(words: Blobs) -> Result<(Key, i64, i64, bool), FaultKind>
    ensures { result ≡ said_range words }
{
    let (key, from, to, options) = three_and_more(words)?;
    let key = key_at(key)?;
    let Some(flag) = flag(options.as_slice()) else {
        return Err(FaultKind::Syntax);
    };
    let from = int(&from)?;
    let to = int(&to)?;
    Ok((key, from, to, flag))
}

#[tactic(auto, unfolding(crate::specs::Options::limit))]
fn limit(offset: &Blob, count: &Blob) -> Result<Limit, FaultKind>
    ensures { result ≡ limit_at offset.now count.now }
{
    let offset = int(offset)?;
    let count = int(count)?;
    Ok(Limit { offset, count })
}

#[tactic(auto, unfolding(crate::specs::Options::limited))]
fn limited(limit: Option<Result<Limit, FaultKind>>) -> Result<Option<Limit>, FaultKind>
    ensures { result ≡ limited_at limit }
{
    match limit {
        None => Ok(None),
        Some(limit) => Ok(Some(limit?)),
    }
}

#[tactic(auto, unfolding(crate::specs::Options::bounds))]
fn bounds(from: &Blob, to: &Blob) -> Result<(Bound, Bound), FaultKind>
    ensures { result ≡ bounds_at from.now to.now }
{
    let from = bound(from)?;
    let to = bound(to)?;
    Ok((from, to))
}

impl RangeOptions {
    const NONE: RangeOptions = RangeOptions {
        scores: false,
        limit: None,
    };

    #[tactic(auto, unfolding(crate::specs::Options::with_scores))]
    fn with_scores(self, word: &Blob) -> Option<RangeOptions>
        ensures { result ≡ with_scores self word.now }
    {
        if is_word(word, b"withscores") && !self.scores {
            Some(RangeOptions {
                scores: true,
                limit: self.limit,
            })
        } else {
            None
        }
    }
}

/// The options after those so far. It ends at the fifth word at the latest, since each option stands once.
#[tactic(auto, using(crate::proofs::Steps::range_limit, crate::proofs::Steps::range_other), unfolding(crate::specs::Options::range_options))]
fn range_options(words: &[Blob], so_far: RangeOptions) -> Option<RangeOptions>
    ensures { result ≡ range_options_at so_far words.now }
{
    match words {
        [] => Some(so_far),
        [word] => so_far.with_scores(word),
        [word, last] => so_far.with_scores(word)?.with_scores(last),
        [word, offset, count, rest @ ..] => {
            if is_word(word, b"limit") {
                if so_far.limit.is_some() {
                    return None;
                }
                let more = RangeOptions {
                    scores: so_far.scores,
                    limit: Some(limit(offset, count)),
                };
                range_options(rest, more)
            } else {
                let more = so_far.with_scores(word)?;
                range_options(&words[1..], more)
            }
        }
    }
}

#[tactic(auto, unfolding(crate::specs::Options::range_by_score))]
pub fn range_by_score(words: Blobs, weight: u64) -> Result<Command, FaultKind>
    ensures { result ≡ range_by_score_row weight words }
{
    let (key, from, to, options) = three_and_more(words)?;
    let key = key_at(key)?;
    let Some(options) = range_options(options.as_slice(), RangeOptions::NONE) else {
        return Err(FaultKind::Syntax);
    };
    let limit = limited(options.limit)?;
    let (from, to) = bounds(&from, &to)?;
    Ok(Command::ZRangeByScore(key, from, to, options.scores, limit, weight))
}
