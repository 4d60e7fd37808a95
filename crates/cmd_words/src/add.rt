//! ZADD, its flags and its pairs.

ghost use Rattle.std.specs.Prelude.{◌≡◌, ◌≤◌, length, map, drop, Ok, Err, is_none, if◌then◌else◌};
ghost use Rattle.std.specs.List.{list_any};
ghost use Rattle.kv_base.specs.Score.{read_score as score_at};
ghost use Rattle.cmd_words.specs.Places.{S, said, is_long};
ghost use Rattle.cmd_words.specs.Reading.{seconds, IsToldOrNoMem};
ghost use Rattle.cmd_words.specs.Add.{with_flag, flags, off, when_of, how, no_flags, scored as scored_at, add as add_row};

use crate::case::is_word;
use crate::counts::one_and_two_more;
use crate::fault::FaultKind;
use crate::many::split_pairs;
use crate::places::{key_at, score};
use kv_base::{Blob, Blobs, Items, MAX_KEY, NoMem};
use redis_model::{Command, Scores, When, ZAddHow};
use std::alloc::Global;

/// The flags of ZADD that were read so far.
#[derive(Clone, Copy)]
pub struct AddFlags {
    nx: bool,
    xx: bool,
    ch: bool,
    incr: bool,
}

impl AddFlags {
    const NONE: AddFlags = AddFlags {
        nx: false,
        xx: false,
        ch: false,
        incr: false,
    };

    /// The flags and this one, or `None` where the word is no flag.
    #[tactic(auto, unfolding(crate::specs::Add::with_flag))]
    fn with_flag(mut self, word: &Blob) -> Option<AddFlags>
        ensures { result ≡ with_flag self word.now }
    {
        if is_word(word, b"nx") {
            self.nx = true;
        } else if is_word(word, b"xx") {
            self.xx = true;
        } else if is_word(word, b"ch") {
            self.ch = true;
        } else if is_word(word, b"incr") {
            self.incr = true;
        } else {
            return None;
        }
        Some(self)
    }

    /// Are these flags, and words in pairs behind them, not as ZADD takes them?
    #[tactic(auto, unfolding(crate::specs::Add::off))]
    fn are_off(self, pairs: &[Blob]) -> bool
        ensures { result ≡ off self pairs.now }
    {
        (self.nx && self.xx)
            || pairs.is_empty()
            || pairs.len() % 2 == 1
            || (self.incr && pairs.len() > 2)
    }

    fn when(self) -> When
        ensures { result ≡ when_of self }
    {
        if self.nx {
            When::IfAbsent
        } else if self.xx {
            When::IfPresent
        } else {
            When::Any
        }
    }

    fn how(self) -> ZAddHow
        ensures { result ≡ how self }
    {
        ZAddHow {
            when: self.when(),
            changed: self.ch,
            incr: self.incr,
        }
    }
}

/// The flags in front, and how many they are.
fn read_flags(words: &[Blob]) -> (AddFlags, usize)
    ensures within { result.1 ≤ length words.now }
    ensures flags { flags no_flags words.now ≡ (result.0, drop result.1 words.now) }
{
    let mut so_far = AddFlags::NONE;
    let mut count = 0;
    while count < words.len() {
        let Some(more) = so_far.with_flag(&words[count]) else {
            break;
        };
        so_far = more;
        count += 1;
    }
    (so_far, count)
}

/// Is a member longer than one may be? The members are every second word, whether the last pair is whole or not.
fn is_member_long(pairs: &[Blob]) -> bool
    ensures { result ≡ list_any is_long (seconds pairs.now) }
{
    let mut rest = pairs;
    while let [_, member, behind @ ..] = rest {
        if member.bytes().len() > MAX_KEY {
            return true;
        }
        rest = behind;
    }
    false
}

fn scores_of(alloc: Global, words: &[Blob]) -> Result<Scores, FaultKind>
    ensures { IsToldOrNoMem result (if list_any (λ word. is_none (score_at word)) words.now then Err FaultKind.NotScore else Ok (map (said S) words.now)) }
{
    let Ok(mut scores) = Vec::with_capacity(alloc, words.len()) else {
        return Err(FaultKind::NoMem);
    };
    for word in words {
        let score = score(word)?;
        if scores.push(score).is_err() {
            return Err(FaultKind::NoMem);
        }
    }
    Ok(Items::from_vec(scores))
}

/// The scores and the members behind the flags, of which there are so many.
#[tactic(auto, using(crate::proofs::Judged::scored_is, crate::proofs::Pairs::whole_pairs))]
fn scored(
    alloc: Global,
    words: Blobs,
    count: usize,
    flags: AddFlags,
) -> Result<(Scores, Blobs), FaultKind>
    requires { count ≤ length words }
    ensures { IsToldOrNoMem result (scored_at flags (drop count words)) }
{
    let (_, pairs) = words.as_slice().split_at(count);
    if is_member_long(pairs) {
        return Err(FaultKind::TooLong);
    }
    if flags.are_off(pairs) {
        return Err(FaultKind::Syntax);
    }
    let Ok((scores, members)) = split_pairs(alloc, words, count) else {
        return Err(FaultKind::NoMem);
    };
    let scores = scores_of(alloc, scores.as_slice())?;
    Ok((scores, members))
}

#[tactic(auto, unfolding(crate::specs::Add::add))]
pub fn add(alloc: Global, words: Blobs, weight: u64) -> Result<Command, FaultKind>
    ensures { IsToldOrNoMem result (add_row weight words) }
{
    let (key, words) = one_and_two_more(words)?;
    let key = key_at(key)?;
    let (flags, count) = read_flags(words.as_slice());
    let (scores, members) = scored(alloc, words, count, flags)?;
    Ok(Command::ZAdd(key, scores, members, flags.how(), weight))
}
