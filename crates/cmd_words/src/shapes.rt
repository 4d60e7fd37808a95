//! Patterns of words that several commands share: how many words, and what each stands for.
//! The faults come in one order over all words: the lengths first, then numbers, then scores, then times.

ghost use Rattle.std.specs.Prelude.{◌≡◌};
ghost use Rattle.cmd_words.specs.Places.{K, V, F, M, N, S, B, D, Count, NotLeast, Zero, TimeToLive, After, Until};
ghost use Rattle.cmd_words.specs.Reading.{said1, said2, said3, said4};

use crate::counts::{four_words, one, three, two};
use crate::fault::FaultKind;
use crate::places::{
    after, bound, count, direction, int, key_at, negatable, score, short, time_to_live, until, zero,
};
use kv_base::{Blob, Blobs, Key};
use redis_model::{Bound, End, Expiry};

#[tactic(auto, unfolding(crate::specs::Reading::said1))]
pub fn key(words: Blobs) -> Result<Key, FaultKind>
    ensures { result ≡ said1 K words }
{
    let key = one(words)?;
    key_at(key)
}

#[tactic(auto, unfolding(crate::specs::Reading::said1))]
pub fn value(words: Blobs) -> Result<Blob, FaultKind>
    ensures { result ≡ said1 V words }
{
    one(words)
}

#[tactic(auto, unfolding(crate::specs::Reading::said1))]
pub fn database(words: Blobs) -> Result<i64, FaultKind>
    ensures { result ≡ said1 Zero words }
{
    let number = one(words)?;
    let number = int(&number)?;
    zero(number)
}

#[tactic(auto, unfolding(crate::specs::Reading::said2))]
pub fn key_value(words: Blobs) -> Result<(Key, Blob), FaultKind>
    ensures { result ≡ said2 K V words }
{
    let (key, value) = two(words)?;
    let key = key_at(key)?;
    Ok((key, value))
}

#[tactic(auto, unfolding(crate::specs::Reading::said2))]
pub fn key_field(words: Blobs) -> Result<(Key, Blob), FaultKind>
    ensures field { result ≡ said2 K F words }
    ensures member { result ≡ said2 K M words }
{
    let (key, field) = two(words)?;
    let key = key_at(key)?;
    let field = short(field)?;
    Ok((key, field))
}

#[tactic(auto, unfolding(crate::specs::Reading::said2))]
pub fn key_key(words: Blobs) -> Result<(Key, Key), FaultKind>
    ensures { result ≡ said2 K K words }
{
    let (from, to) = two(words)?;
    let from = key_at(from)?;
    let to = key_at(to)?;
    Ok((from, to))
}

#[tactic(auto, unfolding(crate::specs::Reading::said2))]
pub fn key_int(words: Blobs) -> Result<(Key, i64), FaultKind>
    ensures { result ≡ said2 K N words }
{
    let (key, number) = two(words)?;
    let key = key_at(key)?;
    let number = int(&number)?;
    Ok((key, number))
}

#[tactic(auto, unfolding(crate::specs::Reading::said2))]
pub fn key_negatable(words: Blobs) -> Result<(Key, i64), FaultKind>
    ensures { result ≡ said2 K NotLeast words }
{
    let (key, number) = two(words)?;
    let key = key_at(key)?;
    let number = negatable(&number)?;
    Ok((key, number))
}

#[tactic(auto, unfolding(crate::specs::Reading::said2))]
pub fn key_count(words: Blobs) -> Result<(Key, i64), FaultKind>
    ensures { result ≡ said2 K Count words }
{
    let (key, number) = two(words)?;
    let key = key_at(key)?;
    let number = count(&number)?;
    Ok((key, number))
}

#[tactic(auto, unfolding(crate::specs::Reading::said2))]
pub fn key_after(words: Blobs, unit: u16) -> Result<(Key, Expiry), FaultKind>
    ensures { result ≡ said2 K (After unit) words }
{
    let (key, number) = two(words)?;
    let key = key_at(key)?;
    let number = int(&number)?;
    let time = after(unit, number)?;
    Ok((key, time))
}

#[tactic(auto, unfolding(crate::specs::Reading::said2))]
pub fn key_until(words: Blobs, unit: u16) -> Result<(Key, Expiry), FaultKind>
    ensures { result ≡ said2 K (Until unit) words }
{
    let (key, number) = two(words)?;
    let key = key_at(key)?;
    let number = int(&number)?;
    let time = until(unit, number)?;
    Ok((key, time))
}

#[tactic(auto, unfolding(crate::specs::Reading::said3))]
pub fn key_time_to_live_value(words: Blobs, unit: u16) -> Result<(Key, Expiry, Blob), FaultKind>
    ensures { result ≡ said3 K (TimeToLive unit) V words }
{
    let (key, number, value) = three(words)?;
    let key = key_at(key)?;
    let number = int(&number)?;
    let time = time_to_live(unit, number)?;
    Ok((key, time, value))
}

#[tactic(auto, unfolding(crate::specs::Reading::said3))]
pub fn key_int_value(words: Blobs) -> Result<(Key, i64, Blob), FaultKind>
    ensures { result ≡ said3 K N V words }
{
    let (key, number, value) = three(words)?;
    let key = key_at(key)?;
    let number = int(&number)?;
    Ok((key, number, value))
}

#[tactic(auto, unfolding(crate::specs::Reading::said3))]
pub fn key_int_int(words: Blobs) -> Result<(Key, i64, i64), FaultKind>
    ensures { result ≡ said3 K N N words }
{
    let (key, from, to) = three(words)?;
    let key = key_at(key)?;
    let from = int(&from)?;
    let to = int(&to)?;
    Ok((key, from, to))
}

#[tactic(auto, unfolding(crate::specs::Reading::said3))]
pub fn key_bound_bound(words: Blobs) -> Result<(Key, Bound, Bound), FaultKind>
    ensures { result ≡ said3 K B B words }
{
    let (key, from, to) = three(words)?;
    let key = key_at(key)?;
    let from = bound(&from)?;
    let to = bound(&to)?;
    Ok((key, from, to))
}

#[tactic(auto, unfolding(crate::specs::Reading::said3))]
pub fn key_field_value(words: Blobs) -> Result<(Key, Blob, Blob), FaultKind>
    ensures { result ≡ said3 K F V words }
{
    let (key, field, value) = three(words)?;
    let key = key_at(key)?;
    let field = short(field)?;
    Ok((key, field, value))
}

#[tactic(auto, unfolding(crate::specs::Reading::said3))]
pub fn key_field_int(words: Blobs) -> Result<(Key, Blob, i64), FaultKind>
    ensures { result ≡ said3 K F N words }
{
    let (key, field, number) = three(words)?;
    let key = key_at(key)?;
    let field = short(field)?;
    let number = int(&number)?;
    Ok((key, field, number))
}

#[tactic(auto, unfolding(crate::specs::Reading::said3))]
pub fn key_score_member(words: Blobs) -> Result<(Key, i64, Blob), FaultKind>
    ensures { result ≡ said3 K S M words }
{
    let (key, number, member) = three(words)?;
    let key = key_at(key)?;
    let member = short(member)?;
    let number = score(&number)?;
    Ok((key, number, member))
}

#[tactic(auto, unfolding(crate::specs::Reading::said3))]
pub fn key_key_member(words: Blobs) -> Result<(Key, Key, Blob), FaultKind>
    ensures { result ≡ said3 K K M words }
{
    let (from, to, member) = three(words)?;
    let from = key_at(from)?;
    let to = key_at(to)?;
    let member = short(member)?;
    Ok((from, to, member))
}

#[tactic(auto, unfolding(crate::specs::Reading::said4))]
pub fn key_key_ends(words: Blobs) -> Result<(Key, Key, End, End), FaultKind>
    ensures { result ≡ said4 K K D D words }
{
    let (from, to, take, put) = four_words(words)?;
    let from = key_at(from)?;
    let to = key_at(to)?;
    let take = direction(&take)?;
    let put = direction(&put)?;
    Ok((from, to, take, put))
}
