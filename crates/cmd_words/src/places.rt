//! Words at their places.

ghost use Rattle.std.specs.Prelude.{◌≡◌, is_none, ◌≤ℤ◌, ◌*ℤ◌, int_lt, neg_ℤ, pos, None, Some, ◌||◌, if◌then◌else◌};
ghost use Rattle.std.specs.Option.{unwrap_or};
ghost use Rattle.kv_base.specs.Score.{read_score as score_at};
ghost use Rattle.cmd_words.specs.Bounds.{read_bound as bound_at};
ghost use Rattle.cmd_words.specs.Places.{D, S, B, said, is_long, no_int, no_count, no_negatable, int_of, direction as direction_at, bad_time_to_live, bad_after, bad_until, is_not_zero};
ghost use Rattle.cmd_words.specs.Reading.{ReadsWord};

use crate::bounds::read_bound;
use crate::case::is_word;
use crate::fault::FaultKind;
use kv_base::{Blob, Key, MAX_KEY, read_int, read_score};
use redis_model::{Bound, End, Expiry};

/// The greatest amount of time, in milliseconds (this server's own).
const MAX_AMOUNT: i64 = 1 << 61;

/// The greatest deadline, in milliseconds since the start of 1970 (this server's own).
const MAX_DEADLINE: i64 = 1 << 62;

pub fn direction(word: &Blob) -> Result<End, FaultKind>
    ensures { ReadsWord result (is_none (direction_at word.now)) FaultKind.Syntax (said D word.now) }
{
    if is_word(word, b"left") {
        Ok(End::Left)
    } else if is_word(word, b"right") {
        Ok(End::Right)
    } else {
        Err(FaultKind::Syntax)
    }
}

/// A number of units as milliseconds from `-most` to `most`.
fn milliseconds(unit: u16, number: i64, most: i64) -> Option<i64>
    requires { pos 0 ≤ℤ most }
    ensures { result ≡ (if int_lt (pos unit *ℤ number) (neg_ℤ most) || int_lt most (pos unit *ℤ number) then None else Some (pos unit *ℤ number)) }
{
    match i64::from(unit).checked_mul(number) {
        Some(time) if -most <= time && time <= most => Some(time),
        _ => None,
    }
}

/// An amount of time that is to be more than nothing.
pub fn time_to_live(unit: u16, number: i64) -> Result<Expiry, FaultKind>
    ensures { ReadsWord result (bad_time_to_live unit number) FaultKind.BadExpire (Expiry.After (pos unit *ℤ number)) }
{
    match milliseconds(unit, number, MAX_AMOUNT) {
        Some(time) if number >= 1 => Ok(Expiry::After(time)),
        _ => Err(FaultKind::BadExpire),
    }
}

pub fn after(unit: u16, number: i64) -> Result<Expiry, FaultKind>
    ensures { ReadsWord result (bad_after unit number) FaultKind.BadExpire (Expiry.After (pos unit *ℤ number)) }
{
    match milliseconds(unit, number, MAX_AMOUNT) {
        Some(time) => Ok(Expiry::After(time)),
        None => Err(FaultKind::BadExpire),
    }
}

pub fn until(unit: u16, number: i64) -> Result<Expiry, FaultKind>
    ensures { ReadsWord result (bad_until unit number) FaultKind.BadExpire (Expiry.At (pos unit *ℤ number)) }
{
    match milliseconds(unit, number, MAX_DEADLINE) {
        Some(time) => Ok(Expiry::At(time)),
        None => Err(FaultKind::BadExpire),
    }
}

pub fn key_at(word: Blob) -> Result<Key, FaultKind>
    ensures { ReadsWord result (is_long word) FaultKind.TooLong word }
{
    match Key::new(word) {
        Ok(key) => Ok(key),
        Err(_word) => Err(FaultKind::TooLong),
    }
}

/// A field or a member.
pub fn short(word: Blob) -> Result<Blob, FaultKind>
    ensures { ReadsWord result (is_long word) FaultKind.TooLong word }
{
    if word.bytes().len() > MAX_KEY {
        return Err(FaultKind::TooLong);
    }
    Ok(word)
}

pub fn int(word: &Blob) -> Result<i64, FaultKind>
    ensures { ReadsWord result (no_int word.now) FaultKind.NotInt (int_of word.now) }
{
    match read_int(word.bytes()) {
        Some(number) => Ok(number),
        None => Err(FaultKind::NotInt),
    }
}

pub fn count(word: &Blob) -> Result<i64, FaultKind>
    ensures { ReadsWord result (no_count word.now) FaultKind.NotInt (int_of word.now) }
{
    match read_int(word.bytes()) {
        Some(number) if number >= 0 => Ok(number),
        _ => Err(FaultKind::NotInt),
    }
}

/// A number that can be negated.
pub fn negatable(word: &Blob) -> Result<i64, FaultKind>
    ensures { ReadsWord result (no_negatable word.now) FaultKind.NotInt (int_of word.now) }
{
    match read_int(word.bytes()) {
        Some(number) if number != i64::MIN => Ok(number),
        _ => Err(FaultKind::NotInt),
    }
}

pub fn score(word: &Blob) -> Result<i64, FaultKind>
    ensures { ReadsWord result (is_none (score_at word.now)) FaultKind.NotScore (said S word.now) }
{
    match read_score(word.bytes()) {
        Some(score) => Ok(score),
        None => Err(FaultKind::NotScore),
    }
}

pub fn bound(word: &Blob) -> Result<Bound, FaultKind>
    ensures { ReadsWord result (is_none (bound_at word.now)) FaultKind.NotScore (said B word.now) }
{
    match read_bound(word.bytes()) {
        Some(bound) => Ok(bound),
        None => Err(FaultKind::NotScore),
    }
}

pub fn zero(number: i64) -> Result<i64, FaultKind>
    ensures { ReadsWord result (is_not_zero number) FaultKind.BadIndex number }
{
    if number == 0 {
        Ok(0)
    } else {
        Err(FaultKind::BadIndex)
    }
}
