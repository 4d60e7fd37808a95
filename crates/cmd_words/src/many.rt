//! Patterns with words that may be repeated or left out.

ghost use Rattle.std.specs.Prelude.{◌≡◌, ◌≤◌, ◌-◌, ◌%◌, Ok, Err, ◌<◌, drop, ◌++◌, ◌∷◌, [], length, if◌then◌else◌, IfOk, IfErr};
ghost use Rattle.std.specs.List.{list_any};
ghost use Rattle.cmd_words.specs.Places.{K, V, F, M, Count, is_long};
ghost use Rattle.cmd_words.specs.Reading.{firsts, seconds, in_pairs, said_more, said_k_more, said_pairs, said_k_pairs, said_maybe, said_k_maybe, IsToldOrNoMem};

use crate::counts::{one_and_more, some_words};
use crate::fault::FaultKind;
use crate::places::key_at;
use crate::shapes::{key, key_count, value};
use kv_base::{Blob, Blobs, Items, Key, Keys, MAX_KEY, NoMem};
use std::alloc::Global;

/// The words as keys. They are moved.
fn keys_of(alloc: Global, mut words: Blobs) -> Result<Keys, FaultKind>
    ensures { IsToldOrNoMem result (if list_any is_long words then Err FaultKind.TooLong else Ok words) }
{
    let Ok(mut keys) = Vec::with_capacity(alloc, words.len()) else {
        return Err(FaultKind::NoMem);
    };
    while let Some(word) = words.pop() {
        let key = key_at(word)?;
        if keys.push(key).is_err() {
            return Err(FaultKind::NoMem);
        }
    }
    keys.as_mut_slice().reverse();
    Ok(Items::from_vec(keys))
}

/// Is a word longer than a field or a member may be?
fn is_any_long(words: &[Blob]) -> bool
    ensures { result ≡ list_any is_long words.now }
{
    words.iter().any(|word| word.bytes().len() > MAX_KEY)
}

fn take_last(words: &mut Blobs) -> Blob
    requires { 0 < length words.old }
    ensures { words.old ≡ words.new ++ result ∷ [] }
{
    words.pop().unwrap()
}

/// Every second word behind the first ones, of which so many are left out: from the first on, and from the second on. The
/// words are moved.
pub fn split_pairs(
    alloc: Global,
    mut words: Blobs,
    left_out: usize,
) -> Result<(Blobs, Blobs), NoMem>
    requires within { left_out ≤ length words }
    requires whole { (length words - left_out) % 2 ≡ 0 }
    ensures { IfOk result (λ pairs. (pairs.0 ≡ firsts (drop left_out words)) × (pairs.1 ≡ seconds (drop left_out words))) }
{
    let half = (words.len() - left_out) / 2;
    let mut first_ones = Vec::with_capacity(alloc, half)?;
    let mut second_ones = Vec::with_capacity(alloc, half)?;
    while words.len() > left_out {
        second_ones.push(take_last(&mut words))?;
        first_ones.push(take_last(&mut words))?;
    }
    first_ones.as_mut_slice().reverse();
    second_ones.as_mut_slice().reverse();
    Ok((Items::from_vec(first_ones), Items::from_vec(second_ones)))
}

/// Words in pairs, of which there is at least one.
#[tactic(auto, unfolding(crate::specs::Reading::in_pairs))]
fn pairs(alloc: Global, words: Blobs) -> Result<(Blobs, Blobs), FaultKind>
    ensures { IsToldOrNoMem result (in_pairs words) }
{
    if words.is_empty() || words.len() % 2 == 1 {
        return Err(FaultKind::Arity);
    }
    match split_pairs(alloc, words, 0) {
        Ok(pairs) => Ok(pairs),
        Err(NoMem) => Err(FaultKind::NoMem),
    }
}

#[tactic(auto, using(crate::proofs::Judged::judged_short), unfolding(crate::specs::Reading::said_more))]
pub fn keys(alloc: Global, words: Blobs) -> Result<Keys, FaultKind>
    ensures { IsToldOrNoMem result (said_more K words) }
{
    let words = some_words(words)?;
    keys_of(alloc, words)
}

#[tactic(auto, using(crate::proofs::Judged::judged_short), unfolding(crate::specs::Reading::said_k_more))]
pub fn key_values(words: Blobs) -> Result<(Key, Blobs), FaultKind>
    ensures { result ≡ said_k_more V words }
{
    let (key, values) = one_and_more(words)?;
    let key = key_at(key)?;
    Ok((key, values))
}

#[tactic(auto, using(crate::proofs::Judged::judged_short), unfolding(crate::specs::Reading::said_k_more))]
pub fn key_fields(words: Blobs) -> Result<(Key, Blobs), FaultKind>
    ensures fields { result ≡ said_k_more F words }
    ensures members { result ≡ said_k_more M words }
{
    let (key, fields) = one_and_more(words)?;
    let key = key_at(key)?;
    if is_any_long(fields.as_slice()) {
        return Err(FaultKind::TooLong);
    }
    Ok((key, fields))
}

#[tactic(auto, using(crate::proofs::Judged::judged_short), unfolding(crate::specs::Reading::said_k_more))]
pub fn key_keys(alloc: Global, words: Blobs) -> Result<(Key, Keys), FaultKind>
    ensures { IsToldOrNoMem result (said_k_more K words) }
{
    let (key, others) = one_and_more(words)?;
    let key = key_at(key)?;
    let others = keys_of(alloc, others)?;
    Ok((key, others))
}

#[tactic(auto, using(crate::proofs::Judged::judged_short), unfolding(crate::specs::Reading::said_pairs))]
pub fn keys_values(alloc: Global, words: Blobs) -> Result<(Keys, Blobs), FaultKind>
    ensures { IsToldOrNoMem result (said_pairs K words) }
{
    let (keys, values) = pairs(alloc, words)?;
    let keys = keys_of(alloc, keys)?;
    Ok((keys, values))
}

#[tactic(auto, using(crate::proofs::Judged::judged_short), unfolding(crate::specs::Reading::said_k_pairs))]
pub fn key_fields_values(alloc: Global, words: Blobs) -> Result<(Key, Blobs, Blobs), FaultKind>
    ensures { IsToldOrNoMem result (said_k_pairs F words) }
{
    let (key, others) = one_and_more(words)?;
    let (fields, values) = pairs(alloc, others)?;
    let key = key_at(key)?;
    if is_any_long(fields.as_slice()) {
        return Err(FaultKind::TooLong);
    }
    Ok((key, fields, values))
}

#[tactic(auto, unfolding(crate::specs::Reading::said_maybe))]
pub fn maybe_value(words: Blobs) -> Result<Option<Blob>, FaultKind>
    ensures { result ≡ said_maybe V words }
{
    if words.len() == 0 {
        return Ok(None);
    }
    let value = value(words)?;
    Ok(Some(value))
}

#[tactic(auto, unfolding(crate::specs::Reading::said_k_maybe))]
pub fn key_maybe_count(words: Blobs) -> Result<(Key, Option<i64>), FaultKind>
    ensures { result ≡ said_k_maybe Count words }
{
    if words.len() == 1 {
        let key = key(words)?;
        return Ok((key, None));
    }
    let (key, number) = key_count(words)?;
    Ok((key, Some(number)))
}
