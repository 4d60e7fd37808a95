//! The words of a command, where their number fits. Words are moved, and no function here takes memory.

ghost use Rattle.std.specs.Prelude.{◌≡◌};
ghost use Rattle.cmd_words.specs.Reading.{only, two_words, triple, four, some, one_and_some, one_and_two, two_and_any, three_and_any};

use crate::fault::FaultKind;
use kv_base::{Blob, Blobs};

#[tactic(auto, unfolding(crate::specs::Reading::only))]
pub fn one(mut words: Blobs) -> Result<Blob, FaultKind>
    ensures { result ≡ only words }
{
    if words.len() != 1 {
        return Err(FaultKind::Arity);
    }
    Ok(words.remove(0))
}

#[tactic(auto, unfolding(crate::specs::Reading::two_words))]
pub fn two(mut words: Blobs) -> Result<(Blob, Blob), FaultKind>
    ensures { result ≡ two_words words }
{
    if words.len() != 2 {
        return Err(FaultKind::Arity);
    }
    let first = words.remove(0);
    let second = words.remove(0);
    Ok((first, second))
}

#[tactic(auto, unfolding(crate::specs::Reading::triple))]
pub fn three(mut words: Blobs) -> Result<(Blob, Blob, Blob), FaultKind>
    ensures { result ≡ triple words }
{
    if words.len() != 3 {
        return Err(FaultKind::Arity);
    }
    let first = words.remove(0);
    let second = words.remove(0);
    let third = words.remove(0);
    Ok((first, second, third))
}

#[tactic(auto, unfolding(crate::specs::Reading::four))]
pub fn four_words(mut words: Blobs) -> Result<(Blob, Blob, Blob, Blob), FaultKind>
    ensures { result ≡ four words }
{
    if words.len() != 4 {
        return Err(FaultKind::Arity);
    }
    let first = words.remove(0);
    let second = words.remove(0);
    let third = words.remove(0);
    let fourth = words.remove(0);
    Ok((first, second, third, fourth))
}

/// At least one word.
#[tactic(auto, unfolding(crate::specs::Reading::some))]
pub fn some_words(words: Blobs) -> Result<Blobs, FaultKind>
    ensures { result ≡ some words }
{
    if words.is_empty() {
        return Err(FaultKind::Arity);
    }
    Ok(words)
}

/// A word, and at least one more.
#[tactic(auto, unfolding(crate::specs::Reading::one_and_some))]
pub fn one_and_more(mut words: Blobs) -> Result<(Blob, Blobs), FaultKind>
    ensures { result ≡ one_and_some words }
{
    if words.len() < 2 {
        return Err(FaultKind::Arity);
    }
    let first = words.remove(0);
    Ok((first, words))
}

/// A word, and at least two more.
#[tactic(auto, unfolding(crate::specs::Reading::one_and_two))]
pub fn one_and_two_more(mut words: Blobs) -> Result<(Blob, Blobs), FaultKind>
    ensures { result ≡ one_and_two words }
{
    if words.len() < 3 {
        return Err(FaultKind::Arity);
    }
    let first = words.remove(0);
    Ok((first, words))
}

/// Two words, and any more.
#[tactic(auto, unfolding(crate::specs::Reading::two_and_any))]
pub fn two_and_more(mut words: Blobs) -> Result<(Blob, Blob, Blobs), FaultKind>
    ensures { result ≡ two_and_any words }
{
    if words.len() < 2 {
        return Err(FaultKind::Arity);
    }
    let first = words.remove(0);
    let second = words.remove(0);
    Ok((first, second, words))
}

/// Three words, and any more.
#[tactic(auto, unfolding(crate::specs::Reading::three_and_any))]
pub fn three_and_more(mut words: Blobs) -> Result<(Blob, Blob, Blob, Blobs), FaultKind>
    ensures { result ≡ three_and_any words }
{
    if words.len() < 3 {
        return Err(FaultKind::Arity);
    }
    let first = words.remove(0);
    let second = words.remove(0);
    let third = words.remove(0);
    Ok((first, second, third, words))
}
