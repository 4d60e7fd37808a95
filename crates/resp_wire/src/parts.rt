//! The parts of an array. Each function answers its part and the text behind it, and allocates nothing.

ghost use Rattle.std.specs.Prelude.{◌≡◌, ◌≤◌};
ghost use Rattle.resp_wire.specs.Grammar.{behind_byte as mark_at, behind_line_end as line_at, exceeds as exceeds_at, text_end as text_at, length_text as length_at, body as body_at, bulk as bulk_at, minus_one as minus_at, count as count_at};
ghost use Rattle.resp_wire.specs.Parts.{Gives};

use crate::stop::{ProtocolFault, Stop};

/// The most words of a request.
const MAX_WORDS: usize = 65_536;

/// The most bytes of a word.
const MAX_WORD: usize = 1_048_576;

/// What a word takes of its request's room besides its bytes.
pub const WORD_COST: usize = 16;

/// What a length text counts.
#[derive(Clone, Copy, Debug, PartialEq, Eq)]
pub enum LengthLimit {
    /// The words of a request.
    Words,
    /// The bytes of a word whose request may still hold this much.
    Bytes(usize),
}

/// The text behind this byte.
#[tactic(auto, unfolding(crate::specs::Grammar::behind_byte))]
fn mark(byte: u8, bytes: &[u8]) -> Result<&[u8], Stop>
    ensures { Gives (λ rest. rest.now) result (mark_at byte bytes.now) }
{
    match bytes {
        [] => Err(Stop::More),
        [first, rest @ ..] => {
            if *first == byte {
                Ok(rest)
            } else {
                Err(Stop::Bad(ProtocolFault::BadMark, rest.len() + 1))
            }
        }
    }
}

/// The text behind a line end.
#[tactic(auto, unfolding(crate::specs::Grammar::behind_line_end))]
fn line_end(bytes: &[u8]) -> Result<&[u8], Stop>
    ensures { Gives (λ rest. rest.now) result (line_at bytes.now) }
{
    let rest = mark(b'\r', bytes)?;
    mark(b'\n', rest)
}

/// Whether this is more than the limit.
fn exceeds(limit: LengthLimit, n: usize) -> bool
    ensures { result ≡ exceeds_at limit n }
{
    match limit {
        LengthLimit::Words => n > MAX_WORDS,
        LengthLimit::Bytes(room) => n > MAX_WORD || n + WORD_COST > room,
    }
}

/// The end of a length text behind its digits, whose mark stands where `left` bytes are left.
#[tactic(auto, unfolding(crate::specs::Grammar::text_end))]
fn text_end(left: usize, number: Option<usize>, bytes: &[u8]) -> Result<(usize, &[u8]), Stop>
    ensures { Gives (λ x. (x.0, x.1.now)) result (text_at left number bytes.now) }
{
    let Some(n) = number else {
        return Err(Stop::Bad(ProtocolFault::BadLength, left));
    };
    match bytes {
        [] => Err(Stop::More),
        [b'\r', rest @ ..] => Ok((n, mark(b'\n', rest)?)),
        [_, ..] => Err(Stop::Bad(ProtocolFault::BadLength, left)),
    }
}

/// A length text within the limit and its line end; its mark stands before these bytes.
#[tactic(auto, unfolding(crate::specs::Grammar::length_text, crate::specs::Grammar::length_from))]
fn length_text(limit: LengthLimit, bytes: &[u8]) -> Result<(usize, &[u8]), Stop>
    ensures { Gives (λ x. (x.0, x.1.now)) result (length_at limit bytes.now) }
{
    let left = bytes.len() + 1;
    let mut number = None;
    let mut rest = bytes;
    while let [digit, behind @ ..] = rest {
        if !digit.is_ascii_digit() {
            return text_end(left, number, rest);
        }
        if number == Some(0) {
            return Err(Stop::Bad(ProtocolFault::BadLength, left));
        }
        let n = number.unwrap_or(0) * 10 + usize::from(*digit - b'0');
        if exceeds(limit, n) {
            return Err(Stop::Bad(ProtocolFault::TooLong, left));
        }
        number = Some(n);
        rest = behind;
    }
    Err(Stop::More)
}

/// `n` bytes and a line end.
#[tactic(auto, unfolding(crate::specs::Grammar::body))]
fn body(n: usize, bytes: &[u8]) -> Result<(&[u8], &[u8]), Stop>
    ensures { Gives (λ x. (x.0.now, x.1.now)) result (body_at n bytes.now) }
{
    if bytes.len() < n {
        return Err(Stop::More);
    }
    let (front, rest) = bytes.split_at(n);
    Ok((front, line_end(rest)?))
}

/// The bytes of a bulk string whose request may still hold this much.
#[tactic(auto, unfolding(crate::specs::Grammar::bulk))]
pub fn bulk(room: usize, bytes: &[u8]) -> Result<(&[u8], &[u8]), Stop>
    ensures { Gives (λ x. (x.0.now, x.1.now)) result (bulk_at room bytes.now) }
{
    let rest = mark(b'$', bytes)?;
    let (n, rest) = length_text(LengthLimit::Bytes(room), rest)?;
    body(n, rest)
}

/// `-1` in the place of an array's number, behind its `-`: no words.
#[tactic(auto, unfolding(crate::specs::Grammar::minus_one))]
fn minus_one(left: usize, bytes: &[u8]) -> Result<(usize, &[u8]), Stop>
    ensures { Gives (λ x. (x.0, x.1.now)) result (minus_at left bytes.now) }
{
    match bytes {
        [] => Err(Stop::More),
        [b'1', rest @ ..] => text_end(left, Some(0), rest),
        [_, ..] => Err(Stop::Bad(ProtocolFault::BadLength, left)),
    }
}

/// How many words an array has, by what follows its `*`.
#[tactic(auto, unfolding(crate::specs::Grammar::count))]
pub fn count(bytes: &[u8]) -> Result<(usize, &[u8]), Stop>
    ensures { Gives (λ x. (x.0, x.1.now)) result (count_at bytes.now) }
{
    match bytes {
        [] => Err(Stop::More),
        [b'-', rest @ ..] => minus_one(rest.len() + 2, rest),
        [_, ..] => length_text(LengthLimit::Words, bytes),
    }
}
