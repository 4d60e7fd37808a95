//! Scores as texts.

ghost use Rattle.std.specs.Prelude.{◌≡◌, ◌≤◌, ◌^◌, ◌==◌, IfSome};
ghost use Rattle.std.specs.List.{list_all};
ghost use Rattle.kv_base.specs.Score.{is_zero_fraction as is_fraction, read_magnitude as magnitude_of, read_score as score_of};

use crate::digits::{count_digits, digits_value};

/// The most bytes that the text of a score has, with its sign and its point.
const MAX_TEXT: usize = 64;

/// The greatest score, 2^53: a double holds each integer up to it exactly.
const MAX_SCORE: u64 = 1 << 53;

/// The score of this text: an optional `+` or `-`, at least one digit, and behind the digits nothing or a point with
/// any number of zeros. The text has at most 64 bytes, and the score is from -2^53 to 2^53.
///
/// Scores are whole: `1.`, `1.00`, `007` and `-0` are scores, and `1.5`, `.0`, `1e3`, `inf` and the empty text give
/// `None`.
#[tactic(auto, using(crate::proofs::ScoreTexts::score_too_long, crate::proofs::ScoreTexts::score_empty, crate::proofs::ScoreTexts::score_unsigned))]
pub fn read_score(text: &[u8]) -> Option<i64>
    ensures { result ≡ score_of text.now }
{
    if text.len() > MAX_TEXT {
        return None;
    }
    let (first, rest) = text.split_first()?;
    match *first {
        b'-' => Some(-(read_magnitude(rest)? as i64)),
        b'+' => Some(read_magnitude(rest)? as i64),
        _ => Some(read_magnitude(text)? as i64),
    }
}

/// A score's text behind its sign.
#[tactic(auto, using(crate::proofs::ScoreTexts::digits_within, crate::proofs::ScoreTexts::no_digits, crate::proofs::ScoreTexts::no_fraction, crate::proofs::ScoreTexts::too_large, crate::proofs::ScoreTexts::magnitude, crate::proofs::DigitLists::digits_taken))]
fn read_magnitude(text: &[u8]) -> Option<u64>
    ensures small { IfSome result (λ n. n ≤ 2 ^ 53) }
    ensures value { result ≡ magnitude_of text.now }
{
    let (digits, fraction) = text.split_at(count_digits(text));
    if digits.is_empty() || !is_zero_fraction(fraction) {
        return None;
    }
    let value = digits_value(digits)?;
    if value <= MAX_SCORE {
        Some(value)
    } else {
        None
    }
}

/// Is this nothing, or a point with any number of zeros?
fn is_zero_fraction(text: &[u8]) -> bool
    ensures { result ≡ is_fraction text.now }
{
    match text.split_first() {
        None => true,
        Some((point, zeros)) => *point == b'.' && are_zeros(zeros),
    }
}

fn are_zeros(text: &[u8]) -> bool
    ensures { result ≡ list_all (λ byte. byte == 48) text.now }
{
    text.iter().all(|byte| *byte == b'0')
}
