//! Strict integers as texts.

ghost use Rattle.std.specs.Prelude.{◌≡◌, ◌<◌, ◌≤◌, ◌^◌, pos, neg_ℤ, SomeIff, IsTrue, ◌↔◌};
ghost use Rattle.kv_base.specs.Digits.{IsPlain};
ghost use Rattle.kv_base.specs.Number.{value_of_digits, read_int as int_of};

use crate::digits::{are_digits, digits_value};

/// The integer of this text: an optional `-` and then digits, with no zero in front of another digit, whose value is
/// from -2^63 to 2^63 - 1.
///
/// Each integer has one text, the only one of it that Redis takes too: `-0`, `+1`, `01` and the empty text give `None`.
pub fn read_int(text: &[u8]) -> Option<i64>
    ensures { result ≡ int_of text.now }
{
    let (first, rest) = text.split_first()?;
    if *first == b'-' {
        negative(plain_value(rest)?)
    } else {
        positive(plain_value(text)?)
    }
}

/// The number of these digits: at least one, with no zero in front of another.
pub fn plain_value(text: &[u8]) -> Option<u64>
    ensures { SomeIff result (IsPlain text.now × (value_of_digits text.now < 2 ^ 64)) (value_of_digits text.now) }
{
    if !is_plain(text) {
        return None;
    }
    digits_value(text)
}

fn is_plain(text: &[u8]) -> bool
    ensures { IsTrue result ↔ IsPlain text.now }
{
    !text.is_empty() && (text[0] != b'0' || text.len() == 1) && are_digits(text)
}

fn positive(number: u64) -> Option<i64>
    ensures { SomeIff result (number < 2 ^ 63) (pos number) }
{
    i64::try_from(number).ok()
}

/// The negative of a number above 0.
fn negative(number: u64) -> Option<i64>
    ensures { SomeIff result ((0 < number) × (number ≤ 2 ^ 63)) (neg_ℤ (pos number)) }
{
    if number == 0 {
        return None;
    }
    0_i64.checked_sub_unsigned(number)
}
