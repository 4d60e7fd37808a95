//! Decimal digits, which both kinds of number are made of.

ghost use Rattle.std.specs.Prelude.{◌≡◌, ◌<◌, ◌^◌, true, SomeIff};
ghost use Rattle.std.specs.Char.{is_ascii_digit};
ghost use Rattle.std.specs.List.{prefix_len};
ghost use Rattle.kv_base.specs.Digits.{are_digits as all_digits};
ghost use Rattle.kv_base.specs.Number.{value_of_digits};

/// How many digits the text begins with.
pub fn count_digits(text: &[u8]) -> usize
    ensures { result ≡ prefix_len is_ascii_digit text.now }
{
    text.iter().take_while(|byte| byte.is_ascii_digit()).count()
}

/// Is each byte a digit?
pub fn are_digits(text: &[u8]) -> bool
    ensures { result ≡ all_digits text.now }
{
    text.iter().all(|byte| byte.is_ascii_digit())
}

/// The number of these digits, if it is below 2^64. Zeros may stand in front, and the empty text counts as 0.
#[tactic(auto, using(crate::proofs::DigitLists::too_much))]
pub fn digits_value(digits: &[u8]) -> Option<u64>
    requires { all_digits digits.now ≡ true }
    ensures { SomeIff result (value_of_digits digits.now < 2 ^ 64) (value_of_digits digits.now) }
{
    let mut value: u64 = 0;
    for byte in digits {
        let digit = u64::from(*byte - b'0');
        value = value.checked_mul(10)?.checked_add(digit)?;
    }
    Some(value)
}
