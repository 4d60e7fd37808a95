//! Numbers in eight bytes, high byte first, as raw keys and values of elements have them.

ghost use Rattle.std.specs.Prelude.{◌≡◌, ◌↔◌, IfOk, IsSome, length};
ghost use Rattle.kv_base.specs.Fields.{u64 as number};
ghost use Rattle.kv_base.specs.RawKeys.{score_from, score_number};
ghost use Rattle.subkey_codec.specs.Numbers.{read_index, read_score_bytes};

use kv_base::{Blob, NoMem, take_u64};
use std::alloc::Global;

/// The value of a member of a sorted set: its score and 2^63, in eight bytes.
#[tactic(auto, unfolding(kv_base::specs::Fields::u64))]
pub fn score_value(alloc: Global, score: i64) -> Result<Blob, NoMem>
    ensures { IfOk result (λ value. value ≡ number (score_number score)) }
{
    Blob::copy(alloc, &score_number(score).to_be_bytes())
}

/// The score whose value this is; `None` exactly where there are not eight bytes.
#[tactic(auto, unfolding(crate::specs::Numbers::read_score_bytes))]
pub fn decode_score(bytes: &[u8]) -> Option<i64>
    ensures score { result ≡ read_score_bytes bytes.now }
    ensures eight { IsSome result ↔ (length bytes.now ≡ 8) }
{
    let number = decode_index(bytes)?;
    Some(score_from(number))
}

/// The place in a list that these bytes are; `None` exactly where there are not eight bytes.
#[tactic(auto, unfolding(crate::specs::Numbers::read_index))]
pub fn decode_index(bytes: &[u8]) -> Option<u64>
    ensures index { result ≡ read_index bytes.now }
    ensures eight { IsSome result ↔ (length bytes.now ≡ 8) }
{
    let (number, behind) = take_u64(bytes)?;
    if behind.is_empty() {
        Some(number)
    } else {
        None
    }
}

/// The number that stands for a score: the score and 2^63, so that the bytes have the order of the scores.
pub fn score_number(score: i64) -> u64
    ensures { result ≡ score_number score }
{
    score.cast_unsigned().wrapping_add(1 << 63)
}

/// The score that stands as this number.
fn score_from(number: u64) -> i64
    ensures { result ≡ score_from number }
{
    number.wrapping_sub(1 << 63).cast_signed()
}
