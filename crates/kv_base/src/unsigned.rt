//! Strict integers without a sign, as texts.

ghost use Rattle.std.specs.Prelude.{◌≡◌};
ghost use Rattle.kv_base.specs.Unsigned.{read_u64 as number_of};

use crate::integer::plain_value;

/// The number of this text: digits, with no zero in front of another digit, whose value is below 2^64.
///
/// Each number has one text: `+1`, `-0`, `01` and the empty text give `None`.
#[tactic(auto, using(crate::proofs::UnsignedTexts::is_read))]
pub fn read_u64(text: &[u8]) -> Option<u64>
    ensures { result ≡ number_of text.now }
{
    plain_value(text)
}
