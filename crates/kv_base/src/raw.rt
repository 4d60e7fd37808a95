//! Raw keys, after the Kvrocks design.

ghost use Rattle.std.specs.Prelude.{◌≡◌, IsTrue, option_map};
ghost use Rattle.kv_base.specs.RawKeys.{is_key, is_raw_text, is_raw_within, raw_parts as parts_of, read_life, read_raw, score_from, score_of};
ghost use Rattle.kv_base.specs.RowRefs.{raw_seen};

use crate::fields::{take_text, take_u64};
use crate::key::MAX_KEY;
use crate::raw_ref::RawRef;

/// The versions of lives are below this number.
pub const VERSIONS: u64 = 1 << 53;

/// Is this a raw key?
///
/// A raw key is one of these, where numbers have their high byte first:
/// - of metadata: the bytes `m` and 0, and the key;
/// - of an element: the bytes `s` and 0, the key's length in four bytes, the key, the version of the life in eight bytes,
///   and the subkey;
/// - of a score: the bytes `z` and 0, the key's length in four bytes, the key, the version and the score plus 2^63 in
///   eight bytes each, and the member.
///
/// Key, subkey and member have at most 65,535 bytes each, and a version is below 2^53. The 0 is the length of a
/// namespace, which is always empty.
pub fn is_raw(raw: &[u8]) -> bool
    ensures { result ≡ is_raw_text raw.now }
{
    decode_raw(raw).is_some()
}

/// The parts of a raw key; `None` exactly where it is none. The score is any that 64 bits hold.
#[tactic(auto, unfolding(crate::specs::RawKeys::read_raw))]
pub fn decode_raw(raw: &[u8]) -> Option<RawRef<'_>>
    ensures { option_map raw_seen result ≡ read_raw raw.now }
{
    let (space, named) = raw.split_first()?;
    let (namespace, bytes) = named.split_first()?;
    if *namespace != 0 {
        return None;
    }
    let parts = raw_parts(*space, bytes)?;
    if is_raw_within(parts) {
        Some(parts)
    } else {
        None
    }
}

/// The parts of a raw key by its space and what is behind the namespace, also beyond their limits.
#[tactic(auto, unfolding(crate::specs::RawKeys::raw_parts))]
fn raw_parts(space: u8, bytes: &[u8]) -> Option<RawRef<'_>>
    ensures { option_map raw_seen result ≡ parts_of space bytes.now }
{
    match space {
        b'm' => Some(RawRef::Meta { key: bytes }),
        b's' => {
            let life = take_life(bytes)?;
            Some(RawRef::Sub {
                key: life.key,
                version: life.version,
                subkey: life.behind,
            })
        }
        b'z' => with_score(take_life(bytes)?),
        _ => None,
    }
}

/// A key and the version of its life, with what is behind them.
#[derive(Clone, Copy)]
struct LifeAndRest<'a> {
    key: &'a [u8],
    version: u64,
    behind: &'a [u8],
}

#[tactic(auto, unfolding(crate::specs::RawKeys::read_life))]
fn take_life(bytes: &[u8]) -> Option<LifeAndRest<'_>>
    ensures { option_map (λ life. record { key = life.key.now; version = life.version; behind = life.behind.now }) result ≡ read_life bytes.now }
{
    let (key, rest) = take_text(bytes)?;
    let (version, behind) = take_u64(rest)?;
    Some(LifeAndRest {
        key,
        version,
        behind,
    })
}

fn with_score(life: LifeAndRest<'_>) -> Option<RawRef<'_>>
    ensures { option_map raw_seen result ≡ score_of (record { key = life.entry.key.now; version = life.entry.version; behind = life.entry.behind.now }) }
{
    let (number, member) = take_u64(life.behind)?;
    Some(RawRef::Score {
        key: life.key,
        version: life.version,
        score: score_from(number),
        member,
    })
}

/// The score that stands as this number, which is the score plus 2^63.
fn score_from(number: u64) -> i64
    ensures { result ≡ score_from number }
{
    number.wrapping_sub(1 << 63).cast_signed()
}

/// Are the parts within their limits?
#[tactic(auto, unfolding(crate::specs::RawKeys::is_raw_within))]
fn is_raw_within(raw: RawRef<'_>) -> bool
    ensures { result ≡ is_raw_within (raw_seen raw.entry) }
{
    match raw {
        RawRef::Meta { key } => is_key(key),
        RawRef::Sub {
            key,
            version,
            subkey,
        } => is_key(key) && version < VERSIONS && is_key(subkey),
        RawRef::Score {
            key,
            version,
            score,
            member,
        } => { is_key(key) && version < VERSIONS && is_key(member) }
    }
}

fn is_key(bytes: &[u8]) -> bool
    ensures { result ≡ is_key bytes.now }
{
    bytes.len() <= MAX_KEY
}
