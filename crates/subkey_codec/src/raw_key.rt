//! Raw keys of elements, each in one buffer of its exact size.

ghost use Rattle.std.specs.Prelude.{◌≡◌, ◌≤◌, ◌+◌, IfOk, IsTrue, length, vec_capacity};
ghost use Rattle.kv_base.specs.Fields.{u64 as number};
ghost use Rattle.kv_base.specs.MetaValues.{is_score};
ghost use Rattle.kv_base.specs.RawKeys.{ElementKey, ScoreKey, is_key, is_raw_text, is_version, life_prefix as prefix_of, raw_text};
ghost use Rattle.subkey_codec.specs.Numbers.{is_life_space};

use crate::number::score_number;
use kv_base::{Blob, Key, NoMem};
use std::alloc::Global;

/// The space of elements: fields, members and places in a list.
pub const ELEMENTS: u8 = b's';

/// The space of the members of sorted sets by their scores.
pub const SCORES: u8 = b'z';

/// The most bytes that stand behind the prefix of a life: a score and a member.
const MAX_BEHIND: usize = 8 + 65535;

/// The raw key of a field or a member.
///
/// It is the prefix of the life in the space of elements, and the subkey.
#[tactic(auto, using(crate::specs::ElementKeyLaws::element_key_is_raw), unfolding(kv_base::specs::RawKeys::raw_text))]
pub fn field_key(alloc: Global, key: &Key, version: u64, subkey: &[u8]) -> Result<Blob, NoMem>
    requires version { IsTrue (is_version version) }
    requires subkey { IsTrue (is_key subkey.now) }
    ensures bytes { IfOk result (λ raw. raw ≡ raw_text (ElementKey key.now version subkey.now)) }
    ensures raw_key { IfOk result (λ raw. IsTrue (is_raw_text raw)) }
{
    let mut raw = life_with_room(alloc, ELEMENTS, key, version, subkey.len())?;
    raw.extend_from_slice(subkey)?;
    Ok(Blob::from_vec(raw))
}

/// The raw key of an element of a list, at a place.
///
/// It is the prefix of the life in the space of elements, and the place in eight bytes, high byte first.
#[tactic(auto, unfolding(kv_base::specs::Fields::u64))]
pub fn index_key(alloc: Global, key: &Key, version: u64, index: u64) -> Result<Blob, NoMem>
    requires { IsTrue (is_version version) }
    ensures bytes { IfOk result (λ raw. raw ≡ raw_text (ElementKey key.now version (number index))) }
    ensures raw_key { IfOk result (λ raw. IsTrue (is_raw_text raw)) }
{
    field_key(alloc, key, version, &index.to_be_bytes())
}

/// The raw key of a member of a sorted set by its score.
///
/// It is the prefix of the life in the space of scores, the score and 2^63 in eight bytes, high byte first, and the
/// member. So the raw keys of a life ascend by score, and by member where scores are equal.
#[tactic(auto, using(crate::specs::ElementKeyLaws::score_key_is_raw), unfolding(kv_base::specs::RawKeys::raw_text, kv_base::specs::Fields::u64))]
pub fn score_key(
    alloc: Global,
    key: &Key,
    version: u64,
    score: i64,
    member: &[u8],
) -> Result<Blob, NoMem>
    requires version { IsTrue (is_version version) }
    requires score { IsTrue (is_score score) }
    requires member { IsTrue (is_key member.now) }
    ensures bytes { IfOk result (λ raw. raw ≡ raw_text (ScoreKey key.now version score member.now)) }
    ensures raw_key { IfOk result (λ raw. IsTrue (is_raw_text raw)) }
{
    let mut raw = life_with_room(alloc, SCORES, key, version, 8 + member.len())?;
    raw.extend_from_slice(&score_number(score).to_be_bytes())?;
    raw.extend_from_slice(member)?;
    Ok(Blob::from_vec(raw))
}

/// What the raw keys of one life of a key begin with, in the space `ELEMENTS` or `SCORES`.
///
/// It is the byte of the space, the byte 0, the key's length in four bytes, the key, and the version in eight bytes.
/// Numbers have their high byte first. The 0 is the length of a namespace, which is always empty.
pub fn life_prefix(alloc: Global, space: u8, key: &Key, version: u64) -> Result<Blob, NoMem>
    requires space { IsTrue (is_life_space space) }
    requires version { IsTrue (is_version version) }
    ensures { IfOk result (λ prefix. prefix ≡ prefix_of space key.now version) }
{
    let prefix = life_with_room(alloc, space, key, version, 0)?;
    Ok(Blob::from_vec(prefix))
}

/// The prefix of a life, with room for so many bytes behind it.
#[tactic(auto, unfolding(kv_base::specs::Fields::text, kv_base::specs::Fields::u32, kv_base::specs::Fields::u64))]
fn life_with_room(
    alloc: Global,
    space: u8,
    key: &Key,
    version: u64,
    room: usize,
) -> Result<Vec<u8>, NoMem>
    requires { room ≤ MAX_BEHIND }
    ensures bytes { IfOk result (λ raw. raw.items ≡ prefix_of space key.now version) }
    ensures room { IfOk result (λ raw. length (prefix_of space key.now version) + room ≤ vec_capacity raw) }
    ensures key { IsTrue (is_key key.now) }
{
    let key = key.bytes();
    let length = key.len() as u32;
    let mut raw = Vec::with_capacity(alloc, 2 + 4 + key.len() + 8 + room)?;
    raw.extend_from_slice(&[space, 0])?;
    raw.extend_from_slice(&length.to_be_bytes())?;
    raw.extend_from_slice(key)?;
    raw.extend_from_slice(&version.to_be_bytes())?;
    Ok(raw)
}
