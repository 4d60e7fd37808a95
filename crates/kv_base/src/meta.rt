//! The values of rows.

ghost use Rattle.std.specs.Prelude.{◌≡◌, option_map};
ghost use Rattle.kv_base.specs.MetaValues.{is_deadline, is_life, is_score, is_size, is_value_text, is_meta_within, kind_from, life_with, list_with, meta_parts as parts_of, read_life_numbers, read_meta};
ghost use Rattle.kv_base.specs.RowRefs.{meta_seen};

use crate::fields::take_u64;
use crate::flags::{HASH, LIST, SET, STRING, ZSET};
use crate::kind::Kind;
use crate::raw::{VERSIONS, decode_raw};
use crate::raw_ref::{MetaRef, RawRef};

/// The most bytes of a string, and of the value of an element.
pub const MAX_VALUE: usize = 1048576;

/// The latest deadline, in milliseconds.
const MAX_DEADLINE: u64 = 1 << 62;

/// The sizes of collections are below this number.
const SIZES: u64 = 1 << 32;

/// Scores lie between this number and its negative.
const MAX_SCORE: i64 = 1 << 53;

/// Is `raw` a raw key, and is the value of the shape that it asks for?
///
/// - The value of metadata is metadata, as `decode_meta` takes it.
/// - The value of an element has at most 1,048,576 bytes.
/// - The value of a score is empty, and the score lies from -2^53 to 2^53.
#[tactic(auto, unfolding(crate::specs::MetaValues::is_value_text))]
pub fn is_value(raw: &[u8], value: &[u8]) -> bool
    ensures { result ≡ is_value_text raw.now value.now }
{
    match decode_raw(raw) {
        None => false,
        Some(RawRef::Meta { .. }) => decode_meta(value).is_some(),
        Some(RawRef::Sub { .. }) => value.len() <= MAX_VALUE,
        Some(RawRef::Score { score, .. }) => is_score(score) && value.is_empty(),
    }
}

fn is_score(score: i64) -> bool
    ensures { result ≡ is_score score }
{
    -MAX_SCORE <= score && score <= MAX_SCORE
}

/// What metadata says; `None` exactly where these bytes are none.
///
/// Metadata is one of these, where numbers have eight bytes, their high byte first:
/// - of a string: the byte 129, the deadline and the payload, of at most 1,048,576 bytes;
/// - of a hash, a set or a sorted set: the byte 130, 132 or 133, the deadline, the version and the size;
/// - of a list: the byte 131, the deadline, the version, the size, the head and the tail, where the size is the tail
///   less the head.
///
/// A deadline is at most 2^62 milliseconds, and 0 stands for none. A version is below 2^53, and a size is from 1 to
/// 2^32 - 1.
#[tactic(auto, unfolding(crate::specs::MetaValues::read_meta))]
pub fn decode_meta(value: &[u8]) -> Option<MetaRef<'_>>
    ensures { option_map meta_seen result ≡ read_meta value.now }
{
    let (flags, bytes) = value.split_first()?;
    let parts = meta_parts(*flags, bytes)?;
    if is_meta_within(parts) {
        Some(parts)
    } else {
        None
    }
}

/// What metadata of this type says, also beyond its limits.
#[tactic(auto, unfolding(crate::specs::MetaValues::meta_parts))]
fn meta_parts(flags: u8, bytes: &[u8]) -> Option<MetaRef<'_>>
    ensures { option_map meta_seen result ≡ parts_of flags bytes.now }
{
    match flags {
        STRING => {
            let (expire, payload) = take_u64(bytes)?;
            Some(MetaRef::Str { expire, payload })
        }
        LIST => list_with(take_life_numbers(bytes)?),
        _ => life_with(kind_from(flags)?, take_life_numbers(bytes)?),
    }
}

fn kind_from(flags: u8) -> Option<Kind>
    ensures { result ≡ kind_from flags }
{
    match flags {
        HASH => Some(Kind::Hash),
        SET => Some(Kind::Set),
        ZSET => Some(Kind::ZSet),
        _ => None,
    }
}

/// What the metadata of every collection begins with, and what is behind it.
#[derive(Clone, Copy)]
struct LifeNumbers<'a> {
    expire: u64,
    version: u64,
    size: u64,
    behind: &'a [u8],
}

#[tactic(auto, unfolding(crate::specs::MetaValues::read_life_numbers))]
fn take_life_numbers(bytes: &[u8]) -> Option<LifeNumbers<'_>>
    ensures { option_map (λ n. record { deadline = n.expire; version = n.version; size = n.size; behind = n.behind.now }) result ≡ read_life_numbers bytes.now }
{
    let (expire, rest) = take_u64(bytes)?;
    let (version, rest) = take_u64(rest)?;
    let (size, behind) = take_u64(rest)?;
    Some(LifeNumbers {
        expire,
        version,
        size,
        behind,
    })
}

fn life_with(kind: Kind, numbers: LifeNumbers<'_>) -> Option<MetaRef<'_>>
    ensures { option_map meta_seen result ≡ life_with kind (record { deadline = numbers.entry.expire; version = numbers.entry.version; size = numbers.entry.size; behind = numbers.entry.behind.now }) }
{
    let LifeNumbers {
        expire,
        version,
        size,
        behind,
    } = numbers;
    if behind.is_empty() {
        Some(MetaRef::Life {
            kind,
            expire,
            version,
            size,
        })
    } else {
        None
    }
}

fn list_with(numbers: LifeNumbers<'_>) -> Option<MetaRef<'_>>
    ensures { option_map meta_seen result ≡ list_with (record { deadline = numbers.entry.expire; version = numbers.entry.version; size = numbers.entry.size; behind = numbers.entry.behind.now }) }
{
    let LifeNumbers {
        expire,
        version,
        size,
        behind,
    } = numbers;
    let (head, rest) = take_u64(behind)?;
    let (tail, rest) = take_u64(rest)?;
    if size == tail.saturating_sub(head) && rest.is_empty() {
        Some(MetaRef::List {
            expire,
            version,
            head,
            tail,
        })
    } else {
        None
    }
}

/// Is what the metadata says within the limits?
#[tactic(auto, unfolding(crate::specs::MetaValues::is_meta_within))]
fn is_meta_within(meta: MetaRef<'_>) -> bool
    ensures { result ≡ is_meta_within (meta_seen meta.entry) }
{
    match meta {
        MetaRef::Str { expire, payload } => expire <= MAX_DEADLINE && payload.len() <= MAX_VALUE,
        MetaRef::Life {
            kind: _,
            expire,
            version,
            size,
        } => is_life(expire, version, size),
        MetaRef::List {
            expire,
            version,
            head,
            tail,
        } => { is_life(expire, version, tail.saturating_sub(head)) }
    }
}

fn is_life(expire: u64, version: u64, size: u64) -> bool
    ensures { result ≡ is_life expire version size }
{
    expire <= MAX_DEADLINE && version < VERSIONS && 1 <= size && size < SIZES
}
