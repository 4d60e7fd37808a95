//! Metadata and its raw keys as bytes, each in one buffer of its exact size.

ghost use Rattle.std.specs.Prelude.{◌≡◌, ◌≤◌, ◌+◌, ◌∷◌, ◌++◌, IfOk, OnOk, IsTrue, Some, length, vec_capacity};
ghost use Rattle.kv_base.specs.Fields.{u64 as number};
ghost use Rattle.kv_base.specs.MetaValues.{LifeValue, ListValue, StringValue, is_meta_within, kind_flags, meta_text, read_meta};
ghost use Rattle.kv_base.specs.RawKeys.{MetaKey, is_raw_text, raw_text};
ghost use Rattle.kv_base.specs.RowRefs.{meta_seen};

use kv_base::flags::{HASH, LIST, SET, STRING, ZSET};
use kv_base::{Blob, Key, Kind, MAX_VALUE, MetaRef, NoMem};
use std::alloc::Global;

/// The length of what all metadata begins with: the flags and the deadline.
const HEAD_LEN: usize = 9;

/// The raw key of a key's metadata: the byte `m`, the byte 0, which is the length of an empty namespace, and the key.
#[tactic(auto, using(crate::specs::MetaKeyLaws::meta_key_is_raw), unfolding(kv_base::specs::RawKeys::raw_text))]
pub fn meta_key(alloc: Global, key: &Key) -> Result<Blob, NoMem>
    ensures bytes { IfOk result (λ raw. raw ≡ raw_text (MetaKey key.now)) }
    ensures raw_key { IfOk result (λ raw. IsTrue (is_raw_text raw)) }
{
    let key = key.bytes();
    let mut raw = Vec::with_capacity(alloc, 2 + key.len())?;
    raw.extend_from_slice(&[b'm', 0])?;
    raw.extend_from_slice(key)?;
    Ok(Blob::from_vec(raw))
}

/// The bytes of metadata, from which `decode_meta` reads it back.
///
/// Metadata is one of these, where numbers have eight bytes, their high byte first:
/// - of a string: the byte 129, the deadline and the payload;
/// - of a hash, a set or a sorted set: the byte 130, 132 or 133, the deadline, the version and the size;
/// - of a list: the byte 131, the deadline, the version, the size, the head and the tail, where the size is the tail
///   less the head.
#[tactic(auto, using(kv_base::specs::MetaValueLaws::meta_is_read))]
pub fn encode_meta(alloc: Global, meta: MetaRef<'_>) -> Result<Blob, NoMem>
    requires { IsTrue (is_meta_within (meta_seen meta)) }
    ensures bytes { IfOk result (λ value. value ≡ meta_text (meta_seen meta.entry)) }
    ensures read { IfOk result (λ value. read_meta value ≡ Some (meta_seen meta.entry)) }
{
    match meta {
        MetaRef::Str { expire, payload } => encode_string(alloc, expire, payload),
        MetaRef::Life {
            kind,
            expire,
            version,
            size,
        } => encode_life(alloc, kind, expire, version, size),
        MetaRef::List {
            expire,
            version,
            head,
            tail,
        } => encode_list(alloc, expire, version, head, tail),
    }
}

#[tactic(auto, unfolding(kv_base::specs::MetaValues::meta_text))]
fn encode_string(alloc: Global, expire: u64, payload: &[u8]) -> Result<Blob, NoMem>
    requires { length payload.now ≤ MAX_VALUE }
    ensures { IfOk result (λ value. value ≡ meta_text (StringValue expire payload.now)) }
{
    let mut value = begin(alloc, STRING, expire, payload.len())?;
    value.extend_from_slice(payload)?;
    Ok(Blob::from_vec(value))
}

#[tactic(auto, unfolding(kv_base::specs::MetaValues::meta_text))]
fn encode_life(
    alloc: Global,
    kind: Kind,
    expire: u64,
    version: u64,
    size: u64,
) -> Result<Blob, NoMem>
    ensures { IfOk result (λ value. value ≡ meta_text (LifeValue kind expire version size)) }
{
    let mut value = begin(alloc, kind_flags(kind), expire, 8 + 8)?;
    add_numbers(&mut value, version, size)?;
    Ok(Blob::from_vec(value))
}

#[tactic(auto, unfolding(kv_base::specs::MetaValues::meta_text))]
fn encode_list(
    alloc: Global,
    expire: u64,
    version: u64,
    head: u64,
    tail: u64,
) -> Result<Blob, NoMem>
    ensures { IfOk result (λ value. value ≡ meta_text (ListValue expire version head tail)) }
{
    let size = tail.saturating_sub(head);
    let mut value = begin(alloc, LIST, expire, 8 + 8 + 8 + 8)?;
    add_numbers(&mut value, version, size)?;
    add_numbers(&mut value, head, tail)?;
    Ok(Blob::from_vec(value))
}

fn kind_flags(kind: Kind) -> u8
    ensures { result ≡ kind_flags kind }
{
    match kind {
        Kind::Hash => HASH,
        Kind::Set => SET,
        Kind::ZSet => ZSET,
    }
}

/// Flags and a deadline, with room for so many bytes behind them.
#[tactic(auto, unfolding(kv_base::specs::Fields::u64))]
fn begin(alloc: Global, flags: u8, expire: u64, room: usize) -> Result<Vec<u8>, NoMem>
    requires { room ≤ MAX_VALUE }
    ensures bytes { IfOk result (λ value. value.items ≡ flags ∷ number expire) }
    ensures room { IfOk result (λ value. HEAD_LEN + room ≤ vec_capacity value) }
{
    let mut value = Vec::with_capacity(alloc, HEAD_LEN + room)?;
    value.push(flags)?;
    value.extend_from_slice(&expire.to_be_bytes())?;
    Ok(value)
}

/// Adds two numbers in eight bytes each, their high byte first.
#[tactic(auto, unfolding(kv_base::specs::Fields::u64))]
fn add_numbers(value: &mut Vec<u8>, first: u64, second: u64) -> Result<(), NoMem>
    ensures { OnOk result (value.new.items ≡ value.old.items ++ (number first ++ number second)) }
{
    value.extend_from_slice(&first.to_be_bytes())?;
    value.extend_from_slice(&second.to_be_bytes())?;
    Ok(())
}
