//! The rows of sorted sets and strings, by the codecs.

use kv_base::{Blob, Key};
use lives_model::ListView;
use meta_codec::meta_key;
use std::alloc::Global;
use std::test::Fail;
use subkey_codec::{field_key, score_key, score_value};

/// The version of every life.
const VERSION: u64 = 7;

/// The greatest score.
const MOST_SCORE: i64 = 1 << 53;

/// A key of this text, which is short.
pub(crate) fn key_of(alloc: Global, text: &str) -> Result<Key, Fail> {
    let blob = Blob::copy(alloc, text.as_bytes())?;
    let key = Key::new(blob).ok().ok_or("a key over the limits")?;
    Ok(key)
}

/// Lays down the metadata of a sorted set that is to have so many members: the byte 133, no deadline, its version and its
/// size.
pub(crate) fn put_sorted_set(
    alloc: Global,
    view: &mut ListView,
    key: &Key,
    size: u64,
) -> Result<(), Fail> {
    let mut value = Vec::new(alloc);
    value.push(133)?;
    for number in [0, VERSION, size] {
        value.extend_from_slice(&number.to_be_bytes())?;
    }
    view.insert(meta_key(alloc, key)?, Blob::from_vec(value))?;
    Ok(())
}

/// Lays down the two rows of a member.
pub(crate) fn put_member(
    alloc: Global,
    view: &mut ListView,
    key: &Key,
    member: &Key,
    score: i64,
) -> Result<(), Fail> {
    if score < -MOST_SCORE || MOST_SCORE < score {
        return Err("a score over the limits".into());
    }
    let element = field_key(alloc, key, VERSION, member.bytes())?;
    view.insert(element, score_value(alloc, score)?)?;
    let rank = score_key(alloc, key, VERSION, score, member.bytes())?;
    view.insert(rank, Blob::copy(alloc, &[])?)?;
    Ok(())
}

/// Lays down a string: the byte 129, no deadline, and the text.
pub(crate) fn put_text(alloc: Global, view: &mut ListView, key: &Key) -> Result<(), Fail> {
    let mut value = Vec::new(alloc);
    value.push(129)?;
    value.extend_from_slice(&[0; 8])?;
    value.extend_from_slice(b"text")?;
    view.insert(meta_key(alloc, key)?, Blob::from_vec(value))?;
    Ok(())
}
