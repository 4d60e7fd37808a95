//! The life of a collection: what the metadata of its key tells of it, and its elements, one at a time.

ghost use Rattle.std.specs.Prelude.{◌≡◌, IfOk, IfSome, IsTrue, Some, option_map};
ghost use Rattle.kv_base.specs.Map.{get};
ghost use Rattle.kv_base.specs.RawKeys.{is_key, is_raw_text, is_version};
ghost use Rattle.kv_base.specs.MetaValues.{is_meta_within};
ghost use Rattle.kv_base.specs.RowRefs.{meta_seen};
ghost use Rattle.lives_model.specs.Rows.{Elements, row_key};
ghost use Rattle.lives_model.specs.Views.{ReadsView};
ghost use Rattle.plan_base.specs.Seen.{IsFoundMeta};
ghost use Rattle.plan_base.specs.Lives.{HasSizeIn, HasVersionIn, is_code, life_found};

use kv_base::{Blob, Key, NoMem, StoreFault};
use lives_model::RawView;
use meta_codec::{Kind, MetaRef};
use redis_model::ReplyError;
use std::alloc::Global;
use subkey_codec::field_key;

/// What the metadata of a hash, a set or a sorted set tells of its life.
#[derive(Clone, Copy, Debug)]
pub struct LifeSight {
    /// The version of the life, which stands in the raw keys of its rows.
    pub version: u64,
    /// The number of its elements.
    pub size: u64,
}

fn is_code(kind: Kind, other: Kind) -> bool
    ensures { result ≡ is_code kind other }
{
    match (kind, other) {
        (Kind::Hash, Kind::Hash) => true,
        (Kind::Set, Kind::Set) => true,
        (Kind::ZSet, Kind::ZSet) => true,
        _ => false,
    }
}

/// The life of a collection of a kind, in metadata that was read; `None` exactly where there is no key. Its version and its
/// size are within their limits, as those of the metadata.
///
/// The error is `WrongType`, exactly where the key holds another type.
pub fn life_found(kind: Kind, found: Option<MetaRef<'_>>) -> Result<Option<LifeSight>, ReplyError>
    requires within { IsFoundMeta (option_map meta_seen found) }
    ensures life { result ≡ life_found kind (option_map meta_seen found.entry) }
    ensures version { IfOk result (λ life. HasVersionIn life) }
    ensures size { IfOk result (λ life. HasSizeIn life) }
{
    match found {
        None => Ok(None),
        Some(meta) => life_of(kind, meta),
    }
}

fn life_of(kind: Kind, meta: MetaRef<'_>) -> Result<Option<LifeSight>, ReplyError>
    requires within { IsTrue (is_meta_within (meta_seen meta)) }
    ensures life { result ≡ life_found kind (Some (meta_seen meta.entry)) }
    ensures version { IfOk result (λ life. HasVersionIn life) }
    ensures size { IfOk result (λ life. HasSizeIn life) }
{
    let MetaRef::Life {
        kind: other,
        expire: _,
        version,
        size,
    } = meta
    else {
        return Err(ReplyError::WrongType);
    };
    if is_code(kind, other) {
        Ok(Some(LifeSight { version, size }))
    } else {
        Err(ReplyError::WrongType)
    }
}

/// The raw key of an element in a life of a key: a field, or a member.
#[tactic(auto, unfolding(lives_model::specs::Rows::row_key, kv_base::specs::RawKeys::raw_text))]
pub fn element_key(alloc: Global, key: &Key, version: u64, subkey: &[u8]) -> Result<Blob, NoMem>
    requires version { IsTrue (is_version version) }
    requires subkey { IsTrue (is_key subkey.now) }
    ensures bytes { IfOk result (λ raw. raw ≡ row_key Elements key.now version subkey.now) }
    ensures raw_key { IfOk result (λ raw. IsTrue (is_raw_text raw)) }
{
    field_key(alloc, key, version, subkey)
}

/// What stands under a subkey in a life of a key: the value of a field, the score of a member, nothing but its being there
/// for a member of a set; `None` exactly where there is no such element. One row is looked up, whatever the size of the
/// collection.
///
/// The fault is one of the view, or want of memory. It leaves the view's rows as they are, as does an answer.
pub fn read_element<V: RawView>(
    alloc: Global,
    view: &mut V,
    key: &Key,
    version: u64,
    subkey: &[u8],
) -> Result<Option<Blob>, StoreFault>
    requires version { IsTrue (is_version version) }
    requires subkey { IsTrue (is_key subkey.now) }
    ensures value { IfOk result (λ value. IfSome (V.told view.old).rows (λ c. value ≡ get c (row_key Elements key.now version subkey.now))) }
    ensures reads { ReadsView (V.told view.old) (V.told view.new) result }
{
    let raw = element_key(alloc, key, version, subkey)?;
    let value = view.get(alloc, raw.bytes())?;
    Ok(value)
}
