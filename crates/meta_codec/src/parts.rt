//! What metadata says, without memory.

ghost use Rattle.std.specs.Prelude.{◌≡◌};
ghost use Rattle.kv_base.specs.RowRefs.{meta_seen};
ghost use Rattle.kv_base.specs.MetaValues.{expire_of, version_of};
ghost use Rattle.meta_codec.specs.Metas.{is_expired, size_of, with_expire};

use kv_base::MetaRef;

/// The deadline in milliseconds, or 0 for none.
pub fn expire_of(meta: MetaRef<'_>) -> u64
    ensures { result ≡ expire_of (meta_seen meta.entry) }
{
    match meta {
        MetaRef::Str { expire, .. } => expire,
        MetaRef::Life { expire, .. } => expire,
        MetaRef::List { expire, .. } => expire,
    }
}

/// Has the deadline come at a moment? Both are in milliseconds.
///
/// A deadline has come at its own moment, and an `expire` of 0 stands for none.
pub fn is_expired(expire: u64, moment: u64) -> bool
    ensures { result ≡ is_expired expire moment }
{
    expire != 0 && expire <= moment
}

/// The same metadata with another deadline, or with none where `expire` is 0.
pub fn with_expire(meta: MetaRef<'_>, expire: u64) -> MetaRef<'_>
    ensures { meta_seen result ≡ with_expire expire (meta_seen meta.entry) }
{
    match meta {
        MetaRef::Str { payload, .. } => MetaRef::Str { expire, payload },
        MetaRef::Life {
            kind,
            version,
            size,
            ..
        } => MetaRef::Life {
            kind,
            expire,
            version,
            size,
        },
        MetaRef::List {
            version,
            head,
            tail,
            ..
        } => MetaRef::List {
            expire,
            version,
            head,
            tail,
        },
    }
}

/// The version of a collection's life; `None` exactly at a string.
pub fn version_of(meta: MetaRef<'_>) -> Option<u64>
    ensures { result ≡ version_of (meta_seen meta.entry) }
{
    match meta {
        MetaRef::Str { .. } => None,
        MetaRef::Life { version, .. } => Some(version),
        MetaRef::List { version, .. } => Some(version),
    }
}

/// The number of a collection's elements; `None` exactly at a string.
pub fn size_of(meta: MetaRef<'_>) -> Option<u64>
    ensures { result ≡ size_of (meta_seen meta.entry) }
{
    match meta {
        MetaRef::Str { .. } => None,
        MetaRef::Life { size, .. } => Some(size),
        MetaRef::List { head, tail, .. } => Some(tail.saturating_sub(head)),
    }
}
