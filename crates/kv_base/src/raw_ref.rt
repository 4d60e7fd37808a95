use crate::kind::Kind;

/// A raw key by its parts, which stand in its bytes.
#[derive(Clone, Copy, Debug)]
pub enum RawRef<'a> {
    /// The raw key of a key's metadata.
    Meta {
        key: &'a [u8],
    },
    /// The raw key of an element: a field, a member, or the place in a list.
    Sub {
        key: &'a [u8],
        version: u64,
        subkey: &'a [u8],
    },
    /// The raw key of a member of a sorted set by its score.
    Score {
        key: &'a [u8],
        version: u64,
        score: i64,
        member: &'a [u8],
    },
}

/// What a key's metadata says; the payload of a string stands in the metadata's bytes.
///
/// An `expire` of 0 stands for no deadline, and any other is a deadline in milliseconds.
#[derive(Clone, Copy, Debug)]
pub enum MetaRef<'a> {
    /// A string.
    Str {
        expire: u64,
        payload: &'a [u8],
    },
    /// A hash, a set or a sorted set of `size` elements.
    Life {
        kind: Kind,
        expire: u64,
        version: u64,
        size: u64,
    },
    /// A list, whose elements stand at the places from `head` to `tail - 1`.
    List {
        expire: u64,
        version: u64,
        head: u64,
        tail: u64,
    },
}
