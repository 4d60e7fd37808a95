use kv_base::{Blob, Items};

/// The word that TYPE answers (Redis command reference, TYPE).
#[derive(Clone, Copy, Debug, PartialEq, Eq)]
pub enum TypeWord {
    /// `none`: there is no such key.
    None,
    /// `string`.
    Str,
    /// `hash`.
    Hash,
    /// `list`.
    List,
    /// `set`.
    Set,
    /// `zset`, a sorted set.
    ZSet,
}

/// An error that the machine answers. After each the keys are as they were. `specs/Render.antt` has the texts; those of
/// the first six are Redis's, all others are this server's own.
#[derive(Clone, Copy, Debug, PartialEq, Eq)]
pub enum ReplyError {
    /// A key that the command reads as one type holds another.
    WrongType,
    /// A string that is to go up or down is no number of 64 bits.
    NotInt,
    /// A hash's value that is to go up is no number of 64 bits.
    HashNotInt,
    /// The sum does not fit 64 bits.
    Overflow,
    /// LSET on no key.
    NoSuchKey,
    /// LSET at a place that the list does not have.
    IndexRange,
    /// The sum of scores is out of range.
    ScoreRange,
    /// A string would pass 1,048,576 bytes, or a collection 2^32 - 1 elements.
    TooLarge,
    /// A writing command or a transaction of a caller that keeps a pin.
    Pinned,
    /// The caller keeps a pin already.
    AlreadyPinned,
    /// The caller keeps no pin.
    NotPinned,
}

/// A list of replies.
pub type Replies = Items<Reply>;

/// The answer to a command, to a transaction or to a pin. On the wire it is a reply of RESP2, the Redis serialization
/// protocol, by `specs/Render.antt`.
#[derive(Debug, Drop)]
pub enum Reply {
    /// `OK`, as a simple string.
    Ok,
    /// `PONG`, as a simple string.
    Pong,
    /// The name of a type, as a simple string.
    Word(TypeWord),
    /// A whole number.
    Int(i64),
    /// Bytes of any kind, as a bulk string.
    Bulk(Blob),
    /// The null bulk string.
    Null,
    /// The null array.
    NullArray,
    /// An array of replies.
    Array(Items<Reply>),
    /// An error.
    Error(ReplyError),
}
