//! The first byte of metadata: 128, which says that it is of the newer of Kvrocks's two forms, and the number of the type.

/// A string.
pub const STRING: u8 = 0x81;

/// A hash.
pub const HASH: u8 = 0x82;

/// A list.
pub const LIST: u8 = 0x83;

/// A set.
pub const SET: u8 = 0x84;

/// A sorted set.
pub const ZSET: u8 = 0x85;
