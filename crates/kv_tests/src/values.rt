//! Values of rows, byte by byte, by `docs/ROWS.md`.

use kv_base::is_value;
use meta_codec::{Kind, MetaRef, encode_meta};
use std::test::Fail;

/// Rows that the grammar takes or refuses.
const ROWS: [(&[u8], &[u8], bool); 15] = [
    // the string 1, sets of no member and of three, and none of these
    (METADATA, STRING, true),
    (METADATA, NO_MEMBER, false),
    (METADATA, THREE_MEMBERS, true),
    (METADATA, b"1", false),
    // a field
    (FIELD, b"1", true),
    // members by the scores -2^53 and one below it
    (LEAST_SCORE, b"", true),
    (LEAST_SCORE, b"1", false),
    (LOWER_SCORE, b"", false),
    // no raw keys: the last ones have a key of two bytes of which one is there, a version of 2^53, and a score of seven bytes
    (b"", STRING, false),
    (b"m", STRING, false),
    (b"m\x01a", STRING, false),
    (b"x\x00a", STRING, false),
    (LONGER_KEY, b"1", false),
    (GREATER_VERSION, b"1", false),
    (SHORTER_SCORE, b"", false),
];

const METADATA: &[u8] = b"\x6D\x00a";

const FIELD: &[u8] = b"\x73\x00\x00\x00\x00\x01a\x00\x00\x00\x00\x00\x00\x08\x00f";

const LEAST_SCORE: &[u8] =
    b"\x7A\x00\x00\x00\x00\x01a\x00\x00\x00\x00\x00\x00\x08\x00\x7F\xE0\x00\x00\x00\x00\x00\x00m";

const LOWER_SCORE: &[u8] =
    b"\x7A\x00\x00\x00\x00\x01a\x00\x00\x00\x00\x00\x00\x08\x00\x7F\xDF\xFF\xFF\xFF\xFF\xFF\xFFm";

const LONGER_KEY: &[u8] = b"\x73\x00\x00\x00\x00\x0Aa\x00\x00\x00\x00\x00\x00\x08\x00";

const GREATER_VERSION: &[u8] = b"\x73\x00\x00\x00\x00\x01a\x00\x20\x00\x00\x00\x00\x00\x00f";

const SHORTER_SCORE: &[u8] =
    b"\x7A\x00\x00\x00\x00\x01a\x00\x00\x00\x00\x00\x00\x08\x00\x80\x00\x00\x00\x00\x00\x00";

const STRING: &[u8] = b"\x81\x00\x00\x00\x00\x00\x00\x00\x001";

const NO_MEMBER: &[u8] =
    b"\x84\x00\x00\x00\x00\x00\x00\x00\x00\x00\x00\x00\x00\x00\x00\x08\x00\x00\x00\x00\x00\x00\x00\x00\x00";

const THREE_MEMBERS: &[u8] =
    b"\x84\x00\x00\x00\x00\x00\x00\x00\x00\x00\x00\x00\x00\x00\x00\x08\x00\x00\x00\x00\x00\x00\x00\x00\x03";

const LIST: &[u8] = b"\x83\x00\x00\x00\x00\x00\x00\x00\x00\x00\x00\x00\x00\x00\x00\x08\x00\
    \x00\x00\x00\x00\x00\x00\x00\x02\x7F\xFF\xFF\xFF\xFF\xFF\xFF\xFF\x80\x00\x00\x00\x00\x00\x00\x01";

#[test]
fn rows_have_their_grammar(rt: HostRuntime) {
    for (raw, value, is) in ROWS {
        assert_eq!(rt; is_value(raw, value), is, "at {raw:?}");
    }
}

#[test]
#[tactic(auto, unfolding(kv_base::specs::MetaValues::is_meta_within))]
fn metadata_has_these_bytes(rt: HostRuntime) -> Result<(), Fail> {
    let set = MetaRef::Life {
        kind: Kind::Set,
        expire: 0,
        version: 2048,
        size: 3,
    };
    assert_eq!(rt; encode_meta(rt.alloc(), set)?.bytes(), THREE_MEMBERS);
    let list = MetaRef::List {
        expire: 0,
        version: 2048,
        head: (1 << 63) - 1,
        tail: (1 << 63) + 1,
    };
    assert_eq!(rt; encode_meta(rt.alloc(), list)?.bytes(), LIST);
    Ok(())
}
