//! Raw keys and numbers of elements, byte by byte, by `docs/ROWS.md`.

use kv_base::{Blob, Key};
use std::alloc::Global;
use std::test::Fail;
use subkey_codec::{
    SCORES, decode_index, decode_score, field_key, index_key, life_prefix, score_key, score_value,
};

/// The key `k`.
fn key(alloc: Global) -> Result<Key, Fail> {
    Ok(Key::new(Blob::copy(alloc, b"k")?)?)
}

#[test]
fn a_field_has_these_bytes(rt: HostRuntime) -> Result<(), Fail> {
    assert_eq!(rt;
        field_key(rt.alloc(), &key(rt.alloc())?, 2048, b"f")?.bytes(),
        b"\x73\x00\x00\x00\x00\x01k\x00\x00\x00\x00\x00\x00\x08\x00f".as_slice()
    );
    Ok(())
}

#[test]
fn an_item_has_these_bytes(rt: HostRuntime) -> Result<(), Fail> {
    assert_eq!(rt;
        index_key(rt.alloc(), &key(rt.alloc())?, 2048, 1 << 63)?.bytes(),
        b"\x73\x00\x00\x00\x00\x01k\x00\x00\x00\x00\x00\x00\x08\x00\x80\x00\x00\x00\x00\x00\x00\x00".as_slice()
    );
    Ok(())
}

#[test]
fn a_member_by_its_score_has_these_bytes(rt: HostRuntime) -> Result<(), Fail> {
    assert_eq!(rt;
        score_key(rt.alloc(), &key(rt.alloc())?, 2048, -(1 << 53), b"m")?.bytes(),
        b"\x7A\x00\x00\x00\x00\x01k\x00\x00\x00\x00\x00\x00\x08\x00\x7F\xE0\x00\x00\x00\x00\x00\x00m".as_slice()
    );
    Ok(())
}

#[test]
fn a_life_begins_with_these_bytes(rt: HostRuntime) -> Result<(), Fail> {
    assert_eq!(rt;
        life_prefix(rt.alloc(), SCORES, &key(rt.alloc())?, (1 << 53) - 1)?.bytes(),
        b"\x7A\x00\x00\x00\x00\x01k\x00\x1F\xFF\xFF\xFF\xFF\xFF\xFF".as_slice()
    );
    Ok(())
}

#[test]
fn scores_and_places_have_these_bytes(rt: HostRuntime) -> Result<(), Fail> {
    for (score, bytes) in [
        (0, b"\x80\x00\x00\x00\x00\x00\x00\x00".as_slice()),
        (1 << 53, b"\x80\x20\x00\x00\x00\x00\x00\x00".as_slice()),
        (-(1 << 53), b"\x7F\xE0\x00\x00\x00\x00\x00\x00".as_slice()),
    ] {
        assert_eq!(rt; score_value(rt.alloc(), score)?.bytes(), bytes);
        assert_eq!(rt; decode_score(bytes), Some(score));
    }
    assert_eq!(rt;
        decode_index(b"\x80\x00\x00\x00\x00\x00\x00\x01"),
        Some((1 << 63) + 1)
    );
    Ok(())
}
