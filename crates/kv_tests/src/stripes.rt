//! FNV-1a by its published values, and the stripes of a few commands by values that were computed apart.

use kv_base::{Blob, Key, Keys, fnv1a};
use redis_model::{Command, End};
use std::alloc::Global;
use std::test::Fail;

#[test]
fn hashes(rt: HostRuntime) {
    assert_eq!(rt; fnv1a(2166136261, b""), 0x811c9dc5);
    assert_eq!(rt; fnv1a(2166136261, b"a"), 0xe40c292c);
    assert_eq!(rt; fnv1a(2166136261, b"foobar"), 0xbf9cf968);
}

fn key(alloc: Global, text: &[u8]) -> Result<Key, Fail> {
    Ok(Key::new(Blob::copy(alloc, text)?)?)
}

/// `a`, `b`, and `a` again.
fn keys(alloc: Global) -> Result<Keys, Fail> {
    let mut keys = Keys::new(alloc);
    keys.push(key(alloc, b"a")?)?;
    keys.push(key(alloc, b"b")?)?;
    keys.push(key(alloc, b"a")?)?;
    Ok(keys)
}

/// The stripe of a is 12, that of b 5, and that of e 0.
#[test]
fn commands_have_the_stripes_of_their_keys(rt: HostRuntime) -> Result<(), Fail> {
    let alloc = rt.alloc();
    assert_eq!(rt; Command::Select(0, 0).stripes().bits, 0);
    let m_get = Command::MGet(keys(alloc)?, 0);
    assert_eq!(rt; m_get.stripes().bits, 0x1020);
    let l_move = Command::LMove(
        key(alloc, b"b")?,
        key(alloc, b"e")?,
        End::Left,
        End::Right,
        0,
    );
    assert_eq!(rt; l_move.stripes().bits, 0x0021);
    let store = Command::SUnionStore(key(alloc, b"e")?, keys(alloc)?, 0);
    assert_eq!(rt; store.stripes().bits, 0x1021);
    Ok(())
}
