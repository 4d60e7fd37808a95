//! What planners put into a batch of metadata of every type, and the rows of a view after a batch, which no run of the
//! server asks for yet.

use batch_codec::{Batch, BatchBuilder};
use kv_base::{Blob, Key, NoMem};
use lives_model::{ListView, LiveRows, RawView};
use meta_codec::{Kind, MetaRef, decode_meta};
use plan_base::{MetaKey, Overlay, delete_key, put_deadline, put_meta, put_string};
use std::test::Fail;

/// A set of two members in the life 2048, with no deadline.
const TWO: &[u8] =
    b"\x84\x00\x00\x00\x00\x00\x00\x00\x00\x00\x00\x00\x00\x00\x00\x08\x00\x00\x00\x00\x00\x00\x00\x00\x02";

/// The same with the deadline 258.
const TIMED: &[u8] =
    b"\x84\x00\x00\x00\x00\x00\x00\x01\x02\x00\x00\x00\x00\x00\x00\x08\x00\x00\x00\x00\x00\x00\x00\x00\x02";

fn key(rt: HostRuntime, name: &[u8]) -> Result<MetaKey, Fail> {
    let name = Key::new(Blob::copy(rt.alloc(), name)?)?;
    Ok(MetaKey::new(rt.alloc(), &name)?)
}

/// What the batch puts at the metadata of `k`.
fn value(batch: &Batch) -> Result<Option<&[u8]>, Fail> {
    Ok(batch.find(b"m\x00k").ok_or("a row")?.value())
}

fn retimed_at(rt: HostRuntime, moment: u64) -> Result<Batch, Fail> {
    let mut batch = BatchBuilder::new(rt.alloc());
    let k = key(rt, b"k")?;
    if let Some(meta) = decode_meta(TWO) {
        put_deadline(rt.alloc(), &mut batch, k, moment, Some(258), meta)?;
    }
    Ok(batch.build()?)
}

#[test]
#[tactic(auto, unfolding(kv_base::specs::MetaValues::is_meta_within))]
fn metadata_of_a_collection_is_put(rt: HostRuntime) -> Result<(), Fail> {
    let mut batch = BatchBuilder::new(rt.alloc());
    let set = MetaRef::Life {
        kind: Kind::Set,
        expire: 0,
        version: 2048,
        size: 2,
    };
    put_meta(rt.alloc(), &mut batch, key(rt, b"k")?, 6, None, set)?;
    assert_eq!(rt; value(&batch.build()?)?, Some(TWO));
    Ok(())
}

#[test]
fn the_deadline_of_a_collection_is_put(rt: HostRuntime) -> Result<(), Fail> {
    assert_eq!(rt; value(&retimed_at(rt, 257)?)?, Some(TIMED));
    assert_eq!(rt; value(&retimed_at(rt, 258)?)?, None);
    Ok(())
}

/// The rows of the metadata of `a` to `d`, each with the key as its value.
fn four_rows(rt: HostRuntime) -> Result<ListView, NoMem> {
    let mut view = ListView::new(rt.alloc());
    for name in [b"m\x00a", b"m\x00b", b"m\x00c", b"m\x00d"] {
        let raw = Blob::copy(rt.alloc(), name)?;
        view.insert(raw, Blob::copy(rt.alloc(), &name[2..])?)?;
    }
    Ok(view)
}

/// Deletes of `a` and `c`, and a put of `b`.
fn changes(rt: HostRuntime) -> Result<Batch, Fail> {
    let mut batch = BatchBuilder::new(rt.alloc());
    delete_key(&mut batch, key(rt, b"a")?)?;
    put_string(rt.alloc(), &mut batch, key(rt, b"b")?, 0, None, b"new")?;
    delete_key(&mut batch, key(rt, b"c")?)?;
    Ok(batch.build()?)
}

fn row(rt: HostRuntime, raw: &[u8]) -> Result<Option<Blob>, Fail> {
    let mut view = four_rows(rt)?;
    let batch = changes(rt)?;
    let mut overlay = Overlay::new(&mut view, &batch);
    Ok(overlay.get(rt.alloc(), raw)?)
}

fn rows(rt: HostRuntime, from: &[u8], limit: usize) -> Result<LiveRows, Fail> {
    let mut view = four_rows(rt)?;
    let batch = changes(rt)?;
    let mut overlay = Overlay::new(&mut view, &batch);
    Ok(overlay.range(rt.alloc(), from, b"m", limit)?)
}

#[test]
fn a_row_is_that_of_the_batch_or_of_the_view(rt: HostRuntime) -> Result<(), Fail> {
    assert!(rt; row(rt, b"m\x00a")?.is_none());
    let b = row(rt, b"m\x00b")?.ok_or("a row")?;
    assert_eq!(rt;
        b.bytes(),
        b"\x81\x00\x00\x00\x00\x00\x00\x00\x00new".as_slice()
    );
    let d = row(rt, b"m\x00d")?.ok_or("a row")?;
    assert_eq!(rt; d.bytes(), b"d".as_slice());
    Ok(())
}

#[test]
fn a_range_goes_on_behind_deletes(rt: HostRuntime) -> Result<(), Fail> {
    let one = rows(rt, b"", 1)?;
    assert_eq!(rt; one.len(), 1);
    assert_eq!(rt;
        one.get(0).ok_or("a row")?.raw.bytes(),
        b"m\x00b".as_slice()
    );
    assert_eq!(rt; rows(rt, b"", 9)?.len(), 2);
    Ok(())
}

#[test]
fn a_range_begins_at_its_beginning(rt: HostRuntime) -> Result<(), Fail> {
    let one = rows(rt, b"m\x00c", 1)?;
    assert_eq!(rt;
        one.get(0).ok_or("a row")?.raw.bytes(),
        b"m\x00d".as_slice()
    );
    assert!(rt; rows(rt, b"m\x00e", 1)?.is_empty());
    assert!(rt; rows(rt, b"", 0)?.is_empty());
    Ok(())
}
