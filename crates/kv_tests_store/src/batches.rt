//! A batch that is built where there is memory.

use batch_codec::BatchBuilder;
use kv_base::{Blob, is_raw, is_value};
use std::alloc::Global;
use std::test::Fail;

/// The metadata of `a` and of `b`.
const A: &[u8] = b"\x6D\x00\x61";

const B: &[u8] = b"\x6D\x00\x62";

/// The string `1` with no deadline.
const VALUE: &[u8] = b"\x81\x00\x00\x00\x00\x00\x00\x00\x00\x31";

fn put(alloc: Global, builder: &mut BatchBuilder, raw: &[u8]) -> Result<(), Fail> {
    if !is_value(raw, VALUE) {
        return Err(Fail::from("a value"));
    }
    Ok(builder.put(Blob::copy(alloc, raw)?, Blob::copy(alloc, VALUE)?)?)
}

fn delete(alloc: Global, builder: &mut BatchBuilder, raw: &[u8]) -> Result<(), Fail> {
    if !is_raw(raw) {
        return Err(Fail::from("a raw key"));
    }
    Ok(builder.delete(Blob::copy(alloc, raw)?)?)
}

#[test]
fn raw_keys_come_twice_and_out_of_order(rt: HostRuntime) -> Result<(), Fail> {
    let mut builder = BatchBuilder::new(rt.alloc());
    put(rt.alloc(), &mut builder, B)?;
    delete(rt.alloc(), &mut builder, A)?;
    delete(rt.alloc(), &mut builder, B)?;
    put(rt.alloc(), &mut builder, A)?;
    let batch = builder.build()?;
    assert_eq!(rt; batch.len(), 2);
    assert_eq!(rt; batch.entry(0), Some((A, Some(VALUE))));
    assert_eq!(rt; batch.entry(1), Some((B, None)));
    Ok(())
}
