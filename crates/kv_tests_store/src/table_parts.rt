//! The parts of a table of one row, byte by byte, and what is read back from them.

use kv_base::{Blob, Items, RowRef};
use sst_parts::{
    Bits, BlockWriter, Foot, KeyHash, Sought, Spot, encode_index, read_body, read_foot, read_index,
    seek,
};
use std::test::Fail;

/// The metadata of `a`.
const RAW: &[u8] = b"\x6D\x00\x61";

/// The string `1` with no deadline.
const VALUE: &[u8] = b"\x81\0\0\0\0\0\0\0\0\x31";

const BLOCK: &[u8] =
    b"\0\0\0\x1E\x01\0\0\0\x03\x6D\0\x61\0\0\0\0\0\0\0\x01\0\0\0\x0A\x81\0\0\0\0\0\0\0\0\x31";

const INDEX: &[u8] = b"\0\0\0\x01\0\0\0\0\0\0\0\x08\0\0\0\x22\0\0\0\x03\x6D\0\x61";

const FILTER: &[u8] = b"\0\0\0\x08\x40\0\x80\0\x02\x08\x04\x10";

const FOOT: &[u8] =
    b"\0\0\0\0\0\0\0\x2A\0\0\0\x17\0\0\0\0\0\0\0\x41\0\0\0\x0C\0\0\0\0\0\0\0\x01KVRE";

#[test]
fn parts_are_written(rt: HostRuntime) -> Result<(), Fail> {
    let mut block = BlockWriter::new(rt.alloc())?;
    block.push(RowRef {
        raw: RAW,
        seq: 1,
        value: Some(VALUE),
    })?;
    assert_eq!(rt; block.len(), 30);
    assert_eq!(rt; block.finish()?.as_slice(), BLOCK);
    let spots = vec![in rt.alloc();
        Spot {
            place: 8,
            bytes: 34,
            last: Blob::copy(rt.alloc(), RAW)?
        },
    ]?;
    assert_eq!(rt;
        encode_index(rt.alloc(), spots.as_slice())?.as_slice(),
        INDEX
    );
    let bits = Bits::of_hashes(rt.alloc(), &[KeyHash::of(RAW)])?;
    assert_eq!(rt; bits.text(rt.alloc())?.as_slice(), FILTER);
    let foot = Foot {
        index: 42,
        index_length: 23,
        filter: 65,
        filter_length: 12,
        rows: 1,
    };
    assert_eq!(rt; foot.encode(rt.alloc())?.as_slice(), FOOT);
    assert!(rt; foot.is_of(113));
    assert!(rt; !foot.is_of(114));
    Ok(())
}

#[test]
fn parts_are_read(rt: HostRuntime) -> Result<(), Fail> {
    let (_, body) = BLOCK.split_at(4);
    let rows = read_body(rt.alloc(), None, body)?.ok_or("a body")?;
    assert_eq!(rt; rows.len(), 1);
    assert_eq!(rt; rows[0].value, Some(VALUE));
    assert!(rt; read_body(rt.alloc(), Some(rows[0]), body)?.is_none());
    assert!(rt; matches!(seek(body, RAW, 0), Sought::Behind));
    assert!(rt; matches!(seek(body, RAW, 1), Sought::Row(_)));
    let spots = read_index(rt.alloc(), 8, 42, INDEX)?.ok_or("an index")?;
    assert_eq!(rt; spots.len(), 1);
    assert_eq!(rt; spots[0].bytes, 34);
    assert!(rt; read_index(rt.alloc(), 8, 43, INDEX)?.is_none());
    let bits = Bits::read(rt.alloc(), FILTER)?.ok_or("a filter")?;
    assert!(rt; bits.may_hold(RAW));
    assert!(rt; !bits.may_hold(b"\x6D\x00\x62"));
    assert_eq!(rt; read_foot(FOOT).ok_or("a foot")?.filter, 65);
    Ok(())
}

#[test]
fn a_filter_is_made_of_keys(rt: HostRuntime) -> Result<(), Fail> {
    let mut keys = Items::new(rt.alloc());
    keys.push(Blob::copy(rt.alloc(), RAW)?)?;
    let bits = Bits::make(rt.alloc(), &keys)?;
    assert_eq!(rt; bits.bytes(), b"\x40\0\x80\0\x02\x08\x04\x10".as_slice());
    Ok(())
}
