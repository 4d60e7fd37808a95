//! A read over a table, a frozen memtable and a memtable is that of one memtable with all rows.

use crate::layers::{A, B, C, D, ONE, TWO, apart, together};
use kv_fakes::{Calls, MemDisk};
use lives_model::{LiveRows, RawView};
use std::alloc::Global;
use std::test::Fail;
use view_read::Sources;

/// The metadata of all keys.
const META: &[u8] = b"\x6D\x00";

/// Does the raw key have this value at the sequence?
fn is_there(
    alloc: Global,
    disk: &mut MemDisk,
    sources: &Sources<MemDisk>,
    raw: &[u8],
    seq: u64,
    value: Option<&[u8]>,
) -> Result<bool, Fail> {
    let mut view = sources.view(disk, seq);
    let found = view.get(alloc, raw)?;
    Ok(found.as_ref().map(|value| value.bytes()) == value)
}

#[test]
fn a_read_does_not_stop_at_an_older_place(rt: HostRuntime) -> Result<(), Fail> {
    let alloc = rt.alloc();
    let mut disk = MemDisk::new(alloc, Calls::new(alloc));
    let sources = apart(alloc, &mut disk)?;
    let cases = [
        (A, 4, None),
        (A, 5, Some(ONE)),
        (A, 11, Some(ONE)),
        (A, 12, None),
        (B, 8, Some(ONE)),
        (B, 9, None),
        (B, 12, Some(TWO)),
        (C, 8, Some(ONE)),
        (C, u64::MAX, Some(TWO)),
        (D, 11, None),
        (D, 12, Some(ONE)),
        (META, 12, None),
    ];
    for (raw, seq, value) in cases {
        assert!(rt;
            is_there(alloc, &mut disk, &sources, raw, seq, value)?,
            "at {seq}"
        );
    }
    Ok(())
}

fn page(
    alloc: Global,
    disk: &mut MemDisk,
    sources: &Sources<MemDisk>,
    seq: u64,
    from: &[u8],
    limit: usize,
) -> Result<LiveRows, Fail> {
    let mut view = sources.view(disk, seq);
    Ok(view.range(alloc, from, META, limit)?)
}

fn are_same(rows: &LiveRows, others: &LiveRows) -> bool {
    for at in 0..rows.len() {
        match (rows.get(at), others.get(at)) {
            (Some(row), Some(other)) => {
                if row.raw.bytes() != other.raw.bytes()
                    || row.value.bytes() != other.value.bytes()
                {
                    return false;
                }
            }
            _ => return false,
        }
    }
    rows.len() == others.len()
}

#[test]
fn pages_are_those_of_one_memtable(rt: HostRuntime) -> Result<(), Fail> {
    let alloc = rt.alloc();
    let mut disk = MemDisk::new(alloc, Calls::new(alloc));
    let sources = apart(alloc, &mut disk)?;
    let one = together(alloc)?;
    let cases = [
        (4, b"" as &[u8], 9, 0),
        (5, b"", 9, 3),
        (9, b"", 9, 2),
        (12, b"", 9, 3),
        (12, C, 9, 2),
        (12, b"", 2, 2),
        (9, C, 0, 0),
        (12, b"s", 9, 0),
    ];
    for (seq, from, limit, count) in cases {
        let rows = page(alloc, &mut disk, &sources, seq, from, limit)?;
        assert_eq!(rt; rows.len(), count, "at {seq}");
        let others = page(alloc, &mut disk, &one, seq, from, limit)?;
        assert!(rt; are_same(&rows, &others), "at {seq}");
    }
    Ok(())
}
