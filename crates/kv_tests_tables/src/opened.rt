//! A table of one row whose bytes are written out here: it is opened and searched, damaged at each of its parts, and cut.

use crate::given::{A, B, ID, TABLE, disk_with};
use kv_base::{Blob, FileName, StoreFault};
use sst_file::Table;
use std::alloc::Global;
use std::test::Fail;

#[test]
fn a_table_is_opened_and_searched(rt: HostRuntime) -> Result<(), Fail> {
    let alloc = rt.alloc();
    let mut disk = disk_with(alloc, Blob::copy(alloc, TABLE)?)?;
    let table = Table::open(alloc, &mut disk, ID)?;
    assert_eq!(rt; table.desc().rows, 1);
    assert_eq!(rt; table.desc().bytes, 113);
    assert_eq!(rt; table.desc().least.bytes(), A);
    assert_eq!(rt; table.desc().greatest.bytes(), A);
    assert!(rt; table.find(alloc, &mut disk, A, 0)?.is_none());
    for seq in [1, 2, u64::MAX] {
        let row = table.find(alloc, &mut disk, A, seq)?.ok_or("a row")?;
        assert_eq!(rt; row.seq, 1);
    }
    assert!(rt; table.find(alloc, &mut disk, B, 5)?.is_none());
    let again = table.share()?;
    drop(table);
    assert!(rt; again.find(alloc, &mut disk, A, 1)?.is_some());
    Ok(())
}

/// Where the table is damaged once the byte at a place is another one.
fn damaged_at(alloc: Global, place: usize) -> Result<Option<StoreFault>, Fail> {
    let mut bytes = Vec::from_slice(alloc, TABLE)?;
    if let Some(byte) = bytes.as_mut_slice().get_mut(place) {
        *byte ^= 64;
    }
    let mut disk = disk_with(alloc, Blob::from_vec(bytes))?;
    Ok(Table::open(alloc, &mut disk, ID).err())
}

#[test]
fn the_damaged_part_is_blamed(rt: HostRuntime) -> Result<(), Fail> {
    // The head; a block's length; a row's mark; the index; its last raw key, by which the block is blamed; the filter's
    // length; a bit; a place in the foot; the foot's rows; its mark.
    let cases = [
        (0, 0),
        (11, 8),
        (12, 8),
        (45, 42),
        (64, 8),
        (68, 65),
        (70, 65),
        (84, 77),
        (108, 77),
        (112, 77),
    ];
    for (at, place) in cases {
        let damaged = StoreFault::Damaged {
            file: FileName::Table(ID),
            place,
        };
        assert_eq!(rt; damaged_at(rt.alloc(), at)?, Some(damaged), "at {at}");
    }
    Ok(())
}

#[test]
fn a_table_that_is_cut_is_damaged(rt: HostRuntime) -> Result<(), Fail> {
    for length in 0..TABLE.len() {
        let (front, _) = TABLE.split_at(length);
        let mut disk = disk_with(rt.alloc(), Blob::copy(rt.alloc(), front)?)?;
        let fault = Table::open(rt.alloc(), &mut disk, ID).err();
        assert!(rt;
            matches!(
                fault,
                Some(StoreFault::Damaged {
                    file: FileName::Table(ID),
                    ..
                })
            ),
            "at {length}"
        );
    }
    Ok(())
}
