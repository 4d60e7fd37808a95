//! Tables that are written from rows: one to the byte, and some of many rows, which are cut and searched.

use crate::given::{A, B, ID, TABLE, UntoldRows, put, rows_of};
use kv_base::{FileName, TableId};
use kv_fakes::{Calls, MemDisk};
use merge_rows::Ahead;
use sst_file::Table;
use sst_writer::write_table;
use std::alloc::Global;
use std::test::Fail;

#[test]
fn a_table_of_one_row_is_written(rt: HostRuntime) -> Result<(), Fail> {
    let alloc = rt.alloc();
    let mut disk = MemDisk::new(alloc, Calls::new(alloc));
    let rows = vec![in alloc; put(A, 1).copy(alloc)?]?;
    let mut rows = Ahead::new(UntoldRows { rows });
    let table = write_table(alloc, &mut disk, ID, &mut rows, None)?.ok_or("a table")?;
    assert_eq!(rt; disk.bytes(FileName::Table(ID)), TABLE);
    assert_eq!(rt; table.desc().bytes, 113);
    assert!(rt; table.find(alloc, &mut disk, A, 1)?.is_some());
    assert!(rt; write_table(alloc, &mut disk, ID, &mut rows, None)?.is_none());
    Ok(())
}

/// Each sequence of a raw key shows its row, 0 shows none, and those above show the last row.
fn is_found(
    alloc: Global,
    disk: &mut MemDisk,
    table: &Table<MemDisk>,
    raw: &[u8],
) -> Result<bool, Fail> {
    for seq in 1..301 {
        let row = table.find(alloc, disk, raw, seq)?.ok_or("a row")?;
        if row.seq != seq {
            return Ok(false);
        }
    }
    let last = table.find(alloc, disk, raw, 301)?.ok_or("a row")?;
    Ok(last.seq == 300 && table.find(alloc, disk, raw, 0)?.is_none())
}

#[test]
fn rows_of_one_raw_key_go_over_blocks(rt: HostRuntime) -> Result<(), Fail> {
    let alloc = rt.alloc();
    let mut disk = MemDisk::new(alloc, Calls::new(alloc));
    let mut rows = rows_of(alloc, 300)?;
    let table = write_table(alloc, &mut disk, ID, &mut rows, None)?.ok_or("a table")?;
    assert_eq!(rt; table.desc().rows, 600);
    let opened = Table::open(alloc, &mut disk, ID)?;
    for raw in [A, B] {
        assert!(rt; is_found(alloc, &mut disk, &table, raw)?);
        assert!(rt; is_found(alloc, &mut disk, &opened, raw)?);
    }
    Ok(())
}

#[test]
fn a_table_ends_between_raw_keys(rt: HostRuntime) -> Result<(), Fail> {
    let alloc = rt.alloc();
    let mut disk = MemDisk::new(alloc, Calls::new(alloc));
    let mut rows = rows_of(alloc, 2)?;
    let first = write_table(alloc, &mut disk, ID, &mut rows, Some(1))?.ok_or("a table")?;
    assert_eq!(rt; first.desc().greatest.bytes(), A);
    assert_eq!(rt; first.desc().rows, 2);
    let other = TableId { run: 1, part: 1 };
    let second = write_table(alloc, &mut disk, other, &mut rows, Some(1))?.ok_or("a table")?;
    assert_eq!(rt; second.desc().least.bytes(), B);
    assert!(rt; write_table(alloc, &mut disk, other, &mut rows, Some(1))?.is_none());
    Ok(())
}
