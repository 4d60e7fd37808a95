//! Tables that are read row by row.

use crate::given::{A, B, ID, TABLE, rows_of};
use kv_base::{Blob, FileName, Row, StoreFault};
use kv_fakes::{Calls, MemDisk};
use merge_rows::Cursor;
use sst_file::Table;
use sst_writer::write_table;
use std::alloc::Global;
use std::test::Fail;

/// Below every raw key.
const LEAST: &[u8] = b"";

/// Between `A` and `B`.
const BETWEEN: &[u8] = b"\x6D\x00\x61\x61";

/// Above `B`.
const BEYOND: &[u8] = b"\x6D\x00\x63";

/// The rows of a table from a raw key on.
fn walked(
    alloc: Global,
    disk: &mut MemDisk,
    table: &Table<MemDisk>,
    raw: &[u8],
) -> Result<Vec<Row>, Fail> {
    let mut cursor = table.rows_from(alloc, raw)?;
    let mut rows = Vec::new(alloc);
    for _ in 0..u64::MAX {
        let Some(row) = cursor.step(alloc, disk)? else {
            break;
        };
        rows.push(row)?;
    }
    Ok(rows)
}

/// A table of 300 rows of each raw key, which go over several blocks.
fn many(alloc: Global, disk: &mut MemDisk) -> Result<Table<MemDisk>, Fail> {
    let table = write_table(alloc, disk, ID, &mut rows_of(alloc, 300)?, None)?;
    Ok(table.ok_or("a table")?)
}

#[test]
fn all_rows_of_many_blocks_are_given(rt: HostRuntime) -> Result<(), Fail> {
    let alloc = rt.alloc();
    let mut disk = MemDisk::new(alloc, Calls::new(alloc));
    let table = many(alloc, &mut disk)?;
    let rows = walked(alloc, &mut disk, &table, LEAST)?;
    let mut wanted = rows_of(alloc, 300)?;
    for row in rows.iter() {
        let want = wanted.step(alloc, &mut disk)?.ok_or("a row")?;
        assert!(rt; row.by_ref() == want.by_ref(), "at {}", want.seq);
    }
    assert!(rt; wanted.step(alloc, &mut disk)?.is_none());
    Ok(())
}

#[test]
fn rows_are_given_from_a_raw_key_on(rt: HostRuntime) -> Result<(), Fail> {
    let alloc = rt.alloc();
    let mut disk = MemDisk::new(alloc, Calls::new(alloc));
    let table = many(alloc, &mut disk)?;
    for (raw, count, first) in [(LEAST, 600, A), (A, 600, A), (BETWEEN, 300, B), (B, 300, B)] {
        let rows = walked(alloc, &mut disk, &table, raw)?;
        assert_eq!(rt; rows.len(), count);
        let row = rows.first().ok_or("a row")?;
        assert_eq!(rt; row.raw.bytes(), first);
        assert_eq!(rt; row.seq, 300);
    }
    assert!(rt; walked(alloc, &mut disk, &table, BEYOND)?.is_empty());
    Ok(())
}

/// A disk with the table of one row, whose call of this number fails. To open the table takes the calls from 0 to 8.
fn failing(alloc: Global, call: u64) -> Result<MemDisk, Fail> {
    let mut disk = MemDisk::new(alloc, Calls::from_slice(alloc, &[call])?);
    disk.put(FileName::Table(ID), Blob::copy(alloc, TABLE)?)?;
    Ok(disk)
}

#[test]
fn a_read_that_fails_takes_no_row(rt: HostRuntime) -> Result<(), Fail> {
    let alloc = rt.alloc();
    let mut disk = failing(alloc, 9)?;
    let table = Table::open(alloc, &mut disk, ID)?;
    let mut cursor = table.rows_from(alloc, A)?;
    let fault = cursor.step(alloc, &mut disk).err();
    assert_eq!(rt; fault, Some(StoreFault::Failed));
    let row = cursor.step(alloc, &mut disk)?.ok_or("a row")?;
    assert_eq!(rt; row.raw.bytes(), A);
    assert!(rt; cursor.step(alloc, &mut disk)?.is_none());
    Ok(())
}

#[test]
fn a_block_is_read_once_and_none_where_the_filter_says_no(rt: HostRuntime) -> Result<(), Fail> {
    let alloc = rt.alloc();
    let mut disk = failing(alloc, 10)?;
    let table = Table::open(alloc, &mut disk, ID)?;
    assert!(rt; table.find(alloc, &mut disk, B, 1)?.is_none());
    assert!(rt; table.rows_from(alloc, B)?.step(alloc, &mut disk)?.is_none());
    let mut cursor = table.rows_from(alloc, LEAST)?;
    drop(table);
    assert!(rt; cursor.step(alloc, &mut disk)?.is_some());
    assert!(rt; cursor.step(alloc, &mut disk)?.is_none());
    assert!(rt; cursor.step(alloc, &mut disk)?.is_none());
    Ok(())
}
