//! Memtables that are flushed.

use batch_codec::Batch;
use compact_job::{FlushTask, flush};
use kv_base::{Blob, TableId, is_raw, is_value};
use kv_fakes::{Calls, MemDisk};
use mem_table::MemTable;
use sst_file::Table;
use std::alloc::Global;
use std::test::Fail;

/// The metadata of `a` and `b`.
const A: &[u8] = b"\x6D\x00\x61";

const B: &[u8] = b"\x6D\x00\x62";

/// The string `1`.
const ONE: &[u8] = b"\x81\0\0\0\0\0\0\0\0\x31";

/// `A` is put and `B` deleted.
fn batch_of_two(alloc: Global) -> Result<Batch, Fail> {
    if !is_value(A, ONE) || !is_raw(B) {
        return Err(Fail::from("rows"));
    }
    let mut batch = Batch::new(alloc);
    batch.put(Blob::copy(alloc, A)?, Blob::copy(alloc, ONE)?)?;
    batch.delete(Blob::copy(alloc, B)?)?;
    Ok(batch)
}

#[test]
fn all_rows_of_a_memtable_become_a_table(rt: HostRuntime) -> Result<(), Fail> {
    let alloc = rt.alloc();
    let mut disk = MemDisk::new(alloc, Calls::new(alloc));
    let task = FlushTask {
        caller: 3,
        table: MemTable::new().with(alloc, &batch_of_two(alloc)?, 5)?,
        run: 7,
    };
    assert!(rt; !task.table.is_empty());
    let table = flush(alloc, &mut disk, &task)?;
    assert_eq!(rt; table.desc().rows, 2);
    let opened = Table::open(alloc, &mut disk, TableId { run: 7, part: 0 })?;
    let put = opened.find(alloc, &mut disk, A, 5)?.ok_or("a row")?;
    assert!(rt; put.value.is_some());
    let deleted = opened.find(alloc, &mut disk, B, 5)?.ok_or("a row")?;
    assert!(rt; deleted.value.is_none());
    Ok(())
}
