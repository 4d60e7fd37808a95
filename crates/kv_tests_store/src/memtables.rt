//! Memtables beside a plain sorted list of rows, over batches that split leaves and branches.
mod grown;
mod sorted;

use crate::memtables::grown::{Grown, delete, put};
use crate::memtables::sorted::SortedRows;
use batch_codec::{Batch, Record};
use kv_base::RowRef;
use mem_table::MemTable;
use row_model::sequences_rise;
use std::alloc::Global;
use std::test::Fail;

const A: &[u8] = b"\x6D\x00\x61";

const B: &[u8] = b"\x6D\x00\x62";

const ONE: &[u8] = b"\x81\0\0\0\0\0\0\0\0\x31";

const TWO: &[u8] = b"\x81\0\0\0\0\0\0\0\0\x32\x32";

fn row(raw: &'static [u8], seq: u64, value: Option<&'static [u8]>) -> Option<RowRef<'static>> {
    Some(RowRef { raw, seq, value })
}

/// `B` is put under 5 and 12, `A` is put under 5 and 9 and deleted under 12.
fn three_batches(alloc: Global) -> Result<Vec<Record>, Fail> {
    let mut first = Batch::new(alloc);
    put(alloc, &mut first, B, ONE)?;
    put(alloc, &mut first, A, ONE)?;
    let mut second = Batch::new(alloc);
    put(alloc, &mut second, A, TWO)?;
    let mut third = Batch::new(alloc);
    delete(alloc, &mut third, A)?;
    put(alloc, &mut third, B, TWO)?;
    Ok(vec![in alloc; record(5, first), record(9, second), record(12, third)]?)
}

fn record(seq: u64, batch: Batch) -> Record {
    Record {
        seq,
        moment: 0,
        batch,
    }
}

/// The table of records whose sequences are to rise.
fn replayed(alloc: Global, records: &[Record]) -> Result<MemTable, Fail> {
    if !sequences_rise(records) {
        return Err(Fail::from("sequences that rise"));
    }
    Ok(MemTable::replay(alloc, records)?)
}

/// The table of the records by one batch after the other.
fn grown_by(alloc: Global, records: &[Record]) -> Result<Grown, Fail> {
    let mut grown = Grown::new();
    for record in records {
        grown.add(alloc, &record.batch, record.seq)?;
    }
    Ok(grown)
}

/// Do the rows of a table stand in this order?
fn stand_so(table: &MemTable, rows: &[Option<RowRef<'static>>]) -> bool {
    let mut held = table.rows_from(b"");
    for row in rows {
        if held.next() != *row {
            return false;
        }
    }
    held.next() == None
}

#[test]
fn rows_stand_in_order_however_they_came(rt: HostRuntime) -> Result<(), Fail> {
    let alloc = rt.alloc();
    let records = three_batches(alloc)?;
    let by_batches = grown_by(alloc, records.as_slice())?;
    let at_once = replayed(alloc, records.as_slice())?;
    let order = [
        row(A, 12, None),
        row(A, 9, Some(TWO)),
        row(A, 5, Some(ONE)),
        row(B, 12, Some(TWO)),
        row(B, 5, Some(ONE)),
    ];
    for table in [&by_batches.table, &at_once, &at_once.share()?] {
        assert!(rt; stand_so(table, &order));
        assert_eq!(rt; table.len(), 5);
        assert_eq!(rt; table.bytes(), 57);
    }
    assert!(rt; at_once.rows_from(B).next() == row(B, 12, Some(TWO)));
    assert!(rt; at_once.rows_from(b"\x6D\x00\x61\x61").next() == row(B, 12, Some(TWO)));
    assert!(rt; at_once.rows_from(b"\x6D\x00\x63").next() == None);
    assert!(rt; MemTable::new().is_empty());
    assert!(rt; MemTable::new().share()?.rows_from(b"").next() == None);
    assert!(rt; replayed(alloc, &[])?.is_empty());
    Ok(())
}

#[test]
fn find_gives_the_newest_row_not_above_the_sequence(rt: HostRuntime) -> Result<(), Fail> {
    let records = three_batches(rt.alloc())?;
    let grown = grown_by(rt.alloc(), records.as_slice())?;
    let cases = [
        (A, 4, None),
        (A, 5, row(A, 5, Some(ONE))),
        (A, 8, row(A, 5, Some(ONE))),
        (A, 9, row(A, 9, Some(TWO))),
        (A, 12, row(A, 12, None)),
        (A, u64::MAX, row(A, 12, None)),
        (B, 11, row(B, 5, Some(ONE))),
        (b"\x6D\x00".as_slice(), 20, None),
        (b"\x6D\x00\x61\x61".as_slice(), 20, None),
        (b"\x6D\x00\x63".as_slice(), 20, None),
    ];
    for (raw, seq, found) in cases {
        assert!(rt; grown.table.find(raw, seq) == found);
    }
    Ok(())
}

/// The raw key of a number below 2^16.
fn numbered(number: u64) -> [u8; 4] {
    [0x6D, 0, (number / 256 % 256) as u8, (number % 256) as u8]
}

/// The batch under a sequence: between one row and 64, each seventh a delete.
fn spread_batch(alloc: Global, seq: u64) -> Result<Batch, Fail> {
    let mut batch = Batch::new(alloc);
    for at in 0..1 + seq % 64 {
        let raw = numbered(seq % 1_000 * 7_919 + at * 613);
        if at % 7 == 3 {
            delete(alloc, &mut batch, &raw)?;
        } else {
            put(alloc, &mut batch, &raw, if at % 2 == 0 { ONE } else { TWO })?;
        }
    }
    Ok(batch)
}

/// Does `find` give what a walk over the sorted list finds, for raw keys and sequences spread over all?
fn finds_alike(table: &MemTable, rows: &SortedRows, last: u64) -> bool {
    for at in 0..40u64 {
        let raw = numbered(at * 1_637);
        let seq = last % 1_000 * (at % 5) / 4;
        if table.find(&raw, seq) != rows.find(&raw, seq) {
            return false;
        }
    }
    true
}

#[test]
fn a_tree_has_the_rows_of_a_sorted_list(rt: HostRuntime) -> Result<(), Fail> {
    let alloc = rt.alloc();
    let mut grown = Grown::new();
    let mut rows = SortedRows::new(alloc);
    let mut early = MemTable::new();
    for seq in 1..401u64 {
        let batch = spread_batch(alloc, seq)?;
        grown.add(alloc, &batch, seq)?;
        rows.add(alloc, &batch, seq)?;
        if seq == 90 {
            early = grown.table.share()?;
        }
        if seq % 40 == 0 {
            assert!(rt; rows.is_held_by(&grown.table, seq), "at {seq}");
            assert!(rt; finds_alike(&grown.table, &rows, seq), "at {seq}");
        }
    }
    assert!(rt; grown.table.len() > 2 * 64 * 64);
    assert!(rt; rows.is_held_by(&early, 90));
    Ok(())
}

#[test]
fn full_leaves_are_split(rt: HostRuntime) -> Result<(), Fail> {
    let alloc = rt.alloc();
    let mut batch = Batch::new(alloc);
    for number in 0..5_000u64 {
        put(alloc, &mut batch, &numbered(number * 13), ONE)?;
    }
    let mut grown = Grown::new();
    let mut rows = SortedRows::new(alloc);
    grown.add(alloc, &batch, 1)?;
    rows.add(alloc, &batch, 1)?;
    assert!(rt; rows.is_held_by(&grown.table, 1));
    for seq in 2..101u64 {
        let batch = spread_batch(alloc, seq)?;
        grown.add(alloc, &batch, seq)?;
        rows.add(alloc, &batch, seq)?;
    }
    assert!(rt; rows.is_held_by(&grown.table, 100));
    Ok(())
}

#[test]
fn fifty_thousand_records_are_replayed_in_time(rt: HostRuntime) -> Result<(), Fail> {
    let alloc = rt.alloc();
    let mut records = Vec::new(alloc);
    for seq in 1..50_001u64 {
        let mut batch = Batch::new(alloc);
        put(alloc, &mut batch, &numbered(seq * 7_919 % 25_000), ONE)?;
        records.push(record(seq, batch))?;
    }
    let table = replayed(alloc, records.as_slice())?;
    assert_eq!(rt; table.len(), 50_000);
    assert_eq!(rt; table.bytes(), 700_000);
    let found = table.find(&numbered(7_919), u64::MAX);
    assert!(rt; found.map(|row| row.seq) == Some(25_001));
    let older = table.find(&numbered(7_919), 25_000);
    assert!(rt; older.map(|row| row.seq) == Some(1));
    Ok(())
}
