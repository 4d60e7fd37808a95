//! What the tests are given: a table of one row byte by byte, and rows to write.

use kv_base::{Blob, FileName, Row, RowRef, StoreFault, TableId};
use kv_fakes::{Calls, MemDisk};
use kv_outside::Files;
use merge_rows::{Ahead, Cursor, Upcoming};
use std::alloc::Global;
use std::test::Fail;

pub(crate) const ID: TableId = TableId { run: 1, part: 0 };

/// The metadata of `a`.
pub(crate) const A: &[u8] = b"\x6D\x00\x61";

/// The metadata of `b`.
pub(crate) const B: &[u8] = b"\x6D\x00\x62";

/// The string `1` with no deadline.
const VALUE: &[u8] = b"\x81\0\0\0\0\0\0\0\0\x31";

/// The string `1` under `a`, written with sequence 1.
pub(crate) const TABLE: &[u8] = b"KVRT\0\0\0\x01\
    \0\0\0\x1E\x01\0\0\0\x03\x6D\0\x61\0\0\0\0\0\0\0\x01\0\0\0\x0A\x81\0\0\0\0\0\0\0\0\x31\
    \0\0\0\x01\0\0\0\0\0\0\0\x08\0\0\0\x22\0\0\0\x03\x6D\0\x61\
    \0\0\0\x08\x40\0\x80\0\x02\x08\x04\x10\
    \0\0\0\0\0\0\0\x2A\0\0\0\x17\0\0\0\0\0\0\0\x41\0\0\0\x0C\0\0\0\0\0\0\0\x01KVRE";

/// A disk with a file of a table.
pub(crate) fn disk_with(alloc: Global, bytes: Blob) -> Result<MemDisk, Fail> {
    let mut disk = MemDisk::new(alloc, Calls::new(alloc));
    disk.put(FileName::Table(ID), bytes)?;
    Ok(disk)
}

/// Rows of which nothing is told, given from the last one on.
#[derive(Drop)]
pub(crate) struct UntoldRows {
    pub rows: Vec<Row>,
}

impl Upcoming for UntoldRows {
    ghost use Rattle.std.specs.Prelude.{None, false, length};

    ghost rows = { λ q. None };

    ghost off = { λ _ _ _. false };

    ghost left = { λ q. length q.rows.items };
}

impl<F: Files> Cursor<F> for UntoldRows {
    #[tactic(auto, using(kv_outside::specs::RunLaws::nothing_new))]
    fn step(&mut self, _alloc: Global, _files: &mut F) -> Result<Option<Row>, StoreFault> {
        Ok(self.rows.pop())
    }
}

/// A row that puts the string `1`.
pub(crate) fn put(raw: &'static [u8], seq: u64) -> RowRef<'static> {
    RowRef {
        raw,
        seq,
        value: Some(VALUE),
    }
}

/// The rows of `b` and before them those of `a`, so many of each, their sequences from 1 on.
pub(crate) fn rows_of(alloc: Global, count: u64) -> Result<Ahead<UntoldRows>, Fail> {
    let mut rows = Vec::new(alloc);
    for raw in [B, A] {
        for seq in 0..count {
            rows.push(put(raw, seq.saturating_add(1)).copy(alloc)?)?;
        }
    }
    Ok(Ahead::new(UntoldRows { rows }))
}
