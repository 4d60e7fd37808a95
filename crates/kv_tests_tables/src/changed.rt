//! A table of one row of which one byte is another: it is damaged at a place of its file, or it is the table of other
//! rows to the byte.

use crate::given::{ID, TABLE, disk_with};
use kv_base::{Blob, FileName, StoreFault, TableId};
use merge_rows::Ahead;
use sst_file::Table;
use sst_writer::write_table;
use std::alloc::Global;
use std::test::Fail;

const OTHER: TableId = TableId { run: 1, part: 1 };

/// Is this the table of the rows that it reads as, or damaged at one of its places?
fn is_judged(alloc: Global, bytes: Vec<u8>) -> Result<bool, Fail> {
    let length = bytes.len() as u64;
    let mut disk = disk_with(alloc, Blob::from_vec(bytes))?;
    match Table::open(alloc, &mut disk, ID) {
        Ok(table) => {
            let mut rows = Ahead::new(table.rows_from(alloc, b"")?);
            let again = write_table(alloc, &mut disk, OTHER, &mut rows, None)?;
            let same = disk.bytes(FileName::Table(ID)) == disk.bytes(FileName::Table(OTHER));
            Ok(again.is_some() && same)
        }
        Err(StoreFault::Damaged { file, place }) => {
            Ok(file == FileName::Table(ID) && place < length)
        }
        Err(_) => Ok(false),
    }
}

/// The table with another byte at a place.
fn changed(alloc: Global, place: usize, change: u8) -> Result<Vec<u8>, Fail> {
    let mut bytes = Vec::from_slice(alloc, TABLE)?;
    if let Some(byte) = bytes.as_mut_slice().get_mut(place) {
        *byte ^= change;
    }
    Ok(bytes)
}

#[test]
fn a_changed_byte_is_damage_or_another_table(rt: HostRuntime) -> Result<(), Fail> {
    let alloc = rt.alloc();
    for place in 0..TABLE.len() {
        for change in 1..256u16 {
            let bytes = changed(alloc, place, change as u8)?;
            assert!(rt; is_judged(alloc, bytes)?, "{change} at {place}");
        }
    }
    Ok(())
}
