//! Copies that no run of the server makes yet, where there is memory.

use kv_base::{Blob, NoMem, RowRef, TableDesc, TableId};

#[test]
fn a_row_is_copied(rt: HostRuntime) -> Result<(), NoMem> {
    let row = RowRef {
        raw: b"raw",
        seq: 7,
        value: Some(b"value"),
    };
    let copy = row.copy(rt.alloc())?;
    assert_eq!(rt; copy.by_ref(), row);
    Ok(())
}

#[test]
fn what_is_known_of_a_table_is_copied(rt: HostRuntime) -> Result<(), NoMem> {
    let desc = TableDesc {
        id: TableId { run: 3, part: 1 },
        rows: 7,
        bytes: 4096,
        least: Blob::copy(rt.alloc(), b"a")?,
        greatest: Blob::copy(rt.alloc(), b"z")?,
    };
    let copy = desc.try_copy(rt.alloc())?;
    assert_eq!(rt; copy.bytes, 4096);
    assert_eq!(rt; copy.greatest.bytes(), b"z".as_slice());
    Ok(())
}
