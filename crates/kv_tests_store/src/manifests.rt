//! Bytes of a manifest from outside, and what calls that fail and crashes leave of its slots.
use edit_codec::{encode_edit, is_edit};
use kv_base::{Blob, FileName, StoreFault, TableDesc, TableId};
use kv_fakes::{Calls, MemDisk};
use level_set::{Edit, Home, Homes, TableNames};
use manifest_set::Manifest;
use record_body::RecordBody;
use std::alloc::Global;
use std::test::Fail;

mod cuts;
mod faults;

/// The body of an edit that adds a table of this run at level 0.
fn flushed(alloc: Global, log: u64, run: u64) -> Result<RecordBody, Fail> {
    let mut added = Homes::new(alloc);
    added.push(Home {
        level: 0,
        desc: TableDesc {
            id: TableId { run, part: 0 },
            rows: 2,
            bytes: 113,
            least: Blob::copy(alloc, b"\x6D\x00\x61")?,
            greatest: Blob::copy(alloc, b"\x6D\x00\x62")?,
        },
    })?;
    let edit = Edit {
        log,
        last: run,
        floor: 5,
        next_run: run.saturating_add(1),
        removed: TableNames::new(alloc),
        added,
    };
    if !is_edit(&edit) {
        return Err(Fail::from("an edit"));
    }
    Ok(encode_edit(alloc, &edit)?)
}

/// Opens the manifest.
fn open(alloc: Global, disk: &mut MemDisk) -> Result<Manifest<MemDisk>, StoreFault> {
    let slots = Manifest::read(alloc, disk)?;
    Manifest::rewrite(alloc, disk, &slots)
}

/// Adds an edit, where the manifest is sure.
fn add(
    disk: &mut MemDisk,
    manifest: &mut Manifest<MemDisk>,
    edit: &RecordBody,
) -> Result<bool, Fail> {
    if manifest.unsure() {
        return Err(Fail::from("an edit that is not mended"));
    }
    Ok(manifest.append_edit(disk, edit).is_ok())
}

#[test]
fn slots_have_these_bytes_and_take_turns(rt: HostRuntime) -> Result<(), Fail> {
    let alloc = rt.alloc();
    let mut disk = MemDisk::new(alloc, Calls::new(alloc));
    let mut manifest = open(alloc, &mut disk)?;
    let head = b"\x01\0\0\0\x2D\0\0\0\0\0\0\0\0\x01\0\0\0\0\0\0\0\x01\0\0\0\0\0\0\0\0\
        \0\0\0\0\0\0\0\0\0\0\0\0\0\0\0\x01\0\0\0\0\0";
    assert_eq!(rt; disk.bytes(FileName::SlotA), head.as_slice());
    assert_eq!(rt; disk.bytes(FileName::SlotB), b"".as_slice());

    assert!(rt; add(&mut disk, &mut manifest, &flushed(alloc, 2, 1)?)?);
    open(alloc, &mut disk)?;
    let slots = Manifest::read(alloc, &mut disk)?;
    assert_eq!(rt; slots.active, FileName::SlotB);
    assert_eq!(rt; slots.state.epoch, 2);
    assert_eq!(rt; slots.state.log, 2);
    assert_eq!(rt; slots.state.levels.homes().len(), 1);
    Ok(())
}

#[test]
fn damage_is_told_at_its_gate(rt: HostRuntime) -> Result<(), Fail> {
    let alloc = rt.alloc();
    // an edit that adds a table which is there already
    let mut disk = MemDisk::new(alloc, Calls::new(alloc));
    let mut manifest = open(alloc, &mut disk)?;
    assert!(rt; add(&mut disk, &mut manifest, &flushed(alloc, 2, 1)?)?);
    assert!(rt; add(&mut disk, &mut manifest, &flushed(alloc, 2, 1)?)?);
    let damaged = StoreFault::Damaged {
        file: FileName::SlotA,
        place: 50 + 5 + flushed(alloc, 2, 1)?.len() as u64,
    };
    assert_eq!(rt; Manifest::read(alloc, &mut disk).err(), Some(damaged));

    // two heads of one epoch
    let mut disk = MemDisk::new(alloc, Calls::new(alloc));
    open(alloc, &mut disk)?;
    let head = Blob::copy(alloc, disk.bytes(FileName::SlotA))?;
    disk.put(FileName::SlotB, head)?;
    let damaged = StoreFault::Damaged {
        file: FileName::SlotB,
        place: 0,
    };
    assert_eq!(rt; Manifest::read(alloc, &mut disk).err(), Some(damaged));
    Ok(())
}

#[test]
fn crashes_leave_the_state_before_or_after(rt: HostRuntime) -> Result<(), Fail> {
    let alloc = rt.alloc();
    for fails in 0..24 {
        let mut disk = MemDisk::new(alloc, Calls::from_slice(alloc, &[fails])?);
        let mut tables = 0;
        let mut tried = 0;
        if let Ok(mut manifest) = open(alloc, &mut disk) {
            tried = 1;
            if add(&mut disk, &mut manifest, &flushed(alloc, 2, 1)?)? {
                tables = 1;
            }
        }
        for choice in 0..40 {
            let mut left = disk.crash(choice)?;
            let found = Manifest::read(alloc, &mut left)?.state.levels.homes().len();
            assert!(rt; tables <= found && found <= tried);
        }
    }
    Ok(())
}
