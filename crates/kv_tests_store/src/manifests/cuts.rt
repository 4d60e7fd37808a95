//! What is left of a slot that is cut at any length, and of one at the last epoch.
use super::{add, flushed, open};
use kv_base::{Blob, FileName};
use kv_fakes::{Calls, MemDisk};
use manifest_set::Manifest;
use std::alloc::Global;
use std::test::Fail;

/// The places behind the head of a new store, and behind an edit that adds a table.
const HEAD_END: usize = 50;

const EDIT_END: usize = 143;

/// The head of the epoch 2^62, with no gate behind it.
const LAST_HEAD: &[u8] = b"\x01\0\0\0\x2D\0\x40\0\0\0\0\0\0\0\0\0\0\0\0\0\0\x01\0\0\0\0\0\0\0\0\
    \0\0\0\0\0\0\0\0\0\0\0\0\0\0\0\x01\0\0\0\0";

/// The epoch and the number of tables that a slot of these bytes says.
fn says(alloc: Global, slot: &[u8]) -> Result<(u64, usize), Fail> {
    let mut disk = MemDisk::new(alloc, Calls::new(alloc));
    disk.put(FileName::SlotA, Blob::copy(alloc, slot)?)?;
    let state = Manifest::read(alloc, &mut disk)?.state;
    Ok((state.epoch, state.levels.homes().len()))
}

/// What is said where the slot has so many bytes.
fn left(len: usize) -> (u64, usize) {
    if len < HEAD_END {
        (0, 0)
    } else if len < EDIT_END {
        (1, 0)
    } else {
        (1, 1)
    }
}

#[test]
fn each_cut_of_a_slot_leaves_whole_records(rt: HostRuntime) -> Result<(), Fail> {
    let alloc = rt.alloc();
    let mut disk = MemDisk::new(alloc, Calls::new(alloc));
    let mut manifest = open(alloc, &mut disk)?;
    assert!(rt; add(&mut disk, &mut manifest, &flushed(alloc, 2, 1)?)?);
    let slot = disk.bytes(FileName::SlotA);
    assert_eq!(rt; slot.len(), EDIT_END + 1);
    for len in 0..slot.len() {
        let (cut, _) = slot.split_at(len);
        assert_eq!(rt; says(alloc, cut)?, left(len));
    }
    Ok(())
}

/// A disk whose second slot has the last epoch, and whose call of this number fails.
fn at_last_epoch(alloc: Global, fails: u64) -> Result<MemDisk, Fail> {
    let mut disk = MemDisk::new(alloc, Calls::from_slice(alloc, &[fails])?);
    disk.put(FileName::SlotB, Blob::copy(alloc, LAST_HEAD)?)?;
    Ok(disk)
}

#[test]
fn at_the_last_epoch_nothing_is_written_anew(rt: HostRuntime) -> Result<(), Fail> {
    let alloc = rt.alloc();
    let mut disk = at_last_epoch(alloc, 1_000)?;
    let mut manifest = open(alloc, &mut disk)?;
    assert_eq!(rt; disk.bytes(FileName::SlotA), b"".as_slice());
    assert_eq!(rt;
        disk.bytes(FileName::SlotB).split_last(),
        Some((&0, LAST_HEAD))
    );
    assert!(rt; add(&mut disk, &mut manifest, &flushed(alloc, 2, 1)?)?);
    let slots = Manifest::read(alloc, &mut disk)?;
    assert_eq!(rt; slots.active, FileName::SlotB);
    assert_eq!(rt; slots.state.epoch, 1 << 62);
    assert_eq!(rt; slots.state.levels.homes().len(), 1);
    Ok(())
}

#[test]
fn crashes_at_the_last_epoch_leave_the_state_before_or_after(rt: HostRuntime) -> Result<(), Fail> {
    let alloc = rt.alloc();
    for fails in 0..16 {
        let mut disk = at_last_epoch(alloc, fails)?;
        if let Ok(mut manifest) = open(alloc, &mut disk) {
            let _ = add(&mut disk, &mut manifest, &flushed(alloc, 2, 1)?)?;
        }
        for choice in 0..20 {
            let mut left = disk.crash(choice)?;
            let state = Manifest::read(alloc, &mut left)?.state;
            assert_eq!(rt; state.epoch, 1 << 62);
            assert!(rt; state.levels.homes().len() <= 1);
        }
    }
    Ok(())
}
