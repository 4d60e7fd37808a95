//! What crashes leave of slots after a call that failed, and after it was mended.
use super::{add, flushed, open};
use kv_fakes::{Calls, MemDisk};
use manifest_set::Manifest;
use std::alloc::Global;
use std::test::Fail;

/// How many tables a later reading finds at least, and at most.
type Bounds = (usize, usize);

/// Adds a table, and where that fails once more.
fn add_or_mend(
    alloc: Global,
    disk: &mut MemDisk,
    manifest: &mut Manifest<MemDisk>,
) -> Result<Bounds, Fail> {
    let edit = flushed(alloc, 2, 1)?;
    if add(disk, manifest, &edit)? {
        return Ok((1, 1));
    }
    if !manifest.unsure() {
        return Ok((0, 0));
    }
    if manifest.mend(disk).is_err() {
        return Ok((0, 1));
    }
    if add(disk, manifest, &edit)? {
        Ok((1, 1))
    } else {
        Ok((0, 1))
    }
}

/// Opens a new store and adds a table; the calls of these numbers fail.
fn play(alloc: Global, fails: &[u64]) -> Result<(MemDisk, Bounds), Fail> {
    let mut disk = MemDisk::new(alloc, Calls::from_slice(alloc, fails)?);
    let Ok(mut manifest) = open(alloc, &mut disk) else {
        return Ok((disk, (0, 0)));
    };
    let bounds = add_or_mend(alloc, &mut disk, &mut manifest)?;
    Ok((disk, bounds))
}

/// Is the number of tables within the bounds, whatever a crash leaves?
fn stays_within(alloc: Global, disk: &MemDisk, bounds: Bounds) -> Result<bool, Fail> {
    let (least, most) = bounds;
    for choice in 0..16 {
        let mut left = disk.crash(choice)?;
        let found = Manifest::read(alloc, &mut left)?.state.levels.homes().len();
        if found < least || most < found {
            return Ok(false);
        }
    }
    Ok(true)
}

#[test]
fn what_failed_is_mended_or_may_be_there(rt: HostRuntime) -> Result<(), Fail> {
    let alloc = rt.alloc();
    for first in 0..18 {
        for second in 0..18 {
            let (disk, bounds) = play(alloc, &[first, second])?;
            assert!(rt; stays_within(alloc, &disk, bounds)?);
        }
    }
    Ok(())
}
