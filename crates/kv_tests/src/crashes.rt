//! Which of the images that a crash may leave a disk in memory does leave, and calls that no run of the server makes yet.

use kv_base::{Blob, FileName, TableId};
use kv_fakes::{Calls, MemDisk, MemLog};
use kv_outside::{Failed, Files};
use std::alloc::Global;
use std::test::Fail;

const FIRST: FileName = FileName::Segment(1);

const SECOND: FileName = FileName::Table(TableId { run: 7, part: 2 });

#[test]
fn a_sealed_file_outlives_its_name(rt: HostRuntime) -> Result<(), Fail> {
    let alloc = rt.alloc();
    let mut disk = MemDisk::new(alloc, Calls::new(alloc));
    let mut log = disk.open(FIRST)?;
    disk.write_at(&mut log, 0, b"hello")?;
    disk.sync(&mut log)?;
    let sealed = disk.seal(log)?;
    disk.purge(FIRST)?;
    let mut out = [0; 4];
    assert_eq!(rt; disk.look(&sealed, 1, &mut out), Ok(4));
    assert_eq!(rt; out, *b"ello");
    Ok(())
}

/// How often a crash left these bytes, those, or others.
#[derive(Clone, Copy)]
struct Seen {
    old: u64,
    new: u64,
    others: u64,
}

impl Seen {
    /// One more crash that left these bytes.
    fn with(self, found: &[u8], old: &[u8], new: &[u8]) -> Seen {
        let mut seen = self;
        if found == old {
            seen.old = seen.old.saturating_add(1);
        } else if found == new {
            seen.new = seen.new.saturating_add(1);
        } else {
            seen.others = seen.others.saturating_add(1);
        }
        seen
    }
}

/// What crashes by a thousand numbers leave of a file.
fn after_crashes(disk: &MemDisk, name: FileName, old: &[u8], new: &[u8]) -> Result<Seen, Fail> {
    let mut seen = Seen {
        old: 0,
        new: 0,
        others: 0,
    };
    for choice in 0..1000 {
        seen = seen.with(disk.crash(choice)?.bytes(name), old, new);
    }
    Ok(seen)
}

/// Whether some crash leaves the first of the files as it was, and the second as it is.
fn are_torn_apart(disk: &MemDisk, old: &[u8], new: &[u8]) -> Result<bool, Fail> {
    for choice in 0..100 {
        let left = disk.crash(choice)?;
        if left.bytes(FIRST) == old && left.bytes(SECOND) == new {
            return Ok(true);
        }
    }
    Ok(false)
}

/// A disk with a file of each name that was written to and not synced, the second by a write that failed.
fn unsynced(alloc: Global) -> Result<(MemDisk, MemLog), Fail> {
    let mut disk = MemDisk::new(alloc, Calls::from_slice(alloc, &[3])?);
    disk.put(FIRST, Blob::copy(alloc, b"0123")?)?;
    let mut log = disk.open(FIRST)?;
    let mut other = disk.open(SECOND)?;
    disk.write_at(&mut log, 0, b"abcdefgh")?;
    match disk.write_at(&mut other, 0, b"xyz") {
        Ok(()) => Err(Fail::from(Failed)),
        Err(_) => Ok((disk, log)),
    }
}

#[test]
fn a_crash_leaves_any_part_of_what_is_not_synced(rt: HostRuntime) -> Result<(), Fail> {
    let (disk, _) = unsynced(rt.alloc())?;
    let first = after_crashes(&disk, FIRST, b"0123", b"abcdefgh")?;
    assert!(rt; first.old > 200 && first.new > 200 && first.others > 300);
    let second = after_crashes(&disk, SECOND, b"", b"xyz")?;
    assert!(rt; second.old > 200 && second.new > 200 && second.others > 300);
    assert!(rt; are_torn_apart(&disk, b"0123", b"xyz")?);
    Ok(())
}

#[test]
fn a_crash_leaves_what_is_synced_and_may_undo_a_purge(rt: HostRuntime) -> Result<(), Fail> {
    let (mut disk, mut log) = unsynced(rt.alloc())?;
    disk.sync(&mut log)?;
    let synced = after_crashes(&disk, FIRST, b"0123", b"abcdefgh")?;
    assert_eq!(rt; synced.new, 1000);
    disk.purge(FIRST)?;
    let purged = after_crashes(&disk, FIRST, b"", b"abcdefgh")?;
    assert!(rt; purged.old > 200 && purged.new > 200 && purged.others == 0);
    Ok(())
}
