use kv_base::{FileName, PathText, TableId};
use kv_outside::{Failed, Files};
use kv_real::{RealFiles, RealSealed};
use std::fs;
use std::test::Fail;

const TABLE: FileName = FileName::Table(TableId { run: 12, part: 0 });

/// The files of this folder.
fn files_of(rt: HostRuntime, folder: &str) -> Result<RealFiles<HostRuntime>, Fail> {
    let folder = PathText::new(rt.alloc(), folder)?;
    Ok(RealFiles::new(rt.alloc(), rt, folder))
}

/// An empty folder of this name.
fn make_folder(rt: HostRuntime, folder: &str) -> Result<(), Fail> {
    if fs::exists(&rt, folder)? {
        fs::remove_dir_all(&rt, folder)?;
    }
    fs::create_dir(&rt, folder)?;
    Ok(())
}

#[test]
fn opens_files_by_their_names(rt: HostRuntime) -> Result<(), Fail> {
    let folder = "kv_tests_files_names";
    make_folder(rt, folder)?;
    let mut files = files_of(rt, folder)?;
    for (name, path) in [
        (FileName::SlotA, "kv_tests_files_names/slot-a"),
        (FileName::SlotB, "kv_tests_files_names/slot-b"),
        (FileName::Segment(7), "kv_tests_files_names/wal-7"),
        (TABLE, "kv_tests_files_names/t-12-0"),
    ] {
        let _log = files.open(name)?;
        assert!(rt; fs::exists(&rt, path)?, "{path}");
    }
    fs::remove_dir_all(&rt, folder)?;
    Ok(())
}

/// A segment of 13 bytes, written in two pieces and cut.
fn write_segment(files: &mut RealFiles<HostRuntime>) -> Result<u64, Fail> {
    let mut log = files.open(FileName::Segment(1))?;
    files.write_at(&mut log, 0, b"hello, world")?;
    files.write_at(&mut log, 7, b"folders")?;
    files.sync(&mut log)?;
    files.cut(&mut log, 13)?;
    files.sync(&mut log)?;
    Ok(files.length(&log)?)
}

#[test]
fn writes_and_reads_back(rt: HostRuntime) -> Result<(), Fail> {
    let folder = "kv_tests_files_folder";
    make_folder(rt, folder)?;
    assert_eq!(rt; write_segment(&mut files_of(rt, folder)?)?, 13);

    let mut files = files_of(rt, folder)?;
    let log = files.open(FileName::Segment(1))?;
    let mut out = [b'.'; 8];
    for (at, count) in [(0, 8), (8, 5), (13, 0), (1 << 63, 0), (u64::MAX, 0)] {
        assert_eq!(rt; files.read(&log, at, &mut out), Ok(count), "at {at}");
    }
    assert_eq!(rt; out.as_slice(), b"older, f".as_slice());
    fs::remove_dir_all(&rt, folder)?;
    Ok(())
}

/// A sealed table of four bytes.
fn seal_table(files: &mut RealFiles<HostRuntime>) -> Result<RealSealed, Fail> {
    let mut log = files.open(TABLE)?;
    files.write_at(&mut log, 0, b"rows")?;
    files.sync(&mut log)?;
    Ok(files.seal(log)?)
}

/// Takes what several threads may look at.
fn look_together<T: Send + Sync>(_file: &T) {}

#[test]
fn seals_and_purges(rt: HostRuntime) -> Result<(), Fail> {
    let (folder, path) = ("kv_tests_files_sealed", "kv_tests_files_sealed/t-12-0");
    make_folder(rt, folder)?;
    let mut files = files_of(rt, folder)?;
    let file = seal_table(&mut files)?;
    look_together(&file);
    files.purge(FileName::Segment(12))?;
    assert!(rt; fs::exists(&rt, path)?);
    files.purge(TABLE)?;
    assert!(rt; !fs::exists(&rt, path)?);
    let mut out = [0; 8];
    assert_eq!(rt; files.look(&file, 2, &mut out), Ok(2));
    assert_eq!(rt; out.as_slice(), b"ws\0\0\0\0\0\0".as_slice());
    fs::remove_dir_all(&rt, folder)?;
    Ok(())
}

#[test]
fn refuses_a_longer_file(rt: HostRuntime) -> Result<(), Fail> {
    let folder = "kv_tests_files_longer";
    make_folder(rt, folder)?;
    let mut files = files_of(rt, folder)?;
    let mut log = files.open(FileName::SlotA)?;
    for at in [(1 << 63) - 1, 1 << 63, u64::MAX] {
        assert_eq!(rt; files.write_at(&mut log, at, b"ab"), Err(Failed), "at {at}");
    }
    assert_eq!(rt; files.cut(&mut log, 1 << 63), Err(Failed));
    fs::remove_dir_all(&rt, folder)?;
    Ok(())
}

#[test]
fn fails_without_its_folder(rt: HostRuntime) -> Result<(), Fail> {
    let folder = "kv_tests_files_absent";
    make_folder(rt, folder)?;
    let mut files = files_of(rt, folder)?;
    let mut log = files.open(FileName::SlotA)?;
    fs::remove_dir_all(&rt, folder)?;
    assert!(rt; files.open(FileName::SlotB).is_err());

    // the file can still be synced, but not its name
    assert_eq!(rt; files.sync(&mut log), Err(Failed));
    make_folder(rt, folder)?;
    assert_eq!(rt; files.sync(&mut log), Ok(()));
    fs::remove_dir_all(&rt, folder)?;
    Ok(())
}
