//! A folder: its files by name, and the entries that name them.

use crate::paths::path_of;
use kv_base::FileName;
use std::alloc::Global;
use std::fs::{File, OpenOptions};
use std::io::ErrorKind;
use std::{fs, io};

/// Opens a file for reading and writing, and makes it where it is not there: one `openat`.
pub(crate) fn open_file<R: fs::Files<File = File>>(
    alloc: Global,
    rt: &R,
    folder: &str,
    name: FileName,
) -> io::Result<File> {
    let path = path_of(alloc, folder, name)?;
    OpenOptions::new()
        .read(true)
        .write(true)
        .create(true)
        .open(rt, path.as_str())
}

/// Takes a file away, which may not be there: one `unlink`.
pub(crate) fn remove_file<R: fs::Files<File = File>>(
    alloc: Global,
    rt: &R,
    folder: &str,
    name: FileName,
) -> io::Result<()> {
    let path = path_of(alloc, folder, name)?;
    match fs::remove_file(rt, path.as_str()) {
        Err(error) if error.kind() == ErrorKind::NotFound => Ok(()),
        outcome => outcome,
    }
}

/// Makes durable which files the folder has: `openat`, `fsync` and `close` of the folder.
pub(crate) fn sync_folder<R: fs::Files<File = File>>(rt: &R, folder: &str) -> io::Result<()> {
    File::open(rt, folder)?.sync_all()
}
