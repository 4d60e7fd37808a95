ghost use Rattle.std.specs.Prelude.{◌≡◌, ◌↔◌, None, true, IsErr};
ghost use Rattle.kv_outside.specs.Disk.{untold};
ghost use Rattle.kv_outside.specs.DiskLaws.{untold_law};
ghost use Rattle.kv_real.specs.RealLog.{IsOnDisk};

use crate::faults::Faults;
use crate::folder::{open_file, remove_file, sync_folder};
use crate::positions::{length_of, read_from, write_from};
use kv_base::{FileName, PathText};
use kv_outside::{Failed, Files};
use std::alloc::Global;
use std::fs::File;
use std::io::ErrorKind;
use std::marker::Model;
use std::{fs, io};

/// The files of a store in a folder: `slot-a`, `slot-b`, `wal-N` and `t-RUN-PART`, with the numbers in decimal.
/// Contracts see the folder and the count of faults.
///
/// The folder is not made: where it is not there each `open` fails. Each error of the system counts, as does want of
/// memory for a path.
///
/// # What makes a file durable
///
/// A sync is one `fdatasync`: it writes the bytes and what is needed to read them back, the length included. It does not
/// write the name, which is an entry of the folder and is synced with it (`fsync` of the folder). Once the folder was
/// synced the name stays until it is purged. So the folder is synced too at the first sync of an open file, whoever made
/// the file and whichever value opened it, for an earlier process may have made it and left the folder unsynced; and at
/// the first sync after a purge, which makes the purge durable. Every other sync is one system call.
///
/// # Why there is no lock
///
/// Reads and writes name their place (`pread`, `pwrite`), so they share no position in the file: threads that look at
/// one sealed file don't wait for each other.
#[derive(Drop)]
pub struct RealFiles<R: Drop> {
    alloc: Global,
    rt: R,
    folder: PathText,
    /// Whether a file was taken away since the folder was synced.
    purged: bool,
    faults: Faults,
}

/// An open file of a folder. Contracts see its name and its flags. It is closed where it is dropped.
///
/// What is known of its syncs goes with it, for it may be handed from one value of `RealFiles` to another.
#[derive(Drop)]
pub struct RealLog {
    file: File,
    name: FileName,
    /// Whether something may have been written or cut since the last sync.
    dirty: bool,
    /// Whether the folder was synced since the file was opened.
    named: bool,
    /// Whether a sync has failed.
    lost: bool,
}

/// A file of a folder that is only read. It is closed where it is dropped.
#[derive(Drop)]
pub struct RealSealed {
    file: File,
}

impl<R: Drop> Model for RealFiles<R> {
    ghost use Rattle.kv_real.specs.Folder.{FolderFiles};

    ghost Value = { FolderFiles };

    ghost view = { λ s. record { folder = s.folder; faults = s.faults } };
}

impl Model for RealLog {
    ghost use Rattle.kv_real.specs.RealLog.{OpenFile};

    ghost Value = { OpenFile };

    ghost view = { λ log. record { name = log.name; dirty = log.dirty; named = log.named; lost = log.lost } };
}

impl<R: fs::Files<File = File> + Drop> RealFiles<R> {
    /// The files of this folder. No call is made.
    pub fn new(alloc: Global, rt: R, folder: PathText) -> RealFiles<R>
        ensures folder { result.folder ≡ folder }
        ensures faults { result.faults ≡ 0 }
    {
        RealFiles {
            alloc,
            rt,
            folder,
            purged: false,
            faults: Faults::none(),
        }
    }
}

impl RealLog {
    /// One `fdatasync`. When one has failed the system may have dropped what it could not write, and a later one would
    /// not find it; so each later one fails.
    fn sync_data(&mut self) -> io::Result<()>
        ensures failed { IsErr result ↔ (self.new.lost ≡ true) }
        ensures stays { self.old.lost ≡ true → IsErr result }
        ensures others { self.new ≡ record self.old { lost = self.new.lost } }
    {
        if self.lost {
            return Err(ErrorKind::Other.into());
        }
        let outcome = self.file.sync_data();
        self.lost = outcome.is_err();
        outcome
    }
}

impl<R: fs::Files<File = File> + Drop> Files for RealFiles<R> {
    type Log = RealLog;

    type Sealed = RealSealed;

    ghost faults = { λ s. s.faults };

    ghost disk = { λ _. untold };

    ghost name_of = { λ log. log.name };

    ghost bytes_of = { λ _. None };

    ghost is_synced = { IsOnDisk };

    ghost sealed_bytes = { λ _. None };

    /// One `openat`.
    fn open(&mut self, name: FileName) -> Result<RealLog, Failed> {
        let opened = open_file(self.alloc, &self.rt, self.folder.text(), name);
        let file = self.faults.note(opened)?;
        Ok(RealLog {
            file,
            name,
            dirty: true,
            named: false,
            lost: false,
        })
    }

    /// One `statx`.
    fn length(&mut self, log: &RealLog) -> Result<u64, Failed> {
        self.faults.note(length_of(&log.file))
    }

    /// One `pread` where the buffer is filled, and one more for the end of the file.
    fn read(&mut self, log: &RealLog, at: u64, out: &mut [u8]) -> Result<usize, Failed> {
        self.faults.note(read_from(&log.file, at, out))
    }

    /// One `pwrite`, and none for no bytes.
    fn write_at(&mut self, log: &mut RealLog, at: u64, bytes: &[u8]) -> Result<(), Failed> {
        log.dirty = true;
        self.faults.note(write_from(&log.file, at, bytes))
    }

    /// One `ftruncate`.
    fn cut(&mut self, log: &mut RealLog, len: u64) -> Result<(), Failed> {
        log.dirty = true;
        self.faults.note(log.file.set_len(len))
    }

    /// One `fdatasync`, and a sync of the folder where that is due.
    fn sync(&mut self, log: &mut RealLog) -> Result<(), Failed> {
        self.faults.note(log.sync_data())?;
        if self.purged || !log.named {
            let synced = sync_folder(&self.rt, self.folder.text());
            self.faults.note(synced)?;
            self.purged = false;
            log.named = true;
        }
        log.dirty = false;
        Ok(())
    }

    /// No system call.
    fn seal(&mut self, log: RealLog) -> Result<RealSealed, Failed> {
        Ok(RealSealed { file: log.file })
    }

    /// As `read`.
    fn look(&mut self, file: &RealSealed, at: u64, out: &mut [u8]) -> Result<usize, Failed> {
        self.faults.note(read_from(&file.file, at, out))
    }

    /// One `unlink`. A file that is not there is gone already.
    fn purge(&mut self, name: FileName) -> Result<(), Failed> {
        self.purged = true;
        let removed = remove_file(self.alloc, &self.rt, self.folder.text(), name);
        self.faults.note(removed)
    }

    ghost reads_is_image = { λ files name bytes is. untold_law name bytes is };
}
