ghost use Rattle.std.specs.Prelude.{◌≡◌, ◌≤◌, List, ℕ, length, true, false, Some, OnOk, OnErr};
ghost use Rattle.kv_base.specs.declared.name.FileName.{FileName};
ghost use Rattle.kv_outside.specs.Disk.{Disk, Agrees, Changes};
ghost use Rattle.kv_outside.specs.Files.{Goes, Torn, Shortened, ReadsFrom};
ghost use Rattle.kv_fakes.specs.Past.{overwritten, after_change, with_change, disk_of};

use crate::file::{overwrite, stretch};
use crate::journal::Journal;
use crate::past::ChangeKind;
use kv_base::{Blob, FileName, NoMem};
use std::alloc::Global;

/// An open file of a disk in memory. It keeps the bytes that it reads and writes.
#[derive(Drop)]
pub struct MemLog {
    pub(crate) name: FileName,
    pub(crate) bytes: Vec<u8>,
    pub(crate) synced: bool,
}

/// A sealed file of a disk in memory.
#[derive(Drop)]
pub struct MemSealed {
    pub(crate) bytes: Vec<u8>,
}

/// Copies what stands from a place into a buffer, as far as it goes.
pub fn copy_from(bytes: &[u8], at: u64, out: &mut [u8]) -> usize
    ensures { ReadsFrom at bytes.now out.old out.new result }
{
    let length = bytes.len() as u64;
    if at >= length {
        return 0;
    }
    let start = at as usize;
    let count = out.len().min(bytes.len() - start);
    out[..count].copy_from_slice(&bytes[start..start + count]);
    count
}

/// Writes to a log and to its disk, or to neither.
fn write_both(
    alloc: Global,
    past: &mut Journal,
    log: &mut MemLog,
    at: u64,
    piece: &[u8],
) -> Result<(), NoMem>
    requires { at ≤ length log.old.bytes.items }
    ensures bytes { OnOk result (log.new.bytes.items ≡ overwritten at piece.now log.old.bytes.items) }
    ensures added { OnOk result (past.new ≡ with_change past.old log.old.name (ChangeKind.Written at piece.now true)) }
    ensures kept { OnErr result (log.new.bytes.items ≡ log.old.bytes.items) }
    ensures none { OnErr result (past.new ≡ past.old) }
    ensures name { log.new.name ≡ log.old.name }
{
    let stood = log.bytes.len();
    stretch(&mut log.bytes, at as usize, piece)?;
    match past.write(alloc, log.name, at, piece) {
        Ok(()) => {
            overwrite(&mut log.bytes, at as usize, piece);
            Ok(())
        }
        Err(error) => {
            log.bytes.truncate(stood);
            Err(error)
        }
    }
}

/// Records a write that failed.
fn try_write(
    alloc: Global,
    past: &mut Journal,
    name: FileName,
    at: u64,
    piece: &[u8],
) -> Result<(), NoMem>
    ensures added { OnOk result (past.new ≡ with_change past.old name (ChangeKind.Written at piece.now false)) }
    ensures none { OnErr result (past.new ≡ past.old) }
{
    let bytes = Blob::copy(alloc, piece)?;
    let done = false;
    past.note(name, ChangeKind::Written { at, bytes, done })
}

/// Writes to a log and to its disk, or where the write is to fail records that it was tried.
pub fn write(
    alloc: Global,
    past: &mut Journal,
    log: &mut MemLog,
    at: u64,
    piece: &[u8],
    done: bool,
) -> Result<(), NoMem>
    requires { at ≤ length log.old.bytes.items }
    ensures bytes { OnOk result (log.new.bytes.items ≡ after_change (ChangeKind.Written at piece.now done) log.old.bytes.items) }
    ensures added { OnOk result (past.new ≡ with_change past.old log.old.name (ChangeKind.Written at piece.now done)) }
    ensures kept { OnErr result (log.new.bytes.items ≡ log.old.bytes.items) }
    ensures none { OnErr result (past.new ≡ past.old) }
    ensures name { log.new.name ≡ log.old.name }
    ensures torn { Goes (Torn at (length piece.now)) (Some log.old.bytes.items) (Some log.new.bytes.items) }
    ensures agrees { Agrees (disk_of past.old) log.old.name (Some log.old.bytes.items) → Agrees (disk_of past.new) log.old.name (Some log.new.bytes.items) }
    ensures disk { Changes log.old.name (Torn at (length piece.now)) (disk_of past.old) (disk_of past.new) }
{
    log.synced = false;
    if done {
        write_both(alloc, past, log, at, piece)
    } else {
        try_write(alloc, past, log.name, at, piece)
    }
}

/// Cuts a log and its file, or where the cut is to fail records that it was tried.
pub fn shorten(past: &mut Journal, log: &mut MemLog, len: u64, done: bool) -> Result<(), NoMem>
    ensures bytes { OnOk result (log.new.bytes.items ≡ after_change (ChangeKind.Cut len done) log.old.bytes.items) }
    ensures added { OnOk result (past.new ≡ with_change past.old log.old.name (ChangeKind.Cut len done)) }
    ensures kept { OnErr result (log.new.bytes.items ≡ log.old.bytes.items) }
    ensures none { OnErr result (past.new ≡ past.old) }
    ensures name { log.new.name ≡ log.old.name }
    ensures torn { Goes (Shortened len) (Some log.old.bytes.items) (Some log.new.bytes.items) }
    ensures agrees { Agrees (disk_of past.old) log.old.name (Some log.old.bytes.items) → Agrees (disk_of past.new) log.old.name (Some log.new.bytes.items) }
    ensures disk { Changes log.old.name (Shortened len) (disk_of past.old) (disk_of past.new) }
{
    log.synced = false;
    if done {
        past.cut(log.name, len)?;
        log.bytes.truncate(len as usize);
        Ok(())
    } else {
        past.note(log.name, ChangeKind::Cut { len, done: false })
    }
}
