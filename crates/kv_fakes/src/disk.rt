ghost use Rattle.std.specs.Prelude.{◌≡◌, ◌≤◌, ◌+◌, ◌^◌, [], ◌++◌, true, false, List, ℕ, length, take, drop, Some, IfOk, OnOk, OnErr, IsErr};
ghost use Rattle.std.specs.Io.{ReadsAtMost};
ghost use Rattle.kv_base.specs.declared.name.FileName.{FileName};
ghost use Rattle.kv_outside.specs.Causes.{HasCause};
ghost use Rattle.kv_outside.specs.Disk.{Disk, Agrees, IsDurable, NothingNew, Changes};
ghost use Rattle.kv_outside.specs.Files.{Goes, Torn, Shortened, IsGone, Purged, ReadsFrom};
ghost use Rattle.kv_fakes.specs.Tally.{Counts, IsListed};
ghost use Rattle.kv_fakes.specs.Past.{overwritten, after_change, with_change, read_after, disk_of};
ghost use Rattle.kv_fakes.specs.ImageLaws.{reads_law};
ghost use Rattle.kv_fakes.specs.Crash.{left_after};

use crate::Calls;
use crate::failures::Failures;
use crate::journal::Journal;
use crate::log::{MemLog, MemSealed, copy_from, shorten, write};
use crate::past::ChangeKind;
use kv_base::{Blob, FileName, NoMem};
use kv_outside::{Failed, Files};
use std::alloc::Global;

/// No file has more bytes.
const MAX_LEN: u64 = 1 << 63;

/// Files in memory, with a record of all calls that changed them, so that it can be told and made what a crash leaves.
#[derive(Drop)]
pub struct MemDisk {
    alloc: Global,
    past: Journal,
    calls: Failures,
}

impl MemDisk {
    ghost use Rattle.kv_fakes.specs.MemDisk.{changes_of, disk_calls};

    /// A disk without files, whose calls of these numbers, from 0, fail.
    pub fn new(alloc: Global, fails: Calls) -> MemDisk
        ensures changes { changes_of result ≡ [] }
        ensures fails { (disk_calls result).fails ≡ fails }
        ensures made { (disk_calls result).made ≡ 0 }
        ensures failed { (disk_calls result).failed ≡ 0 }
    {
        MemDisk {
            alloc,
            past: Journal::new(alloc),
            calls: Failures::new(fails),
        }
    }

    /// Puts a file there, durable, in place of the one of that name. It is no call that is counted or that fails, and
    /// where there is no memory nothing changes.
    pub fn put(&mut self, name: FileName, bytes: Blob) -> Result<(), NoMem>
        ensures put { OnOk result (changes_of self.new ≡ with_change (changes_of self.old) name (ChangeKind.Placed bytes)) }
        ensures kept { OnErr result (changes_of self.new ≡ changes_of self.old) }
        ensures calls { disk_calls self.new ≡ disk_calls self.old }
        ensures reads { OnOk result ((disk_of (changes_of self.new)).reads name ≡ Some bytes) }
        ensures durable { OnOk result (IsDurable (disk_of (changes_of self.new)) name (Some bytes)) }
        ensures others { OnOk result (Changes name (λ old new. new ≡ bytes) (disk_of (changes_of self.old)) (disk_of (changes_of self.new))) }
    {
        self.past.place(self.alloc, name, bytes)
    }

    /// What a file reads as.
    pub fn bytes(&self, name: FileName) -> &[u8]
        ensures bytes { result.now ≡ read_after (changes_of self.now) name [] }
        ensures told { (disk_of (changes_of self.now)).reads name ≡ Some result.now }
    {
        self.past.bytes(name)
    }

    /// A disk as a crash at this moment leaves it: one image of every file, chosen by the number, and durable. None of
    /// its calls is to fail.
    pub fn crash(&self, choice: u64) -> Result<MemDisk, NoMem>
        ensures left { IfOk result (λ left. (name : FileName) → read_after (changes_of left) name [] ≡ left_after (changes_of self.now) choice name []) }
        ensures image { IfOk result (λ left. (name : FileName) → let disk = disk_of (changes_of self.now) in disk.images disk.moment name (read_after (changes_of left) name [])) }
        ensures fails { IfOk result (λ left. (disk_calls left).fails ≡ []) }
        ensures made { IfOk result (λ left. (disk_calls left).made ≡ 0) }
        ensures failed { IfOk result (λ left. (disk_calls left).failed ≡ 0) }
    {
        let past = self.past.crash(self.alloc, choice)?;
        Ok(MemDisk {
            alloc: self.alloc,
            past,
            calls: Failures::new(Calls::new(self.alloc)),
        })
    }
}

impl Files for MemDisk {
    ghost use Rattle.kv_fakes.specs.MemDisk.{changes_of, disk_calls, name_in, bytes_in, sealed_in, IsSynced, TriesChange};

    type Log = MemLog;

    type Sealed = MemSealed;

    ghost faults = { λ disk. disk.calls.failed };

    ghost disk = { λ disk. disk_of disk.past };

    ghost name_of = { λ log. log.name };

    ghost bytes_of = { λ log. Some log.bytes.items };

    ghost is_synced = { λ log. log.synced ≡ true };

    ghost sealed_bytes = { λ file. Some file.bytes.items };

    ghost reads_is_image = { λ disk name bytes is. reads_law disk.past name bytes is };

    /// Opens a file. It fails where the call's number is listed, and where there is no memory for the bytes.
    fn open(&mut self, name: FileName) -> Result<MemLog, Failed>
        ensures name { IfOk result (λ log. name_in log ≡ name) }
        ensures bytes { IfOk result (λ log. bytes_in log ≡ read_after (changes_of self.old) name []) }
        ensures agrees { IfOk result (λ log. Agrees (disk_of (changes_of self.new)) name (Some (bytes_in log))) }
        ensures changes { changes_of self.new ≡ changes_of self.old }
        ensures disk { NothingNew (disk_of (changes_of self.old)) (disk_of (changes_of self.new)) }
        ensures cause { HasCause (disk_calls self.old).failed (disk_calls self.new).failed result }
        ensures counts { Counts (disk_calls self.old) (disk_calls self.new) result }
    {
        if self.calls.turn() {
            return Err(self.calls.fail());
        }
        match Vec::from_slice(self.alloc, self.past.bytes(name)) {
            Ok(bytes) => Ok(MemLog {
                name,
                bytes,
                synced: false,
            }),
            Err(_) => Err(self.calls.fail()),
        }
    }

    /// How many bytes the file has. It fails exactly where the call's number is listed.
    fn length(&mut self, log: &MemLog) -> Result<u64, Failed>
        ensures bytes { IfOk result (λ n. n ≡ length (bytes_in log.now)) }
        ensures limit { IfOk result (λ n. n ≤ 2 ^ 63) }
        ensures changes { changes_of self.new ≡ changes_of self.old }
        ensures disk { NothingNew (disk_of (changes_of self.old)) (disk_of (changes_of self.new)) }
        ensures cause { HasCause (disk_calls self.old).failed (disk_calls self.new).failed result }
        ensures counts { Counts (disk_calls self.old) (disk_calls self.new) result }
        ensures only { IsErr result → IsListed (disk_calls self.old) }
    {
        if self.calls.turn() {
            return Err(self.calls.fail());
        }
        Ok(log.bytes.len() as u64)
    }

    /// Reads what stands from `at`. It fails exactly where the call's number is listed.
    fn read(&mut self, log: &MemLog, at: u64, out: &mut [u8]) -> Result<usize, Failed>
        ensures bound { ReadsAtMost result out.new }
        ensures bytes { IfOk result (λ count. ReadsFrom at (bytes_in log.now) out.old out.new count) }
        ensures changes { changes_of self.new ≡ changes_of self.old }
        ensures disk { NothingNew (disk_of (changes_of self.old)) (disk_of (changes_of self.new)) }
        ensures cause { HasCause (disk_calls self.old).failed (disk_calls self.new).failed result }
        ensures counts { Counts (disk_calls self.old) (disk_calls self.new) result }
        ensures only { IsErr result → IsListed (disk_calls self.old) }
    {
        if self.calls.turn() {
            return Err(self.calls.fail());
        }
        Ok(copy_from(&log.bytes, at, out))
    }

    /// Writes over what stands at `at`, and past the end. It fails where the call's number is listed, where there is no
    /// memory for the bytes, and where the file would become longer than 2^63 bytes, and leaves the bytes as they were.
    fn write_at(&mut self, log: &mut MemLog, at: u64, bytes: &[u8]) -> Result<(), Failed>
        requires { at ≤ length (bytes_in log.old) }
        ensures written { OnOk result (bytes_in log.new ≡ take at (bytes_in log.old) ++ bytes.now ++ drop (at + length bytes.now) (bytes_in log.old)) }
        ensures torn { Goes (Torn at (length bytes.now)) (Some (bytes_in log.old)) (Some (bytes_in log.new)) }
        ensures kept { OnErr result (bytes_in log.new ≡ bytes_in log.old) }
        ensures limit { OnOk result (at + length bytes.now ≤ 2 ^ 63) }
        ensures name { name_in log.new ≡ name_in log.old }
        ensures agrees { Agrees (disk_of (changes_of self.old)) (name_in log.old) (Some (bytes_in log.old)) → Agrees (disk_of (changes_of self.new)) (name_in log.old) (Some (bytes_in log.new)) }
        ensures done { OnOk result (changes_of self.new ≡ with_change (changes_of self.old) (name_in log.old) (ChangeKind.Written at bytes.now true)) }
        ensures tried { OnErr result (TriesChange (changes_of self.old) (changes_of self.new) (name_in log.old) (ChangeKind.Written at bytes.now false)) }
        ensures disk { Changes (name_in log.old) (Torn at (length bytes.now)) (disk_of (changes_of self.old)) (disk_of (changes_of self.new)) }
        ensures cause { HasCause (disk_calls self.old).failed (disk_calls self.new).failed result }
        ensures counts { Counts (disk_calls self.old) (disk_calls self.new) result }
    {
        let fails = self.calls.turn();
        if bytes.len() as u64 > MAX_LEN - at {
            return Err(self.calls.fail());
        }
        match write(self.alloc, &mut self.past, log, at, bytes, !fails) {
            Ok(()) => {
                if fails {
                    return Err(self.calls.fail());
                }
                Ok(())
            }
            Err(_) => Err(self.calls.fail()),
        }
    }

    /// Cuts the file to a length. It fails where the call's number is listed, and where there is no memory for the
    /// record, and leaves the bytes as they were.
    fn cut(&mut self, log: &mut MemLog, len: u64) -> Result<(), Failed>
        requires { len ≤ length (bytes_in log.old) }
        ensures cut { OnOk result (bytes_in log.new ≡ take len (bytes_in log.old)) }
        ensures torn { Goes (Shortened len) (Some (bytes_in log.old)) (Some (bytes_in log.new)) }
        ensures kept { OnErr result (bytes_in log.new ≡ bytes_in log.old) }
        ensures name { name_in log.new ≡ name_in log.old }
        ensures agrees { Agrees (disk_of (changes_of self.old)) (name_in log.old) (Some (bytes_in log.old)) → Agrees (disk_of (changes_of self.new)) (name_in log.old) (Some (bytes_in log.new)) }
        ensures done { OnOk result (changes_of self.new ≡ with_change (changes_of self.old) (name_in log.old) (ChangeKind.Cut len true)) }
        ensures tried { OnErr result (TriesChange (changes_of self.old) (changes_of self.new) (name_in log.old) (ChangeKind.Cut len false)) }
        ensures disk { Changes (name_in log.old) (Shortened len) (disk_of (changes_of self.old)) (disk_of (changes_of self.new)) }
        ensures cause { HasCause (disk_calls self.old).failed (disk_calls self.new).failed result }
        ensures counts { Counts (disk_calls self.old) (disk_calls self.new) result }
    {
        let fails = self.calls.turn();
        match shorten(&mut self.past, log, len, !fails) {
            Ok(()) => {
                if fails {
                    return Err(self.calls.fail());
                }
                Ok(())
            }
            Err(_) => Err(self.calls.fail()),
        }
    }

    /// Makes the file durable. It fails where the call's number is listed, and where there is no memory for the record,
    /// and then it does nothing.
    fn sync(&mut self, log: &mut MemLog) -> Result<(), Failed>
        ensures durable { OnOk result (Agrees (disk_of (changes_of self.old)) (name_in log.old) (Some (bytes_in log.old)) → IsDurable (disk_of (changes_of self.new)) (name_in log.old) (Some (bytes_in log.new))) }
        ensures synced { OnOk result (IsSynced log.new) }
        ensures bytes { bytes_in log.new ≡ bytes_in log.old }
        ensures name { name_in log.new ≡ name_in log.old }
        ensures done { OnOk result (changes_of self.new ≡ with_change (changes_of self.old) (name_in log.old) ChangeKind.Synced) }
        ensures kept { OnErr result (changes_of self.new ≡ changes_of self.old) }
        ensures disk { NothingNew (disk_of (changes_of self.old)) (disk_of (changes_of self.new)) }
        ensures cause { HasCause (disk_calls self.old).failed (disk_calls self.new).failed result }
        ensures counts { Counts (disk_calls self.old) (disk_calls self.new) result }
    {
        if self.calls.turn() {
            return Err(self.calls.fail());
        }
        match self.past.note(log.name, ChangeKind::Synced) {
            Ok(()) => {
                log.synced = true;
                Ok(())
            }
            Err(_) => Err(self.calls.fail()),
        }
    }

    /// Gives the file up for writing. It fails exactly where the call's number is listed.
    fn seal(&mut self, log: MemLog) -> Result<MemSealed, Failed>
        requires { IsSynced log }
        ensures bytes { IfOk result (λ file. sealed_in file ≡ bytes_in log) }
        ensures changes { changes_of self.new ≡ changes_of self.old }
        ensures disk { NothingNew (disk_of (changes_of self.old)) (disk_of (changes_of self.new)) }
        ensures cause { HasCause (disk_calls self.old).failed (disk_calls self.new).failed result }
        ensures counts { Counts (disk_calls self.old) (disk_calls self.new) result }
        ensures only { IsErr result → IsListed (disk_calls self.old) }
    {
        if self.calls.turn() {
            return Err(self.calls.fail());
        }
        Ok(MemSealed { bytes: log.bytes })
    }

    /// Reads a sealed file. It fails exactly where the call's number is listed.
    fn look(&mut self, file: &MemSealed, at: u64, out: &mut [u8]) -> Result<usize, Failed>
        ensures bound { ReadsAtMost result out.new }
        ensures bytes { IfOk result (λ count. ReadsFrom at (sealed_in file.now) out.old out.new count) }
        ensures changes { changes_of self.new ≡ changes_of self.old }
        ensures disk { NothingNew (disk_of (changes_of self.old)) (disk_of (changes_of self.new)) }
        ensures cause { HasCause (disk_calls self.old).failed (disk_calls self.new).failed result }
        ensures counts { Counts (disk_calls self.old) (disk_calls self.new) result }
        ensures only { IsErr result → IsListed (disk_calls self.old) }
    {
        if self.calls.turn() {
            return Err(self.calls.fail());
        }
        Ok(copy_from(&file.bytes, at, out))
    }

    /// Takes the file away, also where the call's number is listed and it fails. Where there is no memory for the record
    /// it fails, and does nothing.
    fn purge(&mut self, name: FileName) -> Result<(), Failed>
        ensures gone { OnOk result (Goes IsGone (Some (read_after (changes_of self.old) name [])) (Some (read_after (changes_of self.new) name []))) }
        ensures torn { Goes Purged (Some (read_after (changes_of self.old) name [])) (Some (read_after (changes_of self.new) name [])) }
        ensures done { OnOk result (changes_of self.new ≡ with_change (changes_of self.old) name ChangeKind.Gone) }
        ensures tried { OnErr result (TriesChange (changes_of self.old) (changes_of self.new) name ChangeKind.Gone) }
        ensures disk { Changes name Purged (disk_of (changes_of self.old)) (disk_of (changes_of self.new)) }
        ensures cause { HasCause (disk_calls self.old).failed (disk_calls self.new).failed result }
        ensures counts { Counts (disk_calls self.old) (disk_calls self.new) result }
    {
        let fails = self.calls.turn();
        match self.past.remove(name) {
            Ok(()) => {
                if fails {
                    return Err(self.calls.fail());
                }
                Ok(())
            }
            Err(_) => Err(self.calls.fail()),
        }
    }
}
