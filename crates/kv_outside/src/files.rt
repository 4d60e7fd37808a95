ghost use Rattle.std.specs.Prelude.{◌≡◌, ◌≤◌, ◌+◌, ◌^◌, List, ℕ, length, Option, Some, IfOk, OnOk, IfSome};
ghost use Rattle.std.specs.Io.{ReadsAtMost};
ghost use Rattle.kv_base.specs.declared.name.FileName.{FileName};
ghost use Rattle.kv_outside.specs.Causes.{HasCause};
ghost use Rattle.kv_outside.specs.Disk.{Disk, Agrees, IsDurable, NothingNew, Changes};
ghost use Rattle.kv_outside.specs.Files.{HasWritten, Torn, IsCut, Shortened, IsGone, Purged, Goes, ReadsFrom};

use crate::failed::Failed;
use kv_base::FileName;

/// The files of a store, by name, and what a crash may leave of them.
///
/// One value serves one thread and counts the faults of its own calls; the files behind it are shared. A file that is
/// not there is an empty one. No file has more than 2^63 bytes.
///
/// What an open or sealed file holds is told by that value, also where the disk does not tell it. The disk tells what a
/// file reads as and, for every moment so far, what a crash at that moment may leave of each file: its images. What
/// `open` gives agrees with the disk; writes and cuts keep a log in agreement with it; a log that agrees is durable after
/// a sync. Two logs of one name don't see each other's writes, so of the two at most one goes on agreeing.
///
/// Between two syncs a range that was written, and what lies behind the end that the file had, may hold any bytes
/// after a crash; the rest stays, and an image is no longer than the longest, and no shorter than the shortest, that
/// the file was since its last sync. Files are torn apart from one another. After a sync a crash leaves what a read
/// gives. A write or a cut that fails counts as one that was tried, a purge that fails as one that was carried out.
pub trait Files {
    /// An open file, which may be written.
    type Log: Drop;

    /// A file whose bytes never change again. It stays readable after its name was purged.
    type Sealed: Drop;

    /// How often a call has failed. The count never falls, and stays at 2^64 - 1.
    ghost faults: { Self → ℕ };

    /// What is told of the disk.
    ghost disk: { Self → Disk };

    /// The name of an open file.
    ghost name_of: { Self.Log → FileName };

    /// The bytes of an open file, where they are told.
    ghost bytes_of: { Self.Log → Option (List ℕ) };

    /// Whether nothing was written or cut since a sync.
    ghost is_synced: { Self.Log → Type 0 };

    /// The bytes of a sealed file, where they are told.
    ghost sealed_bytes: { Self.Sealed → Option (List ℕ) };

    /// Opens a file. One that is not there is an empty one.
    fn open(&mut self, name: FileName) -> Result<Self::Log, Failed>
        ensures name { IfOk result (λ log. name_of log ≡ name) }
        ensures agrees { IfOk result (λ log. Agrees (disk self.new) name (bytes_of log)) }
        ensures disk { NothingNew (disk self.old) (disk self.new) }
        ensures cause { HasCause (faults self.old) (faults self.new) result };

    /// How many bytes the file has.
    fn length(&mut self, log: &Self::Log) -> Result<u64, Failed>
        ensures bytes { IfOk result (λ n. IfSome (bytes_of log.now) (λ bytes. n ≡ length bytes)) }
        ensures limit { IfOk result (λ n. n ≤ 2 ^ 63) }
        ensures disk { NothingNew (disk self.old) (disk self.new) }
        ensures cause { HasCause (faults self.old) (faults self.new) result };

    /// Reads as many bytes as stand from `at`, up to the buffer's length, and answers how many these are.
    fn read(&mut self, log: &Self::Log, at: u64, out: &mut [u8]) -> Result<usize, Failed>
        ensures bound { ReadsAtMost result out.new }
        ensures bytes { IfOk result (λ count. IfSome (bytes_of log.now) (λ bytes. ReadsFrom at bytes out.old out.new count)) }
        ensures disk { NothingNew (disk self.old) (disk self.new) }
        ensures cause { HasCause (faults self.old) (faults self.new) result };

    /// Writes the bytes over what stands at `at`, which is not beyond the end, and past the end. After a failure any
    /// front of the range may be written, or other bytes in it.
    fn write_at(&mut self, log: &mut Self::Log, at: u64, bytes: &[u8]) -> Result<(), Failed>
        requires { IfSome (bytes_of log.old) (λ old. at ≤ length old) }
        ensures written { OnOk result (Goes (HasWritten at bytes.now) (bytes_of log.old) (bytes_of log.new)) }
        ensures torn { Goes (Torn at (length bytes.now)) (bytes_of log.old) (bytes_of log.new) }
        ensures limit { OnOk result (at + length bytes.now ≤ 2 ^ 63) }
        ensures name { name_of log.new ≡ name_of log.old }
        ensures agrees { Agrees (disk self.old) (name_of log.old) (bytes_of log.old) → Agrees (disk self.new) (name_of log.old) (bytes_of log.new) }
        ensures disk { Changes (name_of log.old) (Torn at (length bytes.now)) (disk self.old) (disk self.new) }
        ensures cause { HasCause (faults self.old) (faults self.new) result };

    /// Cuts the file to a length, which is not above the one that it has. After a failure the file has the bytes below
    /// that length, and any bytes behind them, no more than it had.
    fn cut(&mut self, log: &mut Self::Log, len: u64) -> Result<(), Failed>
        requires { IfSome (bytes_of log.old) (λ old. len ≤ length old) }
        ensures cut { OnOk result (Goes (IsCut len) (bytes_of log.old) (bytes_of log.new)) }
        ensures torn { Goes (Shortened len) (bytes_of log.old) (bytes_of log.new) }
        ensures name { name_of log.new ≡ name_of log.old }
        ensures agrees { Agrees (disk self.old) (name_of log.old) (bytes_of log.old) → Agrees (disk self.new) (name_of log.old) (bytes_of log.new) }
        ensures disk { Changes (name_of log.old) (Shortened len) (disk self.old) (disk self.new) }
        ensures cause { HasCause (faults self.old) (faults self.new) result };

    /// Makes the file durable: after it a crash leaves what a read gives.
    fn sync(&mut self, log: &mut Self::Log) -> Result<(), Failed>
        ensures durable { OnOk result (Agrees (disk self.old) (name_of log.old) (bytes_of log.old) → IsDurable (disk self.new) (name_of log.old) (bytes_of log.new)) }
        ensures synced { OnOk result (is_synced log.new) }
        ensures bytes { bytes_of log.new ≡ bytes_of log.old }
        ensures name { name_of log.new ≡ name_of log.old }
        ensures disk { NothingNew (disk self.old) (disk self.new) }
        ensures cause { HasCause (faults self.old) (faults self.new) result };

    /// Gives the file, of which nothing is unsynced, up for writing: its bytes never change again, and stay readable
    /// after a purge of the name. After a failure the file is given up.
    fn seal(&mut self, log: Self::Log) -> Result<Self::Sealed, Failed>
        requires { is_synced log }
        ensures bytes { IfOk result (λ file. sealed_bytes file ≡ bytes_of log) }
        ensures disk { NothingNew (disk self.old) (disk self.new) }
        ensures cause { HasCause (faults self.old) (faults self.new) result };

    /// Reads a sealed file, as `read` does an open one.
    fn look(&mut self, file: &Self::Sealed, at: u64, out: &mut [u8]) -> Result<usize, Failed>
        ensures bound { ReadsAtMost result out.new }
        ensures bytes { IfOk result (λ count. IfSome (sealed_bytes file.now) (λ bytes. ReadsFrom at bytes out.old out.new count)) }
        ensures disk { NothingNew (disk self.old) (disk self.new) }
        ensures cause { HasCause (faults self.old) (faults self.new) result };

    /// Takes the file away. A crash may leave it as it was, or absent.
    fn purge(&mut self, name: FileName) -> Result<(), Failed>
        ensures gone { OnOk result (Goes IsGone ((disk self.old).reads name) ((disk self.new).reads name)) }
        ensures torn { Goes Purged ((disk self.old).reads name) ((disk self.new).reads name) }
        ensures disk { Changes name Purged (disk self.old) (disk self.new) }
        ensures cause { HasCause (faults self.old) (faults self.new) result };

    /// A disk as it reads is one of its images.
    ghost reads_is_image: { (files : Self) (name : FileName) (bytes : List ℕ) → (disk files).reads name ≡ Some bytes → (disk files).images (disk files).moment name bytes };
}
