ghost use Rattle.std.specs.Prelude.{◌≡◌, ◌≤◌, ◌<◌, List, ℕ, length, take, min, Some, IfOk, IfSome, IsErrOf};
ghost use Rattle.kv_outside.specs.Causes.{HasCause, Rose};
ghost use Rattle.kv_outside.specs.Disk.{NothingNew, CrashLeaves};

use crate::steps::open_synced;
use kv_base::{FileName, StoreFault};
use kv_outside::{Failed, Files};
use std::alloc::{AllocError, Global};

/// Why a file was not read.
#[derive(Clone, Copy, Debug, PartialEq, Eq)]
pub enum ReadFault {
    /// A call to the files failed.
    Failed,
    /// There is no memory for what the file has.
    NoMem,
}

impl From<Failed> for ReadFault {
    ghost use Rattle.gated_log.specs.declared.read.ReadFault.TheVariants.{Failed};
    ghost use Rattle.std.specs.Prelude.{◌≡◌};

    ghost from_gives = { λ _ e. e ≡ Failed };

    fn from(_: Failed) -> ReadFault {
        ReadFault::Failed
    }
}

impl From<AllocError> for ReadFault {
    ghost use Rattle.gated_log.specs.declared.read.ReadFault.TheVariants.{NoMem};
    ghost use Rattle.std.specs.Prelude.{◌≡◌};

    ghost from_gives = { λ _ e. e ≡ NoMem };

    fn from(_: AllocError) -> ReadFault {
        ReadFault::NoMem
    }
}

impl From<ReadFault> for StoreFault {
    ghost use Rattle.gated_log.specs.Faults.{store_fault};
    ghost use Rattle.std.specs.Prelude.{◌≡◌};

    ghost from_gives = { λ fault told. told ≡ store_fault fault };

    fn from(fault: ReadFault) -> StoreFault {
        match fault {
            ReadFault::Failed => StoreFault::Failed,
            ReadFault::NoMem => StoreFault::NoMem,
        }
    }
}

/// Reads from the file's start on until the buffer is full or no byte is left, and answers how many bytes these are.
fn fill<F: Files>(files: &mut F, log: &F::Log, buffer: &mut [u8]) -> Result<usize, Failed>
    ensures bound { IfOk result (λ count. count ≤ length buffer.old) }
    ensures bytes { IfOk result (λ count. IfSome (F.bytes_of log.now) (λ bytes.
        (count ≡ min (length buffer.old) (length bytes)) × (take count buffer.new ≡ take count bytes))) }
    ensures disk { NothingNew (F.disk files.old) (F.disk files.new) }
    ensures cause { HasCause (F.faults files.old) (F.faults files.new) result }
{
    let mut done = 0;
    while done < buffer.len() {
        let (_, rest) = buffer.split_at_mut(done);
        let count = files.read(log, done as u64, rest)?;
        if count == 0 {
            return Ok(done);
        }
        done += count;
    }
    Ok(done)
}

/// Syncs the file, and reads all its bytes into one buffer. A file that is not there has none.
///
/// It fails where a call to the files failed, or where there is no memory for so many bytes.
pub fn read_file<F: Files>(
    alloc: Global,
    files: &mut F,
    name: FileName,
) -> Result<Vec<u8>, ReadFault>
    ensures bytes { IfOk result (λ found. (bytes : List ℕ) → (F.disk files.old).reads name ≡ Some bytes → found.items ≡ bytes) }
    // From then on a crash leaves these bytes.
    ensures durable { IfOk result (λ found. CrashLeaves (F.disk files.new) name (λ c. c ≡ found.items)) }
    ensures disk { NothingNew (F.disk files.old) (F.disk files.new) }
    ensures later { F.faults files.old ≤ F.faults files.new }
    ensures failed { IsErrOf result ReadFault.Failed → Rose (F.faults files.old) (F.faults files.new) }
{
    let log = open_synced(files, name)?;
    let length = files.length(&log)?;
    let mut bytes = vec![in alloc; 0u8; length as usize]?;
    let count = fill(files, &log, bytes.as_mut_slice())?;
    bytes.truncate(count);
    Ok(bytes)
}
