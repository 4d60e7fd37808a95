//! Bytes of a sealed file.

ghost use Rattle.std.specs.Prelude.{◌≡◌, ◌≤◌, ◌<◌, ◌+◌, ◌-◌, ◌^◌, length, take, drop, min, IfOk, IfErr, IfSome};
ghost use Rattle.kv_outside.specs.Causes.{HasCause};
ghost use Rattle.kv_outside.specs.Disk.{NothingNew};
ghost use Rattle.kv_outside.specs.Causes.{IsCause};
ghost use Rattle.sst_grammar.specs.Judging.{slice_at};
ghost use Rattle.sst_file.specs.Reading.{nowhere};

use kv_base::StoreFault;
use kv_outside::{Failed, Files};
use std::alloc::Global;

/// Reads from a place on until the buffer is full or no byte is left, and answers how many bytes these are.
fn fill<F: Files>(
    files: &mut F,
    file: &F::Sealed,
    place: u64,
    buffer: &mut [u8],
) -> Result<usize, Failed>
    requires { place + length buffer.old < 2 ^ 64 }
    ensures bound { IfOk result (λ count. count ≤ length buffer.old) }
    ensures bytes { IfOk result (λ count. IfSome (F.sealed_bytes file.now) (λ bytes.
        (count ≡ min (length buffer.old) (length bytes - place)) × (take count buffer.new ≡ take count (drop place bytes)))) }
    ensures disk { NothingNew (F.disk files.old) (F.disk files.new) }
    ensures cause { HasCause (F.faults files.old) (F.faults files.new) result }
{
    let mut done = 0;
    while done < buffer.len() {
        let (_, rest) = buffer.split_at_mut(done);
        let count = files.look(file, place + done as u64, rest)?;
        if count == 0 {
            return Ok(done);
        }
        done += count;
    }
    Ok(done)
}

/// The bytes that stand from a place on, so many, or fewer where the file ends before.
pub(crate) fn bytes_at<F: Files>(
    alloc: Global,
    files: &mut F,
    file: &F::Sealed,
    place: u64,
    count: u32,
) -> Result<Vec<u8>, StoreFault>
    ensures bytes { IfOk result (λ found. IfSome (F.sealed_bytes file.now) (λ bytes. found.items ≡ slice_at place count bytes)) }
    ensures short { IfOk result (λ found. length found.items < 2 ^ 32) }
    ensures disk { NothingNew (F.disk files.old) (F.disk files.new) }
    ensures cause { IfErr result (λ fault. IsCause (F.faults files.old) (F.faults files.new) nowhere fault) }
    ensures later { F.faults files.old ≤ F.faults files.new }
{
    // No file reaches so far.
    if u64::MAX - place < u64::from(count) {
        return Err(StoreFault::NoMem);
    }
    let mut bytes = vec![in alloc; 0u8; count as usize]?;
    let Ok(found) = fill(files, file, place, bytes.as_mut_slice()) else {
        return Err(StoreFault::Failed);
    };
    bytes.truncate(found);
    Ok(bytes)
}
