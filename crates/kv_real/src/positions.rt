//! One file, by places in it: reads, writes and its length, which leave no position behind and so take no lock.

ghost use Rattle.std.specs.Prelude.{◌≤◌, ◌+◌, ◌^◌, length, IfOk, OnOk};
ghost use Rattle.std.specs.Io.{ReadsAtMost};

use std::fs::File;
use std::io;
use std::io::ErrorKind;
use std::os::unix::fs::FileExt;

/// The most bytes that a file has.
const MAX_LENGTH: u64 = 1 << 63;

/// How many bytes the file has: one `statx`.
pub(crate) fn length_of(file: &File) -> io::Result<u64>
    ensures { IfOk result (λ n. n ≤ 2 ^ 63) }
{
    let len = file.metadata()?.len();
    if len > MAX_LENGTH {
        return Err(ErrorKind::FileTooLarge.into());
    }
    Ok(len)
}

/// Reads what stands from a place on, until the buffer is full or the file ends. Each turn is one `pread`, of which the
/// first fills the buffer where that many bytes stand there.
pub(crate) fn read_from(file: &File, at: u64, out: &mut [u8]) -> io::Result<usize>
    ensures { ReadsAtMost result out.new }
{
    let mut done = 0;
    while done < out.len() {
        let (_, rest) = out.split_at_mut(done);
        let count = read_once(file, at.saturating_add(done as u64), rest)?;
        if count == 0 {
            break;
        }
        done += count;
    }
    Ok(done)
}

/// One `pread`, or none at a place that no file reaches.
fn read_once(file: &File, at: u64, out: &mut [u8]) -> io::Result<usize>
    ensures { ReadsAtMost result out.new }
{
    if at >= MAX_LENGTH {
        return Ok(0);
    }
    file.read_at(out, at)
}

/// Writes all of the bytes from a place on: one `pwrite` where the system takes them at once, and more until it has.
pub(crate) fn write_from(file: &File, at: u64, bytes: &[u8]) -> io::Result<()>
    ensures { OnOk result (at + length bytes.now ≤ 2 ^ 63) }
{
    match at.checked_add(bytes.len() as u64) {
        Some(end) if end <= MAX_LENGTH => file.write_all_at(bytes, at),
        _ => Err(ErrorKind::FileTooLarge.into()),
    }
}
