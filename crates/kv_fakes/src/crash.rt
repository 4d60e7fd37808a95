ghost use Rattle.std.specs.Prelude.{◌≡◌, ◌+◌, ◌<◌, ◌≤◌, ◌^◌, [], take, IfOk, OnOk};
ghost use Rattle.kv_base.specs.declared.name.FileName.{FileName};
ghost use Rattle.kv_fakes.specs.Past.{after_change};
ghost use Rattle.kv_fakes.specs.Content.{content, Rewrites};
ghost use Rattle.kv_fakes.specs.Crash.{draw, reached, sound, spoilt, torn_bytes, is_settled, settles, fate, struck_write, struck_or, struck, left_of, left_after};

use crate::fate::Fate;
use crate::file::{File, cut_file, place_file, write_file};
use crate::past::{Change, ChangeKind};
use kv_base::{Blob, FileName, NoMem};
use std::alloc::Global;

/// The number drawn after this one.
#[tactic(auto, unfolding(crate::specs::Crash::draw))]
fn draw(number: u64) -> u64
    ensures { result ≡ draw number }
{
    number
        .wrapping_mul(6364136223846793005)
        .wrapping_add(1442695040888963407)
}

/// Does a change of this kind make its file durable?
fn settles(kind: &ChangeKind) -> bool
    ensures { result ≡ settles kind.now }
{
    match kind {
        ChangeKind::Written { .. } | ChangeKind::Cut { .. } | ChangeKind::Gone => false,
        ChangeKind::Synced | ChangeKind::Placed { .. } => true,
    }
}

/// Did the file become durable in these changes?
fn is_settled(changes: &[Change], name: FileName) -> bool
    ensures { result ≡ is_settled changes.now name }
{
    for at in 0..changes.len() {
        if changes[at].name.is(name) && settles(&changes[at].kind) {
            return true;
        }
    }
    false
}

/// What is there in place of the bytes of a torn write.
fn torn_bytes(alloc: Global, number: u64, bytes: &[u8]) -> Result<Vec<u8>, NoMem>
    ensures { IfOk result (λ torn. torn.items ≡ torn_bytes number bytes.now) }
{
    let count = reached(number, bytes.len());
    let (some, _) = bytes.split_at(count);
    let (front, rest) = some.split_at(sound(number, count));
    let mut torn = Vec::from_slice(alloc, front)?;
    for byte in rest {
        torn.push(spoilt(number, *byte))?;
    }
    Ok(torn)
}

/// How many bytes of a torn write of `n` reached the disk.
#[tactic(auto, unfolding(crate::specs::Crash::reached))]
fn reached(number: u64, n: usize) -> usize
    requires { n < 2 ^ 63 }
    ensures value { result ≡ reached number n }
    ensures within { result ≤ n }
{
    (number / (1 << 32) % (n as u64 + 1)) as usize
}

/// How many of the bytes that reached the disk are as they were written.
#[tactic(auto, unfolding(crate::specs::Crash::sound))]
fn sound(number: u64, n: usize) -> usize
    requires { n < 2 ^ 63 }
    ensures value { result ≡ sound number n }
    ensures within { result ≤ n }
{
    (number / (1 << 16) % (n as u64 + 1)) as usize
}

/// Another byte than this one.
#[tactic(auto, unfolding(crate::specs::Crash::spoilt))]
fn spoilt(number: u64, byte: u8) -> u8
    ensures { result ≡ spoilt number byte }
{
    ((byte as u64 + 1 + number / (1 << 24) % 255) % 256) as u8
}

/// Makes a change as its call did.
fn redo(alloc: Global, files: &mut Vec<File>, change: &Change) -> Result<(), NoMem>
    ensures { OnOk result (Rewrites files.old.items files.new.items change.now.name (after_change change.now.kind)) }
{
    let name = change.name;
    match &change.kind {
        ChangeKind::Written { at, bytes, done } => {
            if *done {
                write_file(alloc, files, name, *at as usize, bytes.bytes())?;
            }
        }
        ChangeKind::Cut { len, done } => {
            if *done {
                cut_file(files, name, *len as usize);
            }
        }
        ChangeKind::Synced => {}
        ChangeKind::Gone => cut_file(files, name, 0),
        ChangeKind::Placed { bytes } => place_copy(alloc, files, name, bytes)?,
    }
    Ok(())
}

/// Gives a file a copy of these bytes.
fn place_copy(
    alloc: Global,
    files: &mut Vec<File>,
    name: FileName,
    bytes: &Blob,
) -> Result<(), NoMem>
    ensures { OnOk result (Rewrites files.old.items files.new.items name (λ old. bytes.now)) }
{
    let copy = Vec::from_slice(alloc, bytes.bytes())?;
    place_file(alloc, files, name, copy)
}

/// Makes of a change that was not durable what a crash leaves of it.
fn strike(alloc: Global, files: &mut Vec<File>, change: &Change, number: u64) -> Result<(), NoMem>
    ensures { OnOk result (Rewrites files.old.items files.new.items change.now.name (struck number change.now.kind)) }
{
    let name = change.name;
    match &change.kind {
        ChangeKind::Written { at, bytes, .. } => {
            strike_write(alloc, files, name, *at as usize, bytes.bytes(), number)
        }
        ChangeKind::Cut { len, .. } => {
            strike_cut(files, name, *len as usize, number);
            Ok(())
        }
        ChangeKind::Synced => Ok(()),
        ChangeKind::Gone => {
            strike_cut(files, name, 0, number);
            Ok(())
        }
        ChangeKind::Placed { bytes } => place_copy(alloc, files, name, bytes),
    }
}

/// Makes of a write what a crash leaves of it.
fn strike_write(
    alloc: Global,
    files: &mut Vec<File>,
    name: FileName,
    at: usize,
    bytes: &[u8],
    number: u64,
) -> Result<(), NoMem>
    ensures { OnOk result (Rewrites files.old.items files.new.items name (struck_write (fate number) number at bytes.now)) }
{
    match Fate::of(number) {
        Fate::Whole => write_file(alloc, files, name, at, bytes),
        Fate::Missing => Ok(()),
        Fate::Torn => {
            let torn = torn_bytes(alloc, number, bytes)?;
            write_file(alloc, files, name, at, &torn)
        }
    }
}

/// Makes of a cut what a crash leaves of it.
fn strike_cut(files: &mut Vec<File>, name: FileName, len: usize, number: u64)
    ensures { Rewrites files.old.items files.new.items name (λ old. struck_or (fate number) (take len old) old) }
{
    match Fate::of(number) {
        Fate::Whole => cut_file(files, name, len),
        Fate::Missing => {}
        Fate::Torn => {}
    }
}

/// Makes of a change what a crash leaves of it.
fn leave_one(
    alloc: Global,
    files: &mut Vec<File>,
    change: &Change,
    settled: bool,
    number: u64,
) -> Result<(), NoMem>
    ensures { OnOk result (Rewrites files.old.items files.new.items change.now.name (left_of settled number change.now.kind)) }
{
    if settled {
        redo(alloc, files, change)
    } else {
        strike(alloc, files, change, number)
    }
}

/// The files that a crash after these changes leaves, chosen by the number.
pub fn leave(alloc: Global, changes: &[Change], choice: u64) -> Result<Vec<File>, NoMem>
    ensures { IfOk result (λ files. (name : FileName) → content files.items name [] ≡ left_after changes.now choice name []) }
{
    let mut files = Vec::new(alloc);
    let mut number = choice;
    for at in 0..changes.len() {
        let change = &changes[at];
        let (_, later) = changes.split_at(at + 1);
        let settled = is_settled(later, change.name);
        number = draw(number);
        leave_one(alloc, &mut files, change, settled, number)?;
    }
    Ok(files)
}
