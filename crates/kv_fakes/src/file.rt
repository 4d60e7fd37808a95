ghost use Rattle.std.specs.Prelude.{◌≡◌, ◌<◌, ◌≤◌, ◌+◌, ◌-◌, [], ◌++◌, min, length, take, drop, IfOk, OnOk, OnErr};
ghost use Rattle.kv_fakes.specs.Past.{overwritten};
ghost use Rattle.kv_fakes.specs.Content.{file_place, content, Rewrites, SameContent};

use kv_base::{FileName, NoMem};
use std::alloc::Global;

/// A file as it reads.
#[derive(Drop)]
pub struct File {
    pub name: FileName,
    pub bytes: Vec<u8>,
}

/// Appends that part of the piece which lies past the end, where it is written at this place.
pub fn stretch(bytes: &mut Vec<u8>, at: usize, piece: &[u8]) -> Result<(), NoMem>
    requires { at ≤ length bytes.old.items }
    ensures ok { OnOk result (bytes.new.items ≡ bytes.old.items ++ drop (min (length piece.now) (length bytes.old.items - at)) piece.now) }
    ensures err { OnErr result (bytes.new.items ≡ bytes.old.items) }
{
    let overlap = piece.len().min(bytes.len() - at);
    let (_, behind) = piece.split_at(overlap);
    bytes.extend_from_slice(behind)?;
    Ok(())
}

/// Writes the piece over what stands at this place.
pub fn overwrite(bytes: &mut [u8], at: usize, piece: &[u8])
    requires { at + length piece.now ≤ length bytes.old }
    ensures { bytes.new ≡ take at bytes.old ++ piece.now ++ drop (at + length piece.now) bytes.old }
{
    let (_, behind) = bytes.split_at_mut(at);
    let (range, _) = behind.split_at_mut(piece.len());
    range.copy_from_slice(piece);
}

/// Writes the piece over what stands at this place, and past the end. Behind the end it writes nothing.
pub fn write_over(bytes: &mut Vec<u8>, at: usize, piece: &[u8]) -> Result<(), NoMem>
    ensures ok { OnOk result (bytes.new.items ≡ overwritten at piece.now bytes.old.items) }
    ensures err { OnErr result (bytes.new.items ≡ bytes.old.items) }
{
    if bytes.len() < at {
        return Ok(());
    }
    stretch(bytes, at, piece)?;
    overwrite(bytes, at, piece);
    Ok(())
}

/// The place of the file of this name; the number of files where it is not there.
fn place_of(files: &[File], name: FileName) -> usize
    ensures { result ≡ file_place files.now name }
{
    for at in 0..files.len() {
        if files[at].name.is(name) {
            return at;
        }
    }
    files.len()
}

/// What the file of this name reads as.
pub fn content_of(files: &[File], name: FileName) -> &[u8]
    ensures { result.now ≡ content files.now name [] }
{
    match files.get(place_of(files, name)) {
        Some(file) => file.bytes.as_slice(),
        None => &[],
    }
}

/// The place of the file of this name, which is made where it is not there.
fn place_for(alloc: Global, files: &mut Vec<File>, name: FileName) -> Result<usize, NoMem>
    ensures place { IfOk result (λ at. at ≡ file_place files.new.items name) }
    ensures there { IfOk result (λ at. at < length files.new.items) }
    ensures same { SameContent files.old.items files.new.items }
{
    let at = place_of(files, name);
    if at == files.len() {
        files.push(File {
            name,
            bytes: Vec::new(alloc),
        })?;
    }
    Ok(at)
}

/// Writes the piece over what stands at this place of a file, and past its end.
pub fn write_file(
    alloc: Global,
    files: &mut Vec<File>,
    name: FileName,
    at: usize,
    piece: &[u8],
) -> Result<(), NoMem>
    ensures ok { OnOk result (Rewrites files.old.items files.new.items name (overwritten at piece.now)) }
    ensures err { OnErr result (SameContent files.old.items files.new.items) }
{
    let place = place_for(alloc, files, name)?;
    let file = &mut files[place];
    write_over(&mut file.bytes, at, piece)
}

/// Cuts a file.
pub fn cut_file(files: &mut Vec<File>, name: FileName, len: usize)
    ensures { Rewrites files.old.items files.new.items name (take len) }
{
    let place = place_of(files, name);
    if place < files.len() {
        let file = &mut files[place];
        file.bytes.truncate(len);
    }
}

/// Gives a file these bytes.
pub fn place_file(
    alloc: Global,
    files: &mut Vec<File>,
    name: FileName,
    bytes: Vec<u8>,
) -> Result<(), NoMem>
    ensures ok { OnOk result (Rewrites files.old.items files.new.items name (λ old. bytes.items)) }
    ensures err { OnErr result (SameContent files.old.items files.new.items) }
{
    let place = place_for(alloc, files, name)?;
    let file = &mut files[place];
    file.bytes = bytes;
    Ok(())
}
