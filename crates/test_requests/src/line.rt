//! Words within the limits of the wire.

ghost use Rattle.std.specs.Prelude.{◌≡◌, length, IfSome};
ghost use Rattle.cmd_words.specs.Words.{AreRequestWords};

use kv_base::{Blob, Blobs, NoMem};
use std::alloc::Global;

/// The words of a line. The fault is want of memory.
pub fn words_of(alloc: Global, line: &str) -> Result<Blobs, NoMem> {
    let mut words = Blobs::new(alloc);
    for word in line.split(' ') {
        words.push(Blob::copy(alloc, word.as_bytes())?)?;
    }
    Ok(words)
}

fn length_of(word: &Blob) -> usize
    ensures { result ≡ length word.now }
{
    word.bytes().len()
}

/// The words, where they are within the limits of the wire.
pub fn request_of(words: Blobs) -> Option<Blobs>
    ensures { IfSome result (λ words. AreRequestWords words) }
{
    if words.is_empty() || words.len() > 65536 {
        return None;
    }
    let mut weight: u64 = 0;
    for word in words.as_slice() {
        let length = length_of(word);
        if length > 1048576 {
            return None;
        }
        weight += length as u64 + 16;
        if weight > 16777216 {
            return None;
        }
    }
    Some(words)
}
