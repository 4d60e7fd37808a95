//! The words behind the program's name.

ghost use Rattle.std.specs.Prelude.{◌≡◌, ◌≢◌};
ghost use Rattle.std.specs.declared.io.ErrorKind.TheVariants.{OutOfMemory};

use crate::status::{NO_MEMORY, USAGE};
use std::{env, io};

/// The words behind the program's name.
pub(crate) fn words_of(rt: &HostRuntime) -> io::Result<Vec<String>> {
    let mut words = Vec::new(rt.alloc());
    for word in env::args(rt)?.skip(1) {
        words.push(word)?;
    }
    Ok(words)
}

/// The status where the words cannot be had: one of them is no UTF-8, or there is no memory.
pub(crate) fn status_without_words(kind: io::ErrorKind) -> u8
    ensures memory { kind ≡ OutOfMemory → result ≡ NO_MEMORY }
    ensures usage { kind ≢ OutOfMemory → result ≡ USAGE }
{
    match kind {
        io::ErrorKind::OutOfMemory => NO_MEMORY,
        _ => USAGE,
    }
}
