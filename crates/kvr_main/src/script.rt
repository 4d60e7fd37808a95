//! `kvr script`: one session from standard input to standard output.

ghost use Rattle.std.specs.Prelude.{◌≡◌, IfOk, map, string_bytes};
ghost use Rattle.kvr_main.specs.Folder.{folder_of as folder_in};

use crate::status::{NO_MEMORY, tell_early_end, tell_end};
use kv_base::{NoMem, PathText};
use kv_conf::{Words, WordsFault, read_words};
use kv_real::{RealFiles, StdIn, StdOut, SystemClock};
use kv_server::top_script;
use std::alloc::Global;

/// The folder that the words of `script` name. Other words name none, and then no file is called.
fn folder_of(alloc: Global, words: &[String]) -> Result<PathText, NoMem>
    ensures { IfOk result (λ folder. folder ≡ folder_in (map (λ word. string_bytes word) words.now)) }
{
    match read_words(alloc, words) {
        Ok(Words::Script(folder)) => Ok(folder),
        Ok(_) | Err(WordsFault::Usage) => PathText::new(alloc, "."),
        Err(WordsFault::NoMem) => Err(NoMem),
    }
}

/// The files of the folder that the words of `script` name.
fn files_of(rt: HostRuntime, words: &[String]) -> Result<RealFiles<HostRuntime>, NoMem>
    ensures { IfOk result (λ files. files.folder ≡ folder_in (map (λ word. string_bytes word) words.now)) }
{
    let folder = folder_of(rt.alloc(), words)?;
    Ok(RealFiles::new(rt.alloc(), rt, folder))
}

/// Runs `script` by these words on the real input, output, clock and files, and answers its status.
fn run(rt: HostRuntime, words: &[String]) -> u8 {
    let mut files = match files_of(rt, words) {
        Ok(files) => files,
        Err(NoMem) => return NO_MEMORY,
    };
    let mut source = StdIn::new(rt.stdin());
    let mut sink = StdOut::new(rt.stdout());
    let mut clock = SystemClock::new(rt);
    top_script(
        rt.alloc(),
        words,
        &mut source,
        &mut sink,
        &mut files,
        &mut clock,
    )
}

/// Runs `script` by these words, and says what ended it. Answers the status.
pub(crate) fn script(rt: HostRuntime, words: &[String]) -> u8 {
    match folder_of(rt.alloc(), words) {
        Ok(folder) => {
            let status = run(rt, words);
            tell_end(&rt, status, folder.text());
            status
        }
        Err(NoMem) => {
            tell_early_end(&rt, NO_MEMORY);
            NO_MEMORY
        }
    }
}
