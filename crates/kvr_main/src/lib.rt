//! The program `kvr`, on the real input, output, clock, files and network: all of it but its `main`.
//!
//! `kvr script --dir D` answers the requests on its standard input on its standard output, with the status of
//! `kv_server::top_script`. `kvr serve --conf FILE` answers clients over TCP, one after the other, with the status of
//! `kv_server::top_serve`; its own are 5 and 11, where the configuration can't be read or is off its grammar. The status is
//! 1 also where a word is no UTF-8. What ended the program with a status other than 0 is said in a line on standard
//! error, which names the configuration and its key, the address or the folder, where it lies in one of these.
#![tactic(auto)]

mod script;
mod serve;
mod status;
mod words;

use crate::script::script;
use crate::serve::serve;
use crate::status::tell_early_end;
use crate::words::{status_without_words, words_of};
use kv_base::PathText;
use kv_conf::{Words, read_words};
use std::alloc::Global;
use std::process::ExitCode;
use std::sync::Wait;

/// The path of the configuration that the words of `serve` name.
fn configuration_of(alloc: Global, words: &[String]) -> Option<PathText> {
    match read_words(alloc, words) {
        Ok(Words::Serve(path)) => Some(path),
        Ok(_) | Err(_) => None,
    }
}

/// Runs the program on the words behind its name, and answers its status. `serve` waits for clients, for which it takes the
/// leave: no clause promises that it returns.
pub fn run<W: Wait>(rt: HostRuntime, waits: &W) -> ExitCode {
    let words = match words_of(&rt) {
        Ok(words) => words,
        Err(error) => {
            let status = status_without_words(error.kind());
            tell_early_end(&rt, status);
            return ExitCode::from(status);
        }
    };
    let status = match configuration_of(rt.alloc(), &words) {
        Some(path) => serve(rt, waits, &words, &path),
        None => script(rt, &words),
    };
    ExitCode::from(status)
}
