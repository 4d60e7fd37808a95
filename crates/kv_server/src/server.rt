ghost use Rattle.std.specs.Prelude.{◌≡◌, ◌≢◌, ◌⊎◌, IfSome, IfNone, map, true, false, string_bytes};
ghost use Rattle.kv_outside.specs.Causes.{Rose};
ghost use Rattle.kv_server.specs.Connections.{server_outside, IsServing, IsAttended};
ghost use Rattle.kv_server.specs.ServeWords.{is_serve};

use crate::serve::serve_all;
use kv_conf::{Words, WordsFault, read_words};
use kv_doors::Acceptor;
use kv_outside::{Clock, Files};
use std::alloc::Global;
use std::sync::Wait;

/// The status of words that are not those of `serve`, or that there is no memory to read.
fn refusal(alloc: Global, words: &[String]) -> Option<u8>
    ensures serve { IfNone result (is_serve (map (λ word. string_bytes word) words.now) ≡ true) }
    ensures refused { IfSome result (λ status. ((status ≡ 1) × (is_serve (map (λ word. string_bytes word) words.now) ≡ false)) ⊎ (status ≡ 4)) }
{
    match read_words(alloc, words) {
        Ok(Words::Serve(_)) => None,
        Ok(_) | Err(WordsFault::Usage) => Some(1),
        Err(WordsFault::NoMem) => Some(4),
    }
}

/// `kvr serve`: a session for each client that comes in, one after the other, over the store that the log `wal-1` keeps. A SET
/// is answered when it is on the disk.
///
/// The words are `serve --conf FILE` or `serve --conf=FILE`, by the grammar of command lines. The next client is accepted when
/// the session of the one before is over, however it ended. The status is 0 where accepting has ended and the log was closed, 1
/// for other words, 2 where a call to the files failed at the opening or the closing, 3 where the log is damaged, 4 where there
/// was no memory for the words or the opening, and 9 where accepting failed. All of it is this server's own; what a client is
/// answered is what the Redis command reference says.
///
/// It waits for clients, so no clause promises that it returns.
pub fn top_serve<R: Wait, A: Acceptor, F: Files, C: Clock>(
    rt: &R,
    alloc: Global,
    words: &[String],
    acceptor: &mut A,
    files: &mut F,
    clock: &mut C,
) -> u8
    ensures usage { result ≡ 1 → is_serve (map (λ word. string_bytes word) words.now) ≡ false }
    ensures refused { is_serve (map (λ word. string_bytes word) words.now) ≡ false → (result ≡ 1) ⊎ (result ≡ 4) }
    ensures untouched { is_serve (map (λ word. string_bytes word) words.now) ≡ false
        → (acceptor.new ≡ acceptor.old) × (files.new ≡ files.old) × (clock.new ≡ clock.old) }

    // How it went: the store was not opened, or each client that came in was served to its end, from the keys that the log came
    // to and that the clients before it left.
    ensures run { result ≢ 1 → IsServing result
        (server_outside (F.disk files.old) (F.faults files.old) (C.readings clock.old)
        (A.to_come acceptor.old) (A.faults acceptor.old))
        (server_outside (F.disk files.new) (F.faults files.new) (C.readings clock.new)
        (A.to_come acceptor.new) (A.faults acceptor.new)) }

    // With status 0 no client is left to come, and with 9 accepting failed; the store was open, and all that came were served.
    ensures attended { (result ≡ 0) ⊎ (result ≡ 9) → IsAttended result
        (server_outside (F.disk files.old) (F.faults files.old) (C.readings clock.old)
        (A.to_come acceptor.old) (A.faults acceptor.old))
        (server_outside (F.disk files.new) (F.faults files.new) (C.readings clock.new)
        (A.to_come acceptor.new) (A.faults acceptor.new)) }
    ensures files_fault { result ≡ 2 → Rose (F.faults files.old) (F.faults files.new) }
    ensures door_fault { result ≡ 9 → Rose (A.faults acceptor.old) (A.faults acceptor.new) }
{
    if let Some(status) = refusal(alloc, words) {
        return status;
    }
    serve_all(rt, alloc, acceptor, files, clock)
}
