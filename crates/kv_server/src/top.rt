ghost use Rattle.std.specs.Prelude.{◌≡◌, ◌≢◌, ◌⊎◌, IfSome, IfNone, map, true, false, string_bytes};
ghost use Rattle.kv_outside.specs.Causes.{Rose};
ghost use Rattle.kv_server.specs.Outside.{outside};
ghost use Rattle.kv_server.specs.Script.{is_script, IsRun, IsGood, IsFaultTold, IsFront, IsDamageTold, IsWhole, Opened};

use crate::run::run;
use kv_conf::{Words, WordsFault, read_words};
use kv_outside::{Clock, Files, Sink, Source};
use std::alloc::Global;

/// The status of words that are not those of `script`, or that there is no memory to read.
fn refusal(alloc: Global, words: &[String]) -> Option<u8>
    ensures script { IfNone result (is_script (map (λ word. string_bytes word) words.now) ≡ true) }
    ensures refused { IfSome result (λ status. ((status ≡ 1) × (is_script (map (λ word. string_bytes word) words.now) ≡ false)) ⊎ (status ≡ 4)) }
{
    match read_words(alloc, words) {
        Ok(Words::Script(_)) => None,
        Ok(_) | Err(WordsFault::Usage) => Some(1),
        Err(WordsFault::NoMem) => Some(4),
    }
}

/// `kvr script`: one session from the source to the sink, over the store that the log `wal-1` keeps. A SET is answered
/// when it is on the disk.
///
/// The words are `script --dir D` or `script --dir=D`, by the grammar of command lines. The status is 0 where the client
/// quit or the input was read to its end between requests, 1 for other words, 2 where a call to the files failed at the
/// opening or the closing, 3 where the log is damaged, which a line tells with the file and the place, 4 where there was
/// no memory for the words, the store or a request, 5 and 6 where the source or the sink failed, 7 where the input is
/// off the wire's grammar or ends inside a request, which a line tells with the place, and 8 where 2^40 bytes were
/// taken. Nothing behind a `QUIT` is answered. Commands are answered as the Redis command reference says; the order of
/// refusals and the statuses are this server's own.
pub fn top_script<S: Source, K: Sink, F: Files, C: Clock>(
    alloc: Global,
    words: &[String],
    source: &mut S,
    sink: &mut K,
    files: &mut F,
    clock: &mut C,
) -> u8
    ensures usage { result ≡ 1 → is_script (map (λ word. string_bytes word) words.now) ≡ false }
    ensures refused { is_script (map (λ word. string_bytes word) words.now) ≡ false → (result ≡ 1) ⊎ (result ≡ 4) }
    ensures untouched { is_script (map (λ word. string_bytes word) words.now) ≡ false
        → (source.new ≡ source.old) × (sink.new ≡ sink.old)
        × (files.new ≡ files.old) × (clock.new ≡ clock.old) }

    // How it went: the store was not opened, or a session was served from the keys that the log came to.
    ensures run { result ≢ 1 → IsRun result
        (outside (F.disk files.old) (F.faults files.old) (C.readings clock.old)
        (S.left source.old) (S.ended source.old) (S.faults source.old)
        (K.held sink.old) (K.faults sink.old))
        (outside (F.disk files.new) (F.faults files.new) (C.readings clock.new)
        (S.left source.new) (S.ended source.new) (S.faults source.new)
        (K.held sink.new) (K.faults sink.new)) }

    // With status 0 the answers to all requests of a told input, or to those up to the first QUIT, were written and
    // nothing else, from the keys that the log came to, and the log comes to the keys at the end, whatever crash comes
    // afterwards. An answer is a fault only where a call to the files failed in it, where its command touches a key and
    // no sequence is left, where the batch that carries it out is longer than a record, or for want of memory.
    ensures good { result ≡ 0 → Opened (F.disk files.old) (F.faults files.old)
        (IsGood (F.disk files.new) (F.faults files.new)
        (S.left source.old) (C.readings clock.old) (K.held sink.old) (K.held sink.new)) }
    // With status 7 a told input is off the grammar, or ends inside a request, without a QUIT before. The answers to all
    // requests before were written, and behind them `-ERR Protocol error: KIND at PLACE`, as the grammar tells it.
    ensures protocol { result ≡ 7 → Opened (F.disk files.old) (F.faults files.old)
        (IsFaultTold (F.disk files.new) (F.faults files.new)
        (S.left source.old) (C.readings clock.old) (K.held sink.old) (K.held sink.new)) }
    // With status 6 the sink has a front of such answers, and of such a line.
    ensures front { result ≡ 6 → Opened (F.disk files.old) (F.faults files.old)
        (IsFront (F.disk files.new) (F.faults files.new)
        (S.left source.old) (C.readings clock.old) (K.held sink.old) (K.held sink.new)) }
    ensures damaged { result ≡ 3 → IsDamageTold (F.disk files.old)
        (K.held sink.old) (K.held sink.new) (K.faults sink.old) (K.faults sink.new) }

    // An input that ends between requests, or holds a QUIT, is answered, unless a call failed, the log is damaged or memory ran out.
    ensures whole { (result ≢ 1) → IsWhole (S.left source.old)
        → ¬ Rose (F.faults files.old) (F.faults files.new)
        → ¬ Rose (S.faults source.old) (S.faults source.new)
        → ¬ Rose (K.faults sink.old) (K.faults sink.new)
        → (result ≡ 0) ⊎ ((result ≡ 3) ⊎ (result ≡ 4)) }
    ensures files_fault { result ≡ 2 → Rose (F.faults files.old) (F.faults files.new) }
    ensures input_fault { result ≡ 5 → Rose (S.faults source.old) (S.faults source.new) }
    ensures output_fault { result ≡ 6 → Rose (K.faults sink.old) (K.faults sink.new) }
{
    if let Some(status) = refusal(alloc, words) {
        return status;
    }
    run(alloc, source, sink, files, clock)
}
