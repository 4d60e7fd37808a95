//! One run: the store is opened, a session is served, and the store is closed.

ghost use Rattle.std.specs.Prelude.{◌≡◌, ◌≤◌, ◌⊎◌, List};
ghost use Rattle.redis_model.specs.declared.command.Cmds.{Cmds};
ghost use Rattle.session.specs.Session.{IsCaused};
ghost use Rattle.log_store.specs.Keeping.{IsKept, Keeps, KeepsOrMore};
ghost use Rattle.kv_server.specs.Outside.{outside};
ghost use Rattle.kv_server.specs.Script.{status, opening_status, unclosed_status, EndsWith, TellsFault, IsSession, IsRun};

use crate::desk::LogDesk;
use crate::store::Store;
use kv_base::StoreFault;
use kv_outside::{Clock, Files, Sink, Source};
use log_store::LogStore;
use session::{Outcome, serve_session, write_damaged};
use std::alloc::Global;

/// The status where the store was not opened. Damage is told in a line.
fn refuse<K: Sink>(fault: StoreFault, sink: &mut K) -> u8
    ensures status { result ≡ opening_status fault }
    ensures wrote { TellsFault fault (K.held sink.old) (K.held sink.new) (K.faults sink.old) (K.faults sink.new) }
{
    match fault {
        StoreFault::Failed => 2,
        StoreFault::Damaged { file, place } => {
            let _ = write_damaged(file, place, sink);
            3
        }
        StoreFault::NoMem => 4,
    }
}

/// One session from the source to the sink, over an open store.
pub(crate) fn serve<'a, S: Source, K: Sink, P: Store<F>, F: Files, C: Clock>(
    alloc: Global,
    kept: &'a mut P,
    source: &mut S,
    sink: &mut K,
    files: &'a mut F,
    clock: &'a mut C,
) -> Outcome
    ensures session { (before : List Cmds) → IsKept (F.disk files.old) (P.kept kept.old) before
        → IsSession before result (P.kept kept.old) (P.kept kept.new)
        (outside (F.disk files.old) (F.faults files.old) (C.readings clock.old)
        (S.left source.old) (S.ended source.old) (S.faults source.old)
        (K.held sink.old) (K.faults sink.old))
        (outside (F.disk files.new) (F.faults files.new) (C.readings clock.new)
        (S.left source.new) (S.ended source.new) (S.faults source.new)
        (K.held sink.new) (K.faults sink.new)) }
    ensures caused { IsCaused result
        (S.faults source.old) (S.faults source.new) (K.faults sink.old) (K.faults sink.new) }
    ensures later { F.faults files.old ≤ F.faults files.new }
{
    let mut desk = LogDesk::new(alloc, kept, files, clock);
    serve_session(alloc, &mut desk, source, sink)
}

fn status_of(outcome: Outcome) -> u8
    ensures { result ≡ status outcome }
{
    match outcome {
        Outcome::Closed => 0,
        Outcome::NoMem => 4,
        Outcome::ReadFault => 5,
        Outcome::WriteFault => 6,
        Outcome::Protocol => 7,
        Outcome::Spent => 8,
    }
}

/// The status where the log could not be closed.
fn status_unclosed(outcome: Outcome) -> u8
    ensures { result ≡ unclosed_status outcome }
{
    match outcome {
        Outcome::Closed => 2,
        other => status_of(other),
    }
}

/// Closes the store behind a session.
pub(crate) fn finish<F: Files>(store: &mut LogStore<F>, files: &mut F, outcome: Outcome) -> u8
    ensures ends { EndsWith outcome result (F.faults files.old) (F.faults files.new) }
    ensures later { F.faults files.old ≤ F.faults files.new }
    ensures kept { result ≡ 0 → (failed : List Cmds) → IsKept (F.disk files.old) store.old failed
        → Keeps (F.disk files.new) store.old }
    ensures kept_or_more { (failed : List Cmds) → IsKept (F.disk files.old) store.old failed
        → Keeps (F.disk files.new) store.old ⊎ KeepsOrMore (F.disk files.new) store.old failed }
{
    match store.close(files) {
        Ok(()) => status_of(outcome),
        Err(_) => status_unclosed(outcome),
    }
}

/// Opens the store, serves one session and closes it again.
pub(crate) fn run<S: Source, K: Sink, F: Files, C: Clock>(
    alloc: Global,
    source: &mut S,
    sink: &mut K,
    files: &mut F,
    clock: &mut C,
) -> u8
    ensures { IsRun result
        (outside (F.disk files.old) (F.faults files.old) (C.readings clock.old)
        (S.left source.old) (S.ended source.old) (S.faults source.old)
        (K.held sink.old) (K.faults sink.old))
        (outside (F.disk files.new) (F.faults files.new) (C.readings clock.new)
        (S.left source.new) (S.ended source.new) (S.faults source.new)
        (K.held sink.new) (K.faults sink.new)) }
{
    let mut store = match LogStore::open(alloc, files) {
        Ok(store) => store,
        Err(fault) => return refuse(fault, sink),
    };
    let outcome = serve(alloc, &mut store, source, sink, files, clock);
    finish(&mut store, files, outcome)
}
