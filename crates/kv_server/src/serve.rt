//! One server: the store is opened, clients are served one after the other, and the store is closed.

ghost use Rattle.std.specs.Prelude.{◌≡◌, ◌≤◌, []};
ghost use Rattle.kv_outside.specs.Causes.{HasCause};
ghost use Rattle.log_store.specs.Keeping.{IsKept};
ghost use Rattle.kv_server.specs.Connections.{server_outside, IsServing};
ghost use Rattle.kv_server.specs.Attending.{AttendsFrom};
ghost use Rattle.kv_server.specs.Script.{opening_status};

use crate::run::{finish, serve};
use crate::store::Store;
use kv_base::StoreFault;
use kv_doors::Acceptor;
use kv_outside::{Clock, Failed, Files};
use log_store::LogStore;
use session::Outcome;
use std::alloc::Global;
use std::sync::Wait;

/// Accepts links, and serves each to its end before it accepts the next one, until accepting has ended or failed.
fn attend<R: Wait, A: Acceptor, P: Store<F>, F: Files, C: Clock>(
    rt: &R,
    alloc: Global,
    kept: &mut P,
    acceptor: &mut A,
    files: &mut F,
    clock: &mut C,
) -> Result<(), Failed>
    requires kept { IsKept (F.disk files.old) (P.kept kept.old) [] }
    ensures attended { AttendsFrom (P.kept kept.old) (P.kept kept.new)
        (server_outside (F.disk files.old) (F.faults files.old) (C.readings clock.old)
        (A.to_come acceptor.old) (A.faults acceptor.old))
        (server_outside (F.disk files.new) (F.faults files.new) (C.readings clock.new)
        (A.to_come acceptor.new) (A.faults acceptor.new)) result }
{
    for _ in rt.forever() {
        match acceptor.accept()? {
            None => return Ok(()),
            Some((mut source, mut sink)) => {
                // (how a client's session ended is that client's matter)
                let _ = serve(alloc, kept, &mut source, &mut sink, files, clock);
            }
        }
    }
    unreachable!()
}

/// The status where the store was not opened.
fn unopened(fault: StoreFault) -> u8
    ensures { result ≡ opening_status fault }
{
    match fault {
        StoreFault::Failed => 2,
        StoreFault::Damaged { .. } => 3,
        StoreFault::NoMem => 4,
    }
}

/// Opens the store, serves the clients that come in, one after the other, and closes it again.
pub(crate) fn serve_all<R: Wait, A: Acceptor, F: Files, C: Clock>(
    rt: &R,
    alloc: Global,
    acceptor: &mut A,
    files: &mut F,
    clock: &mut C,
) -> u8
    ensures { IsServing result
        (server_outside (F.disk files.old) (F.faults files.old) (C.readings clock.old)
        (A.to_come acceptor.old) (A.faults acceptor.old))
        (server_outside (F.disk files.new) (F.faults files.new) (C.readings clock.new)
        (A.to_come acceptor.new) (A.faults acceptor.new)) }
{
    let mut store = match LogStore::open(alloc, files) {
        Ok(store) => store,
        Err(fault) => return unopened(fault),
    };
    let accepted = attend(rt, alloc, &mut store, acceptor, files, clock);
    let closed = finish(&mut store, files, Outcome::Closed);
    match accepted {
        Ok(()) => closed,
        Err(Failed) => 9,
    }
}
