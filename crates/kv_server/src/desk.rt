ghost use Rattle.std.specs.Prelude.{◌≡◌, ◌≤◌};
ghost use Rattle.redis_model.specs.Desk.{last_sequence};

use crate::store::Store;
use kv_outside::{Clock, Files};
use redis_model::{Cmds, Command, Desk, DeskFault, Reply, fault_in};
use std::alloc::Global;

/// The desk of the only caller of a store that is kept by a log. It borrows all that it works on, so that what it leaves
/// is known when it is given up.
#[derive(Drop)]
pub struct LogDesk<'a, P: Store<F>, F: Files, C: Clock> {
    alloc: Global,
    kept: &'a mut P,
    files: &'a mut F,
    clock: &'a mut C,
    last: Option<u64>,
    /// Why the last call has no reply.
    fault: Option<DeskFault>,
    /// The last sequence that the last call met.
    sequence: u64,
    /// How many bytes the body has that the last call planned to write.
    body: u64,
}

impl<'a, P: Store<F>, F: Files, C: Clock> LogDesk<'a, P, F, C> {
    /// The desk of a store and the files that keep it, at a clock.
    pub fn new(
        alloc: Global,
        kept: &'a mut P,
        files: &'a mut F,
        clock: &'a mut C,
    ) -> LogDesk<'a, P, F, C>
        ensures kept { result.kept.now ≡ kept.old }
        ensures same_kept { result.kept.ghost_name ≡ kept.entry.ghost_name }
        ensures files { result.files.now ≡ files.old }
        ensures same_files { result.files.ghost_name ≡ files.entry.ghost_name }
        ensures clock { result.clock.now ≡ clock.old }
        ensures same_clock { result.clock.ghost_name ≡ clock.entry.ghost_name }
        ensures sequence { result.sequence ≡ (P.kept kept.old).sequence }
        ensures limit { result.sequence ≤ last_sequence }
        ensures body { result.body ≡ 0 }
    {
        let sequence = kept.last_sequence();
        LogDesk {
            alloc,
            kept,
            files,
            clock,
            last: None,
            fault: None,
            sequence,
            body: 0,
        }
    }
}

impl<'a, P: Store<F>, F: Files, C: Clock> Desk for LogDesk<'a, P, F, C> {
    ghost use Rattle.std.specs.Prelude.{[], ◌∷◌, ◌≡◌, List, IsTrue, Some, false};
    ghost use Rattle.kv_outside.specs.Disk.{Touches};
    ghost use Rattle.redis_model.specs.Asks as ask;
    ghost use Rattle.redis_model.specs.Desk.{TakesCall};
    ghost use Rattle.redis_model.specs.Limits.{IsWithin, IsDue};
    ghost use Rattle.redis_model.specs.Machine.{State};
    ghost use Rattle.redis_model.specs.declared.command.Cmds.{Cmds};
    ghost use Rattle.redis_model.specs.declared.command.Cmds.TheVariants.{One};
    ghost use Rattle.log_store.specs.Keeping.{IsKept, StandsFor, log_file};
    ghost use Rattle.log_store.specs.Playing.{IsBeforeOrAfter};
    ghost use Rattle.kv_server.specs.AloneLaws.{knows_alone};
    ghost use Rattle.kv_server.specs.Standing.{parts, told_of};

    ghost told = { λ d. told_of (parts (P.kept d.kept.now) (F.disk d.files.now) (F.faults d.files.now)
        (C.readings d.clock.now) d.last d.fault d.sequence d.body) };

    ghost loans = { λ d. d.kept.ghost_name ∷ d.files.ghost_name ∷ d.clock.ghost_name ∷ [] };

    ghost knows = { λ d opening seen stands. knows_alone opening.state seen stands.alone };

    fn now(&mut self) -> u64 {
        let now = self.clock.now();
        self.last = Some(now);
        now
    }

    fn call(&mut self, now: u64, command: Command) -> Result<Reply, DeskFault>
        requires reading { self.old.last ≡ Some now }
        requires within { IsWithin command }
        requires due { IsDue command }
        ensures call { TakesCall
            (told_of (parts (P.kept self.old.kept.now) (F.disk self.old.files.now)
            (F.faults self.old.files.now) (C.readings self.old.clock.now)
            self.old.last self.old.fault self.old.sequence self.old.body))
            (told_of (parts (P.kept self.new.kept.now) (F.disk self.new.files.now)
            (F.faults self.new.files.now) (C.readings self.new.clock.now)
            self.new.last self.new.fault self.new.sequence self.new.body))
            now (ask.Call command) result }
        ensures loans { self.new.kept.ghost_name ∷ self.new.files.ghost_name ∷ self.new.clock.ghost_name ∷ []
            ≡ self.old.kept.ghost_name ∷ self.old.files.ghost_name ∷ self.old.clock.ghost_name ∷ [] }
        // A crash at any moment leaves the keys before the call, or those after it.
        ensures any_moment { (P.kept self.old.kept.now).log.unsure ≡ false
            → (failed : List Cmds) → IsKept (F.disk self.old.files.now) (P.kept self.old.kept.now) failed
            → (s : State) → StandsFor (P.kept self.old.kept.now) s
            → Touches log_file (F.disk self.old.files.now) (F.disk self.new.files.now) (IsBeforeOrAfter s now (One command)) }
    {
        self.sequence = self.kept.last_sequence();
        let commands = Cmds::One(command);
        let answer = self.kept.execute(self.alloc, self.files, now, &commands);
        drop(commands);
        self.body = self.kept.planned();
        self.fault = fault_in(&answer);
        answer
    }
}
