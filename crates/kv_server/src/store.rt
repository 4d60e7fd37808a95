ghost use Rattle.std.specs.Prelude.{◌≡◌, ◌≤◌, ◌<◌, ◌+◌, List, IfOk, IfErr, OnErr, OnOk, false};
ghost use Rattle.kv_outside.specs.Disk.{Touches};
ghost use Rattle.redis_model.specs.declared.command.Cmds.{Cmds};
ghost use Rattle.redis_model.specs.Desk.{failed_with, last_sequence, longest_body};
ghost use Rattle.redis_model.specs.Machine.{State};
ghost use Rattle.lives_model.specs.Plans.{AreAsked};
ghost use Rattle.log_store.specs.Keeping.{KeptState, IsKept, StandsFor, log_file};
ghost use Rattle.log_store.specs.Playing.{batches, IsBeforeOrAfter, IsBodyOfPlan, IsSized, IsUnchanged, PlayFails, Plays};

use kv_outside::Files;
use log_store::LogStore;
use multi_exec::Redis;
use redis_model::{Cmds, DeskFault, Reply};
use std::alloc::Global;

/// What a desk asks of a store that files keep.
pub trait Store<F: Files> {
    /// What contracts see of the store.
    ghost kept: { Self → KeptState };

    /// The sequence of the last batch.
    fn last_sequence(&self) -> u64
        ensures sequence { result ≡ (kept self.now).sequence }
        ensures limit { result ≤ last_sequence };

    /// How many bytes the body has that the last call planned to write: 0 where there was nothing to write.
    fn planned(&self) -> u64
        ensures { result ≡ (kept self.now).planned };

    /// Carries out a command at a reading of the clock. After a fault the rows are as they were.
    fn execute(
        &mut self,
        alloc: Global,
        files: &mut F,
        now: u64,
        commands: &Cmds,
    ) -> Result<Reply, DeskFault>
        requires asked { AreAsked commands.now }
        ensures ok { IfOk result (λ reply. Plays (kept self.old) (kept self.new) now commands.now reply) }
        ensures sequence { OnOk result ((kept self.new).sequence ≡ (kept self.old).sequence + batches (kept self.new).planned) }
        ensures fits { OnOk result ((kept self.new).planned ≤ longest_body) }
        ensures room { OnOk result (0 < (kept self.new).planned → (kept self.old).sequence < last_sequence) }
        ensures body { OnOk result ((s : State) → StandsFor (kept self.old) s → IsBodyOfPlan (kept self.old) now s commands.now (kept self.new).planned) }
        ensures sized { OnErr result ((s : State) → StandsFor (kept self.old) s → IsSized (kept self.old) now s commands.now (kept self.new).planned) }
        ensures unchanged { OnErr result (IsUnchanged (kept self.old) (kept self.new)) }
        ensures fault { IfErr result (λ e. PlayFails (F.faults files.old) (F.faults files.new) (kept self.old).sequence (kept self.new).planned e) }
        ensures later { F.faults files.old ≤ F.faults files.new }
        ensures kept { (failed : List Cmds) → IsKept (F.disk files.old) (kept self.old) failed
            → IsKept (F.disk files.new) (kept self.new) (failed_with commands.now result failed) }

        // A crash at any moment leaves the keys before the call, or those after it.
        ensures any_moment { (kept self.old).log.unsure ≡ false → (failed : List Cmds) → IsKept (F.disk files.old) (kept self.old) failed → (s : State) → StandsFor (kept self.old) s
            → Touches log_file (F.disk files.old) (F.disk files.new) (IsBeforeOrAfter s now commands.now) };
}

impl<F: Files> Store<F> for LogStore<F> {
    ghost kept = { λ store. store };

    fn last_sequence(&self) -> u64 {
        self.sequence()
    }

    fn planned(&self) -> u64 {
        LogStore::planned(self)
    }

    fn execute(
        &mut self,
        alloc: Global,
        files: &mut F,
        now: u64,
        commands: &Cmds,
    ) -> Result<Reply, DeskFault> {
        self.play(alloc, files, &Redis, now, commands)
    }
}
