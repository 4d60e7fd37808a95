ghost use Rattle.std.specs.Prelude.{◌≡◌, ◌⊎◌, ◌≤◌, ◌<◌, ◌+◌, ◌^◌, ◌∷◌, ◌++◌, ℕ, List, [], IfOk, IfErr, OnErr, OnOk, IsTrue, false, if◌then◌else◌, ◌==◌, min, max};
ghost use Rattle.kv_base.specs.Map.{Bytes, size};
ghost use Rattle.kv_outside.specs.Causes.{HasCause};
ghost use Rattle.kv_outside.specs.Disk.{Touches};
ghost use Rattle.gated_log.specs.Gated as gated;
ghost use Rattle.gated_log.specs.States.{Rests, IsLeft};
ghost use Rattle.redis_model.specs.declared.command.Cmds.{Cmds};
ghost use Rattle.redis_model.specs.Desk.{failed_with, last_sequence, longest_body};
ghost use Rattle.redis_model.specs.Machine.{State};
ghost use Rattle.batch_codec.specs.Batches.{after, are_rows};
ghost use Rattle.row_model.specs.Rows.{are_upto, at};
ghost use Rattle.lives_model.specs.Plans.{AreAsked};
ghost use Rattle.log_store.specs.Keeping.{log_file, state_of, ComesToEither, IsKept, StandsFor};
ghost use Rattle.log_store.specs.Planned.{IsBatchOf, IsPlannedNext};
ghost use Rattle.log_store.specs.Playing.{batches, planned_for, IsBeforeOrAfter, IsBodyOfPlan, IsSized, IsUnchanged, IsWrite, PlayFails, Plays};

use crate::store::LogStore;
use crate::view::TableView;
use batch_codec::{Batch, encode_record};
use kv_base::NoMem;
use kv_outside::{Failed, Files};
use lives_model::{Plan, Planner};
use mem_table::MemTable;
use record_body::RecordBody;
use redis_model::{Cmds, DeskFault, MAX_READING, Reply};
use std::alloc::Global;
use wal_log::Segment;

/// The greatest sequence of a batch.
const LAST_SEQUENCE: u64 = (1 << 42) - 2;

/// The most bytes that a body of a record has.
const LONGEST_BODY: u64 = (1 << 32) - 1;

/// A batch that only has to be written: the rows after it, and the body of its record.
#[derive(Drop)]
struct Prepared {
    table: MemTable,
    body: RecordBody,
}

/// How many bytes the body of a batch has, or 2^64 - 1 where it has more: 0 where there is nothing to write.
fn bytes_of(batch: &Batch) -> u64
    ensures planned { result ≡ planned_for batch.now }
    ensures grammar { IsTrue (are_rows batch.now.entries) }
{
    if batch.len() == 0 {
        return 0;
    }
    batch.body_len().min(u64::MAX as u128) as u64
}

/// Adds a record to a log, which is mended first where that is due.
fn append<F: Files>(log: &mut Segment<F>, files: &mut F, body: &RecordBody) -> Result<(), Failed>
    ensures added { OnOk result ((bodies : List Bytes) (tried : Bytes) → IsLeft log.old.unsure (F.disk files.old) log.old bodies tried
        → Rests (F.disk files.new) log.new (bodies ++ body.now ∷ [])) }
    ensures sure { OnOk result (log.new.unsure ≡ false) }
    ensures left { OnErr result ((bodies : List Bytes) (tried : Bytes) → IsLeft log.old.unsure (F.disk files.old) log.old bodies tried
        → IsLeft log.new.unsure (F.disk files.new) log.new bodies tried ⊎ IsLeft log.new.unsure (F.disk files.new) log.new bodies body.now) }
    ensures any_moment { log.old.unsure ≡ false → (bodies : List Bytes) → Rests (F.disk files.old) log.old bodies
        → Touches log.old.name (F.disk files.old) (F.disk files.new) (gated.HasRecordsOrOneMore bodies body.now) }
    ensures name { log.new.name ≡ log.old.name }
    ensures cause { HasCause (F.faults files.old) (F.faults files.new) result }
{
    log.mend(files)?;
    log.append(files, body)
}

impl<F: Files> LogStore<F> {
    /// The moment of a call with this reading of the clock, in milliseconds: no earlier than the one before it.
    fn moment_at(&self, now: u64) -> u64
        ensures moment { result ≡ max self.now.floor (min now (2 ^ 61)) }
        ensures later { self.now.floor ≤ result }
        ensures early { result ≤ 2 ^ 61 }
    {
        self.floor.max(now.min(MAX_READING))
    }

    /// The plan of commands on the rows. The view is one of memory, so want of memory is its only fault.
    #[tactic(auto, using(lives_model::specs::ViewLaws::reading, crate::specs::PlannedLaws::planned_next))]
    fn plan<P: Planner>(
        &self,
        alloc: Global,
        planner: &P,
        moment: u64,
        commands: &Cmds,
    ) -> Result<Plan, NoMem>
        requires asked { AreAsked commands.now }
        requires plans { P.plans commands.now }
        ensures { IfOk result (λ plan. IsPlannedNext self.now.rows moment self.now.sequence commands.now plan.batch plan.reply plan.until) }
    {
        let mut view = TableView {
            table: &self.table,
            sequence: self.sequence,
        };
        match planner.plan(alloc, &mut view, moment, self.sequence, commands) {
            Ok(plan) => Ok(plan),
            Err(_) => Err(NoMem),
        }
    }

    /// Takes all the memory that the writing of a batch needs.
    fn prepare(&self, alloc: Global, batch: &Batch, moment: u64) -> Result<Prepared, DeskFault>
        requires planned { self.now.planned ≡ planned_for batch.now }
        requires some { 0 < self.now.planned }
        requires grammar { IsTrue (are_rows batch.now.entries) }
        requires later { self.now.floor ≤ moment }
        requires early { moment ≤ 2 ^ 61 }
        ensures rows { IfOk result (λ p. at p.table (self.now.sequence + 1) ≡ after self.now.rows batch.now) }
        ensures last { IfOk result (λ p. IsTrue (are_upto (self.now.sequence + 1) p.table)) }
        ensures write { IfOk result (λ p. IsWrite self.now.sequence self.now.floor batch.now moment p.body) }
        ensures fits { OnOk result (self.now.planned ≤ longest_body) }
        ensures fault { IfErr result (λ e. (before now : ℕ) → PlayFails before now self.now.sequence self.now.planned e) }
    {
        if self.sequence == LAST_SEQUENCE {
            return Err(DeskFault::SeqFull);
        }
        if self.planned > LONGEST_BODY {
            return Err(DeskFault::TooBig);
        }
        let sequence = self.sequence + 1;
        let table = self.table.with(alloc, batch, sequence)?;
        let body = encode_record(alloc, batch, sequence, moment)?;
        Ok(Prepared { table, body })
    }

    /// Takes a batch in at a moment: its record is in the log, and on the disk, before the rows are. All memory is taken
    /// before the first call to the files. An empty batch is not written.
    pub(crate) fn commit(
        &mut self,
        alloc: Global,
        files: &mut F,
        batch: &Batch,
        moment: u64,
    ) -> Result<(), DeskFault>
        requires later { self.old.floor ≤ moment }
        requires early { moment ≤ 2 ^ 61 }
        ensures rows { OnOk result (self.new.rows ≡ after self.old.rows batch.now) }
        ensures floor { OnOk result (self.new.floor ≡ moment) }
        ensures written { OnOk result (self.new.written ≡ (if self.new.planned == 0 then self.old.written else self.new.floor)) }
        ensures sequence { OnOk result (self.new.sequence ≡ self.old.sequence + batches self.new.planned) }
        ensures planned { self.new.planned ≡ planned_for batch.now }
        ensures fits { OnOk result (self.new.planned ≤ longest_body) }
        ensures room { OnOk result (0 < self.new.planned → self.old.sequence < last_sequence) }
        ensures quiet { self.new.planned ≡ 0 → files.new ≡ files.old }
        ensures unchanged { OnErr result (IsUnchanged self.old self.new) }
        ensures fault { IfErr result (λ e. PlayFails (F.faults files.old) (F.faults files.new) self.old.sequence self.new.planned e) }
        ensures later { F.faults files.old ≤ F.faults files.new }
        ensures kept { (commands : Cmds) (failed : List Cmds) → IsBatchOf self.old.rows moment self.old.sequence commands batch.now
            → IsKept (F.disk files.old) self.old failed → IsKept (F.disk files.new) self.new (failed_with commands result failed) }
        ensures any_moment { self.old.log.unsure ≡ false → (failed : List Cmds) → IsKept (F.disk files.old) self.old failed
            → Touches log_file (F.disk files.old) (F.disk files.new) (ComesToEither (state_of self.old) batch.now moment) }
    {
        self.planned = bytes_of(batch);
        if self.planned == 0 {
            self.floor = moment;
            return Ok(());
        }
        let Prepared { table, body } = self.prepare(alloc, batch, moment)?;
        append(&mut self.log, files, &body)?;
        self.table = table;
        self.sequence += 1;
        self.floor = moment;
        self.written = moment;
        Ok(())
    }

    /// Carries out one command, or several, one after the other, at a reading of the clock in milliseconds. Where rows
    /// change, their batch is on the disk before the answer; where none do, no call is made to the files.
    ///
    /// After a fault the rows are as before. `IoError`: a call to the files failed, and a crash may leave the batch in the
    /// log or not, until the next one is added or the store is closed. `SeqFull`: something was to be written, and no
    /// sequence is left. `TooBig`: the batch is longer than a record can be. `NoMem`: want of memory.
    pub fn play<P: Planner>(
        &mut self,
        alloc: Global,
        files: &mut F,
        planner: &P,
        now: u64,
        commands: &Cmds,
    ) -> Result<Reply, DeskFault>
        requires asked { AreAsked commands.now }
        requires plans { P.plans commands.now }
        ensures ok { IfOk result (λ reply. Plays self.old self.new now commands.now reply) }
        ensures floor { OnOk result (self.new.floor ≡ max self.old.floor (min now (2 ^ 61))) }
        ensures written { OnOk result (self.new.written ≡ (if self.new.planned == 0 then self.old.written else self.new.floor)) }
        ensures sequence { OnOk result (self.new.sequence ≡ self.old.sequence + batches self.new.planned) }
        ensures fits { OnOk result (self.new.planned ≤ longest_body) }
        ensures room { OnOk result (0 < self.new.planned → self.old.sequence < last_sequence) }
        ensures body { OnOk result ((s : State) → StandsFor self.old s → IsBodyOfPlan self.old now s commands.now self.new.planned) }
        ensures sized { OnErr result ((s : State) → StandsFor self.old s → IsSized self.old now s commands.now self.new.planned) }
        ensures quiet { self.new.planned ≡ 0 → files.new ≡ files.old }
        ensures unchanged { OnErr result (IsUnchanged self.old self.new) }
        ensures fault { IfErr result (λ e. PlayFails (F.faults files.old) (F.faults files.new) self.old.sequence self.new.planned e) }
        ensures later { F.faults files.old ≤ F.faults files.new }
        ensures kept { (failed : List Cmds) → IsKept (F.disk files.old) self.old failed
            → IsKept (F.disk files.new) self.new (failed_with commands.now result failed) }

        // A crash at any moment leaves the keys before the call, or those after it.
        ensures any_moment { self.old.log.unsure ≡ false → (failed : List Cmds) → IsKept (F.disk files.old) self.old failed → (s : State) → StandsFor self.old s
            → Touches log_file (F.disk files.old) (F.disk files.new) (IsBeforeOrAfter s now commands.now) }
    {
        self.planned = 0;
        let moment = self.moment_at(now);
        let plan = self.plan(alloc, planner, moment, commands)?;
        self.commit(alloc, files, &plan.batch, moment)?;
        Ok(plan.reply)
    }
}
