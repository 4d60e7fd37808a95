ghost use Rattle.std.specs.Prelude.{◌≡◌, ◌++◌, ◌∷◌, [], ℕ, List, Some};
ghost use Rattle.batch_codec.specs.Batches.{Batch};
ghost use Rattle.redis_model.specs.declared.command.Command.{Command};
ghost use Rattle.redis_model.specs.declared.command.Cmds.{Cmds};
ghost use Rattle.redis_model.specs.declared.history.Step.TheVariants.{Call, PinNow, PinnedRead, PinnedRefused, Unpin};
ghost use Rattle.redis_model.specs.declared.history.JobKind.TheVariants as kind;
ghost use Rattle.redis_model.specs.declared.history.JobMark.TheVariants.{Begun, Done, Dropped, Idle, Met};
ghost use Rattle.redis_model.specs.declared.reply.Reply.{Reply};
ghost use Rattle.redis_model.specs.Machine.{step};
ghost use Rattle.core_model.specs.Sources.{Table, together};
ghost use Rattle.redis_model.specs.declared.history.Place.{Place};
ghost use Rattle.redis_model.specs.declared.history.ReadView.{ReadView};
ghost use Rattle.redis_model.specs.declared.history.Note.{Note};
ghost use Rattle.redis_model.specs.declared.history.Note.TheVariants.{Began};
ghost use Rattle.redis_model.specs.declared.history.JobAsked.{JobAsked};
ghost use Rattle.redis_model.specs.declared.history.Task.{Task};
ghost use Rattle.redis_model.specs.Places.{state_at, Opening};
ghost use Rattle.core_model.specs.Core.{CoreState, Compaction, inputs_of, compact_task};
ghost use Rattle.core_model.specs.Stands.{Stands};
ghost use Rattle.core_model.specs.Events.{Glances, Reads, Work, Commits, Reruns, PlaysCommands, Pins, Unpins, LooksPinned, RefusesPinned, Freezes, InstallsFlush, DropsFlush, Filter, BeginsCompact, InstallsCompact, DropsCompact, FindsNoFlush, MeetsFlush, FindsNoCompact, MeetsCompact, FailsCall, tick, bare_place, entry_with, batch_place, mark};

/// A glance makes a tick. What it saw means the machine's keys right after that.
pub fn glances_are_right()
    ensures { (opening : Opening) (core new : CoreState) (seen : List Place) (now caller : ℕ) (view : ReadView) →
        Stands opening core seen → Glances core new now view → Stands opening new (seen ++ tick now caller view ∷ []) }
{}

/// A reading command is answered as the machine answers it.
pub fn readings_are_right()
    ensures { (opening : Opening) (core new : CoreState) (seen : List Place) (now caller : ℕ) (c : Command) (answer : Reply) →
        Stands opening core seen → Reads core new now caller c answer →
        Stands opening new (seen ++ bare_place (Call now caller c) ∷ []) × ((step (state_at opening.state seen) (Call now caller c)).0 ≡ Some answer) }
{}

/// A plan on what was seen earlier is right at the moment of its commit, where it has not lapsed and the stripes of its keys
/// have no more batches: the machine gives the plan's reply, and the rows after the batch mean the machine's keys.
pub fn committed_plans_hold()
    ensures { (opening : Opening) (core new : CoreState) (seen : List Place) (w : Work) (note : Note) →
        Stands opening core seen → Commits core new seen w note →
        Stands opening new (seen ++ batch_place w.now w.caller w.ds note ∷ []) × ((step (state_at opening.state seen) (entry_with w.now w.caller w.ds)).0 ≡ Some w.answer) }
{}

/// A work that lapsed is planned anew on the newest rows, and that is right.
pub fn lapsed_plans_hold_anew()
    ensures { (opening : Opening) (core new : CoreState) (seen : List Place) (caller now : ℕ) (ds : Cmds) (view : ReadView) (batch : Batch) (answer : Reply) (note : Note) →
        Stands opening core seen → Reruns core new seen caller now ds view batch answer note →
        Stands opening new (seen ++ batch_place now caller ds note ∷ []) × ((step (state_at opening.state seen) (entry_with now caller ds)).0 ≡ Some answer) }
{}

/// Commands that are planned and carried out in one event are answered as the machine answers them.
pub fn batches_carry_commands_out()
    ensures { (opening : Opening) (core new : CoreState) (seen : List Place) (caller now : ℕ) (ds : Cmds) (batch : Batch) (answer : Reply) (note : Note) →
        Stands opening core seen → PlaysCommands core new caller now ds batch answer note →
        Stands opening new (seen ++ batch_place now caller ds note ∷ []) × ((step (state_at opening.state seen) (entry_with now caller ds)).0 ≡ Some answer) }
{}

/// A caller that keeps an earlier map reads it as the machine does.
pub fn pins_keep_earlier_maps()
    ensures pin { (opening : Opening) (core new : CoreState) (seen : List Place) (now caller : ℕ) (answer : Reply) →
        Stands opening core seen → Pins core new now caller answer →
        Stands opening new (seen ++ bare_place (PinNow now caller) ∷ []) × ((step (state_at opening.state seen) (PinNow now caller)).0 ≡ Some answer) }
    ensures unpin { (opening : Opening) (core new : CoreState) (seen : List Place) (now caller : ℕ) (answer : Reply) →
        Stands opening core seen → Unpins core new now caller answer →
        Stands opening new (seen ++ bare_place (Unpin now caller) ∷ []) × ((step (state_at opening.state seen) (Unpin now caller)).0 ≡ Some answer) }
    ensures look { (opening : Opening) (core new : CoreState) (seen : List Place) (now caller : ℕ) (c : Command) (answer : Reply) →
        Stands opening core seen → LooksPinned core new now caller c answer →
        Stands opening new (seen ++ bare_place (PinnedRead now caller c) ∷ []) × ((step (state_at opening.state seen) (PinnedRead now caller c)).0 ≡ Some answer) }
    ensures refused { (opening : Opening) (core new : CoreState) (seen : List Place) (now caller : ℕ) (ds : Cmds) (answer : Reply) →
        Stands opening core seen → RefusesPinned core new now caller ds answer →
        Stands opening new (seen ++ bare_place (PinnedRefused now caller ds) ∷ []) × ((step (state_at opening.state seen) (PinnedRefused now caller ds)).0 ≡ Some answer) }
{}

/// A flush moves rows from memory into a table, and nothing else changes.
pub fn flushed_rows_stay()
    ensures frozen { (opening : Opening) (core new : CoreState) (seen : List Place) (caller : ℕ) (asked : JobAsked) (task : Task) →
        Stands opening core seen → Freezes core new caller task → Stands opening new (seen ++ mark caller kind.Flush Begun (Began asked task) ∷ []) }
    ensures installed { (opening : Opening) (core new : CoreState) (seen : List Place) (caller : ℕ) (note : Note) (t : Table) →
        Stands opening core seen → InstallsFlush core new caller t → Stands opening new (seen ++ mark caller kind.Flush Done note ∷ []) }
    ensures dropped { (opening : Opening) (core new : CoreState) (seen : List Place) (caller : ℕ) (note : Note) →
        Stands opening core seen → DropsFlush core new caller → Stands opening new (seen ++ mark caller kind.Flush Dropped note ∷ []) }
{}

/// A compaction that leaves all its inputs moves rows between levels, and nothing else changes.
pub fn whole_compactions_keep_all()
    ensures begun { (filter : Filter) (opening : Opening) (core new : CoreState) (seen : List Place) (caller : ℕ) (asked : JobAsked) (job : Compaction) →
        Stands opening core seen → BeginsCompact filter core new caller job → Stands opening new (seen ++ mark caller kind.Compact Begun (Began asked (compact_task job)) ∷ []) }
    ensures installed { (opening : Opening) (core new : CoreState) (seen : List Place) (caller : ℕ) (note : Note) (outputs : List Table) →
        Stands opening core seen → (installs : InstallsCompact core new caller outputs) → installs.job.rows ≡ together (inputs_of installs.job.choice) →
        Stands opening new (seen ++ mark caller kind.Compact Done note ∷ []) }
    ensures dropped { (opening : Opening) (core new : CoreState) (seen : List Place) (caller : ℕ) (note : Note) →
        Stands opening core seen → DropsCompact core new caller → Stands opening new (seen ++ mark caller kind.Compact Dropped note ∷ []) }
{}

/// A job that finds nothing to do, or another one of its kind, changes nothing.
pub fn jobs_find_nothing_to_do()
    ensures no_flush { (opening : Opening) (core : CoreState) (seen : List Place) (caller : ℕ) (note : Note) → Stands opening core seen → (new : CoreState) → FindsNoFlush core new →
        Stands opening new (seen ++ mark caller kind.Flush Idle note ∷ []) }
    ensures met_flush { (opening : Opening) (core : CoreState) (seen : List Place) (caller : ℕ) (note : Note) → Stands opening core seen → (new : CoreState) → MeetsFlush core new →
        Stands opening new (seen ++ mark caller kind.Flush Met note ∷ []) }
    ensures no_compaction { (opening : Opening) (core : CoreState) (seen : List Place) (caller : ℕ) (note : Note) → Stands opening core seen → (new : CoreState) → FindsNoCompact core new →
        Stands opening new (seen ++ mark caller kind.Compact Idle note ∷ []) }
    ensures met_compaction { (opening : Opening) (core : CoreState) (seen : List Place) (caller : ℕ) (note : Note) → Stands opening core seen → (new : CoreState) → MeetsCompact core new →
        Stands opening new (seen ++ mark caller kind.Compact Met note ∷ []) }
    ensures counted { (opening : Opening) (core : CoreState) (seen : List Place) (caller : ℕ) (note : Note) → Stands opening core seen →
        Stands opening core (seen ++ mark caller kind.Counts Idle note ∷ []) }
{}

/// A call that failed makes no entry, and the core stands for the same history.
pub fn failed_calls_change_nothing()
    ensures { (opening : Opening) (core new : CoreState) (seen : List Place) → Stands opening core seen → FailsCall core new → Stands opening new seen }
{}
