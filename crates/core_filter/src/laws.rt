ghost use Rattle.std.specs.Prelude.{◌≡◌, ℕ, List};
ghost use Rattle.std.specs.List.{Contains};
ghost use Rattle.row_model.specs.Rows.{at};
ghost use Rattle.lives_model.specs.Clean.{clean};
ghost use Rattle.redis_model.specs.declared.history.Place.{Place};
ghost use Rattle.redis_model.specs.Places.{Opening};
ghost use Rattle.core_model.specs.Sources.{Table, rows_in};
ghost use Rattle.core_model.specs.Core.{PinAt, newest_rows, CoreState};
ghost use Rattle.core_model.specs.Events.{InstallsCompact};
ghost use Rattle.core_model.specs.Filtered.{StandsFiltered};
ghost use Rattle.core_model.specs.Runs.{Event, IsCoreRun, AreAnswered, seen_after};

/// Every list of events keeps the relation, however glances, commits, flushes and filtering compactions interleave. Each call
/// is answered as the machine answers it at its place in the history.
pub fn every_run_is_right()
    ensures stands { (opening : Opening) (core new : CoreState) (seen : List Place) (es : List Event) →
        StandsFiltered opening core seen → IsCoreRun seen core es new → StandsFiltered opening new (seen_after seen es) }
    ensures answers { (opening : Opening) (core new : CoreState) (seen : List Place) (es : List Event) →
        StandsFiltered opening core seen → IsCoreRun seen core es new → AreAnswered opening.state seen es }
{}

/// The end of a compaction that leaves what the rules say keeps what counts of the newest rows at the floor, and of the rows of
/// each pin at its moment.
pub fn filtered_compactions_keep_what_counts()
    ensures { (opening : Opening) (core new : CoreState) (seen : List Place) (caller : ℕ) (outputs : List Table) →
        StandsFiltered opening core seen → InstallsCompact core new caller outputs →
        (clean (newest_rows core) core.floor ≡ clean (newest_rows new) new.floor)
        × ((p : PinAt) → Contains core.pins p → clean (at (rows_in core.sources) p.seq) p.moment ≡ clean (at (rows_in new.sources) p.seq) p.moment) }
{}
