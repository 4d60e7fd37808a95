ghost use Rattle.std.specs.Prelude.{length, ◌≡◌, ◌++◌, ◌∷◌, [], ℕ, List, Some, None};
ghost use Rattle.core_model.specs.Filtered.{StandsFiltered};
ghost use Rattle.core_model.specs.Opened.{IsOpenedCore, new_core, new_opening};
ghost use Rattle.redis_model.specs.Machine.{State, step, reply_at};
ghost use Rattle.core_model.specs.Places.{open_compact, open_flush};
ghost use Rattle.redis_model.specs.declared.history.Place.{Place};
ghost use Rattle.redis_model.specs.declared.history.Note.{Note};
ghost use Rattle.redis_model.specs.Places.{state_at, steps_of, Opening};
ghost use Rattle.core_model.specs.OpenJobs.{begun_compact, begun_flush, begun_job};
ghost use Rattle.redis_model.specs.Legal.{IsLegal};
ghost use Rattle.core_model.specs.Core.{CoreState};

/// A core as an opening gives it stands for the state that its rows mean, and a history that is empty.
pub fn openings_stand()
    ensures any { (opening : Opening) (core : CoreState) → IsOpenedCore core opening → StandsFiltered opening core [] }
    ensures new { IsOpenedCore new_core new_opening }
{}

/// The reply of the machine at a call's own place is the reply at that place of the whole history.
pub fn replies_stand_in_the_history()
    ensures { (first : State) (seen : List Place) (p : Place) →
        reply_at first (steps_of (seen ++ p ∷ [])) (length seen) ≡ (step (state_at first seen) p.what).0 }
{}

/// In a legal history a job that its caller began, and did not end, is the open one. So who hands in a task of its own is told by
/// its own marks what the core has open.
pub fn begun_jobs_are_open()
    ensures flush { (caller : ℕ) (s : State) (seen : List Place) (note : Note) → IsLegal s (steps_of seen) →
        begun_flush caller None seen ≡ Some note → open_flush None seen ≡ Some (begun_job caller note) }
    ensures compaction { (caller : ℕ) (s : State) (seen : List Place) (note : Note) → IsLegal s (steps_of seen) →
        begun_compact caller None seen ≡ Some note → open_compact None seen ≡ Some (begun_job caller note) }
{}
