//! The state of the engine's core, and what holds between it and a history of the machine, on definitions alone.
//!
//! `specs/Core.antt` has the state: rows in sources, the last sequence and the floor, pins, counts, and the jobs that are open.
//! `specs/Stands.antt` says what holds between a core and a history, `specs/Filtered.antt` what holds of an open compaction,
//! `specs/Events.antt` what each call leaves, and `specs/Runs.antt` what a list of calls is, and what it adds to the history.
//!
//! The functions of `laws` have no body: their contracts are what follows from the definitions.
#![tactic(auto)]

mod laws;

pub use laws::{begun_jobs_are_open, openings_stand, replies_stand_in_the_history};
