//! A hall: a state behind a lock, with one history of all that threads do to it by turns.
//!
//! Each caller has a pass, which knows a beginning of the history with all entries of its own number.
//! `specs/Hands.antt` has the tokens for the passes and for the hand that writes the history, `specs/Rule.antt` the
//! rule that the hall's table keeps, and `specs/Passes.antt` a pass as contracts see it.
#![tactic(auto)]

mod hall;
mod hand;
mod laws;
mod naming;
mod pass;
mod recorded;
mod steps;
mod turned;

pub use hall::{Hall, Opened};
pub use laws::own_entries_are_calls_and_jobs;
pub use naming::NamesHall;
pub use pass::Pass;
pub use turned::{Stands, Turned};
