//! The plan of a transaction, which grows command by command.
//!
//! Each command is planned on the rows of a view after the batches of those before it. These are one joined batch, so each
//! read asks it and the view once, however many commands came before. `specs/Growing.antt` says what is known of the first
//! commands, and `specs/GrowingLaws.antt` how one command more is planned and what all of them come to.
#![tactic(auto)]

mod growing;
mod joining;

pub use growing::GrowingPlan;
pub use joining::join;
