//! What a plan of a command is that changes the sorted set at its only key, by what it makes of the scores of members.
//!
//! `specs/Scorings.antt` has the sorted set that scorings leave, and the rows on both of its sides that come and go with
//! them. By `specs/ScoreRowLaws.antt` these rows lead from the one sorted set to the other, and by
//! `specs/ScorePlanLaws.antt` the plan that writes them carries the command out.
#![tactic(auto)]

mod scoring;

pub use scoring::Scoring;
