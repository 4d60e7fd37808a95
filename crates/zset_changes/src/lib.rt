//! Changes of the sorted set at the only key of a command: the scores that members have, what becomes of them, and the rows
//! and the plan of that.
//!
//! `specs/SeenScores.antt` says what scores the rows of a life tell, and `specs/ScoreTables.antt` what became of them while a
//! command goes through the members that it names.
#![tactic(auto, using(lives_model::specs::ViewLaws::reading))]

mod add;
mod plan;
mod remove;
mod rows;
mod score;
mod table;

pub use add::{ScoresAdded, add_scores, allowed};
pub use plan::{removing_plan, scoring_plan};
pub use remove::remove_members;
pub use rows::scoring_rows;
pub use score::{is_score, score_at};
