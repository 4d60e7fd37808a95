//! Plans of the commands that read sorted sets.
//!
//! `specs/ReadPlans.antt` has the plan of each command by what it finds, and `specs/ReadPlanLaws.antt` shows that each of
//! these plans carries its command out.
#![tactic(auto, using(lives_model::specs::ViewLaws::reading))]

mod answers;
mod count;
mod plan;
mod range;
mod score;

pub use answers::{score_bulk, told, told_back};
pub use plan::plan_sorted_set_read;
