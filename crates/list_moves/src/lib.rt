//! Plans of the commands that move an item from one list to another.
//!
//! `specs/Planned.antt` has the plan by what is found at both keys, and `specs/MovePlanLaws.antt` shows that it carries the
//! commands out.
#![tactic(auto, using(lives_model::specs::ViewLaws::reading))]

mod move_item;
mod place;
mod plan;
mod rows;

pub use plan::plan_move;
