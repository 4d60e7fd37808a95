//! Plans of the commands on sets.
//!
//! `specs/Planned.antt` has the plan of each command on one set by what it finds, and `specs/MovePlanned.antt` that of
//! SMOVE; the files behind them show that each of these plans carries its command out.
#![tactic(auto, using(lives_model::specs::ViewLaws::reading))]

mod card;
mod change_members;
mod found;
mod member;
mod move_member;
mod plan;

pub use plan::plan_set;
