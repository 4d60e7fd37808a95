//! Plans of the commands on lists.
//!
//! `specs/Planned.antt` has the plan of each command by what it finds, and the files behind it show that each of these
//! plans carries its command out.
#![tactic(auto, using(lives_model::specs::ViewLaws::reading))]

mod plan;
mod pop;
mod push;
mod read;
mod set;
mod trim;

pub use plan::plan_list;
