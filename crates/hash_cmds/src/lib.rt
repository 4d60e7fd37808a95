//! Plans of the commands on hashes.
//!
//! `specs/Planned.antt` has the plan of each command by what it finds, and the files behind it show that each of these
//! plans carries its command out.
#![tactic(auto, using(lives_model::specs::ViewLaws::reading))]

mod change_field;
mod change_fields;
mod field;
mod fields;
mod found;
mod plan;

pub use plan::plan_hash;
