//! What several sets come to together, and the plans of the commands that answer or store it.
//!
//! `specs/Combined.antt` has the plans of those that answer it by what they find, and `specs/Stored.antt` of those that store
//! it. The files behind them show that each of these plans carries its command out.
#![tactic(auto, using(lives_model::specs::ViewLaws::reading))]

mod combine;
mod kept;
mod plan;
mod sets;
mod store;
mod united;

pub use plan::plan_combined;
