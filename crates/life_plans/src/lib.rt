//! What a plan of a command is that changes collections, by what is found of their lives and the rows that change.
//!
//! `specs/ChangePlans.antt` has the plans, and `specs/WantedRows.antt` what a command wants of the elements of a life.
//! `specs/Changes.antt` says when a command wants what it comes to, and by `specs/ChangePlanLaws.antt` it then has the plan
//! of that.
#![tactic(auto)]

mod laws;

pub use laws::{changes_are_planned, elements_are_counted};
