//! How a list stands in the rows of a store, what a command makes of it, and what its batch is then.
//!
//! `specs/ListLives.antt` says what metadata tells of a list, `specs/ListRows.antt` which rows come and go with its items,
//! and `specs/ListPlans.antt` which plans there are. `specs/ListReadLaws.antt` leads to the plan of a command that reads a
//! list, and `specs/ListChangeLaws.antt` to that of a command that makes it another one.
#![tactic(auto)]

mod sight;

pub use sight::ListSight;
