//! The elements of a life, read in pages, and the plans of the commands that answer a collection as a whole.
//!
//! `specs/LifeElements.antt` says which rows a life has and what is read of them, and `specs/LifeElementLaws.antt` that
//! these are the elements of the collection. `specs/Whole.antt` has the plans, and `specs/WholeLaws.antt` shows that they
//! carry their commands out.
#![tactic(auto, using(lives_model::specs::ViewLaws::reading))]

mod pages;
mod subkey;
mod whole;

pub use pages::{read_life, read_range, read_under};
pub use subkey::subkey_of;
pub use whole::{Whole, whole_plan};
