//! Changes of the elements of a hash, a set, or the member side of a sorted set: the rows that a command wants, those of
//! them that differ from the rows that are there, and the plan of the command.
//!
//! A command looks at the life at its key (`plan_base`), makes its wishes (`wanted_puts` and its neighbours), and has them
//! planned (`wishing_plan`): `changes` sees what they change, and `changing_plan` makes the plan of it. `life_plans` has the
//! definitions, `specs/ChangeSteps.antt` the walk over the rows that are wanted.
#![tactic(auto, using(lives_model::specs::ViewLaws::reading))]

mod change;
mod plan;
mod size;
mod wanted;
mod wish;

pub use change::{LifeChange, changes};
pub use plan::{LifeFound, changing_plan};
pub use size::{life_version, size_after};
pub use wanted::{wanted_each, wanted_joins, wanted_leaves, wanted_one, wanted_puts};
pub use wish::{ChangeAnswer, wishing_plan};
