//! The members of a sorted set by rank: walks over the side of scores of its life.
//!
//! `specs/Ranks.antt` says what is read of the rows, and `specs/RankLaws.antt` that these are the members of the sorted set.
#![tactic(auto, using(lives_model::specs::ViewLaws::reading))]

mod count;
mod page;
mod range;
mod ranks;
mod walk;

pub use count::{count_ahead, count_between, count_from};
pub use ranks::{Ranked, Ranks, ranks_at, ranks_between};
