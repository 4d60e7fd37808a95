//! The planner of all commands, one or many.
//!
//! `plan` hands a command to the crate that plans its family, with the version that a life gets which it starts. `plan_all`
//! does so with the commands of a transaction, one after the other. `Redis` is both as a `Planner`.
#![tactic(auto, using(lives_model::specs::ViewLaws::reading))]

mod dispatch;
mod redis;
mod transaction;
mod version;

pub use dispatch::plan;
pub use redis::Redis;
pub use transaction::plan_all;
