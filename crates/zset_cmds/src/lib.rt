//! The commands on sorted sets: what each of them plans.
//!
//! `plan_zset` hands a command to the function that plans it. A command that changes a sorted set looks at the life at its
//! key (`find_scores`), sees what becomes of the scores of members (`zset_changes`, or the members by rank of `zset_pages`),
//! and has that planned. `specs/Planned.antt` says when a plan is right for what was found, and `specs/ScorePlanLaws.antt`
//! of `zset_plans` that it then carries its command out. The commands that read are those of `zset_reads`.
#![tactic(auto, using(lives_model::specs::ViewLaws::reading))]

mod add;
mod found;
mod plan;
mod remove;
mod take;

pub use plan::plan_zset;
