//! What becomes of one row of a compaction's inputs, by notes on it. What a compaction keeps is the verdict of each row, by
//! true notes (the law `kept_rows_are_verdicts` of `filter_laws`).
#![tactic(auto)]

mod notes;
mod row_rules;

pub use filter_laws::{Verdict, Watcher};
pub use notes::Notes;
pub use row_rules::verdict;
