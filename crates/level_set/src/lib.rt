//! The tables of a store by their levels: which may stand together, what an edit makes of them, and which of them a
//! compaction takes.
//!
//! There are five levels. Level 0 holds tables as they were flushed, newest first, whose ranges of raw keys may overlap.
//! Levels 1 to 4 hold tables of disjoint ranges, by ascending raw keys. `specs/Tables.antt` says which tables may stand
//! together and in what order, `specs/Edits.antt` what an edit makes of them, and `specs/Choices.antt` what a compaction
//! takes.
#![tactic(auto)]

mod choice;
mod due;
mod edit;
mod home;
mod laws;
mod levels;
mod oldest;
mod order;
mod overlap;
mod place;

pub use choice::Choice;
pub use edit::{Edit, TableNames};
pub use home::{Home, Homes};
pub use laws::{edits_leave_tables_in_order, tables_come_in_alone, tables_have_one_place};
pub use levels::Levels;
pub use order::{are_all_tables, are_below, is_table};
