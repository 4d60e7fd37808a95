//! Which bytes are a table file, and of which rows.
//!
//! `specs/Judging.antt` judges the bytes of a file: they have rows, or the first place at which they are off the
//! grammar of a table. Two laws tie that to the bytes that the format gives for rows
//! (`sst_parts/specs/Tables.antt`): these are judged to have their rows, and nothing else is judged to have any.
#![tactic(auto)]

mod laws;

pub use laws::{only_tables_are_judged, tables_are_judged};
