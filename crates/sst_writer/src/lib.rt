//! Table files, written from rows that a cursor gives.
//!
//! `write_table` writes the next table of a run of rows. `specs/Building.antt` says what is kept of its rows while they
//! come in, `specs/Cutting.antt` where a table ends before its rows do.
#![tactic(auto)]

mod building;
mod cutting;
mod ending;
mod filling;
mod tables;
mod writing;

pub use tables::write_table;
