//! The jobs that write tables.
//!
//! A flush writes the rows of a frozen memtable as one table. `specs/Flushing.antt` says which table that is.
#![tactic(auto)]

mod flushing;

pub use flushing::{FlushTask, flush};
