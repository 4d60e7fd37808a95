//! The rows of a memtable as a cursor, beside those of table files.
#![tactic(auto)]

mod memory_rows;

pub use memory_rows::MemoryRows;
