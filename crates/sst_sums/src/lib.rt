//! What is summed up of a table's rows, block by block, while they are read or written.
//!
//! `Sums` keeps the number of the rows, the hashes of their raw keys, the first raw key and the last row without its
//! value. `block_rows` gives the rows of one block of a table file, behind those before it.
#![tactic(auto)]

mod summing;
mod sums;

pub use summing::block_rows;
pub use sums::Sums;
