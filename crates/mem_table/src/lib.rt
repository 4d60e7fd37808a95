//! The newest rows of a store, in memory and in order.
//!
//! A table is a value: `with` makes another one, and whoever holds the old one goes on reading it. Contracts see a table
//! as the list of its rows, and `row_model` says what rows show at a sequence.
//!
//! It is a tree of three levels: leaves of at most 64 rows, branches of at most 64 leaves, and one list of branches. A new
//! table shares with the old one each leaf and each branch that got no row.
#![tactic(auto)]

mod branch;
mod cursor;
mod leaf;
mod merge;
mod place;
mod replay;
mod root;
mod search;
mod table;
mod weight;

pub use cursor::MemCursor;
pub use kv_base::RowRef;
pub use table::MemTable;
