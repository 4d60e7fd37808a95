//! Table files, opened, searched in place and read row by row.
//!
//! `Table::open` reads a whole file block by block and judges it; `specs/States.antt` says what an opened table stands
//! for. Of a table its index and its filter stay in memory. `Table::rows_from` gives a cursor over its rows;
//! `specs/Walking.antt` says which of them are still to come.
#![tactic(auto)]

mod block_rest;
mod blocks;
mod cursor;
mod open_table;
mod opening;
mod reading;
mod searching;
mod table;
mod walking;

pub use cursor::TableCursor;
pub use table::Table;
