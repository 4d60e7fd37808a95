//! What the words of a request ask for.
//!
//! `specs/Table.antt` is the table of the commands, a line or two for each, and `specs/Names.antt` has their names.
//! `specs/Places.antt` says what a word stands for at its place and what it can be wrong in, and `specs/Reading.antt` in
//! which order the faults of a command are judged. `parse` is the table, and reads nothing else.
#![tactic(auto)]

mod add;
mod bounds;
mod case;
mod counts;
mod fault;
mod hashes;
mod keys;
mod lists;
mod many;
mod name;
mod no_keys;
mod parsed;
mod places;
mod range_options;
mod session;
mod set_options;
mod sets;
mod shapes;
mod sorted_sets;
mod strings;
mod words;

pub use fault::{CommandFault, FaultText};
pub use parsed::Parsed;
pub use words::parse;
