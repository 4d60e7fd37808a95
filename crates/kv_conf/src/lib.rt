//! The command lines of the programs.
//!
//! `specs/CommandLine.antt` has their grammar: what the words behind the program's own name ask for, if anything.
#![tactic(auto)]

mod command;
mod told;
mod words;

pub use words::{Words, WordsFault, read_words};
