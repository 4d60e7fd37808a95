//! The configuration of `kvr serve`: a TOML document, which the kit's `toml` reads.
//!
//! `specs/Configuration.antt` has its grammar: which configuration the bytes of a file are, or what is off in them.
#![tactic(auto)]

mod conf;
mod display;
mod fault;
mod read;
mod values;

pub use conf::Conf;
pub use fault::{ConfFault, ConfFlaw, ConfKey};
pub use read::{parse_conf, read_conf};
