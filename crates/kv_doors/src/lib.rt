//! The door of a server: where the links of its clients come in.
//!
//! A link is a source and a sink. An acceptor counts its faults, and tells the links to come where it is in memory.
#![tactic(auto)]

mod acceptor;

pub use acceptor::Acceptor;
