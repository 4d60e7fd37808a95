//! The pins of a store: which callers read it as it stood at a moment before, and whom a compaction has to leave what it sees.
//!
//! `specs/Pinned.antt` says what is found, added and taken away.
#![tactic(auto)]

mod pins;

pub use filter_laws::Watcher;
pub use pins::{PinAt, Pins};
