//! The wire: requests from bytes in any pieces, and replies as bytes.
#![tactic(auto)]

mod fault;
pub mod laws;
mod line;
mod parts;
mod pending;
mod reader;
mod reply;
mod stop;
mod words;

pub use fault::{WireFault, write_fault};
pub use reader::Reader;
pub use reply::{write_error, write_reply};
pub use stop::{NextFault, ProtocolFault};
