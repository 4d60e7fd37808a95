//! The door of a server in memory, for tests and for the theorems that speak of contents.
//!
//! An acceptor gives its links away, and with them what was written; so a link's sink shares its bytes with a second
//! value, by which a test reads them afterwards.
#![tactic(auto)]

mod acceptor;
mod shared_sink;

pub use acceptor::{Link, Links, MemAcceptor};
pub use shared_sink::SharedSink;
