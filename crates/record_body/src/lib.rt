//! A record's body in memory, as it stands in a gated file behind its gate.
//!
//! A record of a gated file is a gate byte, a u32 body length and the body, and the byte behind it is the next record's
//! gate. Numbers are big-endian. A body that is to be appended is built in one buffer between its length and the next
//! gate, which is closed, so that the append writes it with one call and takes no memory.
#![tactic(auto)]

mod body;
mod writer;

pub use body::{MAX_BODY, RecordBody};
pub use writer::BodyWriter;
