//! Segments of the log: gated files whose bodies are those of batches.
//!
//! A segment `wal-N` is a gated file of batch bodies. Its records are those of the file's open bodies, in order. An open
//! record whose body is off the grammar, or whose sequence is not one more than that of the record before it, or whose
//! moment is below it, is damage at the place of its gate. Who reads a segment says what comes before its first record.
//! `specs/Segments.antt` says so as definitions.
#![tactic(auto)]

mod read;
mod segment;

pub use read::read_all;
pub use segment::{Found, Records, Segment, Stamp};
