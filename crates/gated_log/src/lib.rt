//! Gated files: each record is there whole or not at all, whatever a crash makes of the file.
//!
//! A record is a gate byte, a u32 body length, big-endian, and the body; the byte behind it is the next record's gate. A
//! record is open where its gate is 01 and its body is whole in the file. The records of a file are the open ones from
//! place 0 on, and its end is the first place where none is open. Any gate but 01 is closed.
//!
//! An append writes length, body and a closed gate behind the gate at the end, syncs, opens the gate, and syncs. So the
//! record comes in with one byte, and until then whatever a crash makes of what was written lies behind a closed gate.
//! `specs/` has the words: `Gated` for the bytes of a file, `States` for what a log tells and for what the disk has of it;
//! `Records`, `Walk` and `LogLaws` have the laws.
#![tactic(auto)]

mod log;
mod read;
mod record;
mod steps;

pub use log::GatedLog;
pub use read::{ReadFault, read_file};
pub use record::{GatedRecord, next_record};
