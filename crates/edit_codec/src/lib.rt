//! The records of a manifest: what they say, and their bytes.
//!
//! A manifest's first record is a head, which says a whole state; each further one is an edit, which says what changes.
//! `specs/States.antt` says which states and edits there are and what an edit makes of a state, `specs/Records.antt` which
//! bytes are a record's body, and `specs/RecordLaws.antt` that each has one spelling.
#![tactic(auto)]

mod bounds;
mod decode;
mod encode;
mod front;
mod laws;
mod state;

pub use decode::{decode_edit, decode_head, is_edit};
pub use encode::{encode_edit, encode_head};
pub use laws::{edits_are_read, heads_are_read, only_edits_are_read, only_heads_are_read};
pub use state::State;
