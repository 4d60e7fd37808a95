//! The manifest of a store: what its two slots say, whatever a crash leaves of them.
//!
//! The slots `slot-a` and `slot-b` are gated files. The first record of one is a head, which says a whole state, each
//! further one an edit, which says what changes. The state is that of the slot with the head of the greatest epoch; where
//! neither has one, it is that of a new store. An open record that is off the grammar, or an edit that the state before it
//! does not take, is damage at the place of its gate, and so is a head of `slot-b` with the epoch of `slot-a`.
//! `specs/Slots.antt` says so as definitions, and `specs/Keeping.antt` what a manifest keeps on the disk.
#![tactic(auto)]

mod manifest;
mod read;
mod slots;

pub use manifest::Manifest;
pub use slots::Slots;
