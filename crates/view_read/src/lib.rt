//! A store's rows at a sequence, read from its memtables and its tables.
//!
//! `Sources` are the places where a store has rows. `specs/Sources.antt` says which map all their rows are at a sequence; a
//! `View` answers by that map alone. `specs/Walk.antt` says which of rows in order show.
#![tactic(auto)]

mod any_cursor;
mod cursors;
mod find;
mod laws;
mod page;
mod sources;
mod view;

pub use any_cursor::AnyCursor;
pub use laws::spreading_decides_nothing;
pub use sources::Sources;
pub use view::View;
