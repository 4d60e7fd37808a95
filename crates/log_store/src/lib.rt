//! A store whose rows lie in one memtable, kept by a log.
//!
//! `specs/Recover.antt` says what the bytes of a log come to, `specs/Keeping.antt` what a store keeps and what its log may
//! come to after a crash, and `specs/Playing.antt` what a call of commands leaves. What callers need of these is in
//! `specs/KeepLaws.antt` and `specs/PlayLaws.antt`.
#![tactic(auto, using(lives_model::specs::ViewLaws::reading))]

mod open;
mod page;
mod play;
mod store;
mod view;

pub use store::LogStore;
pub use view::TableView;
