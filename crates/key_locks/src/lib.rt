//! The tally of a store, and the locks of its stripes.
//!
//! Each of the sixteen stripes has a share and a book. The book stays with the store, the share goes to whoever
//! changes keys of the stripe, and their counts are equal. `specs/Tokens.antt` has the tokens for both,
//! `specs/Rule.antt` the rule that the tally's table keeps, `specs/Shares.antt` shares and sets of shares as
//! contracts see them, and `specs/Slots.antt` what a holder of locks has.
#![tactic(auto)]

mod four;
mod held;
mod ledger;
mod locked;
mod naming;
mod own;
mod share;
mod tally;
mod token;

pub use held::{Held, KeyLocks};
pub use naming::NamesTally;
pub use own::{Only, OwnShares, ShareSet};
pub use share::Share;
pub use tally::Tally;
