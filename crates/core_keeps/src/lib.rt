//! Which map of rows a core keeps, whatever of what was tried a crash leaves: the one that the acknowledged batches come to.
//!
//! `specs/Keeps.antt` has the relation. The functions of `laws` have no body: their contracts are what follows from the definitions.
#![tactic(auto)]

mod laws;

pub use laws::{
    acknowledged_batches_are_kept, batches_keep_what_counts, recoveries_find_what_is_kept,
};
