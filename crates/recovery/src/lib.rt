//! What an opening finds in the files of a store: the state that its manifest says, the rows of its tables and the batches of
//! its log; or the first damage.
//!
//! `specs/Recover.antt` says so as one definition over the bytes of files, and nothing here reads any. The slots of the
//! manifest come first (`manifest_set`), then each table of the state in its order, then the tables together
//! (`specs/Tables.antt`), and then the two segments of the log (`specs/Logs.antt`). The functions of `laws` have no body: their
//! contracts are what follows from the definitions.
#![tactic(auto)]

mod laws;

pub use laws::{
    damage_of_the_log_is_answered_last, damaged_slots_are_answered, edits_leave_what_was_or_comes,
    no_files_are_a_new_store, nothing_is_beyond_what_is_recovered, only_named_files_are_read,
    recovered_files_are_whole, the_first_damaged_table_is_answered, whole_files_are_recovered,
};
