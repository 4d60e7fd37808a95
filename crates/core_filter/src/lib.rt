//! Every list of events of the engine's core, compactions with their filter among them, keeps what holds between the core
//! and the history of the machine, and each call is answered as the machine answers it.
//!
//! The laws of the filter itself are those of `filter_laws`. The functions of `laws` have no body: their contracts are what
//! follows from the definitions of `core_model`.
#![tactic(auto)]

mod laws;

pub use laws::{every_run_is_right, filtered_compactions_keep_what_counts};
