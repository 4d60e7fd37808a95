//! Each event of the engine's core keeps what holds between the core and the history of the machine, and is answered as the
//! machine answers it, where a compaction leaves all its inputs.
//!
//! The functions of `laws` have no body: their contracts are what follows from the definitions.
#![tactic(auto)]

mod laws;

pub use laws::{
    batches_carry_commands_out, committed_plans_hold, failed_calls_change_nothing,
    flushed_rows_stay, glances_are_right, jobs_find_nothing_to_do, lapsed_plans_hold_anew,
    pins_keep_earlier_maps, readings_are_right, whole_compactions_keep_all,
};
