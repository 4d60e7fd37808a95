//! A run of the engine's core, written out (`specs/ExampleRun.antt`): a write, a flush, a pin, another write, a compaction and
//! two reads. It shows that the premises of the laws on runs are met, and what they give for it.
#![tactic(auto)]

mod laws;

pub use laws::an_example_run_is_answered;
