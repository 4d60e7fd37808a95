//! What the events of one call come to for the caller of a desk: the law that leads from a run of the engine's core to what
//! `redis_model` asks of a desk's answer.
//!
//! The functions of `laws` have no body: their contracts are what follows from the definitions of `core_model`.
#![tactic(auto)]

mod laws;

pub use laws::calls_leave_their_places;
