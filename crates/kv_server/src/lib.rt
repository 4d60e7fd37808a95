//! The programs of the server, as calls over what they meet outside.
#![tactic(auto)]

mod desk;
mod laws;
mod run;
mod serve;
mod server;
mod store;
mod top;

pub use laws::{a_first_run_begins_with_no_keys, a_run_begins_with_what_was_left};
pub use server::top_serve;
pub use top::top_script;
