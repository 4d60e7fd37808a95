//! One client's session, from its first byte to its last, at any desk.
//!
//! `serve_session` reads requests from a source, asks the desk, and writes one answer for each request to a sink, in
//! order. `specs/Talk.antt` says what a request is answered, `specs/Quits.antt` where a client quits, and
//! `specs/Session.antt` what a whole session is.
#![tactic(auto)]

mod answer;
mod ending;
mod send;
mod serve;
mod session;
mod turn;

pub use answer::{Answer, write_damaged};
pub use session::{Outcome, serve_session};
