//! The links of a server over TCP.
//!
//! Each form is a few lines over std and counts every error. None tells what it holds, since no contract can say what the
//! system gives or takes; so a clause on contents says nothing here, and those on bounds, causes and conditions hold.
#![tactic(auto)]

mod door;
mod stream;

pub use door::TcpDoor;
pub use stream::{TcpIn, TcpOut};
