//! The real forms of what the program meets outside: standard input and output, a file as input, the files of a store in
//! a folder, and the system's clock.
//!
//! Each is a few lines over std and counts every error. None tells what it holds, since no contract can say what the
//! system gives or takes; so a clause on contents says nothing here, and those on bounds, causes and conditions hold.
#![tactic(auto)]

mod clock;
mod faults;
mod files;
mod folder;
mod input;
mod output;
mod paths;
mod positions;

pub use clock::SystemClock;
pub use files::{RealFiles, RealLog, RealSealed};
pub use input::{FileIn, StdIn};
pub use output::StdOut;
