//! Requests for tests: the words of a line, which are parted by one space.
#![tactic(auto)]

mod line;

pub use line::{request_of, words_of};
