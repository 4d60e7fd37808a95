//! Tests of the jobs that write tables.
#![tactic(auto)]

#[cfg(test)]
mod flushed;
