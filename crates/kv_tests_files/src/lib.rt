//! Tests of the real outside: files in folders that lie where the test runs and are removed at its end, and the clock.
#![tactic(auto)]

#[cfg(test)]
mod clock;
#[cfg(test)]
mod files;
#[cfg(test)]
mod input;
