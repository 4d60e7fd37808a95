//! Tests of what threads share: counts under the locks of stripes, and turns in one hall.
#![tactic(auto)]

#[cfg(test)]
mod shares;
#[cfg(test)]
mod turns;
