//! Tests of links over TCP, from this machine to itself.
#![tactic(auto)]

#[cfg(test)]
mod links;
