//! Tests of reads over memtables and table files.
#![tactic(auto)]

#[cfg(test)]
mod layers;
#[cfg(test)]
mod spread;
