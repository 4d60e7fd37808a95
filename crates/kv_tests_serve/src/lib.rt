//! Tests of a server over links, files and a clock in memory: what each client is told, which no clause can say, since the
//! sinks are given away.
#![tactic(auto)]

#[cfg(test)]
mod clients;
#[cfg(test)]
mod faults;
#[cfg(test)]
mod many;
#[cfg(test)]
mod served;
