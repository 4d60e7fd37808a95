//! Tests of table files over their public items, with bytes from outside.
#![tactic(auto)]

#[cfg(test)]
mod changed;
#[cfg(test)]
mod given;
#[cfg(test)]
mod opened;
#[cfg(test)]
mod walked;
#[cfg(test)]
mod written;
