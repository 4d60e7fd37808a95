//! Tests of the planners of commands, over their public items: how much a plan asks of a view, which no contract says.
#![tactic(auto)]

#[cfg(test)]
mod costs;
#[cfg(test)]
mod counting;
#[cfg(test)]
mod transactions;
