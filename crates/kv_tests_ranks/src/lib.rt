//! Tests of the plans of commands that read sorted sets, over rows that are laid down one by one.
#![tactic(auto)]

#[cfg(test)]
mod answers;
#[cfg(test)]
mod rows;
#[cfg(test)]
mod texts;
