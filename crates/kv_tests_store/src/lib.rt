//! Tests of the libraries that a store is made of, over their public items: what no contract can say, and values from
//! outside. Those of formats, words and the wire are in `kv_tests`.
#![tactic(auto)]

#[cfg(test)]
mod batches;
#[cfg(test)]
mod levels;
#[cfg(test)]
mod list_view;
#[cfg(test)]
mod manifests;
#[cfg(test)]
mod memtables;
#[cfg(test)]
mod merges;
#[cfg(test)]
mod plan_rows;
#[cfg(test)]
mod table_parts;
