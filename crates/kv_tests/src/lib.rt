//! Tests of formats, words and the wire, over public items: what no contract can say, and values from outside. Whole runs
//! are data of `kv_transcripts`; tests of what a store is made of are in `kv_tests_store`, and those over real files and
//! the system's clock in `kv_tests_files`.
#![tactic(auto)]

#[cfg(test)]
mod command_lines;
#[cfg(test)]
mod copies;
#[cfg(test)]
mod crashes;
#[cfg(test)]
mod numbers;
#[cfg(test)]
mod raw_keys;
#[cfg(test)]
mod replies;
#[cfg(test)]
mod requests;
#[cfg(test)]
mod sessions;
#[cfg(test)]
mod stripes;
#[cfg(test)]
mod values;
#[cfg(test)]
mod words;
