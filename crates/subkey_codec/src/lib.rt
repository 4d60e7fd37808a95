//! The raw keys under which the elements of collections stand, and the numbers that stand in them, after the Kvrocks
//! design.
//!
//! Each life of a collection has a version, and its elements stand at raw keys that begin with the prefix of that life:
//! so a key that is written anew never meets the elements of its earlier lives. `kv_base` has the grammar of raw keys
//! (`specs/RawKeys.antt`) and its laws; `specs/Numbers.antt` says which bytes are a place in a list, and which a score, and
//! `specs/OrderLaws.antt` in which order the elements of a list and the members of a sorted set stand.
#![tactic(auto)]

mod laws;
mod number;
mod raw_key;

pub use kv_base::{RawRef, decode_raw};
pub use laws::{
    elements_stand_by_place, indices_are_read, members_stand_by_score, only_indices_are_read,
    only_scores_are_read, scores_are_read,
};
pub use number::{decode_index, decode_score, score_value};
pub use raw_key::{ELEMENTS, SCORES, field_key, index_key, life_prefix, score_key};
