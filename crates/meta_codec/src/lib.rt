//! The metadata of a key, as bytes and back, after the Kvrocks design.
//!
//! The metadata of a string has its payload; that of a collection has the version of its life and its size, so that a
//! deadline is set, and a collection is emptied, at a cost that does not depend on its size. `kv_base` has the grammar
//! of metadata (`specs/MetaValues.antt`) and its laws; `specs/Metas.antt` has what metadata says.
#![tactic(auto)]

mod encode;
mod parts;

pub use encode::{encode_meta, meta_key};
pub use kv_base::{Kind, MetaRef, decode_meta};
pub use parts::{expire_of, is_expired, size_of, version_of, with_expire};
