//! What every crate speaks of: byte strings, keys, lists, the names of files, numbers as texts, raw keys and the values
//! that a store keeps under them, rows, and want of memory.
//!
//! `specs/Map.antt` has finite maps from byte strings and finite sets of them, `specs/Number.antt` whole numbers as
//! texts, and `specs/Score.antt` scores as texts. `specs/Fields.antt` has numbers and texts as files have them,
//! `specs/RawKeys.antt` raw keys, `specs/MetaValues.antt` metadata and which value goes with which raw key.
#![tactic(auto)]

mod blob;
mod digits;
mod fault;
mod fields;
pub mod flags;
mod hash;
mod integer;
mod key;
mod kind;
mod laws;
mod memory;
mod meta;
mod name;
mod path_text;
mod raw;
mod raw_ref;
mod row;
mod score;
mod table;
mod unsigned;

pub use blob::{Blob, Blobs};
pub use fault::StoreFault;
pub use fields::{take_text, take_u32, take_u64};
pub use hash::{fnv1a, stripe};
pub use integer::read_int;
pub use key::{Key, Keys, MAX_KEY};
pub use kind::Kind;
pub use laws::{
    metadata_is_read, only_its_rows_have_its_prefix, only_metadata_is_read, only_raw_keys_are_read,
    raw_keys_are_read, raw_keys_differ,
};
pub use memory::NoMem;
pub use meta::{MAX_VALUE, decode_meta, is_value};
pub use name::{FileName, TableId};
pub use path_text::PathText;
pub use raw::{decode_raw, is_raw};
pub use raw_ref::{MetaRef, RawRef};
pub use row::{Row, RowRef};
pub use score::read_score;
pub use sqlite_items::Items;
pub use table::TableDesc;
pub use unsigned::read_u64;
