//! The parts of a table file: its data blocks, its index, its filter and its foot.
//!
//! `specs/Tables.antt` has the bytes of a table by its rows, `specs/Blocks.antt` which rows stand in which block,
//! `specs/Filter.antt` the bits of a filter, `specs/Index.antt` the index; `specs/TableExampleLaws.antt` has a table
//! byte by byte.
#![tactic(auto)]

mod bits;
mod block;
mod body;
mod foot;
mod index;
mod key_hash;
mod laws;
mod put;
mod row;
mod seeking;

pub use bits::Bits;
pub use block::{BLOCK_SIZE, BlockWriter};
pub use body::{is_next, next_row, order, read_body};
pub use foot::{FOOT_LENGTH, Foot, HEAD, read_foot};
pub use index::{Spot, encode_index, read_index};
pub use key_hash::KeyHash;
pub use laws::filters_hold_what_they_were_given;
pub use row::{RowFront, take_row};
pub use seeking::{Sought, seek};
