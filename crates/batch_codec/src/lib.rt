//! Batches of puts and deletes of raw keys, and the bytes that a record of the log has for one.
//!
//! `specs/Batches.antt` says what a batch makes of a map, and `specs/Bodies.antt` which bytes are a record's body.
#![tactic(auto)]

mod batch;
mod body;
mod builder;
mod decode;
mod laws;
mod place;
mod record;
mod slot;

pub use batch::Batch;
pub use body::encode_record;
pub use builder::BatchBuilder;
pub use decode::decode_body;
pub use laws::{
    batches_write_their_rows, later_batches_win, only_records_are_read, records_are_read,
};
pub use record::Record;
pub use slot::Slot;
