//! The outside in memory, which tells all that it holds, for tests and for the theorems that speak of contents.
//!
//! Each form takes the numbers of its calls that are to fail, and fails at these and where it is refused memory.
#![tactic(auto)]

mod clock;
mod crash;
mod disk;
mod failures;
mod fate;
mod file;
mod journal;
mod log;
mod past;
mod sink;
mod source;

pub use clock::MemClock;
pub use disk::MemDisk;
use kv_base::Items;
pub use log::{MemLog, MemSealed};
pub use past::{Change, ChangeKind};
pub use sink::MemSink;
pub use source::MemSource;

/// The numbers, from 0, of the calls that fail.
pub type Calls = Items<u64>;

/// How many bytes the reads hand out, one after the other.
pub type Sizes = Items<u64>;

/// Readings of a clock, in milliseconds, one after the other.
pub type Readings = Items<u64>;
