//! What the program meets outside: bytes that come in, bytes that go out, the clock and the files of a store.
//!
//! Each of these counts its faults. What an object holds, or has left, is told by the forms in memory and not by the
//! real ones; a contract speaks of it where it is told. `specs/` has the laws of how several calls compose: of what
//! was sent (`Sent`), of what was taken (`Taken`), of readings (`Readings`), of causes (`Causes`), and of what calls of
//! `Files` leave on a disk at each moment (`Disk` has the words, `Runs` the laws).
//!
//! # What is assumed of a real disk
//!
//! No proof looks into a real disk. What is proved of crashes holds of a disk, with the operating system and the
//! hardware over it, that keeps these rules:
//!
//! - Nobody but this program changes the files of the store while it runs.
//! - A read gives what was written last. A crash, of the program or of the machine, takes place between two moments or
//!   in the middle of a call.
//! - After a sync that answered Ok, a crash leaves the file as a read gives it, under its name.
//! - Until a sync, a crash may leave any bytes in a range that was written, and behind the least end that the file had
//!   since its last sync; its length is between the least and the greatest that the file had. All other bytes stay.
//! - A write or a cut that failed counts as one that was tried: its range may hold any bytes, and nothing else changed.
//! - A purge, also one that failed, takes the whole file away or leaves it as it was.
//! - What a crash leaves of one file says nothing of the others: every combination is reckoned with.
#![tactic(auto)]

mod clock;
mod failed;
mod files;
mod output_buffer;
mod sink;
mod source;
mod writing;

pub use clock::Clock;
pub use failed::Failed;
pub use files::Files;
pub use output_buffer::OutputBuffer;
pub use sink::Sink;
pub use source::Source;
pub use writing::{write_all, write_pieces};
