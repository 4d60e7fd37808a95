use batch_codec::Record;
use gated_log::GatedLog;
use kv_base::Items;

/// A segment of the log that is open for appending: the gated file of a name `FileName::Segment(number)`, whose bodies
/// are those of batches.
///
/// `Segment::create(files, FileName::Segment(number))` makes one anew, and `Segment::resume` opens one again behind the
/// records that `read_all` found.
pub type Segment<F> = GatedLog<F>;

/// The sequence and the moment of a record, in milliseconds. The next record has a sequence that is one more, and a moment
/// that is not below.
///
/// Both are 0 before the first record of all; and a moment of 0 holds none back.
#[derive(Clone, Copy, Debug, PartialEq, Eq)]
pub struct Stamp {
    pub seq: u64,
    pub moment: u64,
}

/// Records, in the order of their file.
pub type Records = Items<Record>;

/// What a segment has.
#[derive(Drop)]
pub struct Found {
    /// The records, in the file's order.
    pub records: Records,
    /// The stamp of the last record, or of the one before them where there is none.
    pub last: Stamp,
    /// The place behind the last record, in bytes: that of the first gate that does not open a record.
    pub end: u64,
    /// Has the file any byte?
    pub any: bool,
}
