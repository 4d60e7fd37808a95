use crate::command::{Cmds, Command, Commands};
use crate::unbuilt::{UnbuiltMap, UnbuiltRows};
use kv_base::{Items, TableId};

/// What a background job does.
#[derive(Clone, Copy, Debug, PartialEq, Eq)]
pub enum JobKind {
    /// Writes a memtable to a table.
    Flush,
    /// Merges tables of one level into the next.
    Compact,
    /// Counts the tables of each level.
    Counts,
}

/// What became of a background job at an entry of a history.
#[derive(Clone, Copy, Debug, PartialEq, Eq)]
pub enum JobMark {
    /// It has begun.
    Begun,
    /// It was carried out.
    Done,
    /// It was given up.
    Dropped,
    /// There was nothing to do, or nothing to begin.
    Idle,
    /// Another job of its kind was open.
    Met,
}

/// An entry of a history: the reading of the clock that a call handed in, in milliseconds, the number of its caller, and
/// what was asked. A job has no reading.
#[derive(Drop)]
pub enum Step {
    /// A writing call took its view. It has no reply.
    Tick(u64, u32),
    /// One command.
    Call(u64, u32, Command),
    /// The commands of a transaction, as one step.
    Exec(u64, u32, Commands),
    /// The caller keeps the keys as they are now: it has a pin until it lets it go.
    PinNow(u64, u32),
    /// A reading command on the keys that the caller keeps.
    PinnedRead(u64, u32, Command),
    /// A writing command or a transaction of a caller with a pin, which is refused.
    PinnedRefused(u64, u32, Cmds),
    /// The caller lets its pin go.
    Unpin(u64, u32),
    /// A mark of a background job. It changes nothing and has no reply.
    Job(u32, JobKind, JobMark),
}

/// How many batches were counted on a stripe of keys when a call took its view.
#[derive(Clone, Copy, Debug, PartialEq, Eq)]
pub struct Mark {
    /// The number of the stripe, below 16.
    pub stripe: u8,
    pub count: u64,
}

/// The marks of stripes.
pub type Marks = Items<Mark>;

/// What a writing call saw before its plan.
#[derive(Drop)]
pub struct ReadView {
    /// The sequence of the last batch.
    pub seq: u64,
    /// The moment of the call, in milliseconds.
    pub moment: u64,
    /// How many batches were counted on the stripes of its keys.
    pub marks: Marks,
    /// The rows at that sequence.
    pub rows: UnbuiltMap,
}

/// What a background job was asked for.
#[derive(Clone, Copy, Debug, PartialEq, Eq)]
pub enum JobAsked {
    /// A flush: of a memtable that is due, or forced, of what the memtable holds.
    Flush { forced: bool },
    /// A compaction of the level of this number, or of one that is due.
    Compact { level: Option<u8> },
}

/// The names of tables.
pub type TableIds = Items<TableId>;

/// What a background job that began has to do.
#[derive(Drop)]
pub struct Task {
    /// The number of the job's run, which stands in the names of its tables.
    pub run: u64,
    /// The level that gets its tables.
    pub level: u8,
    /// The tables that go.
    pub gone: TableIds,
    /// The rows that it writes.
    pub rows: UnbuiltRows,
}

/// How many levels of tables there are.
pub const LEVELS: usize = 5;

/// What is known of an entry besides.
#[derive(Drop)]
pub enum Note {
    /// Nothing.
    Bare,
    /// A tick has what its call saw.
    Saw(ReadView),
    /// A call or a transaction that wrote has the sequence of its batch.
    Appended(u64),
    /// A job that began has what was asked for and its task.
    Began(JobAsked, Task),
    /// A job that found nothing to do, or another one open, has what was asked for.
    Found(JobAsked),
    /// Counting has the number of tables of each level.
    Counted([u64; LEVELS]),
}

/// A place of a history: an entry, and what is known of it besides.
#[derive(Drop)]
pub struct Place {
    pub what: Step,
    pub note: Note,
}
