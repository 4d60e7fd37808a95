use kv_base::{Blob, FileName};

/// One call that changed a file of a disk in memory, or tried to.
#[derive(Drop)]
pub struct Change {
    /// The file.
    pub name: FileName,
    /// What was done to it.
    pub kind: ChangeKind,
}

/// What a call did to a file, or tried to do.
#[derive(Drop)]
pub enum ChangeKind {
    /// Bytes were written at a place, unless the call failed.
    Written { at: u64, bytes: Blob, done: bool },
    /// The file was cut to a length, unless the call failed.
    Cut { len: u64, done: bool },
    /// What was written and cut is durable from here on.
    Synced,
    /// The file was taken away.
    Gone,
    /// The file was put there with these bytes, durable at once.
    Placed { bytes: Blob },
}
