use kv_base::NoMem;
use std::alloc::AllocError;
use thiserror::Error;

/// Why a line of a transcript cannot be read, or a case not be played.
#[derive(Debug, Drop, Error)]
pub enum Fault {
    #[error("no line of a transcript")]
    Line,
    #[error("no directive")]
    Directive,
    #[error("no number in its place, or one out of range")]
    Number,
    #[error("no escape")]
    Escape,
    #[error("no reply")]
    Reply,
    #[error("no name of a file")]
    FileName,
    #[error("no bytes in hexadecimal digits")]
    Hex,
    #[error("calls to the files fail in the first run of a case alone")]
    LaterCalls,
    #[error("no memory")]
    Memory(#[from(alloc)] AllocError),
}

impl From<NoMem> for Fault {
    fn from(_error: NoMem) -> Fault {
        Fault::Memory(AllocError)
    }
}
