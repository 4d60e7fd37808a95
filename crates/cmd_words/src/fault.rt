ghost use Rattle.std.specs.Prelude.{◌≡◌, ◌++◌, Err};
ghost use Rattle.cmd_words.specs.Parsed.{named_fault, IsParsed};
ghost use Rattle.cmd_words.specs.Texts.{command_fault_text};
ghost use Rattle.cmd_words.specs.Words.{lower};

use crate::case::lower_case;
use kv_base::{Blob, NoMem};
use std::alloc::Global;

/// Why words are no command. Where several of these hold, the first of them is told (the order is this server's own).
#[derive(Debug, Drop)]
pub enum CommandFault {
    /// The first word is no command's name.
    Unknown,
    /// The command of this name, in lower case, takes another number of words.
    Arity(Blob),
    /// A key, a field or a member has more than 65,535 bytes.
    TooLong,
    /// The words of options are not as the command takes them.
    Syntax,
    /// A word in the place of a whole number is none, or is out of its range.
    NotInt,
    /// A word in the place of a score, or of an end of a range of scores, is none.
    NotScore,
    /// An amount of time or a deadline of the command of this name, in lower case, is out of range.
    BadExpire(Blob),
    /// The number of a database is not 0.
    BadIndex,
    /// There was no memory for the lists of the command, or for the name of a fault.
    NoMem,
}

/// A fault without the name of its command.
#[derive(Clone, Copy)]
pub enum FaultKind {
    Arity,
    TooLong,
    Syntax,
    NotInt,
    NotScore,
    BadExpire,
    BadIndex,
    NoMem,
}

/// The text of a fault in three pieces, which are written one after the other.
#[derive(Clone, Copy, Debug)]
pub struct FaultText<'a> {
    pub before: &'static [u8],
    pub name: &'a [u8],
    pub after: &'static [u8],
}

impl CommandFault {
    /// The error that the client is told, without the `-` before it and the line end. It takes no memory.
    pub fn text(&self) -> FaultText<'_>
        ensures { result.before.now ++ result.name.now ++ result.after.now ≡ command_fault_text self.now }
    {
        match self {
            CommandFault::Unknown => FaultText::of(b"ERR unknown command"),
            CommandFault::Arity(name) => FaultText {
                before: b"ERR wrong number of arguments for '",
                name: name.bytes(),
                after: b"' command",
            },
            CommandFault::TooLong => FaultText::of(b"ERR word too long"),
            CommandFault::Syntax => FaultText::of(b"ERR syntax error"),
            CommandFault::NotInt => FaultText::of(b"ERR value is not an integer or out of range"),
            CommandFault::NotScore => FaultText::of(b"ERR value is not a whole score"),
            CommandFault::BadExpire(name) => FaultText {
                before: b"ERR invalid expire time in '",
                name: name.bytes(),
                after: b"' command",
            },
            CommandFault::BadIndex => FaultText::of(b"ERR DB index is out of range"),
            CommandFault::NoMem => FaultText::of(b"NOMEM no memory"),
        }
    }
}

impl FaultText<'_> {
    fn of(text: &'static [u8]) -> FaultText<'static>
        ensures { result.before.now ++ result.name.now ++ result.after.now ≡ text.now }
    {
        FaultText {
            before: text,
            name: b"",
            after: b"",
        }
    }
}

impl FaultKind {
    /// The fault of the command of this name.
    pub fn told(self, alloc: Global, name: &Blob) -> CommandFault
        ensures { IsParsed (Err result) (Err (named_fault (lower name.now) self)) }
    {
        match self {
            FaultKind::Arity => match lower_case(alloc, name) {
                Ok(name) => CommandFault::Arity(name),
                Err(NoMem) => CommandFault::NoMem,
            },
            FaultKind::TooLong => CommandFault::TooLong,
            FaultKind::Syntax => CommandFault::Syntax,
            FaultKind::NotInt => CommandFault::NotInt,
            FaultKind::NotScore => CommandFault::NotScore,
            FaultKind::BadExpire => match lower_case(alloc, name) {
                Ok(name) => CommandFault::BadExpire(name),
                Err(NoMem) => CommandFault::NoMem,
            },
            FaultKind::BadIndex => CommandFault::BadIndex,
            FaultKind::NoMem => CommandFault::NoMem,
        }
    }
}
