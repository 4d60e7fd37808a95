//! What is told of a configuration that is not read, in one line.

use crate::fault::{ConfFault, ConfFlaw, ConfKey};
use std::fmt;

impl ConfKey {
    /// The name of the key.
    fn name(self) -> &'static str {
        match self {
            ConfKey::Dir => "dir",
            ConfKey::Listen => "listen",
            ConfKey::Workers => "workers",
        }
    }

    /// What the value of the key has to be.
    fn wanted(self) -> &'static str {
        match self {
            ConfKey::Dir => "a text that is not empty",
            ConfKey::Listen => "a text HOST:PORT, with a port from 0 to 65535",
            ConfKey::Workers => "an integer from 1 to 64",
        }
    }
}

impl fmt::Display for ConfFlaw {
    fn fmt<W: fmt::Write>(&self, f: &mut fmt::Formatter<W>) -> fmt::Result {
        match self {
            ConfFlaw::TooLong => f.write_str("it has more than 65536 bytes"),
            ConfFlaw::NoToml => f.write_str("it is no TOML in UTF-8"),
            ConfFlaw::Unknown(name) => {
                let name = name.bytes().escape_ascii();
                write!(f, "`{name}` is no key of it")
            }
            ConfFlaw::Missing(key) => {
                let name = key.name();
                write!(f, "`{name}` is missing")
            }
            ConfFlaw::Off(key) => {
                let name = key.name();
                let wanted = key.wanted();
                write!(f, "`{name}` has to be {wanted}")
            }
        }
    }
}

/// One line, with no line feed: which key is off, and what it has to be.
impl fmt::Display for ConfFault {
    fn fmt<W: fmt::Write>(&self, f: &mut fmt::Formatter<W>) -> fmt::Result {
        match self {
            ConfFault::ReadFault => f.write_str("it can't be read"),
            ConfFault::Conf(flaw) => write!(f, "{flaw}"),
            ConfFault::NoMem => f.write_str("there is no memory to read it"),
        }
    }
}
