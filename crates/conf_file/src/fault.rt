//! Why a configuration is not read.

use kv_base::{Blob, NoMem};
use kv_outside::Failed;
use std::alloc::AllocError;
use std::fmt;

/// A key of a configuration.
#[derive(Clone, Copy, Debug, PartialEq, Eq)]
pub enum ConfKey {
    /// `dir`: the folder of the store.
    Dir,
    /// `listen`: where the server listens.
    Listen,
    /// `workers`: how many connections are served at once.
    Workers,
}

/// What is off in a configuration. Of several flaws the first of this list is told, and of keys the first of `ConfKey`.
#[derive(Debug, Drop)]
pub enum ConfFlaw {
    /// It has more than 65,536 bytes.
    TooLong,
    /// It is no TOML document in UTF-8. A document that defines a key twice is none.
    NoToml,
    /// It has a key of this name, which is no key of a configuration. Of several it is the first in the order of bytes.
    Unknown(Blob),
    /// A key is not there that has to be.
    Missing(ConfKey),
    /// The value of a key is off: of another type, or out of its bounds.
    Off(ConfKey),
}

/// Why a configuration is not read.
#[derive(Debug, Drop)]
pub enum ConfFault {
    /// The source failed.
    ReadFault,
    /// The bytes are off the grammar of a configuration.
    Conf(ConfFlaw),
    /// There is no memory to read it.
    NoMem,
}

impl From<Failed> for ConfFault {
    ghost use Rattle.std.specs.Prelude.{◌≡◌};
    ghost use Rattle.conf_file.specs.declared.fault.ConfFault.TheVariants.{ReadFault};

    ghost from_gives = { λ _ fault. fault ≡ ReadFault };

    fn from(_: Failed) -> ConfFault {
        ConfFault::ReadFault
    }
}

impl From<AllocError> for ConfFault {
    ghost use Rattle.std.specs.Prelude.{◌≡◌};
    ghost use Rattle.conf_file.specs.declared.fault.ConfFault.TheVariants.{NoMem as no_memory};

    ghost from_gives = { λ _ fault. fault ≡ no_memory };

    fn from(_: AllocError) -> ConfFault {
        ConfFault::NoMem
    }
}

impl From<NoMem> for ConfFault {
    ghost use Rattle.std.specs.Prelude.{◌≡◌};
    ghost use Rattle.conf_file.specs.declared.fault.ConfFault.TheVariants.{NoMem as no_memory};

    ghost from_gives = { λ _ fault. fault ≡ no_memory };

    fn from(_: NoMem) -> ConfFault {
        ConfFault::NoMem
    }
}

impl From<ConfFlaw> for ConfFault {
    ghost use Rattle.std.specs.Prelude.{◌≡◌};
    ghost use Rattle.conf_file.specs.declared.fault.ConfFault.TheVariants.{Conf};

    ghost from_gives = { λ flaw fault. fault ≡ Conf flaw };

    fn from(flaw: ConfFlaw) -> ConfFault {
        ConfFault::Conf(flaw)
    }
}
