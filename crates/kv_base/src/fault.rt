use crate::memory::NoMem;
use crate::name::FileName;
use std::alloc::AllocError;

/// Why the store could not do what it was asked to.
#[derive(Clone, Copy, Debug, PartialEq, Eq)]
pub enum StoreFault {
    /// A call to the files failed.
    Failed,
    /// The file is off its grammar, at this place in bytes.
    Damaged { file: FileName, place: u64 },
    /// There is no memory.
    NoMem,
}

impl From<NoMem> for StoreFault {
    ghost use Rattle.kv_base.specs.declared.fault.StoreFault.TheVariants.{NoMem};
    ghost use Rattle.std.specs.Prelude.{◌≡◌};

    ghost from_gives = { λ _ fault. fault ≡ NoMem };

    fn from(_: NoMem) -> StoreFault {
        StoreFault::NoMem
    }
}

impl From<AllocError> for StoreFault {
    ghost use Rattle.kv_base.specs.declared.fault.StoreFault.TheVariants.{NoMem};
    ghost use Rattle.std.specs.Prelude.{◌≡◌};

    ghost from_gives = { λ _ fault. fault ≡ NoMem };

    fn from(_: AllocError) -> StoreFault {
        StoreFault::NoMem
    }
}
