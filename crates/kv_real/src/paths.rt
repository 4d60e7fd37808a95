//! Where the files of a store lie.

ghost use Rattle.std.specs.Prelude.{◌≡◌, ◌∷◌, ◌++◌, IfOk, string_bytes};
ghost use Rattle.kv_real.specs.Path.{path_bytes};

use kv_base::{FileName, TableId};
use std::alloc::{AllocError, Global};

/// The path of a file in this folder.
pub(crate) fn path_of(alloc: Global, folder: &str, name: FileName) -> Result<String, AllocError>
    ensures { IfOk result (λ path. string_bytes path ≡ path_bytes folder.now name) }
{
    let path = match name {
        FileName::SlotA => format!(in alloc; "{folder}/slot-a")?,
        FileName::SlotB => format!(in alloc; "{folder}/slot-b")?,
        FileName::Segment(number) => format!(in alloc; "{folder}/wal-{number}")?,
        FileName::Table(TableId { run, part }) => format!(in alloc; "{folder}/t-{run}-{part}")?,
    };
    Ok(path)
}
