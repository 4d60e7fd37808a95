ghost use Rattle.std.specs.Prelude.{◌≡◌, IfOk};
ghost use Rattle.kv_base.specs.RowRefs.{row_seen};

use crate::blob::Blob;
use crate::memory::NoMem;
use std::alloc::Global;

/// What was written at a raw key under a sequence: a value that was put, or a delete where there is none.
#[derive(Debug, Drop)]
pub struct Row {
    pub raw: Blob,
    pub seq: u64,
    pub value: Option<Blob>,
}

/// A row whose bytes stand elsewhere.
#[derive(Clone, Copy, Debug, PartialEq, Eq)]
pub struct RowRef<'a> {
    pub raw: &'a [u8],
    pub seq: u64,
    pub value: Option<&'a [u8]>,
}

impl Row {
    /// The row by reference, which takes no memory.
    pub fn by_ref(&self) -> RowRef<'_>
        ensures { row_seen result ≡ self.now }
    {
        RowRef {
            raw: self.raw.bytes(),
            seq: self.seq,
            value: self.value.as_ref().map(|value| value.bytes()),
        }
    }
}

impl RowRef<'_> {
    /// A row with these bytes, of which each is copied once.
    pub fn copy(&self, alloc: Global) -> Result<Row, NoMem>
        ensures { IfOk result (λ row. row ≡ row_seen self.now) }
    {
        let raw = Blob::copy(alloc, self.raw)?;
        let value = match self.value {
            Some(bytes) => Some(Blob::copy(alloc, bytes)?),
            None => None,
        };
        Ok(Row {
            raw,
            seq: self.seq,
            value,
        })
    }
}
