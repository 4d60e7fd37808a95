/// A file of the store.
#[derive(Clone, Copy, Debug, PartialEq, Eq)]
pub enum FileName {
    /// `slot-a`, one of the manifest's two slots.
    SlotA,
    /// `slot-b`, the other slot.
    SlotB,
    /// A segment of the log, by its number.
    Segment(u64),
    /// A table of sorted rows.
    Table(TableId),
}

/// A table, by the run that wrote it and its part of that run.
#[derive(Clone, Copy, Debug, PartialEq, Eq)]
pub struct TableId {
    pub run: u64,
    pub part: u64,
}

impl FileName {
    ghost use Rattle.std.specs.Prelude.{◌≡◌};
    ghost use Rattle.kv_base.specs.Name.{same_name};

    /// Do both name one file?
    pub fn is(self, other: FileName) -> bool
        ensures { result ≡ same_name self other }
    {
        match (self, other) {
            (FileName::SlotA, FileName::SlotA) => true,
            (FileName::SlotB, FileName::SlotB) => true,
            (FileName::Segment(own), FileName::Segment(others)) => own == others,
            (FileName::Table(own), FileName::Table(others)) => {
                own.run == others.run && own.part == others.part
            }
            _ => false,
        }
    }
}
