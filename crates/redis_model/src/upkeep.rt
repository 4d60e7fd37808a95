/// What the store is asked to do for itself. It changes no key.
#[derive(Clone, Copy, Debug, PartialEq, Eq)]
pub enum Upkeep {
    /// Flushes a frozen memtable that waits, where there is one, and then freezes and flushes what the memtable holds.
    Flush,
    /// Compacts the whole level of this number, from 0 to 3; without a number it is a flush and then the levels 0, 1, 2
    /// and 3.
    Compact(Option<u8>),
    /// Counts the tables of each level.
    Levels,
}
