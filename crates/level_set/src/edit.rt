use crate::home::Homes;
use kv_base::{Items, TableId};

/// Tables by their names.
pub type TableNames = Items<TableId>;

/// One change of what a store's manifest says: its numbers from then on, the tables that go, and those that come.
#[derive(Drop)]
pub struct Edit {
    /// The number of the first segment that is read.
    pub log: u64,
    /// The last sequence in the tables.
    pub last: u64,
    /// The latest moment, in milliseconds.
    pub floor: u64,
    /// The run of the next table that is written.
    pub next_run: u64,
    /// The tables that go, in the order in which they stand.
    pub removed: TableNames,
    /// The tables that come.
    pub added: Homes,
}
