ghost use Rattle.std.specs.Prelude.{◌≡◌};
ghost use Rattle.mem_table.specs.Search.{rows_from};

use kv_base::{Row, RowRef, StoreFault};
use kv_outside::Files;
use mem_table::{MemCursor, MemTable};
use merge_rows::{Cursor, Upcoming};
use std::alloc::Global;
use std::marker::Model;

/// The rows of a memtable from a raw key on, given one after the other. It borrows them, and copies a row when it gives
/// it. It makes no call to the files.
///
/// Contracts see the list of the rows that are still to come.
#[derive(Drop)]
pub struct MemoryRows<'a> {
    /// The first of them; there is none only where no row is left. It stays here until a copy of it is given.
    next: Option<RowRef<'a>>,
    rest: MemCursor<'a>,
}

impl<'a> Model for MemoryRows<'a> {
    ghost use Rattle.std.specs.Prelude.{◌≡◌, List, length, option_map};
    ghost use Rattle.kv_base.specs.declared.row.Row.{Row};
    ghost use Rattle.kv_base.specs.RowRefs.{row_seen};
    ghost use Rattle.merge_rows.specs.Cursors.{AreInOrder};
    ghost use Rattle.mem_cursor.specs.NextRows.{IsNoneBehind, with_next};

    ghost Value = { List Row };

    ghost view = { λ c. with_next (option_map row_seen c.next) c.rest };

    ghost invariant = { λ c. IsNoneBehind (option_map row_seen c.next) c.rest × AreInOrder (with_next (option_map row_seen c.next) c.rest) };
}

impl<'a> MemoryRows<'a> {
    /// The rows of the table whose raw keys are not below this one.
    pub fn of_table(table: &'a MemTable, raw: &[u8]) -> MemoryRows<'a>
        ensures { result ≡ rows_from raw.now table.now }
    {
        let mut rest = table.rows_from(raw);
        let next = rest.next();
        MemoryRows { next, rest }
    }
}

impl<'a> Upcoming for MemoryRows<'a> {
    ghost use Rattle.std.specs.Prelude.{Some, false, length};

    ghost rows = { λ c. Some c };

    ghost off = { λ _ _ _. false };

    ghost left = { λ c. length c };
}

impl<'a, F: Files> Cursor<F> for MemoryRows<'a> {
    fn step(&mut self, alloc: Global, _files: &mut F) -> Result<Option<Row>, StoreFault> {
        let Some(next) = self.next else {
            return Ok(None);
        };
        let row = next.copy(alloc)?;
        self.next = self.rest.next();
        Ok(Some(row))
    }
}
