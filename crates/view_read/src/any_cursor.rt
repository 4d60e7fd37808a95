ghost use Rattle.std.specs.Prelude.{◌≡◌};

use kv_base::{Row, StoreFault};
use kv_outside::Files;
use mem_cursor::MemoryRows;
use merge_rows::{Cursor, Upcoming};
use sst_file::TableCursor;
use std::alloc::Global;

/// The rows of one source, a memtable or a table.
#[derive(Drop)]
pub enum AnyCursor<'a, F: Files> {
    InMemory(MemoryRows<'a>),
    InTable(TableCursor<F>),
}

impl<'a, F: Files> Upcoming for AnyCursor<'a, F> {
    ghost use Rattle.view_read.specs.AnyCursors.{any_left, any_off, any_rows};

    ghost rows = { any_rows };

    ghost off = { any_off };

    ghost left = { any_left };
}

impl<'a, F: Files> Cursor<F> for AnyCursor<'a, F> {
    fn step(&mut self, alloc: Global, files: &mut F) -> Result<Option<Row>, StoreFault> {
        match self {
            AnyCursor::InMemory(cursor) => cursor.step(alloc, files),
            AnyCursor::InTable(cursor) => cursor.step(alloc, files),
        }
    }
}
