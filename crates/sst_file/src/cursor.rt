//! The rows of a table, given one after the other.

ghost use Rattle.std.specs.Prelude.{◌≡◌, IfOk, option_map};
ghost use Rattle.sst_file.specs.States.{table_off};
ghost use Rattle.sst_file.specs.Walking.{rows_from};

use crate::searching::first_block;
use crate::table::{Parts, Table};
use crate::walking::{TableWalk, walk_on};
use kv_base::{Blob, NoMem, Row, StoreFault};
use kv_outside::Files;
use merge_rows::{Cursor, Upcoming};
use std::alloc::Global;
use std::marker::Model;
use std::sync::Arc;

/// The rows of a table from a raw key on, given one after the other.
///
/// A block is read once, when its first row is asked for. One block is kept at a time, and of its rows only the one that
/// is given is copied. Contracts see the rows that are still to come where those of the table are told.
#[derive(Drop)]
pub struct TableCursor<F: Files> {
    parts: Arc<Parts<F>>,
    from: Blob,
    walk: TableWalk,
}

impl<F: Files> Model for TableCursor<F> {
    ghost use Rattle.std.specs.Prelude.{IfSome, drop};
    ghost use Rattle.std.specs.Arc.{arc_value};
    ghost use Rattle.sst_file.specs.States.{CursorState, StandsForTable, rows_of_table};
    ghost use Rattle.sst_file.specs.Walking.{AreAhead, bytes_ahead, rows_unread};

    ghost Value = { CursorState };

    ghost view = { λ c. record {
      table = record { desc = (arc_value c.parts).desc; rows = rows_of_table (F.sealed_bytes (arc_value c.parts).file) };
      rows = rows_unread c.from c.walk.rest c.walk.next (arc_value c.parts).spots.items (F.sealed_bytes (arc_value c.parts).file);
      left = bytes_ahead c.walk.rest c.walk.next (arc_value c.parts).spots.items;
    } };

    ghost invariant = { λ c.
        StandsForTable (arc_value c.parts).spots.items (arc_value c.parts).bits (arc_value c.parts).desc (F.sealed_bytes (arc_value c.parts).file)
        × IfSome (F.sealed_bytes (arc_value c.parts).file) (AreAhead c.walk.rest (drop c.walk.next (arc_value c.parts).spots.items)) };
}

impl<F: Files> Upcoming for TableCursor<F> {
    ghost rows = { λ c. c.rows };

    ghost off = { λ c. table_off c.table };

    ghost left = { λ c. c.left };
}

impl<F: Files> Cursor<F> for TableCursor<F> {
    fn step(&mut self, alloc: Global, files: &mut F) -> Result<Option<Row>, StoreFault> {
        walk_on(alloc, files, &self.parts, self.from.bytes(), &mut self.walk)
    }
}

impl<F: Files> Table<F> {
    /// The rows of the table whose raw keys are not below this one. Nothing is read until the first is asked for.
    pub fn rows_from(&self, alloc: Global, raw: &[u8]) -> Result<TableCursor<F>, NoMem>
        ensures rows { IfOk result (λ c. c.rows ≡ option_map (rows_from raw.now) self.now.rows) }
        ensures table { IfOk result (λ c. c.table ≡ self.now) }
    {
        let next = first_block(self.parts.spots.as_slice(), raw);
        Ok(TableCursor {
            parts: Arc::try_clone(&self.parts)?,
            from: Blob::copy(alloc, raw)?,
            walk: TableWalk::new(alloc, next),
        })
    }
}
