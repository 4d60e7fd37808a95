ghost use Rattle.std.specs.Prelude.{◌≡◌, ◌≤◌, ◌+◌, ◌∷◌, IfOk, IfErr, IfSome, OnOk, Some, None, option_map, length};
ghost use Rattle.std.specs.List.{slice_get};
ghost use Rattle.kv_outside.specs.Disk.{NothingNew};
ghost use Rattle.kv_outside.specs.Causes.{IsCause};
ghost use Rattle.merge_rows.specs.Cursors.{AreInOrder, IsHeldBack, with_held, held_count};
ghost use Rattle.merge_rows.specs.CursorLaws.{IsHeldBack-prop};

use crate::cursor::{Cursor, Upcoming};
use kv_base::{Row, StoreFault};
use kv_outside::Files;
use std::alloc::Global;

/// A cursor that can also show its next row without taking it.
#[derive(Drop)]
pub struct Ahead<C: Upcoming> {
    cursor: C,
    /// The next row, where it was read before it is taken.
    held: Option<Row>,
    ghost order: { IsHeldBack held (C.rows cursor) } by { IsHeldBack-prop held (C.rows cursor) },
}

impl<C: Upcoming> Upcoming for Ahead<C> {
    ghost rows = { λ a. with_held a.held (C.rows a.cursor) };

    ghost off = { λ a. C.off a.cursor };

    ghost left = { λ a. C.left a.cursor + held_count a.held };
}

impl<C: Upcoming> Ahead<C> {
    /// The same rows.
    pub fn new(cursor: C) -> Ahead<C>
        ensures rows { ⟦<Ahead<C> as Upcoming>⟧.rows result ≡ C.rows cursor }
        ensures off { ⟦<Ahead<C> as Upcoming>⟧.off result ≡ C.off cursor }
        ensures left { ⟦<Ahead<C> as Upcoming>⟧.left result ≡ C.left cursor }
    {
        Ahead { cursor, held: None }
    }

    /// Reads the next row, where it is not read yet, and leaves it: `shown` shows it then. Faults are those of a step,
    /// and leave all rows.
    pub fn peek<F: Files>(&mut self, alloc: Global, files: &mut F) -> Result<(), StoreFault>
    where
        C: Cursor<F>,
        ensures shown { OnOk result (IfSome (⟦<Ahead<C> as Upcoming>⟧.rows self.old) (λ rows. self.new.held ≡ slice_get rows 0)) }
        ensures order { OnOk result (IfSome (⟦<Ahead<C> as Upcoming>⟧.rows self.old) AreInOrder) }
        ensures rows { ⟦<Ahead<C> as Upcoming>⟧.rows self.new ≡ ⟦<Ahead<C> as Upcoming>⟧.rows self.old }
        ensures off { ⟦<Ahead<C> as Upcoming>⟧.off self.new ≡ ⟦<Ahead<C> as Upcoming>⟧.off self.old }
        ensures left { ⟦<Ahead<C> as Upcoming>⟧.left self.new ≤ ⟦<Ahead<C> as Upcoming>⟧.left self.old }
        ensures disk { NothingNew (F.disk files.old) (F.disk files.new) }
        ensures cause { IfErr result (λ fault. IsCause (F.faults files.old) (F.faults files.new) (⟦<Ahead<C> as Upcoming>⟧.off self.old) fault) }
        ensures later { F.faults files.old ≤ F.faults files.new }
    {
        if self.held.is_none() {
            self.held = self.cursor.step(alloc, files)?;
        }
        Ok(())
    }

    /// The next row, where it is read. After a `peek` there is none exactly where no row is left.
    pub fn shown(&self) -> Option<&Row>
        ensures { option_map (λ row. row.now) result ≡ self.now.held }
    {
        self.held.as_ref()
    }
}

impl<F: Files, C: Cursor<F>> Cursor<F> for Ahead<C> {
    fn step(&mut self, alloc: Global, files: &mut F) -> Result<Option<Row>, StoreFault> {
        match self.held.take() {
            Some(row) => Ok(Some(row)),
            None => self.cursor.step(alloc, files),
        }
    }
}
