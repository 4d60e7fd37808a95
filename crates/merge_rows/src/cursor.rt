ghost use Rattle.std.specs.Prelude.{◌≡◌, ◌≤◌, ◌<◌, ℕ, Bool, List, Option, IfOk, IfErr, IfSome, OnErr, OnOk};
ghost use Rattle.kv_base.specs.declared.name.FileName.{FileName};
ghost use Rattle.kv_outside.specs.Disk.{NothingNew};
ghost use Rattle.kv_base.specs.declared.row.Row.{Row};
ghost use Rattle.kv_outside.specs.Causes.{IsCause};
ghost use Rattle.merge_rows.specs.Cursors.{AreInOrder, Takes};

use kv_base::{Row, StoreFault};
use kv_outside::Files;
use std::alloc::Global;

/// What is told of rows that are still to come.
pub trait Upcoming {
    /// The rows still to come, where they are told.
    ghost rows: { Self → Option (List Row) };

    /// The places that are off their grammar.
    ghost off: { Self → FileName → ℕ → Bool };

    /// A number that never rises and that falls with each row given, also where the rows are not told.
    ghost left: { Self → ℕ };
}

/// Gives rows one after the other: raw keys ascend, and sequences fall within one.
///
/// A fault takes nothing: the rows still to come are as before. `Failed` comes only where the files counted a failure
/// in the call, `Damaged` only with a place that is off its grammar, and want of memory at any time. No call changes a
/// file.
pub trait Cursor<F: Files>: Upcoming {
    /// Takes the first of the rows still to come; `None` exactly where none is left.
    fn step(&mut self, alloc: Global, files: &mut F) -> Result<Option<Row>, StoreFault>
        ensures row { IfOk result (λ row. Takes (Self.rows self.old) row (Self.rows self.new)) }
        ensures order { OnOk result (IfSome (Self.rows self.old) AreInOrder) }
        ensures unchanged { OnErr result (Self.rows self.new ≡ Self.rows self.old) }
        ensures off { Self.off self.new ≡ Self.off self.old }
        ensures left { Self.left self.new ≤ Self.left self.old }
        ensures nearer { IfOk result (λ row. IfSome row (λ _. Self.left self.new < Self.left self.old)) }
        ensures disk { NothingNew (F.disk files.old) (F.disk files.new) }
        ensures cause { IfErr result (λ fault. IsCause (F.faults files.old) (F.faults files.new) (Self.off self.old) fault) }
        ensures later { F.faults files.old ≤ F.faults files.new };
}
