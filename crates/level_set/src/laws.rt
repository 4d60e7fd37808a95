//! Laws of the definitions, which the check proves. Each function's contract is one.

ghost use Rattle.std.specs.Prelude.{◌≡◌, ◌++◌, ◌∷◌, List, Some, true};
ghost use Rattle.level_set.specs.declared.edit.Edit.{Edit};
ghost use Rattle.level_set.specs.declared.home.Home.{Home};
ghost use Rattle.level_set.specs.Edits.{tables_after, with_table};
ghost use Rattle.level_set.specs.Edits.{IsWithTable};
ghost use Rattle.level_set.specs.Tables.{are_tables};

/// A table that may stand somewhere among others has that one place, and comes in there.
#[tactic(auto, using(crate::specs::PlaceLaws::has_its_place))]
pub fn tables_have_one_place()
    ensures { (front : List Home) (behind : List Home) (home : Home) → are_tables (front ++ home ∷ behind) ≡ true → with_table (front ++ behind) home ≡ Some (front ++ home ∷ behind) }
{}

/// Where a table comes in, nothing else changes, and all may stand together.
#[tactic(auto, using(crate::specs::PlaceLaws::is_with))]
pub fn tables_come_in_alone()
    ensures { (tables : List Home) (after : List Home) (home : Home) → with_table tables home ≡ Some after → IsWithTable tables after home }
{}

/// The tables after an edit may stand together.
#[tactic(auto, using(crate::specs::EditLaws::after_are_tables))]
pub fn edits_leave_tables_in_order()
    ensures { (tables : List Home) (edit : Edit) (after : List Home) → tables_after tables edit ≡ Some after → are_tables tables ≡ true → are_tables after ≡ true }
{}
