//! Laws of the definitions, which the check proves. Each function's contract is one.

ghost use Rattle.std.specs.Prelude.{◌≡◌, List, Ok};
ghost use Rattle.kv_base.specs.Map.{Bytes};
ghost use Rattle.kv_base.specs.declared.row.Row.{Row};
ghost use Rattle.sst_parts.specs.Tables.{AreTableRows, IsTable, table_text};
ghost use Rattle.sst_grammar.specs.Judging.{judged_table};

/// What a table is written as is judged to be on its grammar, and to have its rows.
#[tactic(auto, using(crate::specs::WholeTableLaws::table_is_judged))]
pub fn tables_are_judged()
    ensures { (rows : List Row) → AreTableRows rows → judged_table (table_text rows) ≡ Ok rows }
{}

/// Nothing else is: a file that is judged to be on its grammar is, byte for byte, the table of the rows that it is
/// judged to have.
#[tactic(auto, using(crate::specs::OnlyTableLaws::only_tables))]
pub fn only_tables_are_judged()
    ensures { (bytes : Bytes) (rows : List Row) → judged_table bytes ≡ Ok rows → IsTable bytes rows }
{}
