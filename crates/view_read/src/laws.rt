//! Laws of the definitions, which the check proves. Each function's contract is one.

ghost use Rattle.std.specs.Prelude.{◌≡◌, ℕ, List};
ghost use Rattle.std.specs.List.Sorted.{IsPermutation};
ghost use Rattle.kv_base.specs.declared.row.Row.{Row};
ghost use Rattle.row_model.specs.Rows.{at};
ghost use Rattle.merge_rows.specs.Merged.{AreDistinct};

/// The same rows are the same map, in whatever order and however they are spread over the sources, where no two of them
/// have both raw key and sequence equal.
#[tactic(auto, using(crate::proofs::Spreading::at_spread))]
pub fn spreading_decides_nothing()
    ensures { (rows others : List Row) (s : ℕ) → AreDistinct rows → IsPermutation rows others → at others s ≡ at rows s }
{}
