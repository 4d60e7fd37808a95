//! Laws of the definitions, which the check proves. Each function's contract is one.

ghost use Rattle.std.specs.Prelude.{◌≡◌, ◌<◌, ◌++◌, [], ℕ, true, false, IsTrue, List, option_and_then};
ghost use Rattle.std.specs.List.{slice_get};
ghost use Rattle.std.specs.List.Sorted.{IsPartitionPoint, IsPermutation, IsSorted};
ghost use Rattle.kv_base.specs.Map.{Bytes, empty, get, kept, same};
ghost use Rattle.batch_codec.specs.Batches.{Batch, after};
ghost use Rattle.batch_codec.specs.declared.record.Record.{Record};
ghost use Rattle.kv_base.specs.declared.row.Row.{Row};
ghost use Rattle.row_model.specs.Rows.{AreApart, HaveSameRows, IsNewestAt, are_below, are_upto, at, batch_rows, newer, seen_at};
ghost use Rattle.row_model.specs.RowOrder.{is_before, is_ordered, merged, row_cmp};
ghost use Rattle.row_model.specs.Replays.{do_rise, last_from, record_rows, replayed, rows_after};

/// What shows at a sequence is the row of the raw key with the greatest sequence not above it.
#[tactic(auto, using(crate::specs::RowLaws::newest_shows))]
pub fn the_newest_row_shows()
    ensures { (rows : List Row) (s : ℕ) (raw : Bytes) → IsNewestAt rows s raw (seen_at rows s raw) }
{}

/// The map at a sequence has the value of the row that shows, and nothing where that is a delete or none shows.
#[tactic(auto, using(crate::specs::RowMapLaws::get_at))]
pub fn maps_have_what_shows()
    ensures { (rows : List Row) (s : ℕ) (raw : Bytes) → get (at rows s) raw ≡ option_and_then (λ row. row.value) (seen_at rows s raw) }
{}

/// Of two lists of rows together, the newer one of what they show shows.
#[tactic(auto, using(crate::specs::RowLaws::seen_in_both))]
pub fn rows_in_front_win()
    ensures { (rows others : List Row) (s : ℕ) (raw : Bytes) → seen_at (rows ++ others) s raw ≡ newer (seen_at rows s raw) (seen_at others s raw) }
{}

/// Lists of the same rows show the same, whatever their order, where no two rows have both raw key and sequence equal.
#[tactic(auto, using(crate::specs::RowMapLaws::same_rows_alike))]
pub fn only_the_rows_decide()
    ensures { (rows others : List Row) (s : ℕ) → AreApart rows → HaveSameRows rows others → at others s ≡ at rows s }
{}

/// Rows that are put among others at their places show what they show in front of them.
#[tactic(auto, using(crate::specs::RowMapLaws::at_merged))]
pub fn rows_put_among_others_show_alike()
    ensures { (rows more : List Row) (s : ℕ) → at (merged rows more) s ≡ at (more ++ rows) s }
{}

/// Rows that are put among others at their places are there beside them, and no other row is.
pub fn rows_put_among_others_are_there()
    ensures { (rows more : List Row) → HaveSameRows (more ++ rows) (merged rows more) }
{}

/// Rows in order stay in order with the rows of a batch under a sequence above all others.
#[tactic(auto, using(crate::specs::RowOrderLaws::ordered_with_batch))]
pub fn batches_leave_rows_in_order()
    ensures { (rows : List Row) (seq : ℕ) (batch : Batch) → IsTrue (are_below seq rows) → IsTrue (is_ordered rows) →
        IsTrue (is_ordered (merged rows (batch_rows seq batch))) }
{}

/// In rows in order, what shows is the first row that does not stand in front of the place of the raw key at the sequence,
/// where it is one of that raw key.
#[tactic(auto, using(crate::specs::RowSearchLaws::seen_from))]
pub fn one_place_shows()
    ensures { (rows : List Row) (place : ℕ) (raw : Bytes) (s : ℕ) → IsTrue (is_ordered rows) →
        IsPartitionPoint (λ row. is_before raw s row ≡ true) (λ row. is_before raw s row ≡ false) rows place →
        seen_at rows s raw ≡ kept (λ row. same raw row.raw) (slice_get rows place) }
{}

/// With the rows of a batch under a sequence above all others, the map at that sequence is the map before, changed by the
/// batch. Before it is at any sequence below the batch's from the greatest one on.
#[tactic(auto, using(crate::specs::RowMapLaws::at_batch))]
pub fn batches_show_at_their_sequence()
    ensures { (rows : List Row) (last seq : ℕ) (batch : Batch) → IsTrue (are_upto last rows) → last < seq →
        at (batch_rows seq batch ++ rows) seq ≡ after (at rows last) batch }
{}

/// Below the sequence of a batch the map stays as it was.
#[tactic(auto, using(crate::specs::RowMapLaws::at_before_batch))]
pub fn older_views_stay()
    ensures { (rows : List Row) (s seq : ℕ) (batch : Batch) → s < seq → at (batch_rows seq batch ++ rows) s ≡ at rows s }
{}

/// Of records whose sequences rise, the map at the last sequence is what their batches come to, one after the other.
#[tactic(auto, using(crate::specs::ReplayLaws::at_replayed))]
pub fn records_show_at_the_last_sequence()
    ensures { (records : List Record) → IsTrue (do_rise records) → at (replayed [] records) (last_from 0 records) ≡ rows_after empty records }
{}

/// Of records whose sequences rise, the rows of all batches, sorted, are what they come to one batch after the other.
pub fn sorted_rows_are_what_records_come_to()
    ensures { (records : List Record) (rows : List Row) → IsTrue (do_rise records) → IsPermutation (record_rows records) rows →
        IsSorted row_cmp rows → rows ≡ replayed [] records }
{}
