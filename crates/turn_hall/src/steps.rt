//! The steps of the hall's table.
ghost use Rattle.std.specs.Prelude.{◌≡◌, ◌≢◌, ◌+◌, ◌-◌, ◌%◌, ◌^◌, ◌<◌, ◌∷◌, ◌++◌, [], length, IfOk};
ghost use mathlib.Core.List.{IsPrefix};
ghost use Rattle.turn_hall.specs.Places.{by_of, SameOwn};
ghost use Rattle.turn_hall.specs.Hands.{longer_log, writer_of, pass_of, number_in, free_in, seen_in, log_in, IsBoth, IsTwo};
ghost use Rattle.token_views.specs.Views.{first_token, other_tokens};
ghost use Rattle.turn_hall.specs.Rule.{all_hands, with_entry};

use crate::hand::{
    Append, CatchUp, FirstHand, HallSeat, HallTable, HandOut, Merge, TakeHands, Whole,
};
use atomic_table::Table;
use redis_model::Place;
use std::alloc::{AllocError, Global};

/// A table, and the seat that has both first hands.
pub(crate) fn open(alloc: Global) -> Result<(HallTable, HallSeat), AllocError>
    ensures { IfOk result (λ r. (r.0.shared.table_id.words ≡ 1)
        × (r.1.table_id ≡ r.0.shared.table_id) × (r.1.me ≡ (all_hands, []))) }
{
    Table::of_words(alloc, &[0], &())
}

/// The seat gets the other's hands, in front of its own.
pub(crate) fn take_in(table: &HallTable, seat: &mut HallSeat, other: HallSeat)
    requires table { (seat.old.table_id ≡ table.now.shared.table_id)
        × (other.table_id ≡ table.now.shared.table_id) × (0 < table.now.shared.table_id.words) }
    requires slots { other.me.1 ≡ [] }
    ensures table { seat.new.table_id ≡ seat.old.table_id }
    ensures hands { seat.new.me ≡ (other.me.0 ++ seat.old.me.0, seat.old.me.1) }
{
    table.shared.join_seat::<TakeHands>(seat, other);
}

/// The first hand goes to a seat of its own.
pub(crate) fn split_first(table: &HallTable, seat: &mut HallSeat) -> HallSeat
    requires { (seat.old.table_id ≡ table.now.shared.table_id)
        × (0 < table.now.shared.table_id.words) }
    ensures table { (seat.new.table_id ≡ seat.old.table_id)
        × (result.table_id ≡ seat.old.table_id) }
    ensures hands { (seat.new.me ≡ (other_tokens seat.old.me.0, seat.old.me.1))
        × (result.me ≡ (first_token seat.old.me.0, [])) }
{
    table.shared.split_seat::<FirstHand>(seat)
}

/// All hands go to a seat of their own.
pub(crate) fn split_whole(table: &HallTable, seat: &mut HallSeat) -> HallSeat
    requires { (seat.old.table_id ≡ table.now.shared.table_id)
        × (0 < table.now.shared.table_id.words) }
    ensures table { (seat.new.table_id ≡ seat.old.table_id)
        × (result.table_id ≡ seat.old.table_id) }
    ensures hands { (seat.new.me ≡ ([], seat.old.me.1)) × (result.me ≡ (seat.old.me.0, [])) }
{
    table.shared.split_seat::<Whole>(seat)
}

/// A pass hands out its last number.
pub(crate) fn hand_out(table: &HallTable, seat: &mut HallSeat) -> HallSeat
    requires table { (seat.old.table_id ≡ table.now.shared.table_id)
        × (0 < table.now.shared.table_id.words) }
    requires pass { seat.old.me.0 ≡
        pass_of (number_in seat.old.me.0) (free_in seat.old.me.0) (seen_in seat.old.me.0) ∷ [] }
    requires free { 1 < free_in seat.old.me.0 }
    ensures table { (seat.new.table_id ≡ seat.old.table_id)
        × (result.table_id ≡ seat.old.table_id) }
    ensures pass { seat.new.me ≡ (
      pass_of (number_in seat.old.me.0) (free_in seat.old.me.0 - 1) (seen_in seat.old.me.0)
          ∷ [],
      seat.old.me.1,
    ) }
    ensures new { result.me ≡ (
      pass_of (free_in seat.old.me.0 - 1) 0 (seen_in seat.old.me.0) ∷ [],
      [],
    ) }
{
    table.shared.split_seat::<HandOut>(seat)
}

/// A pass sees what the writing hand has, which is in the same seat. The word is the history's length.
pub(crate) fn catch_up(table: &HallTable, seat: &mut HallSeat) -> u64
    requires table { (seat.old.table_id ≡ table.now.shared.table_id)
        × (0 < table.now.shared.table_id.words) }
    requires both { IsBoth seat.old.me.0 }
    ensures table { seat.new.table_id ≡ seat.old.table_id }
    ensures hands { seat.new.me ≡ (
      pass_of (number_in seat.old.me.0) (free_in seat.old.me.0) (log_in seat.old.me.0)
          ∷ writer_of (log_in seat.old.me.0) ∷ [],
      seat.old.me.1,
    ) }
    ensures begins { IsPrefix (seen_in seat.old.me.0) (log_in seat.old.me.0) }
    ensures own { SameOwn (number_in seat.old.me.0) (log_in seat.old.me.0) (seen_in seat.old.me.0) }
    ensures word { result ≡ length (log_in seat.old.me.0) % 2 ^ 64 }
{
    table.shared.load::<CatchUp>(seat, 0)
}

/// The history gets an entry of the pass's number.
pub(crate) fn append(table: &HallTable, seat: &mut HallSeat, word: u64, said: &Place)
    requires table { (seat.old.table_id ≡ table.now.shared.table_id)
        × (0 < table.now.shared.table_id.words) }
    requires both { IsBoth seat.old.me.0 }
    requires caught_up { seen_in seat.old.me.0 ≡ log_in seat.old.me.0 }
    requires caller { by_of said.now ≡ number_in seat.old.me.0 }
    requires word { word ≡ length (log_in seat.old.me.0) % 2 ^ 64 }
    ensures table { seat.new.table_id ≡ seat.old.table_id }
    ensures hands { seat.new.me ≡ (with_entry said.now seat.old.me.0, seat.old.me.1) }
{
    table
        .shared
        .compare_exchange_with::<Append>(seat, 0, word, word.wrapping_add(1), said);
}

/// The second pass of a seat gets what the first one has seen, if that is more, and the first one ends.
pub(crate) fn merge(table: &HallTable, seat: &mut HallSeat)
    requires table { (seat.old.table_id ≡ table.now.shared.table_id)
        × (0 < table.now.shared.table_id.words) }
    requires two { IsTwo seat.old.me.0 }
    ensures table { seat.new.table_id ≡ seat.old.table_id }
    ensures pass { let log = longer_log (log_in seat.old.me.0) (seen_in seat.old.me.0) in
        seat.new.me ≡ (pass_of (number_in (other_tokens seat.old.me.0)) (free_in (other_tokens seat.old.me.0)) log ∷ [], seat.old.me.1) }
    ensures this { IsPrefix (log_in seat.old.me.0) (longer_log (log_in seat.old.me.0) (seen_in seat.old.me.0)) }
    ensures that { IsPrefix (seen_in seat.old.me.0) (longer_log (log_in seat.old.me.0) (seen_in seat.old.me.0)) }
    ensures this_own { SameOwn (number_in (other_tokens seat.old.me.0))
        (longer_log (log_in seat.old.me.0) (seen_in seat.old.me.0)) (log_in seat.old.me.0) }
    ensures that_own { SameOwn (number_in seat.old.me.0)
        (longer_log (log_in seat.old.me.0) (seen_in seat.old.me.0)) (seen_in seat.old.me.0) }
    ensures numbers { number_in (other_tokens seat.old.me.0) ≢ number_in seat.old.me.0 }
{
    table.shared.load::<Merge>(seat, 0);
}
