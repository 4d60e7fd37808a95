//! What lies under a hall's lock.
ghost use Rattle.std.specs.Prelude.{◌≡◌, ◌<◌, ◌%◌, ◌^◌, ◌∷◌, ◌++◌, [], List, ℕ, length, IfSome, option_map};
ghost use Rattle.std.specs.Option.{option_to_list};
ghost use mathlib.Core.List.{IsPrefix};
ghost use Rattle.redis_model.specs.declared.history.Place.{Place};
ghost use Rattle.turn_hall.specs.Places.{by_of, SameOwn};
ghost use Rattle.turn_hall.specs.Hands.{writer_of, pass_of, number_in, free_in, seen_in, log_in};

use crate::hand::{HallSeat, HallTable};
use crate::naming::NamesHall;
use crate::pass::Pass;
use crate::steps::{append, catch_up, split_first, split_whole, take_in};
use crate::turned::{Stands, Turned};
use std::marker::{Model, PhantomData};

/// The state, and the hand that writes the history which it stands for.
pub struct Recorded<C: Stands<N>, N: NamesHall> {
    pub(crate) state: C,
    pub(crate) seat: HallSeat,
    pub(crate) of: PhantomData<N>,
}

impl<C: Stands<N>, N: NamesHall> Model for Recorded<C, N> {
    ghost use Rattle.turn_hall.specs.Passes.{RecordedOf};
    ghost use Rattle.redis_model.specs.declared.history.Place.{Place};

    ghost Value = { RecordedOf C Place };

    ghost use Rattle.std.specs.Prelude.{◌≡◌, ◌∷◌, []};
    ghost use Rattle.turn_hall.specs.Hands.{writer_of, seen_in};

    ghost view = { λ d. record { state = d.state; history = seen_in d.seat.me.0 } };

    ghost invariant = { λ d. (d.seat.table_id ≡ N.hall)
        × (d.seat.me ≡ (writer_of (seen_in d.seat.me.0) ∷ [], []))
        × C.stands d.state (seen_in d.seat.me.0) };
}

// A pass comes into the writing hand's seat, and sees what that has. The word is the history's length.
fn enter(table: &HallTable, seat: &mut HallSeat, pass: &mut HallSeat) -> u64
    requires table { (seat.old.table_id ≡ table.now.shared.table_id)
        × (pass.old.table_id ≡ table.now.shared.table_id) × (0 < table.now.shared.table_id.words) }
    requires writer { seat.old.me ≡ (writer_of (seen_in seat.old.me.0) ∷ [], []) }
    requires pass { pass.old.me ≡ (
      pass_of (number_in pass.old.me.0) (free_in pass.old.me.0) (seen_in pass.old.me.0) ∷ [],
      [],
    ) }
    ensures table { (seat.new.table_id ≡ seat.old.table_id)
        × (pass.new.table_id ≡ pass.old.table_id) }
    ensures pass { pass.new.me ≡ ([], []) }
    ensures hands { seat.new.me ≡ (
      pass_of (number_in pass.old.me.0) (free_in pass.old.me.0) (seen_in seat.old.me.0)
          ∷ writer_of (seen_in seat.old.me.0) ∷ [],
      [],
    ) }
    ensures begins { IsPrefix (seen_in pass.old.me.0) (seen_in seat.old.me.0) }
    ensures own { SameOwn (number_in pass.old.me.0) (seen_in seat.old.me.0) (seen_in pass.old.me.0) }
    ensures word { result ≡ length (seen_in seat.old.me.0) % 2 ^ 64 }
{
    let moved = split_whole(table, pass);
    take_in(table, seat, moved);
    catch_up(table, seat)
}

// The pass goes back to its own seat.
fn leave(table: &HallTable, seat: &mut HallSeat, pass: &mut HallSeat)
    requires table { (seat.old.table_id ≡ table.now.shared.table_id)
        × (pass.old.table_id ≡ table.now.shared.table_id) × (0 < table.now.shared.table_id.words) }
    requires both { seat.old.me ≡ (
      pass_of (number_in seat.old.me.0) (free_in seat.old.me.0) (seen_in seat.old.me.0)
          ∷ writer_of (log_in seat.old.me.0) ∷ [],
      [],
    ) }
    requires pass { pass.old.me ≡ ([], []) }
    ensures table { (seat.new.table_id ≡ seat.old.table_id)
        × (pass.new.table_id ≡ pass.old.table_id) }
    ensures writer { seat.new.me ≡ (writer_of (log_in seat.old.me.0) ∷ [], []) }
    ensures pass { pass.new.me ≡ (
      pass_of (number_in seat.old.me.0) (free_in seat.old.me.0) (seen_in seat.old.me.0) ∷ [],
      [],
    ) }
{
    let back = split_first(table, seat);
    take_in(table, pass, back);
}

impl<C: Stands<N>, N: NamesHall> Recorded<C, N> {
    /// A pass sees the whole history.
    pub(crate) fn show(&mut self, table: &HallTable, pass: &mut Pass<N>)
        requires { (table.now.shared.table_id ≡ N.hall) × (0 < table.now.shared.table_id.words) }
        ensures same { self.new ≡ self.old }
        ensures begins { IsPrefix pass.old.seen self.old.history }
        ensures own { SameOwn pass.old.number self.old.history pass.old.seen }
        ensures seen { pass.new ≡ record {
          number = pass.old.number;
          free = pass.old.free;
          seen = self.old.history;
        } }
        ensures stands { C.stands self.old.state self.old.history }
    {
        enter(table, &mut self.seat, &mut pass.seat);
        leave(table, &mut self.seat, &mut pass.seat);
    }

    /// Plays one event for the caller of a pass, which then has seen the whole history.
    pub(crate) fn turn<F, V>(
        &mut self,
        table: &HallTable,
        pass: &mut Pass<N>,
        files: &mut F,
        event: V,
    ) -> C::Answer
    where
        C: Turned<F, V, N>,
        requires table { (table.now.shared.table_id ≡ N.hall)
            × (0 < table.now.shared.table_id.words) }
        requires can { (state : C) (history : List Place) → C.stands state history →
            IsPrefix pass.old.seen history → SameOwn pass.old.number history pass.old.seen →
            C.can state history pass.old.number files.old event }
        ensures begins { IsPrefix pass.old.seen self.old.history }
        ensures own { SameOwn pass.old.number self.old.history pass.old.seen }
        ensures history { self.new.history ≡ self.old.history ++ option_to_list (C.made result) }
        ensures seen { pass.new ≡ record {
          number = pass.old.number;
          free = pass.old.free;
          seen = self.new.history;
        } }
        ensures caller { IfSome (C.made result) (λ e. by_of e ≡ pass.old.number) }
        ensures tells { C.tells self.old.history files.old event result files.new }
        ensures stands { C.stands self.new.state self.new.history }
    {
        let word = enter(table, &mut self.seat, &mut pass.seat);
        let (answer, said) = self.state.play(files, event);
        if let Some(said) = &said {
            append(table, &mut self.seat, word, said);
        }
        leave(table, &mut self.seat, &mut pass.seat);
        answer
    }
}
