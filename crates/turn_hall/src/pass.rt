//! A pass of a hall.
ghost use Rattle.std.specs.Prelude.{◌≡◌, ◌≢◌, ◌+◌, ◌-◌, ◌<◌, ◌≤◌, ◌^◌, ◌∷◌, ◌++◌, []};
ghost use mathlib.Core.List.{IsPrefix};
ghost use Rattle.turn_hall.specs.Places.{SameOwn};
ghost use Rattle.turn_hall.specs.Hands.{longer_log};

use crate::hand::{HallSeat, HallTable};
use crate::naming::NamesHall;
use crate::steps::{hand_out, merge, take_in};
use std::marker::{Model, PhantomData};

/// What its holder knows of a hall's history: a beginning of it that it has seen, in which all entries of its number
/// stand. To a contract it is its number, up to which number it may hand out, and what it has seen.
#[derive(Drop)]
pub struct Pass<N: NamesHall> {
    pub(crate) number: u32,
    pub(crate) free: u64,
    pub(crate) seat: HallSeat,
    pub(crate) of: PhantomData<N>,
}

impl<N: NamesHall> Model for Pass<N> {
    ghost use Rattle.turn_hall.specs.Passes.{PassOf};
    ghost use Rattle.redis_model.specs.declared.history.Place.{Place};

    ghost Value = { PassOf Place };

    ghost use Rattle.std.specs.Prelude.{◌≡◌, ◌∷◌, [], ◌≤◌, ◌^◌};
    ghost use Rattle.turn_hall.specs.Hands.{pass_of, seen_in};

    ghost view = { λ p. record { number = p.number; free = p.free; seen = seen_in p.seat.me.0 } };

    ghost invariant = { λ p. (p.seat.table_id ≡ N.hall) × (p.free ≤ 2 ^ 32)
        × (p.seat.me ≡ (pass_of p.number p.free (seen_in p.seat.me.0) ∷ [], [])) };
}

impl<N: NamesHall> Pass<N> {
    /// The number of its caller.
    pub fn number(&self) -> u32
        ensures { result ≡ self.now.number }
    {
        self.number
    }

    /// A new pass, with the last number that this one may hand out. It has seen as much.
    pub(crate) fn split(&mut self, table: &HallTable) -> Pass<N>
        requires table { (table.now.shared.table_id ≡ N.hall)
            × (0 < table.now.shared.table_id.words) }
        requires free { 1 < self.old.free }
        ensures new { result ≡ record {
          number = self.old.free - 1;
          free = 0;
          seen = self.old.seen;
        } }
        ensures this { self.new ≡ record {
          number = self.old.number;
          free = self.old.free - 1;
          seen = self.old.seen;
        } }
    {
        let seat = hand_out(table, &mut self.seat);
        self.free -= 1;
        Pass {
            number: self.free as u32,
            free: 0,
            seat,
            of: PhantomData,
        }
    }

    /// What either has seen. The other one ends.
    pub(crate) fn join(&mut self, table: &HallTable, other: Pass<N>)
        requires { (table.now.shared.table_id ≡ N.hall) × (0 < table.now.shared.table_id.words) }
        ensures pass { self.new ≡ record {
          number = self.old.number;
          free = self.old.free;
          seen = longer_log self.old.seen other.seen;
        } }
        ensures this { IsPrefix self.old.seen self.new.seen }
        ensures that { IsPrefix other.seen self.new.seen }
        ensures this_own { SameOwn self.old.number self.new.seen self.old.seen }
        ensures that_own { SameOwn other.number self.new.seen other.seen }
        ensures numbers { self.old.number ≢ other.number }
    {
        let Pass {
            number: _,
            free: _,
            seat,
            of: _,
        } = other;
        take_in(table, &mut self.seat, seat);
        merge(table, &mut self.seat);
    }
}
