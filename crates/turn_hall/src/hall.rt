//! A state that threads change by turns, in one history.
ghost use Rattle.std.specs.Prelude.{◌≡◌, ◌≢◌, ◌-◌, ◌<◌, ◌^◌, ◌++◌, [], List, IfSome, IfOk};
ghost use Rattle.std.specs.Option.{option_to_list};
ghost use mathlib.Core.List.{IsPrefix};
ghost use Rattle.redis_model.specs.declared.history.Place.{Place};
ghost use Rattle.redis_model.specs.Desk.{mine};
ghost use Rattle.redis_model.specs.Legal.{jobs_of};
ghost use Rattle.redis_model.specs.Places.{steps_of};
ghost use Rattle.turn_hall.specs.Places.{by_of, SameOwn};
ghost use Rattle.turn_hall.specs.Hands.{longer_log};

use crate::hand::{HallSeat, HallTable};
use crate::naming::NamesHall;
use crate::pass::Pass;
use crate::recorded::Recorded;
use crate::steps::{open, split_first};
use crate::turned::{Stands, Turned};
use kv_base::NoMem;
use std::alloc::Global;
use std::marker::{Model, PhantomData};
use std::sync::{Mutex, Wait};

/// A state whose history is empty, which has no name yet. To a contract it is its table and the state.
pub struct Opened<C> {
    table: HallTable,
    writer: HallSeat,
    pass: HallSeat,
    state: C,
}

impl<C> Model for Opened<C> {
    ghost use Rattle.turn_hall.specs.Passes.{OpenedOf};

    ghost Value = { OpenedOf C };

    ghost use Rattle.std.specs.Prelude.{◌≡◌, ◌^◌, ◌∷◌, []};
    ghost use Rattle.turn_hall.specs.Hands.{writer_of, pass_of};

    ghost view = { λ o. record { table = o.table.shared.table_id; state = o.state } };

    ghost invariant = { λ o. (o.writer.table_id ≡ o.table.shared.table_id)
        × (o.pass.table_id ≡ o.table.shared.table_id) × (o.table.shared.table_id.words ≡ 1)
        × (o.writer.me ≡ (writer_of [] ∷ [], []))
        × (o.pass.me ≡ (pass_of 0 (2 ^ 32) [] ∷ [], [])) };
}

impl<C> Opened<C> {
    /// A table, and the state. Where there is no memory for the table the state is dropped.
    pub fn new(alloc: Global, state: C) -> Result<Opened<C>, NoMem>
    where
        C: Drop,
        ensures { IfOk result (λ o. o.state ≡ state) }
    {
        let (table, mut seat) = open(alloc)?;
        let writer = split_first(&table, &mut seat);
        Ok(Opened {
            table,
            writer,
            pass: seat,
            state,
        })
    }

    /// The hall, and the first pass, under a name.
    pub fn named<N: NamesHall>(self) -> (Hall<C, N>, Pass<N>)
    where
        C: Stands<N>,
        requires name { self.table ≡ N.hall }
        requires stands { C.stands self.state [] }
        ensures { result.1 ≡ record { number = 0; free = 2 ^ 32; seen = [] } }
    {
        let Opened {
            table,
            writer,
            pass,
            state,
        } = self;
        let desk = Recorded {
            state,
            seat: writer,
            of: PhantomData,
        };
        let pass = Pass {
            number: 0,
            free: 1 << 32,
            seat: pass,
            of: PhantomData,
        };
        (
            Hall {
                table,
                desk: Mutex::new(desk),
            },
            pass,
        )
    }
}

/// A state under a lock, with one history of all that was played in it. Whenever the lock is free the state stands
/// for the history.
pub struct Hall<C: Stands<N>, N: NamesHall> {
    table: HallTable,
    desk: Mutex<Recorded<C, N>>,
    ghost named: { (table.shared.table_id ≡ N.hall) × (0 < table.shared.table_id.words) },
}

impl<C: Stands<N>, N: NamesHall> Hall<C, N> {
    /// Plays one event. What the pass has seen then is the history as the turn leaves it, for which the state stands:
    /// it begins with what the pass had seen, it has no further entry of the pass's number but the one that the event
    /// made, and that one is its last. So the caller's calls and jobs grew by that entry, or by nothing.
    pub fn turn<F, V, R: Wait>(
        &self,
        rt: &R,
        pass: &mut Pass<N>,
        files: &mut F,
        event: V,
    ) -> C::Answer
    where
        C: Turned<F, V, N>,
        requires { (state : C) (history : List Place) → C.stands state history →
            IsPrefix pass.old.seen history → SameOwn pass.old.number history pass.old.seen →
            C.can state history pass.old.number files.old event }
        ensures turn { (before : List Place) × IsPrefix pass.old.seen before
            × (SameOwn pass.old.number before pass.old.seen)
            × (pass.new.seen ≡ before ++ option_to_list (C.made result))
            × C.tells before files.old event result files.new }
        ensures caller { IfSome (C.made result) (λ e. by_of e ≡ pass.old.number) }
        ensures begins { IsPrefix pass.old.seen pass.new.seen }
        ensures calls { mine pass.old.number pass.new.seen ≡ mine pass.old.number pass.old.seen
            ++ mine pass.old.number (option_to_list (C.made result)) }
        ensures jobs { jobs_of pass.old.number (steps_of pass.new.seen)
            ≡ jobs_of pass.old.number (steps_of pass.old.seen)
            ++ jobs_of pass.old.number (steps_of (option_to_list (C.made result))) }
        ensures stands { (state : C) × C.stands state pass.new.seen }
        ensures same { (pass.new.number ≡ pass.old.number) × (pass.new.free ≡ pass.old.free) }
    {
        self.desk.lock(rt).turn(&self.table, pass, files, event)
    }

    /// A new pass, with the last number that this one may hand out. It has seen as much.
    pub fn split(&self, pass: &mut Pass<N>) -> Pass<N>
        requires { 1 < pass.old.free }
        ensures new { result ≡ record {
          number = pass.old.free - 1;
          free = 0;
          seen = pass.old.seen;
        } }
        ensures this { pass.new ≡ record {
          number = pass.old.number;
          free = pass.old.free - 1;
          seen = pass.old.seen;
        } }
    {
        pass.split(&self.table)
    }

    /// What either pass has seen. The other one, which has another number, ends.
    pub fn join(&self, pass: &mut Pass<N>, other: Pass<N>)
        ensures pass { pass.new ≡ record {
          number = pass.old.number;
          free = pass.old.free;
          seen = longer_log pass.old.seen other.seen;
        } }
        ensures this { IsPrefix pass.old.seen pass.new.seen }
        ensures that { IsPrefix other.seen pass.new.seen }
        ensures this_own { SameOwn pass.old.number pass.new.seen pass.old.seen }
        ensures that_own { SameOwn other.number pass.new.seen other.seen }
        ensures numbers { pass.old.number ≢ other.number }
    {
        pass.join(&self.table, other);
    }

    /// The state, and a pass that has seen the history for which it stands.
    pub fn end_with(self, mut pass: Pass<N>) -> (C, Pass<N>)
        ensures stands { C.stands result.0 result.1.seen }
        ensures begins { IsPrefix pass.seen result.1.seen }
        ensures own { SameOwn pass.number result.1.seen pass.seen }
        ensures same { (result.1.number ≡ pass.number) × (result.1.free ≡ pass.free) }
    {
        let Hall { table, desk } = self;
        let mut desk = desk.into_inner();
        desk.show(&table, &mut pass);
        let Recorded {
            state,
            seat: _,
            of: _,
        } = desk;
        (state, pass)
    }

    /// The state, which stands for some history.
    pub fn end(self) -> C
        ensures { (history : List Place) × C.stands result history }
    {
        let Hall { table: _, desk } = self;
        let Recorded {
            state,
            seat: _,
            of: _,
        } = desk.into_inner();
        state
    }
}
