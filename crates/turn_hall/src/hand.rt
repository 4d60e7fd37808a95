//! What the seats of a hall know, and the rule that its table keeps.
use atomic_table::{Join, Play, Seat, Split, Table, TableRule};
use redis_model::Place;
use std::alloc::Global;
use std::collections::LinkedList;

/// A pass, or the hand that writes the history. No value of it is made.
pub struct Hand<E> {
    /// It writes: what it has seen is the whole history.
    pub writes: bool,
    /// The pass's number.
    pub number: u64,
    /// The pass may hand out the numbers from 1 on that are below this.
    pub free: u64,
    pub seen: LinkedList<E>,
}

/// What a seat holds: hands.
pub type Hands = LinkedList<Hand<Place>>;

/// The rule.
pub struct InOneHistory;

impl TableRule<Place, Hands, ()> for InOneHistory {
    ghost use Rattle.turn_hall.specs.Rule.{IsHall, all_hands};
    ghost use Rattle.turn_hall.specs.Places.{by_of};

    ghost holds = { λ _ s. IsHall by_of s.words s.views };

    ghost first = { λ _. all_hands };
}

/// One seat takes in the hands of another, in front of its own.
pub struct TakeHands;

impl Join<Hands> for TakeHands {
    ghost use Rattle.std.specs.Prelude.{[], ◌++◌};

    ghost both = { λ v w. w ++ v };

    ghost spent = { [] };
}

/// The first hand goes to a seat of its own.
pub struct FirstHand;

impl Split<Hands> for FirstHand {
    ghost use Rattle.token_views.specs.Views.{first_token, other_tokens};

    ghost left = { other_tokens };

    ghost right = { first_token };
}

/// All hands go to a seat of their own.
pub struct Whole;

impl Split<Hands> for Whole {
    ghost use Rattle.std.specs.Prelude.{[]};

    ghost left = { λ _. [] };

    ghost right = { λ v. v };
}

/// The first pass hands out its last number: the new pass has seen as much.
pub struct HandOut;

impl Split<Hands> for HandOut {
    ghost use Rattle.turn_hall.specs.Hands.{with_less, handed_out};

    ghost left = { with_less };

    ghost right = { handed_out };
}

/// The first pass sees what the writing hand behind it has.
pub struct CatchUp;

impl Play<Place, Hands> for CatchUp {
    ghost use Rattle.std.specs.Prelude.{◌≡◌};
    ghost use Rattle.turn_hall.specs.Rule.{CatchesUp};
    ghost use Rattle.turn_hall.specs.Places.{by_of};

    ghost then = { λ s v n w. CatchesUp by_of v.0 n w.0 × (w.1 ≡ v.1) };
}

/// The history gets an entry, and both hands have it.
pub struct Append;

impl Play<Place, Hands> for Append {
    ghost use Rattle.std.specs.Prelude.{◌≡◌};
    ghost use Rattle.turn_hall.specs.Rule.{AppendsTurn};

    ghost then = { λ s v n w. AppendsTurn s.said v.0 n w.0 × (w.1 ≡ v.1) };
}

/// The second pass gets what the first one has seen, if that is more. The first one ends.
pub struct Merge;

impl Play<Place, Hands> for Merge {
    ghost use Rattle.std.specs.Prelude.{◌≡◌};
    ghost use Rattle.turn_hall.specs.Rule.{Merges};
    ghost use Rattle.turn_hall.specs.Places.{by_of};

    ghost then = { λ s v n w. Merges by_of v.0 w.0 × (w.1 ≡ v.1) };
}

pub type HallTable = Table<Place, Hands, (), InOneHistory, Global>;

pub type HallSeat = Seat<Place, Hands>;
