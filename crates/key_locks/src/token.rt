//! The tokens of the tally, and the rule that its table keeps. No value of a token is made: a token stands in a view,
//! which is what a thread knows.
use atomic_table::{Join, Play, Seat, Split, Table, TableRule};
use std::alloc::Global;
use std::collections::LinkedList;

/// One side of a stripe: its share or its book, with its count.
pub struct Token {
    pub is_book: bool,
    pub stripe: u64,
    pub count: u64,
}

/// What a seat of the tally holds.
pub type Tokens = LinkedList<Token>;

/// The rule of the tally.
pub struct Tallied;

impl TableRule<(), Tokens, ()> for Tallied {
    ghost use Rattle.key_locks.specs.Rule.{KeepsTally, all_tokens};

    ghost holds = { λ _. KeepsTally };

    ghost first = { λ _. all_tokens };
}

/// One seat takes in what another holds, in front of its own.
pub struct TakeTokens;

impl Join<Tokens> for TakeTokens {
    ghost use Rattle.std.specs.Prelude.{[], ◌++◌};

    ghost both = { λ v w. w ++ v };

    ghost spent = { [] };
}

/// The first token goes to a seat of its own.
pub struct FirstToken;

impl Split<Tokens> for FirstToken {
    ghost use Rattle.token_views.specs.Views.{first_token, other_tokens};

    ghost left = { other_tokens };

    ghost right = { first_token };
}

/// A seat learns that the tokens of its first one's stripe have one count.
pub struct Compare;

impl Play<(), Tokens> for Compare {
    ghost use Rattle.key_locks.specs.Rule.{Compares};

    ghost then = { Compares };
}

/// The same, and then that count is one more.
pub struct Raise;

impl Play<(), Tokens> for Raise {
    ghost use Rattle.key_locks.specs.Rule.{Raises};

    ghost then = { Raises };
}

pub type TallyTable = Table<(), Tokens, (), Tallied, Global>;

pub type TallySeat = Seat<(), Tokens>;
