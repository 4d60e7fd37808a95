//! A share of a stripe.
ghost use Rattle.std.specs.Prelude.{◌≡◌, ◌<◌, ◌∷◌, []};
ghost use Rattle.key_locks.specs.Tokens.{share_of};
ghost use Rattle.token_views.specs.Views.{first_token, other_tokens};

use crate::ledger::split_first;
use crate::token::{TallySeat, TallyTable};
use std::marker::Model;

/// The share of a stripe, which goes to whoever changes keys of the stripe. To a contract it is its tally, its stripe
/// and its count, which is that of the stripe's book.
#[derive(Drop)]
pub struct Share {
    pub(crate) stripe: u8,
    pub(crate) count: u64,
    pub(crate) seat: TallySeat,
}

impl Model for Share {
    ghost use Rattle.key_locks.specs.Shares.{ShareOf};

    ghost Value = { ShareOf };

    ghost use Rattle.std.specs.Prelude.{◌≡◌, ◌<◌, ◌∷◌, []};
    ghost use Rattle.key_locks.specs.Tokens.{share_of};

    ghost view = { λ s. record { table = s.seat.table_id; stripe = s.stripe; count = s.count } };

    ghost invariant = { λ s. (s.stripe < 16) × (s.seat.me ≡ (share_of s.stripe s.count ∷ [], [])) };
}

impl Share {
    /// The stripe whose share it is, from 0 to 15.
    pub fn stripe(&self) -> u8
        ensures value { result ≡ self.now.stripe }
        ensures range { result < 16 }
    {
        self.stripe
    }

    /// How often the stripe was changed, as its book has it.
    pub fn count(&self) -> u64
        ensures { result ≡ self.now.count }
    {
        self.count
    }
}

/// The first token of a seat, which is this share.
pub(crate) fn split_share(table: &TallyTable, seat: &mut TallySeat, stripe: u8, count: u64) -> Share
    requires table { (seat.old.table_id ≡ table.now.shared.table_id)
        × (0 < table.now.shared.table_id.words) }
    requires stripe { stripe < 16 }
    requires first { first_token seat.old.me.0 ≡ share_of stripe count ∷ [] }
    ensures share { result ≡ record {
      table = table.now.shared.table_id;
      stripe = stripe;
      count = count;
    } }
    ensures table { seat.new.table_id ≡ seat.old.table_id }
    ensures tokens { seat.new.me ≡ (other_tokens seat.old.me.0, seat.old.me.1) }
{
    let seat = split_first(table, seat);
    Share {
        stripe,
        count,
        seat,
    }
}
