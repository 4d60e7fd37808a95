//! The tally: for each stripe its book, whose count is that of the stripe's share.
ghost use Rattle.std.specs.Prelude.{◌≡◌, ◌+◌, ◌<◌, ◌≤◌, ◌^◌, ◌∷◌, ◌++◌, [], true, false, length, slice_index, slice_set, replicate, IfOk, if◌then◌else◌, vec_len};
ghost use Rattle.std.specs.Vec.{vec_capacity};
ghost use Rattle.key_locks.specs.Tokens.{shares_from, books_from};
ghost use Rattle.key_locks.specs.Shares.{own_from, tokens_of};

use crate::ledger::{compare, open, raise, take_in};
use crate::own::OwnShares;
use crate::share::{Share, split_share};
use crate::token::{TallySeat, TallyTable};
use kv_base::NoMem;
use std::alloc::Global;
use std::marker::Model;

/// The books of the sixteen stripes, and until they are taken the shares. To a contract it is its name, the counts of
/// its books, and whether the shares were taken.
#[derive(Drop)]
pub struct Tally {
    table: TallyTable,
    books: TallySeat,
    counts: [u64; 16],
    // Room for the shares, until they are taken.
    room: Option<Vec<Option<Share>>>,
}

impl Model for Tally {
    ghost use Rattle.key_locks.specs.Shares.{TallyOf};

    ghost Value = { TallyOf };

    ghost use Rattle.key_locks.specs.Tallies.{is_taken, IsTally};

    ghost view = { λ t. record {
      table = t.table.shared.table_id;
      counts = t.counts;
      taken = is_taken t.room;
    } };

    ghost invariant = { IsTally };
}

impl Tally {
    /// A tally whose counts are 0. It takes the memory for the shares too, so that handing them out takes none.
    pub fn new(alloc: Global) -> Result<Tally, NoMem>
        ensures { IfOk result (λ t. (t.counts ≡ replicate 16 0) × (t.taken ≡ false)) }
    {
        let room = Vec::with_capacity(alloc, 16)?;
        let (table, books) = open(alloc)?;
        Ok(Tally {
            table,
            books,
            counts: [0; 16],
            room: Some(room),
        })
    }

    /// The count of a stripe's book.
    pub fn count(&self, stripe: u8) -> u64
        requires { stripe < 16 }
        ensures { result ≡ slice_index self.now.counts stripe }
    {
        self.counts[usize::from(stripe)]
    }

    /// Hands out the sixteen shares, once. It takes no memory.
    pub fn take(&mut self) -> OwnShares
        requires { self.old.taken ≡ false }
        ensures shares { result ≡ record {
          table = self.old.table;
          shares = own_from self.old.table 0 self.old.counts;
        } }
        ensures tally { self.new ≡ record {
          table = self.old.table;
          counts = self.old.counts;
          taken = true;
        } }
    {
        let Some(mut shares) = self.room.take() else {
            unreachable!()
        };
        split_all(&self.table, &mut self.books, &self.counts, &mut shares);
        OwnShares::of(shares, &self.books)
    }

    /// A share meets its book: their counts are equal.
    fn met(&mut self, share: Share) -> Share
        requires { share.table ≡ self.old.table }
        ensures share { result ≡ share }
        ensures tally { self.new ≡ self.old }
        ensures equal { (share.stripe < 16)
            × (share.count ≡ slice_index self.old.counts share.stripe) }
    {
        let Share {
            stripe,
            count,
            seat,
        } = share;
        take_in(&self.table, &mut self.books, seat);
        compare(&self.table, &mut self.books);
        split_share(&self.table, &mut self.books, stripe, count)
    }

    /// The same, and both counts are one more.
    fn raised(&mut self, share: Share) -> Share
        requires tally { share.table ≡ self.old.table }
        requires room { share.count < 2 ^ 42 }
        ensures share { result ≡ record {
          table = share.table;
          stripe = share.stripe;
          count = share.count + 1;
        } }
        ensures tally { self.new ≡ record {
          table = self.old.table;
          counts = slice_set self.old.counts share.stripe (share.count + 1);
          taken = self.old.taken;
        } }
        ensures equal { (share.stripe < 16)
            × (share.count ≡ slice_index self.old.counts share.stripe) }
    {
        let Share {
            stripe,
            count,
            seat,
        } = share;
        let count = count + 1;
        take_in(&self.table, &mut self.books, seat);
        raise(&self.table, &mut self.books);
        self.counts[usize::from(stripe)] = count;
        split_share(&self.table, &mut self.books, stripe, count)
    }

    /// A share meets its book: their counts are equal. Where `raise` is true, both are one more after it.
    pub fn meet(&mut self, share: Share, raise: bool) -> Share
        requires tally { share.table ≡ self.old.table }
        requires room { share.count < 2 ^ 42 }
        ensures equal { (share.stripe < 16)
            × (share.count ≡ slice_index self.old.counts share.stripe) }
        ensures share { result ≡ (if raise then record {
          table = share.table;
          stripe = share.stripe;
          count = share.count + 1;
        } else share) }
        ensures tally { self.new ≡ record {
          table = self.old.table;
          counts = slice_set self.old.counts share.stripe result.count;
          taken = self.old.taken;
        } }
    {
        if raise {
            self.raised(share)
        } else {
            self.met(share)
        }
    }
}

// Splits the sixteen shares off.
fn split_all(
    table: &TallyTable,
    books: &mut TallySeat,
    counts: &[u64],
    shares: &mut Vec<Option<Share>>,
)
    requires table { (books.old.table_id ≡ table.now.shared.table_id)
        × (0 < table.now.shared.table_id.words) }
    requires counts { length counts.now ≡ 16 }
    requires tokens { books.old.me ≡ (tokens_of false counts.now, []) }
    requires room { (shares.old.items ≡ []) × (vec_capacity shares.old ≡ 16) }
    ensures table { books.new.table_id ≡ books.old.table_id }
    ensures tokens { books.new.me ≡ (tokens_of true counts.now, []) }
    ensures shares { shares.new.items ≡ own_from table.now.shared.table_id 0 counts.now }
{
    for stripe in 0..16u8 {
        let count = counts[usize::from(stripe)];
        let share = split_share(table, books, stripe, count);
        shares.push_reserved(Some(share));
    }
}
