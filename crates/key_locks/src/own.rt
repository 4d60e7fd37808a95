//! Sets of shares.
ghost use Rattle.std.specs.Prelude.{◌≡◌, ℕ, ◌<◌, ◌∷◌, [], true, false, length, slice_set, IfSome, IfNone, Some, None, if◌then◌else◌};
ghost use Rattle.redis_model.specs.Stripes.{contains};
ghost use Rattle.key_locks.specs.Shares.{ShareOf, AreOwn, all_here, is_held, spot_at, spot_if, outside_of, InHand, LentOut};

use crate::share::Share;
use crate::token::TallySeat;
use redis_model::Stripes;
use std::marker::Model;
use std::snapshot::Snapshot;

/// Shares of some stripes, which an event borrows one by one.
pub trait ShareSet {
    ghost use Rattle.std.specs.Prelude.{◌≡◌, ◌≢◌, ℕ, true, false, List, Option, IfSome, IfNone};
    ghost use base.Fml.{GName};
    ghost use Rattle.atomic_table.specs.Seated.{TableId};
    ghost use Rattle.key_locks.specs.Shares.{Spot, is_held, ShareOf, InHand, LentOut};

    // Which tally's shares they are.
    ghost table: { Self → TableId };

    // What the set has of each stripe.
    ghost at: { Self → ℕ → Spot };

    // The references that the set holds, with what lies behind each that is not the set's.
    ghost loans: { Self → List (GName × List (Option ShareOf)) };

    /// Whether the stripe is one of the set's, and is not lent out.
    fn holds(&self, stripe: u8) -> bool
        ensures { result ≡ is_held (at self.now stripe) };

    /// The count of a stripe's share.
    fn count(&self, stripe: u8) -> u64
        requires { is_held (at self.now stripe) ≡ true }
        ensures { at self.now stripe ≡ InHand result };

    /// Hands a share out. `None` exactly where the stripe is not held.
    fn lend(&mut self, stripe: u8) -> Option<Share>
        ensures share { IfSome result (λ s. (s.table ≡ table self.old) × (s.stripe ≡ stripe)
            × (at self.old stripe ≡ InHand s.count) × (at self.new stripe ≡ LentOut)) }
        ensures none { IfNone result ((is_held (at self.old stripe) ≡ false)
            × (at self.new stripe ≡ at self.old stripe)) }
        ensures others { (k : ℕ) → k ≢ stripe → at self.new k ≡ at self.old k }
        ensures table { table self.new ≡ table self.old }
        ensures loans { loans self.new ≡ loans self.old };

    /// Takes a share back.
    fn give(&mut self, share: Share)
        requires tally { share.table ≡ table self.old }
        requires lent { at self.old share.stripe ≡ LentOut }
        ensures given { at self.new share.stripe ≡ InHand share.count }
        ensures others { (k : ℕ) → k ≢ share.stripe → at self.new k ≡ at self.old k }
        ensures table { table self.new ≡ table self.old }
        ensures loans { loans self.new ≡ loans self.old };
}

/// All sixteen shares. To a contract it is their tally, and at each stripe the share, or none while it is lent out.
#[derive(Drop)]
pub struct OwnShares {
    shares: Vec<Option<Share>>,
    of: Snapshot<TallySeat>,
}

impl Model for OwnShares {
    ghost use Rattle.key_locks.specs.Shares.{SharesOf};

    ghost Value = { SharesOf };

    ghost use Rattle.std.specs.Prelude.{◌≡◌, length};
    ghost use Rattle.key_locks.specs.Shares.{AreOwn};

    ghost view = { λ o. record { table = o.of.value.table_id; shares = o.shares.items } };

    ghost invariant = { λ o. (length o.shares.items ≡ 16)
        × AreOwn o.of.value.table_id 0 o.shares.items };
}

impl OwnShares {
    pub(crate) fn of(shares: Vec<Option<Share>>, books: &TallySeat) -> OwnShares
        requires { (length shares.items ≡ 16) × AreOwn books.now.table_id 0 shares.items }
        ensures { result ≡ record { table = books.now.table_id; shares = shares.items } }
    {
        OwnShares {
            shares,
            of: Snapshot::of(books),
        }
    }

    fn has(&self, stripe: u8) -> bool
        ensures { result ≡ is_held (spot_at self.now.shares stripe) }
    {
        let place = usize::from(stripe);
        if place >= self.shares.len() {
            return false;
        }
        self.shares[place].is_some()
    }

    fn counted(&self, stripe: u8) -> u64
        requires { is_held (spot_at self.now.shares stripe) ≡ true }
        ensures { spot_at self.now.shares stripe ≡ InHand result }
    {
        let place = usize::from(stripe);
        match &self.shares[place] {
            Some(share) => share.count(),
            None => 0,
        }
    }

    fn lent(&mut self, stripe: u8) -> Option<Share>
        ensures set { self.new ≡ record {
          table = self.old.table;
          shares = slice_set self.old.shares stripe None;
        } }
        ensures share { IfSome result (λ s. (s.table ≡ self.old.table) × (s.stripe ≡ stripe)
            × (stripe < length self.old.shares)
            × (spot_at self.old.shares stripe ≡ InHand s.count)) }
        ensures none { IfNone result (is_held (spot_at self.old.shares stripe) ≡ false) }
    {
        let place = usize::from(stripe);
        if place >= self.shares.len() {
            return None;
        }
        self.shares[place].take()
    }

    fn given(&mut self, share: Share)
        requires tally { share.table ≡ self.old.table }
        requires lent { spot_at self.old.shares share.stripe ≡ LentOut }
        ensures { self.new ≡ record {
          table = self.old.table;
          shares = slice_set self.old.shares share.stripe (Some share);
        } }
    {
        let place = usize::from(share.stripe());
        self.shares[place] = Some(share);
    }

    /// The shares of these stripes alone, as a set that borrows from this one. None is lent out.
    pub fn only(&mut self, stripes: Stripes) -> Only<'_>
        requires { all_here self.old.shares ≡ true }
        ensures table { ⟦<Only<'static> as ShareSet>⟧.table result ≡ self.old.table }
        ensures at { (k : ℕ) → ⟦<Only<'static> as ShareSet>⟧.at result k
            ≡ spot_if (contains stripes k) (spot_at self.old.shares k) }
        ensures loans { ⟦<Only<'static> as ShareSet>⟧.loans result
            ≡ (self.entry.ghost_name, outside_of (contains stripes) 0 self.old.shares) ∷ [] }
    {
        Only { all: self, stripes }
    }
}

impl ShareSet for OwnShares {
    ghost use Rattle.std.specs.Prelude.{[]};
    ghost use Rattle.key_locks.specs.Shares.{spot_at};

    ghost table = { λ o. o.table };

    ghost at = { λ o. spot_at o.shares };

    ghost loans = { λ _. [] };

    fn holds(&self, stripe: u8) -> bool {
        self.has(stripe)
    }

    fn count(&self, stripe: u8) -> u64 {
        self.counted(stripe)
    }

    fn lend(&mut self, stripe: u8) -> Option<Share> {
        self.lent(stripe)
    }

    fn give(&mut self, share: Share) {
        self.given(share);
    }
}

/// The shares of some stripes of a set. What it lends and is given goes to that set.
#[derive(Drop)]
pub struct Only<'a> {
    all: &'a mut OwnShares,
    stripes: Stripes,
}

impl<'a> ShareSet for Only<'a> {
    ghost use Rattle.std.specs.Prelude.{[], ◌∷◌};
    ghost use Rattle.redis_model.specs.Stripes.{contains};
    ghost use Rattle.key_locks.specs.Shares.{spot_at, spot_if, outside_of};

    ghost table = { λ o. o.all.now.table };

    ghost at = { λ o k. spot_if (contains o.stripes k) (spot_at o.all.now.shares k) };

    ghost loans = { λ o. (o.all.ghost_name, outside_of (contains o.stripes) 0 o.all.now.shares)
        ∷ [] };

    fn holds(&self, stripe: u8) -> bool {
        self.stripes.contains(stripe) && self.all.has(stripe)
    }

    fn count(&self, stripe: u8) -> u64 {
        self.all.counted(stripe)
    }

    fn lend(&mut self, stripe: u8) -> Option<Share> {
        if !self.stripes.contains(stripe) {
            return None;
        }
        self.all.lent(stripe)
    }

    fn give(&mut self, share: Share) {
        self.all.given(share);
    }
}
