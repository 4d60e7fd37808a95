//! Four locks in a row, and what a holder of some of them has.
ghost use Rattle.std.specs.Prelude.{◌≡◌, ℕ, ◌+◌, ◌*◌, ◌<◌, ◌≤◌, true, false, IfSome, IfNone, slice_set};
ghost use Rattle.key_locks.specs.Shares.{InHand, LentOut, is_held, spot_at};
ghost use Rattle.redis_model.specs.Stripes.{contains};
ghost use Rattle.key_locks.specs.Slots.{spot_in};

use crate::locked::{Locked, StripeSlot};
use crate::naming::NamesTally;
use crate::own::{OwnShares, ShareSet};
use crate::share::Share;
use redis_model::Stripes;
use std::marker::Model;
use std::sync::{Mutex, Wait};

/// The locks of the stripes from 4 * B on.
#[derive(Drop)]
pub struct FourLocks<N: NamesTally + 'static, const B: u8> {
    a: Mutex<Locked<N, B, 0>>,
    b: Mutex<Locked<N, B, 1>>,
    c: Mutex<Locked<N, B, 2>>,
    d: Mutex<Locked<N, B, 3>>,
}

impl<N: NamesTally + 'static, const B: u8> FourLocks<N, B> {
    /// Each lock gets the share of its stripe, which leaves the set.
    pub fn new(shares: &mut OwnShares) -> FourLocks<N, B>
        requires { (shares.old.table ≡ N.tally) × (B < 4) }
        ensures table { shares.new.table ≡ N.tally }
        ensures moved { (k : ℕ) → k < 4 →
            is_held (spot_at shares.new.shares (4 * B + k)) ≡ false }
    {
        let a = Locked::new(shares.lend(4 * B));
        let b = Locked::new(shares.lend(4 * B + 1));
        let c = Locked::new(shares.lend(4 * B + 2));
        let d = Locked::new(shares.lend(4 * B + 3));
        FourLocks {
            a: Mutex::new(a),
            b: Mutex::new(b),
            c: Mutex::new(c),
            d: Mutex::new(d),
        }
    }
}

/// Locks of these stripes that are held.
#[derive(Drop)]
pub struct Four<'a, N: NamesTally + 'static, const B: u8> {
    pub(crate) a: StripeSlot<'a, N, B, 0>,
    pub(crate) b: StripeSlot<'a, N, B, 1>,
    pub(crate) c: StripeSlot<'a, N, B, 2>,
    pub(crate) d: StripeSlot<'a, N, B, 3>,
}

impl<'a, N: NamesTally + 'static, const B: u8> Model for Four<'a, N, B> {
    ghost use Rattle.std.specs.Prelude.{List, [], ◌∷◌};
    ghost use Rattle.key_locks.specs.Shares.{Spot};

    ghost Value = { List Spot };

    ghost view = { λ f. f.a ∷ f.b ∷ f.c ∷ f.d ∷ [] };
}

impl<'a, N: NamesTally + 'static, const B: u8> Four<'a, N, B> {
    /// Takes those that are asked for, in ascending order.
    pub fn take<R: Wait>(
        rt: &R,
        locks: &'a FourLocks<N, B>,
        stripes: Stripes,
        next: &mut u8,
    ) -> Four<'a, N, B>
        requires range { B < 4 }
        requires ascending { next.old ≤ 4 * B }
        ensures next { next.new ≡ 4 * B + 4 }
        ensures held { (k : ℕ) → k < 4 → is_held (spot_in result k) ≡ contains stripes (4 * B + k) }
    {
        let a = StripeSlot::take(rt, &locks.a, stripes.contains(4 * B), next);
        let b = StripeSlot::take(rt, &locks.b, stripes.contains(4 * B + 1), next);
        let c = StripeSlot::take(rt, &locks.c, stripes.contains(4 * B + 2), next);
        let d = StripeSlot::take(rt, &locks.d, stripes.contains(4 * B + 3), next);
        Four { a, b, c, d }
    }

    /// Whether the share of the stripe 4 * B + offset is here.
    pub fn holds(&self, offset: u8) -> bool
        ensures { result ≡ is_held (spot_in self.now offset) }
    {
        match offset {
            0 => self.a.holds(),
            1 => self.b.holds(),
            2 => self.c.holds(),
            3 => self.d.holds(),
            _ => false,
        }
    }

    /// The count of that share.
    pub fn count(&self, offset: u8) -> u64
        requires { is_held (spot_in self.now offset) ≡ true }
        ensures { spot_in self.now offset ≡ InHand result }
    {
        match offset {
            0 => self.a.count(),
            1 => self.b.count(),
            2 => self.c.count(),
            3 => self.d.count(),
            _ => 0,
        }
    }

    /// Hands that share out. `None` where it is not here.
    pub fn lend(&mut self, offset: u8) -> Option<Share>
        ensures share { IfSome result (λ s. (s.table ≡ N.tally) × (s.stripe ≡ 4 * B + offset)
            × (spot_in self.old offset ≡ InHand s.count)
            × (self.new ≡ slice_set self.old offset LentOut)) }
        ensures none { IfNone result ((is_held (spot_in self.old offset) ≡ false)
            × (self.new ≡ self.old)) }
    {
        match offset {
            0 => self.a.lend(),
            1 => self.b.lend(),
            2 => self.c.lend(),
            3 => self.d.lend(),
            _ => None,
        }
    }

    /// Takes that share back.
    pub fn give(&mut self, offset: u8, share: Share)
        requires share { (share.table ≡ N.tally) × (share.stripe ≡ 4 * B + offset) }
        requires lent { spot_in self.old offset ≡ LentOut }
        ensures { self.new ≡ slice_set self.old offset (InHand share.count) }
    {
        match offset {
            0 => self.a.give(share),
            1 => self.b.give(share),
            2 => self.c.give(share),
            3 => self.d.give(share),
            _ => drop(share),
        }
    }
}
