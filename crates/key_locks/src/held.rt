//! Shares whose locks are held.
ghost use Rattle.std.specs.Prelude.{◌≡◌, ◌<◌, ℕ, true};
ghost use Rattle.key_locks.specs.Shares.{is_held};
ghost use Rattle.redis_model.specs.Stripes.{contains};

use crate::four::{Four, FourLocks};
use crate::naming::NamesTally;
use crate::own::{OwnShares, ShareSet};
use crate::share::Share;
use redis_model::Stripes;
use std::sync::Wait;

/// The sixteen locks of a tally's stripes, each with the stripe's share. They are taken in ascending order.
#[derive(Drop)]
pub struct KeyLocks<N: NamesTally + 'static> {
    a: FourLocks<N, 0>,
    b: FourLocks<N, 1>,
    c: FourLocks<N, 2>,
    d: FourLocks<N, 3>,
}

impl<N: NamesTally + 'static> KeyLocks<N> {
    /// Each share goes under the lock of its stripe. No clause can say what lies under a lock, so this one has none.
    pub fn new(mut shares: OwnShares) -> KeyLocks<N>
        requires { shares.table ≡ N.tally }
    {
        let a = FourLocks::new(&mut shares);
        let b = FourLocks::new(&mut shares);
        let c = FourLocks::new(&mut shares);
        let d = FourLocks::new(&mut shares);
        KeyLocks { a, b, c, d }
    }

    /// Takes the locks of these stripes, in ascending order, and waits for each until it is free and has its share. It
    /// has no refusal and takes no memory. A holder that is dropped gives its locks back with the shares that it has.
    pub fn lock<R: Wait>(&self, rt: &R, stripes: Stripes) -> Held<'_, N>
        ensures { (k : ℕ) → k < 16 →
            is_held (⟦<Held<'static, N> as ShareSet>⟧.at result k) ≡ contains stripes k }
    {
        let mut next = 0;
        let a = Four::take(rt, &self.a, stripes, &mut next);
        let b = Four::take(rt, &self.b, stripes, &mut next);
        let c = Four::take(rt, &self.c, stripes, &mut next);
        let d = Four::take(rt, &self.d, stripes, &mut next);
        Held { a, b, c, d }
    }

    /// Takes all sixteen locks.
    pub fn lock_all<R: Wait>(&self, rt: &R) -> Held<'_, N>
        ensures { (k : ℕ) → k < 16 →
            is_held (⟦<Held<'static, N> as ShareSet>⟧.at result k) ≡ true }
    {
        self.lock(rt, Stripes::all())
    }
}

/// Shares whose locks are held: those of the stripes that were asked for. A share that is lent out when this is dropped
/// is lost, and its stripe is locked for ever.
#[derive(Drop)]
pub struct Held<'a, N: NamesTally + 'static> {
    a: Four<'a, N, 0>,
    b: Four<'a, N, 1>,
    c: Four<'a, N, 2>,
    d: Four<'a, N, 3>,
}

impl<'a, N: NamesTally + 'static> ShareSet for Held<'a, N> {
    ghost use Rattle.std.specs.Prelude.{[]};
    ghost use Rattle.key_locks.specs.Slots.{held_at};

    ghost table = { λ _. N.tally };

    ghost at = { λ h k. held_at k h.a h.b h.c h.d };

    ghost loans = { λ _. [] };

    fn holds(&self, stripe: u8) -> bool {
        match stripe / 4 {
            0 => self.a.holds(stripe % 4),
            1 => self.b.holds(stripe % 4),
            2 => self.c.holds(stripe % 4),
            3 => self.d.holds(stripe % 4),
            _ => false,
        }
    }

    fn count(&self, stripe: u8) -> u64 {
        match stripe / 4 {
            0 => self.a.count(stripe % 4),
            1 => self.b.count(stripe % 4),
            2 => self.c.count(stripe % 4),
            3 => self.d.count(stripe % 4),
            _ => 0,
        }
    }

    fn lend(&mut self, stripe: u8) -> Option<Share> {
        match stripe / 4 {
            0 => self.a.lend(stripe % 4),
            1 => self.b.lend(stripe % 4),
            2 => self.c.lend(stripe % 4),
            3 => self.d.lend(stripe % 4),
            _ => None,
        }
    }

    fn give(&mut self, share: Share) {
        let stripe = share.stripe();
        match stripe / 4 {
            0 => self.a.give(stripe % 4, share),
            1 => self.b.give(stripe % 4, share),
            2 => self.c.give(stripe % 4, share),
            3 => self.d.give(stripe % 4, share),
            _ => drop(share),
        }
    }
}
