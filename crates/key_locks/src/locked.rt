//! One lock, and what a holder of it has.
ghost use Rattle.std.specs.Prelude.{◌≡◌, ◌+◌, ◌*◌, ◌<◌, ◌≤◌, true, false, None, Some, IfSome, IfNone};
ghost use Rattle.std.specs.Option.{is_some};
ghost use Rattle.key_locks.specs.Shares.{InHand, LentOut, is_held};

use crate::naming::NamesTally;
use crate::share::Share;
use std::marker::{Model, PhantomData};
use std::sync::{Mutex, MutexGuard, Wait};

/// What lies under the lock of the stripe 4 * B + O: its share, or none if a holder lost it.
#[derive(Drop)]
pub struct Locked<N: NamesTally + 'static, const B: u8, const O: u8> {
    share: Option<Share>,
    of: PhantomData<N>,
}

impl<N: NamesTally + 'static, const B: u8, const O: u8> Model for Locked<N, B, O> {
    ghost use Rattle.std.specs.Prelude.{◌≡◌, ◌+◌, ◌*◌, Option, IfSome};
    ghost use Rattle.key_locks.specs.Shares.{ShareOf};

    ghost Value = { Option ShareOf };

    ghost view = { λ l. l.share };

    ghost invariant = { λ l. IfSome l.share (λ s. (s.table ≡ N.tally) × (s.stripe ≡ 4 * B + O)) };
}

impl<N: NamesTally + 'static, const B: u8, const O: u8> Locked<N, B, O> {
    /// What lies under a new lock.
    pub fn new(share: Option<Share>) -> Locked<N, B, O>
        requires { IfSome share (λ s. (s.table ≡ N.tally) × (s.stripe ≡ 4 * B + O)) }
        ensures { result ≡ share }
    {
        Locked {
            share,
            of: PhantomData,
        }
    }

    fn take(&mut self) -> Option<Share>
        ensures value { result ≡ self.old }
        ensures after { self.new ≡ None }
        ensures share { IfSome result (λ s. (s.table ≡ N.tally) × (s.stripe ≡ 4 * B + O)) }
    {
        self.share.take()
    }

    fn put(&mut self, share: Share)
        requires { (share.table ≡ N.tally) × (share.stripe ≡ 4 * B + O) }
        ensures { self.new ≡ Some share }
    {
        self.share = Some(share);
    }
}

/// What a holder of locks has of one stripe: its lock with the share, its lock while the share is lent out, or
/// neither. The share lies here while the lock is held, and goes back under it.
pub struct StripeSlot<'a, N: NamesTally + 'static, const B: u8, const O: u8> {
    guard: Option<MutexGuard<'a, Locked<N, B, O>>>,
    share: Option<Share>,
}

impl<'a, N: NamesTally + 'static, const B: u8, const O: u8> Model for StripeSlot<'a, N, B, O> {
    ghost use Rattle.key_locks.specs.Shares.{Spot};

    ghost Value = { Spot };

    ghost use Rattle.std.specs.Prelude.{◌≡◌, ◌+◌, ◌*◌, Option, IfSome};
    ghost use Rattle.key_locks.specs.Slots.{slot_spot};

    ghost view = { λ s. slot_spot s.guard s.share };

    ghost invariant = { λ s. IfSome s.share (λ x. (x.table ≡ N.tally) × (x.stripe ≡ 4 * B + O)) };
}

impl<'a, N: NamesTally + 'static, const B: u8, const O: u8> StripeSlot<'a, N, B, O> {
    /// Takes the lock if it is asked for, and waits until its share is there. No lock from `next` on was taken, and
    /// then none behind this one.
    pub fn take<R: Wait>(
        rt: &R,
        lock: &'a Mutex<Locked<N, B, O>>,
        wanted: bool,
        next: &mut u8,
    ) -> StripeSlot<'a, N, B, O>
        requires range { (B < 4) × (O < 4) }
        requires ascending { next.old ≤ 4 * B + O }
        ensures held { is_held result ≡ wanted }
        ensures next { next.new ≡ 4 * B + O + 1 }
    {
        *next = 4 * B + O + 1;
        if !wanted {
            return StripeSlot {
                guard: None,
                share: None,
            };
        }
        for _ in rt.forever() {
            let mut guard = lock.lock(rt);
            if let Some(share) = guard.take() {
                return StripeSlot {
                    guard: Some(guard),
                    share: Some(share),
                };
            }
        }
        unreachable!()
    }

    /// Whether the lock is held and the share is here.
    pub fn holds(&self) -> bool
        ensures { result ≡ is_held self.now }
    {
        self.guard.is_some() && self.share.is_some()
    }

    /// The count of the share.
    pub fn count(&self) -> u64
        requires { is_held self.now ≡ true }
        ensures { self.now ≡ InHand result }
    {
        match &self.share {
            Some(share) => share.count(),
            None => 0,
        }
    }

    /// Hands the share out. `None` where it is not here.
    pub fn lend(&mut self) -> Option<Share>
        ensures share { IfSome result (λ s. (s.table ≡ N.tally) × (s.stripe ≡ 4 * B + O)
            × (self.old ≡ InHand s.count) × (self.new ≡ LentOut)) }
        ensures none { IfNone result ((is_held self.old ≡ false) × (self.new ≡ self.old)) }
    {
        if self.guard.is_none() {
            return None;
        }
        self.share.take()
    }

    /// Takes the share back.
    pub fn give(&mut self, share: Share)
        requires share { (share.table ≡ N.tally) × (share.stripe ≡ 4 * B + O) }
        requires lent { self.old ≡ LentOut }
        ensures { self.new ≡ InHand share.count }
    {
        self.share = Some(share);
    }
}

impl<N: NamesTally + 'static, const B: u8, const O: u8> Drop for StripeSlot<'_, N, B, O> {
    fn drop(self) {
        let StripeSlot { guard, share } = self;
        if let Some(mut guard) = guard {
            if let Some(share) = share {
                guard.put(share);
            }
        }
    }
}
