//! Threads that change stripes of one tally: each takes the locks of its stripes, and raises the counts. That a lock is
//! ever had, and what lies under it then, is in no contract.
ghost use Rattle.std.specs.Prelude.{◌≡◌, ◌≢◌, ℕ, ◌+◌, ◌<◌, ◌^◌, true, slice_index, slice_set};
ghost use Rattle.key_locks.specs.Shares.{InHand, is_held};

use key_locks::{Held, KeyLocks, NamesTally, OwnShares, Share, ShareSet, Tally};
use redis_model::Stripes;
use std::marker::{Brand, PhantomData};
use std::process::Abort;
use std::sync::atomic::{AtomicU16, Ordering};
use std::sync::{Mutex, Wait};
use std::test::*;
use std::thread::{Threads, join};

/// Borrows the stripe's share, raises both counts, and gives the share back.
fn raise_one<S: ShareSet>(tally: &mut Tally, shares: &mut S, stripe: u8)
    requires table { S.table shares.old ≡ tally.old.table }
    requires held { is_held (S.at shares.old stripe) ≡ true }
    requires room { (n : ℕ) → S.at shares.old stripe ≡ InHand n → n < 2 ^ 42 }
    ensures tally { tally.new.counts ≡ slice_set tally.old.counts stripe (slice_index tally.old.counts stripe + 1) }
    ensures same { tally.new.table ≡ tally.old.table }
    ensures share { S.at shares.new stripe ≡ InHand (slice_index tally.old.counts stripe + 1) }
    ensures others { (k : ℕ) → k ≢ stripe → S.at shares.new k ≡ S.at shares.old k }
    ensures table { S.table shares.new ≡ S.table shares.old }
    ensures loans { S.loans shares.new ≡ S.loans shares.old }
{
    let Some(share) = shares.lend(stripe) else {
        unreachable!()
    };
    let share = tally.meet(share, true);
    shares.give(share);
}

#[test]
fn a_share_meets_its_book(rt: HostRuntime) -> Result<(), Fail> {
    let mut tally = Tally::new(rt.alloc())?;
    let mut own = tally.take();
    let mut only = own.only(Stripes { bits: 0x1020 });
    assert!(rt; only.holds(5) && only.holds(12) && !only.holds(6));
    assert!(rt; only.lend(6).is_none());
    raise_one(&mut tally, &mut only, 5);
    let share = only.lend(5).ok_or("held")?;
    assert!(rt; !only.holds(5));
    let share = tally.meet(share, false);
    assert_eq!(rt; share.count(), 1);
    only.give(share);
    assert_eq!(rt; own.count(5), 1);
    assert_eq!(rt; tally.count(5), 1);
    assert_eq!(rt; tally.count(12), 0);
    Ok(())
}

/// A tally under the store's lock.
#[derive(Drop)]
struct Books<N: NamesTally> {
    tally: Tally,
    of: PhantomData<N>,
    ghost named: { tally.table ≡ N.tally },
}

impl<N: NamesTally> Books<N> {
    fn new(tally: Tally) -> Books<N>
        requires { tally.table ≡ N.tally }
    {
        Books {
            tally,
            of: PhantomData,
        }
    }

    fn meet(&mut self, share: Share) -> Share
        requires table { share.table ≡ N.tally }
        requires room { share.count < 2 ^ 42 }
        ensures { result ≡ record { table = share.table; stripe = share.stripe; count = share.count + 1 } }
    {
        self.tally.meet(share, true)
    }

    fn count(&self, stripe: u8) -> u64
        requires { stripe < 16 }
    {
        self.tally.count(stripe)
    }
}

impl<N: NamesTally + 'static> Books<N> {
    /// Raises the count of a stripe whose lock is held. The count that it then has, or none where it is too large.
    fn raise(&mut self, held: &mut Held<'_, N>, stripe: u8) -> Option<u64> {
        if !held.holds(stripe) || held.count(stripe) >= 1 << 42 {
            return None;
        }
        raise_one(&mut self.tally, held, stripe);
        Some(held.count(stripe))
    }
}

/// What threads share: the locks, the books, and which stripes are held now, as the holders say.
#[derive(Drop)]
struct Shared<N: NamesTally + 'static> {
    locks: KeyLocks<N>,
    books: Mutex<Books<N>>,
    busy: AtomicU16,
}

/// Raises two stripes, whose locks are held at once. None where another one holds a lock of them.
fn raise_two<N: NamesTally + 'static, R: Wait>(
    rt: &R,
    shared: &Shared<N>,
    a: u8,
    b: u8,
) -> Option<(u64, u64)>
    requires { (a < 16) × (b < 16) }
{
    let stripes = Stripes::none().with(a).with(b);
    let mut held = shared.locks.lock(rt, stripes);
    let busy = shared.busy.fetch_or(stripes.bits, Ordering::SeqCst);
    let first = shared.books.lock(rt).raise(&mut held, a)?;
    let second = shared.books.lock(rt).raise(&mut held, b)?;
    shared.busy.fetch_and(!stripes.bits, Ordering::SeqCst);
    if busy & stripes.bits != 0 {
        return None;
    }
    Some((first, second))
}

/// Raises these two many times, named in this order. Whether their counts rose each time.
fn raise_often<N: NamesTally + 'static, R: Wait>(rt: &R, shared: &Shared<N>, a: u8, b: u8) -> bool
    requires { (a < 16) × (b < 16) }
{
    let mut last = (0, 0);
    for _ in 0..1000u32 {
        let Some(counts) = raise_two(rt, shared, a, b) else {
            return false;
        };
        if counts.0 <= last.0 || counts.1 <= last.1 {
            return false;
        }
        last = counts;
    }
    true
}

/// Two threads raise two stripes each.
fn both<N: NamesTally + Send + Sync + 'static, R: Threads + Wait + Sync>(
    rt: &R,
    shared: &Shared<N>,
    first: (u8, u8),
    second: (u8, u8),
) -> (bool, bool)
    requires first { (first.0 < 16) × (first.1 < 16) }
    requires second { (second.0 < 16) × (second.1 < 16) }
{
    join(
        rt,
        || -> bool { raise_often(rt, shared, first.0, first.1) },
        || -> bool { raise_often(rt, shared, second.0, second.1) },
    )
}

#[test]
fn holders_take_turns(rt: HostRuntime) -> Result<(), Fail> {
    let mut tally = Tally::new(rt.alloc())?;
    let shares = tally.take();
    go::<Brand, _>(&rt, tally, shares)
}

fn go<N: NamesTally + Send + Sync + 'static, R: Threads + Wait + Abort + Sync>(
    rt: &R,
    tally: Tally,
    shares: OwnShares,
) -> Result<(), Fail>
    requires tally { tally.table ≡ N.tally }
    requires shares { shares.table ≡ N.tally }
{
    let shared: Shared<N> = Shared {
        locks: KeyLocks::new(shares),
        books: Mutex::new(Books::new(tally)),
        busy: AtomicU16::new(0),
    };
    // Named from both ends: whoever comes second waits for the first, and neither for ever.
    let rose = both(rt, &shared, (0, 15), (15, 0));
    assert!(rt; rose.0 && rose.1);
    assert_eq!(rt; shared.books.lock(rt).count(0), 2000);
    assert_eq!(rt; shared.books.lock(rt).count(15), 2000);
    // Other stripes, in one row of locks and in two.
    let rose = both(rt, &shared, (5, 6), (4, 12));
    assert!(rt; rose.0 && rose.1);
    assert_eq!(rt; shared.books.lock(rt).count(5), 1000);
    assert_eq!(rt; shared.books.lock(rt).count(12), 1000);
    // All sixteen, each with its share.
    let held = shared.locks.lock_all(rt);
    assert_eq!(rt; held.count(0), 2000);
    assert_eq!(rt; held.count(4), 1000);
    assert_eq!(rt; held.count(7), 0);
    Ok(())
}

/// Raises the count of a share in hand.
fn raise_share<N: NamesTally, R: Wait>(rt: &R, books: &Mutex<Books<N>>, share: Share) -> Share
    requires table { share.table ≡ N.tally }
    requires room { share.count < 2 ^ 42 }
    ensures { result ≡ record { table = share.table; stripe = share.stripe; count = share.count + 1 } }
{
    books.lock(rt).meet(share)
}

/// Two threads get a share each, and raise its count.
fn both_shares<N: NamesTally + Send + Sync, R: Threads + Wait + Sync>(
    rt: &R,
    books: &Mutex<Books<N>>,
    a: Share,
    b: Share,
) -> (Share, Share)
    requires tables { (a.table ≡ N.tally) × (b.table ≡ N.tally) }
    requires room { (a.count < 2 ^ 42) × (b.count < 2 ^ 42) }
    ensures first { result.0 ≡ record { table = a.table; stripe = a.stripe; count = a.count + 1 } }
    ensures second { result.1 ≡ record { table = b.table; stripe = b.stripe; count = b.count + 1 } }
{
    join(
        rt,
        || -> Share
            requires { (a.table ≡ N.tally) × (a.count < 2 ^ 42) }
            ensures { result ≡ record { table = a.table; stripe = a.stripe; count = a.count + 1 } }
        { raise_share(rt, books, a) },
        || -> Share
            requires { (b.table ≡ N.tally) × (b.count < 2 ^ 42) }
            ensures { result ≡ record { table = b.table; stripe = b.stripe; count = b.count + 1 } }
        { raise_share(rt, books, b) },
    )
}

#[test]
fn shares_cross_threads(rt: HostRuntime) -> Result<(), Fail> {
    let mut tally = Tally::new(rt.alloc())?;
    let shares = tally.take();
    sent::<Brand, _>(&rt, tally, shares)
}

fn sent<N: NamesTally + Send + Sync, R: Threads + Wait + Abort + Sync>(
    rt: &R,
    tally: Tally,
    mut shares: OwnShares,
) -> Result<(), Fail>
    requires tally { tally.table ≡ N.tally }
    requires shares { shares.table ≡ N.tally }
{
    let books: Mutex<Books<N>> = Mutex::new(Books::new(tally));
    let a = shares.lend(3).ok_or("a")?;
    let b = shares.lend(7).ok_or("b")?;
    assert!(rt; a.count() == 0 && b.count() == 0);
    let (a, b) = both_shares(rt, &books, a, b);
    assert!(rt; a.stripe() == 3 && b.stripe() == 7);
    assert_eq!(rt; books.lock(rt).count(3), 1);
    assert_eq!(rt; books.lock(rt).count(7), 1);
    Ok(())
}
