//! Callers on threads of their own, which add to one list by turns in one hall. That a turn is ever had, and what two
//! callers come to that never met, is in no contract.
ghost use Rattle.std.specs.Prelude.{◌≡◌, ◌-◌, ◌<◌, ◌++◌, ◌∷◌, [], map, IfSome, IfOk, OnErr};
ghost use mathlib.Core.List.{IsPrefix};
ghost use Rattle.turn_hall.specs.Places.{by_of};

use redis_model::{Note, Place, Step};
use std::alloc::{AllocError, Global};
use std::marker::Brand;
use std::process::Abort;
use std::sync::Wait;
use std::test::*;
use std::thread::{Threads, join, map_vec, spawn};
use turn_hall::{Hall, NamesHall, Opened, Pass, Stands, Turned};

/// Who took a turn, in the turns' order.
#[derive(Drop)]
struct Guests {
    list: Vec<u32>,
}

/// Whose turn it was, and the list as the turn left it. None where there was no memory for it: then it is as it was.
#[derive(Drop)]
struct Signed {
    by: u32,
    list: Option<Vec<u32>>,
}

impl Guests {
    fn sign(&mut self, by: u32) -> Result<Vec<u32>, AllocError>
        ensures ok { IfOk result (λ l. (l.items ≡ self.old.list.items ++ by ∷ [])
            × (self.new.list.items ≡ self.old.list.items ++ by ∷ [])) }
        ensures err { OnErr result (self.new.list.items ≡ self.old.list.items) }
    {
        let mut longer = self.list.clone()?;
        longer.push(by)?;
        self.list.push(by)?;
        Ok(longer)
    }
}

/// Names the hall, and the list with which its history begins.
trait NamesFirstGuests: NamesHall {
    ghost use Rattle.std.specs.Prelude.{ℕ, List};

    ghost first: { List ℕ };
}

impl NamesFirstGuests for Brand {
    ghost use Rattle.std.specs.Prelude.{[]};

    ghost first = { [] };
}

impl<N: NamesFirstGuests> Stands<N> for Guests {
    ghost use Rattle.std.specs.Prelude.{◌≡◌, ◌++◌, map};
    ghost use Rattle.turn_hall.specs.Places.{by_of};

    ghost stands = { λ s history. s.list.items ≡ N.first ++ map by_of history };
}

impl<N: NamesFirstGuests> Turned<(), u32, N> for Guests {
    ghost use Rattle.std.specs.Prelude.{◌≡◌, ◌++◌, ◌∷◌, [], map, IfSome, option_map};
    ghost use Rattle.turn_hall.specs.Places.{by_of};
    ghost use Rattle.redis_model.specs.declared.history.Step.TheVariants.{Tick};
    ghost use Rattle.redis_model.specs.declared.history.Note.TheVariants.{Bare};

    type Answer = Signed;

    ghost can = { λ s history number files event. event ≡ number };

    ghost made = { λ a. option_map (λ _. record { what = Tick 0 a.by; note = Bare }) a.list };

    ghost tells = { λ history files event a left.
        IfSome a.list (λ l. l.items ≡ (N.first ++ map by_of history) ++ a.by ∷ []) };

    fn play(&mut self, _files: &mut (), event: u32) -> (Signed, Option<Place>) {
        let Ok(list) = self.sign(event) else {
            return (
                Signed {
                    by: event,
                    list: None,
                },
                None,
            );
        };
        let place = Place {
            what: Step::Tick(0, event),
            note: Note::Bare,
        };
        (
            Signed {
                by: event,
                list: Some(list),
            },
            Some(place),
        )
    }
}

/// One turn. The list that the caller then has is that of what its pass has seen.
fn sign<N: NamesFirstGuests, R: Wait>(
    rt: &R,
    hall: &Hall<Guests, N>,
    pass: &mut Pass<N>,
) -> Option<Vec<u32>>
    ensures list { IfSome result (λ l. l.items ≡ N.first ++ map by_of pass.new.seen) }
    ensures same { (pass.new.number ≡ pass.old.number) × (pass.new.free ≡ pass.old.free) }
    ensures begins { IsPrefix pass.old.seen pass.new.seen }
{
    let by = pass.number();
    hall.turn(rt, pass, &mut (), by).list
}

/// One turn, by a pass that is the thread's own.
fn sign_once<N: NamesFirstGuests, R: Wait>(
    rt: &R,
    hall: &Hall<Guests, N>,
    mut pass: Pass<N>,
) -> Pass<N>
    ensures same { (result.number ≡ pass.number) × (result.free ≡ pass.free) }
    ensures begins { IsPrefix pass.seen result.seen }
{
    sign(rt, hall, &mut pass);
    pass
}

/// Two callers take a turn each, on threads of their own. Both histories begin the one that is seen in the end.
fn both<N: NamesFirstGuests + Send + Sync, R: Threads + Wait + Sync>(
    rt: &R,
    hall: &Hall<Guests, N>,
    first: Pass<N>,
    second: Pass<N>,
) -> Pass<N>
    ensures same { (result.number ≡ first.number) × (result.free ≡ first.free) }
    ensures first { IsPrefix first.seen result.seen }
    ensures second { IsPrefix second.seen result.seen }
{
    let (mut first, second) = join(
        rt,
        || -> Pass<N>
            ensures { (result.number ≡ first.number) × (result.free ≡ first.free)
                × IsPrefix first.seen result.seen }
        { sign_once(rt, hall, first) },
        || -> Pass<N>
            ensures { IsPrefix second.seen result.seen }
        { sign_once(rt, hall, second) },
    );
    hall.join(&mut first, second);
    first
}

/// A pass goes into a thread, and comes back when that is joined. None where no thread could be made.
fn there_and_back<N: NamesHall + Send + Sync + 'static, R: Threads>(
    rt: &R,
    pass: Pass<N>,
) -> Option<Pass<N>> {
    let child = spawn(rt, move || pass).ok()?;
    Some(child.join(rt))
}

/// Fifty turns. The list as the last of them left it, or none where a list did not begin with the one before it, or
/// memory ran out.
fn sign_often<N: NamesFirstGuests, R: Wait>(
    rt: &R,
    hall: &Hall<Guests, N>,
    mut pass: Pass<N>,
) -> (Pass<N>, Option<Vec<u32>>) {
    let mut last: Option<Vec<u32>> = None;
    for _ in 0..50u32 {
        let list = sign(rt, hall, &mut pass);
        if !begins(&last, &list) {
            return (pass, None);
        }
        last = list;
    }
    (pass, last)
}

/// Whether the one list is there and begins with the other, if that is there.
fn begins(before: &Option<Vec<u32>>, list: &Option<Vec<u32>>) -> bool {
    match (before, list) {
        (Some(before), Some(list)) => list.starts_with(before),
        (None, Some(_)) => true,
        _ => false,
    }
}

#[test]
fn many_callers_add_to_one_list(rt: HostRuntime) -> Result<(), Fail> {
    let guests = Guests {
        list: vec![in rt.alloc(); 1, 2, 3]?,
    };
    let opened = Opened::new(rt.alloc(), guests)?;
    go::<Brand, _>(&rt, rt.alloc(), opened)
}

/// What a caller has in the end: its pass, and the list as its last turn left it.
type Caller<N> = (Pass<N>, Option<Vec<u32>>);

/// Four callers take their turns, each on a thread of its own.
fn many<N: NamesFirstGuests + Send + Sync, R: Threads + Wait + Sync>(
    rt: &R,
    alloc: Global,
    hall: &Hall<Guests, N>,
    first: &mut Pass<N>,
) -> Result<Vec<Caller<N>>, AllocError>
    requires { 4 < first.old.free }
    ensures number { first.new.number ≡ first.old.number }
    ensures free { first.new.free ≡ first.old.free - 4 }
{
    let passes = vec![in alloc;
        hall.split(first),
        hall.split(first),
        hall.split(first),
        hall.split(first),
    ]?;
    map_vec(rt, passes, &|pass| sign_often(rt, hall, pass))
}

/// Each list begins the list in the end, and has each turn of its caller.
fn compare<N: NamesFirstGuests, R: Abort>(
    rt: &R,
    all: &[u32],
    callers: &[Caller<N>],
) -> Result<(), Fail> {
    for (pass, list) in callers {
        let list = list.as_ref().ok_or("a list")?;
        let mine = list.iter().filter(|by| **by == pass.number()).count();
        assert!(rt; all.starts_with(list) && mine == 50);
    }
    Ok(())
}

fn go<N: NamesFirstGuests + Send + Sync + 'static, R: Threads + Wait + Abort + Sync>(
    rt: &R,
    alloc: Global,
    opened: Opened<Guests>,
) -> Result<(), Fail>
    requires name { opened.table ≡ N.hall }
    requires first { opened.state.list.items ≡ N.first }
{
    let (hall, mut first) = opened.named::<N>();
    let second = hall.split(&mut first);
    assert!(rt; first.number() == 0 && second.number() == u32::MAX);
    let mut first = both(rt, &hall, first, second);
    let callers = many(rt, alloc, &hall, &mut first);
    let back = there_and_back(rt, hall.split(&mut first));
    let (guests, last) = hall.end_with(first);
    assert_eq!(rt; back.ok_or("a thread")?.number(), u32::MAX - 5);
    assert!(rt; last.number() == 0 && guests.list.len() == 205);
    compare(rt, &guests.list, &callers?)
}
