//! Transactions: what their commands answer together, and what they ask of the rows.

ghost use Rattle.std.specs.Prelude.{IfOk, IfSome};
ghost use Rattle.redis_model.specs.declared.command.Cmds.TheVariants.{Many};
ghost use Rattle.redis_model.specs.Limits.{IsWithin};
ghost use Rattle.lives_model.specs.Plans.{AreAsked};

use crate::costs::{MOMENT, command_of, words_with};
use crate::counting::{Asked, CountingView, NOTHING};
use kv_base::{Blobs, NoMem, StoreFault};
use lives_model::Plan;
use multi_exec::plan_all;
use redis_model::{Command, Commands, Reply};
use std::alloc::Global;
use std::test::Fail;
use test_requests::{request_of, words_of};

/// The last sequence of the rows.
const BASE: u64 = 7;

/// How much the commands of a transaction weigh together at most, here.
const MOST_WEIGHT: u64 = 1 << 23;

/// The data command of a request, if it is one.
fn command_in(alloc: Global, words: Blobs) -> Option<Command>
    ensures { IfSome result IsWithin }
{
    let words = request_of(words)?;
    command_of(alloc, words)
}

/// The commands of these requests, where they are data commands within the limits of a transaction.
fn transaction_of(alloc: Global, requests: Vec<Blobs>) -> Result<Option<Commands>, NoMem>
    ensures { IfOk result (λ found. IfSome found (λ commands. AreAsked (Many commands))) }
{
    let mut commands = Commands::new(alloc);
    let mut weight = 0;
    for words in requests {
        let Some(asked) = command_in(alloc, words) else {
            return Ok(None);
        };
        let command = asked.due(MOMENT);
        let more = command.weight();
        if commands.len() >= 1024 || MOST_WEIGHT - weight < more {
            return Ok(None);
        }
        commands.push(command)?;
        weight += more;
    }
    Ok(Some(commands))
}

/// The requests of lines that are one line so many times.
fn repeated(rt: HostRuntime, line: &str, count: usize) -> Result<Vec<Blobs>, Fail> {
    let mut requests = Vec::new(rt.alloc());
    for _ in 0..count {
        requests.push(words_of(rt.alloc(), line)?)?;
    }
    Ok(requests)
}

/// The plan of the transaction of these requests. What was asked of the view before it is not counted.
fn planned(
    alloc: Global,
    view: &mut CountingView,
    requests: Vec<Blobs>,
) -> Result<Option<Plan>, StoreFault> {
    let Some(commands) = transaction_of(alloc, requests)? else {
        return Ok(None);
    };
    view.asked = NOTHING;
    let plan = plan_all(alloc, view, MOMENT, BASE, &commands)?;
    Ok(Some(plan))
}

/// The replies of a plan.
fn replies(plan: &Plan) -> &[Reply] {
    match &plan.reply {
        Reply::Array(replies) => replies.as_slice(),
        _ => &[],
    }
}

/// Is this the number that is replied at a place?
fn is_number(plan: &Plan, place: usize, number: i64) -> bool {
    match replies(plan).get(place) {
        Some(Reply::Int(n)) => *n == number,
        _ => false,
    }
}

/// Are these the bytes that are replied at a place?
fn is_text(plan: &Plan, place: usize, text: &str) -> bool {
    match replies(plan).get(place) {
        Some(Reply::Bulk(bytes)) => bytes.bytes() == text.as_bytes(),
        _ => false,
    }
}

/// So many lookups, and no range.
fn lookups(count: u64) -> Asked {
    Asked {
        lookups: count,
        ..NOTHING
    }
}

#[test]
fn a_key_that_no_command_sets_is_looked_up_once_for_each(rt: HostRuntime) -> Result<(), Fail> {
    let mut view = CountingView::new(rt.alloc());
    let requests = repeated(rt, "GET k", 1024)?;
    let plan = planned(rt.alloc(), &mut view, requests)?.ok_or("no plan")?;
    assert!(rt; view.asked == lookups(1024));
    assert!(rt; plan.batch.is_empty());
    assert!(rt; replies(&plan).len() == 1024);
    Ok(())
}

#[test]
fn a_key_that_each_command_sets_is_looked_up_once(rt: HostRuntime) -> Result<(), Fail> {
    let mut view = CountingView::new(rt.alloc());
    let requests = repeated(rt, "INCR n", 1024)?;
    let plan = planned(rt.alloc(), &mut view, requests)?.ok_or("no plan")?;
    assert!(rt; view.asked == lookups(1));
    assert!(rt; plan.batch.len() == 1);
    assert!(rt; is_number(&plan, 1023, 1024));
    Ok(())
}

/// Keys k511 down to k0 are set to 0, 1 and so on, and read from k0 on.
fn set_and_read(rt: HostRuntime) -> Result<Vec<Blobs>, Fail> {
    let mut requests = Vec::new(rt.alloc());
    for at in 0..512_u64 {
        let line = format!(in rt.alloc(); "SET k{} {at}", 511 - at)?;
        requests.push(words_of(rt.alloc(), &line)?)?;
    }
    for at in 0..512 {
        let line = format!(in rt.alloc(); "GET k{at}")?;
        requests.push(words_of(rt.alloc(), &line)?)?;
    }
    Ok(requests)
}

#[test]
fn keys_that_were_set_are_not_looked_up_again(rt: HostRuntime) -> Result<(), Fail> {
    let mut view = CountingView::new(rt.alloc());
    let requests = set_and_read(rt)?;
    let plan = planned(rt.alloc(), &mut view, requests)?.ok_or("no plan")?;
    assert!(rt; view.asked == lookups(512));
    assert!(rt; plan.batch.len() == 512);
    assert!(rt; is_text(&plan, 512, "511"));
    assert!(rt; is_text(&plan, 1023, "0"));
    Ok(())
}

/// What begins a set s, a hash h and a list l: a command, its key, and whether each element has a value.
const BEGINNINGS: [(&str, &str, bool); 3] = [
    ("SADD", "s", false),
    ("HSET", "h", true),
    ("RPUSH", "l", false),
];

/// What is read of them then. The hash is deleted and begun again.
const READINGS: [&str; 7] = [
    "SCARD s",
    "HLEN h",
    "LINDEX l 2",
    "DEL h",
    "HSET h f 1",
    "HLEN h",
    "HGET h f",
];

/// A set, a hash and a list are begun with this many elements each, and read.
fn begun(rt: HostRuntime, size: usize) -> Result<Vec<Blobs>, Fail> {
    let mut requests = Vec::new(rt.alloc());
    for (name, key, has_values) in BEGINNINGS {
        requests.push(words_with(rt, name, key, size, has_values)?)?;
    }
    for line in READINGS {
        requests.push(words_of(rt.alloc(), line)?)?;
    }
    Ok(requests)
}

#[test]
fn collections_of_some_and_of_many_rows_are_begun_together(rt: HostRuntime) -> Result<(), Fail> {
    for (size, count) in [(10, 10), (1000, 1000)] {
        let mut view = CountingView::new(rt.alloc());
        let requests = begun(rt, size)?;
        let plan = planned(rt.alloc(), &mut view, requests)?.ok_or("no plan")?;
        assert!(rt; is_number(&plan, 3, count));
        assert!(rt; is_number(&plan, 4, count));
        assert!(rt; is_text(&plan, 5, "e00002"));
        assert!(rt; is_number(&plan, 8, 1));
        assert!(rt; is_text(&plan, 9, "1"));
        assert!(rt; plan.batch.len() == 3 * size + 4);
    }
    Ok(())
}
