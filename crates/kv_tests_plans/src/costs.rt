//! What plans ask of the rows, and how many rows they write: of collections of two sizes, so that it can be seen what
//! does not depend on the size.

ghost use Rattle.std.specs.Prelude.{IfSome};
ghost use Rattle.cmd_words.specs.Words.{AreRequestWords};
ghost use Rattle.redis_model.specs.Limits.{IsWithin};

use crate::counting::{Asked, CountingView, NOTHING};
use cmd_words::{Parsed, parse};
use kv_base::{Blob, Blobs};
use lives_model::Plan;
use multi_exec::plan;
use redis_model::Command;
use std::alloc::Global;
use std::test::Fail;
use test_requests::{request_of, words_of};

/// The moment of all plans.
pub const MOMENT: u64 = 5;

/// How many batches a test writes at most.
const MOST: u64 = 1 << 40;

/// A store in memory that commands are planned over.
#[derive(Drop)]
struct Store {
    view: CountingView,
    sequence: u64,
}

/// What one command cost: what it asked of the view, and how many rows its batch has.
type Cost = (Asked, usize);

/// The data command of these words, if it is one.
pub fn command_of(alloc: Global, words: Blobs) -> Option<Command>
    requires { AreRequestWords words }
    ensures { IfSome result IsWithin }
{
    let Ok(Parsed::Data(command)) = parse(alloc, words) else {
        return None;
    };
    Some(command)
}

/// The plan of a command, where it is one that is carried out by now.
fn plan_of(alloc: Global, store: &mut Store, command: &Command) -> Option<Plan>
    requires { IsWithin command.now }
{
    if MOST <= store.sequence {
        return None;
    }
    plan(alloc, &mut store.view, MOMENT, store.sequence, command).ok()
}

/// The plan of the command of these words.
fn planned(alloc: Global, store: &mut Store, words: Blobs) -> Option<Plan>
    requires { AreRequestWords words }
{
    let command = command_of(alloc, words)?;
    let plan = plan_of(alloc, store, &command);
    drop(command);
    plan
}

/// Plans the command of these words and writes its batch. Answers what that cost.
fn run(alloc: Global, store: &mut Store, words: Blobs) -> Result<Cost, Fail> {
    let words = request_of(words).ok_or("words over the limits")?;
    store.view.asked = NOTHING;
    let plan = planned(alloc, store, words).ok_or("no plan")?;
    store.view.write(alloc, &plan.batch)?;
    store.sequence = store.sequence.saturating_add(1);
    Ok((store.view.asked, plan.batch.len()))
}

/// The words of a command on a key, with so many elements behind it: fields with their values, or members or items alone.
pub fn words_with(
    rt: HostRuntime,
    name: &str,
    key: &str,
    size: usize,
    has_values: bool,
) -> Result<Blobs, Fail> {
    let mut words = Blobs::new(rt.alloc());
    words.push(Blob::copy(rt.alloc(), name.as_bytes())?)?;
    words.push(Blob::copy(rt.alloc(), key.as_bytes())?)?;
    for at in 0..size {
        let element = format!(in rt.alloc(); "e{at:05}")?;
        words.push(Blob::copy(rt.alloc(), element.as_bytes())?)?;
        if has_values {
            words.push(Blob::copy(rt.alloc(), b"value")?)?;
        }
    }
    Ok(words)
}

/// The words of a command that gives members scores on a key: this many, of which each has its number as its score.
fn words_with_scores(rt: HostRuntime, key: &str, size: usize) -> Result<Blobs, Fail> {
    let mut words = Blobs::new(rt.alloc());
    words.push(Blob::copy(rt.alloc(), b"ZADD")?)?;
    words.push(Blob::copy(rt.alloc(), key.as_bytes())?)?;
    for at in 0..size {
        let score = format!(in rt.alloc(); "{at}")?;
        let member = format!(in rt.alloc(); "e{at:05}")?;
        words.push(Blob::copy(rt.alloc(), score.as_bytes())?)?;
        words.push(Blob::copy(rt.alloc(), member.as_bytes())?)?;
    }
    Ok(words)
}

fn empty_store(alloc: Global) -> Store {
    Store {
        view: CountingView::new(alloc),
        sequence: 0,
    }
}

/// A store with a hash h, a list l, sets s and t, and a sorted set z of this many elements, e00000 and so on.
fn filled(rt: HostRuntime, size: usize) -> Result<Store, Fail> {
    let mut store = empty_store(rt.alloc());
    let hash = words_with(rt, "HSET", "h", size, true)?;
    run(rt.alloc(), &mut store, hash)?;
    for (name, key) in [("RPUSH", "l"), ("SADD", "s"), ("SADD", "t")] {
        let words = words_with(rt, name, key, size, false)?;
        run(rt.alloc(), &mut store, words)?;
    }
    let scores = words_with_scores(rt, "z", size)?;
    run(rt.alloc(), &mut store, scores)?;
    Ok(store)
}

/// What the command of a line costs beside collections of this size.
fn cost_of(rt: HostRuntime, size: usize, line: &str) -> Result<Cost, Fail> {
    let mut store = filled(rt, size)?;
    let words = words_of(rt.alloc(), line)?;
    run(rt.alloc(), &mut store, words)
}

/// Commands that look up single rows, one after the other over one store: how many, and how many rows they write.
const SINGLE: [(&str, u64, usize); 35] = [
    ("HGET h e00003", 2, 0),
    ("HEXISTS h f", 2, 0),
    ("HMGET h e00003 f", 3, 0),
    ("HLEN h", 1, 0),
    ("HSET h e00003 other", 2, 2),
    ("HSET h e00003 other", 2, 1),
    ("HSET h f 1", 2, 2),
    ("HINCRBY h f 1", 2, 2),
    ("HDEL h f", 2, 2),
    ("HDEL h f", 2, 0),
    ("SISMEMBER s e00003", 2, 0),
    ("SCARD s", 1, 0),
    ("SADD s f", 2, 2),
    ("SADD s f", 2, 0),
    ("SREM s f", 2, 2),
    ("SMOVE s t e00003", 4, 2),
    ("LLEN l", 1, 0),
    ("LINDEX l 3", 2, 0),
    ("LSET l 3 other", 2, 2),
    ("LPUSH l other", 1, 2),
    ("LPOP l", 2, 2),
    ("RPOP l", 2, 2),
    ("LTRIM l 1 -3", 1, 4),
    ("RPOPLPUSH l m", 3, 4),
    ("ZSCORE z e00003", 2, 0),
    ("ZCARD z", 1, 0),
    ("ZADD z 7 f", 2, 3),
    ("ZADD z 7 f", 2, 0),
    ("ZADD z 8 f", 2, 4),
    ("ZADD z NX 9 f", 2, 0),
    ("ZADD z INCR 1 f", 2, 4),
    ("ZINCRBY z 1 f", 2, 4),
    ("ZREM z f", 2, 3),
    ("ZREM z f", 2, 0),
    ("DEL h l s t z", 5, 5),
];

#[test]
fn single_rows_are_looked_up_whatever_the_size(rt: HostRuntime) -> Result<(), Fail> {
    for size in [10, 1000] {
        let mut store = filled(rt, size)?;
        for (line, lookups, rows) in SINGLE {
            let words = words_of(rt.alloc(), line)?;
            let cost = run(rt.alloc(), &mut store, words)?;
            let wanted = (Asked { lookups, ..NOTHING }, rows);
            assert!(rt; cost == wanted, "{line} beside {size}");
        }
    }
    Ok(())
}

#[test]
fn ranges_have_what_is_answered(rt: HostRuntime) -> Result<(), Fail> {
    let three = Asked {
        lookups: 1,
        ranges: 1,
        rows: 3,
    };
    assert!(rt; cost_of(rt, 10, "LRANGE l 2 4")? == (three, 0));
    assert!(rt; cost_of(rt, 1000, "LRANGE l 2 4")? == (three, 0));
    Ok(())
}

#[test]
fn whole_collections_come_in_pages(rt: HostRuntime) -> Result<(), Fail> {
    for line in ["HGETALL h", "SMEMBERS s"] {
        let pages = Asked {
            lookups: 1,
            ranges: 3,
            rows: 2500,
        };
        assert!(rt; cost_of(rt, 2500, line)? == (pages, 0), "{line}");
    }
    Ok(())
}

#[test]
fn of_sets_that_are_combined_one_is_walked(rt: HostRuntime) -> Result<(), Fail> {
    let walked = Asked {
        lookups: 1002,
        ranges: 1,
        rows: 1000,
    };
    assert!(rt; cost_of(rt, 1000, "SINTER s t")? == (walked, 0));
    assert!(rt; cost_of(rt, 1000, "SDIFF s t")? == (walked, 0));
    Ok(())
}

#[test]
fn a_large_collection_is_deleted_by_one_row(rt: HostRuntime) -> Result<(), Fail> {
    let mut store = empty_store(rt.alloc());
    let members = words_with(rt, "SADD", "s", 50000, false)?;
    let (_, rows) = run(rt.alloc(), &mut store, members)?;
    assert!(rt; rows == 50001);
    let words = words_of(rt.alloc(), "DEL s")?;
    let cost = run(rt.alloc(), &mut store, words)?;
    assert!(rt;
        cost == (
            Asked {
                lookups: 1,
                ..NOTHING
            },
            1
        )
    );
    Ok(())
}

/// Commands that walk the side of scores, one after the other over a store with a sorted set of 2,500 members, each with its
/// number as its score: how many values they look up, how many pages they ask for, how many rows these have, and how many rows
/// they write.
const WALKS: [(&str, (u64, u64, u64), usize); 14] = [
    ("ZRANK z e00000", (2, 1, 1024), 0),
    ("ZRANK z e02000", (2, 2, 2048), 0),
    ("ZREVRANK z e02000", (2, 1, 500), 0),
    ("ZRANGE z 0 9", (1, 1, 10), 0),
    ("ZRANGE z 1500 1502", (1, 2, 1503), 0),
    ("ZCOUNT z 2000 2099", (1, 1, 500), 0),
    ("ZRANGEBYSCORE z 2000 2002", (1, 1, 500), 0),
    ("ZRANGEBYSCORE z (1999 +inf LIMIT 0 3", (1, 1, 3), 0),
    ("ZREMRANGEBYSCORE z 2000 2002", (1, 1, 500), 7),
    ("ZREMRANGEBYRANK z 1500 1502", (1, 2, 1503), 7),
    ("ZREMRANGEBYRANK z 0 2", (1, 1, 3), 7),
    ("ZPOPMIN z", (1, 1, 1), 3),
    ("ZPOPMIN z 3", (1, 1, 3), 7),
    ("ZPOPMAX z 2", (1, 3, 2487), 5),
];

#[test]
fn members_by_rank_come_in_pages_from_where_they_begin(rt: HostRuntime) -> Result<(), Fail> {
    let mut store = empty_store(rt.alloc());
    let scores = words_with_scores(rt, "z", 2500)?;
    run(rt.alloc(), &mut store, scores)?;
    for (line, (lookups, ranges, rows), written) in WALKS {
        let words = words_of(rt.alloc(), line)?;
        let cost = run(rt.alloc(), &mut store, words)?;
        let asked = Asked {
            lookups,
            ranges,
            rows,
        };
        assert!(rt; cost == (asked, written), "{line}");
    }
    Ok(())
}

#[test]
fn the_lowest_member_is_taken_whatever_the_size(rt: HostRuntime) -> Result<(), Fail> {
    let first = Asked {
        lookups: 1,
        ranges: 1,
        rows: 1,
    };
    assert!(rt; cost_of(rt, 10, "ZPOPMIN z")? == (first, 3));
    assert!(rt; cost_of(rt, 1000, "ZPOPMIN z")? == (first, 3));
    Ok(())
}
