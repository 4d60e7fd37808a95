//! What commands that read sorted sets answer, by the Redis command reference.

ghost use Rattle.std.specs.Prelude.{◌≡◌, IfSome};
ghost use Rattle.cmd_words.specs.Words.{AreRequestWords};
ghost use Rattle.redis_model.specs.Families.{reads_sorted_sets};
ghost use Rattle.redis_model.specs.Limits.{IsWithin};

use crate::rows::{key_of, put_member, put_sorted_set, put_text};
use crate::texts::text_of;
use cmd_words::{Parsed, parse};
use kv_base::Blobs;
use lives_model::{ListView, Plan};
use redis_model::Command;
use std::alloc::Global;
use std::test::Fail;
use test_requests::{request_of, words_of};
use zset_reads::plan_sorted_set_read;

/// The moment of all plans.
const MOMENT: u64 = 5;

/// The data command of these words, if it is one.
fn command_of(alloc: Global, words: Blobs) -> Option<Command>
    requires { AreRequestWords words }
    ensures { IfSome result IsWithin }
{
    let Ok(Parsed::Data(command)) = parse(alloc, words) else {
        return None;
    };
    Some(command)
}

fn reads_sorted_sets(command: &Command) -> bool
    ensures { result ≡ reads_sorted_sets command.now }
{
    matches!(
        command,
        Command::ZScore(_, _, _)
            | Command::ZCard(_, _)
            | Command::ZCount(_, _, _, _)
            | Command::ZRank(_, _, _)
            | Command::ZRevRank(_, _, _)
            | Command::ZRange(_, _, _, _, _)
            | Command::ZRevRange(_, _, _, _, _)
            | Command::ZRangeByScore(_, _, _, _, _, _)
    )
}

/// The plan of a command that reads a sorted set.
fn plan_of(alloc: Global, view: &mut ListView, command: &Command) -> Option<Plan>
    requires { IsWithin command.now }
{
    if reads_sorted_sets(command) {
        plan_sorted_set_read(alloc, view, MOMENT, command).ok()
    } else {
        None
    }
}

/// The plan of the command of these words.
fn planned(alloc: Global, view: &mut ListView, words: Blobs) -> Option<Plan>
    requires { AreRequestWords words }
{
    let command = command_of(alloc, words)?;
    let plan = plan_of(alloc, view, &command);
    drop(command);
    plan
}

/// What the command of a line answers.
fn answer(alloc: Global, view: &mut ListView, line: &str) -> Result<String, Fail> {
    let words = request_of(words_of(alloc, line)?).ok_or("words over the limits")?;
    let plan = planned(alloc, view, words).ok_or("no plan")?;
    if plan.batch.len() != 0 {
        return Err("a plan that writes".into());
    }
    text_of(alloc, &plan.reply)
}

/// Members and scores, not in order.
const MEMBERS: [(&str, i64); 5] = [("c", 2), ("a", 1), ("e", 10), ("d", -5), ("b", 2)];

/// A sorted set z of five members, a string s, and no key n.
fn five(alloc: Global) -> Result<ListView, Fail> {
    let mut view = ListView::new(alloc);
    let key = key_of(alloc, "z")?;
    put_sorted_set(alloc, &mut view, &key, 5)?;
    for (member, score) in MEMBERS {
        let member = key_of(alloc, member)?;
        put_member(alloc, &mut view, &key, &member, score)?;
    }
    put_text(alloc, &mut view, &key_of(alloc, "s")?)?;
    Ok(view)
}

/// Command lines and their answers.
const ANSWERS: [(&str, &str); 44] = [
    ("ZSCORE z d", "-5"),
    ("ZSCORE z x", "null"),
    ("ZSCORE n a", "null"),
    ("ZSCORE s a", "error"),
    ("ZCARD z", "5"),
    ("ZCARD n", "0"),
    ("ZCARD s", "error"),
    ("ZRANGE z 0 -1", "d a b c e"),
    ("ZRANGE z 1 2 WITHSCORES", "a 1 b 2"),
    ("ZRANGE z 3 1", ""),
    ("ZRANGE z -2 100", "c e"),
    ("ZRANGE z 5 9", ""),
    ("ZRANGE n 0 -1", ""),
    ("ZRANGE s 0 -1", "error"),
    ("ZREVRANGE z 0 -1", "e c b a d"),
    ("ZREVRANGE z 0 1 WITHSCORES", "e 10 c 2"),
    ("ZREVRANGE z -1 -1", "d"),
    ("ZREVRANGE z 3 1", ""),
    ("ZREVRANGE n 0 -1", ""),
    ("ZRANK z d", "0"),
    ("ZRANK z c", "3"),
    ("ZRANK z x", "null"),
    ("ZRANK n d", "null"),
    ("ZRANK s d", "error"),
    ("ZREVRANK z e", "0"),
    ("ZREVRANK z b", "2"),
    ("ZREVRANK z d", "4"),
    ("ZREVRANK z x", "null"),
    ("ZCOUNT z -inf +inf", "5"),
    ("ZCOUNT z 1 2", "3"),
    ("ZCOUNT z (1 2", "2"),
    ("ZCOUNT z (2 (10", "0"),
    ("ZCOUNT z +inf -inf", "0"),
    ("ZCOUNT n -inf +inf", "0"),
    ("ZCOUNT s -inf +inf", "error"),
    ("ZRANGEBYSCORE z -inf (2", "d a"),
    ("ZRANGEBYSCORE z 2 10 WITHSCORES", "b 2 c 2 e 10"),
    ("ZRANGEBYSCORE z -inf +inf LIMIT 1 2", "a b"),
    ("ZRANGEBYSCORE z -inf +inf LIMIT 3 -1", "c e"),
    ("ZRANGEBYSCORE z -inf +inf LIMIT 5 1", ""),
    ("ZRANGEBYSCORE z 1 5 LIMIT 0 0", ""),
    ("ZRANGEBYSCORE z 3 9", ""),
    ("ZRANGEBYSCORE n -inf +inf", ""),
    ("ZRANGEBYSCORE s -inf +inf", "error"),
];

#[test]
fn few_members_are_read(rt: HostRuntime) -> Result<(), Fail> {
    let mut view = five(rt.alloc())?;
    for (line, wanted) in ANSWERS {
        let answer = answer(rt.alloc(), &mut view, line)?;
        assert!(rt; answer.as_str() == wanted, "{line}: {answer}");
    }
    Ok(())
}

/// A sorted set z of 2,500 members, m00000 with the score 0 and so on.
fn many(alloc: Global) -> Result<ListView, Fail> {
    let mut view = ListView::new(alloc);
    let key = key_of(alloc, "z")?;
    put_sorted_set(alloc, &mut view, &key, 2500)?;
    for score in 0..2500_i64 {
        let text = format!(in alloc; "m{score:05}")?;
        let member = key_of(alloc, text.as_str())?;
        put_member(alloc, &mut view, &key, &member, score)?;
    }
    Ok(view)
}

/// Command lines and their answers, of 2,500 members.
const FAR_ANSWERS: [(&str, &str); 10] = [
    ("ZCOUNT z -inf +inf", "2500"),
    ("ZCOUNT z (100 2400", "2300"),
    ("ZRANK z m02499", "2499"),
    ("ZRANK z m01024", "1024"),
    ("ZREVRANK z m00000", "2499"),
    ("ZREVRANK z m01475", "1024"),
    ("ZRANGE z 1023 1025", "m01023 m01024 m01025"),
    ("ZRANGE z -2 -1", "m02498 m02499"),
    ("ZREVRANGE z 1023 1025", "m01476 m01475 m01474"),
    ("ZRANGEBYSCORE z 1000 +inf LIMIT 1023 2", "m02023 m02024"),
];

#[test]
fn members_are_read_over_pages(rt: HostRuntime) -> Result<(), Fail> {
    let mut view = many(rt.alloc())?;
    for (line, wanted) in FAR_ANSWERS {
        let answer = answer(rt.alloc(), &mut view, line)?;
        assert!(rt; answer.as_str() == wanted, "{line}: {answer}");
    }
    Ok(())
}
