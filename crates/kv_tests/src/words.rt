//! Words that no transcript shows: of commands on sorted sets, and of what is no data command.
//! A case is a line, whose words are parted by one space, and what is wanted of it.

use cmd_words::{Parsed, parse};
use redis_model::Upkeep;
use std::alloc::Global;
use std::test::Fail;
use test_requests::{request_of, words_of};

/// What the words of the line are read into, in a word.
fn outcome_of(alloc: Global, line: &str) -> Result<&'static str, Fail> {
    let words = words_of(alloc, line)?;
    let words = request_of(words).ok_or("words over the limits")?;
    let parsed = parse(alloc, words).ok().ok_or("a fault")?;
    let outcome = name_of(&parsed);
    drop(parsed);
    Ok(outcome)
}

fn name_of(parsed: &Parsed) -> &'static str {
    match parsed {
        Parsed::Data(_) => "data",
        Parsed::Multi => "multi",
        Parsed::Exec => "exec",
        Parsed::Discard => "discard",
        Parsed::Quit => "quit",
        Parsed::Pin => "pin",
        Parsed::Unpin => "unpin",
        Parsed::Upkeep(Upkeep::Flush) => "flush",
        Parsed::Upkeep(Upkeep::Compact(None)) => "compact",
        Parsed::Upkeep(Upkeep::Compact(Some(3))) => "compact 3",
        Parsed::Upkeep(Upkeep::Compact(Some(_))) => "compact another",
        Parsed::Upkeep(Upkeep::Levels) => "levels",
    }
}

/// Commands on sorted sets: with the fewest words that each takes, and with its options.
const DATA: &str = "ZADD k 1 m -2.0 n, ZADD k NX 1 m, ZADD k nx nx ch 1 m 2 n, ZADD k xx incr 1 m, \
    ZADD k 1 nx, ZREM k m n, ZSCORE k m, ZCARD k, ZCOUNT k -inf +INF, ZRANK k m, ZREVRANK k m, \
    ZRANGE k 0 -1, ZRANGE k 0 1 WITHSCORES, ZREVRANGE k 0 1 withscores, ZRANGEBYSCORE k (1 2, \
    ZRANGEBYSCORE k 0 1 WITHSCORES, ZRANGEBYSCORE k 0 1 LIMIT 0 -1, \
    ZRANGEBYSCORE k 0 1 LIMIT -1 1 WITHSCORES, ZRANGEBYSCORE k 0 1 withscores limit 0 1, ZINCRBY k +7 m, \
    ZREMRANGEBYRANK k 0 1, ZREMRANGEBYSCORE k (inf 1., ZPOPMIN k, ZPOPMIN k 0, ZPOPMAX k 2";

/// What is no data command, and what each line is read into.
const OTHERS: [(&str, &str); 11] = [
    ("MULTI", "multi"),
    ("exec", "exec"),
    ("Discard", "discard"),
    ("QUIT", "quit"),
    ("KVR PIN", "pin"),
    ("kvr unpin", "unpin"),
    ("kvr Flush", "flush"),
    ("KVR COMPACT", "compact"),
    ("KVR COMPACT 0", "compact another"),
    ("kvr compact 3", "compact 3"),
    ("KVR LEVELS", "levels"),
];

#[test]
fn words_are_read_into_what_they_ask_for(rt: HostRuntime) -> Result<(), Fail> {
    for line in DATA.split(", ") {
        assert_eq!(rt; outcome_of(rt.alloc(), line)?, "data", "at {line}");
    }
    for (line, wanted) in OTHERS {
        assert_eq!(rt; outcome_of(rt.alloc(), line)?, wanted, "at {line}");
    }
    Ok(())
}
