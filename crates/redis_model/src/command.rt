ghost use Rattle.std.specs.Prelude.{◌≡◌};
ghost use Rattle.redis_model.specs.About.{writes, weight};
ghost use Rattle.redis_model.specs.Apply.{due, due_time};
ghost use Rattle.redis_model.specs.Limits.{HasDueTime, CanBeDue};

use kv_base::{Blob, Blobs, Items, Key, Keys};

/// The greatest reading of the clock, in milliseconds since the start of 1970: a later one counts as this one. The cap
/// is this server's own; with it a deadline always fits 64 bits.
pub const MAX_READING: u64 = 1 << 61;

/// Where SET may write its key, and ZADD its members (Redis command reference, SET and ZADD).
#[derive(Clone, Copy, Debug, PartialEq, Eq)]
pub enum When {
    /// Without NX and XX: it is there or not.
    Any,
    /// NX: only where it is not there.
    IfAbsent,
    /// XX: only where it is there.
    IfPresent,
}

/// What a command does with a key's deadline, in milliseconds (Redis command reference, SET and EXPIRE).
#[derive(Clone, Copy, Debug, PartialEq, Eq)]
pub enum Expiry {
    /// The key has no deadline afterwards.
    None,
    /// KEEPTTL: the deadline stays.
    Keep,
    /// EX, PX, EXPIRE and PEXPIRE: that long after the reading of the clock, from -2^61 to 2^61. `Command::due` makes
    /// a deadline of it.
    After(i64),
    /// EXPIREAT and PEXPIREAT: the deadline itself. One below 0 counts as 0 (this server's own).
    At(i64),
}

/// An end of a range of scores (Redis command reference, ZRANGEBYSCORE).
#[derive(Clone, Copy, Debug, PartialEq, Eq)]
pub enum Bound {
    /// `-inf`, below each score.
    Least,
    /// `+inf`, above each score.
    Greatest,
    /// A score that is counted in.
    Closed(i64),
    /// `(` and a score, which is left out.
    Past(i64),
}

/// An end of a list (Redis command reference, LMOVE).
#[derive(Clone, Copy, Debug, PartialEq, Eq)]
pub enum End {
    /// The first element's.
    Left,
    /// The last element's.
    Right,
}

/// LIMIT of ZRANGEBYSCORE (Redis command reference).
#[derive(Clone, Copy, Debug, PartialEq, Eq)]
pub struct Limit {
    /// How many members are passed over. A negative number gives none at all (this server's own).
    pub offset: i64,
    /// How many members follow at most. A negative number means all.
    pub count: i64,
}

/// The options of ZADD (Redis command reference).
#[derive(Clone, Copy, Debug, PartialEq, Eq)]
pub struct ZAddHow {
    /// NX and XX.
    pub when: When,
    /// CH: members that changed their score are counted too.
    pub changed: bool,
    /// INCR: the score is added to the member's, and there is one pair.
    pub incr: bool,
}

/// A list of scores, whole numbers from -2^53 to 2^53 (the range is this server's own).
pub type Scores = Items<i64>;

/// A data command, one variant for each. The fields stand in the order of the words, then those of options, and last the
/// weight. Names and answers are those of the Redis command reference; what stands as this server's own differs there,
/// or is left open there. Each command answers an error in place of what is said here where a key holds another type, a
/// text is no number, or a result is out of range; then no key changes.
#[derive(Drop)]
pub enum Command {
    // No keys.
    /// `PING [value]`: Pong, or the value as a bulk.
    Ping(Option<Blob>, u64),
    /// `ECHO value`: the value as a bulk.
    Echo(Blob, u64),
    /// `SELECT number`: Ok. There is one database, and its number is 0 (this server's own).
    Select(i64, u64),
    // Strings.
    /// `GET key`: the string, or null.
    Get(Key, u64),
    /// `SET key value [NX or XX] [EX seconds, PX milliseconds or KEEPTTL]`: Ok, over a value of any type; null where
    /// NX finds the key or XX does not.
    Set(Key, Blob, When, Expiry, u64),
    /// `SETNX key value`: 1, or 0 where the key is there.
    SetNx(Key, Blob, u64),
    /// `SETEX key seconds value`: Ok.
    SetEx(Key, Expiry, Blob, u64),
    /// `PSETEX key milliseconds value`: Ok.
    PSetEx(Key, Expiry, Blob, u64),
    /// `GETSET key value`: the old string, or null. The deadline goes.
    GetSet(Key, Blob, u64),
    /// `GETDEL key`: the string, or null. The key goes.
    GetDel(Key, u64),
    /// `MGET key ..`: for each key its string, or null, also where it holds another type.
    MGet(Keys, u64),
    /// `MSET key value ..`: Ok. Of a key that comes twice the last value holds.
    MSet(Keys, Blobs, u64),
    /// `APPEND key value`: the new length.
    Append(Key, Blob, u64),
    /// `STRLEN key`: the length, 0 for no key.
    StrLen(Key, u64),
    /// `GETRANGE key first last`: the bytes between two places, both counted in.
    GetRange(Key, i64, i64, u64),
    /// `INCR key`: the new number.
    Incr(Key, u64),
    /// `DECR key`: the new number.
    Decr(Key, u64),
    /// `INCRBY key amount`: the new number.
    IncrBy(Key, i64, u64),
    /// `DECRBY key amount`: the new number. The amount is not -2^63 (this server's own).
    DecrBy(Key, i64, u64),
    // Keys.
    /// `DEL key ..`: the number of keys that go.
    Del(Keys, u64),
    /// `EXISTS key ..`: the number of keys that are there; one that comes twice counts twice.
    Exists(Keys, u64),
    /// `TYPE key`: the word for the type, or for none.
    TypeOf(Key, u64),
    /// `EXPIRE key seconds`: 1, or 0 for no key.
    Expire(Key, Expiry, u64),
    /// `PEXPIRE key milliseconds`: 1, or 0 for no key.
    PExpire(Key, Expiry, u64),
    /// `EXPIREAT key seconds`: 1, or 0 for no key. The time counts from the start of 1970.
    ExpireAt(Key, Expiry, u64),
    /// `PEXPIREAT key milliseconds`: 1, or 0 for no key. The time counts from the start of 1970.
    PExpireAt(Key, Expiry, u64),
    /// `TTL key`: the time left to the nearest second, -1 for no deadline, -2 for no key.
    Ttl(Key, u64),
    /// `PTTL key`: the same in milliseconds.
    PTtl(Key, u64),
    /// `PERSIST key`: 1 where a deadline goes, else 0.
    Persist(Key, u64),
    // Hashes.
    /// `HSET key field value ..`: the number of new fields. The lists are of one length.
    HSet(Key, Blobs, Blobs, u64),
    /// `HSETNX key field value`: 1, or 0 where the field is there.
    HSetNx(Key, Blob, Blob, u64),
    /// `HGET key field`: the value, or null.
    HGet(Key, Blob, u64),
    /// `HMGET key field ..`: for each field its value, or null.
    HMGet(Key, Blobs, u64),
    /// `HDEL key field ..`: the number of fields that go.
    HDel(Key, Blobs, u64),
    /// `HLEN key`: the number of fields.
    HLen(Key, u64),
    /// `HEXISTS key field`: 1 or 0.
    HExists(Key, Blob, u64),
    /// `HSTRLEN key field`: the length of the field's value, 0 for none.
    HStrLen(Key, Blob, u64),
    /// `HGETALL key`: each field and its value, by the fields' bytes (an order that Redis leaves open).
    HGetAll(Key, u64),
    /// `HKEYS key`: the fields in that order.
    HKeys(Key, u64),
    /// `HVALS key`: the values in that order.
    HVals(Key, u64),
    /// `HINCRBY key field amount`: the new number.
    HIncrBy(Key, Blob, i64, u64),
    // Lists.
    /// `LPUSH key element ..`: the new length. The elements go to the front, one after the other.
    LPush(Key, Blobs, u64),
    /// `RPUSH key element ..`: the new length. The elements go to the end, one after the other.
    RPush(Key, Blobs, u64),
    /// `LPUSHX key element ..`: as LPUSH, but 0 for no key.
    LPushX(Key, Blobs, u64),
    /// `RPUSHX key element ..`: as RPUSH, but 0 for no key.
    RPushX(Key, Blobs, u64),
    /// `LPOP key`: the first element, or null.
    LPop(Key, u64),
    /// `RPOP key`: the last element, or null.
    RPop(Key, u64),
    /// `LLEN key`: the number of elements.
    LLen(Key, u64),
    /// `LINDEX key place`: the element, or null. A negative place counts from the end.
    LIndex(Key, i64, u64),
    /// `LSET key place element`: Ok.
    LSet(Key, i64, Blob, u64),
    /// `LRANGE key first last`: the elements between two places, both counted in.
    LRange(Key, i64, i64, u64),
    /// `LTRIM key first last`: Ok. The elements outside go.
    LTrim(Key, i64, i64, u64),
    /// `RPOPLPUSH source destination`: the moved element, or null.
    RPopLPush(Key, Key, u64),
    /// `LMOVE source destination LEFT|RIGHT LEFT|RIGHT`: the moved element, or null.
    LMove(Key, Key, End, End, u64),
    // Sets.
    /// `SADD key member ..`: the number of new members.
    SAdd(Key, Blobs, u64),
    /// `SREM key member ..`: the number of members that go.
    SRem(Key, Blobs, u64),
    /// `SISMEMBER key member`: 1 or 0.
    SIsMember(Key, Blob, u64),
    /// `SMISMEMBER key member ..`: for each member 1 or 0.
    SMIsMember(Key, Blobs, u64),
    /// `SCARD key`: the number of members.
    SCard(Key, u64),
    /// `SMEMBERS key`: the members by their bytes (an order that Redis leaves open).
    SMembers(Key, u64),
    /// `SMOVE source destination member`: 1, or 0 where the source does not have it.
    SMove(Key, Key, Blob, u64),
    /// `SINTER key ..`: what is in each set, by bytes.
    SInter(Keys, u64),
    /// `SUNION key ..`: what is in one set at least, by bytes.
    SUnion(Keys, u64),
    /// `SDIFF key ..`: what is in the first set and in no other, by bytes.
    SDiff(Keys, u64),
    /// `SINTERSTORE destination key ..`: the number of members that it stores.
    SInterStore(Key, Keys, u64),
    /// `SUNIONSTORE destination key ..`: the number of members that it stores.
    SUnionStore(Key, Keys, u64),
    /// `SDIFFSTORE destination key ..`: the number of members that it stores.
    SDiffStore(Key, Keys, u64),
    // Sorted sets.
    /// `ZADD key [NX, XX, CH, INCR ..] score member ..`: the number of members that were added, with CH those that
    /// changed too; with INCR the new score, or null. The lists are of one length.
    ZAdd(Key, Scores, Blobs, ZAddHow, u64),
    /// `ZREM key member ..`: the number of members that go.
    ZRem(Key, Blobs, u64),
    /// `ZSCORE key member`: the score as a bulk, or null.
    ZScore(Key, Blob, u64),
    /// `ZCARD key`: the number of members.
    ZCard(Key, u64),
    /// `ZCOUNT key low high`: the number of members whose score lies between two bounds.
    ZCount(Key, Bound, Bound, u64),
    /// `ZRANK key member`: its place from 0, lowest first, or null.
    ZRank(Key, Blob, u64),
    /// `ZREVRANK key member`: its place from 0, highest first, or null.
    ZRevRank(Key, Blob, u64),
    /// `ZRANGE key first last [WITHSCORES]`: the members between two places, lowest first.
    ZRange(Key, i64, i64, bool, u64),
    /// `ZREVRANGE key first last [WITHSCORES]`: the members between two places, highest first.
    ZRevRange(Key, i64, i64, bool, u64),
    /// `ZRANGEBYSCORE key low high [WITHSCORES] [LIMIT offset count]`: the members between two bounds, lowest first.
    ZRangeByScore(Key, Bound, Bound, bool, Option<Limit>, u64),
    /// `ZINCRBY key amount member`: the new score as a bulk.
    ZIncrBy(Key, i64, Blob, u64),
    /// `ZREMRANGEBYRANK key first last`: the number of members that go.
    ZRemRangeByRank(Key, i64, i64, u64),
    /// `ZREMRANGEBYSCORE key low high`: the number of members that go.
    ZRemRangeByScore(Key, Bound, Bound, u64),
    /// `ZPOPMIN key [count]`: the lowest members and their scores; one where there is no count. The count is not
    /// negative.
    ZPopMin(Key, Option<i64>, u64),
    /// `ZPOPMAX key [count]`: the highest members and their scores; one where there is no count. The count is not
    /// negative.
    ZPopMax(Key, Option<i64>, u64),
}

impl Command {
    /// Whether it may change a key. Of a command that answers false, no moment and no map makes a change.
    pub fn writes(&self) -> bool
        ensures { result ≡ writes self.now }
    {
        match self {
            Command::Ping(_, _)
            | Command::Echo(_, _)
            | Command::Select(_, _)
            | Command::Get(_, _)
            | Command::MGet(_, _)
            | Command::StrLen(_, _)
            | Command::GetRange(_, _, _, _)
            | Command::Exists(_, _)
            | Command::TypeOf(_, _)
            | Command::Ttl(_, _)
            | Command::PTtl(_, _)
            | Command::HGet(_, _, _)
            | Command::HMGet(_, _, _)
            | Command::HLen(_, _)
            | Command::HExists(_, _, _)
            | Command::HStrLen(_, _, _)
            | Command::HGetAll(_, _)
            | Command::HKeys(_, _)
            | Command::HVals(_, _)
            | Command::LLen(_, _)
            | Command::LIndex(_, _, _)
            | Command::LRange(_, _, _, _)
            | Command::SIsMember(_, _, _)
            | Command::SMIsMember(_, _, _)
            | Command::SCard(_, _)
            | Command::SMembers(_, _)
            | Command::SInter(_, _)
            | Command::SUnion(_, _)
            | Command::SDiff(_, _)
            | Command::ZScore(_, _, _)
            | Command::ZCard(_, _)
            | Command::ZCount(_, _, _, _)
            | Command::ZRank(_, _, _)
            | Command::ZRevRank(_, _, _)
            | Command::ZRange(_, _, _, _, _)
            | Command::ZRevRange(_, _, _, _, _)
            | Command::ZRangeByScore(_, _, _, _, _, _) => false,
            _ => true,
        }
    }

    /// The sum of the length and 16 over the words that it was read from: what a request and a transaction may hold
    /// is limited by it (this server's own).
    pub fn weight(&self) -> u64
        ensures { result ≡ weight self.now }
    {
        match self {
            Command::Ping(_, w)
            | Command::Echo(_, w)
            | Command::Select(_, w)
            | Command::Get(_, w)
            | Command::Set(_, _, _, _, w)
            | Command::SetNx(_, _, w)
            | Command::SetEx(_, _, _, w)
            | Command::PSetEx(_, _, _, w)
            | Command::GetSet(_, _, w)
            | Command::GetDel(_, w)
            | Command::MGet(_, w)
            | Command::MSet(_, _, w)
            | Command::Append(_, _, w)
            | Command::StrLen(_, w)
            | Command::GetRange(_, _, _, w)
            | Command::Incr(_, w)
            | Command::Decr(_, w)
            | Command::IncrBy(_, _, w)
            | Command::DecrBy(_, _, w)
            | Command::Del(_, w)
            | Command::Exists(_, w)
            | Command::TypeOf(_, w)
            | Command::Expire(_, _, w)
            | Command::PExpire(_, _, w)
            | Command::ExpireAt(_, _, w)
            | Command::PExpireAt(_, _, w)
            | Command::Ttl(_, w)
            | Command::PTtl(_, w)
            | Command::Persist(_, w)
            | Command::HSet(_, _, _, w)
            | Command::HSetNx(_, _, _, w)
            | Command::HGet(_, _, w)
            | Command::HMGet(_, _, w)
            | Command::HDel(_, _, w)
            | Command::HLen(_, w)
            | Command::HExists(_, _, w)
            | Command::HStrLen(_, _, w)
            | Command::HGetAll(_, w)
            | Command::HKeys(_, w)
            | Command::HVals(_, w)
            | Command::HIncrBy(_, _, _, w)
            | Command::LPush(_, _, w)
            | Command::RPush(_, _, w)
            | Command::LPushX(_, _, w)
            | Command::RPushX(_, _, w)
            | Command::LPop(_, w)
            | Command::RPop(_, w)
            | Command::LLen(_, w)
            | Command::LIndex(_, _, w)
            | Command::LSet(_, _, _, w)
            | Command::LRange(_, _, _, w)
            | Command::LTrim(_, _, _, w)
            | Command::RPopLPush(_, _, w)
            | Command::LMove(_, _, _, _, w)
            | Command::SAdd(_, _, w)
            | Command::SRem(_, _, w)
            | Command::SIsMember(_, _, w)
            | Command::SMIsMember(_, _, w)
            | Command::SCard(_, w)
            | Command::SMembers(_, w)
            | Command::SMove(_, _, _, w)
            | Command::SInter(_, w)
            | Command::SUnion(_, w)
            | Command::SDiff(_, w)
            | Command::SInterStore(_, _, w)
            | Command::SUnionStore(_, _, w)
            | Command::SDiffStore(_, _, w)
            | Command::ZAdd(_, _, _, _, w)
            | Command::ZRem(_, _, w)
            | Command::ZScore(_, _, w)
            | Command::ZCard(_, w)
            | Command::ZCount(_, _, _, w)
            | Command::ZRank(_, _, w)
            | Command::ZRevRank(_, _, w)
            | Command::ZRange(_, _, _, _, w)
            | Command::ZRevRange(_, _, _, _, w)
            | Command::ZRangeByScore(_, _, _, _, _, w)
            | Command::ZIncrBy(_, _, _, w)
            | Command::ZRemRangeByRank(_, _, _, w)
            | Command::ZRemRangeByScore(_, _, _, w)
            | Command::ZPopMin(_, _, w)
            | Command::ZPopMax(_, _, w) => *w,
        }
    }

    /// The command at a reading of the clock, in milliseconds: an amount of time becomes the deadline that lies that
    /// far behind the reading, which counts as at most `MAX_READING`. All else stays as it is.
    pub fn due(mut self, now: u64) -> Command
        requires { HasDueTime self }
        ensures { result ≡ due now self }
    {
        self.fall_due(now);
        self
    }

    /// `due` in place, which moves no command.
    pub fn fall_due(&mut self, now: u64)
        requires { HasDueTime self.old }
        ensures { self.new ≡ due now self.old }
    {
        match self {
            Command::Set(_, _, _, expiry, _) => *expiry = expiry.due(now),
            Command::SetEx(_, expiry, _, _) => *expiry = expiry.due(now),
            Command::PSetEx(_, expiry, _, _) => *expiry = expiry.due(now),
            Command::Expire(_, expiry, _) => *expiry = expiry.due(now),
            Command::PExpire(_, expiry, _) => *expiry = expiry.due(now),
            Command::ExpireAt(_, expiry, _) => *expiry = expiry.due(now),
            Command::PExpireAt(_, expiry, _) => *expiry = expiry.due(now),
            _ => {}
        }
    }
}

impl Expiry {
    /// An amount of time becomes a deadline, and all else stays as it is.
    fn due(self, now: u64) -> Expiry
        requires { CanBeDue self }
        ensures { result ≡ due_time now self }
    {
        match self {
            Expiry::After(amount) => Expiry::At(amount + now.min(MAX_READING) as i64),
            other => other,
        }
    }
}

/// A list of commands, as a transaction has them.
pub type Commands = Items<Command>;

/// What one step carries out.
#[derive(Drop)]
pub enum Cmds {
    /// One command, which has its own reply.
    One(Command),
    /// The commands of a transaction, with the array of their replies.
    Many(Commands),
}
