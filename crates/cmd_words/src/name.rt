//! The names of the commands. A name is found by its first byte, and then by length and bytes.

ghost use Rattle.std.specs.Prelude.{◌≡◌, slice_get, OnErr};
ghost use Rattle.cmd_words.specs.Words.{lower};
ghost use Rattle.cmd_words.specs.Names.{named, find_name, starting, shorter, longer};
ghost use Rattle.cmd_words.specs.Reading.{IsToldOrNoMem};
ghost use Rattle.cmd_words.specs.Table.{data_of, read_command};
ghost use Rattle.cmd_words.specs.Parsed.{MayRunOut};

use crate::case::is_word;
use crate::fault::FaultKind;
use crate::hashes::HashName;
use crate::keys::KeyName;
use crate::lists::ListName;
use crate::no_keys::NoKeyName;
use crate::parsed::Parsed;
use crate::session::SessionName;
use crate::sets::SetName;
use crate::sorted_sets::SortedSetName;
use crate::strings::StringName;
use kv_base::{Blob, Blobs};
use redis_model::Command;
use std::alloc::Global;

/// A command, by the family that it belongs to.
#[derive(Clone, Copy)]
pub enum Name {
    NoKeys(NoKeyName),
    Strings(StringName),
    Keys(KeyName),
    Hashes(HashName),
    Lists(ListName),
    Sets(SetName),
    SortedSets(SortedSetName),
    Session(SessionName),
}

impl Name {
    /// What the words behind this name are read into. They weigh so much together with it.
    #[tactic(auto, unfolding(crate::specs::Table::read_command), using(crate::proofs::Memory::of_data, crate::proofs::Memory::tells_data))]
    pub fn read(self, alloc: Global, words: Blobs, weight: u64) -> Result<Parsed, FaultKind>
        ensures table { IsToldOrNoMem result (read_command self weight words) }
        ensures memory { OnErr result (MayRunOut (read_command self weight words)) }
    {
        match self {
            Name::NoKeys(name) => data(name.read(words, weight)),
            Name::Strings(name) => data(name.read(alloc, words, weight)),
            Name::Keys(name) => data(name.read(alloc, words, weight)),
            Name::Hashes(name) => data(name.read(alloc, words, weight)),
            Name::Lists(name) => data(name.read(words, weight)),
            Name::Sets(name) => data(name.read(alloc, words, weight)),
            Name::SortedSets(name) => data(name.read(alloc, words, weight)),
            Name::Session(name) => name.read(words),
        }
    }
}

/// What the words of a data command are read into.
fn data(read: Result<Command, FaultKind>) -> Result<Parsed, FaultKind>
    ensures { result ≡ data_of read }
{
    Ok(Parsed::Data(read?))
}

/// The first byte, as a small letter where it is a capital.
fn initial_of(word: &Blob) -> Option<u8>
    ensures { result ≡ slice_get (lower word.now) 0 }
{
    let (first, _) = word.bytes().split_first()?;
    Some(first.to_ascii_lowercase())
}

/// What the word names, in any case.
pub fn name_of(word: &Blob) -> Option<Name>
    ensures { result ≡ named word.now }
{
    let initial = initial_of(word)?;
    if initial == b's' {
        with_s(word)
    } else if initial == b'g' {
        with_g(word)
    } else if initial == b'h' {
        with_h(word)
    } else if initial == b'l' {
        with_l(word)
    } else if initial == b'z' {
        with_z(word)
    } else if initial == b'm' {
        with_m(word)
    } else if initial == b'd' {
        with_d(word)
    } else if initial == b'i' {
        with_i(word)
    } else if initial == b'e' {
        with_e(word)
    } else if initial == b'r' {
        with_r(word)
    } else if initial == b't' {
        with_t(word)
    } else if initial == b'p' {
        with_p(word)
    } else if initial == b'a' {
        with_a(word)
    } else if initial == b'q' {
        with_q(word)
    } else if initial == b'k' {
        with_k(word)
    } else {
        None
    }
}

#[tactic(auto, unfolding(crate::specs::Names::find_name))]
fn with_a(word: &Blob) -> Option<Name>
    ensures { result ≡ find_name (starting 97) word.now }
{
    if is_word(word, b"append") {
        Some(Name::Strings(StringName::Append))
    } else {
        None
    }
}

#[tactic(auto, unfolding(crate::specs::Names::find_name))]
fn with_d(word: &Blob) -> Option<Name>
    ensures { result ≡ find_name (starting 100) word.now }
{
    if is_word(word, b"decr") {
        Some(Name::Strings(StringName::Decr))
    } else if is_word(word, b"decrby") {
        Some(Name::Strings(StringName::DecrBy))
    } else if is_word(word, b"del") {
        Some(Name::Keys(KeyName::Del))
    } else if is_word(word, b"discard") {
        Some(Name::Session(SessionName::Discard))
    } else {
        None
    }
}

#[tactic(auto, unfolding(crate::specs::Names::find_name))]
fn with_e(word: &Blob) -> Option<Name>
    ensures { result ≡ find_name (starting 101) word.now }
{
    if is_word(word, b"echo") {
        Some(Name::NoKeys(NoKeyName::Echo))
    } else if is_word(word, b"exists") {
        Some(Name::Keys(KeyName::Exists))
    } else if is_word(word, b"expire") {
        Some(Name::Keys(KeyName::Expire))
    } else if is_word(word, b"expireat") {
        Some(Name::Keys(KeyName::ExpireAt))
    } else if is_word(word, b"exec") {
        Some(Name::Session(SessionName::Exec))
    } else {
        None
    }
}

#[tactic(auto, unfolding(crate::specs::Names::find_name))]
fn with_g(word: &Blob) -> Option<Name>
    ensures { result ≡ find_name (starting 103) word.now }
{
    if is_word(word, b"get") {
        Some(Name::Strings(StringName::Get))
    } else if is_word(word, b"getset") {
        Some(Name::Strings(StringName::GetSet))
    } else if is_word(word, b"getdel") {
        Some(Name::Strings(StringName::GetDel))
    } else if is_word(word, b"getrange") {
        Some(Name::Strings(StringName::GetRange))
    } else {
        None
    }
}

#[tactic(auto, unfolding(crate::specs::Names::find_name))]
fn with_h(word: &Blob) -> Option<Name>
    ensures { result ≡ find_name (starting 104) word.now }
{
    if is_word(word, b"hset") {
        Some(Name::Hashes(HashName::HSet))
    } else if is_word(word, b"hsetnx") {
        Some(Name::Hashes(HashName::HSetNx))
    } else if is_word(word, b"hget") {
        Some(Name::Hashes(HashName::HGet))
    } else if is_word(word, b"hmget") {
        Some(Name::Hashes(HashName::HMGet))
    } else if is_word(word, b"hdel") {
        Some(Name::Hashes(HashName::HDel))
    } else if is_word(word, b"hlen") {
        Some(Name::Hashes(HashName::HLen))
    } else if is_word(word, b"hexists") {
        Some(Name::Hashes(HashName::HExists))
    } else if is_word(word, b"hstrlen") {
        Some(Name::Hashes(HashName::HStrLen))
    } else if is_word(word, b"hgetall") {
        Some(Name::Hashes(HashName::HGetAll))
    } else if is_word(word, b"hkeys") {
        Some(Name::Hashes(HashName::HKeys))
    } else if is_word(word, b"hvals") {
        Some(Name::Hashes(HashName::HVals))
    } else if is_word(word, b"hincrby") {
        Some(Name::Hashes(HashName::HIncrBy))
    } else {
        None
    }
}

#[tactic(auto, unfolding(crate::specs::Names::find_name))]
fn with_i(word: &Blob) -> Option<Name>
    ensures { result ≡ find_name (starting 105) word.now }
{
    if is_word(word, b"incr") {
        Some(Name::Strings(StringName::Incr))
    } else if is_word(word, b"incrby") {
        Some(Name::Strings(StringName::IncrBy))
    } else {
        None
    }
}

#[tactic(auto, unfolding(crate::specs::Names::find_name))]
fn with_k(word: &Blob) -> Option<Name>
    ensures { result ≡ find_name (starting 107) word.now }
{
    if is_word(word, b"kvr") {
        Some(Name::Session(SessionName::Kvr))
    } else {
        None
    }
}

#[tactic(auto, unfolding(crate::specs::Names::find_name))]
fn with_l(word: &Blob) -> Option<Name>
    ensures { result ≡ find_name (starting 108) word.now }
{
    if is_word(word, b"lpush") {
        Some(Name::Lists(ListName::LPush))
    } else if is_word(word, b"lpushx") {
        Some(Name::Lists(ListName::LPushX))
    } else if is_word(word, b"lpop") {
        Some(Name::Lists(ListName::LPop))
    } else if is_word(word, b"llen") {
        Some(Name::Lists(ListName::LLen))
    } else if is_word(word, b"lindex") {
        Some(Name::Lists(ListName::LIndex))
    } else if is_word(word, b"lset") {
        Some(Name::Lists(ListName::LSet))
    } else if is_word(word, b"lrange") {
        Some(Name::Lists(ListName::LRange))
    } else if is_word(word, b"ltrim") {
        Some(Name::Lists(ListName::LTrim))
    } else if is_word(word, b"lmove") {
        Some(Name::Lists(ListName::LMove))
    } else {
        None
    }
}

#[tactic(auto, unfolding(crate::specs::Names::find_name))]
fn with_m(word: &Blob) -> Option<Name>
    ensures { result ≡ find_name (starting 109) word.now }
{
    if is_word(word, b"mget") {
        Some(Name::Strings(StringName::MGet))
    } else if is_word(word, b"mset") {
        Some(Name::Strings(StringName::MSet))
    } else if is_word(word, b"multi") {
        Some(Name::Session(SessionName::Multi))
    } else {
        None
    }
}

#[tactic(auto, unfolding(crate::specs::Names::find_name))]
fn with_p(word: &Blob) -> Option<Name>
    ensures { result ≡ find_name (starting 112) word.now }
{
    if is_word(word, b"ping") {
        Some(Name::NoKeys(NoKeyName::Ping))
    } else if is_word(word, b"psetex") {
        Some(Name::Strings(StringName::PSetEx))
    } else if is_word(word, b"pexpire") {
        Some(Name::Keys(KeyName::PExpire))
    } else if is_word(word, b"pexpireat") {
        Some(Name::Keys(KeyName::PExpireAt))
    } else if is_word(word, b"pttl") {
        Some(Name::Keys(KeyName::PTtl))
    } else if is_word(word, b"persist") {
        Some(Name::Keys(KeyName::Persist))
    } else {
        None
    }
}

#[tactic(auto, unfolding(crate::specs::Names::find_name))]
fn with_q(word: &Blob) -> Option<Name>
    ensures { result ≡ find_name (starting 113) word.now }
{
    if is_word(word, b"quit") {
        Some(Name::Session(SessionName::Quit))
    } else {
        None
    }
}

#[tactic(auto, unfolding(crate::specs::Names::find_name))]
fn with_r(word: &Blob) -> Option<Name>
    ensures { result ≡ find_name (starting 114) word.now }
{
    if is_word(word, b"rpush") {
        Some(Name::Lists(ListName::RPush))
    } else if is_word(word, b"rpushx") {
        Some(Name::Lists(ListName::RPushX))
    } else if is_word(word, b"rpop") {
        Some(Name::Lists(ListName::RPop))
    } else if is_word(word, b"rpoplpush") {
        Some(Name::Lists(ListName::RPopLPush))
    } else {
        None
    }
}

fn with_s(word: &Blob) -> Option<Name>
    ensures { result ≡ find_name (starting 115) word.now }
{
    if word.bytes().len() < 6 {
        with_s_short(word)
    } else {
        with_s_long(word)
    }
}

#[tactic(auto, unfolding(crate::specs::Names::find_name))]
fn with_s_short(word: &Blob) -> Option<Name>
    ensures { result ≡ find_name (shorter 6 (starting 115)) word.now }
{
    if is_word(word, b"set") {
        Some(Name::Strings(StringName::Set))
    } else if is_word(word, b"setnx") {
        Some(Name::Strings(StringName::SetNx))
    } else if is_word(word, b"setex") {
        Some(Name::Strings(StringName::SetEx))
    } else if is_word(word, b"sadd") {
        Some(Name::Sets(SetName::SAdd))
    } else if is_word(word, b"srem") {
        Some(Name::Sets(SetName::SRem))
    } else if is_word(word, b"scard") {
        Some(Name::Sets(SetName::SCard))
    } else if is_word(word, b"smove") {
        Some(Name::Sets(SetName::SMove))
    } else if is_word(word, b"sdiff") {
        Some(Name::Sets(SetName::SDiff))
    } else {
        None
    }
}

#[tactic(auto, unfolding(crate::specs::Names::find_name))]
fn with_s_long(word: &Blob) -> Option<Name>
    ensures { result ≡ find_name (longer 6 (starting 115)) word.now }
{
    if is_word(word, b"select") {
        Some(Name::NoKeys(NoKeyName::Select))
    } else if is_word(word, b"strlen") {
        Some(Name::Strings(StringName::StrLen))
    } else if is_word(word, b"sismember") {
        Some(Name::Sets(SetName::SIsMember))
    } else if is_word(word, b"smismember") {
        Some(Name::Sets(SetName::SMIsMember))
    } else if is_word(word, b"smembers") {
        Some(Name::Sets(SetName::SMembers))
    } else if is_word(word, b"sinter") {
        Some(Name::Sets(SetName::SInter))
    } else if is_word(word, b"sunion") {
        Some(Name::Sets(SetName::SUnion))
    } else if is_word(word, b"sinterstore") {
        Some(Name::Sets(SetName::SInterStore))
    } else if is_word(word, b"sunionstore") {
        Some(Name::Sets(SetName::SUnionStore))
    } else if is_word(word, b"sdiffstore") {
        Some(Name::Sets(SetName::SDiffStore))
    } else {
        None
    }
}

#[tactic(auto, unfolding(crate::specs::Names::find_name))]
fn with_t(word: &Blob) -> Option<Name>
    ensures { result ≡ find_name (starting 116) word.now }
{
    if is_word(word, b"type") {
        Some(Name::Keys(KeyName::TypeOf))
    } else if is_word(word, b"ttl") {
        Some(Name::Keys(KeyName::Ttl))
    } else {
        None
    }
}

fn with_z(word: &Blob) -> Option<Name>
    ensures { result ≡ find_name (starting 122) word.now }
{
    if word.bytes().len() < 7 {
        with_z_short(word)
    } else {
        with_z_long(word)
    }
}

#[tactic(auto, unfolding(crate::specs::Names::find_name))]
fn with_z_short(word: &Blob) -> Option<Name>
    ensures { result ≡ find_name (shorter 7 (starting 122)) word.now }
{
    if is_word(word, b"zadd") {
        Some(Name::SortedSets(SortedSetName::ZAdd))
    } else if is_word(word, b"zrem") {
        Some(Name::SortedSets(SortedSetName::ZRem))
    } else if is_word(word, b"zscore") {
        Some(Name::SortedSets(SortedSetName::ZScore))
    } else if is_word(word, b"zcard") {
        Some(Name::SortedSets(SortedSetName::ZCard))
    } else if is_word(word, b"zcount") {
        Some(Name::SortedSets(SortedSetName::ZCount))
    } else if is_word(word, b"zrank") {
        Some(Name::SortedSets(SortedSetName::ZRank))
    } else if is_word(word, b"zrange") {
        Some(Name::SortedSets(SortedSetName::ZRange))
    } else {
        None
    }
}

#[tactic(auto, unfolding(crate::specs::Names::find_name))]
fn with_z_long(word: &Blob) -> Option<Name>
    ensures { result ≡ find_name (longer 7 (starting 122)) word.now }
{
    if is_word(word, b"zrevrank") {
        Some(Name::SortedSets(SortedSetName::ZRevRank))
    } else if is_word(word, b"zrevrange") {
        Some(Name::SortedSets(SortedSetName::ZRevRange))
    } else if is_word(word, b"zrangebyscore") {
        Some(Name::SortedSets(SortedSetName::ZRangeByScore))
    } else if is_word(word, b"zincrby") {
        Some(Name::SortedSets(SortedSetName::ZIncrBy))
    } else if is_word(word, b"zremrangebyrank") {
        Some(Name::SortedSets(SortedSetName::ZRemRangeByRank))
    } else if is_word(word, b"zremrangebyscore") {
        Some(Name::SortedSets(SortedSetName::ZRemRangeByScore))
    } else if is_word(word, b"zpopmin") {
        Some(Name::SortedSets(SortedSetName::ZPopMin))
    } else if is_word(word, b"zpopmax") {
        Some(Name::SortedSets(SortedSetName::ZPopMax))
    } else {
        None
    }
}
