ghost use Rattle.std.specs.Prelude.{◌≡◌};
ghost use Rattle.redis_model.specs.Families.{is_hash_command, is_keyless_command, is_list_command, is_set_command, is_sorted_set_command};

use crate::command::Command;

impl Command {
    /// Whether it names no key: PING, ECHO and SELECT.
    pub fn is_keyless(&self) -> bool
        ensures { result ≡ is_keyless_command self.now }
    {
        matches!(
            self,
            Command::Ping(_, _) | Command::Echo(_, _) | Command::Select(_, _)
        )
    }

    /// Whether it is one on hashes.
    pub fn is_on_hashes(&self) -> bool
        ensures { result ≡ is_hash_command self.now }
    {
        match self {
            Command::HSet(_, _, _, _)
            | Command::HSetNx(_, _, _, _)
            | Command::HGet(_, _, _)
            | Command::HMGet(_, _, _)
            | Command::HDel(_, _, _)
            | Command::HLen(_, _)
            | Command::HExists(_, _, _)
            | Command::HStrLen(_, _, _)
            | Command::HGetAll(_, _)
            | Command::HKeys(_, _)
            | Command::HVals(_, _)
            | Command::HIncrBy(_, _, _, _) => true,
            _ => false,
        }
    }

    /// Whether it is one on lists.
    pub fn is_on_lists(&self) -> bool
        ensures { result ≡ is_list_command self.now }
    {
        match self {
            Command::LPush(_, _, _)
            | Command::RPush(_, _, _)
            | Command::LPushX(_, _, _)
            | Command::RPushX(_, _, _)
            | Command::LPop(_, _)
            | Command::RPop(_, _)
            | Command::LLen(_, _)
            | Command::LIndex(_, _, _)
            | Command::LSet(_, _, _, _)
            | Command::LRange(_, _, _, _)
            | Command::LTrim(_, _, _, _)
            | Command::RPopLPush(_, _, _)
            | Command::LMove(_, _, _, _, _) => true,
            _ => false,
        }
    }

    /// Whether it is one on sets.
    pub fn is_on_sets(&self) -> bool
        ensures { result ≡ is_set_command self.now }
    {
        match self {
            Command::SAdd(_, _, _)
            | Command::SRem(_, _, _)
            | Command::SIsMember(_, _, _)
            | Command::SMIsMember(_, _, _)
            | Command::SCard(_, _)
            | Command::SMembers(_, _)
            | Command::SMove(_, _, _, _)
            | Command::SInter(_, _)
            | Command::SUnion(_, _)
            | Command::SDiff(_, _)
            | Command::SInterStore(_, _, _)
            | Command::SUnionStore(_, _, _)
            | Command::SDiffStore(_, _, _) => true,
            _ => false,
        }
    }
    /// Whether it is one on sorted sets.
    pub fn is_on_sorted_sets(&self) -> bool
        ensures { result ≡ is_sorted_set_command self.now }
    {
        match self {
            Command::ZAdd(_, _, _, _, _)
            | Command::ZRem(_, _, _)
            | Command::ZScore(_, _, _)
            | Command::ZCard(_, _)
            | Command::ZCount(_, _, _, _)
            | Command::ZRank(_, _, _)
            | Command::ZRevRank(_, _, _)
            | Command::ZRange(_, _, _, _, _)
            | Command::ZRevRange(_, _, _, _, _)
            | Command::ZRangeByScore(_, _, _, _, _, _)
            | Command::ZIncrBy(_, _, _, _)
            | Command::ZRemRangeByRank(_, _, _, _)
            | Command::ZRemRangeByScore(_, _, _, _)
            | Command::ZPopMin(_, _, _)
            | Command::ZPopMax(_, _, _) => true,
            _ => false,
        }
    }
}
