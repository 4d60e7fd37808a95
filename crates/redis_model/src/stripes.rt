ghost use Rattle.std.specs.Prelude.{◌≡◌, ℕ, ◌==◌, ◌<◌, false, nat_lt, ◌||◌, [], ◌∷◌};
ghost use Rattle.kv_base.specs.Hash.{stripe as stripe_of};
ghost use Rattle.redis_model.specs.About.{keys_of};
ghost use Rattle.redis_model.specs.Stripes.{contains, has_stripe};

use crate::command::Command;
use kv_base::{Key, Keys, stripe};

/// How many stripes there are.
pub const STRIPES: u8 = 16;

/// A set of stripes, which are numbers from 0 to 15: those of the keys that are locked together. Whoever needs several
/// takes them in ascending order.
#[derive(Clone, Copy, Debug, PartialEq, Eq)]
pub struct Stripes {
    /// Bit b, counted from the lowest, stands for stripe b.
    pub bits: u16,
}

impl Stripes {
    /// No stripe, as a command without keys has.
    pub fn none() -> Stripes
        ensures { (b : ℕ) → contains result b ≡ false }
    {
        Stripes { bits: 0 }
    }

    /// All stripes, as a transaction takes them.
    pub fn all() -> Stripes
        ensures { (b : ℕ) → contains result b ≡ nat_lt b STRIPES }
    {
        Stripes { bits: u16::MAX }
    }

    /// The set with one stripe more, where it is not in it yet.
    pub fn with(self, stripe: u8) -> Stripes
        requires { stripe < STRIPES }
        ensures { (b : ℕ) → contains result b ≡ (stripe == b || contains self b) }
    {
        Stripes {
            bits: self.bits | 1 << stripe,
        }
    }

    /// Whether the stripe is in the set. A number from 16 on is in none.
    pub fn contains(&self, stripe: u8) -> bool
        ensures { result ≡ contains self.now stripe }
    {
        let bits = self.bits;
        stripe < STRIPES && bits >> stripe & 1 == 1
    }

    /// The set with the stripe of one key more.
    fn and(self, key: &Key) -> Stripes
        ensures { (b : ℕ) → contains result b ≡ (stripe_of key.now == b || contains self b) }
    {
        self.with(stripe(key.bytes()))
    }

    /// The stripe of a key.
    fn of_key(key: &Key) -> Stripes
        ensures { (b : ℕ) → contains result b ≡ has_stripe (key.now ∷ []) b }
    {
        Stripes::none().and(key)
    }

    /// The stripes of keys.
    fn of_keys(keys: &Keys) -> Stripes
        ensures { (b : ℕ) → contains result b ≡ has_stripe keys.now b }
    {
        let mut stripes = Stripes::none();
        for key in keys.as_slice() {
            stripes = stripes.and(key);
        }
        stripes
    }
}

impl Command {
    /// The stripes of the keys that the command names, also of those that it only reads, whatever the keys hold. A
    /// command touches no other keys, so whoever holds these stripes is alone with all that it reads and writes.
    pub fn stripes(&self) -> Stripes
        ensures { (b : ℕ) → contains result b ≡ has_stripe (keys_of self.now) b }
    {
        match self {
            Command::Ping(_, _) | Command::Echo(_, _) | Command::Select(_, _) => Stripes::none(),
            Command::MGet(keys, _)
            | Command::MSet(keys, _, _)
            | Command::Del(keys, _)
            | Command::Exists(keys, _)
            | Command::SInter(keys, _)
            | Command::SUnion(keys, _)
            | Command::SDiff(keys, _) => Stripes::of_keys(keys),
            Command::SInterStore(destination, keys, _)
            | Command::SUnionStore(destination, keys, _)
            | Command::SDiffStore(destination, keys, _) => {
                Stripes::of_keys(keys).and(destination)
            }
            Command::RPopLPush(source, destination, _)
            | Command::LMove(source, destination, _, _, _)
            | Command::SMove(source, destination, _, _) => {
                Stripes::of_key(destination).and(source)
            }
            Command::Get(key, _)
            | Command::Set(key, _, _, _, _)
            | Command::SetNx(key, _, _)
            | Command::SetEx(key, _, _, _)
            | Command::PSetEx(key, _, _, _)
            | Command::GetSet(key, _, _)
            | Command::GetDel(key, _)
            | Command::Append(key, _, _)
            | Command::StrLen(key, _)
            | Command::GetRange(key, _, _, _)
            | Command::Incr(key, _)
            | Command::Decr(key, _)
            | Command::IncrBy(key, _, _)
            | Command::DecrBy(key, _, _)
            | Command::TypeOf(key, _)
            | Command::Expire(key, _, _)
            | Command::PExpire(key, _, _)
            | Command::ExpireAt(key, _, _)
            | Command::PExpireAt(key, _, _)
            | Command::Ttl(key, _)
            | Command::PTtl(key, _)
            | Command::Persist(key, _)
            | Command::HSet(key, _, _, _)
            | Command::HSetNx(key, _, _, _)
            | Command::HGet(key, _, _)
            | Command::HMGet(key, _, _)
            | Command::HDel(key, _, _)
            | Command::HLen(key, _)
            | Command::HExists(key, _, _)
            | Command::HStrLen(key, _, _)
            | Command::HGetAll(key, _)
            | Command::HKeys(key, _)
            | Command::HVals(key, _)
            | Command::HIncrBy(key, _, _, _)
            | Command::LPush(key, _, _)
            | Command::RPush(key, _, _)
            | Command::LPushX(key, _, _)
            | Command::RPushX(key, _, _)
            | Command::LPop(key, _)
            | Command::RPop(key, _)
            | Command::LLen(key, _)
            | Command::LIndex(key, _, _)
            | Command::LSet(key, _, _, _)
            | Command::LRange(key, _, _, _)
            | Command::LTrim(key, _, _, _)
            | Command::SAdd(key, _, _)
            | Command::SRem(key, _, _)
            | Command::SIsMember(key, _, _)
            | Command::SMIsMember(key, _, _)
            | Command::SCard(key, _)
            | Command::SMembers(key, _)
            | Command::ZAdd(key, _, _, _, _)
            | Command::ZRem(key, _, _)
            | Command::ZScore(key, _, _)
            | Command::ZCard(key, _)
            | Command::ZCount(key, _, _, _)
            | Command::ZRank(key, _, _)
            | Command::ZRevRank(key, _, _)
            | Command::ZRange(key, _, _, _, _)
            | Command::ZRevRange(key, _, _, _, _)
            | Command::ZRangeByScore(key, _, _, _, _, _)
            | Command::ZIncrBy(key, _, _, _)
            | Command::ZRemRangeByRank(key, _, _, _)
            | Command::ZRemRangeByScore(key, _, _, _)
            | Command::ZPopMin(key, _, _)
            | Command::ZPopMax(key, _, _) => Stripes::of_key(key),
        }
    }
}
