ghost use Rattle.std.specs.Prelude.{◌≡◌};
ghost use Rattle.cmd_words.specs.Reading.{IsToldOrNoMem};
ghost use Rattle.cmd_words.specs.Table.{of_keys};

use crate::fault::FaultKind;
use crate::many::keys;
use crate::shapes::{key, key_after, key_until};
use kv_base::Blobs;
use redis_model::Command;
use std::alloc::Global;

/// The commands on keys of any type.
#[derive(Clone, Copy)]
pub enum KeyName {
    Del,
    Exists,
    TypeOf,
    Expire,
    PExpire,
    ExpireAt,
    PExpireAt,
    Ttl,
    PTtl,
    Persist,
}

impl KeyName {
    /// What the words behind this name are read into. They weigh so much together with it.
    #[tactic(auto, unfolding(crate::specs::Table::of_keys))]
    pub fn read(self, alloc: Global, words: Blobs, weight: u64) -> Result<Command, FaultKind>
        ensures { IsToldOrNoMem result (of_keys self weight words) }
    {
        match self {
            KeyName::Del => Ok(Command::Del(keys(alloc, words)?, weight)),
            KeyName::Exists => Ok(Command::Exists(keys(alloc, words)?, weight)),
            KeyName::TypeOf => Ok(Command::TypeOf(key(words)?, weight)),
            KeyName::Expire => {
                let (key, time) = key_after(words, 1000)?;
                Ok(Command::Expire(key, time, weight))
            }
            KeyName::PExpire => {
                let (key, time) = key_after(words, 1)?;
                Ok(Command::PExpire(key, time, weight))
            }
            KeyName::ExpireAt => {
                let (key, time) = key_until(words, 1000)?;
                Ok(Command::ExpireAt(key, time, weight))
            }
            KeyName::PExpireAt => {
                let (key, time) = key_until(words, 1)?;
                Ok(Command::PExpireAt(key, time, weight))
            }
            KeyName::Ttl => Ok(Command::Ttl(key(words)?, weight)),
            KeyName::PTtl => Ok(Command::PTtl(key(words)?, weight)),
            KeyName::Persist => Ok(Command::Persist(key(words)?, weight)),
        }
    }
}
