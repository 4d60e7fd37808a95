ghost use Rattle.std.specs.Prelude.{◌≡◌};
ghost use Rattle.cmd_words.specs.Reading.{IsToldOrNoMem};
ghost use Rattle.cmd_words.specs.Table.{of_lists};

use crate::fault::FaultKind;
use crate::many::key_values;
use crate::shapes::{key, key_int, key_int_int, key_int_value, key_key, key_key_ends};
use kv_base::Blobs;
use redis_model::Command;

/// The commands on lists.
#[derive(Clone, Copy)]
pub enum ListName {
    LPush,
    RPush,
    LPushX,
    RPushX,
    LPop,
    RPop,
    LLen,
    LIndex,
    LSet,
    LRange,
    LTrim,
    RPopLPush,
    LMove,
}

impl ListName {
    /// What the words behind this name are read into. They weigh so much together with it.
    #[tactic(auto, unfolding(crate::specs::Table::of_lists))]
    pub fn read(self, words: Blobs, weight: u64) -> Result<Command, FaultKind>
        ensures { IsToldOrNoMem result (of_lists self weight words) }
    {
        match self {
            ListName::LPush => {
                let (key, values) = key_values(words)?;
                Ok(Command::LPush(key, values, weight))
            }
            ListName::RPush => {
                let (key, values) = key_values(words)?;
                Ok(Command::RPush(key, values, weight))
            }
            ListName::LPushX => {
                let (key, values) = key_values(words)?;
                Ok(Command::LPushX(key, values, weight))
            }
            ListName::RPushX => {
                let (key, values) = key_values(words)?;
                Ok(Command::RPushX(key, values, weight))
            }
            ListName::LPop => Ok(Command::LPop(key(words)?, weight)),
            ListName::RPop => Ok(Command::RPop(key(words)?, weight)),
            ListName::LLen => Ok(Command::LLen(key(words)?, weight)),
            ListName::LIndex => {
                let (key, number) = key_int(words)?;
                Ok(Command::LIndex(key, number, weight))
            }
            ListName::LSet => {
                let (key, at, value) = key_int_value(words)?;
                Ok(Command::LSet(key, at, value, weight))
            }
            ListName::LRange => {
                let (key, from, to) = key_int_int(words)?;
                Ok(Command::LRange(key, from, to, weight))
            }
            ListName::LTrim => {
                let (key, from, to) = key_int_int(words)?;
                Ok(Command::LTrim(key, from, to, weight))
            }
            ListName::RPopLPush => {
                let (from, to) = key_key(words)?;
                Ok(Command::RPopLPush(from, to, weight))
            }
            ListName::LMove => {
                let (from, to, take, put) = key_key_ends(words)?;
                Ok(Command::LMove(from, to, take, put, weight))
            }
        }
    }
}
