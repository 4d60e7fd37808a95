ghost use Rattle.std.specs.Prelude.{◌≡◌};
ghost use Rattle.cmd_words.specs.Reading.{IsToldOrNoMem};
ghost use Rattle.cmd_words.specs.Table.{of_strings};

use crate::fault::FaultKind;
use crate::many::{keys, keys_values};
use crate::set_options::set;
use crate::shapes::{key, key_int, key_int_int, key_negatable, key_time_to_live_value, key_value};
use kv_base::Blobs;
use redis_model::Command;
use std::alloc::Global;

/// The commands on strings.
#[derive(Clone, Copy)]
pub enum StringName {
    Get,
    Set,
    SetNx,
    SetEx,
    PSetEx,
    GetSet,
    GetDel,
    MGet,
    MSet,
    Append,
    StrLen,
    GetRange,
    Incr,
    Decr,
    IncrBy,
    DecrBy,
}

impl StringName {
    /// What the words behind this name are read into. They weigh so much together with it.
    #[tactic(auto, unfolding(crate::specs::Table::of_strings))]
    pub fn read(self, alloc: Global, words: Blobs, weight: u64) -> Result<Command, FaultKind>
        ensures { IsToldOrNoMem result (of_strings self weight words) }
    {
        match self {
            StringName::Get => Ok(Command::Get(key(words)?, weight)),
            StringName::Set => set(words, weight),
            StringName::SetNx => {
                let (key, value) = key_value(words)?;
                Ok(Command::SetNx(key, value, weight))
            }
            StringName::SetEx => {
                let (key, time, value) = key_time_to_live_value(words, 1000)?;
                Ok(Command::SetEx(key, time, value, weight))
            }
            StringName::PSetEx => {
                let (key, time, value) = key_time_to_live_value(words, 1)?;
                Ok(Command::PSetEx(key, time, value, weight))
            }
            StringName::GetSet => {
                let (key, value) = key_value(words)?;
                Ok(Command::GetSet(key, value, weight))
            }
            StringName::GetDel => Ok(Command::GetDel(key(words)?, weight)),
            StringName::MGet => Ok(Command::MGet(keys(alloc, words)?, weight)),
            StringName::MSet => {
                let (keys, values) = keys_values(alloc, words)?;
                Ok(Command::MSet(keys, values, weight))
            }
            StringName::Append => {
                let (key, value) = key_value(words)?;
                Ok(Command::Append(key, value, weight))
            }
            StringName::StrLen => Ok(Command::StrLen(key(words)?, weight)),
            StringName::GetRange => {
                let (key, from, to) = key_int_int(words)?;
                Ok(Command::GetRange(key, from, to, weight))
            }
            StringName::Incr => Ok(Command::Incr(key(words)?, weight)),
            StringName::Decr => Ok(Command::Decr(key(words)?, weight)),
            StringName::IncrBy => {
                let (key, number) = key_int(words)?;
                Ok(Command::IncrBy(key, number, weight))
            }
            StringName::DecrBy => {
                let (key, number) = key_negatable(words)?;
                Ok(Command::DecrBy(key, number, weight))
            }
        }
    }
}
