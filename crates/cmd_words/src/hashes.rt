ghost use Rattle.std.specs.Prelude.{◌≡◌};
ghost use Rattle.cmd_words.specs.Reading.{IsToldOrNoMem};
ghost use Rattle.cmd_words.specs.Table.{of_hashes};

use crate::fault::FaultKind;
use crate::many::{key_fields, key_fields_values};
use crate::shapes::{key, key_field, key_field_int, key_field_value};
use kv_base::Blobs;
use redis_model::Command;
use std::alloc::Global;

/// The commands on hashes.
#[derive(Clone, Copy)]
pub enum HashName {
    HSet,
    HSetNx,
    HGet,
    HMGet,
    HDel,
    HLen,
    HExists,
    HStrLen,
    HGetAll,
    HKeys,
    HVals,
    HIncrBy,
}

impl HashName {
    /// What the words behind this name are read into. They weigh so much together with it.
    #[tactic(auto, unfolding(crate::specs::Table::of_hashes))]
    pub fn read(self, alloc: Global, words: Blobs, weight: u64) -> Result<Command, FaultKind>
        ensures { IsToldOrNoMem result (of_hashes self weight words) }
    {
        match self {
            HashName::HSet => {
                let (key, fields, values) = key_fields_values(alloc, words)?;
                Ok(Command::HSet(key, fields, values, weight))
            }
            HashName::HSetNx => {
                let (key, field, value) = key_field_value(words)?;
                Ok(Command::HSetNx(key, field, value, weight))
            }
            HashName::HGet => {
                let (key, field) = key_field(words)?;
                Ok(Command::HGet(key, field, weight))
            }
            HashName::HMGet => {
                let (key, fields) = key_fields(words)?;
                Ok(Command::HMGet(key, fields, weight))
            }
            HashName::HDel => {
                let (key, fields) = key_fields(words)?;
                Ok(Command::HDel(key, fields, weight))
            }
            HashName::HLen => Ok(Command::HLen(key(words)?, weight)),
            HashName::HExists => {
                let (key, field) = key_field(words)?;
                Ok(Command::HExists(key, field, weight))
            }
            HashName::HStrLen => {
                let (key, field) = key_field(words)?;
                Ok(Command::HStrLen(key, field, weight))
            }
            HashName::HGetAll => Ok(Command::HGetAll(key(words)?, weight)),
            HashName::HKeys => Ok(Command::HKeys(key(words)?, weight)),
            HashName::HVals => Ok(Command::HVals(key(words)?, weight)),
            HashName::HIncrBy => {
                let (key, field, number) = key_field_int(words)?;
                Ok(Command::HIncrBy(key, field, number, weight))
            }
        }
    }
}
