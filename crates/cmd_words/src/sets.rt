ghost use Rattle.std.specs.Prelude.{◌≡◌};
ghost use Rattle.cmd_words.specs.Reading.{IsToldOrNoMem};
ghost use Rattle.cmd_words.specs.Table.{of_sets};

use crate::fault::FaultKind;
use crate::many::{key_fields, key_keys, keys};
use crate::shapes::{key, key_field, key_key_member};
use kv_base::Blobs;
use redis_model::Command;
use std::alloc::Global;

/// The commands on sets.
#[derive(Clone, Copy)]
pub enum SetName {
    SAdd,
    SRem,
    SIsMember,
    SMIsMember,
    SCard,
    SMembers,
    SMove,
    SInter,
    SUnion,
    SDiff,
    SInterStore,
    SUnionStore,
    SDiffStore,
}

impl SetName {
    /// What the words behind this name are read into. They weigh so much together with it.
    #[tactic(auto, unfolding(crate::specs::Table::of_sets))]
    pub fn read(self, alloc: Global, words: Blobs, weight: u64) -> Result<Command, FaultKind>
        ensures { IsToldOrNoMem result (of_sets self weight words) }
    {
        match self {
            SetName::SAdd => {
                let (key, members) = key_fields(words)?;
                Ok(Command::SAdd(key, members, weight))
            }
            SetName::SRem => {
                let (key, members) = key_fields(words)?;
                Ok(Command::SRem(key, members, weight))
            }
            SetName::SIsMember => {
                let (key, member) = key_field(words)?;
                Ok(Command::SIsMember(key, member, weight))
            }
            SetName::SMIsMember => {
                let (key, members) = key_fields(words)?;
                Ok(Command::SMIsMember(key, members, weight))
            }
            SetName::SCard => Ok(Command::SCard(key(words)?, weight)),
            SetName::SMembers => Ok(Command::SMembers(key(words)?, weight)),
            SetName::SMove => {
                let (from, to, member) = key_key_member(words)?;
                Ok(Command::SMove(from, to, member, weight))
            }
            SetName::SInter => Ok(Command::SInter(keys(alloc, words)?, weight)),
            SetName::SUnion => Ok(Command::SUnion(keys(alloc, words)?, weight)),
            SetName::SDiff => Ok(Command::SDiff(keys(alloc, words)?, weight)),
            SetName::SInterStore => {
                let (key, others) = key_keys(alloc, words)?;
                Ok(Command::SInterStore(key, others, weight))
            }
            SetName::SUnionStore => {
                let (key, others) = key_keys(alloc, words)?;
                Ok(Command::SUnionStore(key, others, weight))
            }
            SetName::SDiffStore => {
                let (key, others) = key_keys(alloc, words)?;
                Ok(Command::SDiffStore(key, others, weight))
            }
        }
    }
}
