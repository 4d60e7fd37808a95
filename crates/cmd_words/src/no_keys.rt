ghost use Rattle.std.specs.Prelude.{◌≡◌};
ghost use Rattle.cmd_words.specs.Reading.{IsToldOrNoMem};
ghost use Rattle.cmd_words.specs.Table.{of_no_keys};

use crate::fault::FaultKind;
use crate::many::maybe_value;
use crate::shapes::{database, value};
use kv_base::Blobs;
use redis_model::Command;

/// The commands that name no key.
#[derive(Clone, Copy)]
pub enum NoKeyName {
    Ping,
    Echo,
    Select,
}

impl NoKeyName {
    /// What the words behind this name are read into. They weigh so much together with it.
    #[tactic(auto, unfolding(crate::specs::Table::of_no_keys))]
    pub fn read(self, words: Blobs, weight: u64) -> Result<Command, FaultKind>
        ensures { IsToldOrNoMem result (of_no_keys self weight words) }
    {
        match self {
            NoKeyName::Ping => Ok(Command::Ping(maybe_value(words)?, weight)),
            NoKeyName::Echo => Ok(Command::Echo(value(words)?, weight)),
            NoKeyName::Select => Ok(Command::Select(database(words)?, weight)),
        }
    }
}
