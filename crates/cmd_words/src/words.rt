ghost use Rattle.std.specs.Prelude.{◌≡◌, ◌≤◌, IfOk};
ghost use Rattle.redis_model.specs.Limits.{max_weight};
ghost use Rattle.cmd_words.specs.Words.{weight_of, AreRequestWords};
ghost use Rattle.cmd_words.specs.Parsed.{parsed_as, IsParsed, IsAskable};

use crate::fault::CommandFault;
use crate::name::name_of;
use crate::parsed::Parsed;
use kv_base::{Blob, Blobs};
use std::alloc::Global;

/// 16 for each word, and its bytes.
fn weight(words: &[Blob]) -> u64
    requires { weight_of words.now ≤ max_weight }
    ensures { result ≡ weight_of words.now }
{
    words
        .iter()
        .map(|word| word.bytes().len() as u64 + 16)
        .sum()
}

/// What the words of a request ask for, or the first fault that they have in the order of `CommandFault`. The words are
/// moved into the command. Names and the words of options are read without regard to case.
///
/// Memory is taken for a list of keys, for pairs, and for the name that a fault is told with; `NoMem` may come in place of
/// a data command and of a fault. What is no data command takes none.
pub fn parse(alloc: Global, mut words: Blobs) -> Result<Parsed, CommandFault>
    requires { AreRequestWords words }
    ensures table { IsParsed result (parsed_as words) }
    ensures within { IfOk result (λ parsed. IsAskable words parsed) }
{
    let weight = weight(words.as_slice());
    let first = words.remove(0);
    let Some(name) = name_of(&first) else {
        return Err(CommandFault::Unknown);
    };
    match name.read(alloc, words, weight) {
        Ok(parsed) => Ok(parsed),
        Err(kind) => Err(kind.told(alloc, &first)),
    }
}
