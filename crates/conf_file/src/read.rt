//! Reading a configuration.

ghost use Rattle.std.specs.Prelude.{◌≡◌, ◌≤◌, IfErr, IfOk, IsErrOf};
ghost use Rattle.kv_outside.specs.Causes.{Rose};
ghost use Rattle.conf_file.specs.Configuration.{configured};
ghost use Rattle.conf_file.specs.Reading.{ConfAnswers, AnswersTaken, IsNoFlaw, WereTaken};

use crate::conf::Conf;
use crate::fault::{ConfFault, ConfFlaw};
use crate::values::conf_of;
use kv_outside::Source;
use std::alloc::Global;

/// The most bytes of a configuration.
const MOST_BYTES: usize = 65536;

/// The most bytes that are read at once.
const PIECE: usize = 4096;

/// Reads the bytes of a configuration.
///
/// They are a TOML document in UTF-8 of at most 65,536 bytes with these keys and no others: `dir`, the folder of the
/// store, a text that is not empty; `listen`, a text `HOST:PORT`, parted at its last colon, with a host that is not
/// empty and a port from 0 to 65,535 in decimal digits with no zero in front of another; and `workers`, an integer from
/// 1 to 64, which may be left out and then is 4. `Conf` tells the first flaw of other bytes. Where memory runs out
/// `NoMem` may come for any bytes. `ReadFault` never comes.
#[tactic(auto, using(crate::proofs::Judging::configured_long, crate::proofs::Judging::configured_table, crate::proofs::Judging::configured_none))]
pub fn parse_conf(alloc: Global, bytes: &[u8]) -> Result<Conf, ConfFault>
    ensures { ConfAnswers (configured bytes.now) result }
{
    if bytes.len() > MOST_BYTES {
        return Err(ConfFault::Conf(ConfFlaw::TooLong));
    }
    match toml::table_from_slice(alloc, bytes) {
        Ok(table) => conf_of(alloc, &table),
        Err(error) if error.is_memory() => Err(ConfFault::NoMem),
        Err(_) => Err(ConfFault::Conf(ConfFlaw::NoToml)),
    }
}

/// Takes bytes from the source, to its end or until there are more than a configuration has.
#[tactic(auto, using(crate::proofs::Taking::taken_all, crate::proofs::Taking::taken_many, crate::proofs::Taking::taken_more, kv_outside::specs::TakenLaws::nothing_taken))]
fn take_bytes<S: Source>(alloc: Global, source: &mut S) -> Result<Vec<u8>, ConfFault>
    ensures outside { IfErr result IsNoFlaw }
    ensures taken { IfOk result (λ bytes. WereTaken (S.left source.old) (S.left source.new) (S.ended source.new) bytes.items) }
    ensures cause { IsErrOf result ConfFault.ReadFault → Rose (S.faults source.old) (S.faults source.new) }
    ensures later { S.faults source.old ≤ S.faults source.new }
{
    let mut bytes = Vec::new(alloc);
    let mut buffer = [0u8; PIECE];
    'pieces: while bytes.len() <= MOST_BYTES {
        let room = PIECE.min(MOST_BYTES + 1 - bytes.len());
        let (piece, _) = buffer.split_at_mut(room);
        let count = source.read(piece)?;
        if count == 0 {
            return Ok(bytes);
        }
        let (taken, _) = piece.split_at(count);
        bytes.extend_from_slice(taken)?;
    }
    Ok(bytes)
}

/// Reads a configuration from a source, to its end, or until there are more than 65,536 bytes, which is `TooLong`.
///
/// `ReadFault` comes only where the source failed. Else the answer is that of `parse_conf` for the bytes that were taken.
#[tactic(auto, using(crate::proofs::Taking::answers_taken, crate::proofs::Taking::none_unread, crate::proofs::Taking::fault_taken))]
pub fn read_conf<S: Source>(alloc: Global, source: &mut S) -> Result<Conf, ConfFault>
    ensures answer { AnswersTaken (S.left source.old) (S.left source.new) (S.ended source.new) result }
    ensures cause { IsErrOf result ConfFault.ReadFault → Rose (S.faults source.old) (S.faults source.new) }
    ensures later { S.faults source.old ≤ S.faults source.new }
{
    let bytes = take_bytes(alloc, source)?;
    parse_conf(alloc, bytes.as_slice())
}
