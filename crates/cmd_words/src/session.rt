ghost use Rattle.std.specs.Prelude.{◌≡◌, ◌<◌, [], ◌∷◌, length, OnOk, IfErr};
ghost use Rattle.kv_base.specs.Number.{read_int as int_at};
ghost use Rattle.cmd_words.specs.Table.{level_number, kvr as kvr_row, of_session};

use crate::case::is_word;
use crate::fault::FaultKind;
use crate::parsed::Parsed;
use kv_base::{Blob, Blobs, read_int};
use redis_model::Upkeep;

/// The commands that are no data commands.
#[derive(Clone, Copy)]
pub enum SessionName {
    Multi,
    Exec,
    Discard,
    Quit,
    Kvr,
}

impl SessionName {
    /// What the words behind this name are read into.
    #[tactic(auto, unfolding(crate::specs::Table::of_session))]
    pub fn read(self, words: Blobs) -> Result<Parsed, FaultKind>
        ensures { result ≡ of_session self words }
    {
        match self {
            SessionName::Multi => {
                is_alone(&words)?;
                Ok(Parsed::Multi)
            }
            SessionName::Exec => {
                is_alone(&words)?;
                Ok(Parsed::Exec)
            }
            SessionName::Discard => {
                is_alone(&words)?;
                Ok(Parsed::Discard)
            }
            SessionName::Quit => {
                is_alone(&words)?;
                Ok(Parsed::Quit)
            }
            SessionName::Kvr => kvr(words.as_slice()),
        }
    }
}

/// Where no word stands behind the name.
fn is_alone(words: &Blobs) -> Result<(), FaultKind>
    ensures ok { OnOk result (length words.now ≡ 0) }
    ensures err { IfErr result (λ e. (e ≡ FaultKind.Arity) × (0 < length words.now)) }
{
    if words.is_empty() {
        Ok(())
    } else {
        Err(FaultKind::Arity)
    }
}

/// A level from 0 to 3.
fn level(word: &Blob) -> Option<u8>
    ensures { result ≡ level_number (int_at word.now) }
{
    match read_int(word.bytes()) {
        Some(level) if 0 <= level && level < 4 => Some(level as u8),
        _ => None,
    }
}

#[tactic(auto, unfolding(crate::specs::Table::kvr))]
fn kvr(words: &[Blob]) -> Result<Parsed, FaultKind>
    ensures { result ≡ kvr_row words.now }
{
    match words {
        [] => Err(FaultKind::Arity),
        [word] => bare(word),
        [word, number] if is_word(word, b"compact") => match level(number) {
            Some(level) => Ok(Parsed::Upkeep(Upkeep::Compact(Some(level)))),
            None => Err(FaultKind::NotInt),
        },
        _ => Err(FaultKind::Syntax),
    }
}

/// A subcommand without a number.
#[tactic(auto, unfolding(crate::specs::Table::kvr))]
fn bare(word: &Blob) -> Result<Parsed, FaultKind>
    ensures { result ≡ kvr_row (word.now ∷ []) }
{
    if is_word(word, b"pin") {
        Ok(Parsed::Pin)
    } else if is_word(word, b"unpin") {
        Ok(Parsed::Unpin)
    } else if is_word(word, b"flush") {
        Ok(Parsed::Upkeep(Upkeep::Flush))
    } else if is_word(word, b"compact") {
        Ok(Parsed::Upkeep(Upkeep::Compact(None)))
    } else if is_word(word, b"levels") {
        Ok(Parsed::Upkeep(Upkeep::Levels))
    } else {
        Err(FaultKind::Syntax)
    }
}
