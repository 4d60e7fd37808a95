//! SET and its options.

ghost use Rattle.std.specs.Prelude.{◌≡◌, Option};
ghost use Rattle.cmd_words.specs.Options.{unit as unit_at, amount as amount_at, with_when, with_time, with_word, set_options as set_options_at, set_command as set_row};

use crate::case::is_word;
use crate::counts::two_and_more;
use crate::fault::FaultKind;
use crate::places::{int, key_at, time_to_live};
use kv_base::{Blob, Blobs};
use redis_model::{Command, Expiry, When};

/// What options of SET say so far. The amount of EX or PX is judged when all options are.
#[derive(Clone, Copy)]
pub struct SetOptions {
    when: Option<When>,
    time: Option<Result<Expiry, FaultKind>>,
}

/// The milliseconds in the unit of EX or PX.
#[tactic(auto, unfolding(crate::specs::Options::unit))]
fn unit(word: &Blob) -> Option<u16>
    ensures { result ≡ unit_at word.now }
{
    if is_word(word, b"ex") {
        Some(1000)
    } else if is_word(word, b"px") {
        Some(1)
    } else {
        None
    }
}

#[tactic(auto, unfolding(crate::specs::Options::amount))]
fn amount(unit: u16, word: &Blob) -> Result<Expiry, FaultKind>
    ensures { result ≡ amount_at unit word.now }
{
    let number = int(word)?;
    time_to_live(unit, number)
}

impl SetOptions {
    const NONE: SetOptions = SetOptions {
        when: None,
        time: None,
    };

    fn with_when(self, when: When) -> Option<SetOptions>
        ensures { result ≡ with_when self when }
    {
        match self.when {
            Some(_) => None,
            None => Some(SetOptions {
                when: Some(when),
                time: self.time,
            }),
        }
    }

    fn with_time(self, time: Result<Expiry, FaultKind>) -> Option<SetOptions>
        ensures { result ≡ with_time self time }
    {
        match self.time {
            Some(_) => None,
            None => Some(SetOptions {
                when: self.when,
                time: Some(time),
            }),
        }
    }

    #[tactic(auto, unfolding(crate::specs::Options::with_word))]
    fn with_word(self, word: &Blob) -> Option<SetOptions>
        ensures { result ≡ with_word self word.now }
    {
        if is_word(word, b"nx") {
            self.with_when(When::IfAbsent)
        } else if is_word(word, b"xx") {
            self.with_when(When::IfPresent)
        } else if is_word(word, b"keepttl") {
            self.with_time(Ok(Expiry::Keep))
        } else {
            None
        }
    }
}

/// The options after those so far. It ends at the fifth word at the latest, since each option stands once.
#[tactic(auto, using(crate::proofs::Steps::set_timed, crate::proofs::Steps::set_other), unfolding(crate::specs::Options::set_options))]
fn set_options(words: &[Blob], so_far: SetOptions) -> Option<SetOptions>
    ensures { result ≡ set_options_at so_far words.now }
{
    match words {
        [] => Some(so_far),
        [word] => so_far.with_word(word),
        [word, number, rest @ ..] => match unit(word) {
            Some(unit) => {
                let more = so_far.with_time(amount(unit, number))?;
                set_options(rest, more)
            }
            None => {
                let more = so_far.with_word(word)?;
                set_options(&words[1..], more)
            }
        },
    }
}

#[tactic(auto, unfolding(crate::specs::Options::set_command))]
pub fn set(words: Blobs, weight: u64) -> Result<Command, FaultKind>
    ensures { result ≡ set_row weight words }
{
    let (key, value, options) = two_and_more(words)?;
    let key = key_at(key)?;
    let Some(options) = set_options(options.as_slice(), SetOptions::NONE) else {
        return Err(FaultKind::Syntax);
    };
    let time = options.time.unwrap_or(Ok(Expiry::None))?;
    let when = options.when.unwrap_or(When::Any);
    Ok(Command::Set(key, value, when, time, weight))
}
