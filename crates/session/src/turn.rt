ghost use Rattle.std.specs.Prelude.{◌≡◌, IsTrue, Ok};
ghost use Rattle.redis_model.specs.Asks.{Call};
ghost use Rattle.redis_model.specs.Limits.{IsWithin};
ghost use Rattle.cmd_words.specs.Words.{AreRequestWords};
ghost use Rattle.session.specs.Talk.{Asks, Turn, TurnBy, IsLawful, asked};

use crate::answer::Answer;
use cmd_words::{Parsed, parse};
use kv_base::Blobs;
use redis_model::{Command, Desk};
use std::alloc::Global;

/// Puts a command to the desk, at the next reading of its clock.
fn ask<D: Desk>(desk: &mut D, mut command: Command) -> Answer
    requires within { IsWithin command }
    ensures asks { Asks D.told desk.old desk.new (Call command) result }
    ensures loans { D.loans desk.new ≡ D.loans desk.old }
{
    let now = desk.now();
    command.fall_due(now);
    match desk.call(now, command) {
        Ok(reply) => Answer::Reply(reply),
        Err(fault) => Answer::Fault(fault),
    }
}

/// Answers what words were read into.
fn answer<D: Desk>(desk: &mut D, parsed: Parsed) -> Answer
    requires { IsLawful parsed }
    ensures turn { TurnBy D.told desk.old desk.new (asked (Ok parsed)) result }
    ensures loans { D.loans desk.new ≡ D.loans desk.old }
{
    match parsed {
        Parsed::Data(command) => ask(desk, command),
        Parsed::Quit => Answer::Quit,
        Parsed::Multi
        | Parsed::Exec
        | Parsed::Discard
        | Parsed::Pin
        | Parsed::Unpin
        | Parsed::Upkeep(_) => Answer::Unserved,
    }
}

/// Answers a request.
pub fn take_turn<D: Desk>(alloc: Global, words: Blobs, desk: &mut D) -> Answer
    requires { AreRequestWords words }
    ensures turn { Turn D.told desk.old desk.new words result }
    ensures loans { D.loans desk.new ≡ D.loans desk.old }
{
    match parse(alloc, words) {
        Ok(parsed) => answer(desk, parsed),
        Err(fault) => Answer::Refused(fault),
    }
}
