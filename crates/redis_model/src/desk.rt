ghost use base.Fml.{GName};
ghost use Rattle.std.specs.Prelude.{◌≡◌, IsTrue, List, Some};
ghost use Rattle.redis_model.specs.Asks.{Call};
ghost use Rattle.redis_model.specs.Desk.{IsSeen, TakesOnlyReading, TakesCall, fault_of};
ghost use Rattle.redis_model.specs.DeskState.{DeskState};
ghost use Rattle.redis_model.specs.Limits.{IsWithin, IsDue};
ghost use Rattle.redis_model.specs.Places.{Opening};
ghost use Rattle.redis_model.specs.declared.history.Place.{Place};

use crate::command::Command;
use crate::reply::Reply;
use kv_base::{FileName, NoMem};
use kv_outside::Failed;

/// Why a call has no reply. The store is as before, and the next call is served.
#[derive(Clone, Copy, Debug, PartialEq, Eq)]
pub enum DeskFault {
    /// A call to the files failed.
    IoError,
    /// Want of memory.
    NoMem,
    /// What was read of a file is off its grammar, at this place in it.
    Damaged { file: FileName, place: u64 },
    /// There is no sequence number left for what the call would write.
    SeqFull,
    /// What the call would write is longer than a record can be.
    TooBig,
    /// Another job of the kind that was asked for is open.
    Busy,
}

impl From<NoMem> for DeskFault {
    ghost use Rattle.redis_model.specs.declared.desk.DeskFault.TheVariants.{NoMem};
    ghost use Rattle.std.specs.Prelude.{◌≡◌};

    ghost from_gives = { λ _ fault. fault ≡ NoMem };

    fn from(_: NoMem) -> DeskFault {
        DeskFault::NoMem
    }
}

impl From<Failed> for DeskFault {
    ghost use Rattle.redis_model.specs.declared.desk.DeskFault.TheVariants.{IoError};
    ghost use Rattle.std.specs.Prelude.{◌≡◌};

    ghost from_gives = { λ _ fault. fault ≡ IoError };

    fn from(_: Failed) -> DeskFault {
        DeskFault::IoError
    }
}

/// The fault of an answer, if it is one.
pub fn fault_in(answer: &Result<Reply, DeskFault>) -> Option<DeskFault>
    ensures { result ≡ fault_of answer.now }
{
    match answer {
        Ok(_) => None,
        Err(fault) => Some(*fault),
    }
}

/// Where one caller asks a store. Others may ask the same store at desks of their own.
///
/// A desk stands for an opening (a state of the machine, and the sequence of its last batch) and for a list of places:
/// the history since, as far as its caller has seen it, in which its own calls stand once each, in order, among those of
/// others. What it stands for is a relation, and each clause holds of every opening and history that it stood for when
/// the call began.
pub trait Desk {
    /// What is told of the desk.
    ghost told: { Self → DeskState };

    /// The references that the desk holds. No call puts another in the place of one.
    ghost loans: { Self → List GName };

    /// The next reading of the clock, in milliseconds.
    fn now(&mut self) -> u64
        ensures reading { TakesOnlyReading (told self.old) (told self.new) result }
        ensures loans { loans self.new ≡ loans self.old };

    /// Answers a command at the reading that was taken last. Amounts of time in it have become deadlines.
    fn call(&mut self, now: u64, command: Command) -> Result<Reply, DeskFault>
        requires reading { (told self.old).last ≡ Some now }
        requires within { IsWithin command }
        requires due { IsDue command }
        ensures call { TakesCall (told self.old) (told self.new) now (Call command) result }
        ensures loans { loans self.new ≡ loans self.old };

    /// Each history that it stands for is legal, and it knows whether its caller has a pin.
    ghost knows: { (desk : Self) (opening : Opening) (seen : List Place) → (told desk).stands opening seen
        → IsSeen (told desk).number (told desk).pinned opening.state seen };
}
