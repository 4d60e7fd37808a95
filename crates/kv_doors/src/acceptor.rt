ghost use Rattle.std.specs.Prelude.{Option, List, ℕ};
ghost use Rattle.kv_outside.specs.Causes.{HasCause};
ghost use Rattle.kv_doors.specs.Accepting.{Accepts};

use kv_outside::{Failed, Sink, Source};

/// What accepts the links of clients, one after the other.
pub trait Acceptor {
    /// What a client sends.
    type In: Source + Drop;

    /// What a client is sent.
    type Out: Sink + Drop;

    /// The links to come, each as the bytes that its client sends, where they are told.
    ghost to_come: { Self → Option (List (List ℕ)) };

    /// How often accepting has failed. The count never falls, and stays at 2^64 - 1.
    ghost faults: { Self → ℕ };

    /// The next link, or `None` where accepting has ended: where the links to come are told, exactly where there is
    /// none. After a fault the links to come are as before.
    fn accept(&mut self) -> Result<Option<(Self::In, Self::Out)>, Failed>
        ensures links { Accepts Self.In.left (to_come self.old) (to_come self.new) result }
        ensures cause { HasCause (faults self.old) (faults self.new) result };
}
