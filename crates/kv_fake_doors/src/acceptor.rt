ghost use Rattle.std.specs.Prelude.{◌≡◌, map, Some, IsErr};
ghost use Rattle.kv_outside.specs.Causes.{HasCause};
ghost use Rattle.kv_doors.specs.Accepting.{Accepts};
ghost use Rattle.kv_fakes.specs.Tally.{Counts, IsListed};

use crate::shared_sink::SharedSink;
use kv_base::Items;
use kv_doors::Acceptor;
use kv_fakes::{Calls, MemSource};
use kv_outside::Failed;
use std::marker::Model;
use std::sync::Wait;

/// A link to a client in memory.
#[derive(Drop)]
pub struct Link<R: Wait + Copy> {
    /// What the client sends.
    pub source: MemSource,
    /// What the client is sent.
    pub sink: SharedSink<R>,
}

/// Links, in the order in which they come.
pub type Links<R> = Items<Link<R>>;

/// An acceptor of known links.
#[derive(Drop)]
pub struct MemAcceptor<R: Wait + Copy> {
    links: Links<R>,
    /// The numbers, from 0, of the accepts that fail.
    fails: Calls,
    made: u64,
    failed: u64,
}

/// Contracts see what the clients to come send, and its calls.
impl<R: Wait + Copy> Model for MemAcceptor<R> {
    ghost use Rattle.std.specs.Prelude.{map};
    ghost use Rattle.kv_fake_doors.specs.Acceptor.{AcceptorParts};

    ghost Value = { AcceptorParts };

    ghost view = { λ a. record {
      to_come = map (λ link. link.source.left) a.links;
      calls = record { fails = a.fails; made = a.made; failed = a.failed };
    } };
}

impl<R: Wait + Copy> MemAcceptor<R> {
    /// An acceptor of these links, whose accepts of these numbers, from 0, fail.
    pub fn new(links: Links<R>, fails: Calls) -> MemAcceptor<R>
        ensures to_come { result.to_come ≡ map (λ link. link.source.left) links }
        ensures fails { result.calls.fails ≡ fails }
        ensures made { result.calls.made ≡ 0 }
        ensures failed { result.calls.failed ≡ 0 }
    {
        MemAcceptor {
            links,
            fails,
            made: 0,
            failed: 0,
        }
    }
}

impl<R: Wait + Copy> Acceptor for MemAcceptor<R> {
    type In = MemSource;

    type Out = SharedSink<R>;

    ghost to_come = { λ a. Some a.to_come };

    ghost faults = { λ a. a.calls.failed };

    /// Hands out the first of the links left. It fails exactly where the call's number is listed.
    fn accept(&mut self) -> Result<Option<(MemSource, SharedSink<R>)>, Failed>
        ensures links { Accepts (λ source. Some source.left) (Some self.old.to_come) (Some self.new.to_come) result }
        ensures cause { HasCause self.old.calls.failed self.new.calls.failed result }
        ensures counts { Counts self.old.calls self.new.calls result }
        ensures only { IsErr result → IsListed self.old.calls }
    {
        let number = self.made;
        self.made = self.made.saturating_add(1);
        if self.fails.as_slice().contains(&number) {
            self.failed = self.failed.saturating_add(1);
            return Err(Failed);
        }
        if self.links.is_empty() {
            return Ok(None);
        }
        let Link { source, sink } = self.links.remove(0);
        Ok(Some((source, sink)))
    }
}
