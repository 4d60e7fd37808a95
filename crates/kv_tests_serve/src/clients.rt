//! Clients of a server, which are links in memory, and what they are told.

use kv_base::{Blob, NoMem};
use kv_fake_doors::{Link, Links, MemAcceptor, SharedSink};
use kv_fakes::{Calls, MemClock, MemDisk, MemSource, Readings, Sizes};
use kv_server::top_serve;
use std::alloc::Global;
use std::sync::Wait;

/// Clients in the order in which they come in.
#[derive(Drop)]
pub struct Clients<R: Wait + Copy> {
    alloc: Global,
    rt: R,
    links: Links<R>,
    /// The sinks of the links once more.
    sinks: Vec<SharedSink<R>>,
}

/// How serving ended, and what each client was told.
#[derive(Drop)]
pub struct Served<R: Wait + Copy> {
    pub status: u8,
    alloc: Global,
    sinks: Vec<SharedSink<R>>,
}

impl<R: Wait + Copy> Clients<R> {
    /// No client.
    pub fn new(rt: R, alloc: Global) -> Clients<R> {
        Clients {
            alloc,
            rt,
            links: Links::new(alloc),
            sinks: Vec::new(alloc),
        }
    }

    /// A client that sends these bytes.
    pub fn add(&mut self, sends: &[u8]) -> Result<(), NoMem> {
        let none = Calls::new(self.alloc);
        let source = MemSource::new(Blob::copy(self.alloc, sends)?, Sizes::new(self.alloc), none);
        self.link(source, Calls::new(self.alloc))
    }

    /// A client that sends these bytes, eight at a time, and whose read of this number, from 0, fails.
    pub fn add_unread(&mut self, sends: &[u8], read: u64) -> Result<(), NoMem> {
        let eights = Sizes::from_slice(self.alloc, &[8; 8])?;
        let fails = Calls::from_slice(self.alloc, &[read])?;
        let source = MemSource::new(Blob::copy(self.alloc, sends)?, eights, fails);
        self.link(source, Calls::new(self.alloc))
    }

    /// A client that sends these bytes, eight at a time, and whose write of this number, from 0, fails.
    pub fn add_unwritten(&mut self, sends: &[u8], write: u64) -> Result<(), NoMem> {
        let eights = Sizes::from_slice(self.alloc, &[8; 8])?;
        let none = Calls::new(self.alloc);
        let source = MemSource::new(Blob::copy(self.alloc, sends)?, eights, none);
        self.link(source, Calls::from_slice(self.alloc, &[write])?)
    }

    /// The link of a client, whose writes of these numbers fail.
    fn link(&mut self, source: MemSource, writes: Calls) -> Result<(), NoMem> {
        let sink = SharedSink::new(self.rt, self.alloc, writes)?;
        self.sinks.push(sink.also()?)?;
        self.links.push(Link { source, sink })?;
        Ok(())
    }

    /// Serves these clients over these files; the accepts of these numbers, from 0, fail.
    pub fn serve(self, files: &mut MemDisk, fails: Calls) -> Result<Served<R>, NoMem> {
        let Clients {
            alloc,
            rt,
            links,
            sinks,
        } = self;
        let mut acceptor = MemAcceptor::new(links, fails);
        let status = run(&rt, alloc, &mut acceptor, files)?;
        Ok(Served {
            status,
            alloc,
            sinks,
        })
    }
}

/// Runs the server, and answers its status.
fn run<R: Wait + Copy>(
    rt: &R,
    alloc: Global,
    acceptor: &mut MemAcceptor<R>,
    files: &mut MemDisk,
) -> Result<u8, NoMem> {
    let mut words = Vec::new(alloc);
    for word in ["serve", "--conf", "kvr.toml"] {
        words.push(String::from_str(alloc, word)?)?;
    }
    let mut clock = MemClock::new(Readings::new(alloc));
    Ok(top_serve(rt, alloc, &words, acceptor, files, &mut clock))
}

impl<R: Wait + Copy> Served<R> {
    /// What the client of this number, from 0, was told: nothing where there is none of that number.
    pub fn told(&self, number: usize) -> Result<Blob, NoMem> {
        match self.sinks.get(number) {
            Some(sink) => sink.taken(self.alloc),
            None => Blob::copy(self.alloc, b""),
        }
    }
}
