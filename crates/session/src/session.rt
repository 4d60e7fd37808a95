ghost use Rattle.std.specs.Prelude.{◌≡◌, ◌≤◌, ◌<◌, [], length, OnOk};
ghost use Rattle.session.specs.Serving.{Pulls, Serves, is_write_fault};
ghost use Rattle.session.specs.Session.{Session, IsCaused};

use crate::ending::{finish, stop};
use crate::serve::{Stopped, serve};
use kv_outside::{OutputBuffer, Sink, Source};
use redis_model::Desk;
use resp_wire::Reader;
use std::alloc::Global;

/// How a session ended.
#[derive(Clone, Copy, Debug, PartialEq, Eq)]
pub enum Outcome {
    /// The input was read to its end, between requests, or the client quit.
    Closed,
    /// There was no memory for a request.
    NoMem,
    /// The source failed.
    ReadFault,
    /// The sink failed.
    WriteFault,
    /// The input is off the wire's grammar, or ends inside a request, and the client was told so.
    Protocol,
    /// As many bytes as are taken from one source were taken.
    Spent,
}

/// The most bytes that are taken from one source.
const LIMIT: u64 = 1 << 40;

/// The most bytes that are read at once.
const PIECE: usize = 65536;

/// Feeds the reader once from the source, and answers how many bytes that was: 0 at the end of the input.
fn pull<S: Source>(reader: &mut Reader, source: &mut S, buffer: &mut [u8]) -> Result<usize, Outcome>
    requires { 0 < length buffer.old }
    ensures pulled { Pulls (S.left source.old) (S.left source.new) (S.ended source.old) (S.ended source.new) (S.faults source.old) (S.faults source.new) reader.old reader.new (length buffer.old) result }
    ensures later { S.faults source.old ≤ S.faults source.new }
{
    let count = match source.read(buffer) {
        Ok(count) => count,
        Err(_) => return Err(Outcome::ReadFault),
    };
    let (piece, _) = buffer.split_at(count);
    match reader.feed(piece) {
        Ok(()) => Ok(count),
        Err(_) => Err(Outcome::NoMem),
    }
}

/// Whether the sink failed.
fn has_no_sink(served: &Result<(), Stopped>) -> bool
    ensures { result ≡ is_write_fault served.now }
{
    matches!(served, Err(Stopped::WriteFault))
}

/// Answers the requests that are whole, and passes the answers on.
fn attend<D: Desk, K: Sink>(
    alloc: Global,
    reader: &mut Reader,
    desk: &mut D,
    output: &mut OutputBuffer,
    sink: &mut K,
) -> Result<(), Stopped>
    ensures served { Serves D.told desk.old desk.new (K.held sink.old) (K.held sink.new) output.old.bytes [] (K.faults sink.old) (K.faults sink.new) reader.old reader.new result }
    ensures empty { OnOk result (output.new.bytes ≡ []) }
    ensures later { K.faults sink.old ≤ K.faults sink.new }
    ensures loans { D.loans desk.new ≡ D.loans desk.old }
{
    let served = serve(alloc, reader, desk, output, sink);
    if has_no_sink(&served) {
        return served;
    }
    output.flush(sink)?;
    served
}

/// Serves one client: reads requests from the source, puts what they ask for to the desk, and writes one answer for each
/// to the sink, in order. Answers to requests that came in together leave together. A request whose words are no command,
/// or ask for what is not served yet, is answered with an error, and the session goes on; so it is after a fault of the
/// desk, and where there is no memory to read the words.
///
/// The session is over behind the answer to `QUIT`, and else at the end of the input. At most 2^40 bytes are taken. It
/// ends earlier where the source or the sink fails, where there is no memory for a request, and where the input is off
/// the wire's grammar: then the client is told `-ERR Protocol error: KIND at PLACE`, behind the answers to all requests
/// before, and so it is where the input ends inside a request.
pub fn serve_session<S: Source, K: Sink, D: Desk>(
    alloc: Global,
    desk: &mut D,
    source: &mut S,
    sink: &mut K,
) -> Outcome
    ensures session { Session D.told result desk.old desk.new (S.left source.old) (S.left source.new) (K.held sink.old) (K.held sink.new) (S.ended source.old) (S.ended source.new) }
    ensures caused { IsCaused result (S.faults source.old) (S.faults source.new) (K.faults sink.old) (K.faults sink.new) }
    ensures loans { D.loans desk.new ≡ D.loans desk.old }
{
    let mut reader = Reader::new(alloc);
    let mut output = OutputBuffer::new(alloc);
    let mut buffer = [0u8; PIECE];
    let mut taken = 0u64;
    while taken < LIMIT {
        let room = (LIMIT - taken).min(PIECE as u64) as usize;
        let (piece, _) = buffer.split_at_mut(room);
        let count = match pull(&mut reader, source, piece) {
            Ok(count) => count,
            Err(outcome) => return outcome,
        };
        if count == 0 {
            return finish(alloc, &reader, taken, sink);
        }
        taken += count as u64;
        if let Err(stopped) = attend(alloc, &mut reader, desk, &mut output, sink) {
            return stop(alloc, stopped, taken, sink);
        }
    }
    Outcome::Spent
}
