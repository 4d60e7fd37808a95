ghost use Rattle.std.specs.Prelude.{◌≡◌, ◌<◌, ◌≤◌, ◌+◌, ◌++◌, ◌∷◌, [], drop, vec_len, MatchBool, OnOk, OnErr, IfOk, IfErr};
ghost use Rattle.resp_wire.specs.Grammar.{star};
ghost use Rattle.resp_wire.specs.Lines.{BeginsLine};
ghost use Rattle.resp_wire.specs.Reading.{AsksInside, IsUnfinished, ReadsRequest, Refused};
ghost use Rattle.resp_wire.specs.Held.{AsksWord, Fails, HasHeader, IsHeld, IsIdle, Opens, after_search, answer_of, opening_of};

use crate::line::line;
use crate::parts::{WORD_COST, bulk, count};
use crate::stop::{NextFault, Stop};
use crate::words::{keep, line_words};
use kv_base::Blobs;
use std::alloc::Global;

/// What a request may hold: its words' bytes, and 16 more for each word.
const MAX_REQUEST: usize = 16_777_216;

/// What is read of the first request that is not handed out.
#[derive(Drop)]
pub struct Pending {
    /// Where the request begins.
    pub start: usize,
    /// Where reading goes on. Of an inline line that is not there whole, the bytes before it were searched.
    pub next: usize,
    /// The words between the two.
    pub words: Blobs,
    /// How many words are still to be read; none where it is not known yet how many the request has.
    pub missing: usize,
    /// How much the missing words may take.
    pub room: usize,
}

/// Drops what was handed out from the buffer, where it is at least half of it: so each byte is moved a bounded number
/// of times.
pub fn drop_front(buf: &mut Vec<u8>, pending: &mut Pending)
    requires { IsHeld buf.old.items pending.old }
    ensures held { IsHeld buf.new.items pending.new }
    ensures left { drop pending.new.start buf.new.items ≡ drop pending.old.start buf.old.items }
    ensures short { pending.new.start + pending.new.start ≤ vec_len buf.new }
{
    let start = pending.start;
    let len = buf.len();
    if start < len - start {
        return;
    }
    buf.as_mut_slice().copy_within(start..len, 0);
    buf.truncate(len - start);
    pending.next -= start;
    pending.start = 0;
}

/// What is answered where a part was not read: that it is not there yet, or a fault.
fn stopped(stop: Stop) -> Result<bool, NextFault>
    ensures { result ≡ answer_of stop }
{
    match stop {
        Stop::More => Ok(false),
        Stop::Bad(kind, left) => Err(NextFault::Wire(kind, left)),
    }
}

/// What stands where a request is to begin.
#[derive(Clone, Copy, Debug, PartialEq, Eq)]
pub enum Opening {
    /// Nothing, or less than tells whether the request has words.
    Unfinished,
    /// A request without words, which was passed over.
    Empty,
    /// A request with words, which is begun.
    Begun,
}

/// What is answered where it is not told yet whether a request has words, or where a fault stands.
fn unopened(stop: Stop) -> Result<Opening, NextFault>
    ensures { result ≡ opening_of stop }
{
    match stop {
        Stop::More => Ok(Opening::Unfinished),
        Stop::Bad(kind, left) => Err(NextFault::Wire(kind, left)),
    }
}

/// ReadsRequest the first line of an array, behind its `*`.
fn open_array(buf: &[u8], behind: &[u8], pending: &mut Pending) -> Result<Opening, NextFault>
    requires idle { IsIdle buf.now pending.old }
    requires here { drop pending.old.start buf.now ≡ star ∷ behind.now }
    ensures ok { IfOk result (λ opening. Opens buf.now pending.old pending.new opening) }
    ensures err { IfErr result (λ e. Fails buf.now pending.old pending.new e) }
{
    let (count, rest) = match count(behind) {
        Ok(found) => found,
        Err(stop) => return unopened(stop),
    };
    pending.next = buf.len() - rest.len();
    if count == 0 {
        pending.start = pending.next;
        return Ok(Opening::Empty);
    }
    pending.missing = count;
    pending.room = MAX_REQUEST;
    Ok(Opening::Begun)
}

/// What is answered where no inline line was found. Where its end is not there yet, all bytes were searched.
fn searched(stop: Stop, len: usize, pending: &mut Pending) -> Result<Opening, NextFault>
    ensures answer { result ≡ opening_of stop }
    ensures pending { pending.new ≡ after_search stop len pending.old }
{
    if stop == Stop::More {
        pending.next = len;
    }
    unopened(stop)
}

/// ReadsRequest an inline line, which is searched on from where it was searched before.
fn open_line(alloc: Global, buf: &[u8], pending: &mut Pending) -> Result<Opening, NextFault>
    requires idle { IsIdle buf.now pending.old }
    requires begins { BeginsLine (drop pending.old.start buf.now) }
    ensures ok { IfOk result (λ opening. Opens buf.now pending.old pending.new opening) }
    ensures err { IfErr result (λ e. Fails buf.now pending.old pending.new e) }
{
    let (_, rest) = buf.split_at(pending.start);
    let (text, behind) = match line(pending.next - pending.start, rest) {
        Ok(found) => found,
        Err(stop) => return searched(stop, buf.len(), pending),
    };
    let words = line_words(alloc, text)?;
    pending.next = buf.len() - behind.len();
    if words.is_empty() {
        pending.start = pending.next;
        return Ok(Opening::Empty);
    }
    pending.words = words;
    Ok(Opening::Begun)
}

/// ReadsRequest what stands where a request is to begin.
fn open_next(alloc: Global, buf: &[u8], pending: &mut Pending) -> Result<Opening, NextFault>
    requires { IsIdle buf.now pending.old }
    ensures ok { IfOk result (λ opening. Opens buf.now pending.old pending.new opening) }
    ensures err { IfErr result (λ e. Fails buf.now pending.old pending.new e) }
{
    let (_, rest) = buf.split_at(pending.start);
    let [first, behind @ ..] = rest else {
        return Ok(Opening::Unfinished);
    };
    if *first == b'*' {
        open_array(buf, behind, pending)
    } else {
        open_line(alloc, buf, pending)
    }
}

/// Passes over requests without words and begins the next one: whether there is one.
pub fn begin(alloc: Global, buf: &[u8], pending: &mut Pending) -> Result<bool, NextFault>
    requires { IsHeld buf.now pending.old }
    ensures forward { pending.old.start ≤ pending.new.start }
    ensures skipped { ReadsRequest (drop pending.old.start buf.now) [] (drop pending.new.start buf.now) }
    ensures found { IfOk result (λ found. MatchBool found
        (HasHeader buf.now pending.new)
        (IsHeld buf.now pending.new × IsUnfinished (drop pending.new.start buf.now))) }
    ensures held { OnErr result (IsHeld buf.now pending.new) }
    ensures fault { IfErr result (λ e. Refused (drop pending.new.start buf.now) e) }
    ensures memory { IfErr result (λ e. AsksInside (drop pending.new.start buf.now) e) }
{
    if pending.missing > 0 {
        return Ok(true);
    }
    loop {
        match open_next(alloc, buf, pending)? {
            Opening::Unfinished => return Ok(false),
            Opening::Begun => return Ok(true),
            Opening::Empty => {}
        }
    }
}

/// ReadsRequest the words that are missing: whether all are there.
pub fn read_words(alloc: Global, buf: &[u8], pending: &mut Pending) -> Result<bool, NextFault>
    requires { HasHeader buf.now pending.old }
    ensures begun { HasHeader buf.now pending.new }
    ensures start { pending.new.start ≡ pending.old.start }
    ensures read { IfOk result (λ whole. MatchBool whole
        (pending.new.missing ≡ 0)
        ((0 < pending.new.missing) × IsUnfinished (drop pending.new.start buf.now))) }
    ensures fault { IfErr result (λ e.
        (0 < pending.new.missing) × Refused (drop pending.new.start buf.now) e) }
    ensures memory { IfErr result (λ e. AsksWord buf.now pending.new e) }
{
    while pending.missing > 0 {
        let (_, rest) = buf.split_at(pending.next);
        match bulk(pending.room, rest) {
            Ok((word, behind)) => {
                keep(alloc, &mut pending.words, word)?;
                pending.next = buf.len() - behind.len();
                pending.missing -= 1;
                pending.room = pending.room.saturating_sub(word.len() + WORD_COST);
            }
            Err(stop) => return stopped(stop),
        }
    }
    Ok(true)
}
