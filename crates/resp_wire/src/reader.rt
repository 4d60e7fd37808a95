ghost use Rattle.std.specs.Prelude.{◌≡◌, ◌<◌, ◌++◌, List, [], length, MatchOption, IfErr, IfOk, IfSome, IfNone, OnOk, OnErr};
ghost use Rattle.resp_wire.specs.Grammar.{requests, Whole, Open};
ghost use Rattle.resp_wire.specs.Reading.{ReadsRequest, IsUnfinished, Refused, AsksInside};

use crate::pending::{Pending, begin, drop_front, read_words};
use crate::stop::NextFault;
use kv_base::{Blobs, NoMem};
use std::alloc::Global;
use std::marker::Model;
use std::mem;

/// A reader of requests, which takes its bytes in any pieces. Contracts see it as the bytes that were fed and are not
/// yet handed out.
///
/// A request is an array of bulk strings, as the RESP2 protocol specification has it: `*`, the number of words, and for
/// each word `$`, its length in bytes, and its bytes. Any other first byte begins an inline line, whose words are parted
/// by spaces and tabs; it ends at a line feed, and one carriage return before that is none of it. An empty array, the
/// null array `*-1` and a line without words are passed over.
///
/// This server takes at most 65,536 words, each of at most 1,048,576 bytes, whose lengths with 16 more for each make at
/// most 16,777,216, and a number is written without a sign or a leading zero. An inline line has at most 65,536 bytes
/// before its line feed, and no quotes.
#[derive(Drop)]
pub struct Reader {
    alloc: Global,
    buf: Vec<u8>,
    pending: Pending,
}

impl Model for Reader {
    ghost use Rattle.std.specs.Prelude.{List, ℕ, drop};
    ghost use Rattle.resp_wire.specs.Held.{IsHeld};

    ghost Value = { List ℕ };

    ghost view = { λ r. drop r.pending.start r.buf.items };

    ghost invariant = { λ r. IsHeld r.buf.items r.pending };
}

impl Reader {
    /// A reader that was fed nothing.
    pub fn new(alloc: Global) -> Reader
        ensures { result ≡ [] }
    {
        let pending = Pending {
            start: 0,
            next: 0,
            words: Blobs::new(alloc),
            missing: 0,
            room: 0,
        };
        Reader {
            alloc,
            buf: Vec::new(alloc),
            pending,
        }
    }

    /// Adds the piece at the end. After an error the reader is as it was.
    pub fn feed(&mut self, piece: &[u8]) -> Result<(), NoMem>
        ensures ok { OnOk result (self.new ≡ self.old ++ piece.now) }
        ensures err { OnErr result (self.new ≡ self.old) }
    {
        drop_front(&mut self.buf, &mut self.pending);
        self.buf.extend_from_slice(piece)?;
        Ok(())
    }

    /// The next request that has words, or `None` where the bytes left are the beginning of a request, or none. Of an
    /// unfinished request the reader keeps what it has read, and how far it has searched a line, so that no byte of a
    /// word is read twice.
    ///
    /// `NoMem` comes alone inside an array that has words, and at the end of a line that has words. It leaves all
    /// requests, so the call may be tried again. A fault of the wire is found at the first byte that shows it. It comes
    /// again at each further call, whatever is fed.
    pub fn next(&mut self) -> Result<Option<Blobs>, NextFault>
        ensures some { IfOk result (λ got. IfSome got (λ words.
            ReadsRequest self.old words self.new
            × (length self.new < length self.old)
            × (0 < length words))) }
        ensures none { IfOk result (λ got. IfNone got
            (ReadsRequest self.old [] self.new × IsUnfinished self.new)) }
        ensures fault { IfErr result (λ e. Refused self.old e) }
        ensures again { IfErr result (λ e. Refused self.new e) }
        ensures memory { IfErr result (λ e. AsksInside self.new e) }
        ensures err { OnErr result (ReadsRequest self.old [] self.new) }
    {
        if !begin(self.alloc, &self.buf, &mut self.pending)? {
            return Ok(None);
        }
        if !read_words(self.alloc, &self.buf, &mut self.pending)? {
            return Ok(None);
        }
        self.pending.start = self.pending.next;
        let words = mem::replace(&mut self.pending.words, Blobs::new(self.alloc));
        Ok(Some(words))
    }

    /// How many bytes are left of an unfinished request; `None` where the input ended behind a request. The place of its
    /// first byte in the input is the number of bytes fed in all less these.
    pub fn finish(&self) -> Option<usize>
        ensures left { MatchOption result
            (self.now ≡ [])
            (λ left. (left ≡ length self.now) × (0 < left)) }
        ensures end { IsUnfinished self.now → MatchOption result
            ((requests self.now).1 ≡ Whole)
            (λ left. (requests self.now).1 ≡ Open left) }
    {
        let left = self.buf.len() - self.pending.start;
        if left == 0 { None } else { Some(left) }
    }
}
