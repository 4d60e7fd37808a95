ghost use Rattle.std.specs.Prelude.{◌≡◌, ◌↔◌, ℕ, length, drop, false, Some, IfOk, OnErr, IsErr};
ghost use Rattle.std.specs.Io.{ReadsAtMost};
ghost use Rattle.std.specs.Io.KnownBytes.{ReadConsumes};
ghost use Rattle.kv_outside.specs.Causes.{HasCause};
ghost use Rattle.kv_outside.specs.Source.{MarksEnd};
ghost use Rattle.kv_fakes.specs.Tally.{Counts, IsListed};
ghost use Rattle.kv_fakes.specs.Source.{piece_size, later_sizes};

use crate::failures::Failures;
use crate::{Calls, Sizes};
use kv_base::Blob;
use kv_outside::{Failed, Source};
use std::marker::Model;

/// A source of known bytes, handed out in pieces of known sizes.
#[derive(Drop)]
pub struct MemSource {
    bytes: Blob,
    taken: usize,
    pieces: Sizes,
    used: usize,
    ended: bool,
    calls: Failures,
}

/// Contracts see the bytes and the sizes that are left, whether the end was answered, and its calls.
impl Model for MemSource {
    ghost use Rattle.std.specs.Prelude.{◌≤◌, length, drop};
    ghost use Rattle.kv_fakes.specs.Source.{SourceParts};

    ghost Value = { SourceParts };

    ghost view = { λ s. record { left = drop s.taken s.bytes; pieces = drop s.used s.pieces; ended = s.ended; calls = s.calls } };

    ghost invariant = { λ s. s.taken ≤ length s.bytes };
}

impl MemSource {
    /// A source of these bytes in pieces of these sizes, whose reads of these numbers, from 0, fail.
    pub fn new(bytes: Blob, pieces: Sizes, fails: Calls) -> MemSource
        ensures left { result.left ≡ bytes }
        ensures pieces { result.pieces ≡ pieces }
        ensures ended { result.ended ≡ false }
        ensures fails { result.calls.fails ≡ fails }
        ensures made { result.calls.made ≡ 0 }
        ensures failed { result.calls.failed ≡ 0 }
    {
        MemSource {
            bytes,
            taken: 0,
            pieces,
            used: 0,
            ended: false,
            calls: Failures::new(fails),
        }
    }
}

/// The size of the next piece: the size at this place, where 0 counts as 1, but no more than the room and what is left.
fn piece_of(pieces: &[u64], used: usize, room: usize, left: usize) -> usize
    ensures { result ≡ piece_size (drop used pieces.now) room left }
{
    let most = room.min(left);
    match pieces.get(used) {
        Some(size) => {
            let size = (*size).max(1);
            if size < most as u64 {
                size as usize
            } else {
                most
            }
        }
        None => most,
    }
}

impl Source for MemSource {
    ghost left = { λ s. Some s.left };

    ghost ended = { λ s. s.ended };

    ghost faults = { λ s. s.calls.failed };

    /// Hands out the next piece. It fails exactly where the call's number is listed.
    fn read(&mut self, out: &mut [u8]) -> Result<usize, Failed>
        ensures bound { ReadsAtMost result out.new }
        ensures bytes { ReadConsumes (Some self.old.left) (Some self.new.left) result out.new }
        ensures end { MarksEnd self.old.ended self.new.ended (length out.new) result }
        ensures cause { HasCause self.old.calls.failed self.new.calls.failed result }
        ensures size { IfOk result (λ count. count ≡ piece_size self.old.pieces (length out.old) (length self.old.left)) }
        ensures pieces { IfOk result (λ count. self.new.pieces ≡ later_sizes self.old.pieces) }
        ensures kept { OnErr result (self.new.pieces ≡ self.old.pieces) }
        ensures counts { Counts self.old.calls self.new.calls result }
        ensures only { IsErr result → IsListed self.old.calls }
    {
        if self.calls.turn() {
            return Err(self.calls.fail());
        }
        let (_, left) = self.bytes.bytes().split_at(self.taken);
        let count = piece_of(self.pieces.as_slice(), self.used, out.len(), left.len());
        let (piece, _) = left.split_at(count);
        let (front, _) = out.split_at_mut(count);
        front.copy_from_slice(piece);
        self.ended = self.ended || (!out.is_empty() && count == 0);
        self.taken += count;
        self.used = self.used.saturating_add(1).min(self.pieces.len());
        Ok(count)
    }
}
