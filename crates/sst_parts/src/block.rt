//! Blocks as they are filled.

ghost use Rattle.std.specs.Prelude.{◌≡◌, ◌≤◌, ◌<◌, ◌^◌, ◌++◌, [], IfOk, OnOk, Some, None, length, drop};
ghost use Rattle.kv_base.specs.Fields.{text as text_of, u32, u64};
ghost use Rattle.kv_base.specs.RowRefs.{row_seen};
ghost use Rattle.sst_parts.specs.RowTexts.{row_parts, row_text};

use crate::row::{DELETE, PUT};
use kv_base::{NoMem, RowRef};
use std::alloc::Global;
use std::marker::Model;

/// A block is closed after the row with which its body reaches so many bytes.
pub const BLOCK_SIZE: usize = 4096;

/// How many bytes stand before a body: its length.
const BEFORE: usize = 4;

/// A block that is being filled. Contracts see it as the bytes of its body so far.
#[derive(Drop)]
pub struct BlockWriter {
    buffer: Vec<u8>,
}

impl Model for BlockWriter {
    ghost use Rattle.std.specs.Prelude.{◌≤◌, List, ℕ, drop, length};
    ghost use Rattle.std.specs.Coded.{coded_list, coded_ℕ};

    ghost Value = { List ℕ };

    ghost coded = { coded_list coded_ℕ };

    ghost view = { λ w. drop 4 w.buffer.items };

    ghost invariant = { λ w. 4 ≤ length w.buffer.items };
}

impl BlockWriter {
    /// A block without rows.
    pub fn new(alloc: Global) -> Result<BlockWriter, NoMem>
        ensures { IfOk result (λ block. block ≡ []) }
    {
        let mut buffer = Vec::with_capacity(alloc, BEFORE + BLOCK_SIZE)?;
        // The length comes in when the block is closed.
        buffer.extend_from_slice(&[0; BEFORE])?;
        Ok(BlockWriter { buffer })
    }

    /// Adds a row. Where there is no memory, or a length fits no four bytes, a part of the row may stand there: the
    /// block is not to be finished then.
    #[tactic(auto, unfolding(crate::specs::RowTexts::row_text))]
    pub fn push(&mut self, row: RowRef<'_>) -> Result<(), NoMem>
        ensures { OnOk result (self.new ≡ self.old ++ row_text (row_seen row.entry)) }
    {
        match row.value {
            Some(value) => self.push_put(row.raw, row.seq, value),
            None => self.push_delete(row.raw, row.seq),
        }
    }

    #[tactic(auto, unfolding(kv_base::specs::Fields::u64), using(crate::specs::RowTextLaws::row_put_written))]
    fn push_put(&mut self, raw: &[u8], seq: u64, value: &[u8]) -> Result<(), NoMem>
        ensures { OnOk result (self.new ≡ self.old ++ row_parts raw.now seq (Some value.now)) }
    {
        self.put(&[PUT])?;
        self.put_text(raw)?;
        self.put(&seq.to_be_bytes())?;
        self.put_text(value)
    }

    #[tactic(auto, unfolding(kv_base::specs::Fields::u64), using(crate::specs::RowTextLaws::row_delete_written))]
    fn push_delete(&mut self, raw: &[u8], seq: u64) -> Result<(), NoMem>
        ensures { OnOk result (self.new ≡ self.old ++ row_parts raw.now seq None) }
    {
        self.put(&[DELETE])?;
        self.put_text(raw)?;
        self.put(&seq.to_be_bytes())
    }

    /// How many bytes the body has.
    pub fn len(&self) -> usize
        ensures { result ≡ length self.now }
    {
        self.buffer.len() - BEFORE
    }

    /// The block's bytes, the length of its body in front. There are none where that length fits no four bytes.
    #[tactic(auto, unfolding(kv_base::specs::Fields::text))]
    pub fn finish(self) -> Result<Vec<u8>, NoMem>
        ensures { IfOk result (λ bytes. bytes.items ≡ text_of self) }
    {
        let BlockWriter { mut buffer } = self;
        let Ok(length) = u32::try_from(buffer.len() - BEFORE) else {
            return Err(NoMem);
        };
        fill_in(buffer.as_mut_slice(), length);
        Ok(buffer)
    }

    fn put(&mut self, bytes: &[u8]) -> Result<(), NoMem>
        ensures { OnOk result (self.new ≡ self.old ++ bytes.now) }
    {
        self.buffer.extend_from_slice(bytes)?;
        Ok(())
    }

    #[tactic(auto, unfolding(kv_base::specs::Fields::text, kv_base::specs::Fields::u32), using(std::proofs::Common::append_assoc))]
    fn put_text(&mut self, text: &[u8]) -> Result<(), NoMem>
        ensures { OnOk result (self.new ≡ self.old ++ text_of text.now) }
    {
        let Ok(length) = u32::try_from(text.len()) else {
            return Err(NoMem);
        };
        self.put(&length.to_be_bytes())?;
        self.put(text)
    }
}

/// Writes the number over the first four bytes.
#[tactic(auto, unfolding(kv_base::specs::Fields::u32))]
fn fill_in(buffer: &mut [u8], number: u32)
    requires { 4 ≤ length buffer.old }
    ensures { buffer.new ≡ u32 number ++ drop 4 buffer.old }
{
    let (front, _) = buffer.split_at_mut(BEFORE);
    front.copy_from_slice(&number.to_be_bytes());
}
