ghost use Rattle.std.specs.Prelude.{◌≡◌, ◌+◌, ◌≤◌, [], ◌∷◌, ◌++◌, length, drop, IfOk, OnOk, OnErr};
ghost use Rattle.kv_base.specs.Fields.{u32, u64, text as text_of};

use crate::body::{BEFORE, BEHIND, MAX_BODY, RecordBody};
use kv_base::NoMem;
use std::alloc::Global;
use std::marker::Model;

/// A body that is being written. Contracts see it as the list of the bytes so far.
#[derive(Drop)]
pub struct BodyWriter {
    buffer: Vec<u8>,
}

impl Model for BodyWriter {
    ghost use Rattle.std.specs.Prelude.{◌≤◌, List, ℕ, drop, length};
    ghost use Rattle.std.specs.Coded.{coded_list, coded_ℕ};

    ghost Value = { List ℕ };

    ghost coded = { coded_list coded_ℕ };

    ghost view = { λ w. drop 4 w.buffer.items };

    ghost invariant = { λ w. 4 ≤ length w.buffer.items };
}

/// Writes the number over the first four bytes.
#[tactic(auto, unfolding(kv_base::specs::Fields::u32))]
fn fill_in(buffer: &mut [u8], number: u32)
    requires { 4 ≤ length buffer.old }
    ensures { buffer.new ≡ u32 number ++ drop 4 buffer.old }
{
    let (front, _) = buffer.split_at_mut(BEFORE);
    front.copy_from_slice(&number.to_be_bytes());
}

impl BodyWriter {
    /// A body without bytes.
    pub fn new(alloc: Global) -> Result<BodyWriter, NoMem>
        ensures { IfOk result (λ writer. writer ≡ []) }
    {
        BodyWriter::with_capacity(alloc, 0)
    }

    /// A body without bytes, in a buffer with room for so many and for what stands around them.
    pub fn with_capacity(alloc: Global, capacity: usize) -> Result<BodyWriter, NoMem>
        ensures { IfOk result (λ writer. writer ≡ []) }
    {
        let mut buffer = Vec::with_capacity(alloc, capacity.saturating_add(BEFORE + BEHIND))?;
        // The length comes in when the body is finished.
        buffer.extend_from_slice(&[0; BEFORE])?;
        Ok(BodyWriter { buffer })
    }

    /// How many bytes were written.
    pub fn len(&self) -> usize
        ensures { result ≡ length self.now }
    {
        self.buffer.len() - BEFORE
    }

    /// Adds a byte. Where memory is short the body stays as it was.
    pub fn push(&mut self, byte: u8) -> Result<(), NoMem>
        ensures ok { OnOk result (self.new ≡ self.old ++ byte ∷ []) }
        ensures err { OnErr result (self.new ≡ self.old) }
    {
        self.put(&[byte])
    }

    /// Adds these bytes. Where memory is short the body stays as it was.
    pub fn put(&mut self, bytes: &[u8]) -> Result<(), NoMem>
        ensures ok { OnOk result (self.new ≡ self.old ++ bytes.now) }
        ensures err { OnErr result (self.new ≡ self.old) }
    {
        self.buffer.extend_from_slice(bytes)?;
        Ok(())
    }

    /// Adds a number as four bytes, the highest first. Where memory is short the body stays as it was.
    #[tactic(auto, unfolding(kv_base::specs::Fields::u32))]
    pub fn put_u32(&mut self, number: u32) -> Result<(), NoMem>
        ensures ok { OnOk result (self.new ≡ self.old ++ u32 number) }
        ensures err { OnErr result (self.new ≡ self.old) }
    {
        self.put(&number.to_be_bytes())
    }

    /// Adds a number as eight bytes, the highest first. Where memory is short the body stays as it was.
    #[tactic(auto, unfolding(kv_base::specs::Fields::u64))]
    pub fn put_u64(&mut self, number: u64) -> Result<(), NoMem>
        ensures ok { OnOk result (self.new ≡ self.old ++ u64 number) }
        ensures err { OnErr result (self.new ≡ self.old) }
    {
        self.put(&number.to_be_bytes())
    }

    /// Adds a text of at most 2^32 - 1 bytes: its length as a u32, and its bytes. Where memory is short the body stays
    /// as it was.
    #[tactic(auto, unfolding(kv_base::specs::Fields::text))]
    pub fn put_text(&mut self, text: &[u8]) -> Result<(), NoMem>
        requires { length text.now ≤ MAX_BODY }
        ensures ok { OnOk result (self.new ≡ self.old ++ text_of text.now) }
        ensures err { OnErr result (self.new ≡ self.old) }
    {
        let before = self.buffer.len();
        self.put_u32(text.len() as u32)?;
        let put = self.put(text);
        if put.is_err() {
            self.buffer.truncate(before);
        }
        put
    }

    /// The body, ready to be appended, where it has at most 2^32 - 1 bytes. It is refused where memory is short.
    pub fn finish(self) -> Result<RecordBody, NoMem>
        requires { length self ≤ MAX_BODY }
        ensures { IfOk result (λ body. body ≡ self) }
    {
        let BodyWriter { mut buffer } = self;
        let len = (buffer.len() - BEFORE) as u32;
        buffer.push(0)?;
        fill_in(buffer.as_mut_slice(), len);
        Ok(RecordBody { buffer })
    }
}
