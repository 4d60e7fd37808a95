//! The bytes of a record's body.

ghost use Rattle.std.specs.Prelude.{◌≡◌, ◌≤◌, ◌<◌, ◌-◌, ◌^◌, ◌++◌, ℕ, IfOk, OnOk, IsTrue, length};
ghost use Rattle.kv_base.specs.Map.{size};
ghost use Rattle.batch_codec.specs.Bodies.{body_of, entries_text, entry_text, is_moment, is_seq};
ghost use Rattle.batch_codec.specs.Slots.{slot_entry, slot_entries};

use crate::batch::Batch;
use crate::slot::{Entry, Slot};
use kv_base::NoMem;
use record_body::{BodyWriter, RecordBody};
use std::alloc::Global;

/// The bytes of sequence, moment and count.
const HEAD_LEN: u128 = 20;

/// What an entry that puts a value begins with.
pub const PUT: u8 = 1;

/// What an entry that deletes begins with.
pub const DELETE: u8 = 0;

impl Batch {
    /// The number of bytes of the batch's body, which is the same for each sequence and moment.
    pub fn body_len(&self) -> u128
        ensures { (seq moment : ℕ) → result ≡ length (body_of seq moment self.now) }
    {
        let mut total = HEAD_LEN;
        for entry in self.entries() {
            total += entry_len(entry);
        }
        total
    }
}

fn entry_len(entry: &Entry) -> u128
    ensures { result ≡ length (entry_text (slot_entry entry.now)) }
{
    let raw = entry.raw.bytes().len() as u128;
    match &entry.slot {
        Slot::Put(value) => 9 + raw + value.bytes().len() as u128,
        Slot::Del => 5 + raw,
    }
}

/// The body of the record of a batch, with its sequence and its moment in milliseconds, ready to be appended.
///
/// It is the sequence and the moment in eight bytes each, the number of entries in four, and the entries in the order of
/// their raw keys. An entry is the byte 1 and the texts of raw key and value for a put, or the byte 0 and the text of the
/// raw key for a delete. A text has its length in four bytes in front. Numbers have their high byte first.
pub fn encode_record(
    alloc: Global,
    batch: &Batch,
    seq: u64,
    moment: u64,
) -> Result<RecordBody, NoMem>
    requires sequence { IsTrue (is_seq seq) }
    requires time { IsTrue (is_moment moment) }
    requires some { 0 < size batch.now }
    requires fits { length (body_of seq moment batch.now) ≤ 2 ^ 32 - 1 }
    ensures { IfOk result (λ body. body ≡ body_of seq moment batch.now) }
{
    let mut body = BodyWriter::with_capacity(alloc, batch.body_len() as usize)?;
    body.put_u64(seq)?;
    body.put_u64(moment)?;
    body.put_u32(batch.len() as u32)?;
    write_entries(&mut body, batch.entries())?;
    body.finish()
}

fn write_entries(body: &mut BodyWriter, entries: &[Entry]) -> Result<(), NoMem>
    requires { length (entries_text (slot_entries entries.now)) < 2 ^ 32 }
    ensures { OnOk result (body.new ≡ body.old ++ entries_text (slot_entries entries.now)) }
{
    for entry in entries {
        write_entry(body, entry)?;
    }
    Ok(())
}

fn write_entry(body: &mut BodyWriter, entry: &Entry) -> Result<(), NoMem>
    requires { length (entry_text (slot_entry entry.now)) < 2 ^ 32 }
    ensures { OnOk result (body.new ≡ body.old ++ entry_text (slot_entry entry.now)) }
{
    match &entry.slot {
        Slot::Put(value) => {
            body.push(PUT)?;
            body.put_text(entry.raw.bytes())?;
            body.put_text(value.bytes())?;
        }
        Slot::Del => {
            body.push(DELETE)?;
            body.put_text(entry.raw.bytes())?;
        }
    }
    Ok(())
}
