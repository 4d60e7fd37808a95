//! Batches that are filled in any order.

ghost use Rattle.std.specs.Prelude.{◌≡◌, ◌∷◌, ◌++◌, [], IfOk, OnOk, OnErr, IsTrue, Some, None, if◌then◌else◌};
ghost use Rattle.std.specs.List.Sorted.{IsSorted, IsStable};
ghost use Rattle.kv_base.specs.Map as map;
ghost use Rattle.kv_base.specs.Map.{same};
ghost use Rattle.kv_base.specs.RawKeys.{is_raw_text};
ghost use Rattle.kv_base.specs.MetaValues.{is_value_text};
ghost use Rattle.batch_codec.specs.Batches.{is_row};
ghost use Rattle.batch_codec.specs.Slots.{lasts, raw_cmp, slot_value};

use crate::batch::Batch;
use crate::slot::{Entry, Slot};
use kv_base::{Blob, NoMem};
use std::alloc::Global;
use std::marker::Model;
use std::mem;

/// A batch that is being filled, in any order of its raw keys. Contracts see it as the finite map that the batch is so far.
///
/// Puts and deletes are kept in the order in which they come, and sorted once, at the end. So n of them take time n log n,
/// or n where they come in the order of their raw keys. What the batch does so far is not looked up here: a `Batch` that is
/// filled by its own calls serves there.
///
/// Raw keys and values are on their grammar.
#[derive(Drop)]
pub struct BatchBuilder {
    entries: Vec<Entry>,
}

impl Model for BatchBuilder {
    ghost use Rattle.std.specs.Prelude.{IsTrue};
    ghost use Rattle.std.specs.Coded.{coded_list, coded_ℕ, coded_option};
    ghost use Rattle.kv_base.specs.Map.{code};
    ghost use Rattle.batch_codec.specs.Batches as batches;
    ghost use Rattle.batch_codec.specs.Batches.{are_rows};
    ghost use Rattle.batch_codec.specs.Slots.{slot_entries, batch_of};

    ghost Value = { batches.Batch };

    ghost coded = { code (coded_option (coded_list coded_ℕ)) };

    ghost view = { λ b. batch_of b.entries.items };

    ghost invariant = { λ b. IsTrue (are_rows (slot_entries b.entries.items)) };
}

impl BatchBuilder {
    /// A builder of a batch of nothing, which takes no memory.
    pub fn new(alloc: Global) -> BatchBuilder
        ensures { result ≡ map.empty }
    {
        BatchBuilder {
            entries: Vec::new(alloc),
        }
    }

    /// Puts a value at a raw key, in the place of what the batch did there before. The time does not depend on what is there,
    /// on average over many calls. On an error the batch is as before.
    pub fn put(&mut self, raw: Blob, value: Blob) -> Result<(), NoMem>
        requires { IsTrue (is_value_text raw value) }
        ensures ok { OnOk result (self.new ≡ map.insert self.old raw (Some value)) }
        ensures err { OnErr result (self.new ≡ self.old) }
    {
        self.push(raw, Slot::Put(value))
    }

    /// Deletes what is at a raw key, in the place of what the batch did there before. The time does not depend on what is
    /// there, on average over many calls. On an error the batch is as before.
    pub fn delete(&mut self, raw: Blob) -> Result<(), NoMem>
        requires { IsTrue (is_raw_text raw) }
        ensures ok { OnOk result (self.new ≡ map.insert self.old raw None) }
        ensures err { OnErr result (self.new ≡ self.old) }
    {
        self.push(raw, Slot::Del)
    }

    fn push(&mut self, raw: Blob, slot: Slot) -> Result<(), NoMem>
        requires { IsTrue (is_row (raw, slot_value slot)) }
        ensures ok { OnOk result (self.new ≡ map.insert self.old raw (slot_value slot)) }
        ensures err { OnErr result (self.new ≡ self.old) }
    {
        self.entries.push(Entry { raw, slot })?;
        Ok(())
    }

    /// The batch. Of the puts and deletes of one raw key the last holds.
    ///
    /// It takes the time and the memory of one stable sort, or time alone where raw keys came in order.
    pub fn build(self) -> Result<Batch, NoMem>
        ensures { IfOk result (λ batch. batch ≡ self) }
    {
        let BatchBuilder { mut entries } = self;
        sort(&mut entries)?;
        keep_last(&mut entries);
        Ok(Batch::from_entries(entries))
    }
}

/// Sorts entries by their raw keys. Those of one raw key stay in the order in which they came.
fn sort(entries: &mut Vec<Entry>) -> Result<(), NoMem>
    ensures ascending { OnOk result (IsSorted raw_cmp entries.new.items) }
    ensures stable { IsStable raw_cmp entries.old.items entries.new.items }
{
    entries.sort_by(|entry, other| entry.raw.bytes().cmp(other.raw.bytes()))?;
    Ok(())
}

/// Of neighbours with one raw key keeps the last.
fn keep_last(entries: &mut Vec<Entry>)
    ensures { entries.new.items ≡ lasts entries.old.items }
{
    entries.dedup_by(|entry, kept| replaces(entry, kept));
}

/// Has the entry the raw key of the one in front of it? If so, they change places.
fn replaces(entry: &mut Entry, kept: &mut Entry) -> bool
    ensures same { result ≡ same entry.old.raw kept.old.raw }
    ensures entry { entry.new ≡ (if result then kept.old else entry.old) }
    ensures kept { kept.new ≡ (if result then entry.old else kept.old) }
{
    let same = entry.raw.bytes().cmp(kept.raw.bytes()).is_eq();
    if same {
        mem::swap(entry, kept);
    }
    same
}
