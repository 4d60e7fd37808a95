ghost use Rattle.std.specs.Prelude.{◌≡◌, ◌==◌, T, IsTrue, OnOk, OnErr, Some, None, option_map};
ghost use Rattle.std.specs.List.{slice_get};
ghost use Rattle.std.specs.FinMap.Entries.{is_sorted};
ghost use Rattle.kv_base.specs.Map as map;
ghost use Rattle.kv_base.specs.Map.{byte_cmp};
ghost use Rattle.kv_base.specs.RawKeys.{is_raw_text};
ghost use Rattle.kv_base.specs.MetaValues.{is_value_text};
ghost use Rattle.batch_codec.specs.Batches.{are_rows, is_row};
ghost use Rattle.batch_codec.specs.Slots.{batch_of, slot_entries, slot_value};

use crate::place::place;
use crate::slot::{Entry, Slot};
use kv_base::{Blob, NoMem};
use std::alloc::Global;
use std::marker::Model;

/// A put or a delete at each of its raw keys, in the order of their bytes. Contracts see it as a finite map.
///
/// Raw keys and values are on their grammar.
#[derive(Drop)]
pub struct Batch {
    entries: Vec<Entry>,
}

impl Model for Batch {
    ghost use Rattle.std.specs.Prelude.{T, IsTrue};
    ghost use Rattle.std.specs.Coded.{coded_list, coded_ℕ, coded_option};
    ghost use Rattle.std.specs.FinMap.Entries.{is_sorted};
    ghost use Rattle.kv_base.specs.Map.{byte_cmp, code};
    ghost use Rattle.batch_codec.specs.Batches as batches;
    ghost use Rattle.batch_codec.specs.Batches.{are_rows};
    ghost use Rattle.batch_codec.specs.Slots.{slot_entries, batch_of};

    ghost Value = { batches.Batch };

    ghost coded = { code (coded_option (coded_list coded_ℕ)) };

    ghost view = { λ b. batch_of b.entries.items };

    ghost invariant = { λ b. T (is_sorted byte_cmp (slot_entries b.entries.items)) × IsTrue (are_rows (slot_entries b.entries.items)) };
}

impl Batch {
    /// A batch of nothing, which takes no memory.
    pub fn new(alloc: Global) -> Batch
        ensures { result ≡ map.empty }
    {
        Batch {
            entries: Vec::new(alloc),
        }
    }

    /// Puts a value at a raw key, in the place of what the batch did there before. On an error the batch is as before.
    pub fn put(&mut self, raw: Blob, value: Blob) -> Result<(), NoMem>
        requires { IsTrue (is_value_text raw value) }
        ensures ok { OnOk result (self.new ≡ map.insert self.old raw (Some value)) }
        ensures err { OnErr result (self.new ≡ self.old) }
    {
        self.set(raw, Slot::Put(value))
    }

    /// Deletes what is at a raw key, in the place of what the batch did there before. On an error the batch is as
    /// before.
    pub fn delete(&mut self, raw: Blob) -> Result<(), NoMem>
        requires { IsTrue (is_raw_text raw) }
        ensures ok { OnOk result (self.new ≡ map.insert self.old raw None) }
        ensures err { OnErr result (self.new ≡ self.old) }
    {
        self.set(raw, Slot::Del)
    }

    /// The batch of these entries, which stand in order.
    pub(crate) fn from_entries(entries: Vec<Entry>) -> Batch
        requires ascending { T (is_sorted byte_cmp (slot_entries entries.items)) }
        requires grammar { IsTrue (are_rows (slot_entries entries.items)) }
        ensures { result ≡ batch_of entries.items }
    {
        Batch { entries }
    }

    fn set(&mut self, raw: Blob, slot: Slot) -> Result<(), NoMem>
        requires { IsTrue (is_row (raw, slot_value slot)) }
        ensures ok { OnOk result (self.new ≡ map.insert self.old raw (slot_value slot)) }
        ensures err { OnErr result (self.new ≡ self.old) }
    {
        match place(self.entries.as_slice(), raw.bytes()) {
            Ok(at) => self.entries[at] = Entry { raw, slot },
            Err(at) => self.entries.insert(at, Entry { raw, slot })?,
        }
        Ok(())
    }

    /// What the batch does at a raw key; `None` exactly where it does nothing there.
    pub fn find(&self, raw: &[u8]) -> Option<&Slot>
        ensures { option_map (λ slot. slot_value slot.now) result ≡ map.get self.now raw.now }
    {
        match place(self.entries.as_slice(), raw) {
            Ok(at) => Some(&self.entries[at].slot),
            Err(_) => None,
        }
    }

    /// The number of raw keys.
    pub fn len(&self) -> usize
        ensures count { result ≡ map.size self.now }
        ensures grammar { IsTrue (are_rows self.now.entries) }
    {
        self.entries.as_slice().len()
    }

    /// Is there no raw key?
    pub fn is_empty(&self) -> bool
        ensures { result ≡ (map.size self.now == 0) }
    {
        self.len() == 0
    }

    /// The raw key at a place in the order of their bytes, with the value that is put there or, for a delete, `None`.
    /// There is none exactly where the place is not below `len`.
    pub fn entry(&self, at: usize) -> Option<(&[u8], Option<&[u8]>)>
        ensures { option_map (λ e. (e.0.now, option_map (λ value. value.now) e.1)) result ≡ slice_get self.now.entries at }
    {
        let entry = self.entries.as_slice().get(at)?;
        Some((entry.raw.bytes(), entry.slot.value()))
    }

    /// The entries in the order of their raw keys.
    pub(crate) fn entries(&self) -> &[Entry]
        ensures all { slot_entries result.now ≡ self.now.entries }
        ensures grammar { IsTrue (are_rows self.now.entries) }
    {
        self.entries.as_slice()
    }
}
