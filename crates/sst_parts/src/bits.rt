ghost use Rattle.std.specs.Prelude.{◌≡◌, ◌≤◌, ◌<◌, ◌+◌, ◌*◌, ◌%◌, ◌^◌, IfOk, IfSome, SomeIff, length, map};
ghost use Rattle.kv_base.specs.Map.{Bytes};
ghost use Rattle.kv_base.specs.Fields.{text as text_of};
ghost use Rattle.sst_parts.specs.Filter.{bit_count, bit_place, filter_bits, filter_of, has_bit, holds_key, may_hold, read_filter, set_bit, with_key};

use crate::key_hash::KeyHash;
use crate::put::put_text;
use kv_base::{Blobs, NoMem, take_text};
use std::alloc::Global;
use std::marker::Model;

/// The most keys of a filter whose length fits four bytes.
const MAX_KEYS: usize = 3_000_000_000;

/// The fewest bytes of a filter.
const LEAST: usize = 8;

/// The bits of a filter. Contracts see them as the list of its bytes.
#[derive(Drop)]
pub struct Bits {
    bytes: Vec<u8>,
}

impl Model for Bits {
    ghost use Rattle.std.specs.Prelude.{List, ℕ, ◌≤◌, ◌<◌, ◌^◌, length};
    ghost use Rattle.std.specs.Coded.{coded_list, coded_ℕ};

    ghost Value = { List ℕ };

    ghost coded = { coded_list coded_ℕ };

    ghost view = { λ b. b.bytes.items };

    ghost invariant = { λ b. (8 ≤ length b.bytes.items) × (length b.bytes.items < 2 ^ 32) };
}

impl Bits {
    /// The filter of these raw keys, each of which is given once. Want of memory is answered also where its length may
    /// fit no four bytes.
    pub fn make(alloc: Global, keys: &Blobs) -> Result<Bits, NoMem>
        ensures { IfOk result (λ bits. bits ≡ filter_bits keys.now) }
    {
        let mut hashes = Vec::with_capacity(alloc, keys.len())?;
        for key in keys.as_slice() {
            hashes.push(KeyHash::of(key.bytes()))?;
        }
        Bits::of_hashes(alloc, hashes.as_slice())
    }

    /// The filter of raw keys with these hashes, each of which is given once. Want of memory is answered also where its
    /// length may fit no four bytes.
    pub fn of_hashes(alloc: Global, keys: &[KeyHash]) -> Result<Bits, NoMem>
        ensures { IfOk result (λ bits. bits ≡ filter_of keys.now) }
    {
        if keys.len() > MAX_KEYS {
            return Err(NoMem);
        }
        let mut bytes = vec![in alloc; 0u8; byte_count(keys.len())]?;
        for key in keys {
            add(bytes.as_mut_slice(), *key);
        }
        Ok(Bits { bytes })
    }

    /// The filter whose part of a table file these bytes are; none exactly where they are none. It is the text of eight
    /// bytes at least.
    #[tactic(auto, unfolding(crate::specs::Filter::read_filter))]
    pub fn read(alloc: Global, bytes: &[u8]) -> Result<Option<Bits>, NoMem>
        ensures { IfOk result (λ found. found ≡ read_filter bytes.now) }
    {
        let Some((bits, rest)) = take_text(bytes) else {
            return Ok(None);
        };
        if !rest.is_empty() || bits.len() < LEAST {
            return Ok(None);
        }
        if u32::try_from(bits.len()).is_err() {
            return Err(NoMem);
        }
        Ok(Some(Bits {
            bytes: Vec::from_slice(alloc, bits)?,
        }))
    }

    /// The filter's part of a table file: the text of its bytes.
    pub fn text(&self, alloc: Global) -> Result<Vec<u8>, NoMem>
        ensures { IfOk result (λ bytes. bytes.items ≡ text_of self.now) }
    {
        let mut bytes = Vec::new(alloc);
        put_text(&mut bytes, self.bytes.as_slice())?;
        Ok(bytes)
    }

    /// Is each bit of the raw key set? It is set where the key was given, and else mostly not.
    #[tactic(auto, unfolding(crate::specs::Filter::may_hold))]
    pub fn may_hold(&self, raw: &[u8]) -> bool
        ensures { result ≡ may_hold self.now raw.now }
    {
        holds(self.bytes.as_slice(), KeyHash::of(raw))
    }

    /// The bits' bytes.
    pub fn bytes(&self) -> &[u8]
        ensures bytes { result.now ≡ self.now }
        ensures least { LEAST ≤ length self.now }
        ensures limit { length self.now < 2 ^ 32 }
    {
        self.bytes.as_slice()
    }
}

/// The number of bytes for so many keys.
fn byte_count(keys: usize) -> usize
    requires { keys ≤ MAX_KEYS }
    ensures count { 8 * result ≡ bit_count keys }
    ensures least { LEAST ≤ result }
    ensures limit { result < 2 ^ 32 }
{
    ((10 * keys + 7) / 8).max(LEAST)
}

fn place(bits: u64, key: KeyHash, probe: u64) -> u64
    requires some { 0 < bits }
    requires few { probe ≤ 5 }
    ensures place { result ≡ bit_place bits key probe }
    ensures within { result < bits }
{
    (u64::from(key.first) + probe * u64::from(key.second)) % bits
}

fn set(bytes: &mut [u8], place: u64)
    requires { place < 8 * length bytes.old }
    ensures { bytes.new ≡ set_bit bytes.old place }
{
    bytes[(place / 8) as usize] |= 1u8 << (place % 8);
}

fn is_set(bytes: &[u8], place: u64) -> bool
    requires { place < 8 * length bytes.now }
    ensures { result ≡ has_bit bytes.now place }
{
    (bytes[(place / 8) as usize] >> (place % 8)) & 1 == 1
}

/// Sets the bits of a key.
#[tactic(auto, unfolding(crate::specs::Filter::with_key))]
fn add(bytes: &mut [u8], key: KeyHash)
    requires some { LEAST ≤ length bytes.old }
    requires limit { length bytes.old < 2 ^ 32 }
    ensures { bytes.new ≡ with_key bytes.old key }
{
    let bits = 8 * bytes.len() as u64;
    set(bytes, place(bits, key, 0));
    set(bytes, place(bits, key, 1));
    set(bytes, place(bits, key, 2));
    set(bytes, place(bits, key, 3));
    set(bytes, place(bits, key, 4));
    set(bytes, place(bits, key, 5));
}

/// Are all bits of a key set?
fn holds(bytes: &[u8], key: KeyHash) -> bool
    requires some { LEAST ≤ length bytes.now }
    requires limit { length bytes.now < 2 ^ 32 }
    ensures { result ≡ holds_key bytes.now key }
{
    let bits = 8 * bytes.len() as u64;
    is_set(bytes, place(bits, key, 0))
        && is_set(bytes, place(bits, key, 1))
        && is_set(bytes, place(bits, key, 2))
        && is_set(bytes, place(bits, key, 3))
        && is_set(bytes, place(bits, key, 4))
        && is_set(bytes, place(bits, key, 5))
}
