//! Records, read from their bodies.

ghost use Rattle.std.specs.Prelude.{◌≡◌, ◌&&◌, IsTrue, IfOk, OnOk, None, option_map};
ghost use Rattle.kv_base.specs.Map.{from_list, insert};
ghost use Rattle.batch_codec.specs.Batches.{is_row as is_row_of};
ghost use Rattle.batch_codec.specs.Bodies.{is_above as stands_above, is_head as is_head_of, is_next_entry as may_follow, read_body, read_entries, read_entry, read_head};

use crate::batch::Batch;
use crate::body::{DELETE, PUT};
use crate::record::Record;
use kv_base::{Blob, NoMem, is_raw, is_value, take_text, take_u32, take_u64};
use std::alloc::Global;

/// The greatest sequence.
const MAX_SEQ: u64 = (1 << 42) - 2;

/// The latest moment, in milliseconds.
const MAX_MOMENT: u64 = 1 << 61;

/// The record whose body this is; `None` exactly where it is no record's.
///
/// A body is as `encode_record` writes it: the sequence is from 1 to 2^42 - 2, the moment at most 2^61 and the count at
/// least 1; each entry's raw key is above the one before it, raw keys and values are on their grammar, and nothing stands
/// behind the entries.
#[tactic(auto, unfolding(crate::specs::Bodies::read_body))]
pub fn decode_body(alloc: Global, body: &[u8]) -> Result<Option<Record>, NoMem>
    ensures { IfOk result (λ found. found ≡ read_body body.now) }
{
    let Some(head) = take_head(body) else {
        return Ok(None);
    };
    if !is_head(head) {
        return Ok(None);
    }
    let Some(batch) = decode_entries(alloc, head.count, head.behind)? else {
        return Ok(None);
    };
    Ok(Some(Record {
        seq: head.seq,
        moment: head.moment,
        batch,
    }))
}

/// What stands in front of the entries, and the entries.
#[derive(Clone, Copy)]
struct Head<'a> {
    seq: u64,
    moment: u64,
    count: u32,
    behind: &'a [u8],
}

#[tactic(auto, unfolding(crate::specs::Bodies::read_head))]
fn take_head(body: &[u8]) -> Option<Head<'_>>
    ensures { option_map (λ head. record { seq = head.seq; moment = head.moment; count = head.count; behind = head.behind.now }) result ≡ read_head body.now }
{
    let (seq, rest) = take_u64(body)?;
    let (moment, rest) = take_u64(rest)?;
    let (count, behind) = take_u32(rest)?;
    Some(Head {
        seq,
        moment,
        count,
        behind,
    })
}

/// Are sequence, moment and count within their limits?
#[tactic(auto, unfolding(crate::specs::Bodies::is_head))]
fn is_head(head: Head<'_>) -> bool
    ensures { result ≡ is_head_of (record { seq = head.entry.seq; moment = head.entry.moment; count = head.entry.count; behind = head.entry.behind.now }) }
{
    1 <= head.seq && head.seq <= MAX_SEQ && head.moment <= MAX_MOMENT && 1 <= head.count
}

/// The batch of so many entries; `None` where they are off their grammar or something stands behind them.
fn decode_entries(alloc: Global, count: u32, bytes: &[u8]) -> Result<Option<Batch>, NoMem>
    ensures { IfOk result (λ found. found ≡ option_map from_list (read_entries count None bytes.now)) }
{
    let mut batch = Batch::new(alloc);
    let mut last: Option<&[u8]> = None;
    let mut rest = bytes;
    for _at in 0..count {
        let Some(entry) = take_entry(rest) else {
            return Ok(None);
        };
        if !is_next(last, entry) {
            return Ok(None);
        }
        add(alloc, &mut batch, entry)?;
        last = Some(entry.raw);
        rest = entry.behind;
    }
    if rest.is_empty() {
        Ok(Some(batch))
    } else {
        Ok(None)
    }
}

/// An entry, and what is behind it. There is no value for a delete.
#[derive(Clone, Copy)]
struct EntryRef<'a> {
    raw: &'a [u8],
    value: Option<&'a [u8]>,
    behind: &'a [u8],
}

#[tactic(auto, unfolding(crate::specs::Bodies::read_entry))]
fn take_entry(bytes: &[u8]) -> Option<EntryRef<'_>>
    ensures { option_map (λ e. ((e.raw.now, option_map (λ value. value.now) e.value), e.behind.now)) result ≡ read_entry bytes.now }
{
    let (mark, rest) = bytes.split_first()?;
    match *mark {
        PUT => {
            let (raw, rest) = take_text(rest)?;
            let (value, behind) = take_text(rest)?;
            Some(EntryRef {
                raw,
                value: Some(value),
                behind,
            })
        }
        DELETE => {
            let (raw, behind) = take_text(rest)?;
            Some(EntryRef {
                raw,
                value: None,
                behind,
            })
        }
        _ => None,
    }
}

/// Is this on the grammar, and above the raw key before it?
fn is_next(last: Option<&[u8]>, entry: EntryRef<'_>) -> bool
    ensures { result ≡ may_follow (option_map (λ raw. raw.now) last.entry) (entry.entry.raw.now, option_map (λ value. value.now) entry.entry.value) }
{
    is_above(last, entry.raw) && is_row(entry)
}

fn is_above(last: Option<&[u8]>, raw: &[u8]) -> bool
    ensures { result ≡ stands_above (option_map (λ raw. raw.now) last.entry) raw.now }
{
    match last {
        Some(last) => last.cmp(raw).is_lt(),
        None => true,
    }
}

fn is_row(entry: EntryRef<'_>) -> bool
    ensures { result ≡ is_row_of (entry.entry.raw.now, option_map (λ value. value.now) entry.entry.value) }
{
    match entry.value {
        Some(value) => is_value(entry.raw, value),
        None => is_raw(entry.raw),
    }
}

/// Copies the entry into the batch.
fn add(alloc: Global, batch: &mut Batch, entry: EntryRef<'_>) -> Result<(), NoMem>
    requires { IsTrue (is_row_of (entry.raw.now, option_map (λ value. value.now) entry.value)) }
    ensures { OnOk result (batch.new ≡ insert batch.old entry.entry.raw.now (option_map (λ value. value.now) entry.entry.value)) }
{
    let raw = Blob::copy(alloc, entry.raw)?;
    match entry.value {
        Some(value) => batch.put(raw, Blob::copy(alloc, value)?),
        None => batch.delete(raw),
    }
}
