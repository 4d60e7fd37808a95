//! Two batches in one.

ghost use Rattle.std.specs.Prelude.{◌≡◌, IfOk, OnOk, IsTrue, option_map};
ghost use Rattle.kv_base.specs.Map as map;
ghost use Rattle.batch_codec.specs.Batches.{is_row, joined};

use batch_codec::{Batch, BatchBuilder};
use kv_base::{Blob, NoMem};
use std::alloc::Global;

/// So many entries of a later batch are put into the one before it one by one. With more of them it costs less to copy both
/// than to move the entries behind each place.
const FEW: usize = 64;

/// Two batches in one: a later row of a raw key stands in the place of an earlier one.
///
/// Of a later batch with few entries each is looked for by halves and copied to its place, and for a new raw key the entries
/// behind it move: that is the time of the later batch times a logarithm, and of so many moves. Of one with many both are
/// copied and sorted. A batch is one list in order, so no joining could do without a pass through the whole. Where the first
/// batch has nothing, no time is taken.
pub fn join(alloc: Global, batch: Batch, later: Batch) -> Result<Batch, NoMem>
    ensures { IfOk result (λ whole. whole ≡ joined batch later) }
{
    if batch.is_empty() {
        return Ok(later);
    }
    if later.len() > FEW {
        return rebuild(alloc, &batch, &later);
    }
    let mut whole = batch;
    put_all(alloc, &mut whole, &later)?;
    Ok(whole)
}

/// Both batches, entry by entry, in order.
fn rebuild(alloc: Global, batch: &Batch, later: &Batch) -> Result<Batch, NoMem>
    ensures { IfOk result (λ whole. whole ≡ joined batch.now later.now) }
{
    let mut whole = BatchBuilder::new(alloc);
    add_all(alloc, &mut whole, batch)?;
    add_all(alloc, &mut whole, later)?;
    whole.build()
}

/// The entries of a later batch, put and deleted one by one.
fn put_all(alloc: Global, whole: &mut Batch, later: &Batch) -> Result<(), NoMem>
    ensures { OnOk result (whole.new ≡ joined whole.old later.now) }
{
    for at in 0..later.len() {
        if let Some((raw, value)) = later.entry(at) {
            put(alloc, whole, raw, value)?;
        }
    }
    Ok(())
}

fn put(alloc: Global, whole: &mut Batch, raw: &[u8], value: Option<&[u8]>) -> Result<(), NoMem>
    requires { IsTrue (is_row (raw.now, option_map (λ bytes. bytes.now) value)) }
    ensures { OnOk result (whole.new ≡ map.insert whole.old raw.now (option_map (λ bytes. bytes.now) value.entry)) }
{
    let raw = Blob::copy(alloc, raw)?;
    match value {
        Some(value) => whole.put(raw, Blob::copy(alloc, value)?),
        None => whole.delete(raw),
    }
}

/// The entries of a batch, behind those that the builder has.
fn add_all(alloc: Global, whole: &mut BatchBuilder, batch: &Batch) -> Result<(), NoMem>
    ensures { OnOk result (whole.new ≡ joined whole.old batch.now) }
{
    for at in 0..batch.len() {
        if let Some((raw, value)) = batch.entry(at) {
            add(alloc, whole, raw, value)?;
        }
    }
    Ok(())
}

fn add(
    alloc: Global,
    whole: &mut BatchBuilder,
    raw: &[u8],
    value: Option<&[u8]>,
) -> Result<(), NoMem>
    requires { IsTrue (is_row (raw.now, option_map (λ bytes. bytes.now) value)) }
    ensures { OnOk result (whole.new ≡ map.insert whole.old raw.now (option_map (λ bytes. bytes.now) value.entry)) }
{
    let raw = Blob::copy(alloc, raw)?;
    match value {
        Some(value) => whole.put(raw, Blob::copy(alloc, value)?),
        None => whole.delete(raw),
    }
}
