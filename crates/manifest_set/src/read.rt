// How slots are read.
ghost use Rattle.std.specs.Prelude.{◌≡◌, IfOk};
ghost use Rattle.std.specs.Option.{option_copied, unwrap_or};
ghost use Rattle.edit_codec.specs.States.{new_state};
ghost use Rattle.manifest_set.specs.Reading.{ReadsOne, ReadsBoth, at_slot, newer_slot};
ghost use Rattle.manifest_set.specs.Slots.{begun_state as begun_of, edited_state as edited_of, epoch_of, said_behind};

use crate::slots::Slots;
use edit_codec::{State, decode_edit, decode_head};
use gated_log::next_record;
use kv_base::{FileName, NoMem, StoreFault};
use std::alloc::Global;

/// The state of the head with this body; `None` exactly where it is no head's, or its epoch is taken.
fn begun(alloc: Global, taken: u64, body: &[u8]) -> Result<Option<State>, NoMem>
    ensures { IfOk result (λ state. state ≡ begun_of taken body.now) }
{
    let Some(state) = decode_head(alloc, body)? else {
        return Ok(None);
    };
    if state.epoch == taken {
        return Ok(None);
    }
    Ok(Some(state))
}

/// The state after the edit with this body; `None` exactly where it is no edit's, or the state does not take it.
fn edited(alloc: Global, state: &State, body: &[u8]) -> Result<Option<State>, NoMem>
    ensures { IfOk result (λ after. after ≡ edited_of state.now body.now) }
{
    let Some(edit) = decode_edit(alloc, body)? else {
        return Ok(None);
    };
    state.after(alloc, &edit)
}

/// What a record says behind the last state; `None` exactly where it is damage.
#[tactic(auto, unfolding(crate::specs::Slots::said_behind))]
fn read_next(
    alloc: Global,
    taken: u64,
    last: Option<&State>,
    body: &[u8],
) -> Result<Option<State>, NoMem>
    ensures { IfOk result (λ now. now ≡ said_behind taken (option_copied last.entry) body.now) }
{
    match last {
        Some(state) => edited(alloc, state, body),
        None => begun(alloc, taken, body),
    }
}

/// What a slot says, and the place behind its last record.
#[derive(Drop)]
pub struct ReadSlot {
    pub says: Option<State>,
    pub end: u64,
}

/// What a slot with these bytes says, where this epoch is taken.
pub fn read_slot(
    alloc: Global,
    file: FileName,
    taken: u64,
    bytes: &[u8],
) -> Result<ReadSlot, StoreFault>
    ensures { ReadsOne file taken bytes.now result }
{
    let mut says = None;
    let mut place = 0;
    while let Some(open) = next_record(bytes, place) {
        let Some(now) = read_next(alloc, taken, says.as_ref(), open.body)? else {
            return Err(StoreFault::Damaged {
                file,
                place: place as u64,
            });
        };
        says = Some(now);
        place = open.next;
    }
    Ok(ReadSlot {
        says,
        end: place as u64,
    })
}

/// The epoch of the state, or 0 where there is none.
fn epoch_of(says: Option<&State>) -> u64
    ensures { result ≡ epoch_of (option_copied says.entry) }
{
    match says {
        Some(state) => state.epoch,
        None => 0,
    }
}

/// The state, or that of a new store.
fn state_or_new(alloc: Global, says: Option<State>) -> State
    ensures { result ≡ unwrap_or says new_state }
{
    match says {
        Some(state) => state,
        None => State::new(alloc),
    }
}

/// The slot of this name, as the one that is active.
fn at_slot(alloc: Global, active: FileName, slot: ReadSlot) -> Slots
    ensures { result ≡ at_slot active slot }
{
    Slots {
        state: state_or_new(alloc, slot.says),
        active,
        end: slot.end,
    }
}

/// The slot of the later epoch, as the one that is active.
fn newer_slot(alloc: Global, first: ReadSlot, second: ReadSlot) -> Slots
    ensures { result ≡ newer_slot first second }
{
    if epoch_of(second.says.as_ref()) < epoch_of(first.says.as_ref()) {
        at_slot(alloc, FileName::SlotA, first)
    } else {
        at_slot(alloc, FileName::SlotB, second)
    }
}

/// What slots with these bytes say.
pub fn read_both(alloc: Global, first: &[u8], second: &[u8]) -> Result<Slots, StoreFault>
    ensures { ReadsBoth first.now second.now result }
{
    let one = read_slot(alloc, FileName::SlotA, 0, first)?;
    let epoch = epoch_of(one.says.as_ref());
    let other = read_slot(alloc, FileName::SlotB, epoch, second)?;
    Ok(newer_slot(alloc, one, other))
}
