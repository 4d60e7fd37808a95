ghost use Rattle.std.specs.Prelude.{◌≡◌, ◌≤◌, ◌∷◌, ◌++◌, [], List, ℕ, Some, Ok, true, false, IfOk, OnOk, OnErr, IsErrOf};
ghost use Rattle.kv_base.specs.Map.{Bytes};
ghost use Rattle.kv_outside.specs.Causes.{HasCause, Rose};
ghost use Rattle.kv_outside.specs.Disk.{Always, CrashLeaves, NothingNew, Touches};
ghost use Rattle.gated_log.specs.Gated.{records};
ghost use Rattle.gated_log.specs.States.{Rests};
ghost use Rattle.edit_codec.specs.declared.state.State.{State};
ghost use Rattle.manifest_set.specs.Keeping.{Has, SaysBeforeOrAfter, AreFoundSlots, IsManifestKept, IsManifestLeft, IsManifestTried, NeverDamaged, ReadsSlots, next_state};
ghost use Rattle.manifest_set.specs.Rewriting.{IsBeforeOrHead, TouchesSlot};
ghost use Rattle.manifest_set.specs.Slots.{edited_state, other_slot, manifest_state};

use crate::read::read_both;
use crate::slots::Slots;
use edit_codec::encode_head;
use gated_log::{GatedLog, read_file};
use kv_base::{FileName, StoreFault};
use kv_outside::{Failed, Files};
use record_body::RecordBody;
use std::alloc::Global;
use std::marker::Model;

/// The greatest epoch.
const LAST_EPOCH: u64 = 1 << 62;

/// A manifest that is open for edits: the slot that says the state, as a gated log. Contracts see that log.
#[derive(Drop)]
pub struct Manifest<F: Files> {
    slot: GatedLog<F>,
}

impl<F: Files> Model for Manifest<F> {
    ghost use Rattle.gated_log.specs.States.{LogState};

    ghost Value = { LogState };

    ghost view = { λ m. m.slot };
}

/// The other slot.
fn other_slot(name: FileName) -> FileName
    ensures { result ≡ other_slot name }
{
    match name {
        FileName::SlotA => FileName::SlotB,
        _ => FileName::SlotA,
    }
}

/// Writes a slot anew, with a head as its only record.
fn write_head<F: Files>(
    files: &mut F,
    name: FileName,
    head: &RecordBody,
) -> Result<GatedLog<F>, Failed>
    ensures rests { IfOk result (λ log. Rests (F.disk files.new) log (head.now ∷ [])) }
    ensures sure { IfOk result (λ log. log.unsure ≡ false) }
    ensures name { IfOk result (λ log. log.name ≡ name) }
    ensures any_moment { (bodies : List Bytes) → CrashLeaves (F.disk files.old) name (λ c. records c ≡ bodies)
        → Touches name (F.disk files.old) (F.disk files.new) (IsBeforeOrHead bodies head.now) }
    ensures cause { HasCause (F.faults files.old) (F.faults files.new) result }
{
    let mut log = GatedLog::reset(files, name)?;
    log.append(files, head)?;
    Ok(log)
}

impl<F: Files> Manifest<F> {
    /// What the slots say. It syncs each, and reads it once.
    ///
    /// It fails where a call to the files failed, where memory is short, and where a slot is damaged: `Damaged` names the
    /// slot and the place of the record that cannot stand there, the first in `slot-a` and else the first in `slot-b`.
    pub fn read(alloc: Global, files: &mut F) -> Result<Slots, StoreFault>
        ensures reads { ReadsSlots (F.disk files.new) result }
        ensures disk { NothingNew (F.disk files.old) (F.disk files.new) }
        ensures later { F.faults files.old ≤ F.faults files.new }
        ensures failed { IsErrOf result StoreFault.Failed → Rose (F.faults files.old) (F.faults files.new) }
    {
        let first = read_file(alloc, files, FileName::SlotA)?;
        let second = read_file(alloc, files, FileName::SlotB)?;
        read_both(alloc, first.as_slice(), second.as_slice())
    }

    /// Writes the state that was read into the other slot, in the next epoch, and goes on there. At the last epoch nothing
    /// is written anew: the gate behind the last record of the active slot is closed, where it isn't, and edits go on
    /// there.
    ///
    /// It fails where a call to the files failed, where memory is short, and where the head would have more than 2^32 - 1
    /// bytes, which counts as want of memory. Where it fails, the slots say the state as it was, or in the next epoch.
    pub fn rewrite(alloc: Global, files: &mut F, slots: &Slots) -> Result<Manifest<F>, StoreFault>
        ensures kept { IfOk result (λ manifest. Has (F.disk files.old) (AreFoundSlots slots.now)
            → IsManifestKept (F.disk files.new) manifest (next_state slots.now.state)) }
        ensures sure { IfOk result (λ manifest. manifest.unsure ≡ false) }
        // At every moment of the call the slots of each image say the state as it was, or in the next epoch.
        ensures any_moment { Has (F.disk files.old) (AreFoundSlots slots.now)
            → Always (F.disk files.old) (F.disk files.new) (SaysBeforeOrAfter slots.now.state (next_state slots.now.state)) }
        // It touches one slot alone.
        ensures alone { Has (F.disk files.old) (AreFoundSlots slots.now) → TouchesSlot (F.disk files.old) (F.disk files.new) }
        ensures not_damaged { NeverDamaged result }
        ensures later { F.faults files.old ≤ F.faults files.new }
        ensures failed { IsErrOf result StoreFault.Failed → Rose (F.faults files.old) (F.faults files.new) }
    {
        let epoch = slots.state.epoch;
        if epoch >= LAST_EPOCH {
            return match GatedLog::resume(files, slots.active, slots.end) {
                Ok(slot) => Ok(Manifest { slot }),
                Err(_) => Err(StoreFault::Failed),
            };
        }
        let head = encode_head(alloc, epoch + 1, &slots.state)?;
        match write_head(files, other_slot(slots.active), &head) {
            Ok(slot) => Ok(Manifest { slot }),
            Err(_) => Err(StoreFault::Failed),
        }
    }

    /// Adds an edit, which the state takes. At `Ok` it is there, and from then on each crash leaves slots that say the
    /// state after it.
    ///
    /// At `Failed` nothing was added. Where the gate was tried the manifest is unsure: a crash may leave the edit too, and
    /// the gate has to be closed by `mend` before the next edit.
    pub fn append_edit(&mut self, files: &mut F, edit: &RecordBody) -> Result<(), Failed>
        requires { self.old.unsure ≡ false }
        ensures added { OnOk result ((before : State) (after : State) → IsManifestKept (F.disk files.old) self.old before → edited_state before edit.now ≡ Some after
            → IsManifestKept (F.disk files.new) self.new after) }
        ensures written { OnOk result ((bodies : List Bytes) → Rests (F.disk files.old) self.old bodies
            → Rests (F.disk files.new) self.new (bodies ++ edit.now ∷ [])) }
        ensures sure { OnOk result (self.new.unsure ≡ false) }
        ensures not_added { OnErr result ((before : State) (after : State) → IsManifestKept (F.disk files.old) self.old before → edited_state before edit.now ≡ Some after
            → IsManifestLeft self.new.unsure (F.disk files.new) self.new before after) }
        ensures name { self.new.name ≡ self.old.name }

        // At every moment of the call the slots of each image say the state from before it, or the one after it.
        ensures any_moment { (before : State) (after : State) → IsManifestKept (F.disk files.old) self.old before → edited_state before edit.now ≡ Some after
            → Always (F.disk files.old) (F.disk files.new) (SaysBeforeOrAfter before after) }
        // Where the gate was not tried, they say the one from before it.
        ensures not_tried { OnErr result (self.new.unsure ≡ false → (before : State) → IsManifestKept (F.disk files.old) self.old before
            → Always (F.disk files.old) (F.disk files.new) (λ files. manifest_state files ≡ Ok before)) }
        ensures alone { (before : State) → IsManifestKept (F.disk files.old) self.old before
            → Touches self.old.name (F.disk files.old) (F.disk files.new) (λ c. Unit {0}) }
        ensures cause { HasCause (F.faults files.old) (F.faults files.new) result }
    {
        self.slot.append(files, edit)
    }

    /// Closes the gate of an edit that failed, and syncs. At `Failed` the manifest stays unsure. Where it is not unsure,
    /// no call is made.
    pub fn mend(&mut self, files: &mut F) -> Result<(), Failed>
        ensures idle { self.old.unsure ≡ false → (files.new ≡ files.old) × (self.new ≡ self.old) }
        ensures mended { OnOk result (self.old.unsure ≡ true → (before : State) (after : State) → IsManifestTried (F.disk files.old) self.old before after
            → IsManifestKept (F.disk files.new) self.new before) }
        ensures sure { OnOk result (self.new.unsure ≡ false) }
        ensures not_mended { OnErr result ((before : State) (after : State) → IsManifestTried (F.disk files.old) self.old before after
            → IsManifestTried (F.disk files.new) self.new before after) }
        ensures unsure { OnErr result (self.new.unsure ≡ true) }
        ensures name { self.new.name ≡ self.old.name }

        // At every moment of the call the slots of each image say the state, or the one after the edit that was tried.
        ensures any_moment { self.old.unsure ≡ true → (before : State) (after : State) → IsManifestTried (F.disk files.old) self.old before after
            → Always (F.disk files.old) (F.disk files.new) (SaysBeforeOrAfter before after) }
        ensures alone { self.old.unsure ≡ true → (before : State) (after : State) → IsManifestTried (F.disk files.old) self.old before after
            → Touches self.old.name (F.disk files.old) (F.disk files.new) (λ c. Unit {0}) }
        ensures cause { HasCause (F.faults files.old) (F.faults files.new) result }
    {
        self.slot.mend(files)
    }

    /// May the gate of an edit that failed stand open?
    pub fn unsure(&self) -> bool
        ensures { result ≡ self.now.unsure }
    {
        self.slot.unsure()
    }
}
