//! Laws of the definitions, which the check proves. Each function's contract is one.

ghost use Rattle.std.specs.Prelude.{◌≡◌, ◌++◌, ◌∷◌, [], ℕ, List, Bool, true, false, Err, Ok, Result};
ghost use Rattle.kv_base.specs.Map.{Bytes};
ghost use Rattle.kv_base.specs.declared.name.FileName.{FileName};
ghost use Rattle.kv_base.specs.declared.name.FileName.TheVariants.{Table};
ghost use Rattle.kv_outside.specs.Disk.{Always, Touches};
ghost use Rattle.level_set.specs.declared.home.Home.{Home};
ghost use Rattle.edit_codec.specs.States.{new_state};
ghost use Rattle.edit_codec.specs.declared.state.State.{State};
ghost use Rattle.manifest_set.specs.Keeping.{SaysBeforeOrAfter};
ghost use Rattle.manifest_set.specs.Slots.{Damage, IsSlot, manifest_state};
ghost use Rattle.recovery.specs.Bounds.{HasBounds};
ghost use Rattle.recovery.specs.Logs.{log_of};
ghost use Rattle.recovery.specs.Named.{AgreeAt, AreFilesOf, FindsEither, LeavesFound};
ghost use Rattle.recovery.specs.Recover.{Recovery, recover};
ghost use Rattle.recovery.specs.Tables.{OpenedTable, place_off, table_of, tables_of, together};

use kv_outside::Files;

/// Damage of the slots is answered first.
#[tactic(auto, using(crate::specs::RecoverLaws::slots_come_first))]
pub fn damaged_slots_are_answered()
    ensures { (files : FileName → Bytes) (damage : Damage) → manifest_state files ≡ Err damage → recover files ≡ Err damage }
{}

/// Where the slots say a state, the first of its tables that is damaged is answered.
#[tactic(auto, using(crate::specs::RecoverLaws::first_table_damage))]
pub fn the_first_damaged_table_is_answered()
    ensures { (files : FileName → Bytes) (state : State) (front : List Home) (behind : List Home) (tables : List OpenedTable) (home : Home) (place : ℕ) → manifest_state files ≡ Ok state → state.levels ≡ front ++ home ∷ behind
        → tables_of files front ≡ Ok tables → table_of home.desc (files (Table home.desc.id)) ≡ Err place → recover files ≡ Err (place_off (Table home.desc.id) place) }
{}

/// Where the tables are found and stand together, damage of the log is answered.
#[tactic(auto, using(crate::specs::RecoverLaws::log_damage_last))]
pub fn damage_of_the_log_is_answered_last()
    ensures { (files : FileName → Bytes) (state : State) (tables : List OpenedTable) (damage : Damage) → manifest_state files ≡ Ok state → tables_of files state.levels ≡ Ok tables → together state.last tables ≡ Ok tables
        → log_of files state ≡ Err damage → recover files ≡ Err damage }
{}

/// Only the slots, the tables of the state, and its two segments are read.
#[tactic(auto, using(crate::specs::RecoverLaws::named_alone))]
pub fn only_named_files_are_read()
    ensures { (files : FileName → Bytes) (others : FileName → Bytes) (state : State) → manifest_state files ≡ Ok state → AgreeAt state files others → recover files ≡ recover others }
{}

/// Where no damage is found, the slots say the state, each of its tables is, byte for byte, the file of its rows and as the
/// manifest records it, no row is out of turn, and the two segments are on their grammar and go on behind the tables.
#[tactic(auto, using(crate::specs::RecoverLaws::files_are))]
pub fn recovered_files_are_whole()
    ensures { (files : FileName → Bytes) (found : Recovery) → recover files ≡ Ok found → AreFilesOf files found }
{}

/// And from such files all of that is recovered.
#[tactic(auto, using(crate::specs::RecoverLaws::files_recover))]
pub fn whole_files_are_recovered()
    ensures { (files : FileName → Bytes) (found : Recovery) → AreFilesOf files found → recover files ≡ Ok found }
{}

/// Where there is no file, a new store is recovered: no tables and no batches.
#[tactic(auto, using(crate::specs::RecoverLaws::nothing_is_new))]
pub fn no_files_are_a_new_store()
    ensures { recover (λ name. []) ≡ Ok (record { state = new_state; tables = []; log = record { first = []; second = []; goes_on = false } }) }
{}

/// Nothing that was recovered is above the last sequence, which is that of the tables and one more for each batch, and no
/// batch is later than the floor.
#[tactic(auto, using(crate::specs::BoundLaws::bounds_are))]
pub fn nothing_is_beyond_what_is_recovered()
    ensures { (files : FileName → Bytes) (found : Recovery) → recover files ≡ Ok found → HasBounds found }
{}

/// At each moment of a call that changes one slot of the manifest, whatever a crash leaves, what is recovered is what the
/// other files have behind the state from before the call, or behind the one after it.
///
/// It is said of two moments of some files, and of any two tests of what is recovered.
#[tactic(auto, using(crate::specs::RecoverLaws::edits_leave))]
pub fn edits_leave_what_was_or_comes<F: Files>(old: &F, new: &F)
    ensures { (slot : FileName) (before : State) (after : State) (was : Result Recovery Damage → Bool) (comes : Result Recovery Damage → Bool) → IsSlot slot
        → Always (F.disk old.now) (F.disk new.now) (SaysBeforeOrAfter before after) → Touches slot (F.disk old.now) (F.disk new.now) (λ c. Unit {0})
        → LeavesFound (F.disk old.now) before (λ found. was found ≡ true) → LeavesFound (F.disk old.now) after (λ found. comes found ≡ true)
        → Always (F.disk old.now) (F.disk new.now) (FindsEither (λ found. was found ≡ true) (λ found. comes found ≡ true)) }
{}
