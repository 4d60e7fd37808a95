//! The members of a set that others have too, or that they do not have.

ghost use Rattle.std.specs.Prelude.{◌≡◌, ◌++◌, ◌∷◌, [], All, IfOk, IfSome, OnOk, filter, if◌then◌else◌, length, zip};
ghost use Rattle.redis_model.specs.Limits.{IsName};
ghost use Rattle.lives_model.specs.Views.{ReadsView};
ghost use Rattle.set_operations.specs.Combined.{HasFoundVersion, agrees, all_answer, kept_members, members_of};

use crate::sets::{life_or_none, member_of, member_rows};
use kv_base::{Blobs, Key, NoMem, StoreFault};
use lives_model::{LiveRow, RawView};
use plan_base::{KeyLife, has_in_life};
use std::alloc::Global;

/// The members of the first set that each other one has, where `shared` holds, or else none of them.
pub(crate) fn kept<V: RawView>(
    alloc: Global,
    view: &mut V,
    shared: bool,
    keys: &[Key],
    lives: &[KeyLife],
) -> Result<Blobs, StoreFault>
    requires count { length lives.now ≡ length keys.now }
    requires versions { All HasFoundVersion lives.now }
    ensures members { IfOk result (λ members. IfSome (V.told view.old).rows (λ c. members ≡ kept_members c shared (zip keys.now lives.now))) }
    ensures names { IfOk result (λ members. All IsName members) }
    ensures reads { ReadsView (V.told view.old) (V.told view.new) result }
{
    let Some((first, keys)) = keys.split_first() else {
        return Ok(Blobs::new(alloc));
    };
    let Some((found, lives)) = lives.split_first() else {
        return Ok(Blobs::new(alloc));
    };
    let rows = member_rows(alloc, view, first, life_or_none(*found))?;
    let members = kept_rows(alloc, view, shared, first, rows.as_slice(), keys, lives)?;
    Ok(members)
}

/// Of the members whose rows these are, those that each of the sets has, where `shared` holds, or else none of them.
fn kept_rows<V: RawView>(
    alloc: Global,
    view: &mut V,
    shared: bool,
    first: &Key,
    rows: &[LiveRow],
    keys: &[Key],
    lives: &[KeyLife],
) -> Result<Blobs, StoreFault>
    requires count { length lives.now ≡ length keys.now }
    requires versions { All HasFoundVersion lives.now }
    ensures members { IfOk result (λ members. IfSome (V.told view.old).rows
        (λ c. members ≡ filter (all_answer c (zip keys.now lives.now) shared) (members_of first.now rows.now))) }
    ensures names { IfOk result (λ members. All IsName members) }
    ensures reads { ReadsView (V.told view.old) (V.told view.new) result }
{
    let mut kept = Blobs::new(alloc);
    for row in rows {
        let member = member_of(alloc, row, first)?;
        let counts = all_answer(alloc, view, keys, lives, shared, &member)?;
        push_if(&mut kept, counts, member)?;
    }
    Ok(kept)
}

/// Adds a member, where it counts.
fn push_if(kept: &mut Blobs, counts: bool, member: Key) -> Result<(), NoMem>
    requires { IsName member }
    ensures kept { OnOk result (kept.new ≡ kept.old ++ (if counts then member ∷ [] else [])) }
    ensures names { All IsName kept.old → OnOk result (All IsName kept.new) }
{
    if counts {
        kept.push(member.into_blob())?;
    }
    Ok(())
}

/// Does each of the sets have the member, where `shared` holds, or else none of them? One row of each is looked up, up to the first that
/// decides it.
fn all_answer<V: RawView>(
    alloc: Global,
    view: &mut V,
    keys: &[Key],
    lives: &[KeyLife],
    shared: bool,
    member: &Key,
) -> Result<bool, StoreFault>
    requires count { length lives.now ≡ length keys.now }
    requires versions { All HasFoundVersion lives.now }
    ensures all { IfOk result (λ all. IfSome (V.told view.old).rows (λ c. all ≡ all_answer c (zip keys.now lives.now) shared member.now)) }
    ensures reads { ReadsView (V.told view.old) (V.told view.new) result }
{
    for (at, key) in keys.iter().enumerate() {
        let there = has_in_life(alloc, view, key, life_or_none(lives[at]), member.bytes())?;
        if !agrees(shared, there) {
            return Ok(false);
        }
    }
    Ok(true)
}

/// Is a test passed, or with `false` not passed?
fn agrees(shared: bool, passed: bool) -> bool
    ensures { result ≡ agrees shared passed }
{
    if shared { passed } else { !passed }
}
