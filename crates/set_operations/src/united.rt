//! The members of several sets, each once.

ghost use Rattle.std.specs.Prelude.{◌≡◌, All, IfOk, IfSome, OnOk, fold, length, zip};
ghost use Rattle.std.specs.BTreeSet.{insert_key};
ghost use Rattle.kv_base.specs.Map as table;
ghost use Rattle.redis_model.specs.Limits.{IsName};
ghost use Rattle.lives_model.specs.Views.{ReadsView};
ghost use Rattle.set_operations.specs.Combined.{HasFoundVersion, gathered, members_of};

use crate::sets::{life_or_none, member_of, member_rows};
use kv_base::{Blob, Blobs, Key, NoMem, StoreFault};
use lives_model::{LiveRow, RawView};
use plan_base::KeyLife;
use std::alloc::Global;
use std::collections::BTreeSet;

/// The members of all sets, each once, in order.
pub(crate) fn united<V: RawView>(
    alloc: Global,
    view: &mut V,
    keys: &[Key],
    lives: &[KeyLife],
) -> Result<Blobs, StoreFault>
    requires count { length lives.now ≡ length keys.now }
    requires versions { All HasFoundVersion lives.now }
    ensures members { IfOk result (λ members. IfSome (V.told view.old).rows (λ c. members ≡ table.keys (gathered c (zip keys.now lives.now)))) }
    ensures names { IfOk result (λ members. All IsName members) }
    ensures reads { ReadsView (V.told view.old) (V.told view.new) result }
{
    let all = gather(alloc, view, keys, lives)?;
    let members = in_order(alloc, all)?;
    Ok(members)
}

/// The members of all sets, in a tree.
fn gather<V: RawView>(
    alloc: Global,
    view: &mut V,
    keys: &[Key],
    lives: &[KeyLife],
) -> Result<BTreeSet<Blob>, StoreFault>
    requires count { length lives.now ≡ length keys.now }
    requires versions { All HasFoundVersion lives.now }
    ensures members { IfOk result (λ all. IfSome (V.told view.old).rows (λ c. all.keys ≡ table.keys (gathered c (zip keys.now lives.now)))) }
    ensures reads { ReadsView (V.told view.old) (V.told view.new) result }
{
    let mut all = BTreeSet::new(alloc);
    for (at, key) in keys.iter().enumerate() {
        let rows = member_rows(alloc, view, key, life_or_none(lives[at]))?;
        add_members(alloc, &mut all, rows.as_slice(), key)?;
    }
    Ok(all)
}

/// Adds the members whose rows these are.
fn add_members(
    alloc: Global,
    all: &mut BTreeSet<Blob>,
    rows: &[LiveRow],
    key: &Key,
) -> Result<(), NoMem>
    ensures { OnOk result (all.new.keys ≡ fold (insert_key table.byte_cmp) all.old.keys (members_of key.now rows.now)) }
{
    for row in rows {
        let member = member_of(alloc, row, key)?;
        all.insert(member.into_blob())?;
    }
    Ok(())
}

/// The members of a tree, in order.
fn in_order(alloc: Global, all: BTreeSet<Blob>) -> Result<Blobs, NoMem>
    ensures members { IfOk result (λ members. members ≡ all.keys) }
    ensures names { IfOk result (λ members. All IsName members) }
{
    let mut all = all;
    let mut members = Blobs::new(alloc);
    while let Some(bytes) = all.pop_first() {
        let member = named(bytes)?;
        members.push(member)?;
    }
    Ok(members)
}

/// The bytes of a member. They came from a member, so they fit into a key.
fn named(bytes: Blob) -> Result<Blob, NoMem>
    ensures same { IfOk result (λ member. member ≡ bytes) }
    ensures name { IfOk result (λ member. IsName member) }
{
    match Key::new(bytes) {
        Ok(key) => Ok(key.into_blob()),
        Err(_) => Err(NoMem),
    }
}
