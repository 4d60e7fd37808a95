//! The rows that commands want of the elements of a life.

ghost use Rattle.kv_base.specs.Map.{size};
ghost use Rattle.std.specs.Prelude.{◌≡◌, ◌≤◌, ◌∷◌, [], All, IfOk, IfSome, OnOk, IsTrue, length, map, option_map, zip};
ghost use Rattle.kv_base.specs.RawKeys.{is_version};
ghost use Rattle.redis_model.specs.Limits.{IsName, IsShort};
ghost use Rattle.life_plans.specs.WantedRows.{joins, leaves, puts, wanted, with_wish};

use batch_codec::{Batch, BatchBuilder};
use kv_base::{Blob, Key, NoMem};
use plan_base::element_key;
use std::alloc::Global;

/// What is to stand under these fields: their values. Each value is copied once, and of a field that comes twice the last one
/// holds.
pub fn wanted_puts(
    alloc: Global,
    key: &Key,
    version: u64,
    fields: &[Blob],
    values: &[Blob],
) -> Result<Batch, NoMem>
    requires version { IsTrue (is_version version) }
    requires names { All IsName fields.now }
    requires short { All IsShort values.now }
    requires pairs { length values.now ≡ length fields.now }
    ensures wanted { IfOk result (λ batch. batch ≡ wanted key.now version (puts (zip fields.now values.now))) }
    ensures few { IfOk result (λ batch. size batch ≤ length fields.now) }
{
    let mut rows = BatchBuilder::new(alloc);
    for (at, field) in fields.iter().enumerate() {
        let value = Some(values[at].bytes());
        put_wish(alloc, &mut rows, key, version, field.bytes(), value)?;
    }
    let batch = rows.build()?;
    Ok(batch)
}

/// What is to stand under these members: nothing but their being there.
pub fn wanted_joins(
    alloc: Global,
    key: &Key,
    version: u64,
    members: &[Blob],
) -> Result<Batch, NoMem>
    requires version { IsTrue (is_version version) }
    requires names { All IsName members.now }
    ensures wanted { IfOk result (λ batch. batch ≡ wanted key.now version (joins members.now)) }
    ensures few { IfOk result (λ batch. size batch ≤ length members.now) }
{
    wanted_each(alloc, key, version, members, Some(&[]))
}

/// What is to stand under these fields or members: none of them is to be there.
pub fn wanted_leaves(
    alloc: Global,
    key: &Key,
    version: u64,
    subkeys: &[Blob],
) -> Result<Batch, NoMem>
    requires version { IsTrue (is_version version) }
    requires names { All IsName subkeys.now }
    ensures wanted { IfOk result (λ batch. batch ≡ wanted key.now version (leaves subkeys.now)) }
    ensures few { IfOk result (λ batch. size batch ≤ length subkeys.now) }
{
    wanted_each(alloc, key, version, subkeys, None)
}

/// The same row is to stand under each of these subkeys, or none.
pub fn wanted_each(
    alloc: Global,
    key: &Key,
    version: u64,
    subkeys: &[Blob],
    row: Option<&[u8]>,
) -> Result<Batch, NoMem>
    requires version { IsTrue (is_version version) }
    requires names { All IsName subkeys.now }
    requires short { IfSome row (λ value. IsShort value.now) }
    ensures wanted { IfOk result (λ batch. batch ≡ wanted key.now version (map (λ x. (x, option_map (λ value. value.now) row.entry)) subkeys.now)) }
    ensures few { IfOk result (λ batch. size batch ≤ length subkeys.now) }
{
    let mut rows = BatchBuilder::new(alloc);
    for subkey in subkeys {
        put_wish(alloc, &mut rows, key, version, subkey.bytes(), row)?;
    }
    let batch = rows.build()?;
    Ok(batch)
}

/// This row is to stand under a subkey, or none.
pub fn wanted_one(
    alloc: Global,
    key: &Key,
    version: u64,
    subkey: &[u8],
    row: Option<&[u8]>,
) -> Result<Batch, NoMem>
    requires version { IsTrue (is_version version) }
    requires name { IsName subkey.now }
    requires short { IfSome row (λ value. IsShort value.now) }
    ensures wanted { IfOk result (λ batch. batch ≡ wanted key.now version ((subkey.now, option_map (λ value. value.now) row.entry) ∷ [])) }
    ensures few { IfOk result (λ batch. size batch ≤ 1) }
{
    let mut rows = BatchBuilder::new(alloc);
    put_wish(alloc, &mut rows, key, version, subkey, row)?;
    let batch = rows.build()?;
    Ok(batch)
}

/// Puts a row under a subkey, or the delete.
#[tactic(auto, using(plan_base::specs::KeyLimitLaws::name_is_key, crate::proofs::Values::element_fits))]
fn put_wish(
    alloc: Global,
    rows: &mut BatchBuilder,
    key: &Key,
    version: u64,
    subkey: &[u8],
    row: Option<&[u8]>,
) -> Result<(), NoMem>
    requires version { IsTrue (is_version version) }
    requires name { IsName subkey.now }
    requires short { IfSome row (λ value. IsShort value.now) }
    ensures { OnOk result (rows.new ≡ with_wish key.now version rows.old (subkey.now, option_map (λ value. value.now) row.entry)) }
{
    let raw = element_key(alloc, key, version, subkey)?;
    match row {
        Some(value) => rows.put(raw, Blob::copy(alloc, value)?),
        None => rows.delete(raw),
    }
}
