//! HSET and HDEL.

ghost use Rattle.std.specs.Prelude.{◌≡◌, All, IfOk, IfSome, IsTrue, length};
ghost use Rattle.kv_base.specs.RawKeys.{is_version};
ghost use Rattle.redis_model.specs.Limits.{IsName, IsShort};
ghost use Rattle.lives_model.specs.Views.{ReadsView};
ghost use Rattle.hash_cmds.specs.Found.{IsHashFound};
ghost use Rattle.hash_cmds.specs.Planned.{h_set_plan, h_del_plan, setting_fields, deleting_fields};

use crate::found::hash_found;
use kv_base::{Blob, Key, StoreFault};
use life_changes::{
    LifeFound, changes, changing_plan, life_version, size_after, wanted_leaves, wanted_puts,
};
use lives_model::{Plan, RawView};
use meta_codec::Kind;
use plan_base::{MetaKey, answering, life_size, look_at_life};
use redis_model::Reply;
use std::alloc::Global;

/// HSET. One row is looked up for each field, whatever the hash's size. Of a field that comes twice the last value holds.
///
/// The fault is one of the view, or want of memory. It leaves the view's rows as they are, as does an answer.
#[tactic(auto, using(lives_model::specs::ViewLaws::reading), unfolding(crate::specs::Planned::h_set_plan))]
pub(crate) fn h_set<V: RawView>(
    alloc: Global,
    view: &mut V,
    moment: u64,
    fresh: u64,
    key: &Key,
    fields: &[Blob],
    values: &[Blob],
) -> Result<Plan, StoreFault>
    requires fresh { IsTrue (is_version fresh) }
    requires fields { All IsName fields.now }
    requires values { All IsShort values.now }
    requires pairs { length values.now ≡ length fields.now }
    ensures plan { IfOk result (λ plan. IfSome (V.told view.old).rows (λ c. plan ≡ h_set_plan c moment fresh key.now fields.now values.now)) }
    ensures reads { ReadsView (V.told view.old) (V.told view.new) result }
{
    let raw = MetaKey::new(alloc, key)?;
    let found = look_at_life(alloc, view, moment, Kind::Hash, &raw)?;
    let life = match found.life {
        Ok(life) => life,
        Err(error) => {
            return Ok(answering(alloc, moment, found.deadline, Reply::Error(error)));
        }
    };
    let found = hash_found(moment, raw, found.deadline, life, fresh);
    let plan = set_fields(alloc, view, key, found, fields, values)?;
    Ok(plan)
}

/// Sets fields in the life that was found, or in a new one.
///
/// The fault is one of the view, or want of memory. It leaves the view's rows as they are, as does an answer.
fn set_fields<V: RawView>(
    alloc: Global,
    view: &mut V,
    key: &Key,
    found: LifeFound,
    fields: &[Blob],
    values: &[Blob],
) -> Result<Plan, StoreFault>
    requires found { IsHashFound found key.now }
    requires fields { All IsName fields.now }
    requires values { All IsShort values.now }
    requires pairs { length values.now ≡ length fields.now }
    ensures plan { IfOk result (λ plan. IfSome (V.told view.old).rows
        (λ c. plan ≡ setting_fields c found.moment found.fresh key.now fields.now values.now found.old found.life)) }
    ensures reads { ReadsView (V.told view.old) (V.told view.new) result }
{
    let version = life_version(found.fresh, found.life);
    let rows = wanted_puts(alloc, key, version, fields, values)?;
    let change = changes(alloc, view, &rows)?;
    let size = size_after(found.life, change.added, change.removed);
    let grown = size.saturating_sub(life_size(found.life));
    let plan = changing_plan(alloc, found, true, change, Reply::Int(grown as i64))?;
    Ok(plan)
}

/// HDEL. One row is looked up for each field, whatever the hash's size, and none where there is no key. A hash that becomes
/// empty is deleted by its metadata alone.
///
/// The fault is one of the view, or want of memory. It leaves the view's rows as they are, as does an answer.
#[tactic(auto, using(lives_model::specs::ViewLaws::reading), unfolding(crate::specs::Planned::h_del_plan))]
pub(crate) fn h_del<V: RawView>(
    alloc: Global,
    view: &mut V,
    moment: u64,
    fresh: u64,
    key: &Key,
    fields: &[Blob],
) -> Result<Plan, StoreFault>
    requires fresh { IsTrue (is_version fresh) }
    requires fields { All IsName fields.now }
    ensures plan { IfOk result (λ plan. IfSome (V.told view.old).rows (λ c. plan ≡ h_del_plan c moment fresh key.now fields.now)) }
    ensures reads { ReadsView (V.told view.old) (V.told view.new) result }
{
    let raw = MetaKey::new(alloc, key)?;
    let found = look_at_life(alloc, view, moment, Kind::Hash, &raw)?;
    let life = match found.life {
        Ok(life) => life,
        Err(error) => {
            return Ok(answering(alloc, moment, found.deadline, Reply::Error(error)));
        }
    };
    let found = hash_found(moment, raw, found.deadline, life, fresh);
    let plan = delete_fields(alloc, view, key, found, fields)?;
    Ok(plan)
}

/// Takes fields out of the life that was found, if one was.
///
/// The fault is one of the view, or want of memory. It leaves the view's rows as they are, as does an answer.
fn delete_fields<V: RawView>(
    alloc: Global,
    view: &mut V,
    key: &Key,
    found: LifeFound,
    fields: &[Blob],
) -> Result<Plan, StoreFault>
    requires found { IsHashFound found key.now }
    requires fields { All IsName fields.now }
    ensures plan { IfOk result (λ plan. IfSome (V.told view.old).rows
        (λ c. plan ≡ deleting_fields c found.moment found.fresh key.now fields.now found.old found.life)) }
    ensures reads { ReadsView (V.told view.old) (V.told view.new) result }
{
    let Some(life) = found.life else {
        return Ok(answering(alloc, found.moment, found.old, Reply::Int(0)));
    };
    let rows = wanted_leaves(alloc, key, life.version, fields)?;
    let change = changes(alloc, view, &rows)?;
    let size = size_after(found.life, change.added, change.removed);
    let gone = life.size.saturating_sub(size);
    let plan = changing_plan(alloc, found, false, change, Reply::Int(gone as i64))?;
    Ok(plan)
}
