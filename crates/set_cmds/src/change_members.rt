//! SADD and SREM.

ghost use Rattle.std.specs.Prelude.{◌≡◌, All, IfOk, IfSome, IsTrue};
ghost use Rattle.kv_base.specs.RawKeys.{is_version};
ghost use Rattle.redis_model.specs.Limits.{IsName};
ghost use Rattle.lives_model.specs.Views.{ReadsView};
ghost use Rattle.set_cmds.specs.Found.{IsSetFound};
ghost use Rattle.set_cmds.specs.Planned.{s_add_plan, s_rem_plan, adding, removing};

use crate::found::set_found;
use kv_base::{Blob, Key, StoreFault};
use life_changes::{
    LifeFound, changes, changing_plan, life_version, size_after, wanted_joins, wanted_leaves,
};
use lives_model::{Plan, RawView};
use meta_codec::Kind;
use plan_base::{MetaKey, answering, life_size, look_at_life};
use redis_model::Reply;
use std::alloc::Global;

/// SADD. One row is looked up for each member that is named, whatever the set's size.
///
/// The fault is one of the view, or want of memory. It leaves the view's rows as they are, as does an answer.
#[tactic(auto, using(lives_model::specs::ViewLaws::reading), unfolding(crate::specs::Planned::s_add_plan))]
pub(crate) fn s_add<V: RawView>(
    alloc: Global,
    view: &mut V,
    moment: u64,
    fresh: u64,
    key: &Key,
    members: &[Blob],
) -> Result<Plan, StoreFault>
    requires fresh { IsTrue (is_version fresh) }
    requires members { All IsName members.now }
    ensures plan { IfOk result (λ plan. IfSome (V.told view.old).rows (λ c. plan ≡ s_add_plan c moment fresh key.now members.now)) }
    ensures reads { ReadsView (V.told view.old) (V.told view.new) result }
{
    let raw = MetaKey::new(alloc, key)?;
    let found = look_at_life(alloc, view, moment, Kind::Set, &raw)?;
    let life = match found.life {
        Ok(life) => life,
        Err(error) => {
            return Ok(answering(alloc, moment, found.deadline, Reply::Error(error)));
        }
    };
    let found = set_found(moment, raw, found.deadline, life, fresh);
    let plan = add_members(alloc, view, key, found, members)?;
    Ok(plan)
}

/// Adds members to the life that was found, or to a new one.
///
/// The fault is one of the view, or want of memory. It leaves the view's rows as they are, as does an answer.
fn add_members<V: RawView>(
    alloc: Global,
    view: &mut V,
    key: &Key,
    found: LifeFound,
    members: &[Blob],
) -> Result<Plan, StoreFault>
    requires found { IsSetFound found key.now }
    requires members { All IsName members.now }
    ensures plan { IfOk result (λ plan. IfSome (V.told view.old).rows
        (λ c. plan ≡ adding c found.moment found.fresh key.now members.now found.old found.life)) }
    ensures reads { ReadsView (V.told view.old) (V.told view.new) result }
{
    let version = life_version(found.fresh, found.life);
    let rows = wanted_joins(alloc, key, version, members)?;
    let change = changes(alloc, view, &rows)?;
    let size = size_after(found.life, change.added, change.removed);
    let grown = size.saturating_sub(life_size(found.life));
    let plan = changing_plan(alloc, found, false, change, Reply::Int(grown as i64))?;
    Ok(plan)
}

/// SREM. One row is looked up for each member that is named, whatever the set's size, and none where there is no key. A set
/// that becomes empty is deleted by its metadata alone.
///
/// The fault is one of the view, or want of memory. It leaves the view's rows as they are, as does an answer.
#[tactic(auto, using(lives_model::specs::ViewLaws::reading), unfolding(crate::specs::Planned::s_rem_plan))]
pub(crate) fn s_rem<V: RawView>(
    alloc: Global,
    view: &mut V,
    moment: u64,
    fresh: u64,
    key: &Key,
    members: &[Blob],
) -> Result<Plan, StoreFault>
    requires fresh { IsTrue (is_version fresh) }
    requires members { All IsName members.now }
    ensures plan { IfOk result (λ plan. IfSome (V.told view.old).rows (λ c. plan ≡ s_rem_plan c moment fresh key.now members.now)) }
    ensures reads { ReadsView (V.told view.old) (V.told view.new) result }
{
    let raw = MetaKey::new(alloc, key)?;
    let found = look_at_life(alloc, view, moment, Kind::Set, &raw)?;
    let life = match found.life {
        Ok(life) => life,
        Err(error) => {
            return Ok(answering(alloc, moment, found.deadline, Reply::Error(error)));
        }
    };
    let found = set_found(moment, raw, found.deadline, life, fresh);
    let plan = remove_members(alloc, view, key, found, members)?;
    Ok(plan)
}

/// Takes members out of the life that was found, if one was.
///
/// The fault is one of the view, or want of memory. It leaves the view's rows as they are, as does an answer.
fn remove_members<V: RawView>(
    alloc: Global,
    view: &mut V,
    key: &Key,
    found: LifeFound,
    members: &[Blob],
) -> Result<Plan, StoreFault>
    requires found { IsSetFound found key.now }
    requires members { All IsName members.now }
    ensures plan { IfOk result (λ plan. IfSome (V.told view.old).rows
        (λ c. plan ≡ removing c found.moment found.fresh key.now members.now found.old found.life)) }
    ensures reads { ReadsView (V.told view.old) (V.told view.new) result }
{
    let Some(life) = found.life else {
        return Ok(answering(alloc, found.moment, found.old, Reply::Int(0)));
    };
    let rows = wanted_leaves(alloc, key, life.version, members)?;
    let change = changes(alloc, view, &rows)?;
    let size = size_after(found.life, change.added, change.removed);
    let gone = life.size.saturating_sub(size);
    let plan = changing_plan(alloc, found, false, change, Reply::Int(gone as i64))?;
    Ok(plan)
}
