//! SMOVE.

ghost use Rattle.std.specs.Prelude.{◌≡◌, IfOk, IfSome, IsTrue};
ghost use Rattle.kv_base.specs.Map.{same};
ghost use Rattle.kv_base.specs.RawKeys.{is_version};
ghost use Rattle.redis_model.specs.Limits.{IsName};
ghost use Rattle.lives_model.specs.Views.{ReadsView};
ghost use Rattle.set_cmds.specs.Found.{IsSetFound};
ghost use Rattle.set_cmds.specs.MovePlanned.{joining, member_leaving, looking, member_moved, moving_member, quiet, s_move_plan};

use crate::found::set_found;
use batch_codec::Batch;
use kv_base::{Blob, Key, NoMem, StoreFault};
use life_changes::{LifeChange, LifeFound, changing_plan, life_version, wanted_one};
use lives_model::{Plan, RawView};
use meta_codec::Kind;
use plan_base::{MetaKey, element_key, has_in_life, look_at_life, until_of};
use redis_model::Reply;
use std::alloc::Global;

/// SMOVE. The metadata of both keys is read, and at most one row of each, whatever the sizes of the sets.
///
/// The fault is one of the view, or want of memory. It leaves the view's rows as they are, as does an answer.
#[tactic(auto, using(lives_model::specs::ViewLaws::reading), unfolding(crate::specs::MovePlanned::s_move_plan))]
pub(crate) fn s_move<V: RawView>(
    alloc: Global,
    view: &mut V,
    moment: u64,
    fresh: u64,
    from: &Key,
    to: &Key,
    member: &Blob,
) -> Result<Plan, StoreFault>
    requires fresh { IsTrue (is_version fresh) }
    requires member { IsName member.now }
    ensures plan { IfOk result (λ plan. IfSome (V.told view.old).rows (λ c. plan ≡ s_move_plan c moment fresh from.now to.now member.now)) }
    ensures reads { ReadsView (V.told view.old) (V.told view.new) result }
{
    let raw = MetaKey::new(alloc, from)?;
    let other = MetaKey::new(alloc, to)?;
    let source = look_at_life(alloc, view, moment, Kind::Set, &raw)?;
    let target = look_at_life(alloc, view, moment, Kind::Set, &other)?;
    let until = until_of(moment, source.deadline, target.deadline);
    let left = match source.life {
        Ok(None) => return Ok(quiet(alloc, until, Reply::Int(0))),
        Ok(Some(life)) => Some(life),
        Err(error) => return Ok(quiet(alloc, until, Reply::Error(error))),
    };
    let right = match target.life {
        Ok(life) => life,
        Err(error) => return Ok(quiet(alloc, until, Reply::Error(error))),
    };
    let source = set_found(moment, raw, source.deadline, left, fresh);
    let target = set_found(moment, other, target.deadline, right, fresh);
    let plan = move_found(alloc, view, from, to, source, target, member)?;
    Ok(plan)
}

/// Moves a member between the sets that were found.
///
/// The fault is one of the view, or want of memory. It leaves the view's rows as they are, as does an answer.
#[tactic(auto, using(lives_model::specs::ViewLaws::reading, plan_base::specs::KeyLimitLaws::name_is_key))]
fn move_found<V: RawView>(
    alloc: Global,
    view: &mut V,
    from: &Key,
    to: &Key,
    source: LifeFound,
    target: LifeFound,
    member: &Blob,
) -> Result<Plan, StoreFault>
    requires source { IsSetFound source from.now }
    requires target { IsSetFound target to.now }
    requires moment { target.moment ≡ source.moment }
    requires fresh { target.fresh ≡ source.fresh }
    requires member { IsName member.now }
    ensures plan { IfOk result (λ plan. IfSome (V.told view.old).rows
        (λ c. plan ≡ moving_member c source.moment source.fresh from.now to.now member.now source.old target.old source.life target.life)) }
    ensures reads { ReadsView (V.told view.old) (V.told view.new) result }
{
    let until = until_of(source.moment, source.old, target.old);
    let here = has_in_life(alloc, view, from, source.life, member.bytes())?;
    if !here {
        return Ok(quiet(alloc, until, Reply::Int(0)));
    }
    if is_same(from, to) {
        return Ok(quiet(alloc, until, Reply::Int(1)));
    }
    let there = has_in_life(alloc, view, to, target.life, member.bytes())?;
    let plan = member_moved(alloc, from, to, source, target, member, there)?;
    Ok(plan)
}

/// The plan of a member that the source has and that goes to another key, by whether it is there.
fn member_moved(
    alloc: Global,
    from: &Key,
    to: &Key,
    source: LifeFound,
    target: LifeFound,
    member: &Blob,
    there: bool,
) -> Result<Plan, NoMem>
    requires source { IsSetFound source from.now }
    requires target { IsSetFound target to.now }
    requires moment { target.moment ≡ source.moment }
    requires fresh { target.fresh ≡ source.fresh }
    requires member { IsName member.now }
    ensures { IfOk result (λ plan. plan ≡ member_moved source.moment source.fresh from.now to.now member.now source.old target.old source.life target.life there) }
{
    let until = until_of(source.moment, source.old, target.old);
    let left = member_leaving(alloc, from, source, member)?;
    if there {
        return Ok(looking(left, until));
    }
    let Plan { batch, .. } = left;
    let plan = joining(alloc, to, target, member, batch)?;
    Ok(looking(plan, until))
}

/// The plan of a set that loses a member which it has.
fn member_leaving(alloc: Global, key: &Key, found: LifeFound, member: &Blob) -> Result<Plan, NoMem>
    requires found { IsSetFound found key.now }
    requires member { IsName member.now }
    ensures { IfOk result (λ plan. plan ≡ member_leaving found.moment found.fresh key.now member.now found.old found.life) }
{
    let version = life_version(found.fresh, found.life);
    let rows = wanted_one(alloc, key, version, member.bytes(), None)?;
    let change = LifeChange {
        rows,
        added: 0,
        removed: 1,
    };
    changing_plan(alloc, found, true, change, Reply::Int(1))
}

/// The plan of a set that gets a member which it does not have, beside rows of another key.
#[tactic(auto, using(plan_base::specs::KeyLimitLaws::name_is_key, life_changes::proofs::Values::element_fits))]
fn joining(
    alloc: Global,
    key: &Key,
    found: LifeFound,
    member: &Blob,
    mut rows: Batch,
) -> Result<Plan, NoMem>
    requires found { IsSetFound found key.now }
    requires member { IsName member.now }
    ensures { IfOk result (λ plan. plan ≡ joining found.moment found.fresh key.now member.now found.old found.life rows) }
{
    let version = life_version(found.fresh, found.life);
    let raw = element_key(alloc, key, version, member.bytes())?;
    rows.put(raw, Blob::copy(alloc, &[])?)?;
    let change = LifeChange {
        rows,
        added: 1,
        removed: 0,
    };
    changing_plan(alloc, found, true, change, Reply::Int(1))
}

/// A plan that answers and writes nothing, and is right until then.
fn quiet(alloc: Global, until: Option<u64>, reply: Reply) -> Plan
    ensures { result ≡ quiet until reply }
{
    Plan {
        reply,
        batch: Batch::new(alloc),
        until,
    }
}

/// The plan, right until then.
fn looking(plan: Plan, until: Option<u64>) -> Plan
    ensures { result ≡ looking until plan }
{
    let Plan { reply, batch, .. } = plan;
    Plan {
        reply,
        batch,
        until,
    }
}

/// Are they one key?
fn is_same(key: &Key, other: &Key) -> bool
    ensures { result ≡ same key.now other.now }
{
    key.bytes().cmp(other.bytes()).is_eq()
}
