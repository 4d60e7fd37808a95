//! SINTERSTORE, SUNIONSTORE and SDIFFSTORE.

ghost use Rattle.std.specs.Prelude.{◌≡◌, ◌<◌, All, IfOk, IfSome, IsTrue, length, option_and_then};
ghost use Rattle.kv_base.specs.RawKeys.{is_version};
ghost use Rattle.redis_model.specs.Limits.{IsName};
ghost use Rattle.lives_model.specs.Views.{ReadsView};
ghost use Rattle.set_operations.specs.Stored.{ComesToNames, emptied_batch, store_plan, result_batch, stored_reply, storing, storing_or};

use crate::combine::{Combination, combined_at};
use crate::sets::{look_at_sets, soonest};
use batch_codec::Batch;
use kv_base::{Blob, Blobs, Key, NoMem, StoreFault};
use life_changes::{LifeChange, LifeFound, changing_plan, wanted_joins};
use lives_model::{Plan, RawView};
use meta_codec::Kind;
use plan_base::{KeySight, MetaKey, look_up, sooner};
use redis_model::{Reply, ReplyError};
use std::alloc::Global;

/// The key at which members are stored.
#[derive(Drop)]
struct Target<'a> {
    /// The key.
    key: &'a Key,
    /// The raw key of its metadata.
    meta: MetaKey,
    /// Does it hold something, of whatever type?
    there: bool,
    /// The version of the life that begins there.
    version: u64,
}

/// SINTERSTORE, SUNIONSTORE and SDIFFSTORE. The members are put at the target in a new life, over whatever it held and
/// without a deadline. No members leave no key.
///
/// The metadata of the target and of each set is read once. Of the target, which may be among the sets, nothing else is read.
///
/// The fault is one of the view, or want of memory. It leaves the view's rows as they are, as does an answer.
#[tactic(auto, using(lives_model::specs::ViewLaws::reading), unfolding(crate::specs::Stored::store_plan))]
pub(crate) fn store<V: RawView>(
    alloc: Global,
    view: &mut V,
    moment: u64,
    version: u64,
    how: Combination,
    target: &Key,
    keys: &[Key],
) -> Result<Plan, StoreFault>
    requires { IsTrue (is_version version) }
    ensures plan { IfOk result (λ plan. IfSome (V.told view.old).rows (λ c. plan ≡ store_plan c moment version how target.now keys.now)) }
    ensures names { IfOk result (λ plan. IfSome (V.told view.old).rows (λ c. ComesToNames c moment how keys.now)) }
    ensures reads { ReadsView (V.told view.old) (V.told view.new) result }
{
    let meta = MetaKey::new(alloc, target)?;
    let found = look_up(alloc, view, moment, &meta)?;
    let lives = look_at_sets(alloc, view, moment, keys)?;
    let until = sooner(
        moment,
        deadline_of(found),
        soonest(moment, lives.as_slice()),
    );
    let members = combined_at(alloc, view, how, keys, lives.as_slice())?;
    let target = Target {
        key: target,
        meta,
        there: found.is_some(),
        version,
    };
    let plan = storing_or(alloc, target, until, members)?;
    Ok(plan)
}

/// The deadline of a key, where there is one.
fn deadline_of(found: Option<KeySight>) -> Option<u64>
    ensures { result ≡ option_and_then (λ sight. sight.deadline) found }
{
    let sight = found?;
    sight.deadline
}

/// The plan by the members, or by the error at a key of another type.
fn storing_or(
    alloc: Global,
    target: Target<'_>,
    until: Option<u64>,
    members: Result<Blobs, ReplyError>,
) -> Result<Plan, NoMem>
    requires meta { target.meta ≡ target.key.now }
    requires version { IsTrue (is_version target.version) }
    requires names { IfOk members (λ xs. All IsName xs) }
    ensures { IfOk result (λ plan. plan ≡ storing_or target.entry.meta target.entry.version target.entry.there until members) }
{
    match members {
        Ok(members) => storing(alloc, target, until, members.as_slice()),
        Err(error) => Ok(Plan {
            reply: Reply::Error(error),
            batch: Batch::new(alloc),
            until,
        }),
    }
}

/// The plan by the members.
fn storing(
    alloc: Global,
    target: Target<'_>,
    until: Option<u64>,
    members: &[Blob],
) -> Result<Plan, NoMem>
    requires meta { target.meta ≡ target.key.now }
    requires version { IsTrue (is_version target.version) }
    requires names { All IsName members.now }
    ensures { IfOk result (λ plan. plan ≡ storing target.entry.meta target.entry.version target.entry.there until members.now) }
{
    if members.is_empty() {
        let batch = emptied(alloc, target)?;
        return Ok(Plan {
            reply: Reply::Int(0),
            batch,
            until,
        });
    }
    let Plan { reply, batch, .. } = filled(alloc, target, members)?;
    Ok(Plan {
        reply,
        batch,
        until,
    })
}

/// The delete of the target's metadata, where there is a key.
fn emptied(alloc: Global, target: Target<'_>) -> Result<Batch, NoMem>
    ensures { IfOk result (λ batch. batch ≡ emptied_batch target.entry.meta target.entry.there) }
{
    let Target { meta, there, .. } = target;
    let mut batch = Batch::new(alloc);
    if there {
        batch.delete(meta.into_blob())?;
    }
    Ok(batch)
}

/// The plan that puts the members in a new life without a deadline, as of a key that holds nothing. Too many are an error.
#[tactic(auto, unfolding(life_plans::specs::ChangePlans::changing_plan))]
fn filled(alloc: Global, target: Target<'_>, members: &[Blob]) -> Result<Plan, NoMem>
    requires meta { target.meta ≡ target.key.now }
    requires version { IsTrue (is_version target.version) }
    requires names { All IsName members.now }
    requires some { 0 < length members.now }
    ensures reply { IfOk result (λ plan. plan.reply ≡ stored_reply members.now) }
    ensures batch { IfOk result (λ plan. plan.batch ≡ result_batch target.entry.meta target.entry.version members.now) }
{
    let Target {
        key,
        meta,
        version,
        ..
    } = target;
    let rows = wanted_joins(alloc, key, version, members)?;
    let added = members.len() as u64;
    let found = LifeFound {
        moment: 0,
        key: meta,
        kind: Kind::Set,
        old: None,
        life: None,
        fresh: version,
    };
    let change = LifeChange {
        rows,
        added,
        removed: 0,
    };
    changing_plan(alloc, found, true, change, Reply::Int(added as i64))
}
