//! The plan of a command that changes the collection at its only key.

ghost use Rattle.std.specs.Prelude.{◌≡◌, ◌<◌, ◌^◌, IfOk, IsTrue, Some};
ghost use Rattle.kv_base.specs.Map.{insert};
ghost use Rattle.kv_base.specs.RawKeys.{is_version};
ghost use Rattle.kv_base.specs.MetaValues.{is_deadline, is_meta_within, meta_text};
ghost use Rattle.kv_base.specs.RowRefs.{meta_seen};
ghost use Rattle.lives_model.specs.Rows.{meta_key};
ghost use Rattle.plan_base.specs.Lives.{HasSizeIn, HasVersionIn};
ghost use Rattle.plan_base.specs.MetaRows.{expire_number};
ghost use Rattle.life_plans.specs.ChangePlans.{changing_plan, emptied_plan, size_after};

use crate::change::LifeChange;
use crate::size::{life_version, size_after};
use batch_codec::Batch;
use kv_base::NoMem;
use lives_model::Plan;
use meta_codec::{Kind, MetaRef, encode_meta};
use plan_base::{LifeSight, MetaKey, answering, expire_number, until_of};
use redis_model::{Reply, ReplyError};
use std::alloc::Global;

/// The most elements that a collection has.
const MAX_SIZE: u64 = 4294967295;

/// What a command finds at its only key before it changes the collection there.
#[derive(Drop)]
pub struct LifeFound {
    /// The moment of the command, in milliseconds.
    pub moment: u64,
    /// The raw key of the key's metadata.
    pub key: MetaKey,
    /// The kind of collection that the command is on.
    pub kind: Kind,
    /// The deadline of the key.
    pub old: Option<u64>,
    /// The life of the collection, where there is one.
    pub life: Option<LifeSight>,
    /// The version that a new life gets.
    pub fresh: u64,
}

/// The plan of a command that changes the collection at its only key, by what it found there and what it changes. `again`
/// says that it writes its key again also where nothing changes.
///
/// Too many elements are an error, and a collection that becomes empty leaves no key.
#[tactic(auto, unfolding(life_plans::specs::ChangePlans::changing_plan))]
pub fn changing_plan(
    alloc: Global,
    found: LifeFound,
    again: bool,
    change: LifeChange,
    reply: Reply,
) -> Result<Plan, NoMem>
    requires fresh { IsTrue (is_version found.fresh) }
    requires version { HasVersionIn found.life }
    requires size { HasSizeIn found.life }
    requires deadline { IsTrue (is_deadline (expire_number found.old)) }
    requires few { change.added < 2 ^ 63 }
    ensures { IfOk result (λ plan. plan ≡ changing_plan found.moment found.key found.kind found.old found.fresh found.life again
        change.rows (size_after found.life change.added change.removed) reply) }
{
    let LifeFound {
        moment,
        key,
        kind,
        old,
        life,
        fresh,
    } = found;
    let size = size_after(life, change.added, change.removed);
    if size > MAX_SIZE {
        let too_large = Reply::Error(ReplyError::TooLarge);
        return Ok(answering(alloc, moment, old, too_large));
    }
    if size == 0 {
        return emptied(alloc, moment, key, old, life, reply);
    }
    if !again && change.rows.is_empty() {
        return Ok(answering(alloc, moment, old, reply));
    }
    let meta = MetaRef::Life {
        kind,
        expire: expire_number(old),
        version: life_version(fresh, life),
        size,
    };
    let LifeChange { rows, .. } = change;
    let batch = with_meta(alloc, rows, key, meta)?;
    Ok(Plan {
        reply,
        batch,
        until: until_of(moment, old, old),
    })
}

/// The plan of a change that leaves no elements.
fn emptied(
    alloc: Global,
    moment: u64,
    key: MetaKey,
    old: Option<u64>,
    life: Option<LifeSight>,
    reply: Reply,
) -> Result<Plan, NoMem>
    ensures { IfOk result (λ plan. plan ≡ emptied_plan moment key old life reply) }
{
    if life.is_none() {
        return Ok(answering(alloc, moment, old, reply));
    }
    let mut batch = Batch::new(alloc);
    batch.delete(key.into_blob())?;
    Ok(Plan {
        reply,
        batch,
        until: until_of(moment, old, None),
    })
}

/// Rows with the metadata of their key.
#[tactic(auto, using(crate::proofs::Values::metadata_fits))]
fn with_meta(
    alloc: Global,
    mut rows: Batch,
    key: MetaKey,
    meta: MetaRef<'_>,
) -> Result<Batch, NoMem>
    requires { IsTrue (is_meta_within (meta_seen meta)) }
    ensures { IfOk result (λ batch. batch ≡ insert rows (meta_key key) (Some (meta_text (meta_seen meta.entry)))) }
{
    let text = encode_meta(alloc, meta)?;
    rows.put(key.into_blob(), text)?;
    Ok(rows)
}
