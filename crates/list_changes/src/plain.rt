//! Plans that leave a list at a key, or take it away.

ghost use Rattle.std.specs.Prelude.{◌≡◌, IfOk, IsTrue};
ghost use Rattle.kv_base.specs.MetaValues.{is_deadline};
ghost use Rattle.list_plans.specs.ListLives.{IsSightWithin};
ghost use Rattle.list_plans.specs.ListPlans.{gone_plan, list_plan};
ghost use Rattle.plan_base.specs.MetaRows.{expire_number};
ghost use Rattle.redis_model.specs.Value.{lives};

use batch_codec::BatchBuilder;
use kv_base::NoMem;
use list_plans::ListSight;
use lives_model::Plan;
use meta_codec::MetaRef;
use plan_base::{MetaKey, delete_key, expire_number, put_meta, until_of};
use redis_model::Reply;
use std::alloc::Global;

/// The plan that leaves this list at a key, whose rows are in the batch. The key's deadline stays.
#[tactic(auto, using(crate::specs::ItemLaws::sight_fits))]
pub fn list_plan(
    alloc: Global,
    moment: u64,
    key: MetaKey,
    deadline: Option<u64>,
    list: ListSight,
    rows: BatchBuilder,
    reply: Reply,
) -> Result<Plan, NoMem>
    requires lives { IsTrue (lives moment deadline) }
    requires deadline { IsTrue (is_deadline (expire_number deadline)) }
    requires list { IsSightWithin list }
    ensures { IfOk result (λ plan. plan ≡ list_plan moment key deadline list rows reply) }
{
    let mut batch = rows;
    let meta = MetaRef::List {
        expire: expire_number(deadline),
        version: list.version,
        head: list.head,
        tail: list.tail,
    };
    put_meta(alloc, &mut batch, key, moment, deadline, meta)?;
    let batch = batch.build()?;
    let until = until_of(moment, deadline, deadline);
    Ok(Plan {
        reply,
        batch,
        until,
    })
}

/// The plan that takes the last items of a list away, and the key with them.
pub fn gone_plan(
    alloc: Global,
    moment: u64,
    key: MetaKey,
    deadline: Option<u64>,
    reply: Reply,
) -> Result<Plan, NoMem>
    ensures { IfOk result (λ plan. plan ≡ gone_plan moment key deadline reply) }
{
    let mut batch = BatchBuilder::new(alloc);
    delete_key(&mut batch, key)?;
    let batch = batch.build()?;
    let until = until_of(moment, deadline, None);
    Ok(Plan {
        reply,
        batch,
        until,
    })
}
