//! HLEN and HMGET.

ghost use Rattle.std.specs.Prelude.{◌≡◌, All, IfOk, IfSome, map};
ghost use Rattle.redis_model.specs.Limits.{IsName};
ghost use Rattle.lives_model.specs.Views.{ReadsView};
ghost use Rattle.plan_base.specs.Lives.{HasVersionIn};
ghost use Rattle.hash_cmds.specs.Planned.{h_len_plan, h_m_get_plan, value_of_field};

use kv_base::{Blob, Key, StoreFault};
use lives_model::{Plan, RawView};
use meta_codec::Kind;
use plan_base::{
    LifeSight, MetaKey, answering, bulk_or_null, life_size, look_at_life, read_in_life,
};
use redis_model::{Replies, Reply};
use std::alloc::Global;

/// HLEN. The metadata alone is read.
///
/// The fault is one of the view, or want of memory. It leaves the view's rows as they are, as does an answer.
#[tactic(auto, using(lives_model::specs::ViewLaws::reading), unfolding(crate::specs::Planned::h_len_plan))]
pub(crate) fn h_len<V: RawView>(
    alloc: Global,
    view: &mut V,
    moment: u64,
    key: &Key,
) -> Result<Plan, StoreFault>
    ensures plan { IfOk result (λ plan. IfSome (V.told view.old).rows (λ c. plan ≡ h_len_plan c moment key.now)) }
    ensures reads { ReadsView (V.told view.old) (V.told view.new) result }
{
    let raw = MetaKey::new(alloc, key)?;
    let found = look_at_life(alloc, view, moment, Kind::Hash, &raw)?;
    let reply = match found.life {
        Ok(life) => Reply::Int(life_size(life) as i64),
        Err(error) => Reply::Error(error),
    };
    Ok(answering(alloc, moment, found.deadline, reply))
}

/// HMGET. One row is looked up for each field, whatever the hash's size, and none where there is no key.
///
/// The fault is one of the view, or want of memory. It leaves the view's rows as they are, as does an answer.
#[tactic(auto, using(lives_model::specs::ViewLaws::reading), unfolding(crate::specs::Planned::h_m_get_plan))]
pub(crate) fn h_m_get<V: RawView>(
    alloc: Global,
    view: &mut V,
    moment: u64,
    key: &Key,
    fields: &[Blob],
) -> Result<Plan, StoreFault>
    requires fields { All IsName fields.now }
    ensures plan { IfOk result (λ plan. IfSome (V.told view.old).rows (λ c. plan ≡ h_m_get_plan c moment key.now fields.now)) }
    ensures reads { ReadsView (V.told view.old) (V.told view.new) result }
{
    let raw = MetaKey::new(alloc, key)?;
    let found = look_at_life(alloc, view, moment, Kind::Hash, &raw)?;
    let reply = match found.life {
        Ok(life) => Reply::Array(each_value(alloc, view, key, life, fields)?),
        Err(error) => Reply::Error(error),
    };
    Ok(answering(alloc, moment, found.deadline, reply))
}

/// For each field its value in a life, or null.
///
/// The fault is one of the view, or want of memory. It leaves the view's rows as they are, as does an answer.
fn each_value<V: RawView>(
    alloc: Global,
    view: &mut V,
    key: &Key,
    life: Option<LifeSight>,
    fields: &[Blob],
) -> Result<Replies, StoreFault>
    requires version { HasVersionIn life }
    requires fields { All IsName fields.now }
    ensures values { IfOk result (λ values. IfSome (V.told view.old).rows (λ c. values ≡ map (value_of_field c key.now life) fields.now)) }
    ensures reads { ReadsView (V.told view.old) (V.told view.new) result }
{
    let mut values = Replies::new(alloc);
    for field in fields {
        let value = read_in_life(alloc, view, key, life, field.bytes())?;
        values.push(bulk_or_null(value))?;
    }
    Ok(values)
}
