//! HGET, HEXISTS and HSTRLEN.

ghost use Rattle.std.specs.Prelude.{◌≡◌, [], IfOk, IfSome, length, unwrap_or};
ghost use Rattle.redis_model.specs.Limits.{IsName};
ghost use Rattle.redis_model.specs.Outcome.{number};
ghost use Rattle.lives_model.specs.Views.{ReadsView};
ghost use Rattle.hash_cmds.specs.Planned.{h_get_plan, h_exists_plan, h_str_len_plan};

use kv_base::{Blob, Key, StoreFault};
use lives_model::{Plan, RawView};
use meta_codec::Kind;
use plan_base::{
    MetaKey, answering, bulk_or_null, has_in_life, look_at_life, read_in_life, yes_no,
};
use redis_model::Reply;
use std::alloc::Global;

/// HGET. One row is looked up, whatever the hash's size, and its value is moved into the answer.
///
/// The fault is one of the view, or want of memory. It leaves the view's rows as they are, as does an answer.
#[tactic(auto, using(lives_model::specs::ViewLaws::reading, plan_base::specs::KeyLimitLaws::name_is_key), unfolding(crate::specs::Planned::h_get_plan))]
pub(crate) fn h_get<V: RawView>(
    alloc: Global,
    view: &mut V,
    moment: u64,
    key: &Key,
    field: &Blob,
) -> Result<Plan, StoreFault>
    requires field { IsName field.now }
    ensures plan { IfOk result (λ plan. IfSome (V.told view.old).rows (λ c. plan ≡ h_get_plan c moment key.now field.now)) }
    ensures reads { ReadsView (V.told view.old) (V.told view.new) result }
{
    let raw = MetaKey::new(alloc, key)?;
    let found = look_at_life(alloc, view, moment, Kind::Hash, &raw)?;
    let reply = match found.life {
        Ok(life) => bulk_or_null(read_in_life(alloc, view, key, life, field.bytes())?),
        Err(error) => Reply::Error(error),
    };
    Ok(answering(alloc, moment, found.deadline, reply))
}

/// HEXISTS. One row is looked up, whatever the hash's size.
///
/// The fault is one of the view, or want of memory. It leaves the view's rows as they are, as does an answer.
#[tactic(auto, using(lives_model::specs::ViewLaws::reading, plan_base::specs::KeyLimitLaws::name_is_key), unfolding(crate::specs::Planned::h_exists_plan))]
pub(crate) fn h_exists<V: RawView>(
    alloc: Global,
    view: &mut V,
    moment: u64,
    key: &Key,
    field: &Blob,
) -> Result<Plan, StoreFault>
    requires field { IsName field.now }
    ensures plan { IfOk result (λ plan. IfSome (V.told view.old).rows (λ c. plan ≡ h_exists_plan c moment key.now field.now)) }
    ensures reads { ReadsView (V.told view.old) (V.told view.new) result }
{
    let raw = MetaKey::new(alloc, key)?;
    let found = look_at_life(alloc, view, moment, Kind::Hash, &raw)?;
    let reply = match found.life {
        Ok(life) => {
            let there = has_in_life(alloc, view, key, life, field.bytes())?;
            yes_no(there)
        }
        Err(error) => Reply::Error(error),
    };
    Ok(answering(alloc, moment, found.deadline, reply))
}

/// HSTRLEN. One row is looked up, whatever the hash's size.
///
/// The fault is one of the view, or want of memory. It leaves the view's rows as they are, as does an answer.
#[tactic(auto, using(lives_model::specs::ViewLaws::reading, plan_base::specs::KeyLimitLaws::name_is_key), unfolding(crate::specs::Planned::h_str_len_plan))]
pub(crate) fn h_str_len<V: RawView>(
    alloc: Global,
    view: &mut V,
    moment: u64,
    key: &Key,
    field: &Blob,
) -> Result<Plan, StoreFault>
    requires field { IsName field.now }
    ensures plan { IfOk result (λ plan. IfSome (V.told view.old).rows (λ c. plan ≡ h_str_len_plan c moment key.now field.now)) }
    ensures reads { ReadsView (V.told view.old) (V.told view.new) result }
{
    let raw = MetaKey::new(alloc, key)?;
    let found = look_at_life(alloc, view, moment, Kind::Hash, &raw)?;
    let reply = match found.life {
        Ok(life) => {
            let value = read_in_life(alloc, view, key, life, field.bytes())?;
            length_of(&value)
        }
        Err(error) => Reply::Error(error),
    };
    Ok(answering(alloc, moment, found.deadline, reply))
}

/// The length of a value, 0 where there is none.
fn length_of(value: &Option<Blob>) -> Reply
    ensures { result ≡ number (length (unwrap_or value.now [])) }
{
    match value {
        None => Reply::Int(0),
        Some(bytes) => Reply::Int(bytes.bytes().len() as i64),
    }
}
