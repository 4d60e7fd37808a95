//! SCARD.

ghost use Rattle.std.specs.Prelude.{◌≡◌, IfOk, IfSome};
ghost use Rattle.lives_model.specs.Views.{ReadsView};
ghost use Rattle.plan_base.specs.Lives.{HasSizeIn, life_size};
ghost use Rattle.redis_model.specs.Outcome.{number};
ghost use Rattle.set_cmds.specs.Planned.{by_set, s_card_plan};

use kv_base::{Key, StoreFault};
use lives_model::{Plan, RawView};
use meta_codec::Kind;
use plan_base::{KeyLife, MetaKey, answering, life_size, look_at_life};
use redis_model::Reply;
use std::alloc::Global;

/// SCARD. The cost does not depend on the set's size.
///
/// The fault is one of the view, or want of memory. It leaves the view's rows as they are, as does an answer.
#[tactic(auto, using(lives_model::specs::ViewLaws::reading), unfolding(crate::specs::Planned::s_card_plan))]
pub(crate) fn s_card<V: RawView>(
    alloc: Global,
    view: &mut V,
    moment: u64,
    key: &Key,
) -> Result<Plan, StoreFault>
    ensures plan { IfOk result (λ plan. IfSome (V.told view.old).rows (λ c. plan ≡ s_card_plan c moment key.now)) }
    ensures reads { ReadsView (V.told view.old) (V.told view.new) result }
{
    let key = MetaKey::new(alloc, key)?;
    let found = look_at_life(alloc, view, moment, Kind::Set, &key)?;
    Ok(counting(alloc, moment, found))
}

/// The plan by what is found of the set.
fn counting(alloc: Global, moment: u64, found: KeyLife) -> Plan
    requires { IfOk found.life HasSizeIn }
    ensures { result ≡ by_set moment (λ life. number (life_size life)) found }
{
    let reply = match found.life {
        Ok(life) => Reply::Int(life_size(life) as i64),
        Err(error) => Reply::Error(error),
    };
    answering(alloc, moment, found.deadline, reply)
}
