//! What a command finds at its key before it changes the sorted set there.

ghost use Rattle.std.specs.Prelude.{◌≡◌, IfOk, IfSome, IsTrue};
ghost use Rattle.kv_base.specs.RawKeys.{is_version};
ghost use Rattle.redis_model.specs.Limits.{IsName};
ghost use Rattle.lives_model.specs.Views.{ReadsView};
ghost use Rattle.zset_changes.specs.Founds.{IsScoresFound};
ghost use Rattle.zset_cmds.specs.Planned.{FindsOr};

use kv_base::{Key, StoreFault};
use life_changes::LifeFound;
use lives_model::{Plan, RawView};
use meta_codec::Kind;
use plan_base::{MetaKey, answering, look_at_life};
use redis_model::Reply;
use std::alloc::Global;

/// What is found at a key, where a new life gets the version `fresh`; or, where the key holds another type, the plan that
/// answers the error. The metadata is read once.
///
/// The fault is one of the view, or want of memory. It leaves the view's rows as they are, as does an answer.
pub(crate) fn find_scores<V: RawView>(
    alloc: Global,
    view: &mut V,
    moment: u64,
    fresh: u64,
    key: &Key,
) -> Result<Result<LifeFound, Plan>, StoreFault>
    requires fresh { IsTrue (is_version fresh) }
    requires key { IsName key.now }
    ensures found { IfOk result (λ found. IfSome (V.told view.old).rows (λ c. FindsOr c moment key.now fresh found)) }
    ensures within { IfOk result (λ found. IfOk found (λ found. IsScoresFound found key.now)) }
    ensures reads { ReadsView (V.told view.old) (V.told view.new) result }
{
    let raw = MetaKey::new(alloc, key)?;
    let seen = look_at_life(alloc, view, moment, Kind::ZSet, &raw)?;
    let life = match seen.life {
        Ok(life) => life,
        Err(error) => {
            let plan = answering(alloc, moment, seen.deadline, Reply::Error(error));
            return Ok(Err(plan));
        }
    };
    Ok(Ok(LifeFound {
        moment,
        key: raw,
        kind: Kind::ZSet,
        old: seen.deadline,
        life,
        fresh,
    }))
}
