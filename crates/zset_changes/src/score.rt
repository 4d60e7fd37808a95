//! The score of a member, as the rows of a life tell it.

ghost use Rattle.std.specs.Prelude.{◌≡◌, IfOk, IfSome, IsTrue};
ghost use Rattle.kv_base.specs.MetaValues.{is_score};
ghost use Rattle.kv_base.specs.RawKeys.{is_key};
ghost use Rattle.lives_model.specs.Views.{ReadsView};
ghost use Rattle.plan_base.specs.Lives.{HasVersionIn};
ghost use Rattle.redis_model.specs.Limits.{IsName, IsWholeScore};
ghost use Rattle.zset_changes.specs.SeenScores.{member_score};

use kv_base::{Key, StoreFault};
use lives_model::RawView;
use plan_base::{LifeSight, read_in_life};
use std::alloc::Global;
use subkey_codec::decode_score;

/// The greatest score, 2^53, up to which a double holds each integer exactly. The least is its opposite.
const MAX_SCORE: i64 = 1 << 53;

/// Is it a score: a whole number from -2^53 to 2^53?
pub fn is_score(score: i64) -> bool
    ensures { result ≡ is_score score }
{
    -MAX_SCORE <= score && score <= MAX_SCORE
}

/// The score of a member in the life that is found at a key; `None` exactly where it is not there. One row is looked up where
/// there is a life, whatever its size, and none where there is no key.
///
/// The fault is one of the view, or want of memory, which also stands for a score that no command can have written. It leaves
/// the view's rows as they are, as does an answer.
#[tactic(auto, using(lives_model::specs::ViewLaws::reading, plan_base::specs::KeyLimitLaws::name_is_key, crate::proofs::Values::in_range))]
pub fn score_at<V: RawView>(
    alloc: Global,
    view: &mut V,
    key: &Key,
    life: Option<LifeSight>,
    member: &[u8],
) -> Result<Option<i64>, StoreFault>
    requires version { HasVersionIn life }
    requires member { IsName member.now }
    ensures score { IfOk result (λ score. IfSome (V.told view.old).rows (λ c. score ≡ member_score c key.now life member.now)) }
    ensures whole { IfOk result (λ score. IfSome score IsWholeScore) }
    ensures reads { ReadsView (V.told view.old) (V.told view.new) result }
{
    let row = read_in_life(alloc, view, key, life, member)?;
    let Some(row) = row else {
        return Ok(None);
    };
    let Some(score) = decode_score(row.bytes()) else {
        return Ok(None);
    };
    if !is_score(score) {
        return Err(StoreFault::NoMem);
    }
    Ok(Some(score))
}
