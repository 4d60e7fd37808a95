//! Which function plans which command.

ghost use Rattle.std.specs.Prelude.{IfOk, IfSome, IsTrue, ℕ};
ghost use Rattle.redis_model.specs.Families.{reads_sorted_sets};
ghost use Rattle.redis_model.specs.Limits.{IsWithin};
ghost use Rattle.lives_model.specs.Plans.{IsPlan};
ghost use Rattle.lives_model.specs.Views.{ReadsView};

use crate::count::{z_count, z_rank};
use crate::range::{z_range, z_range_by_score, z_rev_range};
use crate::score::{z_card, z_score};
use kv_base::StoreFault;
use lives_model::{Plan, RawView};
use redis_model::Command;
use std::alloc::Global;

/// The plan of a command that reads a sorted set, at a moment in milliseconds. It writes nothing, and is right whatever version
/// a new life would get.
///
/// The metadata of the key is read once. ZSCORE looks up one row, and ZCARD none. The others ask for rows in pages: ZCOUNT and
/// ZRANGEBYSCORE from the lower bound on to the upper one or the limit, ZRANK up to the member's row and ZREVRANK from it on,
/// ZRANGE and ZREVRANGE from the lowest member on to the last one that is answered.
///
/// The fault is one of the view, or want of memory. It leaves the view's rows as they are, as does an answer.
pub fn plan_sorted_set_read<V: RawView>(
    alloc: Global,
    view: &mut V,
    moment: u64,
    command: &Command,
) -> Result<Plan, StoreFault>
    requires family { IsTrue (reads_sorted_sets command.now) }
    requires within { IsWithin command.now }
    ensures plan { IfOk result (λ plan. IfSome (V.told view.old).rows
        (λ c. (fresh : ℕ) → IsPlan c moment fresh command.now plan.batch plan.reply plan.until)) }
    ensures reads { ReadsView (V.told view.old) (V.told view.new) result }
{
    match command {
        Command::ZScore(key, member, _) => z_score(alloc, view, moment, key, member),
        Command::ZCard(key, _) => z_card(alloc, view, moment, key),
        Command::ZCount(key, low, high, _) => z_count(alloc, view, moment, key, *low, *high),
        Command::ZRank(key, member, _) => z_rank(alloc, view, moment, key, member, false),
        Command::ZRevRank(key, member, _) => z_rank(alloc, view, moment, key, member, true),
        Command::ZRange(key, first, last, scores, _) => {
            z_range(alloc, view, moment, key, *first, *last, *scores)
        }
        Command::ZRevRange(key, first, last, scores, _) => {
            z_rev_range(alloc, view, moment, key, *first, *last, *scores)
        }
        Command::ZRangeByScore(key, low, high, scores, limit, _) => {
            z_range_by_score(alloc, view, moment, key, *low, *high, *scores, *limit)
        }
        _ => unreachable!(),
    }
}
