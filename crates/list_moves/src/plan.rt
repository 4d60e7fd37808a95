//! Which command moves between which ends.

ghost use Rattle.std.specs.Prelude.{IfOk, IfSome, IsTrue};
ghost use Rattle.kv_base.specs.RawKeys.{is_version};
ghost use Rattle.redis_model.specs.Limits.{IsWithin};
ghost use Rattle.lives_model.specs.Plans.{IsPlan};
ghost use Rattle.lives_model.specs.Views.{ReadsView};
ghost use Rattle.redis_model.specs.Families.{moves_items};

use crate::move_item::move_item;
use kv_base::StoreFault;
use lives_model::{Plan, RawView};
use redis_model::{Command, End};
use std::alloc::Global;

/// The plan of RPOPLPUSH or LMOVE, at a moment in milliseconds. A list that it begins has this version.
///
/// The metadata of both keys and one row are looked up, and at most four rows are written, whatever the lengths of the
/// lists.
///
/// The fault is one of the view, or want of memory. It leaves the view's rows as they are, as does an answer.
pub fn plan_move<V: RawView>(
    alloc: Global,
    view: &mut V,
    moment: u64,
    version: u64,
    command: &Command,
) -> Result<Plan, StoreFault>
    requires family { IsTrue (moves_items command.now) }
    requires within { IsWithin command.now }
    requires version { IsTrue (is_version version) }
    ensures plan { IfOk result (λ plan. IfSome (V.told view.old).rows (λ c. IsPlan c moment version command.now plan.batch plan.reply plan.until)) }
    ensures reads { ReadsView (V.told view.old) (V.told view.new) result }
{
    match command {
        Command::RPopLPush(source, target, _) => move_item(
            alloc,
            view,
            moment,
            version,
            source,
            target,
            End::Right,
            End::Left,
        ),
        Command::LMove(source, target, from, to, _) => {
            move_item(alloc, view, moment, version, source, target, *from, *to)
        }
        _ => unreachable!(),
    }
}
