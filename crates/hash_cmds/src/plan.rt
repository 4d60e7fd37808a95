//! Which function plans which command.

ghost use Rattle.std.specs.Prelude.{IfOk, IfSome, IsTrue};
ghost use Rattle.kv_base.specs.RawKeys.{is_version};
ghost use Rattle.redis_model.specs.Limits.{IsWithin};
ghost use Rattle.lives_model.specs.Plans.{IsPlan};
ghost use Rattle.lives_model.specs.Views.{ReadsView};
ghost use Rattle.redis_model.specs.Families.{changes_hashes, is_hash_command};

use crate::change_field::{h_incr_by, h_set_nx};
use crate::change_fields::{h_del, h_set};
use crate::field::{h_exists, h_get, h_str_len};
use crate::fields::{h_len, h_m_get};
use kv_base::StoreFault;
use life_pages::{Whole, whole_plan};
use lives_model::{Plan, RawView};
use meta_codec::Kind;
use redis_model::Command;
use std::alloc::Global;

/// The plan of a command on hashes, at a moment in milliseconds. A life that it starts has this version.
///
/// The metadata of the key is read once, and one row is looked up for each field that the command names, whatever the
/// hash's size.
///
/// The fault is one of the view, or want of memory. It leaves the view's rows as they are, as does an answer.
pub fn plan_hash<V: RawView>(
    alloc: Global,
    view: &mut V,
    moment: u64,
    version: u64,
    command: &Command,
) -> Result<Plan, StoreFault>
    requires family { IsTrue (is_hash_command command.now) }
    requires within { IsWithin command.now }
    requires version { IsTrue (is_version version) }
    ensures plan { IfOk result (λ plan. IfSome (V.told view.old).rows (λ c. IsPlan c moment version command.now plan.batch plan.reply plan.until)) }
    ensures reads { ReadsView (V.told view.old) (V.told view.new) result }
{
    match command {
        Command::HGet(key, field, _) => h_get(alloc, view, moment, key, field),
        Command::HMGet(key, fields, _) => h_m_get(alloc, view, moment, key, fields.as_slice()),
        Command::HLen(key, _) => h_len(alloc, view, moment, key),
        Command::HExists(key, field, _) => h_exists(alloc, view, moment, key, field),
        Command::HStrLen(key, field, _) => h_str_len(alloc, view, moment, key, field),
        Command::HGetAll(key, _) => {
            whole_plan(alloc, view, moment, key, Kind::Hash, Whole::Both)
        }
        Command::HKeys(key, _) => {
            whole_plan(alloc, view, moment, key, Kind::Hash, Whole::Subkeys)
        }
        Command::HVals(key, _) => whole_plan(alloc, view, moment, key, Kind::Hash, Whole::Values),
        _ => plan_changes(alloc, view, moment, version, command),
    }
}

/// The plan of a command that changes a hash.
fn plan_changes<V: RawView>(
    alloc: Global,
    view: &mut V,
    moment: u64,
    version: u64,
    command: &Command,
) -> Result<Plan, StoreFault>
    requires family { IsTrue (changes_hashes command.now) }
    requires within { IsWithin command.now }
    requires version { IsTrue (is_version version) }
    ensures plan { IfOk result (λ plan. IfSome (V.told view.old).rows (λ c. IsPlan c moment version command.now plan.batch plan.reply plan.until)) }
    ensures reads { ReadsView (V.told view.old) (V.told view.new) result }
{
    match command {
        Command::HSet(key, fields, values, _) => h_set(
            alloc,
            view,
            moment,
            version,
            key,
            fields.as_slice(),
            values.as_slice(),
        ),
        Command::HSetNx(key, field, value, _) => {
            h_set_nx(alloc, view, moment, version, key, field, value)
        }
        Command::HDel(key, fields, _) => {
            h_del(alloc, view, moment, version, key, fields.as_slice())
        }
        Command::HIncrBy(key, field, amount, _) => {
            h_incr_by(alloc, view, moment, version, key, field, *amount)
        }
        _ => unreachable!(),
    }
}
