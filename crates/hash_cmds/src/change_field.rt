//! HSETNX and HINCRBY.

ghost use Rattle.std.specs.Prelude.{◌≡◌, IfOk, IfSome, IsTrue, option_map};
ghost use Rattle.kv_base.specs.RawKeys.{is_version};
ghost use Rattle.lives_model.specs.Plans.{same_row};
ghost use Rattle.lives_model.specs.Views.{ReadsView};
ghost use Rattle.redis_model.specs.Limits.{IsName, IsShort};
ghost use Rattle.redis_model.specs.Strings.{added, counter};
ghost use Rattle.redis_model.specs.declared.reply.ReplyError.TheVariants.{HashNotInt};
ghost use Rattle.hash_cmds.specs.Found.{IsHashFound};
ghost use Rattle.hash_cmds.specs.Planned.{h_set_nx_plan, h_incr_by_plan, adding_field, field_rows, more_fields, putting_field, raising, raising_by};

use crate::found::hash_found;
use batch_codec::Batch;
use itoa::Buffer;
use kv_base::{Blob, Key, NoMem, StoreFault, read_int};
use life_changes::{LifeChange, LifeFound, changing_plan, life_version, wanted_one};
use lives_model::{Plan, RawView};
use meta_codec::Kind;
use plan_base::{MetaKey, answering, look_at_life, read_in_life};
use redis_model::{Reply, ReplyError};
use std::alloc::Global;

/// HSETNX. One row is looked up, whatever the hash's size.
///
/// The fault is one of the view, or want of memory. It leaves the view's rows as they are, as does an answer.
#[tactic(auto, using(lives_model::specs::ViewLaws::reading, plan_base::specs::KeyLimitLaws::name_is_key), unfolding(crate::specs::Planned::h_set_nx_plan))]
pub(crate) fn h_set_nx<V: RawView>(
    alloc: Global,
    view: &mut V,
    moment: u64,
    fresh: u64,
    key: &Key,
    field: &Blob,
    value: &Blob,
) -> Result<Plan, StoreFault>
    requires fresh { IsTrue (is_version fresh) }
    requires field { IsName field.now }
    requires value { IsShort value.now }
    ensures plan { IfOk result (λ plan. IfSome (V.told view.old).rows (λ c. plan ≡ h_set_nx_plan c moment fresh key.now field.now value.now)) }
    ensures reads { ReadsView (V.told view.old) (V.told view.new) result }
{
    let raw = MetaKey::new(alloc, key)?;
    let found = look_at_life(alloc, view, moment, Kind::Hash, &raw)?;
    let life = match found.life {
        Ok(life) => life,
        Err(error) => {
            return Ok(answering(alloc, moment, found.deadline, Reply::Error(error)));
        }
    };
    let there = read_in_life(alloc, view, key, life, field.bytes())?;
    let found = hash_found(moment, raw, found.deadline, life, fresh);
    let plan = adding_field(alloc, key, found, field, &there, value)?;
    Ok(plan)
}

/// The plan that sets a field only where it is not there.
fn adding_field(
    alloc: Global,
    key: &Key,
    found: LifeFound,
    field: &Blob,
    there: &Option<Blob>,
    value: &Blob,
) -> Result<Plan, NoMem>
    requires found { IsHashFound found key.now }
    requires field { IsName field.now }
    requires value { IsShort value.now }
    ensures { IfOk result (λ plan. plan ≡ adding_field found.moment found.fresh key.now field.now value.now found.old found.life there.now) }
{
    if there.is_some() {
        Ok(answering(alloc, found.moment, found.old, Reply::Int(0)))
    } else {
        putting_field(
            alloc,
            key,
            found,
            false,
            field,
            there,
            value.bytes(),
            Reply::Int(1),
        )
    }
}

/// HINCRBY. One row is looked up, whatever the hash's size.
///
/// The fault is one of the view, or want of memory. It leaves the view's rows as they are, as does an answer.
#[tactic(auto, using(lives_model::specs::ViewLaws::reading, plan_base::specs::KeyLimitLaws::name_is_key), unfolding(crate::specs::Planned::h_incr_by_plan))]
pub(crate) fn h_incr_by<V: RawView>(
    alloc: Global,
    view: &mut V,
    moment: u64,
    fresh: u64,
    key: &Key,
    field: &Blob,
    amount: i64,
) -> Result<Plan, StoreFault>
    requires fresh { IsTrue (is_version fresh) }
    requires field { IsName field.now }
    ensures plan { IfOk result (λ plan. IfSome (V.told view.old).rows (λ c. plan ≡ h_incr_by_plan c moment fresh key.now field.now amount)) }
    ensures reads { ReadsView (V.told view.old) (V.told view.new) result }
{
    let raw = MetaKey::new(alloc, key)?;
    let found = look_at_life(alloc, view, moment, Kind::Hash, &raw)?;
    let life = match found.life {
        Ok(life) => life,
        Err(error) => {
            return Ok(answering(alloc, moment, found.deadline, Reply::Error(error)));
        }
    };
    let there = read_in_life(alloc, view, key, life, field.bytes())?;
    let found = hash_found(moment, raw, found.deadline, life, fresh);
    let plan = raising_by(alloc, key, found, field, &there, amount)?;
    Ok(plan)
}

/// The plan that raises the number in a field.
fn raising_by(
    alloc: Global,
    key: &Key,
    found: LifeFound,
    field: &Blob,
    there: &Option<Blob>,
    amount: i64,
) -> Result<Plan, NoMem>
    requires found { IsHashFound found key.now }
    requires field { IsName field.now }
    ensures { IfOk result (λ plan. plan ≡ raising_by found.moment found.fresh key.now field.now amount found.old found.life there.now) }
{
    match added(there, amount) {
        Ok(sum) => raised(alloc, key, found, field, there, sum),
        Err(error) => Ok(answering(alloc, found.moment, found.old, Reply::Error(error))),
    }
}

/// The plan that puts and answers a sum.
#[tactic(auto, using(crate::proofs::Values::short_value))]
fn raised(
    alloc: Global,
    key: &Key,
    found: LifeFound,
    field: &Blob,
    there: &Option<Blob>,
    sum: i64,
) -> Result<Plan, NoMem>
    requires found { IsHashFound found key.now }
    requires field { IsName field.now }
    ensures { IfOk result (λ plan. plan ≡ raising found.moment found.fresh key.now field.now found.old found.life there.now (Ok sum)) }
{
    let mut buffer = Buffer::new();
    let digits = buffer.format(sum).as_bytes();
    putting_field(
        alloc,
        key,
        found,
        true,
        field,
        there,
        digits,
        Reply::Int(sum),
    )
}

/// The number in a field and the amount together, which have to fit 64 bits.
fn added(there: &Option<Blob>, amount: i64) -> Result<i64, ReplyError>
    ensures { result ≡ added HashNotInt there.now amount }
{
    let count = counter(there)?;
    match count.checked_add(amount) {
        Some(sum) => Ok(sum),
        None => Err(ReplyError::Overflow),
    }
}

/// The number in a field, 0 where there is none.
fn counter(there: &Option<Blob>) -> Result<i64, ReplyError>
    ensures { result ≡ counter HashNotInt there.now }
{
    let Some(text) = there else {
        return Ok(0);
    };
    match read_int(text.bytes()) {
        Some(count) => Ok(count),
        None => Err(ReplyError::HashNotInt),
    }
}

/// The plan that puts a value into a field, at which this one was found. `again` says that it writes its key again also where
/// nothing changes.
fn putting_field(
    alloc: Global,
    key: &Key,
    found: LifeFound,
    again: bool,
    field: &Blob,
    there: &Option<Blob>,
    value: &[u8],
    reply: Reply,
) -> Result<Plan, NoMem>
    requires found { IsHashFound found key.now }
    requires field { IsName field.now }
    requires value { IsShort value.now }
    ensures { IfOk result (λ plan. plan ≡ putting_field found.moment found.fresh key.now found.old again found.life field.now there.now value.now reply) }
{
    let version = life_version(found.fresh, found.life);
    let rows = field_rows(alloc, key, version, field, there, value)?;
    let change = LifeChange {
        rows,
        added: more_fields(there),
        removed: 0,
    };
    changing_plan(alloc, found, again, change, reply)
}

/// The row of a value that differs from the one that is there.
fn field_rows(
    alloc: Global,
    key: &Key,
    version: u64,
    field: &Blob,
    there: &Option<Blob>,
    value: &[u8],
) -> Result<Batch, NoMem>
    requires version { IsTrue (is_version version) }
    requires field { IsName field.now }
    requires value { IsShort value.now }
    ensures { IfOk result (λ rows. rows ≡ field_rows key.now version field.now there.now value.now) }
{
    if is_same(there, value) {
        return Ok(Batch::new(alloc));
    }
    wanted_one(alloc, key, version, field.bytes(), Some(value))
}

/// Is this the value that is there?
fn is_same(there: &Option<Blob>, value: &[u8]) -> bool
    ensures { result ≡ same_row there.now (Some value.now) }
{
    match there {
        None => false,
        Some(there) => there.bytes().cmp(value).is_eq(),
    }
}

/// How many fields more there are with one, at which this was found.
fn more_fields(there: &Option<Blob>) -> u64
    ensures { result ≡ more_fields there.now }
{
    if there.is_some() { 0 } else { 1 }
}
