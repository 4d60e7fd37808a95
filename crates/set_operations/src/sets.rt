//! What is found at the keys of several sets, and their members.

ghost use Rattle.std.specs.Prelude.{◌≡◌, All, IfOk, IfSome, length};
ghost use Rattle.redis_model.specs.Limits.{IsName};
ghost use Rattle.lives_model.specs.Views.{ReadsView};
ghost use Rattle.life_pages.specs.LifeElements.{subkey_in};
ghost use Rattle.plan_base.specs.Lives.{HasVersionIn};
ghost use Rattle.set_operations.specs.Combined.{HasFoundVersion, first_error, life_or_none, members_in, members_of, set_lives, soonest};

use kv_base::{Blob, Items, Key, NoMem, StoreFault};
use life_pages::{read_life, subkey_of};
use lives_model::{LiveRow, LiveRows, RawView};
use meta_codec::Kind;
use plan_base::{KeyLife, LifeSight, MetaKey, look_at_life, sooner};
use redis_model::ReplyError;
use std::alloc::Global;

/// What is found at keys of sets, in their order. The metadata of each is read once.
///
/// The fault is one of the view, or want of memory. It leaves the view's rows as they are, as does an answer.
#[tactic(auto, using(lives_model::specs::ViewLaws::reading), unfolding(crate::specs::Combined::set_lives))]
pub(crate) fn look_at_sets<V: RawView>(
    alloc: Global,
    view: &mut V,
    moment: u64,
    keys: &[Key],
) -> Result<Items<KeyLife>, StoreFault>
    ensures lives { IfOk result (λ lives. IfSome (V.told view.old).rows (λ c. lives ≡ set_lives c moment keys.now)) }
    ensures count { IfOk result (λ lives. length lives ≡ length keys.now) }
    ensures versions { IfOk result (λ lives. All HasFoundVersion lives) }
    ensures reads { ReadsView (V.told view.old) (V.told view.new) result }
{
    let mut lives = Items::new(alloc);
    for key in keys {
        let key = MetaKey::new(alloc, key)?;
        let found = look_at_life(alloc, view, moment, Kind::Set, &key)?;
        lives.push(found)?;
    }
    Ok(lives)
}

/// The soonest deadline of the keys that lies ahead.
pub(crate) fn soonest(moment: u64, lives: &[KeyLife]) -> Option<u64>
    ensures { result ≡ soonest moment lives.now }
{
    let mut soonest = None;
    for found in lives {
        soonest = sooner(moment, found.deadline, soonest);
    }
    soonest
}

/// The error at the first key that holds another type.
pub(crate) fn first_error(lives: &[KeyLife]) -> Option<ReplyError>
    ensures { result ≡ first_error lives.now }
{
    for found in lives {
        if let Err(error) = found.life {
            return Some(error);
        }
    }
    None
}

/// The life of a set, none where its key holds another type.
pub(crate) fn life_or_none(found: KeyLife) -> Option<LifeSight>
    ensures life { result ≡ life_or_none found.life }
    ensures version { HasFoundVersion found → HasVersionIn result }
{
    match found.life {
        Ok(life) => life,
        Err(_) => None,
    }
}

/// The rows of the members of a set, in order; none where there is no key. They are asked for in pages.
///
/// The fault is one of the view, or want of memory. It leaves the view's rows as they are, as does an answer.
pub(crate) fn member_rows<V: RawView>(
    alloc: Global,
    view: &mut V,
    key: &Key,
    life: Option<LifeSight>,
) -> Result<LiveRows, StoreFault>
    requires { HasVersionIn life }
    ensures rows { IfOk result (λ rows. IfSome (V.told view.old).rows (λ c. members_of key.now rows ≡ members_in c key.now life)) }
    ensures reads { ReadsView (V.told view.old) (V.told view.new) result }
{
    let Some(life) = life else {
        return Ok(LiveRows::new(alloc));
    };
    let rows = read_life(alloc, view, key, life.version)?;
    Ok(rows)
}

/// The member whose row this is, a copy.
///
/// No row was written whose member is longer than a key can be. One that is there all the same is answered as want of memory.
pub(crate) fn member_of(alloc: Global, row: &LiveRow, key: &Key) -> Result<Key, NoMem>
    ensures member { IfOk result (λ member. member ≡ subkey_in key.now row.now.raw) }
    ensures name { IfOk result (λ member. IsName member) }
{
    let bytes = Blob::copy(alloc, subkey_of(row.raw.bytes(), key))?;
    match Key::new(bytes) {
        Ok(member) => Ok(member),
        Err(_) => Err(NoMem),
    }
}
