//! What is found at a key of a collection of a kind, and one row of it.

ghost use Rattle.std.specs.Prelude.{◌≡◌, IfOk, IfSome, IsTrue, is_some, option_map};
ghost use Rattle.kv_base.specs.MetaValues.{is_deadline};
ghost use Rattle.kv_base.specs.RawKeys.{is_key};
ghost use Rattle.kv_base.specs.RowRefs.{meta_seen};
ghost use Rattle.lives_model.specs.Clean.{live_at};
ghost use Rattle.lives_model.specs.Views.{ReadsView};
ghost use Rattle.plan_base.specs.KeyLives.{key_life};
ghost use Rattle.plan_base.specs.Lives.{HasSizeIn, HasVersionIn, life_size, row_in_life};
ghost use Rattle.plan_base.specs.MetaRows.{expire_number};
ghost use Rattle.plan_base.specs.Seen.{IsFoundMeta};

use crate::life::{LifeSight, life_found, read_element};
use crate::meta_key::MetaKey;
use crate::read::{deadline_found, live_meta, read_text};
use kv_base::{Blob, Key, StoreFault};
use lives_model::RawView;
use meta_codec::{Kind, MetaRef};
use redis_model::ReplyError;
use std::alloc::Global;

/// What the metadata of a key tells of a collection of a kind.
#[derive(Clone, Copy, Debug)]
pub struct KeyLife {
    /// The deadline of the key, which may hold another type.
    pub deadline: Option<u64>,
    /// The life of the collection, nothing where there is no key; an error where the key holds another type.
    pub life: Result<Option<LifeSight>, ReplyError>,
}

/// What is found at a key of a collection of a kind. Its metadata is read once, and decoded once.
///
/// The fault is one of the view, or want of memory. It leaves the view's rows as they are, as does an answer.
#[tactic(auto, using(lives_model::specs::ViewLaws::reading), unfolding(lives_model::specs::Clean::live_at))]
pub fn look_at_life<V: RawView>(
    alloc: Global,
    view: &mut V,
    moment: u64,
    kind: Kind,
    key: &MetaKey,
) -> Result<KeyLife, StoreFault>
    ensures found { IfOk result (λ found. IfSome (V.told view.old).rows (λ c. found ≡ key_life kind (live_at c moment key.now))) }
    ensures deadline { IfOk result (λ found. IsTrue (is_deadline (expire_number found.deadline))) }
    ensures version { IfOk result (λ found. IfOk found.life HasVersionIn) }
    ensures size { IfOk result (λ found. IfOk found.life HasSizeIn) }
    ensures reads { ReadsView (V.told view.old) (V.told view.new) result }
{
    let text = read_text(alloc, view, key)?;
    Ok(life_in(kind, live_meta(&text, moment)))
}

fn life_in(kind: Kind, found: Option<MetaRef<'_>>) -> KeyLife
    requires { IsFoundMeta (option_map meta_seen found) }
    ensures found { result ≡ key_life kind (option_map meta_seen found.entry) }
    ensures deadline { IsTrue (is_deadline (expire_number result.deadline)) }
    ensures version { IfOk result.life HasVersionIn }
    ensures size { IfOk result.life HasSizeIn }
{
    KeyLife {
        deadline: deadline_found(found),
        life: life_found(kind, found),
    }
}

/// What stands under a subkey in the life that is found at a key; `None` exactly where there is no such element. One row is
/// looked up where there is a life, whatever its size, and none where there is no key.
///
/// The fault is one of the view, or want of memory. It leaves the view's rows as they are, as does an answer.
pub fn read_in_life<V: RawView>(
    alloc: Global,
    view: &mut V,
    key: &Key,
    life: Option<LifeSight>,
    subkey: &[u8],
) -> Result<Option<Blob>, StoreFault>
    requires version { HasVersionIn life }
    requires subkey { IsTrue (is_key subkey.now) }
    ensures value { IfOk result (λ value. IfSome (V.told view.old).rows (λ c. value ≡ row_in_life c key.now life subkey.now)) }
    ensures reads { ReadsView (V.told view.old) (V.told view.new) result }
{
    let Some(life) = life else {
        return Ok(None);
    };
    let value = read_element(alloc, view, key, life.version, subkey)?;
    Ok(value)
}

/// Is there an element under a subkey in the life that is found at a key? One row is looked up where there is a life, whatever
/// its size, and none where there is no key.
///
/// The fault is one of the view, or want of memory. It leaves the view's rows as they are, as does an answer.
pub fn has_in_life<V: RawView>(
    alloc: Global,
    view: &mut V,
    key: &Key,
    life: Option<LifeSight>,
    subkey: &[u8],
) -> Result<bool, StoreFault>
    requires version { HasVersionIn life }
    requires subkey { IsTrue (is_key subkey.now) }
    ensures there { IfOk result (λ there. IfSome (V.told view.old).rows (λ c. there ≡ is_some (row_in_life c key.now life subkey.now))) }
    ensures reads { ReadsView (V.told view.old) (V.told view.new) result }
{
    let row = read_in_life(alloc, view, key, life, subkey)?;
    Ok(row.is_some())
}

/// The number of elements of a life, 0 where there is none.
pub fn life_size(life: Option<LifeSight>) -> u64
    ensures { result ≡ life_size life }
{
    match life {
        None => 0,
        Some(life) => life.size,
    }
}
