//! HGETALL, HKEYS, HVALS and SMEMBERS: what is answered of a collection as a whole.

ghost use Rattle.std.specs.Prelude.{◌≡◌, ◌++◌, ◌∷◌, [], IfOk, IfSome, OnOk, map, option_map, reverse};
ghost use Rattle.kv_base.specs.RowRefs.{meta_seen};
ghost use Rattle.redis_model.specs.declared.reply.Reply.TheVariants as answer;
ghost use Rattle.lives_model.specs.Clean.{live_at};
ghost use Rattle.lives_model.specs.LiveRowLists.{pair, pairs};
ghost use Rattle.lives_model.specs.Views.{ReadsView};
ghost use Rattle.plan_base.specs.LifePlans.{life_reply};
ghost use Rattle.plan_base.specs.Lives.{HasVersionIn};
ghost use Rattle.life_pages.specs.LifeElements.{element_in, elements_in, subkey_in};
ghost use Rattle.life_pages.specs.Whole.{parts_in, whole_plan, whole_reply};

use crate::pages::read_life;
use crate::subkey::subkey_of;
use kv_base::{Blob, Key, NoMem, StoreFault};
use lives_model::{LiveRow, LiveRows, Plan, RawView};
use meta_codec::Kind;
use plan_base::{LifeSight, MetaKey, answering, deadline_found, life_found, live_meta, read_text};
use redis_model::{Replies, Reply, ReplyError};
use std::alloc::Global;

/// What is answered of each element of a collection.
#[derive(Clone, Copy, Debug)]
pub enum Whole {
    /// Its subkey, and behind it its value: HGETALL.
    Both,
    /// Its subkey: HKEYS, SMEMBERS.
    Subkeys,
    /// Its value: HVALS.
    Values,
}

/// The plan of a command that answers all elements of the hash or set at its only key, by the order of their subkeys. The
/// rows are read in pages, values are moved into the answer, and subkeys are copied once.
///
/// The fault is one of the view, or want of memory. It leaves the view's rows as they are, as does an answer.
#[tactic(auto, using(lives_model::specs::ViewLaws::reading), unfolding(lives_model::specs::Clean::live_at, crate::specs::Whole::whole_plan))]
pub fn whole_plan<V: RawView>(
    alloc: Global,
    view: &mut V,
    moment: u64,
    key: &Key,
    kind: Kind,
    form: Whole,
) -> Result<Plan, StoreFault>
    ensures plan { IfOk result (λ plan. IfSome (V.told view.old).rows (λ c. plan ≡ whole_plan c moment key.now kind form)) }
    ensures reads { ReadsView (V.told view.old) (V.told view.new) result }
{
    let raw = MetaKey::new(alloc, key)?;
    let text = read_text(alloc, view, &raw)?;
    let found = live_meta(&text, moment);
    let reply = reply_of(alloc, view, key, life_found(kind, found), form)?;
    Ok(answering(alloc, moment, deadline_found(found), reply))
}

/// What is answered of the life that was found. A key of another type is an error.
fn reply_of<V: RawView>(
    alloc: Global,
    view: &mut V,
    key: &Key,
    life: Result<Option<LifeSight>, ReplyError>,
    form: Whole,
) -> Result<Reply, StoreFault>
    requires { IfOk life (λ life. HasVersionIn life) }
    ensures reply { IfOk result (λ reply. IfSome (V.told view.old).rows (λ c. reply ≡ life_reply (λ found. whole_reply form (elements_in c key.now found)) life)) }
    ensures reads { ReadsView (V.told view.old) (V.told view.new) result }
{
    match life {
        Ok(None) => Ok(Reply::Array(Replies::new(alloc))),
        Ok(Some(life)) => {
            let rows = read_life(alloc, view, key, life.version)?;
            let reply = bulks_of(alloc, rows, key, form)?;
            Ok(reply)
        }
        Err(error) => Ok(Reply::Error(error)),
    }
}

/// What is answered of rows of a life of a key. They are taken from the last one on, and the answer is turned round.
fn bulks_of(alloc: Global, mut rows: LiveRows, key: &Key, form: Whole) -> Result<Reply, NoMem>
    ensures { IfOk result (λ reply. reply ≡ whole_reply form (map (element_in key.now) (pairs rows))) }
{
    let mut parts = Vec::new(alloc);
    while let Some(row) = rows.pop() {
        push_parts(alloc, row, key, form, &mut parts)?;
    }
    parts.reverse();
    Ok(Reply::Array(Replies::from_vec(parts)))
}

/// Adds what is answered of a row, the last part first.
fn push_parts(
    alloc: Global,
    row: LiveRow,
    key: &Key,
    form: Whole,
    parts: &mut Vec<Reply>,
) -> Result<(), NoMem>
    ensures { OnOk result (reverse parts.new.items ≡ map answer.Bulk (parts_in form (element_in key.now (pair row))) ++ reverse parts.old.items) }
{
    let LiveRow { raw, value } = row;
    match form {
        Whole::Both => {
            parts.push(Reply::Bulk(value))?;
            push_subkey(alloc, &raw, key, parts)?;
        }
        Whole::Subkeys => push_subkey(alloc, &raw, key, parts)?,
        Whole::Values => parts.push(Reply::Bulk(value))?,
    }
    Ok(())
}

fn push_subkey(alloc: Global, raw: &Blob, key: &Key, parts: &mut Vec<Reply>) -> Result<(), NoMem>
    ensures { OnOk result (parts.new.items ≡ parts.old.items ++ answer.Bulk (subkey_in key.now raw.now) ∷ []) }
{
    let subkey = Blob::copy(alloc, subkey_of(raw.bytes(), key))?;
    parts.push(Reply::Bulk(subkey))?;
    Ok(())
}
