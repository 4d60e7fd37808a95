//! The four rules, on one row.

ghost use Rattle.std.specs.Prelude.{◌≡◌, ◌&&◌, option_map, option_and_then};
ghost use Rattle.std.specs.List.{list_any, list_all};
ghost use Rattle.kv_base.specs.RawKeys.{read_raw};
ghost use Rattle.kv_base.specs.MetaValues.{read_meta};
ghost use Rattle.kv_base.specs.RowRefs.{meta_seen};
ghost use Rattle.kv_base.specs.RowRefs.{row_seen};
ghost use Rattle.lives_model.specs.Clean.{is_live, is_version_of};
ghost use Rattle.filter_laws.specs.Kept.{has_expired, is_meta, is_dead_meta, row_life};
ghost use Rattle.filter_laws.specs.Verdict.{verdict as verdict_on, shows, is_before_next, is_shown, has_ended, has_no_life};
ghost use Rattle.orphan_filter.specs.NotesSeen.{notes_seen};

use crate::notes::Notes;
use filter_laws::{Verdict, Watcher};
use kv_base::{MetaRef, RawRef, RowRef, decode_meta, decode_raw};

/// What becomes of the row: it goes where no watcher sees it, where it is one of a life that its key has for no watcher, and
/// where it is a delete, or expired metadata for each watcher that sees it, and each does, with nothing of its raw key in
/// deeper levels. Other expired metadata becomes a delete, and all else stays.
#[tactic(auto, unfolding(filter_laws::specs::Verdict::verdict))]
pub fn verdict(row: RowRef<'_>, watch: &[Watcher], notes: Notes<'_>) -> Verdict
    ensures { result ≡ verdict_on (row_seen row.entry) watch.now (notes_seen notes.entry) }
{
    if !is_shown(row, watch, notes.newer) || has_no_life(notes.lives, row.raw) {
        return Verdict::Drop;
    }
    let ended = has_ended(row, watch, notes.newer);
    let is_delete = row.value.is_none() || ended;
    if is_delete && is_shown_to_all(row, watch, notes.newer) && !notes.deeper {
        return Verdict::Drop;
    }
    if ended { Verdict::Bury } else { Verdict::Keep }
}

/// Does a watcher see the row, by the sequence of the next newer one?
fn shows(row: RowRef<'_>, newer: Option<u64>, watcher: Watcher) -> bool
    ensures { result ≡ shows (row_seen row.entry) newer watcher }
{
    row.seq <= watcher.seq && is_before_next(watcher.seq, newer)
}

fn is_before_next(seq: u64, newer: Option<u64>) -> bool
    ensures { result ≡ is_before_next seq newer }
{
    match newer {
        None => true,
        Some(next) => seq < next,
    }
}

fn is_shown(row: RowRef<'_>, watch: &[Watcher], newer: Option<u64>) -> bool
    ensures { result ≡ is_shown (row_seen row.entry) watch.now newer }
{
    watch.iter().any(|watcher| shows(row, newer, *watcher))
}

fn is_shown_to_all(row: RowRef<'_>, watch: &[Watcher], newer: Option<u64>) -> bool
    ensures { result ≡ list_all (shows (row_seen row.entry) newer) watch.now }
{
    watch.iter().all(|watcher| shows(row, newer, *watcher))
}

/// Is it metadata that is expired for each watcher that sees it?
fn has_ended(row: RowRef<'_>, watch: &[Watcher], newer: Option<u64>) -> bool
    ensures { result ≡ has_ended (row_seen row.entry) watch.now newer }
{
    watch.iter().all(|watcher| !shows(row, newer, *watcher) || has_expired(watcher.moment, row))
}

/// Is it metadata that is expired at the moment?
fn has_expired(moment: u64, row: RowRef<'_>) -> bool
    ensures { result ≡ has_expired moment (row_seen row.entry) }
{
    is_meta(row.raw) && is_dead_meta(moment, row.value)
}

fn is_meta(raw: &[u8]) -> bool
    ensures { result ≡ is_meta (read_raw raw.now) }
{
    matches!(decode_raw(raw), Some(RawRef::Meta { .. }))
}

fn is_dead_meta(moment: u64, value: Option<&[u8]>) -> bool
    ensures { result ≡ is_dead_meta moment (option_and_then read_meta (option_map (λ value. value.now) value.entry)) }
{
    match value {
        None => false,
        Some(bytes) => match decode_meta(bytes) {
            None => false,
            Some(meta) => !is_live(moment, meta),
        },
    }
}

fn is_live(moment: u64, meta: MetaRef<'_>) -> bool
    ensures { result ≡ is_live moment (meta_seen meta.entry) }
{
    let expire = match meta {
        MetaRef::Str { expire, .. } => expire,
        MetaRef::Life { expire, .. } => expire,
        MetaRef::List { expire, .. } => expire,
    };
    expire == 0 || moment < expire
}

/// Is it a row of a life that its key has for no watcher?
fn has_no_life(lives: &[Option<u64>], raw: &[u8]) -> bool
    ensures { result ≡ has_no_life lives.now (row_life (read_raw raw.now)) }
{
    match decode_raw(raw) {
        Some(RawRef::Sub { version, .. }) => !is_among(lives, version),
        Some(RawRef::Score { version, .. }) => !is_among(lives, version),
        _ => false,
    }
}

fn is_among(lives: &[Option<u64>], version: u64) -> bool
    ensures { result ≡ list_any (λ life. is_version_of life version) lives.now }
{
    lives.iter().any(|life| match *life {
        None => false,
        Some(current) => version == current,
    })
}
