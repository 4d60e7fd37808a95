//! The rows of a view under a prefix, asked for in pages.

ghost use Rattle.std.specs.Prelude.{◌≡◌, ◌<◌, ◌^◌, ◌++◌, ◌∷◌, List, [], length, IfOk, IfSome, OnOk, IsTrue};
ghost use Rattle.kv_base.specs.Fields.{u64 as number};
ghost use Rattle.kv_base.specs.RawKeys.{is_version};
ghost use Rattle.lives_model.specs.LiveRowLists.{pairs};
ghost use Rattle.lives_model.specs.Page.{page};
ghost use Rattle.lives_model.specs.Passing.{is_asked, passing};
ghost use Rattle.lives_model.specs.Rows.{Elements, row_key};
ghost use Rattle.lives_model.specs.Views.{ReadsView};
ghost use Rattle.life_pages.specs.LifeElements.{elements_prefix, life_rows};
ghost use Rattle.life_pages.specs.PageWalks.{IsWalkStart, TakesPage};

use kv_base::{Blob, Key, NoMem, StoreFault};
use lives_model::{LiveRow, LiveRows, RawView};
use std::alloc::Global;
use subkey_codec::{ELEMENTS, index_key, life_prefix};

/// How many rows are asked for together. It bounds the memory of one answer of the view.
const PAGE: usize = 1024;

/// The rows of a life of a key on the side of elements, all of them, in the order of their raw keys. They are asked for in
/// pages, and moved.
///
/// The fault is one of the view, or want of memory. It leaves the view's rows as they are, as does an answer.
pub fn read_life<V: RawView>(
    alloc: Global,
    view: &mut V,
    key: &Key,
    version: u64,
) -> Result<LiveRows, StoreFault>
    requires { IsTrue (is_version version) }
    ensures rows { IfOk result (λ rows. IfSome (V.told view.old).rows (λ c. pairs rows ≡ life_rows c key.now version)) }
    ensures reads { ReadsView (V.told view.old) (V.told view.new) result }
{
    let prefix = life_prefix(alloc, ELEMENTS, key, version)?;
    let rows = read_under(alloc, view, prefix.bytes())?;
    Ok(rows)
}

/// The items of a list from an index on, so many at most, in one page.
///
/// The fault is one of the view, or want of memory. It leaves the view's rows as they are, as does an answer.
#[tactic(auto, using(lives_model::specs::ViewLaws::reading), unfolding(lives_model::specs::Rows::row_key, kv_base::specs::RawKeys::raw_text))]
pub fn read_range<V: RawView>(
    alloc: Global,
    view: &mut V,
    key: &Key,
    version: u64,
    index: u64,
    count: usize,
) -> Result<LiveRows, StoreFault>
    requires { IsTrue (is_version version) }
    ensures rows { IfOk result (λ rows. IfSome (V.told view.old).rows
        (λ c. pairs rows ≡ page c (row_key Elements key.now version (number index)) (elements_prefix key.now version) count)) }
    ensures reads { ReadsView (V.told view.old) (V.told view.new) result }
{
    let prefix = life_prefix(alloc, ELEMENTS, key, version)?;
    let from = index_key(alloc, key, version, index)?;
    let rows = view.range(alloc, from.bytes(), prefix.bytes(), count)?;
    Ok(rows)
}

/// A walk over pages.
#[derive(Drop)]
struct Walk {
    /// The rows that were found so far.
    found: LiveRows,
    /// Where the next page begins.
    next: Blob,
    /// May there be a next page?
    more: bool,
}

/// All rows whose raw keys begin with the prefix, in the order of their raw keys. They are asked for in pages, and moved.
///
/// The fault is one of the view, or want of memory. It leaves the view's rows as they are, as does an answer.
pub fn read_under<V: RawView>(
    alloc: Global,
    view: &mut V,
    prefix: &[u8],
) -> Result<LiveRows, StoreFault>
    ensures rows { IfOk result (λ rows. IfSome (V.told view.old).rows (λ c. pairs rows ≡ passing (is_asked prefix.now prefix.now) c)) }
    ensures reads { ReadsView (V.told view.old) (V.told view.new) result }
{
    let mut walk = start(alloc, prefix)?;
    while walk.more {
        let page = view.range(alloc, walk.next.bytes(), prefix, PAGE)?;
        take_page(alloc, page, &mut walk)?;
    }
    Ok(found_by(walk))
}

/// A walk that begins at the prefix.
fn start(alloc: Global, prefix: &[u8]) -> Result<Walk, NoMem>
    ensures { IfOk result (λ walk. IsWalkStart prefix.now walk) }
{
    let next = Blob::copy(alloc, prefix)?;
    Ok(Walk {
        found: LiveRows::new(alloc),
        next,
        more: true,
    })
}

/// Moves a page to the rows found. A page that is not full is the last one.
fn take_page(alloc: Global, page: LiveRows, walk: &mut Walk) -> Result<(), NoMem>
    ensures { OnOk result (TakesPage page PAGE walk.old walk.new) }
{
    walk.more = PAGE <= page.len();
    walk.found.append(page)?;
    if walk.more {
        walk.next = behind_last(alloc, walk.found.as_slice())?;
    }
    Ok(())
}

/// The least raw key above that of the last row, or no bytes where there is none.
fn behind_last(alloc: Global, rows: &[LiveRow]) -> Result<Blob, NoMem>
    ensures next { IfOk result (λ next. (front : List LiveRow) (last : LiveRow) → rows.now ≡ front ++ last ∷ [] → next ≡ last.raw ++ 0 ∷ []) }
    ensures few { length rows.now < 2 ^ 64 }
{
    let mut next = Vec::new(alloc);
    if let Some(at) = rows.len().checked_sub(1) {
        next.extend_from_slice(rows[at].raw.bytes())?;
        next.push(0)?;
    }
    Ok(Blob::from_vec(next))
}

fn found_by(walk: Walk) -> LiveRows
    ensures { result ≡ walk.found }
{
    let Walk { found, .. } = walk;
    found
}
