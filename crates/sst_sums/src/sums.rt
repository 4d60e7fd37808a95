//! What is kept of a table's rows while its blocks are read.

ghost use Rattle.std.specs.Prelude.{◌≡◌, ◌++◌, [], List, IfOk, map, option_map};
ghost use Rattle.kv_base.specs.declared.row.Row.{Row};
ghost use Rattle.kv_base.specs.RowRefs.{row_seen};
ghost use Rattle.sst_parts.specs.Filter.{hash_of};
ghost use Rattle.sst_sums.specs.Summing.{AreSums, bare_row, first_raw, new_keys, or_first, or_last};

use crate::summing::note_keys;
use kv_base::{Blob, NoMem, Row, RowRef};
use sst_parts::KeyHash;
use std::alloc::Global;

/// The number of some rows, the hashes of their raw keys, the raw key of the first, and the last without its value.
#[derive(Drop)]
pub struct Sums {
    pub rows: u64,
    pub keys: Vec<KeyHash>,
    pub least: Option<Blob>,
    pub last: Option<Row>,
}

impl Sums {
    /// Those of no rows.
    #[tactic(auto, using(crate::specs::SumLaws::sums_begin))]
    pub fn new(alloc: Global) -> Sums
        ensures { AreSums result.rows result.keys.items result.least result.last [] }
    {
        Sums {
            rows: 0,
            keys: Vec::new(alloc),
            least: None,
            last: None,
        }
    }

    /// Those of these rows too.
    pub fn with(self, alloc: Global, rows: &[RowRef<'_>]) -> Result<Sums, NoMem>
        ensures { IfOk result (λ more. (done : List Row) → AreSums self.rows self.keys.items self.least self.last done → AreSums more.rows more.keys.items more.least more.last (done ++ map row_seen rows.now)) }
    {
        let Sums {
            rows: count,
            keys,
            least,
            last,
        } = self;
        let Some(total) = count.checked_add(rows.len() as u64) else {
            return Err(NoMem);
        };
        let keys = with_keys(keys, &last, rows)?;
        let least = first_of(alloc, least, rows)?;
        let last = last_of(alloc, last, rows)?;
        Ok(Sums {
            rows: total,
            keys,
            least,
            last,
        })
    }
}

/// With the hashes of the raw keys that are new behind a row.
fn with_keys(
    keys: Vec<KeyHash>,
    last: &Option<Row>,
    rows: &[RowRef<'_>],
) -> Result<Vec<KeyHash>, NoMem>
    ensures { IfOk result (λ more. more.items ≡ keys.items ++ map hash_of (new_keys (option_map (λ (row : Row). row.raw) last.now) (map row_seen rows.now))) }
{
    let mut keys = keys;
    match last {
        Some(row) => note_keys(&mut keys, Some(row.raw.bytes()), rows)?,
        None => note_keys(&mut keys, None, rows)?,
    }
    Ok(keys)
}

/// The first raw key.

fn first_of(alloc: Global, least: Option<Blob>, rows: &[RowRef<'_>]) -> Result<Option<Blob>, NoMem>
    ensures { IfOk result (λ first. first ≡ or_first least (first_raw (map row_seen rows.now))) }
{
    match least {
        Some(raw) => Ok(Some(raw)),
        None => first_copied(alloc, rows),
    }
}

fn first_copied(alloc: Global, rows: &[RowRef<'_>]) -> Result<Option<Blob>, NoMem>
    ensures { IfOk result (λ first. first ≡ first_raw (map row_seen rows.now)) }
{
    match rows.first() {
        Some(row) => Ok(Some(Blob::copy(alloc, row.raw)?)),
        None => Ok(None),
    }
}

/// The last row, without its value.
fn last_of(alloc: Global, last: Option<Row>, rows: &[RowRef<'_>]) -> Result<Option<Row>, NoMem>
    ensures { IfOk result (λ now. now ≡ or_last last (map row_seen rows.now)) }
{
    match rows.last() {
        Some(row) => Ok(Some(bare_copy(alloc, *row)?)),
        None => Ok(last),
    }
}

fn bare_copy(alloc: Global, row: RowRef<'_>) -> Result<Row, NoMem>
    ensures { IfOk result (λ copy. copy ≡ bare_row (row_seen row.entry)) }
{
    Ok(Row {
        raw: Blob::copy(alloc, row.raw)?,
        seq: row.seq,
        value: None,
    })
}
