//! What stands in the front of bytes, and what is behind it.

ghost use Rattle.std.specs.Prelude.{◌≡◌, IfOk, option_map};
ghost use Rattle.edit_codec.specs.Codecs.{read_onto, read_list, read_many};
ghost use Rattle.edit_codec.specs.Records.{read_home, read_id, read_numbers};

use kv_base::{Blob, NoMem, TableDesc, TableId, take_text, take_u32, take_u64};
use level_set::Home;
use std::alloc::Global;

/// The numbers of a state or an edit, and what is behind them.
#[derive(Clone, Copy)]
pub struct NumbersFront<'a> {
    pub log: u64,
    pub last: u64,
    pub floor: u64,
    pub next_run: u64,
    pub behind: &'a [u8],
}

#[tactic(auto, unfolding(crate::specs::Records::read_numbers))]
pub fn take_numbers(bytes: &[u8]) -> Option<NumbersFront<'_>>
    ensures { option_map (λ n. ((n.log, (n.last, (n.floor, n.next_run))), n.behind.now)) result ≡ read_numbers bytes.now }
{
    let (log, rest) = take_u64(bytes)?;
    let (last, rest) = take_u64(rest)?;
    let (floor, rest) = take_u64(rest)?;
    let (next_run, behind) = take_u64(rest)?;
    Some(NumbersFront {
        log,
        last,
        floor,
        next_run,
        behind,
    })
}

/// The name of a table, and what is behind it.
fn take_id(bytes: &[u8]) -> Option<(TableId, &[u8])>
    ensures { option_map (λ front. (front.0, front.1.now)) result ≡ read_id bytes.now }
{
    let (run, rest) = take_u64(bytes)?;
    let (part, behind) = take_u64(rest)?;
    Some((TableId { run, part }, behind))
}

/// A table, and what is behind it.
#[derive(Clone, Copy)]
struct HomeFront<'a> {
    level: u8,
    id: TableId,
    rows: u64,
    bytes: u64,
    least: &'a [u8],
    greatest: &'a [u8],
    behind: &'a [u8],
}

#[tactic(auto, unfolding(crate::specs::Records::read_home))]
fn take_home(bytes: &[u8]) -> Option<HomeFront<'_>>
    ensures { option_map (λ h. (record { level = h.level; desc = record { id = h.id; rows = h.rows; bytes = h.bytes; least = h.least.now; greatest = h.greatest.now } }, h.behind.now)) result ≡ read_home bytes.now }
{
    let (level, rest) = bytes.split_first()?;
    let (id, rest) = take_id(rest)?;
    let (rows, rest) = take_u64(rest)?;
    let (bytes, rest) = take_u64(rest)?;
    let (least, rest) = take_text(rest)?;
    let (greatest, behind) = take_text(rest)?;
    Some(HomeFront {
        level: *level,
        id,
        rows,
        bytes,
        least,
        greatest,
        behind,
    })
}

fn copy_home(alloc: Global, front: HomeFront<'_>) -> Result<Home, NoMem>
    ensures { IfOk result (λ home. home ≡ record { level = front.entry.level; desc = record { id = front.entry.id; rows = front.entry.rows; bytes = front.entry.bytes; least = front.entry.least.now; greatest = front.entry.greatest.now } }) }
{
    let least = Blob::copy(alloc, front.least)?;
    let greatest = Blob::copy(alloc, front.greatest)?;
    Ok(Home {
        level: front.level,
        desc: TableDesc {
            id: front.id,
            rows: front.rows,
            bytes: front.bytes,
            least,
            greatest,
        },
    })
}

/// Adds the names of so many tables, and gives what is behind them; `None` exactly where they are not there.
fn take_ids<'a>(
    ids: &mut Vec<TableId>,
    count: u32,
    bytes: &'a [u8],
) -> Result<Option<&'a [u8]>, NoMem>
    ensures { IfOk result (λ behind. option_map (λ rest. (ids.new.items, rest.now)) behind ≡ read_onto ids.old.items (read_many read_id count bytes.now)) }
{
    let mut rest = bytes;
    for _at in 0..count {
        let Some((id, behind)) = take_id(rest) else {
            return Ok(None);
        };
        ids.push(id)?;
        rest = behind;
    }
    Ok(Some(rest))
}

/// Adds so many tables, and gives what is behind them; `None` exactly where they are not there.
fn take_homes<'a>(
    alloc: Global,
    homes: &mut Vec<Home>,
    count: u32,
    bytes: &'a [u8],
) -> Result<Option<&'a [u8]>, NoMem>
    ensures { IfOk result (λ behind. option_map (λ rest. (homes.new.items, rest.now)) behind ≡ read_onto homes.old.items (read_many read_home count bytes.now)) }
{
    let mut rest = bytes;
    for _at in 0..count {
        let Some(front) = take_home(rest) else {
            return Ok(None);
        };
        homes.push(copy_home(alloc, front)?)?;
        rest = front.behind;
    }
    Ok(Some(rest))
}

/// Adds the names of as many tables as a number in front says, and gives what is behind them; `None` exactly where they
/// are not there.
pub fn take_id_list<'a>(ids: &mut Vec<TableId>, bytes: &'a [u8]) -> Result<Option<&'a [u8]>, NoMem>
    ensures { IfOk result (λ behind. option_map (λ rest. (ids.new.items, rest.now)) behind ≡ read_onto ids.old.items (read_list read_id bytes.now)) }
{
    match take_u32(bytes) {
        Some((count, behind)) => take_ids(ids, count, behind),
        None => Ok(None),
    }
}

/// Adds as many tables as a number in front says, and gives what is behind them; `None` exactly where they are not there.
pub fn take_home_list<'a>(
    alloc: Global,
    homes: &mut Vec<Home>,
    bytes: &'a [u8],
) -> Result<Option<&'a [u8]>, NoMem>
    ensures { IfOk result (λ behind. option_map (λ rest. (homes.new.items, rest.now)) behind ≡ read_onto homes.old.items (read_list read_home bytes.now)) }
{
    match take_u32(bytes) {
        Some((count, behind)) => take_homes(alloc, homes, count, behind),
        None => Ok(None),
    }
}
