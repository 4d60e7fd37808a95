//! The index of a table.

ghost use Rattle.std.specs.Prelude.{◌≡◌, ◌≤◌, ◌==◌, ◌++◌, true, false, IfOk, OnOk, length, option_map};
ghost use Rattle.std.specs.List.Sorted.{IsPartitionPoint};
ghost use Rattle.sst_parts.specs.Index.{index_text, read_block_index as index_of, read_spot, read_spots, spot_behind, spot_text, spot_texts};

use crate::put::{put_text, put_u32, put_u64};
use kv_base::{Blob, NoMem, take_text, take_u32, take_u64};
use std::alloc::Global;

/// A data block: its place in the file, how many bytes it has with those of its length, and the raw key of its last
/// row.
#[derive(Debug, Drop)]
pub struct Spot {
    pub place: u64,
    pub bytes: u32,
    pub last: Blob,
}

/// The bytes of an index: the number of the blocks, and of each the place, the bytes and the text of its last raw key.
/// Want of memory is answered also where a number fits no four bytes.
#[tactic(auto, unfolding(crate::specs::Index::index_text))]
pub fn encode_index(alloc: Global, spots: &[Spot]) -> Result<Vec<u8>, NoMem>
    ensures { IfOk result (λ bytes. bytes.items ≡ index_text spots.now) }
{
    let Ok(count) = u32::try_from(spots.len()) else {
        return Err(NoMem);
    };
    let mut bytes = Vec::new(alloc);
    put_u32(&mut bytes, count)?;
    for spot in spots {
        put_spot(&mut bytes, spot)?;
    }
    Ok(bytes)
}

#[tactic(auto, using(std::proofs::Common::append_assoc))]
fn put_spot(bytes: &mut Vec<u8>, spot: &Spot) -> Result<(), NoMem>
    ensures { OnOk result (bytes.new.items ≡ bytes.old.items ++ spot_text spot.now) }
{
    put_u64(bytes, spot.place)?;
    put_u32(bytes, spot.bytes)?;
    put_text(bytes, spot.last.bytes())
}

/// A spot whose raw key stands in an index's bytes, and what is behind it.
#[derive(Clone, Copy)]
struct SpotFront<'a> {
    place: u64,
    bytes: u32,
    last: &'a [u8],
    behind: &'a [u8],
}

/// The spots of an index of blocks from a place up to an end; none exactly where these bytes are no such index.
///
/// There is at least one block. The blocks follow one another without gaps, the first of them at the place, and the
/// last one ends at the end.
#[tactic(auto, unfolding(crate::specs::Index::read_block_index))]
pub fn read_index(
    alloc: Global,
    place: u64,
    end: u64,
    bytes: &[u8],
) -> Result<Option<Vec<Spot>>, NoMem>
    ensures { IfOk result (λ found. option_map (λ spots. spots.items) found ≡ index_of place end bytes.now) }
{
    let Some((count, rest)) = take_u32(bytes) else {
        return Ok(None);
    };
    if count == 0 {
        return Ok(None);
    }
    read_spots(alloc, count, place, end, rest)
}

fn read_spots(
    alloc: Global,
    count: u32,
    place: u64,
    end: u64,
    bytes: &[u8],
) -> Result<Option<Vec<Spot>>, NoMem>
    ensures { IfOk result (λ found. option_map (λ spots. spots.items) found ≡ read_spots count place end bytes.now) }
{
    let mut spots = Vec::new(alloc);
    let mut at = place;
    let mut rest = bytes;
    for _block in 0..count {
        let Some(front) = take_spot(rest) else {
            return Ok(None);
        };
        if front.place != at {
            return Ok(None);
        }
        let Some(next) = at.checked_add(u64::from(front.bytes)) else {
            return Ok(None);
        };
        let last = Blob::copy(alloc, front.last)?;
        spots.push(Spot {
            place: front.place,
            bytes: front.bytes,
            last,
        })?;
        at = next;
        rest = front.behind;
    }
    if at == end && rest.is_empty() {
        Ok(Some(spots))
    } else {
        Ok(None)
    }
}

#[tactic(auto, unfolding(crate::specs::Index::read_spot))]
fn take_spot(bytes: &[u8]) -> Option<SpotFront<'_>>
    ensures { option_map (λ front. (record { place = front.place; bytes = front.bytes; last = front.last.now }, front.behind.now)) result ≡ read_spot bytes.now }
{
    let (place, rest) = take_u64(bytes)?;
    let (bytes, rest) = take_u32(rest)?;
    let (last, behind) = take_text(rest)?;
    Some(SpotFront {
        place,
        bytes,
        last,
        behind,
    })
}
