//! A table from its file, all parts together.

ghost use Rattle.std.specs.Prelude.{◌≡◌, ◌≤◌, IfOk, IfErr, IfSome, OnOk, length};
ghost use Rattle.kv_outside.specs.Disk.{NothingNew};
ghost use Rattle.sst_grammar.specs.Judging.{judged_table};
ghost use Rattle.sst_file.specs.Opening.{ThreeParts};
ghost use Rattle.sst_file.specs.States.{StandsForTable};
ghost use Rattle.sst_file.specs.Opening.{DoAgree, IsBlame, IsDescOf, IsWholeBlame};

use crate::blocks::open_blocks;
use crate::opening::{Opened, off, open_filter, open_foot, open_index};
use crate::table::Parts;
use kv_base::{NoMem, StoreFault, TableDesc, TableId};
use kv_outside::Files;
use sst_parts::{Bits, FOOT_LENGTH, Foot, Spot};
use sst_sums::Sums;
use std::alloc::Global;

/// What frames the blocks of a table.
#[derive(Drop)]
struct Frame {
    foot: Foot,
    spots: Vec<Spot>,
    bits: Bits,
}

fn open_frame<F: Files>(
    alloc: Global,
    files: &mut F,
    id: TableId,
    opened: &Opened<F>,
) -> Result<Frame, StoreFault>
    requires { IfSome (F.sealed_bytes opened.now.file) (λ bytes. opened.now.bytes ≡ length bytes) }
    ensures found { IfOk result (λ frame. IfSome (F.sealed_bytes opened.now.file) (ThreeParts frame.foot frame.spots.items frame.bits)) }
    ensures blame { IfErr result (λ fault. IsBlame (F.faults files.old) (F.faults files.new) id (F.sealed_bytes opened.now.file) judged_table fault) }
    ensures disk { NothingNew (F.disk files.old) (F.disk files.new) }
    ensures later { F.faults files.old ≤ F.faults files.new }
{
    let foot = open_foot(alloc, files, id, opened)?;
    let spots = open_index(alloc, files, id, opened, &foot)?;
    let bits = open_filter(alloc, files, id, opened, &foot)?;
    Ok(Frame { foot, spots, bits })
}

/// Is what all rows together tell as the foot and the filter have it?
fn check_whole(
    alloc: Global,
    id: TableId,
    bytes: u64,
    frame: &Frame,
    sums: &Sums,
) -> Result<(), StoreFault>
    ensures agree { OnOk result (DoAgree frame.now.foot frame.now.bits sums.now.rows sums.now.keys.items) }
    ensures blame { IfErr result (IsWholeBlame id bytes frame.now.foot frame.now.bits sums.now.rows sums.now.keys.items) }
{
    if sums.rows != frame.foot.rows {
        return Err(off(id, bytes.saturating_sub(FOOT_LENGTH)));
    }
    let made = Bits::of_hashes(alloc, sums.keys.as_slice())?;
    if frame.bits.bytes().cmp(made.bytes()).is_eq() {
        Ok(())
    } else {
        Err(off(id, frame.foot.filter))
    }
}

/// The parts of a table that was found to be on its grammar.
fn parts_of<F: Files>(
    id: TableId,
    opened: Opened<F>,
    frame: Frame,
    sums: Sums,
) -> Result<Parts<F>, NoMem>
    ensures file { IfOk result (λ parts. parts.file ≡ opened.file) }
    ensures frame { IfOk result (λ parts. (parts.spots.items ≡ frame.spots.items) × (parts.bits ≡ frame.bits)) }
    ensures desc { IfOk result (λ parts. IsDescOf parts.desc id opened.bytes sums.rows sums.least sums.last) }
{
    let Opened { file, bytes } = opened;
    let Frame { spots, bits, .. } = frame;
    let Sums {
        rows,
        least,
        last,
        ..
    } = sums;
    // A table that was found to be on its grammar has both.
    let (Some(least), Some(last)) = (least, last) else {
        return Err(NoMem);
    };
    let desc = TableDesc {
        id,
        rows,
        bytes,
        least,
        greatest: last.raw,
    };
    Ok(Parts {
        file,
        desc,
        spots,
        bits,
    })
}

/// Reads a whole table.
pub(crate) fn open_parts<F: Files>(
    alloc: Global,
    files: &mut F,
    id: TableId,
    opened: Opened<F>,
) -> Result<Parts<F>, StoreFault>
    requires { IfSome (F.sealed_bytes opened.file) (λ bytes. opened.bytes ≡ length bytes) }
    ensures found { IfOk result (λ parts. StandsForTable parts.spots.items parts.bits parts.desc (F.sealed_bytes opened.file)) }
    ensures file { IfOk result (λ parts. parts.file ≡ opened.file) }
    ensures id { IfOk result (λ parts. parts.desc.id ≡ id) }
    ensures blame { IfErr result (λ fault. IsBlame (F.faults files.old) (F.faults files.new) id (F.sealed_bytes opened.file) judged_table fault) }
    ensures disk { NothingNew (F.disk files.old) (F.disk files.new) }
    ensures later { F.faults files.old ≤ F.faults files.new }
{
    let frame = open_frame(alloc, files, id, &opened)?;
    let sums = open_blocks(alloc, files, id, &opened, frame.spots.as_slice())?;
    check_whole(alloc, id, opened.bytes, &frame, &sums)?;
    let parts = parts_of(id, opened, frame, sums)?;
    Ok(parts)
}
