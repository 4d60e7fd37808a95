ghost use Rattle.std.specs.Prelude.{◌≡◌, ◌≤◌, Some, IfOk, IsErrOf};
ghost use Rattle.kv_base.specs.declared.name.FileName.TheVariants.{Segment};
ghost use Rattle.kv_outside.specs.Causes.{Rose};
ghost use Rattle.kv_outside.specs.Disk.{NothingNew};
ghost use Rattle.wal_log.specs.Reads.{ReadsBytes, ReadsSegment};
ghost use Rattle.wal_log.specs.Segments.{is_next_record as may_follow, record_behind};

use crate::segment::{Found, Stamp};
use batch_codec::{Record, decode_body};
use gated_log::{next_record, read_file};
use kv_base::{FileName, Items, NoMem, StoreFault};
use kv_outside::Files;
use std::alloc::Global;

/// Is the sequence one more than that of the last record, and the moment not below?
fn is_next(last: Stamp, found: &Record) -> bool
    ensures { result ≡ may_follow last found.now }
{
    found.seq.checked_sub(1) == Some(last.seq) && last.moment <= found.moment
}

/// The record with this body; `None` exactly where it may not stand behind the last one.
#[tactic(auto, unfolding(crate::specs::Segments::record_behind))]
fn read_behind(alloc: Global, last: Stamp, body: &[u8]) -> Result<Option<Record>, NoMem>
    ensures { IfOk result (λ found. found ≡ record_behind last body.now) }
{
    let Some(record) = decode_body(alloc, body)? else {
        return Ok(None);
    };
    if is_next(last, &record) {
        Ok(Some(record))
    } else {
        Ok(None)
    }
}

/// What a segment with these bytes has, behind a record of this stamp.
fn read_bytes(
    alloc: Global,
    file: FileName,
    bytes: &[u8],
    before: Stamp,
) -> Result<Found, StoreFault>
    ensures { ReadsBytes before file bytes.now result }
{
    let mut records: Items<Record> = Items::new(alloc);
    let mut last = before;
    let mut place = 0;
    while let Some(open) = next_record(bytes, place) {
        let Some(record) = read_behind(alloc, last, open.body)? else {
            return Err(StoreFault::Damaged {
                file,
                place: place as u64,
            });
        };
        last = Stamp {
            seq: record.seq,
            moment: record.moment,
        };
        records.push(record)?;
        place = open.next;
    }
    Ok(Found {
        records,
        last,
        end: place as u64,
        any: !bytes.is_empty(),
    })
}

/// What the segment of this number has, whose first record comes behind one of this stamp. It syncs the file, reads it
/// once and decodes each body once.
///
/// It fails where a call to the files failed, where memory is short, or where a record is damage: its body is off the
/// grammar, its sequence is not one more than that of the record before it, or its moment is below. `Damaged` names the
/// segment and the place of that record's gate. A file that is not there has no byte.
pub fn read_all<F: Files>(
    alloc: Global,
    files: &mut F,
    number: u64,
    before: Stamp,
) -> Result<Found, StoreFault>
    ensures reads { ReadsSegment before (Segment number) (F.disk files.old) (F.disk files.new) result }
    ensures disk { NothingNew (F.disk files.old) (F.disk files.new) }
    ensures later { F.faults files.old ≤ F.faults files.new }
    ensures failed { IsErrOf result StoreFault.Failed → Rose (F.faults files.old) (F.faults files.new) }
{
    let name = FileName::Segment(number);
    let bytes = read_file(alloc, files, name)?;
    read_bytes(alloc, name, bytes.as_slice(), before)
}
