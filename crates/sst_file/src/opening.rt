//! Opening a table: its file is read whole, block by block, and judged.

ghost use Rattle.std.specs.Prelude.{◌≡◌, ◌≤◌, ◌-◌, ℕ, List, IfOk, IfErr, IfSome, Ok, Some, None, length};
ghost use Rattle.kv_base.specs.Map.{Bytes, kept, same};
ghost use Rattle.kv_outside.specs.Causes.{HasCause};
ghost use Rattle.kv_outside.specs.Disk.{IsDurable, NothingNew};
ghost use Rattle.sst_parts.specs.Tables.{table_head, is_foot_of, read_foot as foot_of};
ghost use Rattle.sst_grammar.specs.Judging.{judged_filter, judged_foot, judged_index};
ghost use Rattle.sst_file.specs.Opening.{IsBlame};

use crate::reading::bytes_at;
use kv_base::{FileName, StoreFault, TableId};
use kv_outside::{Failed, Files};
use sst_parts::{Bits, FOOT_LENGTH, Foot, HEAD, Spot, read_foot, read_index};
use std::alloc::Global;

/// The bytes of a head.
const HEAD_LENGTH: u32 = 8;

/// The bytes of a foot.
const FOOT_BYTES: u32 = 36;

/// A file that is opened, synced and sealed, and how many bytes it has.
#[derive(Drop)]
pub(crate) struct Opened<F: Files> {
    pub file: F::Sealed,
    pub bytes: u64,
}

/// The table's file is off its grammar at this place.
pub(crate) fn off(id: TableId, place: u64) -> StoreFault
    ensures { result ≡ StoreFault.Damaged (FileName.Table id) place }
{
    StoreFault::Damaged {
        file: FileName::Table(id),
        place,
    }
}

/// Opens a table's file, syncs it, so that from then on a crash leaves what is read, and seals it.
pub(crate) fn open_sealed<F: Files>(files: &mut F, id: TableId) -> Result<Opened<F>, Failed>
    ensures told { IfOk result (λ opened. (bytes : Bytes) → (F.disk files.old).reads (FileName.Table id) ≡ Some bytes → F.sealed_bytes opened.file ≡ Some bytes) }
    ensures length { IfOk result (λ opened. IfSome (F.sealed_bytes opened.file) (λ bytes. opened.bytes ≡ length bytes)) }
    ensures durable { IfOk result (λ opened. IsDurable (F.disk files.new) (FileName.Table id) (F.sealed_bytes opened.file)) }
    ensures disk { NothingNew (F.disk files.old) (F.disk files.new) }
    ensures cause { HasCause (F.faults files.old) (F.faults files.new) result }
{
    let mut log = files.open(FileName::Table(id))?;
    files.sync(&mut log)?;
    let bytes = files.length(&log)?;
    let file = files.seal(log)?;
    Ok(Opened { file, bytes })
}

/// Are these the bytes of a head?
fn is_head(bytes: &[u8]) -> bool
    ensures { result ≡ same bytes.now table_head }
{
    bytes.cmp(HEAD.as_slice()).is_eq()
}

/// The foot that these bytes are, where it is that of a file of so many bytes.
fn foot_within(bytes: &[u8], length: u64) -> Option<Foot>
    ensures { result ≡ kept (is_foot_of length) (foot_of bytes.now) }
{
    let foot = read_foot(bytes)?;
    if foot.is_of(length) { Some(foot) } else { None }
}

/// The foot of the file, behind which its head is judged.
pub(crate) fn open_foot<F: Files>(
    alloc: Global,
    files: &mut F,
    id: TableId,
    opened: &Opened<F>,
) -> Result<Foot, StoreFault>
    requires { IfSome (F.sealed_bytes opened.now.file) (λ bytes. opened.now.bytes ≡ length bytes) }
    ensures found { IfOk result (λ foot. IfSome (F.sealed_bytes opened.now.file) (λ bytes. judged_foot bytes ≡ Ok foot)) }
    ensures blame { IfErr result (λ fault. IsBlame (F.faults files.old) (F.faults files.new) id (F.sealed_bytes opened.now.file) judged_foot fault) }
    ensures disk { NothingNew (F.disk files.old) (F.disk files.new) }
    ensures later { F.faults files.old ≤ F.faults files.new }
{
    if opened.bytes < u64::from(HEAD_LENGTH) + FOOT_LENGTH {
        return Err(off(id, 0));
    }
    let head = bytes_at(alloc, files, &opened.file, 0, HEAD_LENGTH)?;
    if !is_head(head.as_slice()) {
        return Err(off(id, 0));
    }
    let place = opened.bytes - FOOT_LENGTH;
    let bytes = bytes_at(alloc, files, &opened.file, place, FOOT_BYTES)?;
    match foot_within(bytes.as_slice(), opened.bytes) {
        Some(foot) => Ok(foot),
        None => Err(off(id, place)),
    }
}

/// The spots of the blocks.
pub(crate) fn open_index<F: Files>(
    alloc: Global,
    files: &mut F,
    id: TableId,
    opened: &Opened<F>,
    foot: &Foot,
) -> Result<Vec<Spot>, StoreFault>
    ensures found { IfOk result (λ spots. IfSome (F.sealed_bytes opened.now.file) (λ bytes. judged_index foot.now bytes ≡ Ok spots.items)) }
    ensures blame { IfErr result (λ fault. IsBlame (F.faults files.old) (F.faults files.new) id (F.sealed_bytes opened.now.file) (judged_index foot.now) fault) }
    ensures disk { NothingNew (F.disk files.old) (F.disk files.new) }
    ensures later { F.faults files.old ≤ F.faults files.new }
{
    let bytes = bytes_at(alloc, files, &opened.file, foot.index, foot.index_length)?;
    match read_index(alloc, u64::from(HEAD_LENGTH), foot.index, bytes.as_slice())? {
        Some(spots) => Ok(spots),
        None => Err(off(id, foot.index)),
    }
}

/// The bits of the filter. Whether they are those of the raw keys is not judged yet.
pub(crate) fn open_filter<F: Files>(
    alloc: Global,
    files: &mut F,
    id: TableId,
    opened: &Opened<F>,
    foot: &Foot,
) -> Result<Bits, StoreFault>
    ensures found { IfOk result (λ bits. IfSome (F.sealed_bytes opened.now.file) (λ bytes. judged_filter foot.now bytes ≡ Ok bits)) }
    ensures blame { IfErr result (λ fault. IsBlame (F.faults files.old) (F.faults files.new) id (F.sealed_bytes opened.now.file) (judged_filter foot.now) fault) }
    ensures disk { NothingNew (F.disk files.old) (F.disk files.new) }
    ensures later { F.faults files.old ≤ F.faults files.new }
{
    let bytes = bytes_at(alloc, files, &opened.file, foot.filter, foot.filter_length)?;
    match Bits::read(alloc, bytes.as_slice())? {
        Some(bits) => Ok(bits),
        None => Err(off(id, foot.filter)),
    }
}
