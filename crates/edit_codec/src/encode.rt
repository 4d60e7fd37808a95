//! The bytes of edits and heads.

ghost use Rattle.std.specs.Prelude.{◌≡◌, ◌≤◌, ◌<◌, ◌^◌, ◌++◌, ◌+◌, ℕ, IfOk, OnOk, IsTrue, Some, true, length};
ghost use Rattle.std.specs.List.{flat_map, list_all};
ghost use Rattle.kv_base.specs.Fields.{u32, u64};
ghost use Rattle.level_set.specs.Tables.{is_table};
ghost use Rattle.edit_codec.specs.Codecs.{EachFits};
ghost use Rattle.edit_codec.specs.Codecs.{list_text};
ghost use Rattle.edit_codec.specs.Records.{edit_text, state_head_text, home_text, id_text, numbers_text, read_edit, read_state_head};
ghost use Rattle.edit_codec.specs.Records.{FitList, FitsHome, FitsId, FitsNumbers};
ghost use Rattle.edit_codec.specs.States.{is_edit, is_state_head, with_epoch};

use crate::state::State;
use kv_base::{NoMem, TableId};
use level_set::{Edit, Home};
use record_body::{BodyWriter, MAX_BODY, RecordBody};
use std::alloc::Global;

/// What a head begins with.
pub const HEAD: u8 = 0;

/// What an edit begins with.
pub const EDIT: u8 = 1;

/// The body of an edit, ready to be appended.
///
/// It is the byte 1, the four numbers in eight bytes each, the number of tables that go in four bytes and their runs and
/// parts, and the number of tables that come in four bytes and these tables. A table is its level in one byte, its run,
/// its part, how many rows and how many bytes it has in eight bytes each, and the texts of its least and its greatest raw
/// key. A text has its length in four bytes in front. Numbers have their high byte first.
///
/// It is refused where memory is short, and where it has more than 2^32 - 1 bytes.
pub fn encode_edit(alloc: Global, edit: &Edit) -> Result<RecordBody, NoMem>
    requires { is_edit edit.now ≡ true }
    ensures bytes { IfOk result (λ body. body ≡ edit_text edit.now) }
    ensures read { IfOk result (λ body. read_edit body ≡ Some edit.now) }
{
    let mut body = BodyWriter::new(alloc)?;
    body.push(EDIT)?;
    write_numbers(&mut body, edit.log, edit.last, edit.floor, edit.next_run)?;
    write_ids(&mut body, edit.removed.as_slice())?;
    write_homes(&mut body, edit.added.as_slice())?;
    finish(body)
}

/// The body of the head that says a state in this epoch, ready to be appended.
///
/// It is the byte 0, the epoch and the four numbers in eight bytes each, the number of tables in four bytes, and the
/// tables as an edit has them.
///
/// It is refused where memory is short, and where it has more than 2^32 - 1 bytes.
pub fn encode_head(alloc: Global, epoch: u64, state: &State) -> Result<RecordBody, NoMem>
    ensures bytes { IfOk result (λ body. body ≡ state_head_text (with_epoch epoch state.now)) }
    ensures read { IfOk result (λ body. is_state_head (with_epoch epoch state.now) ≡ true → read_state_head body ≡ Some (with_epoch epoch state.now)) }
{
    let mut body = BodyWriter::new(alloc)?;
    body.push(HEAD)?;
    body.put_u64(epoch)?;
    write_numbers(
        &mut body,
        state.log,
        state.last,
        state.floor,
        state.next_run,
    )?;
    write_homes(&mut body, state.levels.homes())?;
    finish(body)
}

/// The body, where it is not too long.
fn finish(body: BodyWriter) -> Result<RecordBody, NoMem>
    ensures { IfOk result (λ made. made ≡ body) }
{
    if body.len() > MAX_BODY {
        return Err(NoMem);
    }
    body.finish()
}

fn write_numbers(
    body: &mut BodyWriter,
    log: u64,
    last: u64,
    floor: u64,
    next_run: u64,
) -> Result<(), NoMem>
    ensures written { OnOk result (body.new ≡ body.old ++ numbers_text log last floor next_run) }
    ensures fits { FitsNumbers (log, (last, (floor, next_run))) }
{
    body.put_u64(log)?;
    body.put_u64(last)?;
    body.put_u64(floor)?;
    body.put_u64(next_run)
}

/// Adds how many follow, in four bytes, where these suffice.
fn write_count(body: &mut BodyWriter, count: usize) -> Result<(), NoMem>
    ensures written { OnOk result (body.new ≡ body.old ++ u32 count) }
    ensures small { OnOk result (count < 2 ^ 32) }
{
    if count > MAX_BODY {
        return Err(NoMem);
    }
    body.put_u32(count as u32)
}

fn write_id(body: &mut BodyWriter, id: TableId) -> Result<(), NoMem>
    ensures written { OnOk result (body.new ≡ body.old ++ id_text id) }
    ensures fits { FitsId id }
{
    body.put_u64(id.run)?;
    body.put_u64(id.part)
}

fn write_ids(body: &mut BodyWriter, ids: &[TableId]) -> Result<(), NoMem>
    ensures written { OnOk result (body.new ≡ body.old ++ list_text id_text ids.now) }
    ensures fits { OnOk result (FitList FitsId ids.now) }
{
    write_count(body, ids.len())?;
    for id in ids {
        write_id(body, *id)?;
    }
    Ok(())
}

fn write_sizes(body: &mut BodyWriter, rows: u64, bytes: u64) -> Result<(), NoMem>
    ensures written { OnOk result (body.new ≡ body.old ++ (u64 rows ++ u64 bytes)) }
    ensures fits { (rows < 2 ^ 64) × (bytes < 2 ^ 64) }
{
    body.put_u64(rows)?;
    body.put_u64(bytes)
}

fn write_home(body: &mut BodyWriter, home: &Home) -> Result<(), NoMem>
    requires { is_table home.now ≡ true }
    ensures written { OnOk result (body.new ≡ body.old ++ home_text home.now) }
    ensures fits { OnOk result (FitsHome home.now) }
{
    body.push(home.level)?;
    write_id(body, home.desc.id)?;
    write_sizes(body, home.desc.rows, home.desc.bytes)?;
    body.put_text(home.desc.least.bytes())?;
    body.put_text(home.desc.greatest.bytes())
}

fn write_homes(body: &mut BodyWriter, homes: &[Home]) -> Result<(), NoMem>
    requires { list_all is_table homes.now ≡ true }
    ensures written { OnOk result (body.new ≡ body.old ++ list_text home_text homes.now) }
    ensures fits { OnOk result (FitList FitsHome homes.now) }
{
    write_count(body, homes.len())?;
    for home in homes {
        write_home(body, home)?;
    }
    Ok(())
}
