//! Edits and heads, read from their bodies.

ghost use Rattle.std.specs.Prelude.{◌≡◌, ◌&&◌, IfOk, Some, nat_le, option_map};
ghost use Rattle.kv_base.specs.Map.{kept};
ghost use Rattle.edit_codec.specs.Records.{behind_mark, read_edit, read_edit_parts, read_state_head, read_head_parts};
ghost use Rattle.edit_codec.specs.States.{are_numbers as are_numbers_of, is_edit as is_edit_of, is_state_head, last_epoch};

use crate::bounds::are_numbers;
use crate::encode::{EDIT, HEAD};
use crate::front::{take_home_list, take_id_list, take_numbers};
use crate::state::State;
use kv_base::{NoMem, take_u64};
use level_set::{Edit, Home, Homes, Levels, TableNames, are_all_tables, are_below};
use std::alloc::Global;

/// The greatest epoch.
const LAST_EPOCH: u64 = 1 << 62;

/// What is behind this byte; `None` where it isn't in front.
fn behind(mark: u8, bytes: &[u8]) -> Option<&[u8]>
    ensures { option_map (λ rest. rest.now) result ≡ behind_mark mark bytes.now }
{
    let (front, rest) = bytes.split_first()?;
    if *front == mark { Some(rest) } else { None }
}

/// The edit whose body this is; `None` exactly where it is no edit's.
///
/// A body is as `encode_edit` writes it: the log number is from 1 to 2^62 - 1, the last sequence at most 2^42 - 2, the
/// floor at most 2^61, and the next run from 1 to 2^62; a table's level is at most 4, its least and its greatest raw key
/// are raw keys, and the least is not above the greatest. Nothing stands behind.
#[tactic(auto, unfolding(crate::specs::Records::read_edit))]
pub fn decode_edit(alloc: Global, body: &[u8]) -> Result<Option<Edit>, NoMem>
    ensures { IfOk result (λ found. found ≡ read_edit body.now) }
{
    let Some(rest) = behind(EDIT, body) else {
        return Ok(None);
    };
    let Some(edit) = edit_parts(alloc, rest)? else {
        return Ok(None);
    };
    if is_edit(&edit) {
        Ok(Some(edit))
    } else {
        Ok(None)
    }
}

/// Is it within its limits?
pub fn is_edit(edit: &Edit) -> bool
    ensures { result ≡ is_edit_of edit.now }
{
    are_numbers(edit.log, edit.last, edit.floor, edit.next_run)
        && are_all_tables(edit.added.as_slice())
}

/// What an edit's bytes behind its first say, whatever the limits.
fn edit_parts(alloc: Global, bytes: &[u8]) -> Result<Option<Edit>, NoMem>
    ensures { IfOk result (λ found. found ≡ read_edit_parts bytes.now) }
{
    let Some(numbers) = take_numbers(bytes) else {
        return Ok(None);
    };
    let mut ids = Vec::new(alloc);
    let Some(rest) = take_id_list(&mut ids, numbers.behind)? else {
        return Ok(None);
    };
    let mut homes = Vec::new(alloc);
    let Some(rest) = take_home_list(alloc, &mut homes, rest)? else {
        return Ok(None);
    };
    if !rest.is_empty() {
        return Ok(None);
    }
    Ok(Some(Edit {
        log: numbers.log,
        last: numbers.last,
        floor: numbers.floor,
        next_run: numbers.next_run,
        removed: TableNames::from_vec(ids),
        added: Homes::from_vec(homes),
    }))
}

/// What a head says, whatever the limits.
#[derive(Drop)]
struct HeadParts {
    epoch: u64,
    log: u64,
    last: u64,
    floor: u64,
    next_run: u64,
    homes: Vec<Home>,
}

/// The state that a head with this body says; `None` exactly where it is no head's.
///
/// A body is as `encode_head` writes it: the epoch is from 1 to 2^62, the numbers and each table are as an edit's, the
/// tables may stand together and in this order, and each is of a run before the next one. Nothing stands behind.
#[tactic(auto, unfolding(crate::specs::Records::read_state_head))]
pub fn decode_head(alloc: Global, body: &[u8]) -> Result<Option<State>, NoMem>
    ensures { IfOk result (λ found. found ≡ read_state_head body.now) }
{
    let Some(rest) = behind(HEAD, body) else {
        return Ok(None);
    };
    let Some(parts) = head_parts(alloc, rest)? else {
        return Ok(None);
    };
    state_of(alloc, parts)
}

/// What a head's bytes behind its first say, whatever the limits.
fn head_parts(alloc: Global, bytes: &[u8]) -> Result<Option<HeadParts>, NoMem>
    ensures { IfOk result (λ found. option_map (λ p. record { epoch = p.epoch; log = p.log; last = p.last; floor = p.floor; next_run = p.next_run; levels = p.homes.items }) found ≡ read_head_parts bytes.now) }
{
    let Some((epoch, rest)) = take_u64(bytes) else {
        return Ok(None);
    };
    let Some(numbers) = take_numbers(rest) else {
        return Ok(None);
    };
    let mut homes = Vec::new(alloc);
    let Some(rest) = take_home_list(alloc, &mut homes, numbers.behind)? else {
        return Ok(None);
    };
    if !rest.is_empty() {
        return Ok(None);
    }
    Ok(Some(HeadParts {
        epoch,
        log: numbers.log,
        last: numbers.last,
        floor: numbers.floor,
        next_run: numbers.next_run,
        homes,
    }))
}

/// Are the numbers within their limits?
fn are_within(parts: &HeadParts) -> bool
    ensures { result ≡ (nat_le 1 parts.now.epoch && nat_le parts.now.epoch last_epoch && are_numbers_of parts.now.log parts.now.last parts.now.floor parts.now.next_run) }
{
    1 <= parts.epoch
        && parts.epoch <= LAST_EPOCH
        && are_numbers(parts.log, parts.last, parts.floor, parts.next_run)
}

/// The state, where it is within its limits.
fn state_of(alloc: Global, parts: HeadParts) -> Result<Option<State>, NoMem>
    ensures { IfOk result (λ found. found ≡ kept is_state_head (Some (record { epoch = parts.epoch; log = parts.log; last = parts.last; floor = parts.floor; next_run = parts.next_run; levels = parts.homes.items }))) }
{
    if !are_within(&parts) {
        return Ok(None);
    }
    let Some(levels) = Levels::from_homes(alloc, parts.homes)? else {
        return Ok(None);
    };
    if !are_below(parts.next_run, levels.homes()) {
        return Ok(None);
    }
    Ok(Some(State {
        epoch: parts.epoch,
        log: parts.log,
        last: parts.last,
        floor: parts.floor,
        next_run: parts.next_run,
        levels,
    }))
}
