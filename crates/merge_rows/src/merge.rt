ghost use Rattle.std.specs.Prelude.{◌≡◌, ◌≤◌, ◌+◌, IfOk, IfErr, OnOk, length, map};
ghost use Rattle.std.specs.BinaryHeap.{IsHeap, IsHeap-prop, heap_items, heap_len, heap_capacity};
ghost use Rattle.std.specs.List.{list_any};
ghost use Rattle.std.specs.List.Sorted.{IsPermutation};
ghost use Rattle.std.specs.Vec.{vec_len, vec_capacity};
ghost use Rattle.kv_outside.specs.Disk.{NothingNew};
ghost use Rattle.kv_outside.specs.Causes.{IsCause};
ghost use Rattle.merge_rows.specs.Cursors.{with_held};
ghost use Rattle.merge_rows.specs.Heads.{head_cmp};
ghost use Rattle.merge_rows.specs.Merged.{AreDistinct, all_told_rows, merged_rows};
ghost use Rattle.merge_rows.specs.MergedLaws.{AreDistinct-prop};
ghost use Rattle.merge_rows.specs.Parts.{is_off, part_lists, cursor_parts, count_left};

use crate::cursor::{Cursor, Upcoming};
use crate::head::Head;
use kv_base::{NoMem, Row, StoreFault};
use kv_outside::Files;
use std::alloc::Global;
use std::collections::BinaryHeap;

/// The rows of many cursors, as one cursor that gives them in order. A row costs time by the logarithm of their number.
///
/// There is room for each cursor in both lists, so that moving one from list to list takes no memory.
#[derive(Drop)]
pub struct Merge<C: Upcoming> {
    /// Those whose next row is not read yet.
    waiting: Vec<C>,
    /// Those whose next row is read, the least one on top.
    ready: BinaryHeap<Head<C>>,
    ghost distinct: { AreDistinct (all_told_rows (part_lists (cursor_parts C.rows C.off waiting.items (heap_items ready) (λ h. h.row) (λ h. h.cursor)))) } by { AreDistinct-prop (all_told_rows (part_lists (cursor_parts C.rows C.off waiting.items (heap_items ready) (λ h. h.row) (λ h. h.cursor)))) },
    ghost heap: { IsHeap (λ x y. head_cmp x.row y.row) (heap_items ready) } by { IsHeap-prop (λ x y. head_cmp x.row y.row) (heap_items ready) },
    ghost room: { (vec_len waiting + heap_len ready ≤ vec_capacity waiting) × (vec_len waiting + heap_len ready ≤ heap_capacity ready) },
}

impl<C: Upcoming> Upcoming for Merge<C> {
    ghost rows = { λ m. merged_rows (part_lists (cursor_parts C.rows C.off m.waiting.items (heap_items m.ready) (λ h. h.row) (λ h. h.cursor))) };

    ghost off = { λ m. is_off (cursor_parts C.rows C.off m.waiting.items (heap_items m.ready) (λ h. h.row) (λ h. h.cursor)) };

    ghost left = { λ m. count_left C.left m.waiting.items (heap_items m.ready) (λ h. h.row) (λ h. h.cursor) };
}

impl<C: Upcoming + Drop> Merge<C> {
    /// The rows of these cursors. No two rows of them have both raw key and sequence equal. Where there is no memory
    /// the cursors are dropped.
    pub fn new(alloc: Global, cursors: Vec<C>) -> Result<Merge<C>, NoMem>
        requires distinct { AreDistinct (all_told_rows (map C.rows cursors.items)) }
        ensures rows { IfOk result (λ m. ⟦<Merge<C> as Upcoming>⟧.rows m ≡ merged_rows (map C.rows cursors.items)) }
        ensures off { IfOk result (λ m. ⟦<Merge<C> as Upcoming>⟧.off m ≡ (λ file place. list_any (λ c. C.off c file place) cursors.items)) }
    {
        let ready = BinaryHeap::with_capacity(alloc, cursors.len())?;
        Ok(Merge {
            waiting: cursors,
            ready,
        })
    }
}

/// Reads the next row of each cursor that waits. After a fault some of them still wait.
fn read_heads<F: Files, C: Cursor<F> + Drop>(
    alloc: Global,
    files: &mut F,
    waiting: &mut Vec<C>,
    ready: &mut BinaryHeap<Head<C>>,
) -> Result<(), StoreFault>
    requires heap { IsHeap (λ x y. head_cmp x.row y.row) (heap_items ready.old) }
    requires room { (vec_len waiting.old + heap_len ready.old ≤ vec_capacity waiting.old) × (vec_len waiting.old + heap_len ready.old ≤ heap_capacity ready.old) }
    ensures parts { IsPermutation (cursor_parts C.rows C.off waiting.old.items (heap_items ready.old) (λ h. h.row) (λ h. h.cursor)) (cursor_parts C.rows C.off waiting.new.items (heap_items ready.new) (λ h. h.row) (λ h. h.cursor)) }
    ensures read { OnOk result (vec_len waiting.new ≡ 0) }
    ensures heap { IsHeap (λ x y. head_cmp x.row y.row) (heap_items ready.new) }
    ensures count { vec_len waiting.new + heap_len ready.new ≡ vec_len waiting.old + heap_len ready.old }
    ensures room { (vec_capacity waiting.old ≤ vec_capacity waiting.new) × (heap_capacity ready.old ≤ heap_capacity ready.new) }
    ensures left { count_left C.left waiting.new.items (heap_items ready.new) (λ h. h.row) (λ h. h.cursor) ≤ count_left C.left waiting.old.items (heap_items ready.old) (λ h. h.row) (λ h. h.cursor) }
    ensures disk { NothingNew (F.disk files.old) (F.disk files.new) }
    ensures cause { IfErr result (λ fault. IsCause (F.faults files.old) (F.faults files.new) (is_off (cursor_parts C.rows C.off waiting.old.items (heap_items ready.old) (λ h. h.row) (λ h. h.cursor))) fault) }
    ensures later { F.faults files.old ≤ F.faults files.new }
{
    // Both lists have room for each cursor, so that no push fails.
    while let Some(mut cursor) = waiting.pop() {
        match cursor.step(alloc, files) {
            Ok(row) => {
                let _ = ready.push(Head { row, cursor });
            }
            Err(fault) => {
                let _ = waiting.push(cursor);
                return Err(fault);
            }
        }
    }
    Ok(())
}

impl<F: Files, C: Cursor<F> + Drop> Cursor<F> for Merge<C> {
    fn step(&mut self, alloc: Global, files: &mut F) -> Result<Option<Row>, StoreFault> {
        read_heads(alloc, files, &mut self.waiting, &mut self.ready)?;
        let Some(head) = self.ready.pop() else {
            return Ok(None);
        };
        let Head { row, cursor } = head;
        // There is room for it, as above.
        let _ = self.waiting.push(cursor);
        Ok(row)
    }
}
