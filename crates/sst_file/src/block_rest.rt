//! What is left of a block whose rows are taken one after the other.

ghost use Rattle.std.specs.Prelude.{◌≡◌, ◌≤◌, ◌<◌, [], List, IfErr, IfOk, IfSome, OnErr, length};
ghost use Rattle.kv_base.specs.declared.row.Row.{Row};
ghost use Rattle.std.specs.Ordering.{is_lt};
ghost use Rattle.kv_base.specs.Map.{byte_cmp};
ghost use Rattle.sst_parts.specs.RowTexts.{rows_text};
ghost use Rattle.sst_parts.specs.Seeking.{AreReadable};
ghost use Rattle.sst_file.specs.Walking.{IsNextTaken, IsOffIn, IsReached, IsTailBehind, text_of_block};

use crate::opening::off;
use kv_base::{Row, StoreFault, TableId, take_text};
use sst_parts::{RowFront, take_row};
use std::alloc::Global;
use std::marker::Model;

/// What is found in what is left of a block.
#[derive(Clone, Copy)]
pub(crate) enum Reached<'a> {
    /// The row, and what is behind it.
    Row(RowFront<'a>),
    /// All rows are below the raw key.
    Behind,
    /// The block is off its grammar.
    Off,
}

/// Is the raw key below the other?
fn is_less(raw: &[u8], other: &[u8]) -> bool
    ensures { result ≡ is_lt (byte_cmp raw.now other.now) }
{
    raw.cmp(other).is_lt()
}

/// The first row that is not below a raw key. The rows are read where they lie, and none is copied.
fn reach<'a>(body: &'a [u8], raw: &[u8]) -> Reached<'a>
    ensures row { (rows : List Row) → AreReadable rows → body.entry.now ≡ rows_text rows → IsReached raw.now rows result }
    ensures tail { IsTailBehind body.entry.now result }
{
    let mut rest = body;
    while !rest.is_empty() {
        let Some(front) = take_row(rest) else {
            return Reached::Off;
        };
        if !is_less(front.row.raw, raw) {
            return Reached::Row(front);
        }
        rest = front.behind;
    }
    Reached::Behind
}

/// What is left of a block. Contracts see its bytes.
#[derive(Drop)]
pub(crate) struct BlockRest {
    /// Where the block stands in the file.
    place: u64,
    block: Vec<u8>,
    /// Where in the block that begins which is left.
    at: usize,
}

impl Model for BlockRest {
    ghost use Rattle.std.specs.Prelude.{◌≤◌, List, ℕ, drop, length};
    ghost use Rattle.std.specs.Coded.{coded_list, coded_ℕ};

    ghost Value = { List ℕ };

    ghost coded = { coded_list coded_ℕ };

    ghost view = { λ rest. drop rest.at rest.block.items };

    ghost invariant = { λ rest. rest.at ≤ length rest.block.items };
}

impl BlockRest {
    /// Nothing is left.
    pub fn none(alloc: Global) -> BlockRest
        ensures { result ≡ [] }
    {
        BlockRest {
            place: 0,
            block: Vec::new(alloc),
            at: 0,
        }
    }

    /// The body of a block, which stands behind its length. There is none exactly where these bytes are not a text.
    pub fn of_block(place: u64, block: Vec<u8>) -> Option<BlockRest>
        ensures { result ≡ text_of_block block.items }
    {
        let bytes = block.as_slice();
        let (body, behind) = take_text(bytes)?;
        if !behind.is_empty() {
            return None;
        }
        let at = bytes.len() - body.len();
        Some(BlockRest { place, block, at })
    }

    /// Takes the first row that is not below a raw key, and those in front of it. Where there is none nothing is left,
    /// and a fault takes nothing.
    pub fn take(
        &mut self,
        alloc: Global,
        id: TableId,
        raw: &[u8],
    ) -> Result<Option<Row>, StoreFault>
        ensures taken { IfOk result (λ row. (rows : List Row) → AreReadable rows → self.old ≡ rows_text rows → IsNextTaken raw.now rows row self.new) }
        ensures unchanged { OnErr result (self.new ≡ self.old) }
        ensures left { length self.new ≤ length self.old }
        ensures nearer { IfOk result (λ row. IfSome row (λ _. length self.new < length self.old)) }
        ensures fault { IfErr result (IsOffIn id self.old) }
    {
        let (_, left) = self.block.as_slice().split_at(self.at);
        match reach(left, raw) {
            Reached::Row(front) => {
                let row = front.row.copy(alloc)?;
                let behind = front.behind.len();
                self.at = self.block.len() - behind;
                Ok(Some(row))
            }
            Reached::Behind => {
                self.at = self.block.len();
                Ok(None)
            }
            Reached::Off => Err(off(id, self.place)),
        }
    }
}
