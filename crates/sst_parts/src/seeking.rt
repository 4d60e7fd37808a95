//! Seeking a row in a block's body.

ghost use Rattle.std.specs.Prelude.{◌≡◌, List};
ghost use Rattle.kv_base.specs.declared.row.Row.{Row};
ghost use Rattle.row_model.specs.RowOrder.{is_before};
ghost use Rattle.kv_base.specs.RowRefs.{row_seen};
ghost use Rattle.sst_parts.specs.RowTexts.{rows_text};
ghost use Rattle.sst_parts.specs.Seeking.{AreReadable, IsSought, first_from};

use crate::row::take_row;
use kv_base::RowRef;

/// What is found in a body.
#[derive(Clone, Copy, Debug)]
pub enum Sought<'a> {
    /// The row.
    Row(RowRef<'a>),
    /// All rows stand in front of the place that is sought.
    Behind,
    /// The body is off its grammar.
    Off,
}

/// The first row of a body that does not stand in front of a raw key at a sequence.
///
/// The rows are read from the body's bytes, and none is copied.
pub fn seek<'a>(body: &'a [u8], raw: &[u8], seq: u64) -> Sought<'a>
    ensures { (rows : List Row) → AreReadable rows → body.entry.now ≡ rows_text rows → IsSought (first_from raw.now seq rows) result }
{
    let mut rest = body;
    while !rest.is_empty() {
        let Some(front) = take_row(rest) else {
            return Sought::Off;
        };
        if !is_before(front.row, raw, seq) {
            return Sought::Row(front.row);
        }
        rest = front.behind;
    }
    Sought::Behind
}

/// Does the row stand in front of the place of the raw key at the sequence?
fn is_before(row: RowRef<'_>, raw: &[u8], seq: u64) -> bool
    ensures { result ≡ is_before raw.now seq (row_seen row.entry) }
{
    row.raw.cmp(raw).then(seq.cmp(&row.seq)).is_lt()
}
