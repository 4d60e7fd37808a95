//! Rows as a table file has them.

ghost use Rattle.std.specs.Prelude.{◌≡◌, ◌≤◌, ◌++◌, OnOk, length, option_map};
ghost use Rattle.kv_base.specs.RowRefs.{row_seen};
ghost use Rattle.sst_parts.specs.RowTexts.{read_row, row_text, row_seq_behind, row_value_behind};

use kv_base::{RowRef, take_text, take_u64};

/// What a row begins with that puts a value.
pub(crate) const PUT: u8 = 1;

/// What a row begins with that deletes.
pub(crate) const DELETE: u8 = 0;

/// A row in front of some bytes, and what is behind it.
#[derive(Clone, Copy)]
pub struct RowFront<'a> {
    pub row: RowRef<'a>,
    pub behind: &'a [u8],
}

/// The row in front of these bytes; `None` exactly where none is.
#[tactic(auto, unfolding(crate::specs::RowTexts::read_row))]
pub fn take_row(bytes: &[u8]) -> Option<RowFront<'_>>
    ensures { option_map (λ front. (row_seen front.row, front.behind.now)) result ≡ read_row bytes.now }
{
    let (mark, rest) = bytes.split_first()?;
    let (raw, rest) = take_text(rest)?;
    take_seq(*mark, raw, rest)
}

fn take_seq<'a>(mark: u8, raw: &'a [u8], bytes: &'a [u8]) -> Option<RowFront<'a>>
    ensures { option_map (λ front. (row_seen front.row, front.behind.now)) result ≡ row_seq_behind mark (raw.now, bytes.now) }
{
    let (seq, rest) = take_u64(bytes)?;
    take_value(mark, raw, seq, rest)
}

fn take_value<'a>(mark: u8, raw: &'a [u8], seq: u64, bytes: &'a [u8]) -> Option<RowFront<'a>>
    ensures { option_map (λ front. (row_seen front.row, front.behind.now)) result ≡ row_value_behind mark raw.now (seq, bytes.now) }
{
    match mark {
        PUT => {
            let (value, behind) = take_text(bytes)?;
            Some(RowFront {
                row: RowRef {
                    raw,
                    seq,
                    value: Some(value),
                },
                behind,
            })
        }
        DELETE => Some(RowFront {
            row: RowRef {
                raw,
                seq,
                value: None,
            },
            behind: bytes,
        }),
        _ => None,
    }
}
