//! Where a table ends before its rows do.

ghost use Rattle.std.specs.Prelude.{◌≡◌, List, length, nat_le};
ghost use Rattle.kv_base.specs.declared.row.Row.{Row};
ghost use Rattle.sst_parts.specs.RowTexts.{rows_text};
ghost use Rattle.sst_writer.specs.Building.{IsBuilt};
ghost use Rattle.sst_writer.specs.Cutting.{ends_before};

use crate::building::TableBuilder;
use kv_base::Row;
use sst_parts::HEAD;

/// Does the table end before this row? It does where it has so many bytes in its bodies as the limit says, and the row
/// is of another raw key.
pub(crate) fn ends_before(table: &TableBuilder, limit: Option<u64>, row: &Row) -> bool
    ensures { (rows : List Row) → IsBuilt table.now.end table.now.block table.now.spots.items table.now.sums.rows table.now.sums.keys.items table.now.sums.least table.now.sums.last rows → result ≡ ends_before limit rows row.now }
{
    let Some(limit) = limit else {
        return false;
    };
    let Some(last) = &table.sums.last else {
        return false;
    };
    is_reached(table, limit) && last.raw.bytes().cmp(row.raw.bytes()).is_ne()
}

/// Have the bodies of the table's blocks so many bytes, that of the open one counted?
fn is_reached(table: &TableBuilder, limit: u64) -> bool
    ensures { (rows : List Row) → IsBuilt table.now.end table.now.block table.now.spots.items table.now.sums.rows table.now.sums.keys.items table.now.sums.least table.now.sums.last rows → result ≡ nat_le limit (length (rows_text rows)) }
{
    // Before each body stands its length.
    let others = (table.spots.len() as u64)
        .saturating_mul(4)
        .saturating_add(HEAD.len() as u64);
    limit.saturating_sub(table.end.saturating_sub(others)) <= table.block.len() as u64
}
