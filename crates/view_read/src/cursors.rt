//! A cursor of each source.

ghost use Rattle.std.specs.Prelude.{◌≡◌, ◌++◌, ◌∷◌, [], IfOk, OnOk, map};
ghost use Rattle.view_read.specs.AnyCursors.{any_part};
ghost use Rattle.view_read.specs.Sources.{all_tables};
ghost use Rattle.view_read.specs.SourceParts.{frozen_parts, memory_part, table_parts};

use crate::any_cursor::AnyCursor;
use kv_base::NoMem;
use kv_outside::Files;
use mem_cursor::MemoryRows;
use mem_table::MemTable;
use sst_file::Table;
use std::alloc::Global;

/// The rows of a memtable too, from a raw key on.
fn push_memory<'a, F: Files>(
    cursors: &mut Vec<AnyCursor<'a, F>>,
    table: &'a MemTable,
    raw: &[u8],
) -> Result<(), NoMem>
    ensures { OnOk result (map any_part cursors.new.items ≡ map any_part cursors.old.items ++ memory_part raw.now table.now ∷ []) }
{
    cursors.push(AnyCursor::InMemory(MemoryRows::of_table(table, raw)))?;
    Ok(())
}

/// The rows of these tables too.
fn push_tables<F: Files>(
    alloc: Global,
    cursors: &mut Vec<AnyCursor<'_, F>>,
    tables: &[Table<F>],
    raw: &[u8],
) -> Result<(), NoMem>
    ensures { OnOk result (map any_part cursors.new.items ≡ map any_part cursors.old.items ++ table_parts raw.now tables.now) }
{
    for table in tables {
        cursors.push(AnyCursor::InTable(table.rows_from(alloc, raw)?))?;
    }
    Ok(())
}

/// The rows of the tables of these levels too.
fn push_levels<F: Files>(
    alloc: Global,
    cursors: &mut Vec<AnyCursor<'_, F>>,
    levels: &[Vec<Table<F>>],
    raw: &[u8],
) -> Result<(), NoMem>
    ensures { OnOk result (map any_part cursors.new.items ≡ map any_part cursors.old.items ++ table_parts raw.now (all_tables (map (λ level. level.items) levels.now))) }
{
    for level in levels {
        push_tables(alloc, cursors, level.as_slice(), raw)?;
    }
    Ok(())
}

/// Cursors of the rows in memory, from a raw key on.
fn memory_cursors<'a, F: Files>(
    alloc: Global,
    memory: &'a MemTable,
    frozen: &'a Option<MemTable>,
    raw: &[u8],
) -> Result<Vec<AnyCursor<'a, F>>, NoMem>
    ensures { IfOk result (λ cursors. map any_part cursors.items ≡ memory_part raw.now memory.now ∷ frozen_parts raw.now frozen.now) }
{
    let mut cursors = Vec::new(alloc);
    push_memory(&mut cursors, memory, raw)?;
    if let Some(frozen) = frozen {
        push_memory(&mut cursors, frozen, raw)?;
    }
    Ok(cursors)
}

/// A cursor of each source, from a raw key on.
pub(crate) fn source_cursors<'a, F: Files>(
    alloc: Global,
    memory: &'a MemTable,
    frozen: &'a Option<MemTable>,
    levels: &[Vec<Table<F>>],
    raw: &[u8],
) -> Result<Vec<AnyCursor<'a, F>>, NoMem>
    ensures { IfOk result (λ cursors. map any_part cursors.items ≡ (memory_part raw.now memory.now ∷ frozen_parts raw.now frozen.now) ++ table_parts raw.now (all_tables (map (λ level. level.items) levels.now))) }
{
    let mut cursors = memory_cursors(alloc, memory, frozen, raw)?;
    push_levels(alloc, &mut cursors, levels, raw)?;
    Ok(cursors)
}
