//! The rows of several cursors as those of one, where there is memory.

use kv_base::{Row, RowRef, StoreFault};
use kv_fakes::{Calls, MemDisk};
use kv_outside::Files;
use merge_rows::{Ahead, Cursor, Merge, Upcoming};
use std::alloc::Global;
use std::test::Fail;

const A: &[u8] = b"\x6D\x00\x61";

const B: &[u8] = b"\x6D\x00\x62";

/// Rows of which nothing is told, given from the last one on.
#[derive(Drop)]
struct UntoldRows {
    rows: Vec<Row>,
}

impl Upcoming for UntoldRows {
    ghost use Rattle.std.specs.Prelude.{None, false, length};

    ghost rows = { λ q. None };

    ghost off = { λ _ _ _. false };

    ghost left = { λ q. length q.rows.items };
}

impl<F: Files> Cursor<F> for UntoldRows {
    #[tactic(auto, using(kv_outside::specs::RunLaws::nothing_new))]
    fn step(&mut self, _alloc: Global, _files: &mut F) -> Result<Option<Row>, StoreFault> {
        Ok(self.rows.pop())
    }
}

fn delete(raw: &'static [u8], seq: u64) -> RowRef<'static> {
    RowRef {
        raw,
        seq,
        value: None,
    }
}

fn rows_of(alloc: Global, rows: &[RowRef<'_>]) -> Result<UntoldRows, Fail> {
    let mut copies = Vec::new(alloc);
    for row in rows {
        copies.push(row.copy(alloc)?)?;
    }
    Ok(UntoldRows { rows: copies })
}

#[test]
fn rows_of_cursors_are_merged(rt: HostRuntime) -> Result<(), Fail> {
    let alloc = rt.alloc();
    let mut files = MemDisk::new(alloc, Calls::new(alloc));
    let one = rows_of(alloc, &[delete(B, 1), delete(A, 2), delete(A, 9)])?;
    let other = rows_of(alloc, &[delete(B, 3), delete(A, 5)])?;
    let mut merge = Ahead::new(Merge::new(alloc, vec![in alloc; one, other]?)?);
    let wanted = [
        delete(A, 9),
        delete(A, 5),
        delete(A, 2),
        delete(B, 3),
        delete(B, 1),
    ];
    for row in wanted {
        merge.peek(alloc, &mut files)?;
        assert_eq!(rt; merge.shown().map(|row| row.by_ref()), Some(row));
        let taken = merge.step(alloc, &mut files)?.ok_or("a row")?;
        assert_eq!(rt; taken.by_ref(), row);
    }
    assert!(rt; merge.step(alloc, &mut files)?.is_none());
    Ok(())
}
