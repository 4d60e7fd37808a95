//! What is chosen of small levels.
use kv_base::{Blob, TableDesc, TableId};
use level_set::{Choice, Edit, Home, Homes, Levels, TableNames};
use std::alloc::Global;
use std::test::Fail;

mod many;

/// A table whose raw keys are the metadata of one letter to another.
fn home(alloc: Global, level: u8, run: u64, bytes: u64, from: u8, to: u8) -> Result<Home, Fail> {
    Ok(Home {
        level,
        desc: TableDesc {
            id: TableId { run, part: 0 },
            rows: 2,
            bytes,
            least: Blob::copy(alloc, &[0x6D, 0, from])?,
            greatest: Blob::copy(alloc, &[0x6D, 0, to])?,
        },
    })
}

/// The levels with a table more, which may stand there.
fn put(
    alloc: Global,
    levels: &Levels,
    level: u8,
    run: u64,
    bytes: u64,
    from: u8,
    to: u8,
) -> Result<Levels, Fail> {
    let mut added = Homes::new(alloc);
    added.push(home(alloc, level, run, bytes, from, to)?)?;
    let edit = Edit {
        log: 1,
        last: 0,
        floor: 0,
        next_run: 100,
        removed: TableNames::new(alloc),
        added,
    };
    Ok(levels.after(alloc, &edit)?.ok_or("a table")?)
}

/// Two tables of level 1, and four of level 2.
fn two_levels(alloc: Global) -> Result<Levels, Fail> {
    let levels = Levels::new(alloc);
    let levels = put(alloc, &levels, 1, 7, 4_194_303, b'a', b'c')?;
    let levels = put(alloc, &levels, 1, 6, 1, b'k', b'm')?;
    let levels = put(alloc, &levels, 2, 1, 9, b'a', b'b')?;
    let levels = put(alloc, &levels, 2, 2, 9, b'j', b'k')?;
    let levels = put(alloc, &levels, 2, 3, 9, b'm', b'n')?;
    put(alloc, &levels, 2, 4, 9, b'o', b'p')
}

#[test]
fn the_oldest_goes_with_what_it_overlaps(rt: HostRuntime) -> Result<(), Fail> {
    let alloc = rt.alloc();
    assert_eq!(rt; Levels::new(alloc).pick(), None);
    let levels = two_levels(alloc)?;
    assert_eq!(rt; levels.counts(), [0, 2, 4, 0, 0]);
    let picked = Choice {
        level: 1,
        from: 1,
        to: 2,
        next_from: 1,
        next_to: 3,
    };
    assert_eq!(rt; levels.pick(), Some(picked));
    let whole = Choice {
        level: 1,
        from: 0,
        to: 2,
        next_from: 0,
        next_to: 3,
    };
    assert_eq!(rt; levels.whole(1), whole);
    Ok(())
}
