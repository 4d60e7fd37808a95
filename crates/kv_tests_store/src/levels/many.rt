//! Levels of ten thousand tables.
use kv_base::{Blob, TableDesc, TableId};
use level_set::{Choice, Edit, Home, Homes, Levels, TableNames};
use std::alloc::Global;
use std::test::Fail;

/// How many tables level 2 has.
const MANY: u32 = 10_000;

/// A raw key, by a number in whose order they stand.
fn raw(alloc: Global, number: u32) -> Result<Blob, Fail> {
    let [a, b, c, d] = number.to_be_bytes();
    Ok(Blob::copy(alloc, &[0x6D, 0, a, b, c, d])?)
}

/// A table from one number to another.
fn home(alloc: Global, level: u8, run: u64, from: u32, to: u32) -> Result<Home, Fail> {
    Ok(Home {
        level,
        desc: TableDesc {
            id: TableId { run, part: 0 },
            rows: 2,
            bytes: 113,
            least: raw(alloc, from)?,
            greatest: raw(alloc, to)?,
        },
    })
}

/// Level 2 with many tables: the one at a place goes from ten times the place to five more, and its run is one more.
fn many(alloc: Global) -> Result<Vec<Home>, Fail> {
    let mut homes = Vec::new(alloc);
    for at in 0..MANY {
        let from = at.saturating_mul(10);
        let run = u64::from(at).saturating_add(1);
        homes.push(home(alloc, 2, run, from, from.saturating_add(5))?)?;
    }
    Ok(homes)
}

fn many_levels(alloc: Global) -> Result<Levels, Fail> {
    Ok(Levels::from_homes(alloc, many(alloc)?)?.ok_or("tables in order")?)
}

/// The levels with one table more, if it may stand there.
fn with(alloc: Global, levels: &Levels, added: Home) -> Result<Option<Levels>, Fail> {
    let mut homes = Homes::new(alloc);
    homes.push(added)?;
    let edit = Edit {
        log: 1,
        last: 0,
        floor: 0,
        next_run: 100_000,
        removed: TableNames::new(alloc),
        added: homes,
    };
    Ok(levels.after(alloc, &edit)?)
}

/// The run of the table at a place.
fn run_at(levels: &Levels, at: usize) -> Option<u64> {
    match levels.homes().get(at) {
        Some(home) => Some(home.desc.id.run),
        None => None,
    }
}

#[test]
fn what_overlaps_is_found_among_many(rt: HostRuntime) -> Result<(), Fail> {
    let alloc = rt.alloc();
    let levels = with(
        alloc,
        &many_levels(alloc)?,
        home(alloc, 1, 20_000, 20_003, 20_017)?,
    )?
    .ok_or("a table of level 1")?;
    assert_eq!(rt; levels.counts(), [0, 1, 10_000, 0, 0]);
    let whole = Choice {
        level: 1,
        from: 0,
        to: 1,
        next_from: 2_000,
        next_to: 2_002,
    };
    assert_eq!(rt; levels.whole(1), whole);
    Ok(())
}

#[test]
fn a_table_comes_in_among_many(rt: HostRuntime) -> Result<(), Fail> {
    let alloc = rt.alloc();
    let levels = many_levels(alloc)?;
    let more = with(alloc, &levels, home(alloc, 2, 20_000, 20_006, 20_009)?)?.ok_or("a gap")?;
    assert_eq!(rt; run_at(&more, 2_000), Some(2_001));
    assert_eq!(rt; run_at(&more, 2_001), Some(20_000));
    assert_eq!(rt; run_at(&more, 2_002), Some(2_002));
    let touches_front = home(alloc, 2, 20_000, 20_005, 20_009)?;
    assert!(rt; with(alloc, &levels, touches_front)?.is_none());
    let touches_behind = home(alloc, 2, 20_000, 20_006, 20_010)?;
    assert!(rt; with(alloc, &levels, touches_behind)?.is_none());
    let named_twice = home(alloc, 2, 1, 20_006, 20_009)?;
    assert!(rt; with(alloc, &levels, named_twice)?.is_none());
    Ok(())
}

#[test]
fn two_tables_of_one_name_are_no_levels(rt: HostRuntime) -> Result<(), Fail> {
    let alloc = rt.alloc();
    let mut homes = many(alloc)?;
    homes.push(home(alloc, 3, 1, 0, 1)?)?;
    assert!(rt; Levels::from_homes(alloc, homes)?.is_none());
    Ok(())
}
