ghost use Rattle.std.specs.Prelude.{◌≡◌, ◌≤◌, ◌<◌, [], ◌∷◌, IfOk, IsTrue, Some, None, true, length, option_map};
ghost use Rattle.kv_base.specs.Map.{kept};
ghost use Rattle.level_set.specs.Edits.{tables_after, with_tables, tables_without};
ghost use Rattle.level_set.specs.Tables.{lesser};
ghost use Rattle.level_set.specs.Tables.{are_tables, at_level, count_at};

use crate::edit::Edit;
use crate::home::Home;
use crate::order::{are_below, is_first};
use crate::place::{stands_at, stands_next};
use kv_base::{NoMem, TableId};
use std::alloc::Global;
use std::collections::HashSet;
use std::marker::Model;

/// The tables of a store by their levels: one level after the other, level 0 newest first and the others by ascending raw
/// keys. Contracts see the list of them.
///
/// No two are one table, those of level 0 have different runs, and the ranges of those of levels 1 to 4 are disjoint.
#[derive(Drop)]
pub struct Levels {
    homes: Vec<Home>,
}

impl Model for Levels {
    ghost use Rattle.std.specs.Prelude.{List, IsTrue};
    ghost use Rattle.level_set.specs.declared.home.Home.{Home};
    ghost use Rattle.level_set.specs.Tables.{lesser};
    ghost use Rattle.level_set.specs.Tables.{are_tables};

    ghost Value = { List Home };

    ghost view = { λ l. l.homes.items };

    ghost invariant = { λ l. IsTrue (are_tables l.homes.items) };
}

/// Those that stay when these go; `None` exactly where one that is to go isn't there, or where those that are to go don't
/// stand in the tables' order.
fn without(alloc: Global, homes: &[Home], removed: &[TableId]) -> Result<Option<Vec<Home>>, NoMem>
    ensures { IfOk result (λ staying. option_map (λ homes. homes.items) staying ≡ tables_without homes.now removed.now) }
{
    let mut staying = Vec::new(alloc);
    let mut left = removed;
    for home in homes {
        if is_first(home.desc.id, left) {
            let (_, behind) = left.split_at(1);
            left = behind;
        } else {
            staying.push(home.try_copy(alloc)?)?;
        }
    }
    if left.is_empty() {
        Ok(Some(staying))
    } else {
        Ok(None)
    }
}

/// The tables with each of these at its place; `None` exactly where one may not stand there.
fn with_tables(alloc: Global, homes: Vec<Home>, added: &[Home]) -> Result<Option<Vec<Home>>, NoMem>
    requires { are_tables homes.items ≡ true }
    ensures { IfOk result (λ after. option_map (λ homes. homes.items) after ≡ with_tables homes.items added.now) }
{
    let mut now = homes;
    for home in added {
        let Some(at) = stands_at(now.as_slice(), home) else {
            return Ok(None);
        };
        now.insert(at, home.try_copy(alloc)?)?;
    }
    Ok(Some(now))
}

impl Levels {
    /// No table at all, which takes no memory.
    #[tactic(auto, using(crate::specs::EditLaws::tables_none))]
    pub fn new(alloc: Global) -> Levels
        ensures { result ≡ [] }
    {
        Levels {
            homes: Vec::new(alloc),
        }
    }

    /// These tables, as they stand; `None` exactly where they may not stand together, or not in this order.
    ///
    /// Each is held against the one in front of it alone, and names that come twice are found by a table of them. It fails
    /// only where memory is short.
    pub fn from_homes(alloc: Global, homes: Vec<Home>) -> Result<Option<Levels>, NoMem>
        ensures { IfOk result (λ found. found ≡ kept are_tables (Some homes.items)) }
    {
        let mut names = HashSet::new(alloc);
        for at in 0..homes.len() {
            let (front, _) = homes.as_slice().split_at(at);
            let home = &homes[at];
            if !stands_next(front, home) {
                return Ok(None);
            }
            if !names.insert((home.desc.id.run, home.desc.id.part))? {
                return Ok(None);
            }
        }
        Ok(Some(Levels { homes }))
    }

    /// The tables, level after level.
    pub fn homes(&self) -> &[Home]
        ensures all { result.now ≡ self.now }
        ensures order { are_tables self.now ≡ true }
    {
        self.homes.as_slice()
    }

    /// The tables after an edit; `None` exactly where those of the edit, or those that stay, are off the rules: one that
    /// it removes isn't there, one that it adds may not stand there, or a run is not below the next one.
    pub fn after(&self, alloc: Global, edit: &Edit) -> Result<Option<Levels>, NoMem>
        ensures { IfOk result (λ after. after ≡ tables_after self.now edit.now) }
    {
        let Some(staying) = without(alloc, self.homes(), edit.removed.as_slice())? else {
            return Ok(None);
        };
        let Some(homes) = with_tables(alloc, staying, edit.added.as_slice())? else {
            return Ok(None);
        };
        if are_below(edit.next_run, homes.as_slice()) {
            Ok(Some(Levels { homes }))
        } else {
            Ok(None)
        }
    }

    /// The place of the first table that is not of a lesser level.
    fn first_from(&self, level: u8) -> usize
        ensures place { result ≡ lesser level self.now }
        ensures within { result ≤ length self.now }
        ensures order { are_tables self.now ≡ true }
    {
        let homes = self.homes();
        for at in 0..homes.len() {
            if homes[at].level >= level {
                return at;
            }
        }
        homes.len()
    }

    /// The tables of a level, as they stand.
    pub fn level(&self, level: u8) -> &[Home]
        requires { level ≤ 4 }
        ensures own { result.now ≡ at_level level self.now }
        ensures order { are_tables self.now ≡ true }
    {
        let from = self.first_from(level);
        let to = self.first_from(level + 1);
        let (_, behind) = self.homes().split_at(from);
        let (own, _) = behind.split_at(to - from);
        own
    }

    /// How many tables a level has.
    fn count(&self, level: u8) -> u64
        ensures { result ≡ count_at level self.now }
    {
        let mut count: u64 = 0;
        for home in self.homes() {
            count += u64::from(home.level == level);
        }
        count
    }

    /// How many tables each level has, from 0 to 4.
    pub fn counts(&self) -> [u64; 5]
        ensures { result ≡ count_at 0 self.now ∷ count_at 1 self.now ∷ count_at 2 self.now ∷ count_at 3 self.now ∷ count_at 4 self.now ∷ [] }
    {
        [
            self.count(0),
            self.count(1),
            self.count(2),
            self.count(3),
            self.count(4),
        ]
    }
}
