ghost use Rattle.std.specs.Prelude.{◌≡◌, ◌≤◌, ◌<◌, ◌+◌, ℕ, true, false, filter, length, MatchOption};
ghost use Rattle.std.specs.List.{slice_range};
ghost use Rattle.level_set.specs.Tables.{at_level};
ghost use Rattle.level_set.specs.Choices.{ArePlacesWithin, IsChoice, IsOldest, IsPicked, IsTaken, IsWholeChoice, is_due, is_overlapped};

use crate::levels::Levels;
use crate::oldest::oldest;
use crate::overlap::overlap;

/// The deepest level that a compaction takes from.
const LAST_FROM: u8 = 3;

/// Tables that a compaction takes: those of its level at the places `from` up to but without `to`, and those of the next
/// level at `next_from` up to but without `next_to`.
#[derive(Clone, Copy, Debug, PartialEq, Eq)]
pub struct Choice {
    pub level: u8,
    pub from: usize,
    pub to: usize,
    pub next_from: usize,
    pub next_to: usize,
}

impl Levels {
    /// The tables at these places of a level, with those of the next one that overlap the least range which covers them.
    fn choice(&self, level: u8, from: usize, to: usize) -> Choice
        requires level { level ≤ LAST_FROM }
        requires places { ArePlacesWithin from to (at_level level self.now) }
        ensures choice { IsChoice self.now level result }
        ensures from { result.from ≡ from }
        ensures to { result.to ≡ to }
    {
        let (_, behind) = self.level(level).split_at(from);
        let (chosen, _) = behind.split_at(to - from);
        let next = overlap(chosen, self.level(level + 1));
        Choice {
            level,
            from,
            to,
            next_from: next.from,
            next_to: next.to,
        }
    }

    /// All tables of a level, which is one of 0 to 3.
    pub fn whole(&self, level: u8) -> Choice
        requires { level ≤ LAST_FROM }
        ensures { IsWholeChoice self.now level result }
    {
        self.choice(level, 0, self.level(level).len())
    }

    /// What is taken of a level that is due: of level 0 all tables, of another the one of the least run and then the least
    /// part.
    fn due_choice(&self, level: u8) -> Choice
        requires level { level ≤ LAST_FROM }
        requires due { is_due level self.now ≡ true }
        ensures { IsTaken self.now level result }
    {
        if level == 0 {
            return self.whole(0);
        }
        let at = oldest(self.level(level));
        self.choice(level, at, at + 1)
    }

    /// What is to be compacted next: of the least level that is due, level 0 whole, of another the table of the least run
    /// and then the least part; and with them those of the next level that overlap the least range which covers them.
    /// `None` exactly where no level is due.
    ///
    /// Level 0 is due with four tables, and levels 1 to 3 with 4,194,304, 41,943,040 and 419,430,400 bytes in their files.
    pub fn pick(&self) -> Option<Choice>
        ensures { MatchOption result ((level : ℕ) → is_due level self.now ≡ false) (IsPicked self.now) }
    {
        for level in 0..=LAST_FROM {
            if self.is_due(level) {
                return Some(self.due_choice(level));
            }
        }
        None
    }
}
