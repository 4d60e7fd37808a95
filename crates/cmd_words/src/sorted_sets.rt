ghost use Rattle.std.specs.Prelude.{◌≡◌};
ghost use Rattle.cmd_words.specs.Reading.{IsToldOrNoMem};
ghost use Rattle.cmd_words.specs.Table.{of_sorted_sets};

use crate::add::add;
use crate::fault::FaultKind;
use crate::many::{key_fields, key_maybe_count};
use crate::range_options::{key_range, range_by_score};
use crate::shapes::{key, key_bound_bound, key_field, key_int_int, key_score_member};
use kv_base::Blobs;
use redis_model::Command;
use std::alloc::Global;

/// The commands on sorted sets.
#[derive(Clone, Copy)]
pub enum SortedSetName {
    ZAdd,
    ZRem,
    ZScore,
    ZCard,
    ZCount,
    ZRank,
    ZRevRank,
    ZRange,
    ZRevRange,
    ZRangeByScore,
    ZIncrBy,
    ZRemRangeByRank,
    ZRemRangeByScore,
    ZPopMin,
    ZPopMax,
}

impl SortedSetName {
    /// What the words behind this name are read into. They weigh so much together with it.
    #[tactic(auto, unfolding(crate::specs::Table::of_sorted_sets))]
    pub fn read(self, alloc: Global, words: Blobs, weight: u64) -> Result<Command, FaultKind>
        ensures { IsToldOrNoMem result (of_sorted_sets self weight words) }
    {
        match self {
            SortedSetName::ZAdd => add(alloc, words, weight),
            SortedSetName::ZRem => {
                let (key, members) = key_fields(words)?;
                Ok(Command::ZRem(key, members, weight))
            }
            SortedSetName::ZScore => {
                let (key, member) = key_field(words)?;
                Ok(Command::ZScore(key, member, weight))
            }
            SortedSetName::ZCard => Ok(Command::ZCard(key(words)?, weight)),
            SortedSetName::ZCount => {
                let (key, from, to) = key_bound_bound(words)?;
                Ok(Command::ZCount(key, from, to, weight))
            }
            SortedSetName::ZRank => {
                let (key, member) = key_field(words)?;
                Ok(Command::ZRank(key, member, weight))
            }
            SortedSetName::ZRevRank => {
                let (key, member) = key_field(words)?;
                Ok(Command::ZRevRank(key, member, weight))
            }
            SortedSetName::ZRange => {
                let (key, from, to, scores) = key_range(words)?;
                Ok(Command::ZRange(key, from, to, scores, weight))
            }
            SortedSetName::ZRevRange => {
                let (key, from, to, scores) = key_range(words)?;
                Ok(Command::ZRevRange(key, from, to, scores, weight))
            }
            SortedSetName::ZRangeByScore => range_by_score(words, weight),
            SortedSetName::ZIncrBy => {
                let (key, score, member) = key_score_member(words)?;
                Ok(Command::ZIncrBy(key, score, member, weight))
            }
            SortedSetName::ZRemRangeByRank => {
                let (key, from, to) = key_int_int(words)?;
                Ok(Command::ZRemRangeByRank(key, from, to, weight))
            }
            SortedSetName::ZRemRangeByScore => {
                let (key, from, to) = key_bound_bound(words)?;
                Ok(Command::ZRemRangeByScore(key, from, to, weight))
            }
            SortedSetName::ZPopMin => {
                let (key, count) = key_maybe_count(words)?;
                Ok(Command::ZPopMin(key, count, weight))
            }
            SortedSetName::ZPopMax => {
                let (key, count) = key_maybe_count(words)?;
                Ok(Command::ZPopMax(key, count, weight))
            }
        }
    }
}
