//! The members that a command has come to.

ghost use Rattle.std.specs.Prelude.{◌≡◌, [], IfOk, OnOk, OnErr};
ghost use Rattle.std.specs.BTreeMap.{insert_entry};
ghost use Rattle.kv_base.specs.Map.{byte_cmp};
ghost use Rattle.zset_changes.specs.ScoreTables.{IsScoreTable, CanStand, scoring_of, scorings_of, track_of, tracks_in};

use kv_base::{Blob, NoMem};
use std::alloc::Global;
use std::collections::BTreeMap;
use zset_plans::Scoring;

/// The score of a member before a command, and its score so far.
#[derive(Clone, Copy, Debug)]
pub(crate) struct Track {
    pub before: Option<i64>,
    pub now: Option<i64>,
}

/// The members that a command has come to so far, each once, in the order of their bytes.
#[derive(Drop)]
pub(crate) struct ScoreTable {
    pub tracks: BTreeMap<Blob, Track>,
}

impl ScoreTable {
    /// A table of no members, which takes no memory.
    pub(crate) fn new(alloc: Global) -> ScoreTable
        ensures none { tracks_in result ≡ [] }
        ensures table { IsScoreTable (tracks_in result) }
    {
        ScoreTable {
            tracks: BTreeMap::new(alloc),
        }
    }

    /// The track of a member, where the command has come to it.
    pub(crate) fn track(&self, member: &Blob) -> Option<Track>
        ensures { result ≡ track_of (tracks_in self.now) member.now }
    {
        self.tracks.get(member).copied()
    }

    /// Sets the track of a member. On an error the table is as it was.
    #[tactic(auto, using(crate::specs::ScoreTableLaws::table_more))]
    pub(crate) fn set(&mut self, member: Blob, track: Track) -> Result<(), NoMem>
        requires table { IsScoreTable (tracks_in self.old) }
        requires stands { CanStand (scoring_of (member, track)) }
        ensures tracks { OnOk result (tracks_in self.new ≡ insert_entry byte_cmp (tracks_in self.old) member track) }
        ensures table { OnOk result (IsScoreTable (tracks_in self.new)) }
        ensures err { OnErr result (tracks_in self.new ≡ tracks_in self.old) }
    {
        let Ok(_) = self.tracks.insert(member, track) else {
            return Err(NoMem);
        };
        Ok(())
    }

    /// What became of the scores of the members, in the order of their bytes.
    pub(crate) fn into_scorings(self, alloc: Global) -> Result<Vec<Scoring>, NoMem>
        ensures { IfOk result (λ scorings. scorings.items ≡ scorings_of (tracks_in self)) }
    {
        let ScoreTable { mut tracks } = self;
        let mut scorings = Vec::new(alloc);
        while let Some((member, track)) = tracks.pop_first() {
            scorings.push(Scoring {
                member,
                before: track.before,
                after: track.now,
            })?;
        }
        Ok(scorings)
    }
}
