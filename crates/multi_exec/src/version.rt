//! The versions of lives that begin.

ghost use Rattle.std.specs.Prelude.{◌≡◌, ◌≤◌, ◌<◌, IsTrue};
ghost use Rattle.kv_base.specs.RawKeys.{is_version};
ghost use Rattle.redis_model.specs.Desk.{last_sequence};
ghost use Rattle.lives_model.specs.Plans as lives;

/// How many versions a sequence issues, one for each command of a transaction.
const VERSIONS: u64 = 2048;

/// The version of a life that the command at a place starts, on rows up to the sequence `base`: above all of theirs, and
/// another one for each place.
pub fn version(base: u64, place: usize) -> u64
    requires base { base ≤ last_sequence }
    requires place { place < 1024 }
    ensures version { result ≡ lives.version base place }
    ensures limit { IsTrue (is_version result) }
{
    (base + 1) * VERSIONS + place as u64
}
