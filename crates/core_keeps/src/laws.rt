ghost use Rattle.std.specs.Prelude.{◌≡◌, ◌≤◌, [], ℕ, List, Option, IsTrue};
ghost use Rattle.kv_base.specs.Map.{Bytes};
ghost use Rattle.kv_base.specs.RawKeys.{is_key};
ghost use Rattle.redis_model.specs.Value.{RedisMap};
ghost use Rattle.lives_model.specs.Rows.{Rows, IsOnGrammar};
ghost use Rattle.lives_model.specs.Means.{IsSound, Means};
ghost use Rattle.lives_model.specs.Clean.{clean};
ghost use Rattle.lives_model.specs.Plans.{IsPlanFor, IsFresh, keys_in, version};
ghost use Rattle.core_model.specs.Filtered.{StandsFiltered};
ghost use Rattle.core_model.specs.Runs.{Event, IsCoreRun, seen_after};
ghost use Rattle.core_model.specs.Opened.{IsOpenedCore};
ghost use Rattle.core_keeps.specs.Keeps.{KeepsAll};
ghost use Rattle.core_keeps.specs.Recovered.{IsRecoveredCore};
ghost use Rattle.core_keeps.specs.KeptBy.{kept_by};
ghost use Rattle.batch_codec.specs.Batches.{Batch, after};
ghost use Rattle.redis_model.specs.declared.command.Cmds.{Cmds};
ghost use Rattle.redis_model.specs.declared.reply.Reply.{Reply};
ghost use Rattle.redis_model.specs.Keys.{among};
ghost use Rattle.redis_model.specs.declared.history.Place.{Place};
ghost use Rattle.core_model.specs.Core.{newest_rows, CoreState};
ghost use Rattle.core_model.specs.Stands.{Stands};
ghost use Rattle.redis_model.specs.Places.{Opening};

/// What counts after a plan's batch depends on what counts before it: where the same counts at the plan's moment and at another
/// one, and the plan's versions are new on both, the same counts at the other one after the batch.
pub fn batches_keep_what_counts()
    ensures { (c d : Rows) (m f base : ℕ) (n : RedisMap) (ds : Cmds) (b : Batch) (answer : Reply) (until : Option ℕ) →
        IsOnGrammar c → IsOnGrammar d → Means c m n → clean c m ≡ clean d m → clean c f ≡ clean d f →
        ((k : Bytes) → IsTrue (among (keys_in ds) k) → IsTrue (is_key k) → IsFresh c (version base 0) k × IsFresh d (version base 0) k) →
        IsPlanFor c m base n ds b answer until → clean (after c b) f ≡ clean (after d b) f }
{}

/// An opening keeps the map of the rows that it recovered. Every list of events then keeps what this map is after the batches of
/// the calls that were answered: at each moment from the manifest's floor on, the newest rows count as it does. So do the rows
/// with an edit of a compaction that failed at its gate, and the rows behind a batch that failed at its gate count as the map
/// behind it, until these are mended.
pub fn acknowledged_batches_are_kept()
    ensures opened { (opening : Opening) (core : CoreState) → IsOpenedCore core opening → core.manifest_floor ≤ core.floor → KeepsAll opening core [] (newest_rows core) }
    ensures kept { (opening : Opening) (core new : CoreState) (seen : List Place) (es : List Event) (c : Rows) →
        StandsFiltered opening core seen → KeepsAll opening core seen c → IsCoreRun seen core es new → KeepsAll opening new (seen_after seen es) (kept_by es c) }
{}

/// What a recovery may find counts as the map that the core keeps, or as that map behind the batch that was tried, and means keys.
pub fn recoveries_find_what_is_kept()
    ensures { (opening : Opening) (core : CoreState) (seen : List Place) (c : Rows) → Stands opening core seen → KeepsAll opening core seen c → (rows kept : Rows) (floor : ℕ) →
        IsRecoveredCore opening core seen c rows kept floor → (clean rows floor ≡ clean kept floor) × IsSound rows floor }
{}
