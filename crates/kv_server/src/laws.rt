ghost use Rattle.std.specs.Prelude.{◌≡◌, ℕ, [], Ok};
ghost use Rattle.kv_base.specs.Map.{Bytes, empty};
ghost use Rattle.redis_model.specs.Value.{RedisMap};
ghost use Rattle.log_store.specs.Keeping.{ComesToKeys};
ghost use Rattle.log_store.specs.Recover.{Recovered, recovered};
ghost use Rattle.kv_server.specs.Reopening.{BeginsWith};

/// A run over a log that comes to keys begins with them: what the last run left, whatever crash came afterwards, is what
/// the next one answers from.
pub fn a_run_begins_with_what_was_left()
    ensures { (moment : ℕ) (keys : RedisMap) (bytes : Bytes) (start : Recovered) → ComesToKeys moment keys bytes → recovered bytes ≡ Ok start
        → BeginsWith moment keys start }
{}

/// A run over an empty log, or over one that is not there, begins with no keys.
pub fn a_first_run_begins_with_no_keys()
    ensures { (moment : ℕ) (start : Recovered) → recovered [] ≡ Ok start → BeginsWith moment empty start }
{}
