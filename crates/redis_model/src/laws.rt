ghost use Rattle.std.specs.Prelude.{◌≡◌, ℕ, IsTrue, IsFalse, All, List, [], ◌∷◌};
ghost use Rattle.std.specs.List.{IsDistinct};
ghost use Rattle.std.specs.List.Sorted.{IsNonDecreasing};
ghost use Rattle.kv_base.specs.Map.{Bytes, get, same};
ghost use Rattle.kv_base.specs.Hash.{stripe};
ghost use Rattle.redis_model.specs.declared.command.Command.{Command};
ghost use Rattle.redis_model.specs.declared.history.Step.{Step};
ghost use Rattle.redis_model.specs.declared.reply.Reply.{Reply};
ghost use Rattle.redis_model.specs.declared.stripes.Stripes.{Stripes};
ghost use Rattle.redis_model.specs.Value.{RedisMap};
ghost use Rattle.redis_model.specs.Keys.{among};
ghost use Rattle.redis_model.specs.About.{writes, keys_of};
ghost use Rattle.redis_model.specs.Apply.{apply, due};
ghost use Rattle.redis_model.specs.Limits.{IsWithin, HasDueTime, IsDue};
ghost use Rattle.redis_model.specs.Touched.{touched};
ghost use Rattle.redis_model.specs.Stripes.{contains, has_stripe};
ghost use Rattle.redis_model.specs.Machine.{State, moments, run};
ghost use Rattle.redis_model.specs.Valid.{IsRedisMap, SetsShortValues};
ghost use Rattle.redis_model.specs.Render.{render, spelled};

/// A command that only reads leaves the map as it is.
pub fn reading_changes_nothing()
    ensures { (m : RedisMap) (t : ℕ) (c : Command) → IsFalse (writes c) → (apply m t c).1 ≡ m }
{}

/// A command that only reads touches no key.
pub fn reading_touches_nothing()
    ensures { (m : RedisMap) (t : ℕ) (c : Command) → IsFalse (writes c) → touched m t c ≡ [] }
{}

/// A command names each key that it touches.
pub fn touched_keys_are_named()
    ensures { (m : RedisMap) (t : ℕ) (c : Command) (k : Bytes) →
        IsTrue (among (touched m t c) k) → IsTrue (among (keys_of c) k) }
{}

/// A command has the stripe of each key that it touches. So whoever holds its stripes is alone in touching these keys.
pub fn touched_keys_have_their_stripes()
    ensures { (m : RedisMap) (t : ℕ) (c : Command) (k : Bytes) →
        IsTrue (among (touched m t c) k) → IsTrue (has_stripe (keys_of c) (stripe k)) }
{}

/// Two sets that contain the same stripes are equal. So what is said of `Command::stripes` leaves one answer.
pub fn sets_of_the_same_stripes_are_equal()
    ensures { (s t : Stripes) → ((b : ℕ) → contains s b ≡ contains t b) → s ≡ t }
{}

/// No key stands twice among those that a command touches.
pub fn touched_keys_stand_once()
    ensures { (m : RedisMap) (t : ℕ) (c : Command) → IsDistinct same (touched m t c) }
{}

/// At a key that a command does not touch, value and deadline stay. So a key is touched where one of them differs.
pub fn untouched_keys_stay()
    ensures { (m : RedisMap) (t : ℕ) (c : Command) (k : Bytes) →
        IsFalse (among (touched m t c) k) → get (apply m t c).1 k ≡ get m k }
{}

/// No collection becomes empty or too large, and no string too long, where the strings that the commands of a history set
/// are short enough.
pub fn valid_keys_stay_valid()
    ensures { (s : State) (history : List Step) →
        All SetsShortValues history → IsRedisMap s.keys → IsRedisMap (run s history).keys }
{}

/// A command that a request can ask for stays one at a reading of the clock, and has no amount of time then.
pub fn due_commands_stay_within_limits()
    ensures { (c : Command) (now : ℕ) →
        IsWithin c → HasDueTime c × IsWithin (due now c) × IsDue (due now c) }
{}

/// The moments of a history never fall, and none is below the floor of the state that it starts from.
pub fn moments_never_fall()
    ensures { (s : State) (history : List Step) → IsNonDecreasing (s.floor ∷ moments s history) }
{}

/// The two readings of a reply give the same bytes: the one that folds it from its parts up, and the one by cases.
pub fn replies_have_one_rendering()
    ensures { (r : Reply) → render r ≡ spelled r }
{}
