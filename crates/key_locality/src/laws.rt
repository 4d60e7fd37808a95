ghost use Rattle.std.specs.Prelude.{◌≡◌, ◌≤◌, ℕ, IsFalse, List};
ghost use Rattle.kv_base.specs.Map.{Bytes, get};
ghost use Rattle.redis_model.specs.declared.command.Cmds.{Cmds};
ghost use Rattle.redis_model.specs.declared.command.Command.{Command};
ghost use Rattle.redis_model.specs.Value.{RedisMap, alive};
ghost use Rattle.redis_model.specs.Keys.{among};
ghost use Rattle.redis_model.specs.About.{keys_of};
ghost use Rattle.redis_model.specs.Apply.{apply};
ghost use Rattle.redis_model.specs.Machine.{apply_alive, fold};
ghost use Rattle.redis_model.specs.Deadlines.{deadlines, keys_in, least_above};
ghost use Rattle.redis_model.specs.Touched.{touched};
ghost use Rattle.key_locality.specs.Agree.{AgreeOn, SameMoment};
ghost use Rattle.key_locality.specs.Between.{FindTheSame, FindsTheSame};
ghost use Rattle.key_locality.specs.Until.{lapsed};

/// A command has one reply on any two maps that agree on its keys, at any two moments unless it reads the clock.
pub fn replies_depend_on_own_keys()
    ensures { (m n : RedisMap) (t u : ℕ) (c : Command) → AgreeOn (keys_of c) m n → SameMoment c t u →
        (apply m t c).0 ≡ (apply n u c).0 }
{}

/// Maps that agree on a command's keys agree on them after it, at any two moments unless it reads the clock.
pub fn changes_depend_on_own_keys()
    ensures { (m n : RedisMap) (t u : ℕ) (c : Command) → AgreeOn (keys_of c) m n → SameMoment c t u →
        AgreeOn (keys_of c) (apply m t c).1 (apply n u c).1 }
{}

/// A command touches the same keys of any two maps that agree on its keys, at any two moments unless it reads the clock.
pub fn touches_depend_on_own_keys()
    ensures { (m n : RedisMap) (t u : ℕ) (c : Command) → AgreeOn (keys_of c) m n → SameMoment c t u →
        touched m t c ≡ touched n u c }
{}

/// At a key that a command does not name, it leaves what had not expired.
pub fn other_keys_stay()
    ensures { (m : RedisMap) (t : ℕ) (c : Command) (k : Bytes) → IsFalse (among (keys_of c) k) →
        get (apply_alive m t c).1 k ≡ get (alive m t) k }
{}

/// What a command answers, leaves at its keys and touches at one moment is right at a later one too, on any map that has
/// the same at its keys then: unless a deadline that its keys had or got has passed in between, or it reads the clock.
pub fn commands_stay_right_until_a_deadline()
    ensures reply { (m n : RedisMap) (t u : ℕ) (c : Command) → FindsTheSame m n t u c →
        (apply_alive m t c).0 ≡ (apply_alive n u c).0 }
    ensures keys { (m n : RedisMap) (t u : ℕ) (c : Command) → FindsTheSame m n t u c →
        AgreeOn (keys_of c) (apply_alive m t c).1 (apply_alive n u c).1 }
    ensures touches { (m n : RedisMap) (t u : ℕ) (c : Command) → FindsTheSame m n t u c →
        touched (alive m t) t c ≡ touched (alive n u) u c }
{}

/// So long does a command find the same: at the same moment always, and at a later one until the least deadline ahead of
/// those that its keys had or got, unless it reads the clock.
pub fn commands_lapse_at_the_least_deadline()
    ensures { (m n : RedisMap) (t u : ℕ) (c : Command) → t ≤ u →
        IsFalse (lapsed t u (least_above t (deadlines (alive m t) t c)) c) →
        AgreeOn (keys_of c) (alive m u) (alive n u) → FindsTheSame m n t u c }
{}

/// So it is with the commands of a transaction, also at other keys that the maps have in common.
pub fn transactions_stay_right_until_a_deadline()
    ensures reply { (ks : List Bytes) (m n : RedisMap) (t u : ℕ) (cs : Cmds) → FindTheSame ks m n t u cs →
        (fold m t cs).0 ≡ (fold n u cs).0 }
    ensures keys { (ks : List Bytes) (m n : RedisMap) (t u : ℕ) (cs : Cmds) → FindTheSame ks m n t u cs →
        AgreeOn ks (alive (fold m t cs).1 u) (alive (fold n u cs).1 u) }
{}

/// At a key that none of the commands names, they leave what had not expired.
pub fn transactions_leave_other_keys()
    ensures { (m : RedisMap) (t : ℕ) (cs : Cmds) (k : Bytes) → IsFalse (among (keys_in cs) k) →
        get (alive (fold m t cs).1 t) k ≡ get (alive m t) k }
{}
