ghost use Rattle.std.specs.Prelude.{◌≡◌, ◌+◌, ◌<◌, ℕ, List, [], ◌∷◌, ◌++◌, length, Option, None, IsTrue};
ghost use Rattle.kv_base.specs.Map.{empty};
ghost use Rattle.kv_base.specs.RawKeys.{is_version};
ghost use Rattle.batch_codec.specs.Batches.{Batch, after, joined};
ghost use Rattle.redis_model.specs.declared.command.Command.{Command};
ghost use Rattle.redis_model.specs.declared.command.Cmds.{Cmds};
ghost use Rattle.redis_model.specs.declared.command.Cmds.TheVariants.{One, Many};
ghost use Rattle.redis_model.specs.declared.reply.Reply.{Reply};
ghost use Rattle.redis_model.specs.declared.reply.Reply.TheVariants as reply;
ghost use Rattle.redis_model.specs.Value.{RedisMap};
ghost use Rattle.lives_model.specs.Rows.{Rows, IsOnGrammar};
ghost use Rattle.lives_model.specs.Means.{Means};
ghost use Rattle.lives_model.specs.Plans.{IsPlan, IsPlanFor, IsPlanned, IsReady, AreAsked, least, version};
ghost use Rattle.lives_model.specs.Lapses.{HoldsLater};
ghost use Rattle.lives_model.specs.WrittenKeys.{touched_in};
ghost use Rattle.plan_laws.specs.RowsFor.{CanBeKept, first_life, rows_for};
ghost use Rattle.plan_laws.specs.HoldsLater.{IsCurrent};
ghost use Rattle.plan_laws.specs.Transactions.{IsBegun, IsFirstStep};

/// Every map of keys that a user can have at a moment has rows that mean it. These are on their grammar, and as a plan
/// needs them, of any commands that can be asked for.
pub fn every_map_has_rows()
    ensures means { (m : RedisMap) (t : ℕ) → CanBeKept m t → Means (rows_for m) t m }
    ensures ready { (m : RedisMap) (t fresh : ℕ) (ds : Cmds) → CanBeKept m t → AreAsked ds →
        first_life.version < fresh → IsTrue (is_version fresh) → IsReady (rows_for m) t fresh ds }
    ensures on_grammar { (m : RedisMap) (t : ℕ) → CanBeKept m t → IsOnGrammar (rows_for m) }
{}

/// A plan of one command or of several that has not lapsed holds at a later moment, on any rows of which the same counts
/// of the commands' keys: its batch carries the commands out there, with the same reply.
pub fn plans_hold_later()
    ensures { (commands : Cmds) → HoldsLater commands }
{}

/// It is a plan on those rows, as if it were made there, and the commands touch the same keys.
pub fn plans_stay_plans()
    ensures plan { (c d : Rows) (t later base : ℕ) (m n : RedisMap) (commands : Cmds) (b : Batch) (answer : Reply) (until : Option ℕ) →
        IsCurrent c d t later base m n commands b answer until → IsPlanFor d later base n commands b answer until }
    ensures touched { (c d : Rows) (t later base : ℕ) (m n : RedisMap) (commands : Cmds) (b : Batch) (answer : Reply) (until : Option ℕ) →
        IsCurrent c d t later base m n commands b answer until → touched_in m t commands ≡ touched_in n later commands }
{}

/// Rows that are ready for several commands are ready for the first of them. After it they are ready for the others: with the
/// next version, and with what it leaves of the room at the ends of their lists.
pub fn commands_leave_rows_ready()
    ensures first { (c : Rows) (t fresh : ℕ) (d : Command) (ds : List Command) →
        IsReady c t fresh (Many (d ∷ ds)) → IsReady c t fresh (One d) }
    ensures others { (c : Rows) (t fresh : ℕ) (m : RedisMap) (d : Command) (ds : List Command) (b : Batch) (answer : Reply) →
        IsFirstStep c t fresh m d ds b answer → IsReady (after c b) t (fresh + 1) (Many ds) }
{}

/// A transaction is planned by planning its commands one after the other, each on the rows after the batches before it: the
/// batches are joined, the replies listed, and the least of the deadlines is its own.
pub fn transactions_are_planned_command_by_command()
    ensures none { (c : Rows) (t base : ℕ) → IsBegun c t base [] empty [] None }
    ensures next { (c : Rows) (t base : ℕ) (ds : List Command) (b : Batch) (replies : List Reply) (until : Option ℕ)
        (d : Command) (e : Batch) (answer : Reply) (later : Option ℕ) →
        IsBegun c t base ds b replies until → IsPlan (after c b) t (version base (length ds)) d e answer later →
        IsBegun c t base (ds ++ d ∷ []) (joined b e) (replies ++ answer ∷ []) (least until later) }
    ensures all { (c : Rows) (t base : ℕ) (ds : List Command) (b : Batch) (replies : List Reply) (until : Option ℕ) →
        AreAsked (Many ds) → IsBegun c t base ds b replies until →
        IsPlanned c t base (Many ds) b (reply.Array replies) until }
{}
