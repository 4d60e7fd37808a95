ghost use Rattle.std.specs.Prelude.{◌≡◌, ◌<◌, ◌≤◌, ◌+◌, ◌++◌, [], ◌∷◌, ℕ, List, Option, IsTrue, IsFalse};
ghost use Rattle.std.specs.List.{Contains, filter_map};
ghost use Rattle.kv_base.specs.Map.{Bytes};
ghost use Rattle.batch_codec.specs.Batches.{Batch, after};
ghost use Rattle.redis_model.specs.declared.command.Cmds.{Cmds};
ghost use Rattle.redis_model.specs.declared.reply.Reply.{Reply};
ghost use Rattle.redis_model.specs.Value.{RedisMap};
ghost use Rattle.redis_model.specs.Keys.{among};
ghost use Rattle.kv_base.specs.declared.row.Row.{Row};
ghost use Rattle.row_model.specs.Rows.{at, are_row_texts, are_upto, AreApart};
ghost use Rattle.row_model.specs.RowOrder.{is_ordered};
ghost use Rattle.lives_model.specs.Rows.{Rows, IsOnGrammar};
ghost use Rattle.lives_model.specs.RowKeys.{IsOfKey};
ghost use Rattle.lives_model.specs.Clean.{clean};
ghost use Rattle.lives_model.specs.Means.{Means};
ghost use Rattle.lives_model.specs.Plans.{IsPlanFor, IsReady, version, keys_in};
ghost use Rattle.lives_model.specs.Lapses.{lapses};
ghost use Rattle.plan_laws.specs.HoldsLater.{IsCurrent};
ghost use Rattle.filter_laws.specs.Watchers.{Watcher, IsWatched};
ghost use Rattle.filter_laws.specs.Kept.{kept_rows, IsRowOrBurial};
ghost use Rattle.filter_laws.specs.Verdict.{Notes, newer_note, verdict, after_verdict, AreTrue, IsNextNewer};
ghost use Rattle.filter_laws.specs.Replaced.{AreNewer, ArePlaced, CanReplace, IsDeadFrom, AreDead};
ghost use Rattle.filter_laws.specs.Filtered.{Filtering, begun, AreIssuedBefore, StaysDead, IsPutInPlace};
ghost use Rattle.filter_laws.specs.IssuedInputs.{HasIssuedVersion};

/// What a compaction keeps is what the verdict of each input row leaves of it, where the notes on each are true.
pub fn kept_rows_are_verdicts()
    ensures { (watch : List Watcher) (inputs deeper all : List Row) (notes : Row → Notes) → AreApart inputs →
        ((row : Row) → Contains inputs row → AreTrue watch inputs deeper all row (notes row)) →
        kept_rows watch inputs deeper all ≡ filter_map (λ row. after_verdict (verdict row watch (notes row)) row) inputs }
{}

/// In inputs in order the next newer row of a raw key stands right in front.
pub fn the_next_newer_row_is_the_one_before()
    ensures first { (row : Row) (back : List Row) → IsTrue (is_ordered (row ∷ back)) → IsNextNewer (row ∷ back) row None }
    ensures others { (front back : List Row) (before row : Row) → IsTrue (is_ordered (front ++ before ∷ row ∷ back)) →
        IsNextNewer (front ++ before ∷ row ∷ back) row (newer_note before row) }
{}

/// Each row that is kept is an input row or the burial of one. Kept rows are on the grammar and in order, as the inputs are,
/// and newer and older than what these are newer and older than.
pub fn kept_rows_are_input_rows()
    ensures from { (watch : List Watcher) (inputs deeper all : List Row) (o : Row) → Contains (kept_rows watch inputs deeper all) o →
        (row : Row) × Contains inputs row × IsRowOrBurial watch inputs row o }
    ensures grammar { (watch : List Watcher) (inputs deeper all : List Row) →
        IsTrue (are_row_texts inputs) → IsTrue (are_row_texts (kept_rows watch inputs deeper all)) }
    ensures in_order { (watch : List Watcher) (inputs deeper all : List Row) →
        IsTrue (is_ordered inputs) → IsTrue (is_ordered (kept_rows watch inputs deeper all)) }
    ensures upto { (watch : List Watcher) (inputs deeper all : List Row) (last : ℕ) →
        IsTrue (are_upto last inputs) → IsTrue (are_upto last (kept_rows watch inputs deeper all)) }
    ensures older { (watch : List Watcher) (inputs deeper all above : List Row) →
        AreNewer above inputs → AreNewer above (kept_rows watch inputs deeper all) }
    ensures newer { (watch : List Watcher) (inputs deeper all below : List Row) →
        AreNewer inputs below → AreNewer (kept_rows watch inputs deeper all) below }
    ensures apart { (watch : List Watcher) (inputs deeper all others : List Row) →
        AreApart others → AreApart inputs → ArePlaced others inputs deeper → AreApart (others ++ kept_rows watch inputs deeper all) }
{}

/// Rows above the inputs and deeper ones stand as they must, where the newer have the greater sequences.
pub fn rows_in_order_are_placed()
    ensures { (above inputs deeper : List Row) → AreNewer above inputs → AreNewer inputs deeper → ArePlaced (above ++ deeper) inputs deeper }
{}

/// In the place of the inputs, what is kept of them shows a watcher the same clean rows, where the lives whose rows went are
/// dead for it.
pub fn kept_rows_leave_what_is_clean()
    ensures { (watch : List Watcher) (now : Watcher) (others inputs deeper all : List Row) (v : Watcher) →
        CanReplace watch now others inputs deeper → IsWatched watch now v →
        AreDead watch inputs all (at (others ++ inputs) v.seq) v.moment →
        clean (at (others ++ kept_rows watch inputs deeper all) v.seq) v.moment ≡ clean (at (others ++ inputs) v.seq) v.moment }
{}

/// No plan that is made at a moment, or later, brings a life back that is dead from that moment on, where the version is
/// below those that the plan gives to new lives, or the commands don't name the key.
pub fn plans_bring_no_life_back()
    ensures { (c : Rows) (t base : ℕ) (m : RedisMap) (ds : Cmds) (b : Batch) (answer : Reply) (until : Option ℕ) (since : ℕ) (k : Bytes) (v : ℕ) →
        IsPlanFor c t base m ds b answer until → since ≤ t → (IsTrue (among (keys_in ds) k) → v < version base 0) →
        IsDeadFrom c since (k, v) → IsDeadFrom (after c b) since (k, v) }
{}

/// Nor does one that was made before, where it has not lapsed: on other rows, of which the same counts, or on these.
pub fn held_plans_bring_no_life_back()
    ensures current { (c d : Rows) (t later base : ℕ) (m n : RedisMap) (ds : Cmds) (b : Batch) (answer : Reply) (until : Option ℕ) (since : ℕ) (k : Bytes) (v : ℕ) →
        IsCurrent c d t later base m n ds b answer until → since ≤ later → (IsTrue (among (keys_in ds) k) → v < version base 0) →
        IsDeadFrom d since (k, v) → IsDeadFrom (after d b) since (k, v) }
    ensures held { (c : Rows) (t base : ℕ) (m : RedisMap) (ds : Cmds) (b : Batch) (answer : Reply) (until : Option ℕ) (since : ℕ) (k : Bytes) (v : ℕ) →
        IsOnGrammar c → Means c t m → IsReady c t (version base 0) ds → IsPlanFor c t base m ds b answer until →
        t ≤ since → IsFalse (lapses t since until ds) → (IsTrue (among (keys_in ds) k) → v < version base 0) →
        IsDeadFrom c since (k, v) → IsDeadFrom (after c b) since (k, v) }
{}

/// The versions of inputs are below those of a plan's new lives where they were issued by their rows' sequences, and no input
/// of the commands' keys is above the plan's base.
pub fn issued_inputs_are_before_new_lives()
    ensures { (inputs : List Row) (ds : Cmds) (base : ℕ) → ((row : Row) → Contains inputs row → HasIssuedVersion row) →
        ((row : Row) (k : Bytes) → Contains inputs row → IsTrue (among (keys_in ds) k) → IsOfKey k row.raw → row.seq ≤ base) →
        AreIssuedBefore inputs ds base }
{}

/// Where a compaction begins, with all pins and the newest rows as watchers, the lives whose rows it takes away are dead.
pub fn compactions_begin_with_the_dead()
    ensures { (rows : List Row) (last floor : ℕ) (pins : List Watcher) (inputs : List Row) →
        IsTrue (are_upto last inputs) → ((v : Watcher) → Contains pins v → v.seq ≤ last) →
        StaysDead rows last pins (begun rows last floor pins inputs) }
{}

/// They stay so under a batch that is planned, at a moment not before, on the newest rows.
pub fn batches_keep_the_dead_dead()
    ensures { (rows new : List Row) (last : ℕ) (pins : List Watcher) (job : Filtering) (t base : ℕ) (m : RedisMap) (ds : Cmds) (b : Batch) (answer : Reply) (until : Option ℕ) →
        ((s : ℕ) → s ≤ last → at new s ≡ at rows s) → at new (last + 1) ≡ after (at rows last) b →
        IsPlanFor (at rows last) t base m ds b answer until → job.now.moment ≤ t → AreIssuedBefore job.inputs ds base →
        StaysDead rows last pins job → StaysDead new (last + 1) pins job }
{}

/// And under every other event: one that shows the same rows, a pin that is made, and pins that are removed.
pub fn other_events_keep_the_dead_dead()
    ensures rows { (rows new : List Row) (last : ℕ) (pins : List Watcher) (job : Filtering) →
        ((s : ℕ) → at new s ≡ at rows s) → StaysDead rows last pins job → StaysDead new last pins job }
    ensures pin { (rows : List Row) (last floor : ℕ) (pins : List Watcher) (job : Filtering) → job.now.moment ≤ floor →
        StaysDead rows last pins job → StaysDead rows last (pins ++ record { seq = last; moment = floor } ∷ []) job }
    ensures unpin { (rows : List Row) (last : ℕ) (pins less : List Watcher) (job : Filtering) →
        ((v : Watcher) → Contains less v → Contains pins v) → StaysDead rows last pins job → StaysDead rows last less job }
{}

/// So an install leaves what is clean: for each pin, for each watcher of the compaction's beginning, and of the newest rows at
/// its moment and every later one.
pub fn installs_leave_what_is_clean()
    ensures pins { (rows new others deeper : List Row) (last : ℕ) (pins : List Watcher) (job : Filtering) →
        IsPutInPlace rows new others deeper job → StaysDead rows last pins job →
        (v : Watcher) → Contains pins v → clean (at new v.seq) v.moment ≡ clean (at rows v.seq) v.moment }
    ensures watchers { (rows new others deeper : List Row) (last : ℕ) (pins : List Watcher) (job : Filtering) →
        IsPutInPlace rows new others deeper job → StaysDead rows last pins job →
        (v : Watcher) → Contains job.watch v → clean (at new v.seq) v.moment ≡ clean (at rows v.seq) v.moment }
    ensures newest { (rows new others deeper : List Row) (last : ℕ) (pins : List Watcher) (job : Filtering) →
        IsPutInPlace rows new others deeper job → StaysDead rows last pins job →
        (t : ℕ) → job.now.moment ≤ t → clean (at new last) t ≡ clean (at rows last) t }
{}
