ghost use Rattle.std.specs.Prelude.{◌≡◌, ◌+◌, ℕ, Bool, Option, IsTrue};
ghost use Rattle.kv_base.specs.Map.{Bytes, Map, Set, get, size};
ghost use Rattle.kv_base.specs.RawKeys.{is_key};
ghost use Rattle.kv_base.specs.declared.kind.Kind.TheVariants as code;
ghost use Rattle.batch_codec.specs.Batches.{Batch};
ghost use Rattle.redis_model.specs.declared.command.Command.{Command};
ghost use Rattle.redis_model.specs.declared.reply.Reply.{Reply};
ghost use Rattle.redis_model.specs.Outcome.{Outcome, hashes, sets};
ghost use Rattle.lives_model.specs.Rows.{Rows};
ghost use Rattle.lives_model.specs.Plans.{IsPlan};
ghost use Rattle.plan_base.specs.declared.life.LifeSight.{LifeSight};
ghost use Rattle.plan_base.specs.LifeLaws.{member_row_of};
ghost use Rattle.plan_base.specs.LifeSteps.{life_on};
ghost use Rattle.plan_base.specs.LifeChanges.{WantsRows, added_rows, removed_rows};
ghost use Rattle.life_plans.specs.Changes.{ChangesBy, FindsLife, wished_plan};

/// A command that changes the hash or the set at its only key has the plan of what it wants by the life that is found
/// there, if that is what the command comes to of each hash or set that can be there.
pub fn changes_are_planned()
    ensures hashes { (c : Rows) (t fresh : ℕ) (d : Command) (k : Bytes) (again : Bool)
        (f : Map Bytes → Outcome (Reply × Map Bytes)) (wish : Option LifeSight → Outcome (Reply × Batch)) →
        ChangesBy hashes get c t fresh d k again f wish →
        let p = wished_plan code.Hash c t k fresh again wish in IsPlan c t fresh d p.batch p.reply p.until }
    ensures sets { (c : Rows) (t fresh : ℕ) (d : Command) (k : Bytes) (again : Bool)
        (f : Set → Outcome (Reply × Set)) (wish : Option LifeSight → Outcome (Reply × Batch)) →
        ChangesBy sets member_row_of c t fresh d k again f wish →
        let p = wished_plan code.Set c t k fresh again wish in IsPlan c t fresh d p.batch p.reply p.until }
{}

/// The rows that are wanted leave a hash or a set with as many elements as it had, with those that are added and without
/// those that go.
pub fn elements_are_counted()
    ensures hashes { (c : Rows) (k : Bytes) (fresh : ℕ) (found : Option LifeSight) (a b : Map Bytes) (wanted : Batch) →
        IsTrue (is_key k) → FindsLife hashes get c k fresh found a →
        WantsRows c k (life_on fresh found).version wanted (get b) → size b + removed_rows c wanted ≡ size a + added_rows c wanted }
    ensures sets { (c : Rows) (k : Bytes) (fresh : ℕ) (found : Option LifeSight) (a b : Set) (wanted : Batch) →
        IsTrue (is_key k) → FindsLife sets member_row_of c k fresh found a →
        WantsRows c k (life_on fresh found).version wanted (member_row_of b) → size b + removed_rows c wanted ≡ size a + added_rows c wanted }
{}
