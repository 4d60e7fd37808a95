ghost use Rattle.std.specs.Prelude.{◌≡◌, ℕ, List};
ghost use Rattle.redis_model.specs.declared.history.Place.{Place};
ghost use Rattle.redis_model.specs.Desk.{mine};
ghost use Rattle.redis_model.specs.Legal.{jobs_of};
ghost use Rattle.redis_model.specs.Places.{steps_of};
ghost use Rattle.turn_hall.specs.Places.{by_of};
ghost use Rattle.turn_hall.specs.Hands.{entries_of};

/// Where the entries of one caller are the same in two histories, so are its calls and its jobs.
pub fn own_entries_are_calls_and_jobs()
    ensures calls { (n : ℕ) (ps qs : List Place) → entries_of by_of n ps ≡ entries_of by_of n qs →
        mine n ps ≡ mine n qs }
    ensures jobs { (n : ℕ) (ps qs : List Place) → entries_of by_of n ps ≡ entries_of by_of n qs →
        jobs_of n (steps_of ps) ≡ jobs_of n (steps_of qs) }
{}
