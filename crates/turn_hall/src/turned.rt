//! States whose history a hall keeps.
use crate::naming::NamesHall;
use redis_model::Place;

/// For which histories a state stands, under a name, which may name where the histories begin too.
pub trait Stands<N: NamesHall> {
    ghost use Rattle.std.specs.Prelude.{List};
    ghost use Rattle.redis_model.specs.declared.history.Place.{Place};

    ghost stands: { Self → List Place → Type 0 };
}

/// A state that plays events.
pub trait Turned<F, V, N: NamesHall>: Stands<N> {
    ghost use Rattle.std.specs.Prelude.{◌≡◌, ◌++◌, ℕ, List, Option, IfSome, option_map};
    ghost use Rattle.std.specs.Option.{option_to_list};
    ghost use Rattle.turn_hall.specs.Places.{by_of};
    ghost use Rattle.redis_model.specs.declared.history.Place.{Place};

    type Answer;

    // Whether the caller of this number may play the event in a state that stands for this history.
    ghost can: { Self → List Place → ℕ → F → V → Type 0 };

    // The entry that the event made.
    ghost made: { Self.Answer → Option Place };

    // What the answer says of the history before the event.
    ghost tells: { List Place → F → V → Self.Answer → F → Type 0 };

    /// Plays one event, and answers the entry that it made beside the answer.
    fn play(&mut self, files: &mut F, event: V) -> (Self::Answer, Option<Place>)
        requires { (history : List Place) × (number : ℕ) × Self.stands self.old history
            × can self.old history number files.old event }
        ensures stands { (history : List Place) (number : ℕ) → Self.stands self.old history →
            can self.old history number files.old event →
            Self.stands self.new (history ++ option_to_list (made result.0)) }
        ensures caller { (history : List Place) (number : ℕ) → Self.stands self.old history →
            can self.old history number files.old event →
            IfSome (made result.0) (λ e. by_of e ≡ number) }
        ensures tells { (history : List Place) (number : ℕ) → Self.stands self.old history →
            can self.old history number files.old event →
            tells history files.old event result.0 files.new }
        ensures said { result.1 ≡ made result.0 };
}
