ghost use Rattle.std.specs.Prelude.{Option, List, ℕ};
ghost use Rattle.kv_outside.specs.Readings.{TakesReading};

/// A clock.
pub trait Clock {
    /// The readings ahead, in milliseconds, where they are told. The last one repeats; with none the reading is 0.
    ghost readings: { Self → Option (List ℕ) };

    /// The next reading, in milliseconds: any number.
    fn now(&mut self) -> u64
        ensures { TakesReading (readings self.old) (readings self.new) result };
}
