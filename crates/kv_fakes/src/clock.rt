use crate::Readings;
use kv_outside::Clock;
use std::marker::Model;

/// A clock that tells its readings ahead. The last one repeats; with none it reads 0.
#[derive(Drop)]
pub struct MemClock {
    readings: Readings,
    at: usize,
}

/// Contracts see the readings ahead.
impl Model for MemClock {
    ghost use Rattle.std.specs.Prelude.{List, ℕ, drop};

    ghost Value = { List ℕ };

    ghost view = { λ c. drop c.at c.readings };
}

impl MemClock {
    ghost use Rattle.std.specs.Prelude.{◌≡◌};

    /// A clock with these readings ahead.
    pub fn new(readings: Readings) -> MemClock
        ensures { result ≡ readings }
    {
        MemClock { readings, at: 0 }
    }
}

impl Clock for MemClock {
    ghost use Rattle.std.specs.Prelude.{Some};

    ghost readings = { λ c. Some c };

    fn now(&mut self) -> u64 {
        let count = self.readings.len();
        match self.readings.get(self.at) {
            Some(reading) => {
                let now = *reading;
                if self.at + 1 < count {
                    self.at += 1;
                }
                now
            }
            None => 0,
        }
    }
}
