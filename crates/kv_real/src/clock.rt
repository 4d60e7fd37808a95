ghost use Rattle.std.specs.Prelude.{None};

use kv_outside::Clock;
use std::time;
use std::time::{SystemTime, UNIX_EPOCH};

/// The system's clock, in milliseconds since 1970: 0 where it can't be read, or stands before that.
#[derive(Drop)]
pub struct SystemClock<R: Drop> {
    rt: R,
}

impl<R: time::Clock + Drop> SystemClock<R> {
    /// The clock of this runtime.
    pub fn new(rt: R) -> SystemClock<R> {
        SystemClock { rt }
    }
}

impl<R: time::Clock + Drop> Clock for SystemClock<R> {
    ghost readings = { λ _. None };

    /// One `clock_gettime`.
    fn now(&mut self) -> u64 {
        let Ok(now) = SystemTime::now(&self.rt) else {
            return 0;
        };
        match now.duration_since(UNIX_EPOCH) {
            Ok(since) => since
                .as_secs()
                .saturating_mul(1000)
                .saturating_add(u64::from(since.subsec_millis())),
            Err(_) => 0,
        }
    }
}
