ghost use Rattle.std.specs.Prelude.{◌≡◌, ℕ, ◌↔◌, ◌+◌, ◌-◌, ◌^◌, ◌≤◌, min, IsTrue};
ghost use Rattle.kv_outside.specs.Causes.{Rose};
ghost use Rattle.kv_fakes.specs.Tally.{Tally, IsListed};

use crate::Calls;
use kv_outside::Failed;
use std::marker::Model;

/// Which calls are to fail, and how many were made and have failed.
#[derive(Drop)]
pub struct Failures {
    fails: Calls,
    made: u64,
    failed: u64,
}

impl Model for Failures {
    ghost use Rattle.kv_fakes.specs.Tally.{Tally};

    ghost Value = { Tally };

    ghost view = { λ f. record { fails = f.fails; made = f.made; failed = f.failed } };
}

impl Failures {
    pub fn new(fails: Calls) -> Failures
        ensures fails { result.fails ≡ fails }
        ensures made { result.made ≡ 0 }
        ensures failed { result.failed ≡ 0 }
    {
        Failures {
            fails,
            made: 0,
            failed: 0,
        }
    }

    /// Counts a call, and says whether it is one that is to fail.
    pub fn turn(&mut self) -> bool
        ensures listed { IsTrue result ↔ IsListed self.old }
        ensures fails { self.new.fails ≡ self.old.fails }
        ensures made { self.new.made ≡ min (self.old.made + 1) (2 ^ 64 - 1) }
        ensures failed { self.new.failed ≡ self.old.failed }
    {
        let number = self.made;
        self.made = self.made.saturating_add(1);
        self.fails.as_slice().contains(&number)
    }

    /// Counts a failure.
    pub fn fail(&mut self) -> Failed
        ensures fails { self.new.fails ≡ self.old.fails }
        ensures made { self.new.made ≡ self.old.made }
        ensures failed { self.new.failed ≡ min (self.old.failed + 1) (2 ^ 64 - 1) }
        ensures later { self.old.failed ≤ self.new.failed }
        ensures rose { Rose self.old.failed self.new.failed }
    {
        self.failed = self.failed.saturating_add(1);
        Failed
    }
}
