ghost use Rattle.std.specs.Prelude.{◌≡◌, ◌≤◌, ℕ, Ok, IfOk, IsErr, OnErr, IsOk, ◌↔◌};
ghost use Rattle.kv_outside.specs.Causes.{HasCause, Rose};

use kv_outside::Failed;
use std::io;
use std::marker::Model;

/// How often a call has failed. The count stays at 2^64 - 1. Contracts see the number.
#[derive(Drop)]
pub(crate) struct Faults {
    count: u64,
}

impl Model for Faults {
    ghost Value = { ℕ };

    ghost view = { λ f. f.count };
}

impl Faults {
    pub(crate) fn none() -> Faults
        ensures { result ≡ 0 }
    {
        Faults { count: 0 }
    }

    /// Counts a fault.
    pub(crate) fn add(&mut self) -> Failed
        ensures later { self.old ≤ self.new }
        ensures rose { Rose self.old self.new }
    {
        self.count = self.count.saturating_add(1);
        Failed
    }

    /// Hands on what a call of the system gave, and counts an error.
    pub(crate) fn note<T>(&mut self, outcome: io::Result<T>) -> Result<T, Failed>
        ensures given { IfOk outcome (λ value. result ≡ Ok value) }
        ensures ok { IsOk result ↔ IsOk outcome }
        ensures cause { HasCause self.old self.new result }
    {
        match outcome {
            Ok(value) => Ok(value),
            Err(_) => Err(self.add()),
        }
    }
}
