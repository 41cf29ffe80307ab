//! Counts of steps.

ghost use Rattle.std.specs.Prelude.{◌≡◌, ◌+◌, ◌^◌, ◌<◌};

use std::marker::Model;

/// How many steps were made. Contracts see the number.
#[derive(Debug, Drop)]
pub struct Tally {
    steps: u64,
}

impl Model for Tally {
    ghost use Rattle.std.specs.Prelude.{ℕ};

    ghost Value = { ℕ };

    ghost view = { λ t. t.steps };
}

impl Tally {
    /// No step.
    pub fn new() -> Tally
        ensures { result ≡ 0 }
    {
        Tally { steps: 0 }
    }

    /// One step more.
    pub fn tick(&mut self)
        requires { self.old + 1 < 2 ^ 63 }
        ensures { self.new ≡ self.old + 1 }
    {
        self.steps += 1;
    }

    /// How many steps were made.
    pub fn count(&self) -> u64
        ensures { result ≡ self.now }
    {
        self.steps
    }

    /// The steps of another count too.
    pub fn add(&mut self, other: Tally)
        requires { self.old + other < 2 ^ 63 }
        ensures { self.new ≡ self.old + other }
    {
        self.steps += other.steps;
    }
}
