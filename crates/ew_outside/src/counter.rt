//! Counts of what was done, and the greatest number that was asked for.
ghost use Rattle.std.specs.Prelude.{◌≡◌, ◌≤◌, max};
ghost use Rattle.ew_outside.specs.Counts.{next};

use std::marker::Model;

/// A count that rises by one, and stands still at the last value of 64 bits.
#[derive(Debug, Drop)]
pub struct Counter {
    value: u64,
}

impl Model for Counter {
    ghost use Rattle.std.specs.Prelude.{ℕ};

    ghost Value = { ℕ };

    ghost view = { λ c. c.value };
}

impl Counter {
    pub fn new() -> Counter
        ensures { result ≡ 0 }
    {
        Counter { value: 0 }
    }

    pub fn get(&self) -> u64
        ensures { result ≡ self.now }
    {
        self.value
    }

    pub fn rise(&mut self)
        ensures one { self.new ≡ next self.old }
        ensures later { self.old ≤ self.new }
    {
        self.value = self.value.saturating_add(1);
    }
}

/// The greatest number so far.
#[derive(Debug, Drop)]
pub struct Greatest {
    value: usize,
}

impl Model for Greatest {
    ghost use Rattle.std.specs.Prelude.{ℕ};

    ghost Value = { ℕ };

    ghost view = { λ g. g.value };
}

impl Greatest {
    pub fn new() -> Greatest
        ensures { result ≡ 0 }
    {
        Greatest { value: 0 }
    }

    pub fn get(&self) -> usize
        ensures { result ≡ self.now }
    {
        self.value
    }

    /// Takes a number into account.
    pub fn reach(&mut self, number: usize)
        ensures { self.new ≡ max number self.old }
    {
        if self.value < number {
            self.value = number;
        }
    }
}
