//! Which calls of an object in memory fail.
ghost use Rattle.std.specs.Prelude.{◌≡◌, ◌≤◌, ◌↔◌, IsTrue, Contains};
ghost use Rattle.ew_outside.specs.Memory.{after_call};

use crate::Counter;
use std::marker::Model;

/// The numbers of the calls that are to fail, and counts of all calls and of the failed ones. The first call has the number 0.
#[derive(Debug, Drop)]
pub struct Calls {
    failing: Vec<u64>,
    made: Counter,
    faults: Counter,
}

impl Model for Calls {
    ghost use Rattle.ew_outside.specs.Memory.{Schedule};

    ghost Value = { Schedule };

    ghost view = { λ c. record { failing = c.failing.items; made = c.made; faults = c.faults } };
}

impl Calls {
    pub fn new(failing: Vec<u64>) -> Calls
        ensures { result ≡ record { failing = failing.items; made = 0; faults = 0 } }
    {
        Calls {
            failing,
            made: Counter::new(),
            faults: Counter::new(),
        }
    }

    /// The number of the next call.
    pub fn made(&self) -> u64
        ensures { result ≡ self.now.made }
    {
        self.made.get()
    }

    pub fn faults(&self) -> u64
        ensures { result ≡ self.now.faults }
    {
        self.faults.get()
    }

    /// Whether the next call is to fail.
    pub fn fails_next(&self) -> bool
        ensures { IsTrue result ↔ Contains self.now.failing self.now.made }
    {
        self.failing.contains(&self.made.get())
    }

    /// Counts a call, and a fault where it failed.
    pub fn count(&mut self, failed: bool)
        ensures after { self.new ≡ after_call self.old failed }
        ensures later { self.old.faults ≤ self.new.faults }
    {
        self.made.rise();
        if failed {
            self.faults.rise();
        }
    }
}
