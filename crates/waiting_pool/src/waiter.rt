//! Waiting events, and their places in the queue.

ghost use Rattle.std.specs.Prelude.{◌≡◌, IfOk};

use ew_model::NoMem;
use ew_model::event::Event;
use ew_model::id::Id;
use std::mem;

/// A waiting event.
#[derive(Drop)]
pub struct Waiter {
    pub event: Event,
    /// A parent that wasn't held when it was looked for. None where none is known: then the event may be ready.
    pub missing: Option<Id>,
}

impl Waiter {
    pub fn id(&self) -> Id
        ensures { result ≡ self.now.event.id }
    {
        self.event.id
    }

    /// Its place in the queue, under this number.
    pub fn place(&self, number: u64) -> Place
        ensures { result ≡ record { missing = self.now.missing; number = number } }
    {
        Place::new(&self.missing, number)
    }

    /// A second one that is the same.
    pub fn copy(&self) -> Result<Waiter, NoMem>
        ensures { IfOk result (λ w. w ≡ self.now) }
    {
        let event = self.event.copy()?;
        Ok(Waiter {
            event,
            missing: self.missing,
        })
    }

    /// Notes which parent is missing. Answers what was noted before.
    pub fn note(&mut self, missing: &Option<Id>) -> Option<Id>
        ensures noted { self.new ≡ record { event = self.old.event; missing = missing.now } }
        ensures before { result ≡ self.old.missing }
    {
        mem::replace(&mut self.missing, *missing)
    }
}

/// Where a waiting event stands in the queue. Those of which no missing parent is known come first, then the others by
/// their missing parents, and of each the earlier one first.
#[derive(Clone, Copy, PartialEq, Eq, PartialOrd, Ord)]
pub struct Place {
    pub missing: Option<Id>,
    /// Events are numbered as they arrive.
    pub number: u64,
}

impl Place {
    pub fn new(missing: &Option<Id>, number: u64) -> Place
        ensures { result ≡ record { missing = missing.now; number = number } }
    {
        let missing = *missing;
        Place { missing, number }
    }
}
