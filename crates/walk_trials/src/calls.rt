//! What a long line of calls may go on with, where only the last prepared event is taken out, and only the last one taken out
//! comes back. So each call is judged at once.

ghost use Rattle.std.specs.Prelude.{◌≡◌, ◌+◌, true, [], ◌∷◌, IfOk, OnOk};
ghost use Rattle.walk_trials.specs.Calls.{UsesId};

use ew_model::NoMem;
use ew_model::id::Id;
use std::alloc::Global;
use std::collections::BTreeSet;
use std::marker::Model;
use trial_rows::fault::Fault;

/// The position of the next event, the ids in use, and the positions of events: those that are prepared, and those that were
/// taken out since the last one was applied.
#[derive(Drop)]
pub struct Calls {
    next: u32,
    ids: BTreeSet<Id>,
    /// The last one at the end.
    prepared: Vec<u32>,
    /// The last one at the end.
    out: Vec<u32>,
}

impl Model for Calls {
    ghost use Rattle.std.specs.Prelude.{reverse};
    ghost use Rattle.walk_trials.specs.Calls.{Calls};

    ghost Value = { Calls };

    ghost view = { λ c. record { next = c.next; ids = c.ids; prepared = reverse c.prepared.items; out = reverse c.out.items } };
}

impl Calls {
    /// No events.
    pub fn new(alloc: Global) -> Calls
        ensures ids { result.ids.keys ≡ [] }
        ensures prepared { result.prepared ≡ [] }
        ensures out { result.out ≡ [] }
    {
        Calls {
            next: 0,
            ids: BTreeSet::new(alloc),
            prepared: Vec::new(alloc),
            out: Vec::new(alloc),
        }
    }

    /// The position of the next event.
    pub fn next_position(&self) -> u32
        ensures { result ≡ self.now.next }
    {
        self.next
    }

    /// Takes an id into use. Answers whether it wasn't in use.
    pub fn use_id(&mut self, id: Id) -> Result<bool, NoMem>
        ensures { IfOk result (λ is_new. is_new ≡ true → UsesId self.old self.new id) }
    {
        Ok(self.ids.insert(id)?)
    }

    /// The next event was applied.
    pub fn apply(&mut self) -> Result<(), Fault>
        ensures { OnOk result (self.new ≡ record { next = self.old.next + 1; ids = self.old.ids; prepared = self.old.next ∷ self.old.prepared; out = [] }) }
    {
        let position = self.next;
        self.next = position.checked_add(1).ok_or(Fault::Unreadable)?;
        self.prepared.push(position)?;
        self.out.clear();
        Ok(())
    }

    /// Takes the last prepared event out.
    pub fn take_out(&mut self) -> Result<u32, Fault>
        ensures last { IfOk result (λ position. self.old.prepared ≡ position ∷ self.new.prepared) }
        ensures out { IfOk result (λ position. self.new ≡ record self.old { prepared = self.new.prepared; out = position ∷ self.old.out }) }
    {
        let position = self.prepared.pop().ok_or(Fault::Unreadable)?;
        self.out.push(position)?;
        Ok(position)
    }

    /// Brings the last one that was taken out back.
    pub fn bring_back(&mut self) -> Result<u32, Fault>
        ensures last { IfOk result (λ position. self.old.out ≡ position ∷ self.new.out) }
        ensures prepared { IfOk result (λ position. self.new ≡ record self.old { prepared = position ∷ self.old.prepared; out = self.new.out }) }
    {
        let position = self.out.pop().ok_or(Fault::Unreadable)?;
        self.prepared.push(position)?;
        Ok(position)
    }
}
