//! The ids that were read so far.

ghost use Rattle.std.specs.Prelude.{◌≡◌, ℕ, ◌<◌, ◌≤◌, ◌+◌, ◌^◌, ◌⊎◌, ◌↔◌, IsTrue, true, false, List, length, get_or, replicate, slice_get, Some, None, IfOk, OnOk, OnErr};
ghost use Rattle.std.specs.BTreeMap.{get};
ghost use Rattle.ew_model.specs.declared.id.Id.{Id};
ghost use Rattle.ew_model.specs.Ids.{id_cmp, name_eq};
ghost use Rattle.ew_model.specs.Distinct.{AreDistinct};
ghost use Rattle.event_file.specs.SeenIds.{IsInRange, IsCovered, AreParted, IsSeen, HasOneOf};

use ew_model::NoMem;
use ew_model::id::Id;
use std::alloc::Global;
use std::collections::BTreeMap;

/// Ids whose agents are known by their places. An agent's numbers mostly come one after the other, and then a count tells them.
#[derive(Drop)]
pub(crate) struct SeenIds {
    /// For each agent, by its place: all its numbers below this one are among the ids.
    pub(crate) counts: Vec<u32>,
    /// The other ids, in ranges that have none in common: for the first one of a range, how many more there are.
    pub(crate) further: BTreeMap<Id, u32>,
}

impl SeenIds {
    /// No ids, for so many agents.
    pub(crate) fn new(alloc: Global, agents: usize) -> Result<SeenIds, NoMem>
        ensures counts { IfOk result (λ seen. seen.counts.items ≡ replicate agents 0) }
        ensures further { IfOk result (λ seen. (x : Id) → get id_cmp seen.further x ≡ None) }
    {
        let mut counts = Vec::new(alloc);
        counts.resize(agents, 0)?;
        Ok(SeenIds {
            counts,
            further: BTreeMap::new(alloc),
        })
    }

    /// Whether an id of the agent at this place is there, or one of so many behind it.
    pub(crate) fn has_one_of(&self, place: usize, first: &Id, more: u32) -> bool
        requires place { place < length self.now.counts.items }
        requires fits { first.now.seq + more < 2 ^ 32 }
        requires parted { AreParted (get id_cmp self.now.further) }
        ensures { HasOneOf result (get_or self.now.counts.items place 0) (get id_cmp self.now.further) first.now more }
    {
        if first.seq < self.counts[place] {
            return true;
        }
        has_further(&self.further, first, more)
    }

    /// Adds an id of the agent at this place, and so many behind it.
    pub(crate) fn insert(&mut self, place: usize, first: Id, more: u32) -> Result<(), NoMem>
        requires place { place < length self.old.counts.items }
        requires fits { first.seq + more < 2 ^ 32 }
        requires new { (x : Id) → IsInRange first more x → IsCovered (get id_cmp self.old.further) x → ⊥ }
        requires parted { AreParted (get id_cmp self.old.further) }
        ensures added { OnOk result ((agents : List (List ℕ)) → AreDistinct name_eq agents → slice_get agents place ≡ Some first.agent → (x : Id)
            → IsSeen agents self.new.counts.items (get id_cmp self.new.further) x
            ↔ (IsSeen agents self.old.counts.items (get id_cmp self.old.further) x ⊎ IsInRange first more x)) }
        ensures parted { AreParted (get id_cmp self.new.further) }
        ensures counts { length self.new.counts.items ≡ length self.old.counts.items }
        // Where memory is wanting nothing is added.
        ensures kept { OnErr result ((self.new.counts.items ≡ self.old.counts.items) × ((x : Id) → get id_cmp self.new.further x ≡ get id_cmp self.old.further x)) }
    {
        let count = self.counts[place];
        if first.seq == count && more < u32::MAX - count {
            self.counts[place] = count + more + 1;
        } else {
            self.further.insert(first, more)?;
        }
        Ok(())
    }

    /// Adds the id with this number of the agent at this place, where the agent's count tells that it is the next one, and no
    /// id is kept beside the counts. Else nothing is added.
    pub(crate) fn insert_next(&mut self, place: usize, seq: u32) -> bool
        requires { place < length self.old.counts.items }
        ensures added { result ≡ true → (agents : List (List ℕ)) (name : List ℕ) → AreDistinct name_eq agents → slice_get agents place ≡ Some name → (x : Id)
            → IsSeen agents self.new.counts.items (get id_cmp self.new.further) x
            ↔ (IsSeen agents self.old.counts.items (get id_cmp self.old.further) x ⊎ IsInRange (record { agent = name; seq = seq }) 0 x) }
        ensures unseen { result ≡ true → (agents : List (List ℕ)) (name : List ℕ) → AreDistinct name_eq agents → slice_get agents place ≡ Some name
            → IsSeen agents self.old.counts.items (get id_cmp self.old.further) (record { agent = name; seq = seq }) → ⊥ }
        ensures counts { length self.new.counts.items ≡ length self.old.counts.items }
        ensures further { (x : Id) → get id_cmp self.new.further x ≡ get id_cmp self.old.further x }
        ensures kept { result ≡ false → self.new.counts.items ≡ self.old.counts.items }
    {
        if self.counts[place] != seq || seq == u32::MAX || !self.further.is_empty() {
            return false;
        }
        self.counts[place] = seq + 1;
        true
    }
}

/// Whether one of these ids is in one of the ranges: the last range that begins at one of them or before goes so far.
fn has_further(ranges: &BTreeMap<Id, u32>, first: &Id, more: u32) -> bool
    requires fits { first.now.seq + more < 2 ^ 32 }
    requires parted { AreParted (get id_cmp ranges.now) }
    ensures { HasOneOf result 0 (get id_cmp ranges.now) first.now more }
{
    let last = Id {
        agent: first.agent,
        seq: first.seq + more,
    };
    match ranges.range(..=last).next_back() {
        Some((begin, more)) => reaches(begin, *more, first),
        None => false,
    }
}

/// Whether the range from `begin` on goes up to an id, or begins behind it.
fn reaches(begin: &Id, more: u32, id: &Id) -> bool
    ensures { IsTrue result ↔ ((begin.now.agent ≡ id.now.agent) × (id.now.seq ≤ begin.now.seq + more)) }
{
    begin.agent.is(&id.agent) && (begin.seq >= id.seq || id.seq - begin.seq <= more)
}
