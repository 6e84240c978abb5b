//! The pool.

ghost use Rattle.std.specs.Prelude.{◌≡◌, ◌↔◌, ◌+◌, ◌≤◌, ◌<◌, ◌^◌, ℕ, [], ◌∷◌, ◌++◌, true, false, length, find, slice_get, is_some, if◌then◌else◌, Some, None, IfSome, IfOk, IfErr, OnOk, OnErr, IsOkAnd};
ghost use Rattle.std.specs.List.{list_all, count_by};
ghost use Rattle.std.specs.Option.{option_copied, IsSomeAnd};
ghost use Rattle.ew_model.specs.Ancestors.{is_held};
ghost use Rattle.ew_model.specs.Arrival.{is_ready, without_ready};
ghost use Rattle.ew_model.specs.Kept.{AreApart};
ghost use Rattle.waiting_pool.specs.Waiting.{events_of, event_with, without, has_id, has_missing, put_behind, taken_out, with_missing};
ghost use Rattle.waiting_pool.specs.Knowing.{IsBehind, IsSettled, KeepsEvents, KeepsMissed, is_missed};
ghost use Rattle.waiting_pool.specs.Faults.{event_in};

use crate::fault::PutFault;
use crate::tables::{enter, first_number, leave, requeue};
use crate::waiter::{Place, Waiter};
use event_graph::Graph;
use ew_model::NoMem;
use ew_model::event::Event;
use ew_model::id::Id;
use std::alloc::Global;
use std::collections::btree_map::Values;
use std::collections::{BTreeMap, BTreeSet};
use std::marker::Model;

/// The events that wait for their parents, no two of one id. Contracts see how many may wait, how many events of a graph
/// were looked at, and those that wait, in order of arrival, each with a parent that is known to be missing, or none.
#[derive(Drop)]
pub struct Pool {
    alloc: Global,
    /// How many events may wait.
    limit: u32,
    /// How many events of the graph were looked at.
    seen: u32,
    /// The number of the next event that arrives.
    next: u64,
    /// By number of arrival.
    waiters: BTreeMap<u64, Waiter>,
    /// The number of each id.
    numbers: BTreeMap<Id, u64>,
    /// The place of each event.
    queue: BTreeSet<Place>,
}

impl Model for Pool {
    ghost use Rattle.std.specs.BTreeMap.{get, values};
    ghost use Rattle.std.specs.BTreeSet.{contains};
    ghost use Rattle.ew_model.specs.Ids.{id_cmp};
    ghost use Rattle.waiting_pool.specs.Places.{place_cmp};
    ghost use Rattle.waiting_pool.specs.Waiting.{Waiting};
    ghost use Rattle.waiting_pool.specs.Keeping.{IsPool};

    ghost Value = { Waiting };

    ghost view = { λ p. record { limit = p.limit; seen = p.seen; waiters = values p.waiters } };

    ghost invariant = { λ p. IsPool p.limit p.next p.waiters.entries (get id_cmp p.numbers) (contains place_cmp p.queue) };
}

impl Pool {
    /// A pool of no events. It takes no memory, and never fails.
    pub fn new(alloc: Global, limit: u32) -> Result<Pool, NoMem>
        ensures { IsOkAnd result (λ p. p ≡ record { limit = limit; seen = 0; waiters = [] }) }
    {
        Ok(Pool {
            alloc,
            limit,
            seen: 0,
            next: 0,
            waiters: BTreeMap::new(alloc),
            numbers: BTreeMap::new(alloc),
            queue: BTreeSet::new(alloc),
        })
    }

    /// How many events wait.
    pub fn len(&self) -> u32
        ensures len { result ≡ length (events_of self.now) }
        ensures few { length (events_of self.now) ≤ self.now.limit }
        ensures apart { AreApart (events_of self.now) }
    {
        let _limit = self.limit;
        self.waiters.len() as u32
    }

    /// The waiting events, in order of arrival.
    pub fn iter(&self) -> Values<'_, u64, Waiter>
        ensures { result ≡ self.now.waiters }
    {
        self.waiters.values()
    }

    /// The waiting event number i, from 0, in order of arrival. It is counted off: `iter` goes over all of them.
    pub fn event(&self, i: u32) -> &Event
        requires { i < length (events_of self.now) }
        ensures { slice_get (events_of self.now) i ≡ Some result.now }
    {
        match self.waiters.values().nth(i as usize) {
            Some(waiter) => &waiter.event,
            None => unreachable!(),
        }
    }

    /// The waiting event with this id.
    pub fn find(&self, id: &Id) -> Option<&Event>
        ensures event { option_copied result ≡ event_with (events_of self.now) id.now }
        ensures waits { is_some result ≡ is_held (events_of self.now) id.now }
    {
        match self.waiter(id) {
            Some(waiter) => Some(&waiter.event),
            None => None,
        }
    }

    fn waiter(&self, id: &Id) -> Option<&Waiter>
        ensures { option_copied result ≡ find (has_id id.now) self.now.waiters }
    {
        let number = self.numbers.get(id)?;
        self.waiters.get(number)
    }

    /// The earliest of the waiting events whose parents are all held. It is looked for among all: where many are taken out,
    /// one after another, `take_ready` finds each by a table.
    pub fn ready(&self, graph: &Graph) -> Option<&Event>
        ensures { option_copied result ≡ find (is_ready graph.now) (events_of self.now) }
    {
        for waiter in self.waiters.values() {
            if is_ready(graph, &waiter.event) {
                return Some(&waiter.event);
            }
        }
        None
    }

    /// The earliest waiting event of which this parent is known to be missing, or none.
    fn first_with(&self, missing: &Option<Id>) -> Option<&Waiter>
        ensures first { option_copied result ≡ find (has_missing missing.now) self.now.waiters }
        ensures own { IfSome result (λ w. find (has_id w.now.event.id) self.now.waiters ≡ Some w.now) }
    {
        let number = first_number(&self.queue, missing)?;
        self.waiters.get(&number)
    }

    /// Puts an event behind the others, unless one with its id waits or as many wait as may. The event is handed back where it may
    /// not wait.
    pub fn put(&mut self, event: Event) -> Result<(), PutFault>
        ensures events { OnOk result (events_of self.new ≡ events_of self.old ++ event ∷ []) }
        ensures ok { OnOk result (self.new ≡ put_behind self.old event) }
        ensures waits { (result ≡ Err (PutFault.Waits event)) ↔ (is_held (events_of self.old) event.id ≡ true) }
        ensures full { (result ≡ Err (PutFault.Full event)) ↔ ((is_held (events_of self.old) event.id ≡ false) × (length (events_of self.old) ≡ self.old.limit)) }
        ensures back { IfErr result (λ fault. event_in fault ≡ event) }
        ensures err { OnErr result (self.new ≡ self.old) }
    {
        if self.find(&event.id).is_some() {
            return Err(PutFault::Waits(event));
        }
        if self.len() == self.limit {
            return Err(PutFault::Full(event));
        }
        let waiter = Waiter {
            event,
            missing: None,
        };
        match self.add(waiter) {
            Ok(()) => Ok(()),
            Err(waiter) => Err(PutFault::OutOfMemory(waiter.event)),
        }
    }

    /// Puts a waiting event behind the others. It is handed back where memory is short.
    fn add(&mut self, waiter: Waiter) -> Result<(), Waiter>
        requires new { is_held (events_of self.old) waiter.event.id ≡ false }
        requires room { length self.old.waiters < self.old.limit }
        ensures ok { OnOk result (self.new ≡ record { limit = self.old.limit; seen = self.old.seen; waiters = self.old.waiters ++ waiter ∷ [] }) }
        ensures back { IfErr result (λ w. w ≡ waiter) }
        ensures err { OnErr result (self.new ≡ self.old) }
    {
        let number = self.next;
        if number == u64::MAX {
            return Err(waiter);
        }
        enter(
            &mut self.waiters,
            &mut self.numbers,
            &mut self.queue,
            number,
            waiter,
        )?;
        self.next = number + 1;
        Ok(())
    }

    /// Takes out the waiting event with this id. The others keep their order.
    pub fn take(&mut self, id: &Id) -> Option<Event>
        ensures value { result ≡ event_with (events_of self.old) id.now }
        ensures events { events_of self.new ≡ without (events_of self.old) id.now }
        ensures others { self.new ≡ taken_out self.old id.now }
    {
        match self.take_waiter(id) {
            Some(waiter) => Some(waiter.event),
            None => None,
        }
    }

    fn take_waiter(&mut self, id: &Id) -> Option<Waiter>
        ensures value { result ≡ find (has_id id.now) self.old.waiters }
        ensures others { self.new ≡ taken_out self.old id.now }
    {
        leave(
            &mut self.waiters,
            &mut self.numbers,
            &mut self.queue,
            self.next,
            id,
        )
    }

    /// Where no event waits, the graph's events up to now are of no matter: what waits from now on is asked about later ones.
    pub fn catch_up(&mut self, graph: &Graph)
        requires { IsBehind graph.now self.old }
        ensures events { events_of self.new ≡ events_of self.old }
        ensures limit { self.new.limit ≡ self.old.limit }
        ensures behind { IsBehind graph.now self.new }
    {
        if self.len() == 0 {
            self.seen = graph.count();
        }
    }

    /// Takes out the earliest of the waiting events whose parents are all held. The graph is that of the last call, which may
    /// have grown since. Where memory is short the events stay, and the call may be made again.
    pub fn take_ready(&mut self, graph: &Graph) -> Result<Option<Event>, NoMem>
        requires { IsBehind graph.now self.old }
        ensures event { IfOk result (λ e. e ≡ find (is_ready graph.now) (events_of self.old)) }
        ensures others { OnOk result (events_of self.new ≡ without_ready graph.now (events_of self.old)) }
        ensures limit { self.new.limit ≡ self.old.limit }
        ensures behind { IsBehind graph.now self.new }
        ensures err { OnErr result (events_of self.new ≡ events_of self.old) }
    {
        let _limit = self.limit;
        if self.len() == 0 {
            self.seen = graph.count();
            return Ok(None);
        }
        self.settle(graph)?;
        let id = match self.first_with(&None) {
            Some(waiter) => waiter.id(),
            None => return Ok(None),
        };
        Ok(self.take(&id))
    }

    /// Brings what is known of the waiting events up to date with a graph, up to the earliest of which no parent is missing.
    fn settle(&mut self, graph: &Graph) -> Result<(), NoMem>
        requires { IsBehind graph.now self.old }
        ensures limit { self.new.limit ≡ self.old.limit }
        ensures events { events_of self.new ≡ events_of self.old }
        ensures behind { IsBehind graph.now self.new }
        ensures settled { OnOk result (IsSettled graph.now self.new) }
    {
        self.look(graph)?;
        self.sift(graph)
    }

    /// Looks at the events of the graph that came since.
    fn look(&mut self, graph: &Graph) -> Result<(), NoMem>
        requires { IsBehind graph.now self.old }
        ensures limit { self.new.limit ≡ self.old.limit }
        ensures events { events_of self.new ≡ events_of self.old }
        ensures behind { IsBehind graph.now self.new }
        ensures all { OnOk result (self.new.seen ≡ length graph.now) }
    {
        while self.seen() < graph.count() {
            self.look_at_next(graph)?;
        }
        Ok(())
    }

    /// How many events of the graph were looked at.
    fn seen(&self) -> u32
        ensures { result ≡ self.now.seen }
    {
        self.seen
    }

    /// Looks at the next event of the graph.
    fn look_at_next(&mut self, graph: &Graph) -> Result<(), NoMem>
        requires behind { IsBehind graph.now self.old }
        requires more { self.old.seen < length graph.now }
        requires few { length graph.now < 2 ^ 32 }
        ensures limit { self.new.limit ≡ self.old.limit }
        ensures events { events_of self.new ≡ events_of self.old }
        ensures behind { IsBehind graph.now self.new }
        ensures next { OnOk result (self.new.seen ≡ self.old.seen + 1) }
    {
        let arrived = graph.id_at(self.seen());
        self.wake(&arrived)?;
        self.seen += 1;
        Ok(())
    }

    /// The parent has come: no event waits for it any longer.
    fn wake(&mut self, parent: &Id) -> Result<(), NoMem>
        ensures kept { KeepsEvents self.old self.new }
        ensures missed { KeepsMissed self.old self.new }
        ensures none { OnOk result (find (has_missing (Some parent.now)) self.new.waiters ≡ None) }
    {
        while self.wake_one(parent)? {}
        Ok(())
    }

    /// Forgets that the parent of one event is missing. Answers whether there was one.
    fn wake_one(&mut self, parent: &Id) -> Result<bool, NoMem>
        ensures kept { KeepsEvents self.old self.new }
        ensures missed { KeepsMissed self.old self.new }
        ensures fewer { IfOk result (λ moved. count_by (has_missing (Some parent.now)) self.new.waiters + (if moved then 1 else 0) ≡ count_by (has_missing (Some parent.now)) self.old.waiters) }
        ensures none { IfOk result (λ moved. moved ≡ false → find (has_missing (Some parent.now)) self.new.waiters ≡ None) }
    {
        let missing = Some(*parent);
        let id = match self.first_with(&missing) {
            Some(waiter) => waiter.id(),
            None => return Ok(false),
        };
        self.set_missing(&id, &None)?;
        Ok(true)
    }

    /// Looks for missing parents until the earliest event of which none is known to be missing is ready.
    fn sift(&mut self, graph: &Graph) -> Result<(), NoMem>
        requires { list_all (is_missed graph.now) self.old.waiters ≡ true }
        ensures kept { KeepsEvents self.old self.new }
        ensures missed { list_all (is_missed graph.now) self.new.waiters ≡ true }
        ensures settled { OnOk result (IsSettled graph.now self.new) }
    {
        while self.sift_one(graph)? {}
        Ok(())
    }

    /// Looks for a missing parent of the earliest event of which none is known. Answers whether one was found.
    fn sift_one(&mut self, graph: &Graph) -> Result<bool, NoMem>
        requires { list_all (is_missed graph.now) self.old.waiters ≡ true }
        ensures kept { KeepsEvents self.old self.new }
        ensures missed { list_all (is_missed graph.now) self.new.waiters ≡ true }
        ensures fewer { IfOk result (λ moved. count_by (has_missing None) self.new.waiters + (if moved then 1 else 0) ≡ count_by (has_missing None) self.old.waiters) }
        ensures settled { IfOk result (λ moved. moved ≡ false → IsSettled graph.now self.new) }
    {
        let waiter = match self.first_with(&None) {
            Some(waiter) => waiter,
            None => return Ok(false),
        };
        let missing = graph.has(waiter.event.parents.as_slice());
        if missing.is_none() {
            return Ok(false);
        }
        let id = waiter.id();
        self.set_missing(&id, &missing)?;
        Ok(true)
    }

    /// Notes which parent of the event with this id is missing.
    fn set_missing(&mut self, id: &Id, missing: &Option<Id>) -> Result<(), NoMem>
        requires { IsSomeAnd (find (has_id id.now) self.old.waiters) (λ w. has_missing missing.now w ≡ false) }
        ensures ok { OnOk result (self.new ≡ record { limit = self.old.limit; seen = self.old.seen; waiters = with_missing id.now missing.now self.old.waiters }) }
        ensures err { OnErr result (self.new ≡ self.old) }
    {
        match self.numbers.get(id).copied() {
            Some(number) => {
                requeue(&mut self.waiters, &mut self.queue, number, missing)?;
                Ok(())
            }
            None => Ok(()),
        }
    }

    /// A second pool that is the same.
    pub fn copy(&self) -> Result<Pool, NoMem>
        ensures { IfOk result (λ p. p ≡ self.now) }
    {
        let mut copy = Pool::new(self.alloc, self.limit)?;
        copy.seen = self.seen;
        for waiter in self.waiters.values() {
            copy.add_copy(waiter)?;
        }
        Ok(copy)
    }

    /// Puts a copy of a waiting event behind the others.
    fn add_copy(&mut self, waiter: &Waiter) -> Result<(), NoMem>
        requires new { is_held (events_of self.old) waiter.now.event.id ≡ false }
        requires room { length self.old.waiters < self.old.limit }
        ensures { OnOk result (self.new ≡ record { limit = self.old.limit; seen = self.old.seen; waiters = self.old.waiters ++ waiter.now ∷ [] }) }
    {
        match self.add(waiter.copy()?) {
            Ok(()) => Ok(()),
            Err(_) => Err(NoMem),
        }
    }
}

/// Whether all the event's parents are held.
fn is_ready(graph: &Graph, e: &Event) -> bool
    ensures { result ≡ is_ready graph.now e.now }
{
    graph.has(e.parents.as_slice()).is_none()
}
