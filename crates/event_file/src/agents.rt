//! The numbers of agents.

ghost use Rattle.std.specs.Prelude.{◌≡◌, ◌+◌, ◌<◌, ◌^◌, [], true, length, OnOk, OnErr, IfOk};
ghost use Rattle.std.specs.List.{list_any, position_or_len};
ghost use Rattle.ew_model.specs.Ids.{name_eq};
ghost use Rattle.ew_model.specs.Writable.{agents_of};
ghost use Rattle.event_file.specs.Writing.{with_name};

use ew_model::NoMem;
use ew_model::event::Event;
use ew_model::name::Name;
use std::alloc::Global;
use std::collections::BTreeMap;
use std::marker::Model;

/// Agents in the order in which they came, each with its place in it, from 0. Contracts see the list of names.
#[derive(Drop)]
pub struct Agents {
    names: Vec<Name>,
    numbers: BTreeMap<Name, u32>,
    /// Where the agent stands that was put there last, or that was found to be there.
    last: u32,
}

impl Model for Agents {
    ghost use Rattle.std.specs.Prelude.{List, ℕ};
    ghost use Rattle.std.specs.BTreeMap.{get};
    ghost use Rattle.std.specs.Cmp.Lexicographic.{slice_cmp};
    ghost use Rattle.std.specs.Ordering.{nat_cmp};
    ghost use Rattle.ew_model.specs.Distinct.{AreDistinct};
    ghost use Rattle.ew_model.specs.Ids.{name_eq};
    ghost use Rattle.event_file.specs.Places.{HasPlaces};

    ghost Value = { List (List ℕ) };

    ghost view = { λ a. a.names.items };

    ghost invariant = { λ a. HasPlaces name_eq (get (slice_cmp nat_cmp) a.numbers) a.names.items × AreDistinct name_eq a.names.items };
}

impl Agents {
    /// No agents.
    pub fn new(alloc: Global) -> Agents
        ensures { result ≡ [] }
    {
        Agents {
            names: Vec::new(alloc),
            numbers: BTreeMap::new(alloc),
            last: 0,
        }
    }

    /// The agents of the events.
    pub(crate) fn of(alloc: Global, events: &[Event]) -> Result<Agents, NoMem>
        requires { length events.now < 2 ^ 32 }
        ensures { IfOk result (λ agents. agents ≡ agents_of events.now) }
    {
        let mut agents = Agents::new(alloc);
        for event in events {
            agents.add(&event.id.agent)?;
        }
        Ok(agents)
    }

    /// Puts an agent behind the others, unless it is there.
    pub fn add(&mut self, name: &Name) -> Result<(), NoMem>
        requires { length self.old < 2 ^ 32 }
        ensures ok { OnOk result (self.new ≡ with_name self.old name.now) }
        ensures err { OnErr result (self.new ≡ self.old) }
    {
        if self.is_at(self.last, name) {
            return Ok(());
        }
        if let Some(number) = self.numbers.get(name) {
            self.last = *number;
            return Ok(());
        }
        let number = self.names.len() as u32;
        self.names.reserve(1)?;
        self.numbers.insert(*name, number)?;
        self.names.push_reserved(*name);
        self.last = number;
        Ok(())
    }

    /// Whether this agent is the one at a place.
    fn is_at(&self, place: u32, name: &Name) -> bool
        ensures there { result ≡ true → list_any (name_eq name.now) self.now ≡ true }
        ensures place { result ≡ true → place ≡ position_or_len (name_eq name.now) self.now }
    {
        match self.names.get(place as usize) {
            Some(there) => there.is(name),
            None => false,
        }
    }

    /// The names of the agents, in order.
    pub fn as_slice(&self) -> &[Name]
        ensures { result.now ≡ self.now }
    {
        self.names.as_slice()
    }

    /// The place of an agent that is there.
    pub fn number_of(&self, name: &Name) -> u32
        requires { list_any (name_eq name.now) self.now ≡ true }
        ensures { result ≡ position_or_len (name_eq name.now) self.now }
    {
        match self.numbers.get(name) {
            Some(number) => *number,
            None => unreachable!(),
        }
    }

    /// The place of an agent that is there. It is looked for at `near` first, and left there.
    pub fn number_near(&self, name: &Name, near: &mut u32) -> u32
        requires { list_any (name_eq name.now) self.now ≡ true }
        ensures value { result ≡ position_or_len (name_eq name.now) self.now }
        ensures near { near.new ≡ result }
    {
        if !self.is_at(*near, name) {
            *near = self.number_of(name);
        }
        *near
    }
}
