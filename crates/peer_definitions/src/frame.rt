//! Frames, and the lists in them.

ghost use Rattle.std.specs.Prelude.{◌≡◌};

use ew_model::event::Event;
use ew_model::id::Id;
use ew_model::name::Name;
use std::marker::Model;

/// Agents, each with a count of its events. Contracts see the list.
#[derive(Drop)]
pub struct Counts {
    counts: Vec<(Name, u32)>,
}

impl Model for Counts {
    ghost use Rattle.std.specs.Prelude.{List, ℕ};

    ghost Value = { List (List ℕ × ℕ) };

    ghost view = { λ c. c.counts.items };
}

impl Counts {
    /// The counts of a vector, in its order. It takes no memory.
    pub fn from_vec(counts: Vec<(Name, u32)>) -> Counts
        ensures { result ≡ counts.items }
    {
        Counts { counts }
    }

    /// The counts as a vector. It takes no memory.
    pub fn into_vec(self) -> Vec<(Name, u32)>
        ensures { result.items ≡ self }
    {
        self.counts
    }

    /// The counts, in order.
    pub fn as_slice(&self) -> &[(Name, u32)]
        ensures { result.now ≡ self.now }
    {
        self.counts.as_slice()
    }
}

/// Events, in the order in which they were sent. Contracts see the list.
#[derive(Drop)]
pub struct EventList {
    events: Vec<Event>,
}

impl Model for EventList {
    ghost use Rattle.std.specs.Prelude.{List};
    ghost use Rattle.ew_model.specs.declared.event.Event.{Event};

    ghost Value = { List Event };

    ghost view = { λ e. e.events.items };
}

impl EventList {
    /// The events of a vector, in its order. It takes no memory.
    pub fn from_vec(events: Vec<Event>) -> EventList
        ensures { result ≡ events.items }
    {
        EventList { events }
    }

    /// The events as a vector. It takes no memory.
    pub fn into_vec(self) -> Vec<Event>
        ensures { result.items ≡ self }
    {
        self.events
    }

    /// The events, in order.
    pub fn as_slice(&self) -> &[Event]
        ensures { result.now ≡ self.now }
    {
        self.events.as_slice()
    }
}

/// What a peer sends to another.
#[derive(Drop)]
pub enum Frame {
    /// How many events of each agent the sender holds. The names ascend, and no count is 0.
    Have(Counts),
    /// Events that the receiver may lack.
    Events(EventList),
    /// All that was asked for was sent.
    Done,
    /// How many of the events received were accepted, wait now, stood there before, or were refused.
    Took {
        accepted: u32,
        waiting: u32,
        repeats: u32,
        refused: u32,
    },
    /// The sender holds another event with this id.
    Clash(Id),
    /// The session ends.
    Bye,
}
