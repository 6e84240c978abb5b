//! The events that are to be undone.

ghost use Rattle.std.specs.Prelude.{◌≡◌, ◌↔◌, ◌+◌, ◌<◌, ◌≤◌, IsTrue, find, max, not};
ghost use Rattle.ew_model.specs.Ancestors.{is_held};
ghost use Rattle.ew_model.specs.Ids.{is_among};
ghost use Rattle.ew_model.specs.Verdicts.{IsGood};
ghost use Rattle.undo.specs.Undone.{undone_ids};

use event_graph::Graph;
use ew_model::id::Id;
use ew_model::name::Name;

/// The events that are to be undone: so many of one agent, from a number on.
#[derive(Clone, Copy)]
pub struct Undone {
    pub agent: Name,
    /// The number of the first one.
    pub first: u32,
    /// How many they are.
    pub count: u32,
}

impl Undone {
    /// Whether the event with this id is one of them.
    pub fn has(&self, id: &Id) -> bool
        ensures { result ≡ is_among (undone_ids self.now) id.now }
    {
        if self.has_number(id.seq) {
            id.agent.is(&self.agent)
        } else {
            false
        }
    }

    /// Whether one of them has this number.
    fn has_number(&self, seq: u32) -> bool
        ensures { IsTrue result ↔ ((self.now.first ≤ seq) × (seq < self.now.first + self.now.count)) }
    {
        if seq < self.first {
            false
        } else {
            seq - self.first < self.count
        }
    }

    /// The number behind the last one.
    fn end(&self) -> u64
        ensures { result ≡ self.now.first + self.now.count }
    {
        u64::from(self.first) + u64::from(self.count)
    }

    /// The id of the first of them that a graph of a good history doesn't hold.
    pub fn first_missing(&self, graph: &Graph) -> Option<Id>
        requires { IsGood graph.now }
        ensures { result ≡ find (λ x. not (is_held graph.now x)) (undone_ids self.now) }
    {
        let held = graph.count_of(&self.agent);
        if self.count == 0 {
            return None;
        }
        if self.end() <= u64::from(held) {
            None
        } else {
            let seq = later(self.first, held);
            Some(Id {
                agent: self.agent,
                seq,
            })
        }
    }
}

/// The greater of two numbers.
fn later(first: u32, held: u32) -> u32
    ensures { result ≡ max first held }
{
    if first < held { held } else { first }
}
