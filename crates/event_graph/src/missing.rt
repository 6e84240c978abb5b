//! The events that another side lacks.

ghost use Rattle.std.specs.Prelude.{◌≡◌, ◌<◌, IfOk, length, nat_lt};
ghost use Rattle.std.specs.List.{All, IsDistinct};
ghost use Rattle.std.specs.Map.{keys_of};
ghost use Rattle.ew_model.specs.Ids.{name_eq};
ghost use Rattle.history_definitions.specs.Missing.{count_in, missing};
ghost use Rattle.event_graph.specs.Subgraphs.{events_at};

use crate::graph::Graph;
use crate::near::Near;
use ew_model::NoMem;
use ew_model::event::Event;
use ew_model::id::Id;
use ew_model::name::Name;
use indexmap::IndexMap;
use std::alloc::Global;
use std::marker::Model;

impl Graph {
    /// The events that the counts leave out, in the graph's order: those whose number isn't below the count of their agent, which
    /// is 0 where the agent isn't in the list.
    pub fn missing(&self, counts: &[(Name, u32)]) -> Result<Vec<Event>, NoMem>
        requires { IsDistinct name_eq (keys_of counts.now) }
        ensures { IfOk result (λ v. v.items ≡ missing self.now counts.now) }
    {
        let positions = self.missing_positions(counts)?;
        self.events_at(positions.as_slice())
    }

    /// The positions of the events that the counts leave out, in the graph's order.
    pub fn missing_positions(&self, counts: &[(Name, u32)]) -> Result<Vec<u32>, NoMem>
        requires { IsDistinct name_eq (keys_of counts.now) }
        ensures within { IfOk result (λ v. All (λ p. p < length self.now) v.items) }
        ensures events { IfOk result (λ v. events_at self.now v.items ≡ missing self.now counts.now) }
        ensures count { IfOk result (λ v. length v.items ≡ length (missing self.now counts.now)) }
    {
        let mut counted = Counted::new(by_agent(self.alloc(), counts)?);
        let mut missing = Vec::new(self.alloc());
        let mut near = Near::start();
        for position in 0..self.count() {
            if !counted.holds(&self.id_near(position, &mut near)) {
                missing.push(position)?;
            }
        }
        Ok(missing)
    }

    /// The events at these positions.
    fn events_at(&self, positions: &[u32]) -> Result<Vec<Event>, NoMem>
        requires { All (λ p. p < length self.now) positions.now }
        ensures { IfOk result (λ v. v.items ≡ events_at self.now positions.now) }
    {
        let mut events = Vec::with_capacity(self.alloc(), positions.len())?;
        let mut near = Near::start();
        for position in positions {
            events.push(self.event_near(*position, &mut near)?)?;
        }
        Ok(events)
    }
}

/// The counts by agent.
fn by_agent(alloc: Global, counts: &[(Name, u32)]) -> Result<IndexMap<Name, u32>, NoMem>
    requires { IsDistinct name_eq (keys_of counts.now) }
    ensures { IfOk result (λ m. m.entries ≡ counts.now) }
{
    let mut counted = IndexMap::with_capacity(alloc, counts.len())?;
    for own in counts {
        counted.insert(own.0, own.1)?;
    }
    Ok(counted)
}

/// The counts by agent. Contracts see the list of them.
#[derive(Drop)]
struct Counted {
    counts: IndexMap<Name, u32>,
    /// An agent that was asked about lately, with its count: most often the next id is that agent's too.
    lately: Option<(Name, u32)>,
}

impl Model for Counted {
    ghost use Rattle.std.specs.Prelude.{◌≡◌, ℕ, List, IfSome};
    ghost use Rattle.history_definitions.specs.Missing.{count_in};

    ghost Value = { List (List ℕ × ℕ) };

    ghost view = { λ c. c.counts.entries };

    ghost invariant = { λ c. IfSome c.lately (λ own. own.1 ≡ count_in c.counts.entries own.0) };
}

impl Counted {
    /// Nobody was asked about yet.
    fn new(counts: IndexMap<Name, u32>) -> Counted
        ensures { result ≡ counts.entries }
    {
        Counted {
            counts,
            lately: None,
        }
    }

    /// Whether the id's number is below its agent's count.
    fn holds(&mut self, id: &Id) -> bool
        ensures value { result ≡ nat_lt id.now.seq (count_in self.old id.now.agent) }
        ensures same { self.new ≡ self.old }
    {
        id.seq < self.count_of(&id.agent)
    }

    /// The agent's count.
    fn count_of(&mut self, agent: &Name) -> u32
        ensures value { result ≡ count_in self.old agent.now }
        ensures same { self.new ≡ self.old }
    {
        if let Some((lately, count)) = self.lately {
            if lately.is(agent) {
                return count;
            }
        }
        let count = count_by(&self.counts, agent);
        self.lately = Some((*agent, count));
        count
    }
}

/// The count of an agent: 0 where it isn't among these.
fn count_by(counts: &IndexMap<Name, u32>, agent: &Name) -> u32
    ensures { result ≡ count_in counts.now.entries agent.now }
{
    match counts.get(agent) {
        Some(count) => *count,
        None => 0,
    }
}
