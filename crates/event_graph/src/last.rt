//! The last event, and the events that go on right behind it.

ghost use Rattle.std.specs.Prelude.{◌≡◌, ◌↔◌, ◌+◌, ◌<◌, ◌^◌, [], ◌∷◌, ◌++◌, length, Some, IfSome, IsTrue, OnOk, OnErr};
ghost use Rattle.ew_model.specs.declared.id.Id.{Id};
ghost use Rattle.ew_model.specs.Positions.{positions_in};
ghost use Rattle.history_definitions.specs.Chains.{event_behind, next_id, last_id};
ghost use Rattle.event_graph.specs.GoingOn.{GoesOn};

use crate::graph::Graph;
use ew_model::NoMem;
use ew_model::event::{Event, Op};
use ew_model::id::Id;

impl Graph {
    /// The id of the last event, if there is one.
    pub fn last_id(&self) -> Option<Id>
        ensures { result ≡ last_id self.now }
    {
        let count = self.count();
        if count > 0 {
            Some(self.id_from_end(count - 1))
        } else {
            None
        }
    }

    /// Whether the event is the next one of the last event's agent, and has that event as its one parent.
    pub(crate) fn goes_on(&self, e: &Event) -> bool
        ensures { IsTrue result ↔ GoesOn self.now e.now }
    {
        match self.last_id() {
            Some(last) => is_next(&last, &e.id) && is_only(e.parents.as_slice(), &last),
            None => false,
        }
    }

    /// The position of the last event, where its id is the only one of these.
    pub(crate) fn find_last(&self, ids: &[Id]) -> Option<u32>
        ensures { IfSome result (λ p. p ∷ [] ≡ positions_in self.now ids.now) }
    {
        let last = self.last_id()?;
        if is_only(ids, &last) {
            Some(self.count() - 1)
        } else {
            None
        }
    }

    /// Puts an event behind the others that goes on from the last one: the next of its agent, with the last event as its only
    /// parent. `judge` finds such an event good, whatever its index.
    pub fn go_on(&mut self, op: Op) -> Result<(), NoMem>
        requires some { 0 < length self.old }
        requires room { length self.old + 1 < 2 ^ 32 }
        ensures ok { OnOk result ((x : Id) × (last_id self.old ≡ Some x) × (self.new ≡ self.old ++ event_behind x op ∷ [])) }
        ensures err { OnErr result (self.new ≡ self.old) }
    {
        let position = self.count() - 1;
        if is_only_place(self.frontier().as_slice(), position) {
            return self.put_on_last(&op);
        }
        let last = self.id_from_end(position);
        let next = Id {
            agent: last.agent,
            seq: last.seq + 1,
        };
        self.put(next, &op, &[position])?;
        Ok(())
    }
}

/// Whether the second is the next id of the first one's agent.
fn is_next(x: &Id, y: &Id) -> bool
    ensures { IsTrue result ↔ (y.now ≡ next_id x.now) }
{
    x.seq < y.seq && y.seq - x.seq == 1 && y.agent.is(&x.agent)
}

/// Whether the id is the only one of these.
fn is_only(ids: &[Id], x: &Id) -> bool
    ensures { IsTrue result ↔ (ids.now ≡ x.now ∷ []) }
{
    ids.len() == 1 && ids[0].is(x)
}

/// Whether the position is the only one of these.
fn is_only_place(positions: &[u32], place: u32) -> bool
    ensures { IsTrue result ↔ (positions.now ≡ place ∷ []) }
{
    positions.len() == 1 && positions[0] == place
}
