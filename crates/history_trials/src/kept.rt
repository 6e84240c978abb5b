//! What is kept of a history: its ids, its operations and parents, its critical cuts and its heads, each by its own crate.

ghost use Rattle.std.specs.Prelude.{◌≡◌, ◌<◌, length, IfOk};
ghost use Rattle.std.specs.List.{All};

use crate::conditions::are_parents;
use agent_ids::AgentTable;
use critical::Cuts;
use event_runs::EventRuns;
use ew_model::event::Event;
use ew_model::id::Id;
use frontier::Frontier;
use std::alloc::Global;
use trial_rows::fault::Fault;

/// The four are of the same events.
#[derive(Drop)]
pub struct Kept {
    pub ids: AgentTable,
    pub events: EventRuns,
    pub cuts: Cuts,
    pub heads: Frontier,
    ghost ids_alike: { length ids ≡ length events },
    ghost cuts_alike: { cuts.count ≡ length events },
    ghost heads_alike: { All (λ h. h < length events) heads },
}

impl Kept {
    /// No events.
    pub fn new(alloc: Global) -> Result<Kept, Fault> {
        Ok(Kept {
            ids: AgentTable::new(alloc)?,
            events: EventRuns::new(alloc)?,
            cuts: Cuts::new(alloc)?,
            heads: Frontier::new(alloc)?,
        })
    }

    /// Puts one more event behind the others: the next one of its agent, whose parents are there.
    pub fn come(self, alloc: Global, e: &Event) -> Result<Kept, Fault> {
        let parents = positions_of(alloc, &self.ids, e.parents.as_slice())?;
        self.put(e, &parents)
    }

    /// The same, where its parents have these positions.
    fn put(self, e: &Event, parents: &[u32]) -> Result<Kept, Fault> {
        let Kept {
            mut ids,
            mut events,
            mut cuts,
            mut heads,
        } = self;
        let count = events.count();
        if count == u32::MAX
            || ids.count_of(&e.id.agent) != e.id.seq
            || !are_parents(parents, count)
        {
            return Err(Fault::Unreadable);
        }
        ids.append(e.id)?;
        events.append(e.op, parents)?;
        cuts.push(parents, &heads)?;
        heads.insert_event(count, parents)?;
        Ok(Kept {
            ids,
            events,
            cuts,
            heads,
        })
    }

    /// Leaves the first n events. Their cuts and heads are found again from their parents.
    pub fn leave(self, alloc: Global, n: u32) -> Result<Kept, Fault> {
        let Kept {
            mut ids,
            mut events,
            ..
        } = self;
        ids.truncate(n);
        events.truncate(n);
        let (cuts, heads) = fronts_of(alloc, &events)?;
        Ok(Kept {
            ids,
            events,
            cuts,
            heads,
        })
    }
}

/// The positions of these ids, rising.
fn positions_of(alloc: Global, held: &AgentTable, ids: &[Id]) -> Result<Vec<u32>, Fault> {
    let mut positions = Vec::new(alloc);
    for id in ids {
        positions.push(held.position(id).ok_or(Fault::Unreadable)?)?;
    }
    positions.sort_unstable();
    Ok(positions)
}

/// The cuts and the heads of these events.
fn fronts_of(alloc: Global, events: &EventRuns) -> Result<(Cuts, Frontier), Fault>
    ensures { IfOk result (λ fronts. (fronts.0.count ≡ length events.now) × All (λ h. h < length events.now) fronts.1) }
{
    let mut cuts = Cuts::new(alloc)?;
    let mut heads = Frontier::new(alloc)?;
    for position in 0..events.count() {
        let parents = events.parents_at(position);
        cuts.push(parents.as_slice(), &heads)?;
        heads.insert_event(position, parents.as_slice())?;
    }
    Ok((cuts, heads))
}
