//! The events that are received.

ghost use Rattle.std.specs.Prelude.{◌≡◌, ◌↔◌, ℕ, ◌+◌, ◌<◌, ◌≤◌, ◌^◌, length, map, slice_get, Some, IfOk, IfSome, IsTrue};
ghost use Rattle.std.specs.Cow.{cow_value};
ghost use Rattle.std.specs.List.{All, ItemBy};
ghost use Rattle.ew_model.specs.TextLaws.{own_change};
ghost use Rattle.event_graph.specs.GoingOn.{chain_behind};
ghost use Rattle.event_graph.specs.Subgraphs.{events_at};
ghost use Rattle.event_runs.specs.RunOps.{IndicesFit, ops_of};
ghost use Rattle.operation_runs.specs.Runs.{run_ops, RunFits};
ghost use Rattle.replica.specs.Offering.{StandAt};

use event_graph::{Graph, Near};
use event_runs::RunOps;
use ew_model::NoMem;
use ew_model::event::Event;
use ew_model::id::Id;
use operation_runs::OperationRun;
use std::borrow::Cow;
use std::marker::Model;

/// Events that are received, wherever they are. Contracts see the list of them.
#[derive(Drop)]
pub struct Offered<'a> {
    source: Source<'a>,
}

/// Where events are.
#[derive(Drop)]
enum Source<'a> {
    /// In a list.
    Listed(&'a [Event]),
    /// At some positions of another graph.
    Held {
        graph: &'a Graph,
        positions: &'a [u32],
    },
}

impl<'a> Model for Offered<'a> {
    ghost use Rattle.std.specs.Prelude.{List};
    ghost use Rattle.ew_model.specs.declared.event.Event.{Event};
    ghost use Rattle.replica.specs.Offering.{AreWithin, offered_by};

    ghost Value = { List Event };

    ghost view = { λ o. offered_by o.source };

    ghost invariant = { λ o. AreWithin o.source };
}

impl<'a> Offered<'a> {
    /// Those of a list.
    pub fn listed(events: &'a [Event]) -> Offered<'a>
        ensures { result ≡ events.now }
    {
        Offered {
            source: Source::Listed(events),
        }
    }

    /// Those at some positions of a graph.
    pub fn held(graph: &'a Graph, positions: &'a [u32]) -> Offered<'a>
        requires { All (λ p. p < length graph.now) positions.now }
        ensures { result ≡ events_at graph.now positions.now }
    {
        Offered {
            source: Source::Held { graph, positions },
        }
    }

    /// The event at a place among them. In a graph it is sought first where the last one was found.
    pub fn get(&self, place: usize, near: &mut Near) -> Result<Option<Cow<'a, Event>>, NoMem>
        ensures { IfOk result (λ found. ItemBy cow_value self.now place place found) }
    {
        match self.source {
            Source::Listed(events) => Ok(listed_at(events, place)),
            Source::Held { graph, positions } => held_at(graph, positions, place, near),
        }
    }

    /// The operations of some events from a place on, at most so many: the first goes on from the event with this id, each further one
    /// from the one before it. Going on means to be the next of its agent, with the other event as its only parent. They are those of
    /// one run of a graph. Of a list it is always None.
    pub fn next_ops(
        &self,
        place: usize,
        last: &Id,
        most: u32,
        near: &mut Near,
    ) -> Option<RunOps<'a>>
        requires { 0 < most }
        ensures fit { IfSome result IndicesFit }
        ensures some { IfSome result (λ ops. 0 < length (ops_of ops)) }
        ensures few { IfSome result (λ ops. length (ops_of ops) ≤ most) }
        ensures there { IfSome result (λ ops. StandAt self.now place (chain_behind last.now (ops_of ops))) }
    {
        match self.source {
            Source::Listed(_) => None,
            Source::Held { graph, positions } => {
                next_ops_at(graph, positions, place, last, most, near)
            }
        }
    }
}

/// The event at a place of a list.
fn listed_at<'a>(events: &'a [Event], place: usize) -> Option<Cow<'a, Event>>
    ensures { ItemBy cow_value events.now place place result }
{
    let e = events.get(place)?;
    Some(Cow::Borrowed(e))
}

/// The event at a place among those at some positions of a graph.
fn held_at<'a>(
    graph: &'a Graph,
    positions: &'a [u32],
    place: usize,
    near: &mut Near,
) -> Result<Option<Cow<'a, Event>>, NoMem>
    requires { All (λ p. p < length graph.now) positions.now }
    ensures { IfOk result (λ found. ItemBy cow_value (events_at graph.now positions.now) place place found) }
{
    let Some(position) = positions.get(place) else {
        return Ok(None);
    };
    let e = graph.event_near(*position, near)?;
    Ok(Some(Cow::Owned(e)))
}

/// The same for the events at some positions of a graph: those of the run in which the event before the first one stands.
fn next_ops_at<'a>(
    graph: &'a Graph,
    positions: &[u32],
    place: usize,
    last: &Id,
    most: u32,
    near: &mut Near,
) -> Option<RunOps<'a>>
    requires within { All (λ p. p < length graph.now) positions.now }
    requires some { 0 < most }
    ensures fit { IfSome result IndicesFit }
    ensures some { IfSome result (λ ops. 0 < length (ops_of ops)) }
    ensures few { IfSome result (λ ops. length (ops_of ops) ≤ most) }
    ensures there { IfSome result (λ ops. StandAt (events_at graph.now positions.now) place (chain_behind last.now (ops_of ops))) }
{
    // Asked for what its clauses tell: the events of a graph are sound, and fewer than 2^32.
    let _count = graph.count();
    let before = positions.get(place)?.checked_sub(1)?;
    if !graph.id_near(before, near).is(last) {
        return None;
    }
    // Each further event of a run has the event before it as its only parent.
    let run = graph.rest_near(before, near);
    let next = graph.next_ids_near(before, near);
    let most = most.min(next).min(run.count() - 1);
    let count = neighbours(&positions[place..], before + 1, most);
    if count > 0 {
        text_ops(run.part(1, count + 1))
    } else {
        None
    }
}

/// How many of these positions, from the first on, are a number and those that follow it, one after another; at most so many.
fn neighbours(positions: &[u32], first: u32, most: u32) -> u32
    requires { first + most ≤ 2 ^ 32 }
    ensures few { result ≤ most }
    ensures there { (k : ℕ) → k < result → slice_get positions.now k ≡ Some (first + k) }
    ensures end { result < most → slice_get positions.now result ≡ Some (first + result) → ⊥ }
{
    for count in 0..most {
        if !stands_at(positions, count as usize, first + count) {
            return count;
        }
    }
    most
}

/// Whether the position stands at a place among these.
fn stands_at(positions: &[u32], place: usize, position: u32) -> bool
    ensures { IsTrue result ↔ slice_get positions.now place ≡ Some position }
{
    match positions.get(place) {
        Some(there) => *there == position,
        None => false,
    }
}

/// The operations of a run that change the text. Of marks it is None.
fn text_ops<'a>(run: OperationRun<'a>) -> Option<RunOps<'a>>
    requires { RunFits run }
    ensures fit { IfSome result IndicesFit }
    ensures changes { IfSome result (λ ops. map own_change (ops_of ops) ≡ run_ops run.entry) }
{
    match run {
        OperationRun::Insertions { at, chars } => Some(RunOps::Insertions { at, text: chars }),
        OperationRun::Deletions { at, count } => Some(RunOps::Deletions { at, count }),
        OperationRun::BackDeletions { at, count } => Some(RunOps::BackDeletions { at, count }),
        OperationRun::Nothings { count: _ } => None,
    }
}
