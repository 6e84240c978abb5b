//! Receiving the events of a graph.
ghost use Rattle.std.specs.Prelude.{◌≡◌, ◌<◌, ◌≤◌, ◌+◌, ◌^◌, [], ◌++◌, length, IfOk};
ghost use Rattle.std.specs.List.{All};
ghost use Rattle.history_laws.specs.Repeats.{without_held};
ghost use Rattle.ew_model.specs.ArrivalLaw.{OneEach};
ghost use Rattle.ew_model.specs.Rounds.{most_touches};
ghost use Rattle.event_graph.specs.Subgraphs.{events_at};
ghost use Rattle.replica.specs.Receiving.{Receives};

use agreement::are_consistent;
use event_graph::Graph;
use ew_model::NoMem;
use ew_model::steps::Steps;
use replica::{Replica, Took};
use std::sync::ledger::Ledger;

/// Receives the events of a graph. Where both have one event for each id, those that are held are left out and counted as
/// repeats, which leaves and tells what receiving all would.
pub fn take<L: Ledger>(
    replica: &mut Replica,
    other: Graph,
    steps: &mut Steps<L>,
) -> Result<Took, NoMem>
    requires none_waits { replica.old.waiting ≡ [] }
    ensures received { IfOk result (Receives replica.old other replica.new) }
    ensures most { steps.new ≤ steps.old + most_touches replica.old.limits replica.old.held [] other }
{
    if are_consistent(&other, replica.graph()) {
        take_lacking(replica, other, steps)
    } else {
        let offer = offer_of_all(other)?;
        receive_offer(replica, &offer, steps)
    }
}

/// Receives those events of another graph that aren't held. The others are repeats.
fn take_lacking<L: Ledger>(
    replica: &mut Replica,
    other: Graph,
    steps: &mut Steps<L>,
) -> Result<Took, NoMem>
    requires none_waits { replica.old.waiting ≡ [] }
    requires consistent { OneEach (other ++ replica.old.held) }
    ensures received { IfOk result (Receives replica.old other replica.new) }
    ensures most { steps.new ≤ steps.old + most_touches replica.old.limits replica.old.held [] other }
{
    let offer = offer_of(replica, other)?;
    let mut took = receive_offer(replica, &offer, steps)?;
    took.repeats += offer.held;
    Ok(took)
}

/// What another graph has: the positions of its events that are to be received, and how many others there are.
#[derive(Drop)]
struct Offer {
    graph: Graph,
    positions: Vec<u32>,
    held: u32,
}

/// What another graph has that is lacking here.
fn offer_of(replica: &Replica, graph: Graph) -> Result<Offer, NoMem>
    ensures within { IfOk result (λ o. All (λ p. p < length o.graph) o.positions.items) }
    ensures lacking { IfOk result (λ o. events_at o.graph o.positions.items ≡ without_held replica.now.held graph) }
    ensures held { IfOk result (λ o. o.held + length (events_at o.graph o.positions.items) ≡ length graph) }
    ensures short { IfOk result (λ o. length o.positions.items < 2 ^ 32) }
    ensures few { IfOk result (λ o. length graph < 2 ^ 32) }
{
    let count = graph.count();
    let known = replica.graph().summary()?;
    let positions = graph.missing_positions(&known)?;
    let held = count - positions.len() as u32;
    Ok(Offer {
        graph,
        positions,
        held,
    })
}

/// All that another graph holds.
fn offer_of_all(graph: Graph) -> Result<Offer, NoMem>
    ensures within { IfOk result (λ o. All (λ p. p < length o.graph) o.positions.items) }
    ensures all { IfOk result (λ o. events_at o.graph o.positions.items ≡ graph) }
    ensures short { IfOk result (λ o. length o.positions.items < 2 ^ 32) }
{
    let _count = graph.count();
    let positions = graph.missing_positions(&[])?;
    Ok(Offer {
        graph,
        positions,
        held: 0,
    })
}

/// Receives what is offered.
fn receive_offer<L: Ledger>(
    replica: &mut Replica,
    offer: &Offer,
    steps: &mut Steps<L>,
) -> Result<Took, NoMem>
    requires within { All (λ p. p < length offer.now.graph) offer.now.positions.items }
    requires short { length offer.now.positions.items < 2 ^ 32 }
    ensures received { IfOk result (Receives replica.old (events_at offer.now.graph offer.now.positions.items) replica.new) }
    ensures most { steps.new ≤ steps.old + most_touches replica.old.limits replica.old.held replica.old.waiting (events_at offer.now.graph offer.now.positions.items) }
{
    replica.receive_from(&offer.graph, offer.positions.as_slice(), steps)
}
