//! The events of a graph as a list.

ghost use Rattle.std.specs.Prelude.{◌≡◌, IfOk};

use event_graph::{Graph, Near};
use ew_model::NoMem;
use ew_model::event::Event;
use std::alloc::Global;

/// All events of a graph, in order.
pub fn listed(alloc: Global, graph: &Graph) -> Result<Vec<Event>, NoMem>
    ensures { IfOk result (λ v. v.items ≡ graph.now) }
{
    let count = graph.count();
    let mut events = Vec::with_capacity(alloc, count as usize)?;
    let mut near = Near::start();
    for position in 0..count {
        events.push(graph.event_near(position, &mut near)?)?;
    }
    Ok(events)
}
