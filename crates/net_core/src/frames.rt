//! Events of a replica in frames.

ghost use Rattle.std.specs.Prelude.{◌≡◌, ◌≤◌, length, IfOk};
ghost use Rattle.std.specs.List.{AllByRecursion};
ghost use Rattle.ew_model.specs.declared.event.Event.{Event};
ghost use Rattle.ew_model.specs.Sound.{AreSound};
ghost use Rattle.peer_definitions.specs.Answering.{event_frames};
ghost use Rattle.peer_frames.specs.Laws.{IsTaken};
ghost use Rattle.peer_definitions.specs.Machine.{piece_of};

use event_graph::Graph;
use ew_model::NoMem;
use ew_model::event::Event;
use ew_model::limits::Limits;
use peer_exchange::event_frames;
use peer_frames::Frame;
use std::alloc::Global;

/// Frames of events, which a reader with the limits takes.
pub fn in_frames(alloc: Global, limits: &Limits, events: Vec<Event>) -> Result<Vec<Frame>, NoMem>
    requires sound { AreSound events.items }
    requires few { AllByRecursion (λ (e : Event). length e.parents ≤ 16) events.items }
    ensures frames { IfOk result (λ frames. frames.items ≡ event_frames limits.now events.items) }
    ensures taken { IfOk result (λ frames. AllByRecursion (IsTaken limits.now) frames.items) }
{
    let _most = limits.events();
    let frames = event_frames(alloc, limits, events)?;
    Ok(frames)
}

/// At most so many events of a graph, from a position on.
pub fn piece(alloc: Global, graph: &Graph, skip: u32, count: u32) -> Result<Vec<Event>, NoMem>
    ensures { IfOk result (λ events. events.items ≡ piece_of skip count graph.now) }
{
    let held = graph.count();
    let from = skip.min(held);
    let to = from + count.min(held - from);
    let mut events = Vec::with_capacity(alloc, (to - from) as usize)?;
    for position in from..to {
        events.push(graph.event_at(position)?)?;
    }
    Ok(events)
}
