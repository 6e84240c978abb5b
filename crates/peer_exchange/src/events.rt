//! Events in frames.

ghost use Rattle.std.specs.Prelude.{◌≡◌, ◌<◌, [], ◌∷◌, ◌++◌, map, take, drop, IfOk, OnOk};
ghost use Rattle.std.specs.Vec.Iter.{into_iter_items};
ghost use Rattle.peer_definitions.specs.declared.frame.Frame.TheVariants as frame;
ghost use Rattle.peer_definitions.specs.Answering.{event_frames};
ghost use Rattle.peer_definitions.specs.Pieces.{frame_room, pieces};

use ew_model::NoMem;
use ew_model::event::Event;
use ew_model::limits::{COUNT_BYTES, Limits, MOST_EVENT_BYTES};
use peer_frames::{EventList, Frame};
use std::alloc::Global;
use std::vec::IntoIter;

/// Frames of the events, in order, each full but the last, and Done behind them.
pub fn all_frames(alloc: Global, limits: &Limits, events: Vec<Event>) -> Result<Vec<Frame>, NoMem>
    ensures { IfOk result (λ frames. frames.items ≡ event_frames limits.now events.items ++ frame.Done ∷ []) }
{
    let mut frames = event_frames(alloc, limits, events)?;
    frames.push(Frame::Done)?;
    Ok(frames)
}

/// Frames of the events, in order, each full but the last; none where there is no event.
pub fn event_frames(alloc: Global, limits: &Limits, events: Vec<Event>) -> Result<Vec<Frame>, NoMem>
    ensures { IfOk result (λ frames. frames.items ≡ event_frames limits.now events.items) }
{
    in_frames(alloc, frame_room(limits), events)
}

/// How many events go into one frame.
fn frame_room(limits: &Limits) -> usize
    ensures room { result ≡ frame_room limits.now }
    ensures some { 0 < result }
{
    ((limits.body() - COUNT_BYTES) / MOST_EVENT_BYTES) as usize
}

/// Frames of so many events each.
fn in_frames(alloc: Global, room: usize, events: Vec<Event>) -> Result<Vec<Frame>, NoMem>
    requires { 0 < room }
    ensures { IfOk result (λ frames. frames.items ≡ map frame.Events (pieces room events.items)) }
{
    let count = events.len().div_ceil(room);
    let mut frames = Vec::with_capacity(alloc, count)?;
    let mut rest = events.into_iter();
    for _ in 0..count {
        let piece = next_piece(alloc, room, &mut rest)?;
        frames.push(Frame::Events(EventList::from_vec(piece)))?;
    }
    Ok(frames)
}

/// Takes so many events off the front, or all that are left.
fn next_piece(
    alloc: Global,
    room: usize,
    rest: &mut IntoIter<Event, Global>,
) -> Result<Vec<Event>, NoMem>
    ensures piece { IfOk result (λ piece. piece.items ≡ take room (into_iter_items rest.old)) }
    ensures rest { OnOk result (into_iter_items rest.new ≡ drop room (into_iter_items rest.old)) }
{
    let len = room.min(rest.len());
    let mut piece = Vec::with_capacity(alloc, len)?;
    for _ in 0..len {
        if let Some(event) = rest.next() {
            piece.push(event)?;
        }
    }
    Ok(piece)
}
