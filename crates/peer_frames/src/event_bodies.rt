//! Bodies of Events frames, without the frame around them.

ghost use Rattle.std.specs.Prelude.{◌≡◌, ◌<◌, ◌≤◌, ◌^◌, List, length, OnOk, IfOk, MatchOption};
ghost use Rattle.std.specs.List.{AllByRecursion};
ghost use Rattle.ew_model.specs.declared.event.Event.{Event};
ghost use Rattle.ew_model.specs.Sound.{AreSound};
ghost use Rattle.peer_definitions.specs.Spelling.{events_body};
ghost use Rattle.peer_definitions.specs.Batches.{IsEventsBody};
ghost use Rattle.peer_frames.specs.Reading.{Gives, all_of, all_events};

use crate::fault::FrameFault;
use crate::input::Input;
use crate::reading::read_events;
use crate::writing::put_events;
use ew_model::NoMem;
use ew_model::event::Event;
use std::alloc::Global;

/// The body of an Events frame of these events. Each has at most 255 parents, and the body has fewer than 2^32 bytes.
pub fn encode_events(alloc: Global, events: &[Event]) -> Result<Vec<u8>, NoMem>
    requires parents { AllByRecursion (λ e. length e.parents ≤ 255) events.now }
    requires bytes { length (events_body events.now) < 2 ^ 32 }
    ensures bytes { IfOk result (λ bytes. bytes.items ≡ events_body events.now) }
    // What is written was in the ranges of its fields.
    ensures sound { OnOk result (AreSound events.now) }
{
    let mut bytes = Vec::new(alloc);
    put_events(&mut bytes, events)?;
    Ok(bytes)
}

/// The events whose body these bytes are, or None exactly where they are no body of an Events frame.
pub fn decode_events(alloc: Global, bytes: &[u8]) -> Result<Option<Vec<Event>>, NoMem>
    ensures { IfOk result (λ found. MatchOption found ((events : List Event) → ¬ IsEventsBody bytes.now events) (λ events. IsEventsBody bytes.now events.items)) }
{
    match read_all(alloc, bytes) {
        Ok(events) => Ok(Some(events)),
        Err(FrameFault::BadBody) => Ok(None),
        Err(_) => Err(NoMem),
    }
}

fn read_all(alloc: Global, bytes: &[u8]) -> Result<Vec<Event>, FrameFault>
    ensures { Gives (λ events. events.items) result (all_of (all_events bytes.now)) }
{
    let mut input = Input { left: bytes };
    let events = read_events(alloc, &mut input)?;
    if !input.left.is_empty() {
        return Err(FrameFault::BadBody);
    }
    Ok(events)
}
