//! Reading the bodies of frames.

ghost use Rattle.std.specs.Prelude.{◌≡◌, ◌<◌, ◌^◌, [], ◌∷◌, ◌++◌, true, map, length};
ghost use Rattle.peer_frames.specs.Answers.{IsRead};
ghost use Rattle.peer_definitions.specs.Spelling.{names_ascend};
ghost use Rattle.peer_frames.specs.Reading.{Gives, one_count, one_event, read_ids, read_events, read_counts, all_counts, all_events, all_taken, content, frame_in, kind_byte};

use crate::fault::FrameFault;
use crate::input::Input;
use crate::kind::Kind;
use ew_model::event::Event;
use ew_model::id::Id;
use ew_model::name::Name;
use ew_model::parents::Parents;
use peer_definitions::frame::{Counts, EventList, Frame};
use std::alloc::Global;

/// The frame of this kind with this body.
pub(crate) fn read_body(alloc: Global, kind: Kind, body: &[u8]) -> Result<Frame, FrameFault>
    requires { length body.now < 2 ^ 32 }
    ensures { IsRead (kind_byte kind) body.now result }
{
    read_whole(alloc, kind, body)
}

#[tactic(auto, unfolding(crate::specs::Reading::frame_in))]
fn read_whole(alloc: Global, kind: Kind, body: &[u8]) -> Result<Frame, FrameFault>
    ensures { Gives (λ frame. frame) result (frame_in kind body.now) }
{
    let mut input = Input { left: body };
    let frame = read_content(alloc, kind, &mut input)?;
    if !input.left.is_empty() {
        return Err(FrameFault::BadBody);
    }
    Ok(frame)
}

#[tactic(auto, unfolding(crate::specs::Reading::content))]
fn read_content(alloc: Global, kind: Kind, input: &mut Input) -> Result<Frame, FrameFault>
    ensures { Gives (λ frame. (frame, input.new.left.now)) result (content kind input.old.left.now) }
{
    match kind {
        Kind::Have => {
            let counts = read_counts(alloc, input)?;
            Ok(Frame::Have(Counts::from_vec(counts)))
        }
        Kind::Events => {
            let events = read_events(alloc, input)?;
            Ok(Frame::Events(EventList::from_vec(events)))
        }
        Kind::Done => Ok(Frame::Done),
        Kind::Took => read_took(input),
        Kind::Clash => {
            let id = input.id()?;
            Ok(Frame::Clash(id))
        }
        Kind::Bye => Ok(Frame::Bye),
    }
}

#[tactic(auto, unfolding(crate::specs::Reading::all_taken))]
fn read_took(input: &mut Input) -> Result<Frame, FrameFault>
    ensures { Gives (λ frame. (frame, input.new.left.now)) result (all_taken input.old.left.now) }
{
    let accepted = input.number()?;
    let waiting = input.number()?;
    let repeats = input.number()?;
    let refused = input.number()?;
    Ok(Frame::Took {
        accepted,
        waiting,
        repeats,
        refused,
    })
}

/// The body of a frame of counts.
#[tactic(auto, unfolding(crate::specs::Reading::all_counts))]
fn read_counts(alloc: Global, input: &mut Input) -> Result<Vec<(Name, u32)>, FrameFault>
    ensures { Gives (λ counts. (counts.items, input.new.left.now)) result (all_counts input.old.left.now) }
{
    let count = input.number()?;
    read_each_count(alloc, count, input)
}

/// So many counts, whose names ascend.
fn read_each_count(
    alloc: Global,
    count: u32,
    input: &mut Input,
) -> Result<Vec<(Name, u32)>, FrameFault>
    ensures { Gives (λ counts. (counts.items, input.new.left.now)) result (read_counts [] count input.old.left.now) }
{
    let mut counts = Vec::new(alloc);
    for _ in 0..count {
        let next = read_count(counts.as_slice(), input)?;
        counts.push(next)?;
    }
    Ok(counts)
}

/// A count that may stand behind these.
#[tactic(auto, unfolding(crate::specs::Reading::one_count))]
fn read_count(before: &[(Name, u32)], input: &mut Input) -> Result<(Name, u32), FrameFault>
    requires { names_ascend (map (λ d. d.0) before.now) ≡ true }
    ensures { Gives (λ c. (c, input.new.left.now)) result (one_count before.now input.old.left.now) }
{
    let agent = input.name()?;
    let count = input.number()?;
    if count == 0 || !is_above(before, &agent) {
        return Err(FrameFault::BadBody);
    }
    Ok((agent, count))
}

/// Whether the name is above the last of names that ascend.
fn is_above(before: &[(Name, u32)], agent: &Name) -> bool
    requires { names_ascend (map (λ d. d.0) before.now) ≡ true }
    ensures { result ≡ names_ascend (map (λ d. d.0) before.now ++ agent.now ∷ []) }
{
    match before.last() {
        Some((last, _)) => last.cmp(agent).is_lt(),
        None => true,
    }
}

/// The body of a frame of events.
#[tactic(auto, unfolding(crate::specs::Reading::all_events))]
pub(crate) fn read_events(alloc: Global, input: &mut Input) -> Result<Vec<Event>, FrameFault>
    ensures { Gives (λ events. (events.items, input.new.left.now)) result (all_events input.old.left.now) }
{
    let count = input.number()?;
    read_each_event(alloc, count, input)
}

fn read_each_event(alloc: Global, count: u32, input: &mut Input) -> Result<Vec<Event>, FrameFault>
    ensures { Gives (λ events. (events.items, input.new.left.now)) result (read_events [] count input.old.left.now) }
{
    let mut events = Vec::new(alloc);
    for _ in 0..count {
        let event = read_event(alloc, input)?;
        events.push(event)?;
    }
    Ok(events)
}

#[tactic(auto, unfolding(crate::specs::Reading::one_event))]
fn read_event(alloc: Global, input: &mut Input) -> Result<Event, FrameFault>
    ensures { Gives (λ e. (e, input.new.left.now)) result (one_event input.old.left.now) }
{
    let id = input.id()?;
    let count = input.byte()?;
    let parents = read_ids(alloc, count, input)?;
    let op = input.operation()?;
    Ok(Event {
        id,
        parents: Parents::from_vec(parents),
        op,
    })
}

fn read_ids(alloc: Global, count: u8, input: &mut Input) -> Result<Vec<Id>, FrameFault>
    ensures { Gives (λ ids. (ids.items, input.new.left.now)) result (read_ids [] count input.old.left.now) }
{
    let mut ids = Vec::with_capacity(alloc, usize::from(count))?;
    for _ in 0..count {
        let id = input.id()?;
        ids.push(id)?;
    }
    Ok(ids)
}
