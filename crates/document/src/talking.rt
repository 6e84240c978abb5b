//! What a document says to a peer, and what it answers.

ghost use Rattle.std.specs.Prelude.{◌≡◌, ◌<◌, ◌≤◌, ℕ, [], ◌++◌, false, drop, length, take, IfOk, OnErr, OnOk};
ghost use Rattle.std.specs.List.{All};
ghost use Rattle.ew_model.specs.Limits.{program_limits};
ghost use Rattle.peer_definitions.specs.Answering as answering;
ghost use Rattle.peer_definitions.specs.Spelling.{HasSpelling};
ghost use Rattle.document.specs.Documents.{later_bytes, question_bytes};
ghost use Rattle.document.specs.Talks.{Answers, IsAnswered, spelled};

use crate::fault::TalkingFault;
use event_graph::{Graph, Near};
use ew_model::NoMem;
use ew_model::event::Event;
use ew_model::limits::Limits;
use ew_model::steps::Steps;
use peer_exchange::{Reply, answer, ask, event_frames};
use peer_frames::{Frame, FrameReader, encode};
use replica::Replica;
use std::alloc::Global;
use std::sync::ledger::{Blank, Ledger};

/// A peer that sent nothing yet. Make one for each connection.
pub fn new_peer(alloc: Global) -> Result<FrameReader, NoMem>
    ensures { IfOk result (λ peer. peer ≡ record { limits = program_limits; bytes = []; refused = false }) }
{
    FrameReader::new(alloc, Limits::program())
}

/// The bytes of the question for what isn't held.
pub fn question_of(alloc: Global, replica: &Replica) -> Result<Vec<u8>, NoMem>
    ensures { IfOk result (λ bytes. bytes.items ≡ question_bytes replica.now) }
{
    let question = ask(replica)?;
    encode(alloc, &question)
}

/// The bytes of the frames of the events from a number on.
pub fn later_bytes(alloc: Global, replica: &Replica, from: u32) -> Result<Vec<u8>, NoMem>
    requires within { from ≤ length replica.now.held }
    ensures { IfOk result (λ bytes. bytes.items ≡ later_bytes replica.now from) }
{
    let frames = later_frames(alloc, replica, from)?;
    let mut bytes = Vec::new(alloc);
    put_frames(alloc, &frames, &mut bytes)?;
    Ok(bytes)
}

/// The frames of the events from a number on.
fn later_frames(alloc: Global, replica: &Replica, from: u32) -> Result<Vec<Frame>, NoMem>
    requires within { from ≤ length replica.now.held }
    ensures frames { IfOk result (λ frames. frames.items ≡ answering.event_frames replica.now.limits (drop from replica.now.held)) }
    ensures spelled { IfOk result (λ frames. All HasSpelling frames.items) }
{
    let _most = replica.limits().events();
    let _sound = replica.graph().count();
    let events = events_from(alloc, replica.graph(), from)?;
    let frames = event_frames(alloc, &replica.limits(), events)?;
    Ok(frames)
}

/// The events of a graph from a number on.
fn events_from(alloc: Global, graph: &Graph, from: u32) -> Result<Vec<Event>, NoMem>
    requires within { from ≤ length graph.now }
    ensures { IfOk result (λ v. v.items ≡ drop from graph.now) }
{
    let count = graph.count();
    let mut events = Vec::with_capacity(alloc, (count - from) as usize)?;
    let mut near = Near::start();
    for position in from..count {
        events.push(graph.event_near(position, &mut near)?)?;
    }
    Ok(events)
}

/// Answers the whole frames that a reader has, on a counter of its own.
pub fn answer_all_by<L: Ledger>(
    alloc: Global,
    replica: &mut Replica,
    peer: &mut FrameReader,
    out: &mut Vec<u8>,
    blank: Blank,
) -> Result<(), TalkingFault>
    requires empty { out.old.items ≡ [] }
    requires name { blank.name ≡ L.name }
    requires parts { blank.parts ≡ L.parts }
    requires some { 0 < blank.parts }
    ensures answers { Answers peer.old.limits replica.old replica.new peer.old.bytes peer.new.bytes out.new.items result }
    ensures limits { peer.new.limits ≡ peer.old.limits }
{
    let mut steps = Steps::<L>::new(blank);
    answer_all(alloc, replica, peer, out, &mut steps)
}

/// Answers the whole frames that a reader has, in order, up to one that ends the session.
fn answer_all<L: Ledger>(
    alloc: Global,
    replica: &mut Replica,
    peer: &mut FrameReader,
    out: &mut Vec<u8>,
    steps: &mut Steps<L>,
) -> Result<(), TalkingFault>
    requires empty { out.old.items ≡ [] }
    ensures answers { Answers peer.old.limits replica.old replica.new peer.old.bytes peer.new.bytes out.new.items result }
    ensures limits { peer.new.limits ≡ peer.old.limits }
{
    'frames: loop {
        match peer.next() {
            Ok(Some(frame)) => {
                if let Err(fault) = answer_one(alloc, replica, frame, out, steps) {
                    return Err(fault);
                }
            }
            Ok(None) => return Ok(()),
            Err(fault) => return Err(TalkingFault::Frame(fault)),
        }
    }
}

/// Answers a frame.
fn answer_one<L: Ledger>(
    alloc: Global,
    replica: &mut Replica,
    frame: Frame,
    out: &mut Vec<u8>,
    steps: &mut Steps<L>,
) -> Result<(), TalkingFault>
    requires { HasSpelling frame }
    ensures { IsAnswered frame replica.old replica.new out.old.items out.new.items result }
{
    let Reply { frames, end } = answer(alloc, replica, frame, steps)?;
    put_frames(alloc, &frames, out)?;
    match end {
        None => Ok(()),
        Some(end) => Err(TalkingFault::Ended(end)),
    }
}

/// Puts the bytes of frames behind others. For want of memory those of some of them, from the first one on.
fn put_frames(alloc: Global, frames: &[Frame], out: &mut Vec<u8>) -> Result<(), NoMem>
    requires { All HasSpelling frames.now }
    ensures put { OnOk result (out.new.items ≡ out.old.items ++ spelled frames.now) }
    ensures some { OnErr result ((k : ℕ) × (out.new.items ≡ out.old.items ++ spelled (take k frames.now))) }
{
    for frame in frames {
        out.extend_from_slice(&encode(alloc, frame)?)?;
    }
    Ok(())
}
