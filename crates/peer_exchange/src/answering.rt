//! Asking and answering.

ghost use Rattle.std.specs.Prelude.{◌≡◌, ◌≤◌, ◌<◌, ◌+◌, ◌^◌, [], ◌∷◌, false, length, option_map, Some, IfOk, OnErr};
ghost use Rattle.std.specs.List.{All, AllByRecursion};
ghost use Rattle.history_definitions.specs.Missing.{missing};
ghost use Rattle.history_definitions.specs.Summary.{summary_of};
ghost use Rattle.peer_frames.specs.Laws.{IsTaken};
ghost use Rattle.peer_definitions.specs.Spelling.{HasSpelling, IsSoundCount, IsSoundFrame};
ghost use Rattle.peer_definitions.specs.declared.frame.Frame.TheVariants as frame;
ghost use Rattle.peer_definitions.specs.declared.end.End.TheVariants as end;
ghost use Rattle.peer_exchange.specs.AnswerTouches.{answer_touches};
ghost use Rattle.peer_definitions.specs.Answering.{answer_to, brings_events, question, first_clash, frame_for};
ghost use Rattle.peer_exchange.specs.Replies.{IsReply, IsLeftBy};

use crate::events::all_frames;
use crate::reply::Reply;
use event_graph::Facts;
use ew_model::NoMem;
use ew_model::event::Event;
use ew_model::id::Id;
use ew_model::name::Name;
use ew_model::steps::Steps;
use ew_model::verdict::Refusal;
use peer_definitions::end::End;
use peer_frames::{Counts, Frame};
use replica::{Replica, Took};
use std::alloc::Global;
use std::sync::ledger::Ledger;

/// The question for what a replica lacks: a Have that tells how many events of each agent it holds.
pub fn ask(replica: &Replica) -> Result<Frame, NoMem>
    ensures question { IfOk result (λ f. f ≡ question replica.now) }
    ensures taken { IfOk result (IsTaken replica.now.limits) }
{
    let _most = replica.limits().events();
    let counts = summary(replica)?;
    Ok(Frame::Have(Counts::from_vec(counts)))
}

/// The agents, ascending, each with how many of its events the replica holds.
fn summary(replica: &Replica) -> Result<Vec<(Name, u32)>, NoMem>
    ensures counts { IfOk result (λ v. v.items ≡ summary_of replica.now.held) }
    ensures sound { IfOk result (λ v. AllByRecursion IsSoundCount v.items) }
{
    let counts = replica.graph().summary()?;
    count_facts(&counts);
    Ok(counts)
}

/// The names and the numbers lie in the ranges of their types. It does nothing.
fn count_facts(counts: &[(Name, u32)])
    ensures { AllByRecursion IsSoundCount counts.now }
{
    for count in counts {
        count.facts();
    }
}

/// Answers a frame that has a spelling. A Have gets the events that it lacks, in full frames, and Done behind them. Events are
/// received, and the reply tells what became of them: Took, or the first Clash, which ends the session. A Bye is answered, and
/// ends it; a Clash ends it. Done and Took get nothing.
///
/// Where memory is wanting the replica is as before; but of events some may have been received.
pub fn answer<L: Ledger>(
    alloc: Global,
    replica: &mut Replica,
    frame: Frame,
    steps: &mut Steps<L>,
) -> Result<Reply, NoMem>
    requires { HasSpelling frame }
    ensures reply { IfOk result (IsReply (answer_to replica.old frame) replica.new) }
    // A reader with the replica's limits takes each frame of the reply.
    ensures taken { IfOk result (λ reply. All (IsTaken replica.old.limits) reply.frames.items) }
    ensures left { OnErr result (IsLeftBy frame replica.old replica.new) }
    // Only received events take steps.
    ensures steps { brings_events frame ≡ false → steps.new ≡ steps.old }
    ensures most { steps.new ≤ steps.old + answer_touches replica.old frame }
{
    match frame {
        Frame::Have(counts) => answer_have(alloc, replica, &counts),
        Frame::Events(events) => answer_events(alloc, replica, events.into_vec(), steps),
        Frame::Done | Frame::Took { .. } => Ok(nothing(alloc, None)),
        Frame::Clash(id) => Ok(nothing(alloc, Some(End::Clash(id)))),
        Frame::Bye => answer_bye(alloc),
    }
}

/// No frames.
fn nothing(alloc: Global, end: Option<End>) -> Reply
    ensures frames { result.frames.items ≡ [] }
    ensures end { result.end ≡ end }
{
    Reply {
        frames: Vec::new(alloc),
        end,
    }
}

/// A Bye, which ends the session.
fn answer_bye(alloc: Global) -> Result<Reply, NoMem>
    ensures frames { IfOk result (λ reply. reply.frames.items ≡ frame.Bye ∷ []) }
    ensures end { IfOk result (λ reply. reply.end ≡ Some end.Bye) }
{
    let mut frames = Vec::with_capacity(alloc, 1)?;
    frames.push(Frame::Bye)?;
    Ok(Reply {
        frames,
        end: Some(End::Bye),
    })
}

/// The events that are missing, in frames, and Done behind them.
fn answer_have(alloc: Global, replica: &Replica, counts: &Counts) -> Result<Reply, NoMem>
    requires { HasSpelling (frame.Have counts.now) }
    ensures reply { IfOk result (IsReply (answer_to replica.now (frame.Have counts.now)) replica.now) }
    ensures taken { IfOk result (λ reply. All (IsTaken replica.now.limits) reply.frames.items) }
{
    let _most = replica.limits().events();
    let _sound = replica.graph().count();
    let missing = missing(replica, counts)?;
    let frames = all_frames(alloc, &replica.limits(), missing)?;
    Ok(Reply { frames, end: None })
}

/// The events that the counts leave out.
fn missing(replica: &Replica, counts: &Counts) -> Result<Vec<Event>, NoMem>
    requires { HasSpelling (frame.Have counts.now) }
    ensures { IfOk result (λ v. v.items ≡ missing replica.now.held counts.now) }
{
    replica.graph().missing(counts.as_slice())
}

/// Receives events. The room for what is told comes first: once they are received, no memory is wanting.
fn answer_events<L: Ledger>(
    alloc: Global,
    replica: &mut Replica,
    events: Vec<Event>,
    steps: &mut Steps<L>,
) -> Result<Reply, NoMem>
    requires { HasSpelling (frame.Events events.items) }
    ensures reply { IfOk result (IsReply (answer_to replica.old (frame.Events events.items)) replica.new) }
    ensures taken { IfOk result (λ reply. All (IsTaken replica.old.limits) reply.frames.items) }
    ensures left { OnErr result (IsLeftBy (frame.Events events.items) replica.old replica.new) }
    ensures most { steps.new ≤ steps.old + answer_touches replica.old (frame.Events events.items) }
{
    let mut frames = Vec::with_capacity(alloc, 1)?;
    let _most = replica.limits().events();
    match replica.receive_going_on(events, steps) {
        Ok(took) => {
            let (frame, end) = told(&took);
            frames.push(frame)?;
            Ok(Reply { frames, end })
        }
        Err(_) => Err(NoMem),
    }
}

/// How many of the events went which way; or the first clash, which ends the session.
fn told(took: &Took) -> (Frame, Option<End>)
    requires { length took.now.refused.items < 2 ^ 32 }
    ensures frame { result.0 ≡ frame_for (frame.Took took.now.accepted took.now.waiting took.now.repeats (length took.now.refused.items)) (first_clash took.now.refused.items) }
    ensures end { result.1 ≡ option_map end.Clash (first_clash took.now.refused.items) }
    ensures sound { IsSoundFrame result.0 }
{
    match first_clash(took.refused.as_slice()) {
        Some(id) => {
            id.facts();
            (Frame::Clash(id), Some(End::Clash(id)))
        }
        None => {
            let refused = took.refused.len() as u32;
            (
                counted(took.accepted, took.waiting, took.repeats, refused),
                None,
            )
        }
    }
}

/// How many events went which way.
fn counted(accepted: u32, waiting: u32, repeats: u32, refused: u32) -> Frame
    ensures frame { result ≡ frame.Took accepted waiting repeats refused }
    ensures sound { IsSoundFrame result }
{
    Frame::Took {
        accepted,
        waiting,
        repeats,
        refused,
    }
}

/// The id of the first clash among those refused.
fn first_clash(refused: &[(Id, Refusal)]) -> Option<Id>
    ensures { result ≡ first_clash refused.now }
{
    refused
        .iter()
        .find(|(_, reason)| *reason == Refusal::Clash)
        .map(|(id, _)| *id)
}
