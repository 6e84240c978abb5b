//! Writing frames.

ghost use Rattle.std.specs.Prelude.{◌≡◌, ◌<◌, ◌≤◌, ◌^◌, ◌∷◌, ◌++◌, true, length, flat_map, OnOk, IfOk};
ghost use Rattle.std.specs.Char.{IsScalar};
ghost use Rattle.std.specs.List.{AllByRecursion};
ghost use Rattle.ew_model.specs.Bytes.{four_bytes, name_bytes, op_bytes};
ghost use Rattle.ew_model.specs.Names.{is_name};
ghost use Rattle.ew_model.specs.Sound.{IsSound, IsSoundId, IsSoundOp, AreSound};
ghost use Rattle.peer_definitions.specs.Spelling.{IsSoundCount, IsSoundFrame, HasSpelling, id_bytes, event_bytes, count_bytes, events_body, counts_body, body_of, frame_bytes};

use crate::format::{DELETION, HEAD_LEN, INSERTION, MARK};
use crate::kind::Kind;
use ew_model::NoMem;
use ew_model::event::{Event, Op};
use ew_model::id::Id;
use ew_model::name::Name;
use peer_definitions::frame::Frame;
use std::alloc::Global;

/// The bytes of a frame that has a spelling: the names of a Have ascend, its counts are at least 1, each event has at most 255
/// parents, and the body has fewer than 2^32 bytes.
#[tactic(auto, unfolding(peer_definitions::specs::Spelling::frame_bytes))]
pub fn encode(alloc: Global, frame: &Frame) -> Result<Vec<u8>, NoMem>
    requires { HasSpelling frame.now }
    ensures bytes { IfOk result (λ bytes. bytes.items ≡ frame_bytes frame.now) }
    // What is written was in the ranges of its fields.
    ensures sound { OnOk result (IsSoundFrame frame.now) }
{
    let mut body = Vec::new(alloc);
    put_body(&mut body, frame)?;
    let mut bytes = Vec::with_capacity(alloc, body.len() + HEAD_LEN)?;
    bytes.push(Kind::of_frame(frame).byte())?;
    put_number(&mut bytes, body.len() as u32)?;
    bytes.extend_from_slice(body.as_slice())?;
    Ok(bytes)
}

fn put_body(out: &mut Vec<u8>, frame: &Frame) -> Result<(), NoMem>
    requires { HasSpelling frame.now }
    ensures bytes { OnOk result (out.new.items ≡ out.old.items ++ body_of frame.now) }
    ensures sound { OnOk result (IsSoundFrame frame.now) }
{
    match frame {
        Frame::Have(counts) => put_counts(out, counts.as_slice()),
        Frame::Events(events) => put_events(out, events.as_slice()),
        Frame::Took {
            accepted,
            waiting,
            repeats,
            refused,
        } => {
            put_number(out, *accepted)?;
            put_number(out, *waiting)?;
            put_number(out, *repeats)?;
            put_number(out, *refused)
        }
        Frame::Clash(id) => put_id(out, id),
        Frame::Done | Frame::Bye => Ok(()),
    }
}

fn put_counts(out: &mut Vec<u8>, counts: &[(Name, u32)]) -> Result<(), NoMem>
    requires { length counts.now < 2 ^ 32 }
    ensures bytes { OnOk result (out.new.items ≡ out.old.items ++ counts_body counts.now) }
    ensures sound { OnOk result (AllByRecursion IsSoundCount counts.now) }
{
    put_number(out, counts.len() as u32)?;
    for count in counts {
        put_count(out, count)?;
    }
    Ok(())
}

fn put_count(out: &mut Vec<u8>, count: &(Name, u32)) -> Result<(), NoMem>
    ensures bytes { OnOk result (out.new.items ≡ out.old.items ++ count_bytes count.now) }
    ensures sound { OnOk result (IsSoundCount count.now) }
{
    let (agent, number) = count;
    put_name(out, agent)?;
    put_number(out, *number)
}

/// The body of a frame of events.
#[tactic(auto, using(ew_model::proofs::BaseLaws::joined_all))]
pub(crate) fn put_events(out: &mut Vec<u8>, events: &[Event]) -> Result<(), NoMem>
    requires few { length events.now < 2 ^ 32 }
    requires parents { AllByRecursion (λ e. length e.parents ≤ 255) events.now }
    ensures bytes { OnOk result (out.new.items ≡ out.old.items ++ events_body events.now) }
    ensures sound { OnOk result (AreSound events.now) }
{
    put_number(out, events.len() as u32)?;
    for event in events {
        put_event(out, event)?;
    }
    Ok(())
}

fn put_event(out: &mut Vec<u8>, event: &Event) -> Result<(), NoMem>
    requires { length event.now.parents ≤ 255 }
    ensures bytes { OnOk result (out.new.items ≡ out.old.items ++ event_bytes event.now) }
    ensures sound { OnOk result (IsSound event.now) }
{
    put_id(out, &event.id)?;
    put_ids(out, event.parents.as_slice())?;
    put_operation(out, &event.op)
}

#[tactic(auto, using(ew_model::proofs::BaseLaws::joined_all))]
fn put_ids(out: &mut Vec<u8>, ids: &[Id]) -> Result<(), NoMem>
    requires { length ids.now ≤ 255 }
    ensures bytes { OnOk result (out.new.items ≡ out.old.items ++ (length ids.now ∷ flat_map id_bytes ids.now)) }
    ensures sound { OnOk result (AllByRecursion IsSoundId ids.now) }
{
    out.push(ids.len() as u8)?;
    for id in ids {
        put_id(out, id)?;
    }
    Ok(())
}

fn put_operation(out: &mut Vec<u8>, op: &Op) -> Result<(), NoMem>
    ensures bytes { OnOk result (out.new.items ≡ out.old.items ++ op_bytes op.now) }
    ensures sound { OnOk result (IsSoundOp op.now) }
{
    match op {
        Op::Ins { at, ch } => {
            out.push(INSERTION)?;
            put_number(out, *at)?;
            put_character(out, *ch)
        }
        Op::Del { at } => {
            out.push(DELETION)?;
            put_number(out, *at)
        }
        Op::Mark { label } => {
            out.push(MARK)?;
            put_name(out, label)
        }
    }
}

fn put_id(out: &mut Vec<u8>, id: &Id) -> Result<(), NoMem>
    ensures bytes { OnOk result (out.new.items ≡ out.old.items ++ id_bytes id.now) }
    ensures sound { OnOk result (IsSoundId id.now) }
{
    put_name(out, &id.agent)?;
    put_number(out, id.seq)
}

fn put_name(out: &mut Vec<u8>, name: &Name) -> Result<(), NoMem>
    ensures bytes { OnOk result (out.new.items ≡ out.old.items ++ name_bytes name.now) }
    ensures sound { is_name name.now ≡ true }
{
    let bytes = name.as_slice();
    out.push(bytes.len() as u8)?;
    out.extend_from_slice(bytes)
}

fn put_number(out: &mut Vec<u8>, n: u32) -> Result<(), NoMem>
    ensures bytes { OnOk result (out.new.items ≡ out.old.items ++ four_bytes n) }
    ensures sound { n < 2 ^ 32 }
{
    out.extend_from_slice(&n.to_le_bytes())
}

fn put_character(out: &mut Vec<u8>, ch: char) -> Result<(), NoMem>
    ensures bytes { OnOk result (out.new.items ≡ out.old.items ++ four_bytes ch) }
    ensures sound { IsScalar ch }
{
    put_number(out, ch as u32)
}
