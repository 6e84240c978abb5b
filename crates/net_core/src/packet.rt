//! Packets, which stay for ever.

ghost use Rattle.std.specs.Prelude.{◌≡◌, slice_get, Some, IfOk, IfErr};
ghost use Rattle.net_core.specs.Handing.{IsNotHanded};

use crate::fault::NetFault;
use ew_model::NoMem;
use ew_model::event::Event;
use ew_model::name::Name;
use peer_frames::{Counts, EventList, Frame};
use std::alloc::Global;
use std::marker::Model;

/// Frames on their way from a peer to a peer. Contracts see the names and the list of frames.
#[derive(Drop)]
pub struct Packet {
    pub sender: Name,
    pub receiver: Name,
    pub frames: Vec<Frame>,
}

impl Model for Packet {
    ghost use Rattle.peer_definitions.specs.Machine.{Packet};

    ghost Value = { Packet };

    ghost view = { λ p. record { sender = p.sender; receiver = p.receiver; frames = p.frames.items } };
}

impl Packet {
    /// A second packet that is the same.
    pub fn copy(&self, alloc: Global) -> Result<Packet, NoMem>
        ensures { IfOk result (λ copy. copy ≡ self.now) }
    {
        let frames = copy_frames(alloc, &self.frames)?;
        Ok(Packet {
            sender: self.sender,
            receiver: self.receiver,
            frames,
        })
    }
}

/// A second packet that is the same as the one of this number.
pub fn packet_at(alloc: Global, packets: &[Packet], number: u32) -> Result<Packet, NetFault>
    ensures found { IfOk result (λ k. slice_get packets.now number ≡ Some k) }
    ensures missing { IfErr result (IsNotHanded (slice_get packets.now number) number) }
{
    match packets.get(number as usize) {
        Some(packet) => Ok(packet.copy(alloc)?),
        None => Err(NetFault::NoPacket(number)),
    }
}

/// Second frames that are the same.
fn copy_frames(alloc: Global, frames: &[Frame]) -> Result<Vec<Frame>, NoMem>
    ensures { IfOk result (λ copy. copy.items ≡ frames.now) }
{
    let mut copy = Vec::with_capacity(alloc, frames.len())?;
    for frame in frames {
        copy.push(copy_frame(alloc, frame)?)?;
    }
    Ok(copy)
}

/// A second frame that is the same.
fn copy_frame(alloc: Global, frame: &Frame) -> Result<Frame, NoMem>
    ensures { IfOk result (λ copy. copy ≡ frame.now) }
{
    Ok(match frame {
        Frame::Have(counts) => {
            Frame::Have(Counts::from_vec(Vec::from_slice(alloc, counts.as_slice())?))
        }
        Frame::Events(events) => {
            Frame::Events(EventList::from_vec(copy_events(alloc, events.as_slice())?))
        }
        Frame::Done => Frame::Done,
        Frame::Took {
            accepted,
            waiting,
            repeats,
            refused,
        } => Frame::Took {
            accepted: *accepted,
            waiting: *waiting,
            repeats: *repeats,
            refused: *refused,
        },
        Frame::Clash(id) => Frame::Clash(*id),
        Frame::Bye => Frame::Bye,
    })
}

/// Second events that are the same.
fn copy_events(alloc: Global, events: &[Event]) -> Result<Vec<Event>, NoMem>
    ensures { IfOk result (λ copy. copy.items ≡ events.now) }
{
    let mut copy = Vec::with_capacity(alloc, events.len())?;
    for event in events {
        copy.push(event.copy()?)?;
    }
    Ok(copy)
}
