//! The net.

ghost use Rattle.std.specs.Prelude.{◌≡◌, ◌<◌, length, slice_get, Some, None, IfOk, IfErr, IsOkAnd, OnErr};
ghost use Rattle.std.specs.List.{AllByRecursion};
ghost use Rattle.peer_definitions.specs.declared.net_step.NetStep.TheVariants as net_step;
ghost use Rattle.net_core.specs.Answers.{StepsTo, told_bytes};
ghost use Rattle.net_core.specs.Keeping.{IsPacket};
ghost use Rattle.peer_definitions.specs.Machine.{empty_network, peer_of, print_before, with_packet};
ghost use Rattle.peer_definitions.specs.Machine.StepOutcome.{Stepped};
ghost use Rattle.net_core.specs.declared.fault.NetFault.TheVariants as fault;

use crate::comparing::all_agree;
use crate::delivery::deliver;
use crate::fault::NetFault;
use crate::lines::{
    MadeLine, agree_line, caret_line, peer_line, push_packet_line, restarted_line, shown_line,
};
use crate::packet::{Packet, packet_at};
use crate::peer::Peer;
use crate::places::place_of;
use ew_model::NoMem;
use ew_model::limits::Limits;
use ew_model::name::Name;
use ew_model::steps::Steps;
use peer_frames::Frame;
use script_reader::net::step::NetStep;
use script_reader::text::Text;
use std::alloc::Global;
use std::marker::Model;
use std::sync::ledger::Ledger;
use undo::Undone;

/// Peers, and all packets that were made. Contracts see the limits of the peers, the peers and the packets.
#[derive(Drop)]
pub struct Net {
    alloc: Global,
    limits: Limits,
    peers: Vec<Peer>,
    packets: Vec<Packet>,
}

impl Model for Net {
    ghost use Rattle.net_core.specs.Keeping.{IsReached};
    ghost use Rattle.peer_definitions.specs.Machine.{Network};

    ghost Value = { Network };

    ghost view = { λ n. record { limits = n.limits; peers = n.peers.items; packets = n.packets.items } };

    ghost invariant = { λ n. IsReached (record { limits = n.limits; peers = n.peers.items; packets = n.packets.items }) };
}

impl Net {
    /// No peers and no packets.
    pub fn new(alloc: Global, limits: Limits) -> Result<Net, NoMem>
        ensures { IsOkAnd result (λ n. n ≡ empty_network limits) }
    {
        Ok(Net::empty(alloc, limits))
    }

    /// No peers and no packets. It takes no memory.
    pub(crate) fn empty(alloc: Global, limits: Limits) -> Net
        ensures { result ≡ empty_network limits }
    {
        let _most = limits.events();
        Net {
            alloc,
            limits,
            peers: Vec::new(alloc),
            packets: Vec::new(alloc),
        }
    }

    /// How many packets were made.
    pub fn packets(&self) -> u32
        ensures { result ≡ length self.now.packets }
    {
        self.packets.len() as u32
    }

    /// One step. Answers the bytes that it prints. After a refusal all is as before; for want of memory packets and other peers are,
    /// and the receiver of a delivered packet may have received a front of it.
    pub fn step<L: Ledger>(
        &mut self,
        step: &NetStep,
        steps: &mut Steps<L>,
    ) -> Result<Vec<u8>, NetFault>
        requires { length self.old.packets < 4294967295 }
        ensures { StepsTo self.old step.now self.new (told_bytes result) }
    {
        match step {
            NetStep::Peer(name) => self.add(name),
            NetStep::Ins { who, at, text } => self.insert(who, *at, text, steps),
            NetStep::Del { who, at, n } => self.delete(who, *at, *n, steps),
            NetStep::Mark { who, label } => self.mark(who, label, steps),
            NetStep::Undo {
                who,
                whose,
                first,
                count,
            } => self.undo(
                who,
                &Undone {
                    agent: *whose,
                    first: *first,
                    count: *count,
                },
                steps,
            ),
            NetStep::Caret { who, at } => self.set_caret(who, *at, steps),
            NetStep::Where(name) => self.locate(name, steps),
            NetStep::Push { from, to } => self.push(from, to),
            NetStep::Send {
                from,
                to,
                skip,
                count,
            } => self.send(from, to, *skip, *count),
            NetStep::Ask { from, to } => self.ask(from, to),
            NetStep::Deliver(number) => self.deliver(*number, steps),
            NetStep::Restart(name) => self.restart(name, steps),
            NetStep::Show(name) => self.show(name),
            NetStep::Agree => self.agree(),
        }
    }

    /// The place of the peer of this name.
    fn find(&self, name: &Name) -> Result<usize, NetFault>
        ensures found { IfOk result (λ i. (i < length self.now.peers) × (peer_of self.now name.now ≡ slice_get self.now.peers i)) }
        ensures none { IfErr result (λ f. (f ≡ fault.NoPeer name.now) × (peer_of self.now name.now ≡ None)) }
    {
        place_of(&self.peers, name).ok_or(NetFault::NoPeer(*name))
    }

    /// Adds a peer.
    fn add(&mut self, name: &Name) -> Result<Vec<u8>, NetFault>
        ensures { StepsTo self.old (net_step.Peer name.now) self.new (told_bytes result) }
    {
        match place_of(&self.peers, name) {
            Some(_) => Err(NetFault::PeerTwice(*name)),
            None => self.add_new(name),
        }
    }

    /// Adds a peer whose name is new.
    fn add_new(&mut self, name: &Name) -> Result<Vec<u8>, NetFault>
        requires { peer_of self.old name.now ≡ None }
        ensures { StepsTo self.old (net_step.Peer name.now) self.new (told_bytes result) }
    {
        let peer = Peer::new(self.alloc, self.limits, *name)?;
        let out = peer_line(self.alloc, name)?;
        self.peers.push(peer)?;
        Ok(out)
    }

    /// A peer inserts text.
    fn insert<L: Ledger>(
        &mut self,
        who: &Name,
        at: u32,
        text: &Text,
        steps: &mut Steps<L>,
    ) -> Result<Vec<u8>, NetFault>
        ensures { StepsTo self.old (net_step.Ins who.now at text.now) self.new (told_bytes result) }
    {
        let place = self.find(who)?;
        let line = MadeLine::new(self.alloc)?;
        let made = self.peers[place].insert(at, text, steps)?;
        Ok(line.of(who, made))
    }

    /// A peer deletes characters.
    fn delete<L: Ledger>(
        &mut self,
        who: &Name,
        at: u32,
        n: u32,
        steps: &mut Steps<L>,
    ) -> Result<Vec<u8>, NetFault>
        ensures { StepsTo self.old (net_step.Del who.now at n) self.new (told_bytes result) }
    {
        let place = self.find(who)?;
        let line = MadeLine::new(self.alloc)?;
        let made = self.peers[place].delete(at, n, steps)?;
        Ok(line.of(who, made))
    }

    /// A peer makes a mark.
    fn mark<L: Ledger>(
        &mut self,
        who: &Name,
        label: &Name,
        steps: &mut Steps<L>,
    ) -> Result<Vec<u8>, NetFault>
        ensures { StepsTo self.old (net_step.Mark who.now label.now) self.new (told_bytes result) }
    {
        let place = self.find(who)?;
        let line = MadeLine::new(self.alloc)?;
        let made = self.peers[place].mark(*label, steps)?;
        Ok(line.of(who, made))
    }

    /// A peer undoes events.
    fn undo<L: Ledger>(
        &mut self,
        who: &Name,
        undone: &Undone,
        steps: &mut Steps<L>,
    ) -> Result<Vec<u8>, NetFault>
        ensures { StepsTo self.old (net_step.Undo who.now undone.now.agent undone.now.first undone.now.count) self.new (told_bytes result) }
    {
        let place = self.find(who)?;
        let line = MadeLine::new(self.alloc)?;
        let made = self.peers[place].undo(self.alloc, undone, steps)?;
        Ok(line.of(who, made))
    }

    /// Sets a peer's caret.
    fn set_caret<L: Ledger>(
        &mut self,
        who: &Name,
        at: u32,
        steps: &mut Steps<L>,
    ) -> Result<Vec<u8>, NetFault>
        ensures { StepsTo self.old (net_step.Caret who.now at) self.new (told_bytes result) }
    {
        let place = self.find(who)?;
        let out = caret_line(self.alloc, who, at)?;
        self.peers[place].set_caret(self.alloc, at, steps)?;
        Ok(out)
    }

    /// Prints where a peer's caret stands.
    fn locate<L: Ledger>(&self, name: &Name, steps: &mut Steps<L>) -> Result<Vec<u8>, NetFault>
        ensures { StepsTo self.now (net_step.Where name.now) self.now (told_bytes result) }
    {
        let place = self.find(name)?;
        let index = self.peers[place].caret_index(self.alloc, steps)?;
        Ok(caret_line(self.alloc, name, index)?)
    }

    /// A packet with all events of a peer.
    fn push(&mut self, from: &Name, to: &Name) -> Result<Vec<u8>, NetFault>
        requires { length self.old.packets < 4294967295 }
        ensures { StepsTo self.old (net_step.Push from.now to.now) self.new (told_bytes result) }
    {
        let sender = self.find(from)?;
        self.find(to)?;
        let frames = self.peers[sender].all_frames(self.alloc)?;
        Ok(self.add_packet(Vec::new(self.alloc), *from, *to, frames)?)
    }

    /// A packet with some of a peer's events.
    fn send(&mut self, from: &Name, to: &Name, skip: u32, count: u32) -> Result<Vec<u8>, NetFault>
        requires { length self.old.packets < 4294967295 }
        ensures { StepsTo self.old (net_step.Send from.now to.now skip count) self.new (told_bytes result) }
    {
        let sender = self.find(from)?;
        self.find(to)?;
        let frames = self.peers[sender].some_frames(self.alloc, skip, count)?;
        Ok(self.add_packet(Vec::new(self.alloc), *from, *to, frames)?)
    }

    /// A packet with a peer's question for what it lacks.
    fn ask(&mut self, from: &Name, to: &Name) -> Result<Vec<u8>, NetFault>
        requires { length self.old.packets < 4294967295 }
        ensures { StepsTo self.old (net_step.Ask from.now to.now) self.new (told_bytes result) }
    {
        let sender = self.find(from)?;
        self.find(to)?;
        let frames = self.peers[sender].question(self.alloc)?;
        Ok(self.add_packet(Vec::new(self.alloc), *from, *to, frames)?)
    }

    /// Adds a packet, and prints the line that tells it behind the rest.
    fn add_packet(
        &mut self,
        mut out: Vec<u8>,
        sender: Name,
        receiver: Name,
        frames: Vec<Frame>,
    ) -> Result<Vec<u8>, NoMem>
        requires room { length self.old.packets < 4294967295 }
        requires sound { IsPacket self.old.limits self.old.peers (record { sender = sender; receiver = receiver; frames = frames.items }) }
        ensures ok { IfOk result (λ printed. print_before out.items (with_packet self.old sender receiver frames.items) ≡ Stepped self.new printed.items) }
        ensures err { OnErr result (self.new ≡ self.old) }
    {
        push_packet_line(&mut out, self.packets(), &sender, &receiver)?;
        self.packets.push(Packet {
            sender,
            receiver,
            frames,
        })?;
        Ok(out)
    }

    /// Hands a packet to its receiver. The frames of the answers are one packet back.
    fn deliver<L: Ledger>(&mut self, number: u32, steps: &mut Steps<L>) -> Result<Vec<u8>, NetFault>
        requires { length self.old.packets < 4294967295 }
        ensures { StepsTo self.old (net_step.Deliver number) self.new (told_bytes result) }
    {
        let Packet {
            sender,
            receiver,
            frames,
        } = packet_at(self.alloc, &self.packets, number)?;
        let place = self.find(&receiver)?;
        let delivery = deliver(self.alloc, &mut self.peers[place], frames, steps)?;
        if delivery.replies.is_empty() {
            return Ok(delivery.printed);
        }
        Ok(self.add_packet(delivery.printed, receiver, sender, delivery.replies)?)
    }

    /// Builds a peer again from its events.
    fn restart<L: Ledger>(&mut self, name: &Name, steps: &mut Steps<L>) -> Result<Vec<u8>, NetFault>
        ensures { StepsTo self.old (net_step.Restart name.now) self.new (told_bytes result) }
    {
        let place = self.find(name)?;
        let out = restarted_line(self.alloc, name)?;
        self.peers[place].restart(self.alloc, steps)?;
        Ok(out)
    }

    /// Prints a peer's text.
    fn show(&self, name: &Name) -> Result<Vec<u8>, NetFault>
        ensures { StepsTo self.now (net_step.Show name.now) self.now (told_bytes result) }
    {
        let place = self.find(name)?;
        let text = self.peers[place].replica().text()?;
        Ok(shown_line(self.alloc, name, &text)?)
    }

    /// Prints whether all peers hold equal events.
    fn agree(&self) -> Result<Vec<u8>, NetFault>
        ensures { StepsTo self.now net_step.Agree self.now (told_bytes result) }
    {
        Ok(agree_line(self.alloc, all_agree(&self.peers))?)
    }
}
