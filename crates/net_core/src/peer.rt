//! Peers.

ghost use Rattle.std.specs.Prelude.{◌≡◌, ◌∷◌, [], false, IfOk, OnOk, OnErr};
ghost use Rattle.std.specs.List.{All, AllByRecursion};
ghost use Rattle.ew_model.specs.Edits as model;
ghost use Rattle.ew_model.specs.Ids.{name_eq};
ghost use Rattle.ew_model.specs.Kept.{IsKept, is_awaited};
ghost use Rattle.peer_exchange.specs.Replies.{IsLeftBy, IsReply};
ghost use Rattle.peer_definitions.specs.Answering.{answer_to, event_frames, question};
ghost use Rattle.peer_frames.specs.Laws.{IsTaken};
ghost use Rattle.peer_definitions.specs.Spelling.{HasSpelling};
ghost use Rattle.replica.specs.Answers.{EditsBy};
ghost use Rattle.undo.specs.Answers.{Undoes};
ghost use Rattle.undo.specs.Undone.{undone_ids};
ghost use Rattle.carets.specs.Sides.{side};
ghost use Rattle.net_core.specs.Answers.{SetsCaret};
ghost use Rattle.peer_definitions.specs.Machine.{built_again, piece_of};

use crate::fault::NetFault;
use crate::frames::{in_frames, piece};
use caret_places::{caret_in_text, index_in_text};
use carets::Caret;
use ew_model::NoMem;
use ew_model::limits::Limits;
use ew_model::name::Name;
use ew_model::steps::Steps;
use peer_exchange::{Reply, answer, ask};
use peer_frames::Frame;
use replica::{EditFault, Replica};
use script_reader::text::Text;
use std::alloc::Global;
use std::marker::Model;
use std::sync::ledger::Ledger;
use undo::{UndoFault, Undone, undo};

/// A peer. Its name is its agent. Contracts see the name, what the replica stands for, and the caret.
#[derive(Drop)]
pub struct Peer {
    name: Name,
    replica: Replica,
    caret: Caret,
}

impl Model for Peer {
    ghost use Rattle.peer_definitions.specs.Machine.{Peer};

    ghost Value = { Peer };

    ghost view = { λ p. record { name = p.name; replica = p.replica; caret = p.caret } };
}

impl Peer {
    /// A peer that holds nothing, with its caret at the root.
    pub fn new(alloc: Global, limits: Limits, name: Name) -> Result<Peer, NoMem>
        ensures { IfOk result (λ p. p ≡ record { name = name; replica = record { limits = limits; held = []; waiting = [] }; caret = Caret.Root }) }
    {
        let replica = Replica::new(alloc, limits)?;
        Ok(Peer {
            name,
            replica,
            caret: Caret::Root,
        })
    }

    pub fn name(&self) -> Name
        ensures { result ≡ self.now.name }
    {
        self.name
    }

    pub fn is_named(&self, name: &Name) -> bool
        ensures { result ≡ name_eq self.now.name name.now }
    {
        self.name.is(name)
    }

    pub fn replica(&self) -> &Replica
        ensures replica { result.now ≡ self.now.replica }
        ensures kept { IsKept self.now.replica.limits self.now.replica.held self.now.replica.waiting }
    {
        let _most = self.replica.limits();
        &self.replica
    }

    /// Inserts the characters of a text at an index of its text. Answers how many events were made.
    pub fn insert<L: Ledger>(
        &mut self,
        at: u32,
        text: &Text,
        steps: &mut Steps<L>,
    ) -> Result<u32, EditFault>
        requires { is_awaited self.old.replica.held self.old.replica.waiting self.old.name ≡ false }
        ensures edits { EditsBy self.old.name (model.Edit.Insert at text.now) self.old.replica self.new.replica result }
        ensures name { self.new.name ≡ self.old.name }
        ensures caret { self.new.caret ≡ self.old.caret }
    {
        self.replica.insert(self.name, at, text.as_str(), steps)
    }

    /// Deletes n characters of its text, from an index on. Answers how many events were made.
    pub fn delete<L: Ledger>(
        &mut self,
        at: u32,
        n: u32,
        steps: &mut Steps<L>,
    ) -> Result<u32, EditFault>
        requires { is_awaited self.old.replica.held self.old.replica.waiting self.old.name ≡ false }
        ensures edits { EditsBy self.old.name (model.Edit.Delete at n) self.old.replica self.new.replica result }
        ensures name { self.new.name ≡ self.old.name }
        ensures caret { self.new.caret ≡ self.old.caret }
    {
        self.replica.delete(self.name, at, n, steps)
    }

    /// Makes a mark with the label. Answers how many events were made.
    pub fn mark<L: Ledger>(&mut self, label: Name, steps: &mut Steps<L>) -> Result<u32, EditFault>
        requires { is_awaited self.old.replica.held self.old.replica.waiting self.old.name ≡ false }
        ensures edits { EditsBy self.old.name (model.Edit.Mark label) self.old.replica self.new.replica result }
        ensures name { self.new.name ≡ self.old.name }
        ensures caret { self.new.caret ≡ self.old.caret }
    {
        self.replica.mark(self.name, label, steps)
    }

    /// Undoes events by new ones. Answers how many were made.
    pub fn undo<L: Ledger>(
        &mut self,
        alloc: Global,
        undone: &Undone,
        steps: &mut Steps<L>,
    ) -> Result<u32, UndoFault>
        requires { is_awaited self.old.replica.held self.old.replica.waiting self.old.name ≡ false }
        ensures undoes { Undoes self.old.name (undone_ids undone.now) self.old.replica self.new.replica result }
        ensures name { self.new.name ≡ self.old.name }
        ensures caret { self.new.caret ≡ self.old.caret }
    {
        undo(
            alloc,
            &mut self.replica,
            self.name,
            undone.agent,
            undone.first,
            undone.count,
            steps,
        )
    }

    /// Sets the caret at an index of its text.
    pub fn set_caret<L: Ledger>(
        &mut self,
        alloc: Global,
        at: u32,
        steps: &mut Steps<L>,
    ) -> Result<(), NetFault>
        ensures { SetsCaret at self.old self.new result }
    {
        let _good = self.replica.limits();
        match caret_in_text(alloc, self.replica.graph(), at, steps)? {
            Some(caret) => {
                self.caret = caret;
                Ok(())
            }
            None => {
                let len = self.replica.len();
                Err(NetFault::OutOfRange { len })
            }
        }
    }

    /// Where the caret stands in its text.
    pub fn caret_index<L: Ledger>(&self, alloc: Global, steps: &mut Steps<L>) -> Result<u32, NoMem>
        ensures { IfOk result (λ i. i ≡ side self.now.replica.held self.now.caret) }
    {
        index_in_text(alloc, self.replica.graph(), &self.caret, steps)
    }

    /// Builds the replica again from the events that it holds. What waited is lost. For want of memory all is as before.
    pub fn restart<L: Ledger>(&mut self, alloc: Global, steps: &mut Steps<L>) -> Result<(), NoMem>
        ensures ok { OnOk result (self.new ≡ record { name = self.old.name; replica = built_again self.old.replica; caret = self.old.caret }) }
        ensures err { OnErr result (self.new ≡ self.old) }
    {
        let limits = self.replica.limits();
        let events = self.replica.events()?;
        match Replica::from_events(alloc, events, limits, steps) {
            Ok(replica) => {
                self.replica = replica;
                Ok(())
            }
            Err(_) => Err(NoMem),
        }
    }

    /// Answers a frame.
    pub fn answer<L: Ledger>(
        &mut self,
        alloc: Global,
        frame: Frame,
        steps: &mut Steps<L>,
    ) -> Result<Reply, NoMem>
        requires { HasSpelling frame }
        ensures reply { IfOk result (IsReply (answer_to self.old.replica frame) self.new.replica) }
        ensures taken { IfOk result (λ reply. All (IsTaken self.old.replica.limits) reply.frames.items) }
        ensures left { OnErr result (IsLeftBy frame self.old.replica self.new.replica) }
        ensures name { self.new.name ≡ self.old.name }
        ensures caret { self.new.caret ≡ self.old.caret }
    {
        answer(alloc, &mut self.replica, frame, steps)
    }

    /// Frames of all events that it holds.
    pub fn all_frames(&self, alloc: Global) -> Result<Vec<Frame>, NoMem>
        ensures frames { IfOk result (λ frames. frames.items ≡ event_frames self.now.replica.limits self.now.replica.held) }
        ensures taken { IfOk result (λ frames. AllByRecursion (IsTaken self.now.replica.limits) frames.items) }
    {
        let _sound = self.replica.graph().count();
        let events = self.replica.events()?;
        let limits = self.replica.limits();
        in_frames(alloc, &limits, events)
    }

    /// Frames of at most so many of the events that it holds, from a position on.
    pub fn some_frames(&self, alloc: Global, skip: u32, count: u32) -> Result<Vec<Frame>, NoMem>
        ensures frames { IfOk result (λ frames. frames.items ≡ event_frames self.now.replica.limits (piece_of skip count self.now.replica.held)) }
        ensures taken { IfOk result (λ frames. AllByRecursion (IsTaken self.now.replica.limits) frames.items) }
    {
        let _sound = self.replica.graph().count();
        let events = piece(alloc, self.replica.graph(), skip, count)?;
        let limits = self.replica.limits();
        in_frames(alloc, &limits, events)
    }

    /// The question for what it lacks.
    pub fn question(&self, alloc: Global) -> Result<Vec<Frame>, NoMem>
        ensures frames { IfOk result (λ frames. frames.items ≡ question self.now.replica ∷ []) }
        ensures taken { IfOk result (λ frames. AllByRecursion (IsTaken self.now.replica.limits) frames.items) }
    {
        let question = ask(&self.replica)?;
        let mut frames = Vec::with_capacity(alloc, 1)?;
        frames.push(question)?;
        Ok(frames)
    }
}
