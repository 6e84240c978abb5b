//! A document: a replica, without counters.

ghost use Rattle.std.specs.Prelude.{◌≡◌, ◌↔◌, ◌+◌, ◌≤◌, Ok, Err, Some, [], false, true, drop, length, map, take, encode_utf8_all, IfErr, IfOk, OnErr, OnOk};
ghost use Rattle.std.specs.Option.{option_map};
ghost use Rattle.std.specs.Str.{chars};
ghost use Rattle.blame_definitions.specs.Blame as blames;
ghost use Rattle.caret_places.specs.Faults.{fault_of};
ghost use Rattle.carets.specs.Sides as sides;
ghost use Rattle.ew_model.specs.Ancestors as ancestors;
ghost use Rattle.ew_model.specs.Ancestors.{is_held};
ghost use Rattle.ew_model.specs.EditLaws.{edited};
ghost use Rattle.ew_model.specs.Edits as model;
ghost use Rattle.ew_model.specs.Ids.{id_cmp};
ghost use Rattle.ew_model.specs.Kept.{is_awaited};
ghost use Rattle.ew_model.specs.Limits.{program_limits};
ghost use Rattle.ew_model.specs.Operations.{changed_by_all, operations};
ghost use Rattle.ew_model.specs.Sorting.{sort_by};
ghost use Rattle.ew_model.specs.TextLaws.{AllFit, own_change};
ghost use Rattle.ew_model.specs.Texts as texts;
ghost use Rattle.ew_model.specs.Texts.{text_of};
ghost use Rattle.ew_model.specs.Verdicts.{first_unknown};
ghost use Rattle.file_words.specs.FileRuns.{file2_of};
ghost use Rattle.history_definitions.specs.Listings as listings;
ghost use Rattle.replica.specs.Answers.{EditsBy};
ghost use Rattle.replica.specs.Operations.{DoesAll, ops_refusal};
ghost use Rattle.rope.specs.Extents.{IsIndexBehind};
ghost use Rattle.undo.specs.Answers.{Undoes};
ghost use Rattle.undo_definitions.specs.Wanted.{ids_from, wanted};
ghost use Rattle.document.specs.Documents.{Opens, Refuses, RefusesAbove, RefusesFile, RefusesUndo, later_bytes, question_bytes};
ghost use Rattle.document.specs.Reading.{IsRange, StandsBefore};
ghost use Rattle.document.specs.Talks.{Receives};

use crate::counted::{
    blame_by, caret_by, changes_by, delete_by, edit_by, index_by, insert_by, loaded_by, mark_by,
    text_at_by, undo_by,
};
use crate::fault::{EditingFault, OpeningFault, RangeFault, TalkingFault, UndoingFault};
use crate::talking::{answer_all_by, later_bytes, question_of};
use caret_places::IndexFault;
use carets::Caret;
use event_graph::Graph;
use ew_model::NoMem;
use ew_model::event::Op;
use ew_model::id::Id;
use ew_model::limits::Limits;
use ew_model::name::Name;
use ew_model::text_op::TextOp;
use history_view::marks_text;
use peer_frames::FrameReader;
use replica::{LoadFault, Measure, Replica, VersionFault};
use std::alloc::Global;
use std::marker::{Brand, Model};
use std::sync::ledger::Blank;
use stored_histories::give::give_events;
use stored_histories::written::file_of;

/// A text with the history of all its changes. Contracts see what its replica stands for: the limits, the events held, and those that
/// wait for events that they name. Indices and lengths count characters.
#[derive(Drop)]
pub struct Document {
    alloc: Global,
    replica: Replica,
}

impl Model for Document {
    ghost use Rattle.ew_model.specs.Kept.{ReplicaState};

    ghost Value = { ReplicaState };

    ghost view = { λ d. d.replica };
}

impl Document {
    /// A document of no events, within the limits of the program.
    pub fn new(alloc: Global) -> Result<Document, NoMem>
        ensures { IfOk result (λ d. d ≡ record { limits = program_limits; held = []; waiting = [] }) }
    {
        let replica = Replica::new(alloc, Limits::program())?;
        Ok(Document { alloc, replica })
    }

    /// The document of an event file's bytes, of either version.
    pub fn open(alloc: Global, file: &[u8]) -> Result<Document, OpeningFault>
        ensures opens { IfOk result (Opens file.now) }
        ensures refused { IfErr result (RefusesFile file.now) }
    {
        let given = give_events(alloc, file, &Limits::program())?;
        let mut replica = match loaded_by::<Brand>(given, Blank::new(1)) {
            Ok(replica) => replica,
            Err(fault) => return Err(OpeningFault::Load(fault)),
        };
        if let Err(NoMem) = replica.make_text() {
            return Err(OpeningFault::Load(LoadFault::OutOfMemory));
        }
        Ok(Document { alloc, replica })
    }

    /// How many characters the text has.
    pub fn length(&self) -> u32
        ensures { result ≡ length (text_of self.now.held) }
    {
        self.replica.len()
    }

    /// How many events are held.
    pub fn count(&self) -> u32
        ensures { result ≡ length self.now.held }
    {
        self.replica.count()
    }

    /// Whether an event with this id is held.
    pub fn holds(&self, id: &Id) -> bool
        ensures { result ≡ is_held self.now.held id.now }
    {
        is_held(self.replica.graph(), id)
    }

    /// What it stands on, for reading what a document has no call for.
    pub fn replica(&self) -> &Replica
        ensures { result.now ≡ self.now }
    {
        &self.replica
    }

    /// Inserts a text at an index, as an agent: one event for each character. Answers how many events were made.
    pub fn insert(&mut self, agent: Name, at: u32, text: &str) -> Result<u32, EditingFault>
        ensures awaited { OnOk result (is_awaited self.old.held self.old.waiting agent ≡ false) }
        ensures edits { IfOk result (λ n. EditsBy agent (model.Edit.Insert at (chars text.now)) self.old self.new (Ok n)) }
        ensures text { OnOk result (text_of self.new.held ≡ edited (model.Edit.Insert at (chars text.now)) (text_of self.old.held)) }
        ensures refused { IfErr result (Refuses agent (model.edit_refusal self.old.limits self.old.held agent (model.Edit.Insert at (chars text.now))) self.old) }
        ensures same { OnErr result (self.new ≡ self.old) }
    {
        self.may_edit(&agent)?;
        let made = insert_by::<Brand>(
            &mut self.replica,
            agent,
            at,
            text.as_bytes(),
            Blank::new(1),
        )?;
        Ok(made)
    }

    /// Deletes n characters from an index on, as an agent: one event for each. Answers how many events were made.
    pub fn delete(&mut self, agent: Name, at: u32, n: u32) -> Result<u32, EditingFault>
        ensures awaited { OnOk result (is_awaited self.old.held self.old.waiting agent ≡ false) }
        ensures edits { IfOk result (λ made. EditsBy agent (model.Edit.Delete at n) self.old self.new (Ok made)) }
        ensures text { OnOk result (text_of self.new.held ≡ edited (model.Edit.Delete at n) (text_of self.old.held)) }
        ensures refused { IfErr result (Refuses agent (model.edit_refusal self.old.limits self.old.held agent (model.Edit.Delete at n)) self.old) }
        ensures same { OnErr result (self.new ≡ self.old) }
    {
        self.may_edit(&agent)?;
        let made = delete_by::<Brand>(&mut self.replica, agent, at, n, Blank::new(1))?;
        Ok(made)
    }

    /// Does operations as an agent, one after another: the index of each is meant in the text that those before it leave. All of them
    /// are done or none. Answers how many events were made.
    #[tactic(auto, using(crate::proofs::Refused::ops_refused))]
    pub fn edit(&mut self, agent: Name, ops: &[Op]) -> Result<u32, EditingFault>
        ensures awaited { OnOk result (is_awaited self.old.held self.old.waiting agent ≡ false) }
        ensures edits { IfOk result (λ n. DoesAll agent ops.now self.old self.new (Ok n)) }
        ensures text { OnOk result (text_of self.new.held ≡ changed_by_all (map own_change ops.now) (text_of self.old.held)) }
        ensures refused { IfErr result (Refuses agent (ops_refusal self.old.limits self.old.held ops.now) self.old) }
        ensures same { OnErr result (self.new ≡ self.old) }
    {
        self.may_edit(&agent)?;
        let made = edit_by::<Brand>(&mut self.replica, agent, ops, Blank::new(1))?;
        Ok(made)
    }

    /// Makes a mark under a label, as an agent. It joins all heads, and changes no text. Answers how many events were made.
    pub fn mark(&mut self, agent: Name, label: Name) -> Result<u32, EditingFault>
        ensures awaited { OnOk result (is_awaited self.old.held self.old.waiting agent ≡ false) }
        ensures edits { IfOk result (λ n. EditsBy agent (model.Edit.Mark label) self.old self.new (Ok n)) }
        ensures text { OnOk result (text_of self.new.held ≡ text_of self.old.held) }
        ensures refused { IfErr result (Refuses agent (model.edit_refusal self.old.limits self.old.held agent (model.Edit.Mark label)) self.old) }
        ensures same { OnErr result (self.new ≡ self.old) }
    {
        self.may_edit(&agent)?;
        let made = mark_by::<Brand>(&mut self.replica, agent, label, Blank::new(1))?;
        Ok(made)
    }

    /// Undoes so many events of one agent, from the one with an id on, by new events of an agent. The text is then what all other
    /// events left. Answers how many events were made.
    pub fn undo(&mut self, agent: Name, of: &Id, count: u32) -> Result<u32, UndoingFault>
        ensures awaited { OnOk result (is_awaited self.old.held self.old.waiting agent ≡ false) }
        ensures undoes { IfOk result (λ n. Undoes agent (ids_from of.now.agent of.now.seq count) self.old self.new (Ok n)) }
        ensures text { OnOk result (text_of self.new.held ≡ map (λ z. z.ch) (wanted self.old.held (ids_from of.now.agent of.now.seq count))) }
        ensures refused { IfErr result (RefusesUndo agent (ids_from of.now.agent of.now.seq count) self.old) }
        ensures same { OnErr result (self.new ≡ self.old) }
    {
        if self.replica.awaits(&agent) {
            return Err(UndoingFault::Awaited);
        }
        let made = undo_by::<Brand>(
            self.alloc,
            &mut self.replica,
            agent,
            of.agent,
            of.seq,
            count,
            Blank::new(1),
        )?;
        Ok(made)
    }

    /// An agent may edit as long as none of its events is awaited.
    fn may_edit(&self, agent: &Name) -> Result<(), EditingFault>
        ensures ok { OnOk result (is_awaited self.now.held self.now.waiting agent.now ≡ false) }
        ensures err { IfErr result (λ fault. (fault ≡ EditingFault.Awaited) × (is_awaited self.now.held self.now.waiting agent.now ≡ true)) }
    {
        if self.replica.awaits(agent) {
            return Err(EditingFault::Awaited);
        }
        Ok(())
    }

    /// The text, in UTF-8.
    pub fn text(&self) -> Result<Vec<u8>, NoMem>
        ensures { IfOk result (λ bytes. bytes.items ≡ encode_utf8_all (text_of self.now.held)) }
    {
        self.replica.text()
    }

    /// So many characters of the text from an index on, in UTF-8.
    pub fn range(&self, from: u32, count: u32) -> Result<Vec<u8>, RangeFault>
        ensures range { IfOk result (λ bytes. IsRange (text_of self.now.held) from count bytes.items) }
        ensures refused { IfErr result (RefusesAbove (length (text_of self.now.held)) (from + count)) }
    {
        let len = self.replica.len();
        if u64::from(from) + u64::from(count) > u64::from(len) {
            return Err(RangeFault::OutOfRange { len });
        }
        let bytes = self.replica.text_range(from, count)?;
        Ok(bytes)
    }

    /// How much of a measure stands before an index: units of UTF-16, or bytes of UTF-8.
    pub fn extent_before(&self, measure: Measure, at: u32) -> Result<u64, RangeFault>
        ensures before { IfOk result (StandsBefore measure (text_of self.now.held) at) }
        ensures refused { IfErr result (RefusesAbove (length (text_of self.now.held)) at) }
    {
        let len = self.replica.len();
        if at > len {
            return Err(RangeFault::OutOfRange { len });
        }
        let much = self.replica.extent_before(measure, at)?;
        Ok(much)
    }

    /// The index before which just so much of a measure stands. There is none inside a character, nor behind the end.
    pub fn index_behind(&self, measure: Measure, much: u64) -> Result<Option<u32>, NoMem>
        ensures { IfOk result (IsIndexBehind measure (text_of self.now.held) much) }
    {
        self.replica.index_behind(measure, much)
    }

    /// The text of a version, in UTF-8, or the first of its ids, in the order given, that isn't held.
    pub fn text_at(&self, version: &[Id]) -> Result<Vec<u8>, VersionFault>
        ensures text { IfOk result (λ bytes. bytes.items ≡ encode_utf8_all (texts.text_at self.now.held version.now)) }
        ensures unknown { (x : Id) → result ≡ Err (VersionFault.Unknown x) ↔ (first_unknown self.now.held version.now ≡ Some x) }
    {
        text_at_by::<Brand>(&self.replica, version, Blank::new(1))
    }

    /// The ids of the heads, ascending. They name the document as it is now.
    pub fn heads(&self) -> Result<Vec<Id>, NoMem>
        ensures { IfOk result (λ ids. ids.items ≡ sort_by id_cmp (ancestors.heads self.now.held)) }
    {
        self.replica.head_ids()
    }

    /// The bytes of an event file of all events that are held.
    pub fn save(&self) -> Result<Vec<u8>, NoMem>
        ensures { IfOk result (λ bytes. bytes.items ≡ file2_of self.now.held) }
    {
        file_of(self.alloc, &self.replica)
    }

    /// The bytes of a question for what isn't held. Send them to a peer.
    pub fn ask(&self) -> Result<Vec<u8>, NoMem>
        ensures { IfOk result (λ bytes. bytes.items ≡ question_bytes self.now) }
    {
        question_of(self.alloc, &self.replica)
    }

    /// The events from number `from` on, as the bytes that a peer is sent who lacks them: all that came since so many were held.
    pub fn events_since(&self, from: u32) -> Result<Vec<u8>, RangeFault>
        ensures bytes { IfOk result (λ bytes. bytes.items ≡ later_bytes self.now from) }
        ensures within { OnOk result (from ≤ length self.now.held) }
        ensures refused { IfErr result (RefusesAbove (length self.now.held) from) }
    {
        let len = self.replica.count();
        if from > len {
            return Err(RangeFault::OutOfRange { len });
        }
        let bytes = later_bytes(self.alloc, &self.replica, from)?;
        Ok(bytes)
    }

    /// Takes more bytes that a peer sent, and answers the frames that are whole by then. What is to be sent back takes the place of
    /// what stands in `send`. Answers how many bytes that is.
    ///
    /// Where it ends early, what was received before stands, and what is to be sent for it too. Where memory is wanting for the bytes,
    /// none of them is taken, and nothing is to be sent.
    pub fn receive(
        &mut self,
        peer: &mut FrameReader,
        bytes: &[u8],
        send: &mut Vec<u8>,
    ) -> Result<usize, TalkingFault>
        ensures receives { Receives peer.old.limits self.old self.new peer.old.bytes bytes.now peer.new.bytes send.new.items result }
        ensures limits { peer.new.limits ≡ peer.old.limits }
    {
        send.clear();
        peer.feed(bytes)?;
        match answer_all_by::<Brand>(self.alloc, &mut self.replica, peer, send, Blank::new(1)) {
            Ok(()) => Ok(send.len()),
            Err(fault) => Err(fault),
        }
    }

    /// What the events from number `from` on do to the text, one change for each.
    pub fn changes_since(&self, from: u32) -> Result<Vec<TextOp>, RangeFault>
        ensures changes { IfOk result (λ ops. ops.items ≡ drop from (operations self.now.held)) }
        ensures within { OnOk result (from ≤ length self.now.held) }
        // Done in turn to the text of the events before that number, they leave the text.
        ensures fit { IfOk result (λ ops. AllFit (text_of (take from self.now.held)) ops.items) }
        ensures text { IfOk result (λ ops. changed_by_all ops.items (text_of (take from self.now.held)) ≡ text_of self.now.held) }
        ensures refused { IfErr result (RefusesAbove (length self.now.held) from) }
    {
        let len = self.replica.count();
        if from > len {
            return Err(RangeFault::OutOfRange { len });
        }
        let ops = changes_by::<Brand>(self.alloc, &self.replica, from, Blank::new(1))?;
        Ok(ops)
    }

    /// The marks, oldest first: a line `ID LABEL` of each.
    pub fn marks(&self) -> Result<Vec<u8>, NoMem>
        ensures { IfOk result (λ bytes. bytes.items ≡ listings.marks_text self.now.held) }
    {
        marks_text(self.alloc, &self.replica)
    }

    /// The caret at an index of the text, where there is one. It names the character left of it, and keeps its place in the text
    /// while others edit.
    pub fn caret(&self, at: u32) -> Result<Option<Caret>, NoMem>
        ensures { IfOk result (λ c. c ≡ sides.caret_in (sides.text_chars self.now.held) at) }
    {
        caret_by::<Brand>(self.alloc, &self.replica, at, Blank::new(1))
    }

    /// The index at which a caret is now, or why it has none.
    pub fn caret_index(&self, caret: &Caret) -> Result<u32, IndexFault>
        ensures index { IfOk result (λ i. i ≡ sides.side self.now.held caret.now) }
        ensures unknown { (x : Id) → result ≡ Err (IndexFault.Unknown x) ↔ (fault_of self.now.held caret.now ≡ Some (IndexFault.Unknown x)) }
        ensures no_character { (x : Id) → result ≡ Err (IndexFault.NoCharacter x) ↔ (fault_of self.now.held caret.now ≡ Some (IndexFault.NoCharacter x)) }
    {
        index_by::<Brand>(self.alloc, &self.replica, caret, Blank::new(1))
    }

    /// Who inserted which part of the text of a version, or of the whole text where none is named: of each piece a line
    /// `ID N TEXT`, of whose text as much is shown as fits into the columns. Or the first id of the version that isn't held.
    pub fn blame(&self, version: Option<&[Id]>, columns: u32) -> Result<Vec<u8>, VersionFault>
        ensures blame { IfOk result (λ bytes. bytes.items ≡ blames.blame_text self.now.held (option_map (λ v. v.now) version.entry) columns) }
        ensures unknown { (x : Id) → result ≡ Err (VersionFault.Unknown x) ↔ (blames.unknown_in self.now.held (option_map (λ v. v.now) version.entry) ≡ Some x) }
    {
        blame_by::<Brand>(self.alloc, &self.replica, version, columns, Blank::new(1))
    }
}

fn is_held(graph: &Graph, id: &Id) -> bool
    ensures { result ≡ is_held graph.now id.now }
{
    graph.find(id).is_some()
}
