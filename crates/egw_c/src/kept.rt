//! A document as C has it: what its calls take are bytes, and what they find stays for the caller.

ghost use Rattle.std.specs.Prelude.{◌≡◌, ◌+◌, ◌≤◌, [], ◌++◌, Ok, drop, length, map, take, encode_utf8_all, IfErr, IfOk, OnErr, OnOk};
ghost use Rattle.std.specs.Str.{chars, IsUtf8};
ghost use Rattle.std.specs.Str.Lossy.{utf8_valid_len};
ghost use Rattle.document.specs.Documents.{RefusesFile, later_bytes, question_bytes};
ghost use Rattle.document.specs.Reading.{IsRange, StandsBefore};
ghost use Rattle.document.specs.Talks.{Receives};
ghost use Rattle.ew_model.specs.EditLaws.{edited};
ghost use Rattle.ew_model.specs.Edits as model;
ghost use Rattle.ew_model.specs.Limits.{program_limits};
ghost use Rattle.ew_model.specs.Operations.{changed_by_all, operations};
ghost use Rattle.ew_model.specs.TextLaws.{AllFit};
ghost use Rattle.ew_model.specs.Texts.{text_of};
ghost use Rattle.file_words.specs.FileRuns.{file2_of};
ghost use Rattle.history_definitions.specs.Listings.{marks_text};
ghost use Rattle.replica.specs.Answers.{EditsBy};
ghost use Rattle.rope.specs.Extents.{IsIndexBehind};
ghost use Rattle.egw_c.specs.Changes.{change_of};
ghost use Rattle.egw_c.specs.Documents.{MayEdit, MayMark, Opens, Refuses, RefusesMark, RefusesUndo, UndoesFrom, heads_words};
ghost use Rattle.egw_c.specs.Reading.{ReadsVersion, RefusesAbove, RefusesCaret, RefusesIndex, RefusesVersion, StandsAt, WritesBlame, WritesCaret};

use crate::change::{Change, change_of};
use crate::fault::{EditingFault, MarkingFault, ReadingFault, UndoingFault};
use crate::reading::{blame, blame_at, caret_index, text_at};
use crate::words::{caret_in, caret_words, id_in, ids_in};
use document::{Document, FrameReader, Measure, Name, NoMem, OpeningFault, TalkingFault, TextOp};
use script_reader::print::print_version;
use std::alloc::Global;
use std::marker::Model;

/// A document, with the bytes and the changes that the last calls found. They stay until a call finds others. Contracts see all three.
#[derive(Drop)]
pub struct KeptDocument {
    alloc: Global,
    document: Document,
    bytes: Vec<u8>,
    changes: Vec<TextOp>,
}

impl Model for KeptDocument {
    ghost use Rattle.egw_c.specs.Documents.{Shown};

    ghost Value = { Shown };

    ghost view = { λ d. record { replica = d.document; bytes = d.bytes.items; changes = d.changes.items } };
}

impl KeptDocument {
    /// A document of no events.
    pub fn new(alloc: Global) -> Result<KeptDocument, NoMem>
        ensures { IfOk result (λ d. d ≡ record { replica = record { limits = program_limits; held = []; waiting = [] }; bytes = []; changes = [] }) }
    {
        let document = Document::new(alloc)?;
        Ok(KeptDocument::of(alloc, document))
    }

    /// The document of an event file's bytes.
    pub fn open(alloc: Global, file: &[u8]) -> Result<KeptDocument, OpeningFault>
        ensures opens { IfOk result (Opens file.now) }
        ensures refused { IfErr result (RefusesFile file.now) }
    {
        match Document::open(alloc, file) {
            Ok(document) => Ok(KeptDocument::of(alloc, document)),
            Err(fault) => Err(fault),
        }
    }

    fn of(alloc: Global, document: Document) -> KeptDocument
        ensures { result ≡ record { replica = document; bytes = []; changes = [] } }
    {
        KeptDocument {
            alloc,
            document,
            bytes: Vec::new(alloc),
            changes: Vec::new(alloc),
        }
    }

    /// How many characters the text has.
    pub fn length(&self) -> u32
        ensures { result ≡ length (text_of self.now.replica.held) }
    {
        self.document.length()
    }

    /// How many events are held.
    pub fn count(&self) -> u32
        ensures { result ≡ length self.now.replica.held }
    {
        self.document.count()
    }

    /// Inserts a text at an index, as an agent. Answers how many events were made.
    pub fn insert(&mut self, agent: &[u8], at: u32, text: &[u8]) -> Result<u32, EditingFault>
        ensures may { OnOk result (MayEdit agent.now text.now self.old.replica) }
        ensures edits { IfOk result (λ n. EditsBy agent.now (model.Edit.Insert at (chars text.now)) self.old.replica self.new.replica (Ok n)) }
        ensures text { OnOk result (text_of self.new.replica.held ≡ edited (model.Edit.Insert at (chars text.now)) (text_of self.old.replica.held)) }
        ensures found { (self.new.bytes ≡ self.old.bytes) × (self.new.changes ≡ self.old.changes) }
        ensures refused { IfErr result (Refuses agent.now text.now (model.Edit.Insert at (chars text.now)) self.old.replica) }
        ensures same { OnErr result (self.new ≡ self.old) }
    {
        let name = Name::read(agent)?;
        let text = text_in(text)?;
        let made = self.document.insert(name, at, text)?;
        Ok(made)
    }

    /// Deletes n characters from an index on, as an agent. Answers how many events were made.
    pub fn delete(&mut self, agent: &[u8], at: u32, n: u32) -> Result<u32, EditingFault>
        ensures may { OnOk result (MayEdit agent.now [] self.old.replica) }
        ensures edits { IfOk result (λ made. EditsBy agent.now (model.Edit.Delete at n) self.old.replica self.new.replica (Ok made)) }
        ensures text { OnOk result (text_of self.new.replica.held ≡ edited (model.Edit.Delete at n) (text_of self.old.replica.held)) }
        ensures found { (self.new.bytes ≡ self.old.bytes) × (self.new.changes ≡ self.old.changes) }
        ensures refused { IfErr result (Refuses agent.now [] (model.Edit.Delete at n) self.old.replica) }
        ensures same { OnErr result (self.new ≡ self.old) }
    {
        let name = Name::read(agent)?;
        let made = self.document.delete(name, at, n)?;
        Ok(made)
    }

    /// Makes a mark under a label, which joins all heads, as an agent. Answers how many events were made.
    pub fn mark(&mut self, agent: &[u8], label: &[u8]) -> Result<u32, MarkingFault>
        ensures may { OnOk result (MayMark agent.now label.now self.old.replica) }
        ensures edits { IfOk result (λ n. EditsBy agent.now (model.Edit.Mark label.now) self.old.replica self.new.replica (Ok n)) }
        ensures text { OnOk result (text_of self.new.replica.held ≡ text_of self.old.replica.held) }
        ensures found { (self.new.bytes ≡ self.old.bytes) × (self.new.changes ≡ self.old.changes) }
        ensures refused { IfErr result (RefusesMark agent.now label.now self.old.replica) }
        ensures same { OnErr result (self.new ≡ self.old) }
    {
        let agent = match Name::read(agent) {
            Ok(agent) => agent,
            Err(fault) => return Err(MarkingFault::Name(fault)),
        };
        let label = match Name::read(label) {
            Ok(label) => label,
            Err(fault) => return Err(MarkingFault::Label(fault)),
        };
        let made = self.document.mark(agent, label)?;
        Ok(made)
    }

    /// Undoes so many events of one agent, from the one with an id on, by new events of an agent. Answers how many were made.
    pub fn undo(&mut self, agent: &[u8], of: &[u8], count: u32) -> Result<u32, UndoingFault>
        ensures undoes { IfOk result (UndoesFrom agent.now of.now count self.old.replica self.new.replica) }
        ensures found { (self.new.bytes ≡ self.old.bytes) × (self.new.changes ≡ self.old.changes) }
        ensures refused { IfErr result (RefusesUndo agent.now of.now count self.old.replica) }
        ensures same { OnErr result (self.new ≡ self.old) }
    {
        let agent = match Name::read(agent) {
            Ok(agent) => agent,
            Err(fault) => return Err(UndoingFault::Name(fault)),
        };
        let id = id_in(self.alloc, of)?;
        let made = self.document.undo(agent, &id, count)?;
        Ok(made)
    }

    /// Finds the text, in UTF-8.
    pub fn text(&mut self) -> Result<usize, NoMem>
        ensures found { IfOk result (λ n. (self.new.bytes ≡ encode_utf8_all (text_of self.old.replica.held)) × (n ≡ length self.new.bytes)) }
        ensures replica { self.new.replica ≡ self.old.replica }
        ensures changes { self.new.changes ≡ self.old.changes }
        ensures same { OnErr result (self.new ≡ self.old) }
    {
        let bytes = self.document.text()?;
        Ok(self.find(bytes))
    }

    /// Finds so many characters of the text from an index on, in UTF-8.
    pub fn range(&mut self, from: u32, count: u32) -> Result<usize, ReadingFault>
        ensures found { IfOk result (λ n. IsRange (text_of self.old.replica.held) from count self.new.bytes × (n ≡ length self.new.bytes)) }
        ensures refused { IfErr result (RefusesAbove (length (text_of self.old.replica.held)) (from + count)) }
        ensures replica { self.new.replica ≡ self.old.replica }
        ensures changes { self.new.changes ≡ self.old.changes }
        ensures same { OnErr result (self.new ≡ self.old) }
    {
        let bytes = self.document.range(from, count)?;
        Ok(self.find(bytes))
    }

    /// How much of a measure stands before an index.
    pub fn extent_before(&self, measure: Measure, at: u32) -> Result<u64, ReadingFault>
        ensures before { IfOk result (StandsBefore measure (text_of self.now.replica.held) at) }
        ensures refused { IfErr result (RefusesAbove (length (text_of self.now.replica.held)) at) }
    {
        let much = self.document.extent_before(measure, at)?;
        Ok(much)
    }

    /// The index before which just so much of a measure stands. There is none inside a character, nor behind the end.
    pub fn index_behind(&self, measure: Measure, much: u64) -> Result<Option<u32>, NoMem>
        ensures { IfOk result (IsIndexBehind measure (text_of self.now.replica.held) much) }
    {
        self.document.index_behind(measure, much)
    }

    /// Finds the text of a version, in UTF-8.
    pub fn text_at(&mut self, version: &[u8]) -> Result<usize, ReadingFault>
        ensures found { IfOk result (λ n. ReadsVersion self.old.replica.held version.now self.new.bytes × (n ≡ length self.new.bytes)) }
        ensures refused { IfErr result (RefusesVersion self.old.replica.held version.now) }
        ensures replica { self.new.replica ≡ self.old.replica }
        ensures changes { self.new.changes ≡ self.old.changes }
        ensures same { OnErr result (self.new ≡ self.old) }
    {
        let ids = ids_in(self.alloc, version)?;
        let bytes = text_at(&self.document, &ids)?;
        Ok(self.find(bytes))
    }

    /// Finds the ids of the heads, as a version is written.
    pub fn heads(&mut self) -> Result<usize, NoMem>
        ensures found { IfOk result (λ n. (self.new.bytes ≡ heads_words self.old.replica) × (n ≡ length self.new.bytes)) }
        ensures replica { self.new.replica ≡ self.old.replica }
        ensures changes { self.new.changes ≡ self.old.changes }
        ensures same { OnErr result (self.new ≡ self.old) }
    {
        let ids = self.document.heads()?;
        let bytes = print_version(self.alloc, &ids)?;
        Ok(self.find(bytes))
    }

    /// Finds the bytes of an event file of all events.
    pub fn save(&mut self) -> Result<usize, NoMem>
        ensures found { IfOk result (λ n. (self.new.bytes ≡ file2_of self.old.replica.held) × (n ≡ length self.new.bytes)) }
        ensures replica { self.new.replica ≡ self.old.replica }
        ensures changes { self.new.changes ≡ self.old.changes }
        ensures same { OnErr result (self.new ≡ self.old) }
    {
        let bytes = self.document.save()?;
        Ok(self.find(bytes))
    }

    /// Finds the question to a peer for what isn't held.
    pub fn ask(&mut self) -> Result<usize, NoMem>
        ensures found { IfOk result (λ n. (self.new.bytes ≡ question_bytes self.old.replica) × (n ≡ length self.new.bytes)) }
        ensures replica { self.new.replica ≡ self.old.replica }
        ensures changes { self.new.changes ≡ self.old.changes }
        ensures same { OnErr result (self.new ≡ self.old) }
    {
        let bytes = self.document.ask()?;
        Ok(self.find(bytes))
    }

    /// Finds the frames of the events from number `from` on, as an answer to a peer has them.
    pub fn later_events(&mut self, from: u32) -> Result<usize, ReadingFault>
        ensures found { IfOk result (λ n. (self.new.bytes ≡ later_bytes self.old.replica from) × (n ≡ length self.new.bytes)) }
        ensures within { OnOk result (from ≤ length self.old.replica.held) }
        ensures refused { IfErr result (RefusesAbove (length self.old.replica.held) from) }
        ensures replica { self.new.replica ≡ self.old.replica }
        ensures changes { self.new.changes ≡ self.old.changes }
        ensures same { OnErr result (self.new ≡ self.old) }
    {
        let bytes = self.document.events_since(from)?;
        Ok(self.find(bytes))
    }

    /// Finds the marks, a line `ID LABEL` of each.
    pub fn marks(&mut self) -> Result<usize, NoMem>
        ensures found { IfOk result (λ n. (self.new.bytes ≡ marks_text self.old.replica.held) × (n ≡ length self.new.bytes)) }
        ensures replica { self.new.replica ≡ self.old.replica }
        ensures changes { self.new.changes ≡ self.old.changes }
        ensures same { OnErr result (self.new ≡ self.old) }
    {
        let bytes = self.document.marks()?;
        Ok(self.find(bytes))
    }

    /// Finds the caret at an index of the text, as it is written.
    pub fn caret(&mut self, at: u32) -> Result<usize, ReadingFault>
        ensures found { IfOk result (λ n. WritesCaret self.old.replica.held at self.new.bytes × (n ≡ length self.new.bytes)) }
        ensures refused { IfErr result (RefusesCaret self.old.replica.held at) }
        ensures replica { self.new.replica ≡ self.old.replica }
        ensures changes { self.new.changes ≡ self.old.changes }
        ensures same { OnErr result (self.new ≡ self.old) }
    {
        match self.document.caret(at)? {
            Some(caret) => {
                let bytes = caret_words(self.alloc, caret)?;
                Ok(self.find(bytes))
            }
            None => Err(ReadingFault::OutOfRange {
                len: self.document.length(),
            }),
        }
    }

    /// The index at which a caret is now.
    pub fn caret_index(&self, words: &[u8]) -> Result<usize, ReadingFault>
        ensures index { IfOk result (StandsAt self.now.replica.held words.now) }
        ensures refused { IfErr result (RefusesIndex self.now.replica.held words.now) }
    {
        let caret = caret_in(self.alloc, words)?;
        caret_index(&self.document, &caret)
    }

    /// Finds who inserted which part of the text of a version, or of the whole text where no words name one: of each piece a line
    /// `ID N TEXT`, of whose text as much is shown as fits into the columns.
    pub fn blame(&mut self, version: &[u8], columns: u32) -> Result<usize, ReadingFault>
        ensures found { IfOk result (λ n. WritesBlame self.old.replica.held version.now columns self.new.bytes × (n ≡ length self.new.bytes)) }
        ensures refused { IfErr result (RefusesVersion self.old.replica.held version.now) }
        ensures replica { self.new.replica ≡ self.old.replica }
        ensures changes { self.new.changes ≡ self.old.changes }
        ensures same { OnErr result (self.new ≡ self.old) }
    {
        let bytes = self.blamed(version, columns)?;
        Ok(self.find(bytes))
    }

    fn blamed(&self, version: &[u8], columns: u32) -> Result<Vec<u8>, ReadingFault>
        ensures blame { IfOk result (λ bytes. WritesBlame self.now.replica.held version.now columns bytes.items) }
        ensures refused { IfErr result (RefusesVersion self.now.replica.held version.now) }
    {
        if version.is_empty() {
            return blame(&self.document, columns);
        }
        let ids = ids_in(self.alloc, version)?;
        blame_at(&self.document, &ids, columns)
    }

    /// Takes more bytes that a peer sent, and answers the frames that are whole by then. What is to be sent back is found.
    ///
    /// Where it ends early, what was received before stands, and what is to be sent for it is found. Where memory is wanting for the
    /// bytes, none of them is taken, and nothing is to be sent.
    pub fn receive(&mut self, peer: &mut FrameReader, bytes: &[u8]) -> Result<usize, TalkingFault>
        ensures receives { Receives peer.old.limits self.old.replica self.new.replica peer.old.bytes bytes.now peer.new.bytes self.new.bytes result }
        ensures limits { peer.new.limits ≡ peer.old.limits }
        ensures changes { self.new.changes ≡ self.old.changes }
    {
        self.document.receive(peer, bytes, &mut self.bytes)
    }

    /// Finds what the events from number `from` on do to the text, one change for each.
    pub fn find_changes(&mut self, from: u32) -> Result<usize, ReadingFault>
        ensures found { IfOk result (λ n. (self.new.changes ≡ drop from (operations self.old.replica.held)) × (n ≡ length self.new.changes)) }
        ensures within { OnOk result (from ≤ length self.old.replica.held) }
        // Done in turn to the text of the events before that number, they leave the text.
        ensures fit { OnOk result (AllFit (text_of (take from self.old.replica.held)) self.new.changes) }
        ensures text { OnOk result (changed_by_all self.new.changes (text_of (take from self.old.replica.held)) ≡ text_of self.old.replica.held) }
        ensures refused { IfErr result (RefusesAbove (length self.old.replica.held) from) }
        ensures replica { self.new.replica ≡ self.old.replica }
        ensures bytes { self.new.bytes ≡ self.old.bytes }
        ensures same { OnErr result (self.new ≡ self.old) }
    {
        let ops = self.document.changes_since(from)?;
        let count = ops.len();
        self.changes = ops;
        Ok(count)
    }

    /// Copies what was found last, as much as there is room for. Answers how many bytes it has.
    pub fn copy_bytes(&self, out: &mut [u8]) -> usize
        ensures copied { out.new ≡ take (length out.old) self.now.bytes ++ drop (length self.now.bytes) out.old }
        ensures all { result ≡ length self.now.bytes }
    {
        let count = self.bytes.len().min(out.len());
        out[..count].copy_from_slice(&self.bytes[..count]);
        self.bytes.len()
    }

    /// Copies the changes that were found last, as many as there is room for. Answers how many there are.
    pub fn copy_changes(&self, out: &mut [Change]) -> usize
        ensures copied { out.new ≡ take (length out.old) (map change_of self.now.changes) ++ drop (length self.now.changes) out.old }
        ensures all { result ≡ length self.now.changes }
    {
        let count = self.changes.len().min(out.len());
        for i in 0..count {
            out[i] = change_of(&self.changes[i]);
        }
        self.changes.len()
    }

    /// Keeps bytes for the caller.
    fn find(&mut self, bytes: Vec<u8>) -> usize
        ensures found { self.new ≡ record { replica = self.old.replica; bytes = bytes.items; changes = self.old.changes } }
        ensures count { result ≡ length bytes.items }
    {
        self.bytes = bytes;
        self.bytes.len()
    }
}

/// The bytes as a text.
fn text_in(bytes: &[u8]) -> Result<&str, EditingFault>
    ensures ok { IfOk result (λ text. (text.now ≡ bytes.now) × IsUtf8 bytes.now) }
    ensures err { IfErr result (λ fault. (fault ≡ EditingFault.Text (utf8_valid_len bytes.now)) × ¬ (IsUtf8 bytes.now)) }
{
    match str::from_utf8(bytes) {
        Ok(text) => Ok(text),
        Err(fault) => Err(EditingFault::Text {
            good: fault.valid_up_to(),
        }),
    }
}
