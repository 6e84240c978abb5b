//! The library for C: documents and peers behind handles that C keeps. `include/egw.h` says what each call does.
//!
//! A handle is a struct of one pointer. A call takes it by value, and writes the pointer back to where the caller says. Between two
//! calls C has the handle alone.
#![tactic(auto)]

ghost use Rattle.std.specs.Prelude.{◌≡◌, ◌+◌, ◌≤◌, [], ◌++◌, drop, length, map, take, encode_utf8_all};
ghost use Rattle.std.specs.Str.{chars};
ghost use Rattle.std.specs.Box.Ownership.{box_owns};
ghost use Rattle.std.specs.declared.alloc.Global.{Global};
ghost use Rattle.std.specs.contracts.impls.GlobalAllocator.TheImpl.{ghosts};
ghost use denote.Exit.{no};
ghost use denote.Param.{arg, layout, param};
ghost use mir.Raw.{raw};
ghost use Rattle.ew_model.specs.Edits as model;
ghost use Rattle.ew_model.specs.Texts.{text_of};
ghost use Rattle.file_words.specs.FileRuns.{file2_of};
ghost use Rattle.history_definitions.specs.Listings.{marks_text};
ghost use Rattle.peer_frames.specs.Calls.{Kept};
ghost use Rattle.peer_frames.specs.contracts.reader.FrameReader.{the_row as peer_row};
ghost use Rattle.egw_c.specs.Changes.{change_of};
ghost use Rattle.document.specs.Documents.{later_bytes, question_bytes};
ghost use Rattle.document.specs.Reading.{IsRange};
ghost use Rattle.egw_c.specs.Documents.{Shown, heads_words};
ghost use Rattle.egw_c.specs.Exports.{IsCount, TellsBytes, TellsChanges, TellsEdit, TellsExtent, TellsIndex, TellsMark, TellsOpen, TellsPlace, TellsTalk, TellsUndo};
ghost use Rattle.egw_c.specs.Reading.{ReadsVersion, RefusesAbove, RefusesCaret, RefusesVersion, WritesBlame, WritesCaret};
ghost use Rattle.egw_c.specs.Statuses as statuses;
ghost use Rattle.egw_c.specs.contracts.kept.KeptDocument.{the_row as document_row};

mod answer;
mod change;
mod fault;
mod kept;
mod reading;
mod words;

use crate::answer::{
    Answer, counted, done, edited, found, indexed, marked, measured, no_memory, not_opened, talked,
    undone,
};
use crate::change::Change;
use crate::kept::KeptDocument;
use document::{FrameReader, Measure, new_peer};
use std::alloc::Global;
use std::marker::Model;

/// A document, as C keeps it.
#[repr(C)]
pub struct DocumentHandle {
    at: *mut u8,
    ghost shown: { Shown } by { document_row.coded },
    ghost heap: { Global },
}

impl Model for DocumentHandle {
    ghost also_owns = { λ h. box_owns (ghosts.dealloc_token h.heap) (param 0 (arg (raw (layout document_row)) no document_row)) h.at h.shown };
}

/// What came from a peer and is no whole frame yet, as C keeps it.
#[repr(C)]
pub struct PeerHandle {
    at: *mut u8,
    ghost kept: { Kept } by { peer_row.coded },
    ghost heap: { Global },
}

impl Model for PeerHandle {
    ghost also_owns = { λ h. box_owns (ghosts.dealloc_token h.heap) (param 0 (arg (raw (layout peer_row)) no peer_row)) h.at h.kept };
}

fn into_document(alloc: Global, handle: DocumentHandle) -> Box<KeptDocument>
    ensures { result.value ≡ handle.shown }
{
    let DocumentHandle { at } = handle;
    unsafe { Box::from_raw(alloc, at as *mut KeptDocument) }
}

fn into_peer(alloc: Global, handle: PeerHandle) -> Box<FrameReader>
    ensures { result.value ≡ handle.kept }
{
    let PeerHandle { at } = handle;
    unsafe { Box::from_raw(alloc, at as *mut FrameReader) }
}

/// A document of no events.
#[unsafe(no_mangle)]
pub extern "C" fn egw_raw_new(alloc: Global, out: &mut *mut u8) -> Answer
    ensures made { IsCount 0 result }
    ensures untouched { (result ≡ statuses.done 0 → ⊥) → out.new ≡ out.old }
{
    match KeptDocument::new(alloc) {
        Ok(document) => keep(alloc, document, out),
        Err(_) => no_memory(),
    }
}

/// The document of an event file's bytes.
#[unsafe(no_mangle)]
pub extern "C" fn egw_raw_open(alloc: Global, out: &mut *mut u8, file: &[u8]) -> Answer
    ensures opens { TellsOpen file.now result }
    ensures untouched { (result ≡ statuses.done 0 → ⊥) → out.new ≡ out.old }
{
    match KeptDocument::open(alloc, file) {
        Ok(document) => keep(alloc, document, out),
        Err(fault) => not_opened(fault),
    }
}

fn keep(alloc: Global, document: KeptDocument, out: &mut *mut u8) -> Answer
    ensures made { IsCount 0 result }
    ensures untouched { (result ≡ statuses.done 0 → ⊥) → out.new ≡ out.old }
{
    match Box::new(alloc, document) {
        Ok(boxed) => {
            *out = Box::into_raw(boxed) as *mut u8;
            done(0)
        }
        Err(_) => no_memory(),
    }
}

/// Ends a document, and gives its memory back.
#[unsafe(no_mangle)]
pub extern "C" fn egw_raw_free(alloc: Global, handle: DocumentHandle) {
    drop(into_document(alloc, handle));
}

/// How many characters the text has.
#[unsafe(no_mangle)]
pub extern "C" fn egw_raw_length(alloc: Global, handle: DocumentHandle, back: &mut *mut u8) -> u32
    ensures { result ≡ length (text_of handle.shown.replica.held) }
{
    let document = into_document(alloc, handle);
    let length = document.length();
    *back = Box::into_raw(document) as *mut u8;
    length
}

/// How many events are held.
#[unsafe(no_mangle)]
pub extern "C" fn egw_raw_count(alloc: Global, handle: DocumentHandle, back: &mut *mut u8) -> u32
    ensures { result ≡ length handle.shown.replica.held }
{
    let document = into_document(alloc, handle);
    let count = document.count();
    *back = Box::into_raw(document) as *mut u8;
    count
}

/// Inserts a text. The number is how many events were made.
#[unsafe(no_mangle)]
pub extern "C" fn egw_raw_insert(
    alloc: Global,
    handle: DocumentHandle,
    back: &mut *mut u8,
    agent: &[u8],
    at: u32,
    text: &[u8],
) -> Answer
    ensures { TellsEdit agent.now text.now (model.Edit.Insert at (chars text.now)) handle.shown.replica result }
{
    let mut document = into_document(alloc, handle);
    let answer = edited(document.insert(agent, at, text));
    *back = Box::into_raw(document) as *mut u8;
    answer
}

/// Deletes characters. The number is how many events were made.
#[unsafe(no_mangle)]
pub extern "C" fn egw_raw_delete(
    alloc: Global,
    handle: DocumentHandle,
    back: &mut *mut u8,
    agent: &[u8],
    at: u32,
    count: u32,
) -> Answer
    ensures { TellsEdit agent.now [] (model.Edit.Delete at count) handle.shown.replica result }
{
    let mut document = into_document(alloc, handle);
    let answer = edited(document.delete(agent, at, count));
    *back = Box::into_raw(document) as *mut u8;
    answer
}

/// Makes a mark, which joins all heads. The number is how many events were made.
#[unsafe(no_mangle)]
pub extern "C" fn egw_raw_mark(
    alloc: Global,
    handle: DocumentHandle,
    back: &mut *mut u8,
    agent: &[u8],
    label: &[u8],
) -> Answer
    ensures { TellsMark agent.now label.now handle.shown.replica result }
{
    let mut document = into_document(alloc, handle);
    let answer = marked(document.mark(agent, label));
    *back = Box::into_raw(document) as *mut u8;
    answer
}

/// Undoes so many events, from the one with an id on. The number is how many events were made.
#[unsafe(no_mangle)]
pub extern "C" fn egw_raw_undo(
    alloc: Global,
    handle: DocumentHandle,
    back: &mut *mut u8,
    agent: &[u8],
    of: &[u8],
    count: u32,
) -> Answer
    ensures { TellsUndo agent.now of.now count handle.shown.replica result }
{
    let mut document = into_document(alloc, handle);
    let answer = undone(document.undo(agent, of, count));
    *back = Box::into_raw(document) as *mut u8;
    answer
}

/// Finds the text, in UTF-8. The number is how many bytes it has.
#[unsafe(no_mangle)]
pub extern "C" fn egw_raw_text(alloc: Global, handle: DocumentHandle, back: &mut *mut u8) -> Answer
    ensures { IsCount (length (encode_utf8_all (text_of handle.shown.replica.held))) result }
{
    let mut document = into_document(alloc, handle);
    let answer = counted(document.text());
    *back = Box::into_raw(document) as *mut u8;
    answer
}

/// Finds so many characters of the text from an index on. The number is how many bytes they have.
#[unsafe(no_mangle)]
pub extern "C" fn egw_raw_range(
    alloc: Global,
    handle: DocumentHandle,
    back: &mut *mut u8,
    from: u32,
    count: u32,
) -> Answer
    ensures { TellsBytes (IsRange (text_of handle.shown.replica.held) from count) (RefusesAbove (length (text_of handle.shown.replica.held)) (from + count)) result }
{
    let mut document = into_document(alloc, handle);
    let answer = found(document.range(from, count));
    *back = Box::into_raw(document) as *mut u8;
    answer
}

/// How many code units of UTF-16 stand before an index of the text.
#[unsafe(no_mangle)]
pub extern "C" fn egw_raw_to_utf16(
    alloc: Global,
    handle: DocumentHandle,
    back: &mut *mut u8,
    at: u32,
) -> Answer
    ensures { TellsExtent Measure.Utf16 (text_of handle.shown.replica.held) at result }
{
    let document = into_document(alloc, handle);
    let answer = measured(document.extent_before(Measure::Utf16, at));
    *back = Box::into_raw(document) as *mut u8;
    answer
}

/// The index before which so many code units of UTF-16 stand.
#[unsafe(no_mangle)]
pub extern "C" fn egw_raw_from_utf16(
    alloc: Global,
    handle: DocumentHandle,
    back: &mut *mut u8,
    units: u64,
) -> Answer
    ensures { TellsPlace Measure.Utf16 (text_of handle.shown.replica.held) units result }
{
    let document = into_document(alloc, handle);
    let answer = indexed(document.index_behind(Measure::Utf16, units));
    *back = Box::into_raw(document) as *mut u8;
    answer
}

/// How many bytes of UTF-8 stand before an index of the text.
#[unsafe(no_mangle)]
pub extern "C" fn egw_raw_to_bytes(
    alloc: Global,
    handle: DocumentHandle,
    back: &mut *mut u8,
    at: u32,
) -> Answer
    ensures { TellsExtent Measure.Utf8 (text_of handle.shown.replica.held) at result }
{
    let document = into_document(alloc, handle);
    let answer = measured(document.extent_before(Measure::Utf8, at));
    *back = Box::into_raw(document) as *mut u8;
    answer
}

/// The index before which so many bytes of UTF-8 stand.
#[unsafe(no_mangle)]
pub extern "C" fn egw_raw_from_bytes(
    alloc: Global,
    handle: DocumentHandle,
    back: &mut *mut u8,
    bytes: u64,
) -> Answer
    ensures { TellsPlace Measure.Utf8 (text_of handle.shown.replica.held) bytes result }
{
    let document = into_document(alloc, handle);
    let answer = indexed(document.index_behind(Measure::Utf8, bytes));
    *back = Box::into_raw(document) as *mut u8;
    answer
}

/// Finds the text of a version, in UTF-8. The number is how many bytes it has.
#[unsafe(no_mangle)]
pub extern "C" fn egw_raw_text_at(
    alloc: Global,
    handle: DocumentHandle,
    back: &mut *mut u8,
    version: &[u8],
) -> Answer
    ensures { TellsBytes (ReadsVersion handle.shown.replica.held version.now) (RefusesVersion handle.shown.replica.held version.now) result }
{
    let mut document = into_document(alloc, handle);
    let answer = found(document.text_at(version));
    *back = Box::into_raw(document) as *mut u8;
    answer
}

/// Finds the ids of the heads. The number is how many bytes they have.
#[unsafe(no_mangle)]
pub extern "C" fn egw_raw_heads(alloc: Global, handle: DocumentHandle, back: &mut *mut u8) -> Answer
    ensures { IsCount (length (heads_words handle.shown.replica)) result }
{
    let mut document = into_document(alloc, handle);
    let answer = counted(document.heads());
    *back = Box::into_raw(document) as *mut u8;
    answer
}

/// Finds the bytes of an event file. The number is how many there are.
#[unsafe(no_mangle)]
pub extern "C" fn egw_raw_save(alloc: Global, handle: DocumentHandle, back: &mut *mut u8) -> Answer
    ensures { IsCount (length (file2_of handle.shown.replica.held)) result }
{
    let mut document = into_document(alloc, handle);
    let answer = counted(document.save());
    *back = Box::into_raw(document) as *mut u8;
    answer
}

/// Finds the question to a peer for what isn't held. The number is how many bytes it has.
#[unsafe(no_mangle)]
pub extern "C" fn egw_raw_ask(alloc: Global, handle: DocumentHandle, back: &mut *mut u8) -> Answer
    ensures { IsCount (length (question_bytes handle.shown.replica)) result }
{
    let mut document = into_document(alloc, handle);
    let answer = counted(document.ask());
    *back = Box::into_raw(document) as *mut u8;
    answer
}

/// Finds the frames of the events from a number on. The number is how many bytes they have.
#[unsafe(no_mangle)]
pub extern "C" fn egw_raw_events(
    alloc: Global,
    handle: DocumentHandle,
    back: &mut *mut u8,
    from: u32,
) -> Answer
    ensures { TellsBytes (λ bytes. (bytes ≡ later_bytes handle.shown.replica from) × (from ≤ length handle.shown.replica.held)) (RefusesAbove (length handle.shown.replica.held) from) result }
{
    let mut document = into_document(alloc, handle);
    let answer = found(document.later_events(from));
    *back = Box::into_raw(document) as *mut u8;
    answer
}

/// Finds the marks, a line of each. The number is how many bytes they have.
#[unsafe(no_mangle)]
pub extern "C" fn egw_raw_marks(alloc: Global, handle: DocumentHandle, back: &mut *mut u8) -> Answer
    ensures { IsCount (length (marks_text handle.shown.replica.held)) result }
{
    let mut document = into_document(alloc, handle);
    let answer = counted(document.marks());
    *back = Box::into_raw(document) as *mut u8;
    answer
}

/// Finds the caret at an index of the text. The number is how many bytes it has.
#[unsafe(no_mangle)]
pub extern "C" fn egw_raw_caret(
    alloc: Global,
    handle: DocumentHandle,
    back: &mut *mut u8,
    at: u32,
) -> Answer
    ensures { TellsBytes (WritesCaret handle.shown.replica.held at) (RefusesCaret handle.shown.replica.held at) result }
{
    let mut document = into_document(alloc, handle);
    let answer = found(document.caret(at));
    *back = Box::into_raw(document) as *mut u8;
    answer
}

/// The index of a caret in the text. The number is the index.
#[unsafe(no_mangle)]
pub extern "C" fn egw_raw_caret_index(
    alloc: Global,
    handle: DocumentHandle,
    back: &mut *mut u8,
    caret: &[u8],
) -> Answer
    ensures { TellsIndex handle.shown.replica.held caret.now result }
{
    let document = into_document(alloc, handle);
    let answer = found(document.caret_index(caret));
    *back = Box::into_raw(document) as *mut u8;
    answer
}

/// Finds who inserted which part of the text, or of that of a version. The number is how many bytes the lines have.
#[unsafe(no_mangle)]
pub extern "C" fn egw_raw_blame(
    alloc: Global,
    handle: DocumentHandle,
    back: &mut *mut u8,
    version: &[u8],
    columns: u32,
) -> Answer
    ensures { TellsBytes (WritesBlame handle.shown.replica.held version.now columns) (RefusesVersion handle.shown.replica.held version.now) result }
{
    let mut document = into_document(alloc, handle);
    let answer = found(document.blame(version, columns));
    *back = Box::into_raw(document) as *mut u8;
    answer
}

/// Takes bytes of a peer. What is to be sent back is found, and the number is how many bytes it has.
#[unsafe(no_mangle)]
pub extern "C" fn egw_raw_receive(
    alloc: Global,
    handle: DocumentHandle,
    back: &mut *mut u8,
    peer: PeerHandle,
    peer_back: &mut *mut u8,
    bytes: &[u8],
) -> Answer
    ensures { TellsTalk handle.shown.replica peer.kept bytes.now result }
{
    let mut document = into_document(alloc, handle);
    let mut peer = into_peer(alloc, peer);
    let answer = talked(document.receive(&mut peer, bytes));
    *peer_back = Box::into_raw(peer) as *mut u8;
    *back = Box::into_raw(document) as *mut u8;
    answer
}

/// Finds the changes that the events from a number on make. The number is how many there are.
#[unsafe(no_mangle)]
pub extern "C" fn egw_raw_changes(
    alloc: Global,
    handle: DocumentHandle,
    back: &mut *mut u8,
    from: u32,
) -> Answer
    ensures { TellsChanges (length handle.shown.replica.held) from result }
{
    let mut document = into_document(alloc, handle);
    let answer = found(document.find_changes(from));
    *back = Box::into_raw(document) as *mut u8;
    answer
}

/// Copies the bytes that were found last, as many as there is room for. Answers how many there are.
#[unsafe(no_mangle)]
pub extern "C" fn egw_raw_copy(
    alloc: Global,
    handle: DocumentHandle,
    back: &mut *mut u8,
    out: &mut [u8],
) -> usize
    ensures copied { out.new ≡ take (length out.old) handle.shown.bytes ++ drop (length handle.shown.bytes) out.old }
    ensures all { result ≡ length handle.shown.bytes }
{
    let document = into_document(alloc, handle);
    let count = document.copy_bytes(out);
    *back = Box::into_raw(document) as *mut u8;
    count
}

/// Copies the changes that were found last, as many as there is room for. Answers how many there are.
#[unsafe(no_mangle)]
pub extern "C" fn egw_raw_copy_changes(
    alloc: Global,
    handle: DocumentHandle,
    back: &mut *mut u8,
    out: &mut [Change],
) -> usize
    ensures copied { out.new ≡ take (length out.old) (map change_of handle.shown.changes) ++ drop (length handle.shown.changes) out.old }
    ensures all { result ≡ length handle.shown.changes }
{
    let document = into_document(alloc, handle);
    let count = document.copy_changes(out);
    *back = Box::into_raw(document) as *mut u8;
    count
}

/// A peer that sent nothing yet.
#[unsafe(no_mangle)]
pub extern "C" fn egw_raw_peer_new(alloc: Global, out: &mut *mut u8) -> Answer
    ensures made { IsCount 0 result }
    ensures untouched { (result ≡ statuses.done 0 → ⊥) → out.new ≡ out.old }
{
    match new_peer(alloc) {
        Ok(peer) => keep_peer(alloc, peer, out),
        Err(_) => no_memory(),
    }
}

fn keep_peer(alloc: Global, peer: FrameReader, out: &mut *mut u8) -> Answer
    ensures made { IsCount 0 result }
    ensures untouched { (result ≡ statuses.done 0 → ⊥) → out.new ≡ out.old }
{
    match Box::new(alloc, peer) {
        Ok(boxed) => {
            *out = Box::into_raw(boxed) as *mut u8;
            done(0)
        }
        Err(_) => no_memory(),
    }
}

/// Ends a peer, and gives its memory back.
#[unsafe(no_mangle)]
pub extern "C" fn egw_raw_peer_free(alloc: Global, handle: PeerHandle) {
    drop(into_peer(alloc, handle));
}
