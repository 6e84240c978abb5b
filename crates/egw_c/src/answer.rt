//! What C is answered: a number for each way that a call ends.

ghost use Rattle.std.specs.Prelude.{◌≡◌, Err};
ghost use Rattle.egw_c.specs.Statuses as model;

use crate::fault::{EditingFault, MarkingFault, ReadingFault, UndoingFault};
use document::{
    EditFault, End, FileFault, FrameFault, LoadFault, NameFault, NoMem, OpeningFault, TalkingFault,
    UndoFault,
};

/// How a call ended, with a number that belongs to it.
#[repr(C)]
#[derive(Clone, Copy)]
pub struct Answer {
    pub number: u64,
    pub status: u32,
}

const OK: u32 = 0;

const OUT_OF_MEMORY: u32 = 1;

const OUT_OF_RANGE: u32 = 2;

const TOO_MANY_HEADS: u32 = 3;

const FULL: u32 = 4;

const AWAITED: u32 = 5;

const EMPTY_NAME: u32 = 6;

const LONG_NAME: u32 = 7;

const BAD_NAME: u32 = 8;

const BAD_TEXT: u32 = 9;

const NO_VERSION: u32 = 10;

const UNKNOWN_EVENT: u32 = 11;

const SHORT_FILE: u32 = 12;

const NO_EVENT_FILE: u32 = 13;

const FILE_VERSION: u32 = 14;

const BAD_DIGEST: u32 = 15;

const BAD_FIELD: u32 = 16;

const TOO_MANY_EVENTS: u32 = 17;

const BAD_EVENT: u32 = 18;

const LONG_FRAME: u32 = 19;

const FRAME_KIND: u32 = 20;

const BAD_FRAME: u32 = 21;

const CLASH: u32 = 22;

const BYE: u32 = 23;

const NO_ID: u32 = 24;

// 25 is answered by the header, for a document or a peer that was never made or is ended.

const NO_CARET: u32 = 26;

const NO_CHARACTER: u32 = 27;

const EMPTY_LABEL: u32 = 28;

const LONG_LABEL: u32 = 29;

const BAD_LABEL: u32 = 30;

const NO_INDEX: u32 = 31;

fn told(status: u32, number: u64) -> Answer
    ensures { result ≡ model.answer status number }
{
    Answer { number, status }
}

/// All went well.
pub fn done(number: u64) -> Answer
    ensures { result ≡ model.done number }
{
    told(OK, number)
}

/// A number, or memory was wanting.
pub fn counted(ended: Result<usize, NoMem>) -> Answer
    ensures { result ≡ model.counted ended }
{
    match ended {
        Ok(count) => done(count as u64),
        Err(NoMem) => no_memory(),
    }
}

/// How an edit ended.
pub fn edited(ended: Result<u32, EditingFault>) -> Answer
    ensures { result ≡ model.edited ended }
{
    match ended {
        Ok(count) => done(u64::from(count)),
        Err(EditingFault::Name(fault)) => name_answer(fault),
        Err(EditingFault::Text { good }) => told(BAD_TEXT, good as u64),
        Err(EditingFault::Edit(fault)) => refused_edit(fault),
    }
}

fn refused_edit(fault: document::EditingFault) -> Answer
    ensures { result ≡ model.refused_edit fault }
{
    match fault {
        document::EditingFault::Awaited => told(AWAITED, 0),
        document::EditingFault::Edit(fault) => edit_answer(fault),
    }
}

fn name_answer(fault: NameFault) -> Answer
    ensures { result ≡ model.name_answer fault }
{
    match fault {
        NameFault::Empty => told(EMPTY_NAME, 0),
        NameFault::TooLong => told(LONG_NAME, 0),
        NameFault::BadByte(place) => told(BAD_NAME, u64::from(place)),
    }
}

fn edit_answer(fault: EditFault) -> Answer
    ensures { result ≡ model.edit_answer fault }
{
    match fault {
        EditFault::OutOfRange { len } => told(OUT_OF_RANGE, u64::from(len)),
        EditFault::TooManyHeads { heads } => told(TOO_MANY_HEADS, u64::from(heads)),
        EditFault::Full { count } => told(FULL, u64::from(count)),
        EditFault::OutOfMemory => no_memory(),
    }
}

/// How a mark ended.
pub fn marked(ended: Result<u32, MarkingFault>) -> Answer
    ensures { result ≡ model.marked ended }
{
    match ended {
        Ok(count) => done(u64::from(count)),
        Err(MarkingFault::Name(fault)) => name_answer(fault),
        Err(MarkingFault::Label(fault)) => label_answer(fault),
        Err(MarkingFault::Edit(fault)) => refused_edit(fault),
    }
}

fn label_answer(fault: NameFault) -> Answer
    ensures { result ≡ model.label_answer fault }
{
    match fault {
        NameFault::Empty => told(EMPTY_LABEL, 0),
        NameFault::TooLong => told(LONG_LABEL, 0),
        NameFault::BadByte(place) => told(BAD_LABEL, u64::from(place)),
    }
}

/// How an undo ended.
pub fn undone(ended: Result<u32, UndoingFault>) -> Answer
    ensures { result ≡ model.undone ended }
{
    match ended {
        Ok(count) => done(u64::from(count)),
        Err(UndoingFault::Name(fault)) => name_answer(fault),
        Err(UndoingFault::NoId) => told(NO_ID, 0),
        Err(UndoingFault::OutOfMemory) => no_memory(),
        Err(UndoingFault::Undo(fault)) => refused_undo(fault),
    }
}

fn refused_undo(fault: document::UndoingFault) -> Answer
    ensures { result ≡ model.refused_undo fault }
{
    match fault {
        document::UndoingFault::Awaited => told(AWAITED, 0),
        document::UndoingFault::Undo(fault) => undo_answer(fault),
    }
}

fn undo_answer(fault: UndoFault) -> Answer
    ensures { result ≡ model.undo_answer fault }
{
    match fault {
        UndoFault::NoEvent(id) => told(UNKNOWN_EVENT, u64::from(id.seq)),
        UndoFault::TooManyHeads { heads } => told(TOO_MANY_HEADS, u64::from(heads)),
        UndoFault::Full { count } => told(FULL, u64::from(count)),
        UndoFault::OutOfMemory => no_memory(),
    }
}

/// Why bytes make no document.
pub fn not_opened(fault: OpeningFault) -> Answer
    ensures { result ≡ model.not_opened fault }
{
    match fault {
        OpeningFault::File(fault) => file_answer(fault),
        OpeningFault::Load(fault) => load_answer(fault),
    }
}

fn load_answer(fault: LoadFault) -> Answer
    ensures { result ≡ model.load_answer fault }
{
    match fault {
        LoadFault::BadEvent { position, .. } => told(BAD_EVENT, u64::from(position)),
        LoadFault::OutOfMemory => no_memory(),
    }
}

fn file_answer(fault: FileFault) -> Answer
    ensures { result ≡ model.file_answer fault }
{
    match fault {
        FileFault::Short { len } => told(SHORT_FILE, len),
        FileFault::BadMagic => told(NO_EVENT_FILE, 0),
        FileFault::BadVersion(version) => told(FILE_VERSION, u64::from(version)),
        FileFault::BadDigest { .. } => told(BAD_DIGEST, 0),
        FileFault::BadRecord { offset, .. } => told(BAD_FIELD, offset),
        FileFault::TooMany { count } => told(TOO_MANY_EVENTS, u64::from(count)),
        FileFault::OutOfMemory => no_memory(),
    }
}

/// What was found, or why nothing was.
pub fn found(ended: Result<usize, ReadingFault>) -> Answer
    ensures { result ≡ model.found ended }
{
    match ended {
        Ok(count) => done(count as u64),
        Err(fault) => reading_answer(fault),
    }
}

/// How much stands before an index, or why nothing does.
pub fn measured(ended: Result<u64, ReadingFault>) -> Answer
    ensures { result ≡ model.found ended }
{
    match ended {
        Ok(much) => done(much),
        Err(fault) => reading_answer(fault),
    }
}

fn reading_answer(fault: ReadingFault) -> Answer
    ensures { result ≡ model.found (Err fault) }
{
    match fault {
        ReadingFault::OutOfRange { len } => told(OUT_OF_RANGE, u64::from(len)),
        ReadingFault::NoVersion => told(NO_VERSION, 0),
        ReadingFault::Unknown { place } => told(UNKNOWN_EVENT, place as u64),
        ReadingFault::NoCaret => told(NO_CARET, 0),
        ReadingFault::NoCharacter => told(NO_CHARACTER, 0),
        ReadingFault::OutOfMemory => no_memory(),
    }
}

/// An index, or that there is none.
pub fn indexed(ended: Result<Option<u32>, NoMem>) -> Answer
    ensures { result ≡ model.indexed ended }
{
    match ended {
        Ok(Some(at)) => done(u64::from(at)),
        Ok(None) => told(NO_INDEX, 0),
        Err(NoMem) => no_memory(),
    }
}

/// How a peer's bytes were taken.
pub fn talked(ended: Result<usize, TalkingFault>) -> Answer
    ensures { result ≡ model.talked ended }
{
    match ended {
        Ok(count) => done(count as u64),
        Err(TalkingFault::Frame(fault)) => frame_answer(fault),
        Err(TalkingFault::Ended(end)) => end_answer(end),
        Err(TalkingFault::OutOfMemory) => no_memory(),
    }
}

fn frame_answer(fault: FrameFault) -> Answer
    ensures { result ≡ model.frame_answer fault }
{
    match fault {
        FrameFault::TooLong(len) => told(LONG_FRAME, u64::from(len)),
        FrameFault::BadKind(kind) => told(FRAME_KIND, u64::from(kind)),
        FrameFault::BadBody => told(BAD_FRAME, 0),
        FrameFault::OutOfMemory => no_memory(),
    }
}

fn end_answer(end: End) -> Answer
    ensures { result ≡ model.end_answer end }
{
    match end {
        End::Clash(_) => told(CLASH, 0),
        End::Bye => told(BYE, 0),
    }
}

/// Memory was wanting.
pub fn no_memory() -> Answer
    ensures { result ≡ model.no_memory }
{
    told(OUT_OF_MEMORY, 0)
}
