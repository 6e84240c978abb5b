//! What is read out of a document, and why nothing is, as C is told it.

ghost use Rattle.std.specs.Prelude.{◌≡◌, length, encode_utf8_all, IfErr, IfOk, OnOk, None, Some};
ghost use Rattle.blame_definitions.specs.Blame.{blame_text};
ghost use Rattle.caret_places.specs.Faults.{fault_of};
ghost use Rattle.carets.specs.Sides.{side};
ghost use Rattle.ew_model.specs.Texts as texts;
ghost use Rattle.egw_c.specs.Reading.{RefusesIds, RefusesStanding, unheld_place};

use crate::fault::ReadingFault;
use crate::words::unheld_place;
use document::{Caret, Document, Id, IndexFault, VersionFault};

/// The text of a version.
pub fn text_at(document: &Document, ids: &[Id]) -> Result<Vec<u8>, ReadingFault>
    ensures held { OnOk result (unheld_place document.now.held ids.now ≡ length ids.now) }
    ensures text { IfOk result (λ bytes. bytes.items ≡ encode_utf8_all (texts.text_at document.now.held ids.now)) }
    ensures refused { IfErr result (RefusesIds document.now.held ids.now) }
{
    match document.text_at(ids) {
        Ok(bytes) => Ok(bytes),
        Err(VersionFault::Unknown(_)) => Err(ReadingFault::Unknown {
            place: unheld_place(document, ids),
        }),
        Err(VersionFault::OutOfMemory) => Err(ReadingFault::OutOfMemory),
    }
}

/// The index of a caret in the text, or why it has none.
pub fn caret_index(document: &Document, caret: &Caret) -> Result<usize, ReadingFault>
    ensures index { IfOk result (λ i. (fault_of document.now.held caret.now ≡ None) × (i ≡ side document.now.held caret.now)) }
    ensures refused { IfErr result (RefusesStanding document.now.held caret.now) }
{
    match document.caret_index(caret) {
        Ok(index) => Ok(index as usize),
        Err(IndexFault::Unknown(_)) => Err(ReadingFault::Unknown { place: 0 }),
        Err(IndexFault::NoCharacter(_)) => Err(ReadingFault::NoCharacter),
        Err(IndexFault::OutOfMemory) => Err(ReadingFault::OutOfMemory),
    }
}

/// Who inserted which part of the text.
pub fn blame(document: &Document, columns: u32) -> Result<Vec<u8>, ReadingFault>
    ensures blame { IfOk result (λ bytes. bytes.items ≡ blame_text document.now.held None columns) }
    ensures refused { IfErr result (λ fault. fault ≡ ReadingFault.OutOfMemory) }
{
    match document.blame(None, columns) {
        Ok(bytes) => Ok(bytes),
        Err(_) => Err(ReadingFault::OutOfMemory),
    }
}

/// Who inserted which part of the text of a version.
pub fn blame_at(document: &Document, ids: &[Id], columns: u32) -> Result<Vec<u8>, ReadingFault>
    ensures held { OnOk result (unheld_place document.now.held ids.now ≡ length ids.now) }
    ensures blame { IfOk result (λ bytes. bytes.items ≡ blame_text document.now.held (Some ids.now) columns) }
    ensures refused { IfErr result (RefusesIds document.now.held ids.now) }
{
    match document.blame(Some(ids), columns) {
        Ok(bytes) => Ok(bytes),
        Err(VersionFault::Unknown(_)) => Err(ReadingFault::Unknown {
            place: unheld_place(document, ids),
        }),
        Err(VersionFault::OutOfMemory) => Err(ReadingFault::OutOfMemory),
    }
}
