//! Versions, ids and carets, as C writes them.

ghost use Rattle.std.specs.Prelude.{◌≡◌, [], ◌∷◌, length, not, position, IfErr, IfOk};
ghost use Rattle.std.specs.List.{position_or_len};
ghost use Rattle.ew_model.specs.Ancestors.{is_held};
ghost use Rattle.ew_model.specs.Scripts.{version_text};
ghost use Rattle.history_definitions.specs.Versions.{IsVersion};
ghost use Rattle.egw_c.specs.Words.{IsCaret, RefusesCaretWords, RefusesIdWords, RefusesWords, caret_ids};

use crate::fault::{ReadingFault, UndoingFault};
use document::{Caret, Document};
use ew_model::NoMem;
use ew_model::id::Id;
use script_reader::print::print_version;
use script_reader::version::{VersionTextFault, read_version};
use std::alloc::Global;

/// The ids of a version.
pub fn ids_in(alloc: Global, words: &[u8]) -> Result<Vec<Id>, ReadingFault>
    ensures ids { IfOk result (λ ids. IsVersion words.now ids.items) }
    ensures refused { IfErr result (RefusesWords words.now) }
{
    match read_version(alloc, words) {
        Ok(ids) => Ok(ids),
        Err(VersionTextFault::Unreadable) => Err(ReadingFault::NoVersion),
        Err(VersionTextFault::OutOfMemory) => Err(ReadingFault::OutOfMemory),
    }
}

/// The id of an event.
pub fn id_in(alloc: Global, words: &[u8]) -> Result<Id, UndoingFault>
    ensures id { IfOk result (λ x. IsVersion words.now (x ∷ [])) }
    ensures refused { IfErr result (RefusesIdWords words.now) }
{
    match read_version(alloc, words) {
        Ok(ids) => {
            if ids.len() == 1 {
                Ok(ids[0])
            } else {
                Err(UndoingFault::NoId)
            }
        }
        Err(VersionTextFault::Unreadable) => Err(UndoingFault::NoId),
        Err(VersionTextFault::OutOfMemory) => Err(UndoingFault::OutOfMemory),
    }
}

/// A caret: the id of the event whose character it is behind, or `root`.
pub fn caret_in(alloc: Global, words: &[u8]) -> Result<Caret, ReadingFault>
    ensures caret { IfOk result (IsCaret words.now) }
    ensures refused { IfErr result (RefusesCaretWords words.now) }
{
    let ids = ids_in(alloc, words)?;
    match ids.len() {
        0 => Ok(Caret::Root),
        1 => Ok(Caret::Behind(ids[0])),
        _ => Err(ReadingFault::NoCaret),
    }
}

/// How a caret is written.
pub fn caret_words(alloc: Global, caret: Caret) -> Result<Vec<u8>, NoMem>
    ensures { IfOk result (λ bytes. bytes.items ≡ version_text (caret_ids caret)) }
{
    match caret {
        Caret::Root => print_version(alloc, &[]),
        Caret::Behind(id) => print_version(alloc, &[id]),
    }
}

/// The place of the first id that isn't held; their number, where all are.
pub fn unheld_place(document: &Document, ids: &[Id]) -> usize
    ensures { result ≡ position_or_len (λ x. not (is_held document.now.held x)) ids.now }
{
    first_unheld(document, ids).unwrap_or(ids.len())
}

fn first_unheld(document: &Document, ids: &[Id]) -> Option<usize>
    ensures { result ≡ position (λ x. not (is_held document.now.held x)) ids.now }
{
    ids.iter().position(|id| !document.holds(id))
}
