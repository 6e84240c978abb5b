//! Calls of a replica that count their steps, each on a counter of its own.

ghost use Rattle.std.specs.Prelude.{◌≡◌, ◌↔◌, ◌<◌, ◌≤◌, List, Err, Some, false, drop, length, map, take, encode_utf8_all, IfOk, OnOk};
ghost use Rattle.std.specs.Option.{option_map};
ghost use Rattle.std.specs.Str.{chars, IsUtf8};
ghost use Rattle.blame_definitions.specs.Blame as blames;
ghost use Rattle.caret_places.specs.Faults.{fault_of};
ghost use Rattle.carets.specs.Sides as sides;
ghost use Rattle.ew_model.specs.declared.event.Event.{Event};
ghost use Rattle.ew_model.specs.EditLaws.{edited};
ghost use Rattle.ew_model.specs.Edits as model;
ghost use Rattle.ew_model.specs.Kept.{is_awaited};
ghost use Rattle.ew_model.specs.Operations.{changed_by_all, operations};
ghost use Rattle.ew_model.specs.TextLaws.{AllFit, own_change};
ghost use Rattle.ew_model.specs.Texts as texts;
ghost use Rattle.ew_model.specs.Texts.{text_of};
ghost use Rattle.ew_model.specs.Verdicts.{first_unknown};
ghost use Rattle.replica.specs.Answers.{EditsBy, Loads};
ghost use Rattle.replica.specs.Giving.{WereGiven};
ghost use Rattle.replica.specs.Operations.{DoesAll};
ghost use Rattle.undo.specs.Answers.{Undoes};
ghost use Rattle.undo_definitions.specs.Wanted.{ids_from, wanted};

use crate::changes::known_changes;
use blame::blame_text;
use caret_places::{IndexFault, caret_in_text, find_index};
use carets::Caret;
use ew_model::NoMem;
use ew_model::event::Op;
use ew_model::id::Id;
use ew_model::name::Name;
use ew_model::steps::Steps;
use ew_model::text_op::TextOp;
use replica::{EditFault, LoadFault, Loading, Replica, VersionFault};
use std::alloc::Global;
use std::sync::ledger::{Blank, Ledger};
use undo::{UndoFault, undo};

/// The replica of events that were given.
pub fn loaded_by<L: Ledger>(given: Loading, blank: Blank) -> Result<Replica, LoadFault>
    requires name { blank.name ≡ L.name }
    requires parts { blank.parts ≡ L.parts }
    requires some { 0 < blank.parts }
    ensures { (events : List Event) → WereGiven events given → Loads events given.limits result }
{
    let mut steps = Steps::<L>::new(blank);
    given.finish(&mut steps)
}

/// Inserts a text, of which these are the bytes.
pub fn insert_by<L: Ledger>(
    replica: &mut Replica,
    agent: Name,
    at: u32,
    text: &[u8],
    blank: Blank,
) -> Result<u32, EditFault>
    requires utf8 { IsUtf8 text.now }
    requires awaited { is_awaited replica.old.held replica.old.waiting agent ≡ false }
    requires name { blank.name ≡ L.name }
    requires parts { blank.parts ≡ L.parts }
    requires some { 0 < blank.parts }
    ensures edits { EditsBy agent (model.Edit.Insert at (chars text.now)) replica.old replica.new result }
    ensures text { OnOk result (text_of replica.new.held ≡ edited (model.Edit.Insert at (chars text.now)) (text_of replica.old.held)) }
{
    let mut steps = Steps::<L>::new(blank);
    match str::from_utf8(text) {
        Ok(text) => replica.insert(agent, at, text, &mut steps),
        Err(_) => unreachable!(),
    }
}

/// Deletes characters.
pub fn delete_by<L: Ledger>(
    replica: &mut Replica,
    agent: Name,
    at: u32,
    n: u32,
    blank: Blank,
) -> Result<u32, EditFault>
    requires awaited { is_awaited replica.old.held replica.old.waiting agent ≡ false }
    requires name { blank.name ≡ L.name }
    requires parts { blank.parts ≡ L.parts }
    requires some { 0 < blank.parts }
    ensures edits { EditsBy agent (model.Edit.Delete at n) replica.old replica.new result }
    ensures text { OnOk result (text_of replica.new.held ≡ edited (model.Edit.Delete at n) (text_of replica.old.held)) }
{
    let mut steps = Steps::<L>::new(blank);
    replica.delete(agent, at, n, &mut steps)
}

/// Does operations, all of them or none.
pub fn edit_by<L: Ledger>(
    replica: &mut Replica,
    agent: Name,
    ops: &[Op],
    blank: Blank,
) -> Result<u32, EditFault>
    requires awaited { is_awaited replica.old.held replica.old.waiting agent ≡ false }
    requires name { blank.name ≡ L.name }
    requires parts { blank.parts ≡ L.parts }
    requires some { 0 < blank.parts }
    ensures edits { DoesAll agent ops.now replica.old replica.new result }
    ensures text { OnOk result (text_of replica.new.held ≡ changed_by_all (map own_change ops.now) (text_of replica.old.held)) }
{
    let mut steps = Steps::<L>::new(blank);
    replica.edit(agent, ops, &mut steps)
}

/// Makes a mark.
pub fn mark_by<L: Ledger>(
    replica: &mut Replica,
    agent: Name,
    label: Name,
    blank: Blank,
) -> Result<u32, EditFault>
    requires awaited { is_awaited replica.old.held replica.old.waiting agent ≡ false }
    requires name { blank.name ≡ L.name }
    requires parts { blank.parts ≡ L.parts }
    requires some { 0 < blank.parts }
    ensures edits { EditsBy agent (model.Edit.Mark label) replica.old replica.new result }
    ensures text { OnOk result (text_of replica.new.held ≡ text_of replica.old.held) }
{
    let mut steps = Steps::<L>::new(blank);
    replica.mark(agent, label, &mut steps)
}

/// Undoes events by new ones.
pub fn undo_by<L: Ledger>(
    alloc: Global,
    replica: &mut Replica,
    agent: Name,
    whose: Name,
    first: u32,
    count: u32,
    blank: Blank,
) -> Result<u32, UndoFault>
    requires awaited { is_awaited replica.old.held replica.old.waiting agent ≡ false }
    requires name { blank.name ≡ L.name }
    requires parts { blank.parts ≡ L.parts }
    requires some { 0 < blank.parts }
    ensures undoes { Undoes agent (ids_from whose first count) replica.old replica.new result }
    ensures text { OnOk result (text_of replica.new.held ≡ map (λ z. z.ch) (wanted replica.old.held (ids_from whose first count))) }
{
    let mut steps = Steps::<L>::new(blank);
    undo(alloc, replica, agent, whose, first, count, &mut steps)
}

/// The text of a version, or the first of its ids that isn't held.
pub fn text_at_by<L: Ledger>(
    replica: &Replica,
    version: &[Id],
    blank: Blank,
) -> Result<Vec<u8>, VersionFault>
    requires name { blank.name ≡ L.name }
    requires parts { blank.parts ≡ L.parts }
    requires some { 0 < blank.parts }
    ensures text { IfOk result (λ bytes. bytes.items ≡ encode_utf8_all (texts.text_at replica.now.held version.now)) }
    ensures unknown { (x : Id) → result ≡ Err (VersionFault.Unknown x) ↔ (first_unknown replica.now.held version.now ≡ Some x) }
{
    let mut steps = Steps::<L>::new(blank);
    replica.text_at(version, &mut steps)
}

/// The caret at an index of the text, where there is one.
pub fn caret_by<L: Ledger>(
    alloc: Global,
    replica: &Replica,
    at: u32,
    blank: Blank,
) -> Result<Option<Caret>, NoMem>
    requires name { blank.name ≡ L.name }
    requires parts { blank.parts ≡ L.parts }
    requires some { 0 < blank.parts }
    ensures { IfOk result (λ c. c ≡ sides.caret_in (sides.text_chars replica.now.held) at) }
{
    let mut steps = Steps::<L>::new(blank);
    caret_in_text(alloc, replica.graph(), at, &mut steps)
}

/// The index of a caret in the text, or why it has none.
pub fn index_by<L: Ledger>(
    alloc: Global,
    replica: &Replica,
    caret: &Caret,
    blank: Blank,
) -> Result<u32, IndexFault>
    requires name { blank.name ≡ L.name }
    requires parts { blank.parts ≡ L.parts }
    requires some { 0 < blank.parts }
    ensures index { IfOk result (λ i. i ≡ sides.side replica.now.held caret.now) }
    ensures unknown { (x : Id) → result ≡ Err (IndexFault.Unknown x) ↔ (fault_of replica.now.held caret.now ≡ Some (IndexFault.Unknown x)) }
    ensures no_character { (x : Id) → result ≡ Err (IndexFault.NoCharacter x) ↔ (fault_of replica.now.held caret.now ≡ Some (IndexFault.NoCharacter x)) }
{
    let mut steps = Steps::<L>::new(blank);
    find_index(alloc, replica.graph(), caret, &mut steps)
}

/// Who inserted which part of the text of a version, or of the whole text.
pub fn blame_by<L: Ledger>(
    alloc: Global,
    replica: &Replica,
    version: Option<&[Id]>,
    columns: u32,
    blank: Blank,
) -> Result<Vec<u8>, VersionFault>
    requires name { blank.name ≡ L.name }
    requires parts { blank.parts ≡ L.parts }
    requires some { 0 < blank.parts }
    ensures text { IfOk result (λ bytes. bytes.items ≡ blames.blame_text replica.now.held (option_map (λ v. v.now) version.entry) columns) }
    ensures unknown { (x : Id) → result ≡ Err (VersionFault.Unknown x) ↔ (blames.unknown_in replica.now.held (option_map (λ v. v.now) version.entry) ≡ Some x) }
{
    let mut steps = Steps::<L>::new(blank);
    blame_text(alloc, replica, version, columns, &mut steps)
}

/// What the events from a number on do to the text.
pub fn changes_by<L: Ledger>(
    alloc: Global,
    replica: &Replica,
    from: u32,
    blank: Blank,
) -> Result<Vec<TextOp>, NoMem>
    requires within { from ≤ length replica.now.held }
    requires name { blank.name ≡ L.name }
    requires parts { blank.parts ≡ L.parts }
    requires some { 0 < blank.parts }
    ensures changes { IfOk result (λ ops. ops.items ≡ drop from (operations replica.now.held)) }
    ensures fit { IfOk result (λ ops. AllFit (text_of (take from replica.now.held)) ops.items) }
    ensures text { IfOk result (λ ops. changed_by_all ops.items (text_of (take from replica.now.held)) ≡ text_of replica.now.held) }
{
    let mut steps = Steps::<L>::new(blank);
    known_changes(alloc, replica, from, &mut steps)
}
