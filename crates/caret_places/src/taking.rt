//! Carets are taken in the text of a version.

ghost use Rattle.std.specs.Prelude.{◌≡◌, ◌↔◌, ◌+◌, ◌-◌, ◌<◌, ◌≤◌, ℕ, Some, length, map, [], ◌∷◌, ◌++◌, IfOk, OnOk};
ghost use Rattle.ew_model.specs.declared.id.Id.{Id};
ghost use Rattle.ew_model.specs.Ancestors.{version_events};
ghost use Rattle.ew_model.specs.Sets.{Among};
ghost use Rattle.ew_model.specs.Texts.{visible_at};
ghost use Rattle.ew_model.specs.Touches.{touches};
ghost use Rattle.ew_model.specs.Verdicts.{IsGood, first_unknown};
ghost use Rattle.carets.specs.Sides as model;
ghost use Rattle.transform.specs.Placing.{AreAt};
ghost use Rattle.transform.specs.Places.{shown_ids};

use crate::fault::CaretFault;
use carets::Caret;
use event_graph::Graph;
use ew_model::NoMem;
use ew_model::id::Id;
use ew_model::steps::Steps;
use std::alloc::Global;
use std::sync::ledger::Ledger;
use transform::shown;

/// The caret at an index of a version's text. It takes at most one walk, over the version's own events.
pub fn caret_in_version<L: Ledger>(
    alloc: Global,
    graph: &Graph,
    version: &[Id],
    at: u32,
    steps: &mut Steps<L>,
) -> Result<Caret, CaretFault>
    requires { IsGood graph.now }
    ensures caret { IfOk result (λ c. model.caret_at graph.now version.now at ≡ Some c) }
    ensures unknown { (x : Id) → result ≡ Err (CaretFault.Unknown x) ↔ (first_unknown graph.now version.now ≡ Some x) }
    ensures out_of_range { (len : ℕ) → result ≡ Err (CaretFault.OutOfRange len) → (len ≡ length (visible_at graph.now version.now)) × (len < at) }
    ensures most { steps.new ≤ steps.old + touches (version_events graph.now version.now) 0 }
{
    if let Some(id) = graph.has(version) {
        return Err(CaretFault::Unknown(id));
    }
    if at == 0 {
        return Ok(Caret::Root);
    }
    let part = graph.subgraph(version)?;
    let _count = part.count();
    let text = shown(alloc, &part, steps)?;
    match caret_behind(&part, text.as_slice(), at - 1) {
        Some(caret) => Ok(caret),
        None => {
            let len = text.len() as u32;
            Err(CaretFault::OutOfRange { len })
        }
    }
}

/// The carets at indexes of a version's text. However many they are, it takes at most one walk, over the version's own events.
pub fn carets_at<L: Ledger>(
    alloc: Global,
    graph: &Graph,
    version: &[Id],
    indexes: &[u32],
    steps: &mut Steps<L>,
) -> Result<Vec<Caret>, CaretFault>
    requires { IsGood graph.now }
    ensures carets { IfOk result (λ v. map Some v.items ≡ map (model.caret_at graph.now version.now) indexes.now) }
    ensures unknown { (x : Id) → result ≡ Err (CaretFault.Unknown x) ↔ (first_unknown graph.now version.now ≡ Some x) }
    ensures out_of_range { (len : ℕ) → result ≡ Err (CaretFault.OutOfRange len) → (len ≡ length (visible_at graph.now version.now)) × ((at : ℕ) × Among at indexes.now × (len < at)) }
    ensures most { steps.new ≤ steps.old + touches (version_events graph.now version.now) 0 }
{
    if let Some(id) = graph.has(version) {
        return Err(CaretFault::Unknown(id));
    }
    let part = graph.subgraph(version)?;
    let _count = part.count();
    let text = shown(alloc, &part, steps)?;
    let mut carets = Vec::new(alloc);
    for at in indexes {
        match caret_in(&part, text.as_slice(), *at) {
            Some(caret) => put(&mut carets, caret)?,
            None => {
                let len = text.len() as u32;
                return Err(CaretFault::OutOfRange { len });
            }
        }
    }
    Ok(carets)
}

/// Puts a caret behind others.
fn put(carets: &mut Vec<Caret>, caret: Caret) -> Result<(), NoMem>
    ensures { OnOk result (carets.new.items ≡ carets.old.items ++ caret ∷ []) }
{
    carets.push(caret)?;
    Ok(())
}

/// The caret at an index of a graph's text, where the events of the text's characters stand at these positions.
pub(crate) fn caret_in(graph: &Graph, text: &[u32], at: u32) -> Option<Caret>
    requires { AreAt graph.now text.now (shown_ids graph.now) }
    ensures { result ≡ model.caret_in (model.text_chars graph.now) at }
{
    if at == 0 {
        Some(Caret::Root)
    } else {
        caret_behind(graph, text, at - 1)
    }
}

/// The caret behind the character at an index of a graph's text, where the events of the text's characters stand at these positions.
fn caret_behind(graph: &Graph, text: &[u32], before: u32) -> Option<Caret>
    requires { AreAt graph.now text.now (shown_ids graph.now) }
    ensures { result ≡ model.caret_in (model.text_chars graph.now) (before + 1) }
{
    match text.get(before as usize) {
        Some(position) => Some(Caret::Behind(graph.id_at(*position))),
        None => None,
    }
}
