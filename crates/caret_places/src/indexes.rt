//! Where carets stand in the text of a whole history.

ghost use Rattle.std.specs.Prelude.{◌≡◌, ◌↔◌, ◌+◌, ◌<◌, ◌≤◌, Some, length, map, IfOk, is_some, slice_get};
ghost use Rattle.ew_model.specs.declared.id.Id.{Id};
ghost use Rattle.ew_model.specs.Ancestors.{ids_of};
ghost use Rattle.ew_model.specs.Touches.{touches};
ghost use Rattle.ew_model.specs.Verdicts.{IsGood};
ghost use Rattle.carets.specs.Sides.{all_chars, char_of, side};
ghost use Rattle.caret_places.specs.Indexes.{is_insertion, sides_of};
ghost use Rattle.caret_places.specs.Faults as model;

use crate::fault::IndexFault;
use crate::sides::sides;
use carets::Caret;
use event_graph::Graph;
use ew_model::NoMem;
use ew_model::event::Op;
use ew_model::steps::Steps;
use std::alloc::Global;
use std::sync::ledger::Ledger;
use transform::{deleted, placed};

/// The index of a caret in the text of a good history, or why it has none.
pub fn find_index<L: Ledger>(
    alloc: Global,
    graph: &Graph,
    caret: &Caret,
    steps: &mut Steps<L>,
) -> Result<u32, IndexFault>
    requires { IsGood graph.now }
    ensures index { IfOk result (λ i. i ≡ side graph.now caret.now) }
    ensures unknown { (x : Id) → result ≡ Err (IndexFault.Unknown x) ↔ (model.fault_of graph.now caret.now ≡ Some (IndexFault.Unknown x)) }
    ensures no_character { (x : Id) → result ≡ Err (IndexFault.NoCharacter x) ↔ (model.fault_of graph.now caret.now ≡ Some (IndexFault.NoCharacter x)) }
    ensures most { steps.new ≤ steps.old + touches graph.now 0 }
{
    match indexes_of(alloc, graph, &[*caret], steps) {
        Ok(indexes) => Ok(indexes[0]),
        Err(fault) => Err(fault),
    }
}

/// The indexes of carets in the text of a good history. However many they are, it takes at most one walk over all events.
pub fn indexes_of<L: Ledger>(
    alloc: Global,
    graph: &Graph,
    carets: &[Caret],
    steps: &mut Steps<L>,
) -> Result<Vec<u32>, IndexFault>
    requires { IsGood graph.now }
    ensures indexes { IfOk result (λ v. v.items ≡ map (side graph.now) carets.now) }
    ensures unknown { (x : Id) → result ≡ Err (IndexFault.Unknown x) ↔ (model.first_fault graph.now carets.now ≡ Some (IndexFault.Unknown x)) }
    ensures no_character { (x : Id) → result ≡ Err (IndexFault.NoCharacter x) ↔ (model.first_fault graph.now carets.now ≡ Some (IndexFault.NoCharacter x)) }
    ensures most { steps.new ≤ steps.old + touches graph.now 0 }
{
    if let Some(fault) = first_fault(graph, carets) {
        return Err(fault);
    }
    let indexes = indexes_among(alloc, graph, carets, steps)?;
    Ok(indexes)
}

/// The first fault of carets.
fn first_fault(graph: &Graph, carets: &[Caret]) -> Option<IndexFault>
    requires { IsGood graph.now }
    ensures { result ≡ model.first_fault graph.now carets.now }
{
    for caret in carets {
        let fault = fault_of(graph, caret);
        if fault.is_some() {
            return fault;
        }
    }
    None
}

/// Why a caret has no index, if it has none.
fn fault_of(graph: &Graph, caret: &Caret) -> Option<IndexFault>
    requires { IsGood graph.now }
    ensures { result ≡ model.fault_of graph.now caret.now }
{
    let Caret::Behind(id) = caret else {
        return None;
    };
    match graph.find(id) {
        Some(position) => {
            if inserts(graph, position) {
                None
            } else {
                Some(IndexFault::NoCharacter(*id))
            }
        }
        None => Some(IndexFault::Unknown(*id)),
    }
}

/// Whether the event at a position inserted a character.
fn inserts(graph: &Graph, position: u32) -> bool
    requires good { IsGood graph.now }
    requires within { position < length graph.now }
    ensures { (x : Id) → slice_get (ids_of graph.now) position ≡ Some x → result ≡ is_some (char_of (all_chars graph.now) x) }
{
    is_insertion(&graph.op_at(position))
}

/// Whether an operation inserts a character.
fn is_insertion(op: &Op) -> bool
    ensures { result ≡ is_insertion op.now }
{
    match op {
        Op::Ins { .. } => true,
        Op::Del { .. } | Op::Mark { .. } => false,
    }
}

/// The indexes of carets, of which one without a character is at the start.
pub(crate) fn indexes_among<L: Ledger>(
    alloc: Global,
    graph: &Graph,
    carets: &[Caret],
    steps: &mut Steps<L>,
) -> Result<Vec<u32>, NoMem>
    requires { IsGood graph.now }
    ensures indexes { IfOk result (λ v. v.items ≡ map (side graph.now) carets.now) }
    ensures most { steps.new ≤ steps.old + touches graph.now 0 }
{
    let placed = placed(alloc, graph, steps)?;
    let deleted = deleted(alloc, graph, placed.targets.as_slice())?;
    let sides = sides(alloc, graph, placed.order.as_slice(), deleted.as_slice())?;
    let mut indexes = Vec::new(alloc);
    for caret in carets {
        indexes.push(index_in(graph, sides.as_slice(), caret))?;
    }
    Ok(indexes)
}

/// The index of a caret, by those of the carets behind the characters of all events.
fn index_in(graph: &Graph, sides: &[u32], caret: &Caret) -> u32
    requires good { IsGood graph.now }
    requires sides { sides.now ≡ sides_of graph.now }
    ensures { result ≡ side graph.now caret.now }
{
    let Caret::Behind(id) = caret else {
        return 0;
    };
    match graph.find(id) {
        Some(position) => sides[position as usize],
        None => 0,
    }
}
