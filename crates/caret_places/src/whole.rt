//! Carets in the text of a whole history.

ghost use Rattle.std.specs.Prelude.{◌≡◌, ◌+◌, ◌≤◌, IfOk};
ghost use Rattle.ew_model.specs.Touches.{touches};
ghost use Rattle.ew_model.specs.Verdicts.{IsGood};
ghost use Rattle.carets.specs.Sides as model;

use crate::indexes::indexes_among;
use crate::taking::caret_in;
use carets::Caret;
use event_graph::Graph;
use ew_model::NoMem;
use ew_model::steps::Steps;
use std::alloc::Global;
use std::sync::ledger::Ledger;
use transform::shown;

/// The caret at an index of the text of a good history, where the text is as long as that. It takes one walk over all events.
pub fn caret_in_text<L: Ledger>(
    alloc: Global,
    graph: &Graph,
    at: u32,
    steps: &mut Steps<L>,
) -> Result<Option<Caret>, NoMem>
    requires { IsGood graph.now }
    ensures caret { IfOk result (λ c. c ≡ model.caret_in (model.text_chars graph.now) at) }
    ensures most { steps.new ≤ steps.old + touches graph.now 0 }
{
    let text = shown(alloc, graph, steps)?;
    Ok(caret_in(graph, text.as_slice(), at))
}

/// The index of a caret in the text of a good history. A caret whose character the history doesn't have is at the start. It takes one
/// walk over all events.
pub fn index_in_text<L: Ledger>(
    alloc: Global,
    graph: &Graph,
    caret: &Caret,
    steps: &mut Steps<L>,
) -> Result<u32, NoMem>
    requires { IsGood graph.now }
    ensures index { IfOk result (λ i. i ≡ model.side graph.now caret.now) }
    ensures most { steps.new ≤ steps.old + touches graph.now 0 }
{
    let indexes = indexes_among(alloc, graph, &[*caret], steps)?;
    Ok(indexes[0])
}
