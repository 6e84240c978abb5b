//! The text of a version.

ghost use Rattle.std.specs.Prelude.{◌≡◌, ◌+◌, ◌≤◌, ◌↔◌, Some, length, IfOk, encode_utf8_all};
ghost use Rattle.ew_model.specs.declared.id.Id.{Id};
ghost use Rattle.ew_model.specs.Ancestors.{version_events};
ghost use Rattle.ew_model.specs.Texts as model;
ghost use Rattle.ew_model.specs.Touches.{touches};
ghost use Rattle.ew_model.specs.Verdicts.{IsGood, first_unknown};

use crate::fault::VersionFault;
use event_graph::Graph;
use ew_model::NoMem;
use ew_model::id::Id;
use ew_model::steps::Steps;
use rope::Rope;
use std::alloc::Global;
use std::sync::ledger::Ledger;
use transform::replay_runs;

/// The text of a version, in UTF-8, or the first of its ids that isn't held. It is made from the version's own events
/// alone.
pub fn text_at<L: Ledger>(
    alloc: Global,
    graph: &Graph,
    version: &[Id],
    steps: &mut Steps<L>,
) -> Result<Vec<u8>, VersionFault>
    requires good { IsGood graph.now }
    requires few { length graph.now ≤ 16777216 }
    ensures text { IfOk result (λ bytes. bytes.items ≡ encode_utf8_all (model.text_at graph.now version.now)) }
    ensures unknown { (x : Id) → result ≡ Err (VersionFault.Unknown x) ↔ (first_unknown graph.now version.now ≡ Some x) }
    ensures touches { steps.new ≤ steps.old + touches (version_events graph.now version.now) 0 }
{
    if let Some(id) = graph.has(version) {
        return Err(VersionFault::Unknown(id));
    }
    let part = graph.subgraph(version)?;
    let bytes = text_of(alloc, &part, steps)?;
    Ok(bytes)
}

/// The text of all events of a graph, in UTF-8.
fn text_of<L: Ledger>(alloc: Global, graph: &Graph, steps: &mut Steps<L>) -> Result<Vec<u8>, NoMem>
    requires good { IsGood graph.now }
    requires few { length graph.now ≤ 16777216 }
    ensures text { IfOk result (λ bytes. bytes.items ≡ encode_utf8_all (model.text_of graph.now)) }
    ensures touches { steps.new ≤ steps.old + touches graph.now 0 }
{
    let ops = replay_runs(alloc, graph, steps)?;
    let text = Rope::written(alloc, &ops)?;
    let mut bytes = Vec::new(alloc);
    text.write_to(&mut bytes)?;
    Ok(bytes)
}
