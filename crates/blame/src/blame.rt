//! The blame of a replica.

ghost use Rattle.std.specs.Prelude.{◌≡◌, ◌+◌, ◌≤◌, ◌↔◌, None, Some, IfOk, option_map};
ghost use Rattle.blame_definitions.specs.Blame as model;
ghost use Rattle.ew_model.specs.declared.id.Id.{Id};
ghost use Rattle.ew_model.specs.Ancestors.{version_events};
ghost use Rattle.ew_model.specs.Touches.{touches};
ghost use Rattle.ew_model.specs.Verdicts.{IsGood, first_unknown};

use crate::letters::visible_letters;
use crate::lines::lines;
use event_graph::Graph;
use ew_model::NoMem;
use ew_model::id::Id;
use ew_model::steps::Steps;
use replica::{Replica, VersionFault};
use std::alloc::Global;
use std::sync::ledger::Ledger;
use transform::{deleted, placed};

/// Who inserted which part of the text of a version, or of the whole text where none is named; or the first of the version's ids, in
/// the order given, that isn't held. Each piece is a line `ID N TEXT`, of whose text as much is shown as fits into the columns.
///
/// The steps taken are at most the touches of the version's events.
pub fn blame_text<L: Ledger>(
    alloc: Global,
    replica: &Replica,
    version: Option<&[Id]>,
    columns: u32,
    steps: &mut Steps<L>,
) -> Result<Vec<u8>, VersionFault>
    ensures text { IfOk result (λ bytes. bytes.items ≡ model.blame_text replica.now.held (option_map (λ v. v.now) version.entry) columns) }
    ensures unknown { (x : Id) → result ≡ Err (VersionFault.Unknown x) ↔ (model.unknown_in replica.now.held (option_map (λ v. v.now) version.entry) ≡ Some x) }
    ensures touches { steps.new ≤ steps.old + model.blame_touches replica.now.held (option_map (λ v. v.now) version.entry) }
{
    let graph = replica.graph();
    match version {
        Some(version) => blame_at(alloc, graph, version, columns, steps),
        None => Ok(blame_of(alloc, graph, columns, steps)?),
    }
}

/// The blame of a version, or the first of its ids that isn't held. It is made from the version's own events alone.
fn blame_at<L: Ledger>(
    alloc: Global,
    graph: &Graph,
    version: &[Id],
    columns: u32,
    steps: &mut Steps<L>,
) -> Result<Vec<u8>, VersionFault>
    requires { IsGood graph.now }
    ensures text { IfOk result (λ bytes. bytes.items ≡ model.blame_text graph.now (Some version.now) columns) }
    ensures unknown { (x : Id) → result ≡ Err (VersionFault.Unknown x) ↔ (first_unknown graph.now version.now ≡ Some x) }
    ensures touches { steps.new ≤ steps.old + touches (version_events graph.now version.now) 0 }
{
    if let Some(id) = graph.has(version) {
        return Err(VersionFault::Unknown(id));
    }
    let part = graph.subgraph(version)?;
    let bytes = blame_of(alloc, &part, columns, steps)?;
    Ok(bytes)
}

/// The blame of all events of a graph.
fn blame_of<L: Ledger>(
    alloc: Global,
    graph: &Graph,
    columns: u32,
    steps: &mut Steps<L>,
) -> Result<Vec<u8>, NoMem>
    requires { IsGood graph.now }
    ensures text { IfOk result (λ bytes. bytes.items ≡ model.blame_text graph.now None columns) }
    ensures touches { steps.new ≤ steps.old + touches graph.now 0 }
{
    let placed = placed(alloc, graph, steps)?;
    let deleted = deleted(alloc, graph, placed.targets.as_slice())?;
    let letters = visible_letters(alloc, graph, placed.order.as_slice(), deleted.as_slice())?;
    lines(
        alloc,
        graph,
        letters.positions.as_slice(),
        letters.chars.as_slice(),
        columns,
    )
}
