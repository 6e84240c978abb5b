//! Which characters the text shows.

ghost use Rattle.std.specs.Prelude.{◌≡◌, ◌+◌, ◌<◌, ◌≤◌, not, filter, length, slice_index_or, true, IfOk};
ghost use Rattle.std.specs.List.{All};
ghost use Rattle.ew_model.specs.Touches.{touches};
ghost use Rattle.ew_model.specs.Verdicts.{IsGood};
ghost use Rattle.transform.specs.Placing.{AreAt};
ghost use Rattle.transform.specs.Places.{shown_ids};

use crate::placing::placed;
use crate::tombstones::deleted;
use event_graph::Graph;
use ew_model::NoMem;
use ew_model::steps::Steps;
use std::alloc::Global;
use std::sync::ledger::Ledger;

/// The positions of the events whose characters the text of a good history shows, in the text's order. It takes one walk over all
/// events.
pub fn shown<L: Ledger>(
    alloc: Global,
    graph: &Graph,
    steps: &mut Steps<L>,
) -> Result<Vec<u32>, NoMem>
    requires { IsGood graph.now }
    ensures shown { IfOk result (λ v. AreAt graph.now v.items (shown_ids graph.now)) }
    ensures few { IfOk result (λ v. length v.items ≤ length graph.now) }
    ensures most { steps.new ≤ steps.old + touches graph.now 0 }
{
    let placed = placed(alloc, graph, steps)?;
    let deleted = deleted(alloc, graph, placed.targets.as_slice())?;
    not_deleted(alloc, placed.order.as_slice(), deleted.as_slice())
}

/// Those of the positions that aren't marked as deleted.
fn not_deleted(alloc: Global, order: &[u32], deleted: &[bool]) -> Result<Vec<u32>, NoMem>
    requires { All (λ p. p < length deleted.now) order.now }
    ensures { IfOk result (λ v. v.items ≡ filter (λ p. not (slice_index_or deleted.now p true)) order.now) }
{
    let mut shown = Vec::new(alloc);
    for position in order {
        if !deleted[*position as usize] {
            shown.push(*position)?;
        }
    }
    Ok(shown)
}
