//! Which characters are deleted.

ghost use Rattle.std.specs.Prelude.{◌≡◌, IfOk};
ghost use Rattle.ew_model.specs.Verdicts.{IsGood};
ghost use Rattle.transform.specs.Placing.{AreTargets};
ghost use Rattle.transform.specs.Places.{are_deleted};

use event_graph::Graph;
use ew_model::NoMem;
use std::alloc::Global;

/// Whether the character is deleted that the event at each position of a good history inserts, by the targets of its deletions. Of other
/// events it says nothing.
pub fn deleted(alloc: Global, graph: &Graph, targets: &[(u32, u32)]) -> Result<Vec<bool>, NoMem>
    requires good { IsGood graph.now }
    requires targets { AreTargets graph.now targets.now }
    ensures { IfOk result (λ v. v.items ≡ are_deleted graph.now) }
{
    let mut deleted = vec![in alloc; false; graph.count() as usize]?;
    for pair in targets {
        deleted[pair.1 as usize] = true;
    }
    Ok(deleted)
}
