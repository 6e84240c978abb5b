//! What the deletions of a history say of each character.

ghost use Rattle.std.specs.Prelude.{◌≡◌, IfOk};
ghost use Rattle.ew_model.specs.Verdicts.{IsGood};
ghost use Rattle.transform.specs.Placing.{AreTargets};
ghost use Rattle.undo.specs.Fates.{fates_of};
ghost use Rattle.undo.specs.Undone.{undone_ids};

use crate::fate::Fate;
use crate::undone::Undone;
use event_graph::{Graph, Near};
use ew_model::NoMem;
use std::alloc::Global;

/// The fate of the character that each event of a good history inserts, by the targets of its deletions. Those of other events mean
/// nothing.
pub fn fates(
    alloc: Global,
    graph: &Graph,
    undone: &Undone,
    targets: &[(u32, u32)],
) -> Result<Vec<Fate>, NoMem>
    requires good { IsGood graph.now }
    requires targets { AreTargets graph.now targets.now }
    ensures { IfOk result (λ v. v.items ≡ fates_of graph.now (undone_ids undone.now)) }
{
    let mut fates = vec![in alloc; Fate::Shown; graph.count() as usize]?;
    let mut near = Near::start();
    for pair in targets {
        let deletion = graph.id_near(pair.0, &mut near);
        let target = pair.1 as usize;
        fates[target] = fates[target].with_deletion(undone.has(&deletion));
    }
    Ok(fates)
}
