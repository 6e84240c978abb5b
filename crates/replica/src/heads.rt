//! The ids of the heads, in order.

ghost use Rattle.std.specs.Prelude.{◌≡◌, ◌<◌, length, map, IfOk};
ghost use Rattle.std.specs.List.{All};
ghost use Rattle.ew_model.specs.Ancestors.{heads, ids_of};
ghost use Rattle.ew_model.specs.Ids.{id_cmp};
ghost use Rattle.ew_model.specs.Sorting.{sort_by};
ghost use Rattle.ew_model.specs.Verdicts.{IsGood};
ghost use Rattle.event_graph.specs.Keeping.{id_of};

use event_graph::Graph;
use ew_model::NoMem;
use ew_model::id::Id;
use std::alloc::Global;

/// The ids of the heads of a graph, ascending.
pub fn head_ids(alloc: Global, graph: &Graph) -> Result<Vec<Id>, NoMem>
    requires { IsGood graph.now }
    ensures { IfOk result (λ v. v.items ≡ sort_by id_cmp (heads graph.now)) }
{
    let mut ids = ids_at(alloc, graph, graph.frontier().as_slice())?;
    ids.sort_unstable();
    Ok(ids)
}

/// The ids of the events at these positions.
fn ids_at(alloc: Global, graph: &Graph, positions: &[u32]) -> Result<Vec<Id>, NoMem>
    requires { All (λ p. p < length graph.now) positions.now }
    ensures { IfOk result (λ v. v.items ≡ map (id_of (ids_of graph.now)) positions.now) }
{
    let mut ids = Vec::with_capacity(alloc, positions.len())?;
    for position in positions {
        ids.push(graph.id_at(*position))?;
    }
    Ok(ids)
}
