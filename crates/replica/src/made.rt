//! The events that an agent makes.

ghost use Rattle.std.specs.Prelude.{◌≡◌, ◌∷◌, List, IfOk};
ghost use Rattle.ew_model.specs.declared.event.Op.{Op};
ghost use Rattle.ew_model.specs.Edits as model;
ghost use Rattle.ew_model.specs.Verdicts.{IsGood};
ghost use Rattle.replica.specs.Appending.{chain_from};

use crate::heads::head_ids;
use event_graph::Graph;
use ew_model::NoMem;
use ew_model::event::{Event, Op};
use ew_model::id::Id;
use ew_model::name::Name;
use ew_model::parents::Parents;
use std::alloc::Global;

/// The event of an operation that an agent does: its parents are all heads. It is the first of those that the agent makes where more
/// operations follow.
pub fn event_by(alloc: Global, graph: &Graph, agent: Name, op: Op) -> Result<Event, NoMem>
    requires { IsGood graph.now }
    ensures { IfOk result (λ e. (ops : List Op) → chain_from e ops ≡ model.events_of_ops graph.now agent (op ∷ ops)) }
{
    let seq = graph.count_of(&agent);
    let heads = head_ids(alloc, graph)?;
    Ok(Event {
        id: Id { agent, seq },
        parents: Parents::from_vec(heads),
        op,
    })
}
