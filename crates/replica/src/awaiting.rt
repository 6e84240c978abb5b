//! For whose events others wait.

ghost use Rattle.std.specs.Prelude.{◌≡◌, ◌∷◌, ◌<◌, not, ◌&&◌, length, slice_get};
ghost use Rattle.std.specs.List.{list_any};
ghost use Rattle.ew_model.specs.declared.id.Id.{Id};
ghost use Rattle.ew_model.specs.Ancestors.{is_held};
ghost use Rattle.ew_model.specs.Ids.{name_eq};
ghost use Rattle.ew_model.specs.Kept.{is_awaited};
ghost use Rattle.waiting_pool.specs.Waiting.{events_of};

use event_graph::Graph;
use ew_model::event::Event;
use ew_model::id::Id;
use ew_model::name::Name;
use waiting_pool::Pool;

/// Whether a waiting event is, or has as parent, an event of the agent that isn't held.
pub fn awaits(graph: &Graph, pool: &Pool, agent: &Name) -> bool
    ensures { result ≡ is_awaited graph.now (events_of pool.now) agent.now }
{
    for waiter in pool.iter() {
        if awaits_for(graph, &waiter.event, agent) {
            return true;
        }
    }
    false
}

/// Whether the event is, or has as parent, an event of the agent that isn't held.
fn awaits_for(graph: &Graph, waiting: &Event, agent: &Name) -> bool
    ensures { result ≡ list_any (λ (x : Id). name_eq x.agent agent.now && not (is_held graph.now x)) (waiting.now.id ∷ waiting.now.parents) }
{
    is_missing(graph, &waiting.id, agent) || misses(graph, waiting.parents.as_slice(), agent)
}

/// Whether one of the ids is the agent's, and isn't held.
fn misses(graph: &Graph, ids: &[Id], agent: &Name) -> bool
    ensures { result ≡ list_any (λ (x : Id). name_eq x.agent agent.now && not (is_held graph.now x)) ids.now }
{
    ids.iter().any(|x| is_missing(graph, x, agent))
}

/// Whether the id is the agent's, and isn't held.
fn is_missing(graph: &Graph, x: &Id, agent: &Name) -> bool
    ensures { result ≡ (name_eq x.now.agent agent.now && not (is_held graph.now x.now)) }
{
    x.agent.cmp(agent).is_eq() && graph.find(x).is_none()
}
