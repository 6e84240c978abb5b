//! Where everything stands in the tree of a whole history.

ghost use Rattle.std.specs.Prelude.{◌≡◌, ◌+◌, ◌<◌, ◌≤◌, ℕ, List, [], length, take, IfOk, OnOk};
ghost use Rattle.ew_model.specs.Touches.{touches};
ghost use Rattle.ew_model.specs.Verdicts.{IsGood};
ghost use Rattle.ew_model.specs.Walks.{walked_from};
ghost use Rattle.advance_retreat.specs.Standing.{StandsFor};
ghost use Rattle.transform.specs.Placing.{order_ids, AreAt, AreTargets, with_target};
ghost use Rattle.transform.specs.Reaching.{StandsAt, prepared_since};

use crate::answer::Placed;
use crate::apply::{Turn, apply};
use crate::turn::make_ready;
use advance_retreat::State;
use event_graph::{Graph, Near};
use ew_model::NoMem;
use ew_model::steps::Steps;
use std::alloc::Global;
use std::sync::ledger::Ledger;

/// Says where everything stands in the tree of a whole good history. It is one walk over all events, which forgets none: it takes as
/// many steps as a replay, and memory for all events at once.
pub fn placed<L: Ledger>(
    alloc: Global,
    graph: &Graph,
    steps: &mut Steps<L>,
) -> Result<Placed, NoMem>
    requires { IsGood graph.now }
    ensures order { IfOk result (λ p. AreAt graph.now p.order.items (order_ids graph.now)) }
    ensures targets { IfOk result (λ p. AreTargets graph.now p.targets.items) }
    ensures touches { OnOk result (steps.new ≡ steps.old + touches graph.now 0) }
    ensures most { steps.new ≤ steps.old + touches graph.now 0 }
{
    let mut state = State::base(alloc, 0)?;
    apply_each(graph, &mut state, steps)?;
    let order = state.order()?;
    let targets = targets_of(alloc, graph, &state)?;
    Ok(Placed { order, targets })
}

/// Applies all events of a good history to the state of no text, and forgets none.
fn apply_each<L: Ledger>(
    graph: &Graph,
    state: &mut State,
    steps: &mut Steps<L>,
) -> Result<(), NoMem>
    requires good { IsGood graph.now }
    requires base { StandsFor state.old 0 [] [] }
    ensures applied { OnOk result (StandsFor state.new 0 (walked_from graph.now 0) (prepared_since graph.now 0)) }
    ensures touches { OnOk result (steps.new ≡ steps.old + touches graph.now 0) }
    ensures most { steps.new ≤ steps.old + touches graph.now 0 }
{
    let mut near = Near::start();
    for position in 0..graph.count() {
        apply_next(graph, state, position, &mut near, steps)?;
    }
    Ok(())
}

/// Applies the event at a position, where all events before it were applied and none was forgotten.
fn apply_next<L: Ledger>(
    graph: &Graph,
    state: &mut State,
    position: u32,
    near: &mut Near,
    steps: &mut Steps<L>,
) -> Result<(), NoMem>
    requires good { IsGood graph.now }
    requires within { position < length graph.now }
    requires applied { StandsAt graph.now 0 position (prepared_since (take position graph.now) 0) state.old }
    ensures applied { OnOk result (StandsAt graph.now 0 (position + 1) (prepared_since (take (position + 1) graph.now) 0) state.new) }
    ensures steps { OnOk result (steps.new + touches (take position graph.now) 0 ≡ steps.old + touches (take (position + 1) graph.now) 0) }
    ensures most { steps.new + touches (take position graph.now) 0 ≤ steps.old + touches (take (position + 1) graph.now) 0 }
{
    make_ready(graph, state, 0, position, near, steps)?;
    let change = graph.change_near(position, near);
    let turn = apply(graph, state, position, change, near, steps)?;
    match turn {
        Turn::Applied(_) => Ok(()),
        Turn::OutOfRange(_) => unreachable!(),
    }
}

/// The position of each deletion with that of the insertion whose character it deletes, in the order of the history, where all events
/// were applied.
fn targets_of(alloc: Global, graph: &Graph, state: &State) -> Result<Vec<(u32, u32)>, NoMem>
    requires { (prepared : List ℕ) × StandsFor state.now 0 (walked_from graph.now 0) prepared }
    ensures { IfOk result (λ ts. AreTargets graph.now ts.items) }
{
    let mut targets = Vec::new(alloc);
    for position in 0..graph.count() {
        note_target(&mut targets, position, state.target_of(position))?;
    }
    Ok(targets)
}

/// Puts a position with its target behind others, if it has one.
fn note_target(
    targets: &mut Vec<(u32, u32)>,
    position: u32,
    target: Option<u32>,
) -> Result<(), NoMem>
    ensures { OnOk result (targets.new.items ≡ with_target targets.old.items position target) }
{
    match target {
        Some(target) => {
            targets.push((position, target))?;
            Ok(())
        }
        None => Ok(()),
    }
}
