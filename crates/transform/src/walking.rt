//! The walk.

ghost use Rattle.std.specs.Prelude.{◌≡◌, ℕ, ◌+◌, ◌<◌, ◌≤◌, [], true, length, drop, take, option_map, IfOk};
ghost use Rattle.ew_model.specs.Cuts.{is_critical};
ghost use Rattle.ew_model.specs.Operations.{operations};
ghost use Rattle.ew_model.specs.Touches.{touches};
ghost use Rattle.ew_model.specs.Verdicts.{IsGood, first_bad};
ghost use Rattle.ew_model.specs.Walks.{base_at};
ghost use Rattle.advance_retreat.specs.Standing.{StandsFor};
ghost use Rattle.transform.specs.Reaching.{WalkedTo};
ghost use Rattle.transform.specs.Running.{TurnsTo, emitted_to, judged_to, walked_to};
ghost use Rattle.transform.specs.Walking.{bad_at, cut_left, judged_of, walked_of, StandsBehind};

use crate::answer::{Walk, WalkedRuns};
use crate::cut::pass_cut;
use crate::run::{RunAt, Turns, apply_run};
use crate::turn::reach;
use advance_retreat::State;
use event_graph::{Graph, Near};
use ew_model::NoMem;
use ew_model::steps::Steps;
use operation_runs::OperationRuns;
use std::alloc::Global;
use std::sync::ledger::Ledger;

/// Walks over the events of a graph from a critical cut on, in their order, and stops at the first that is out of range: what
/// a graph holds can be bad by its index alone. Of the events below the cut, which have to be good, the walk knows how long
/// their text is and nothing else: the state has to be that of a text of this length. Answers the operations of the events from
/// the position `emit_from` on, which isn't below the cut. Each event walked, or stopped at, takes as many steps as it has
/// touches.
///
/// The walk forgets what it knows at each later critical cut. So the state stands then for the events from the latest critical
/// cut on up to the last event walked, or stopped at.
///
/// An error for want of memory, which is also the answer to more events or characters than a state may hold. Nothing is said
/// of the state then, and it can only be dropped.
pub fn walk<L: Ledger>(
    alloc: Global,
    graph: &Graph,
    state: &mut State,
    from_cut: u32,
    emit_from: u32,
    steps: &mut Steps<L>,
) -> Result<Walk, NoMem>
    requires cut { is_critical graph.now from_cut ≡ true }
    requires emit { from_cut ≤ emit_from }
    requires good { IsGood (take from_cut graph.now) }
    requires base { StandsFor state.old (base_at graph.now from_cut) [] [] }
    ensures stopped { IfOk result (λ w. option_map bad_at w.stopped ≡ first_bad graph.now) }
    ensures ops { IfOk result (λ w. w.ops.items ≡ drop emit_from (operations (walked_of graph.now w.stopped))) }
    ensures touches { IfOk result (λ w. steps.new ≡ steps.old + touches (judged_of graph.now w.stopped) from_cut) }
    ensures most { steps.new ≤ steps.old + touches graph.now from_cut }
    ensures state { IfOk result (λ w. StandsBehind graph.now (cut_left graph.now from_cut w.stopped) (walked_of graph.now w.stopped) state.new) }
{
    let WalkedRuns { ops, stopped } = walk_runs(alloc, graph, state, from_cut, emit_from, steps)?;
    let ops = ops.to_vec(alloc)?;
    Ok(Walk { ops, stopped })
}

/// The same walk. The operations are answered in runs, which mostly take less memory.
pub fn walk_runs<L: Ledger>(
    alloc: Global,
    graph: &Graph,
    state: &mut State,
    from_cut: u32,
    emit_from: u32,
    steps: &mut Steps<L>,
) -> Result<WalkedRuns, NoMem>
    requires cut { is_critical graph.now from_cut ≡ true }
    requires emit { from_cut ≤ emit_from }
    requires good { IsGood (take from_cut graph.now) }
    requires base { StandsFor state.old (base_at graph.now from_cut) [] [] }
    ensures stopped { IfOk result (λ w. option_map bad_at w.stopped ≡ first_bad graph.now) }
    ensures ops { IfOk result (λ w. w.ops ≡ drop emit_from (operations (walked_of graph.now w.stopped))) }
    ensures touches { IfOk result (λ w. steps.new ≡ steps.old + touches (judged_of graph.now w.stopped) from_cut) }
    ensures most { steps.new ≤ steps.old + touches graph.now from_cut }
    ensures state { IfOk result (λ w. StandsBehind graph.now (cut_left graph.now from_cut w.stopped) (walked_of graph.now w.stopped) state.new) }
{
    let mut ops = OperationRuns::new(alloc);
    let mut line = Some(state.effect_len());
    let mut near = Near::start();
    let count = graph.count();
    let mut next = from_cut;
    while next < count {
        let turns = take_turns(
            alloc, graph, state, &mut line, next, emit_from, &mut ops, &mut near, steps,
        )?;
        match turns {
            Turns::To(position) => next = position,
            Turns::OutOfRange(position, len) => {
                return Ok(WalkedRuns {
                    ops,
                    stopped: Some((position, len)),
                });
            }
        }
    }
    Ok(WalkedRuns { ops, stopped: None })
}

/// Walks over the event at a position, where those before it were walked, and over others that come behind it in its run. `line` is the
/// length of the text so far, where every event from here on knows all events before the position, and the state isn't kept. The
/// operations of the events from `emit_from` on are put behind the others.
fn take_turns<L: Ledger>(
    alloc: Global,
    graph: &Graph,
    state: &mut State,
    line: &mut Option<u32>,
    position: u32,
    emit_from: u32,
    ops: &mut OperationRuns,
    near: &mut Near,
    steps: &mut Steps<L>,
) -> Result<Turns, NoMem>
    requires within { position < length graph.now }
    requires walked { (from : ℕ) × (from ≤ position) × WalkedTo graph.now from position line.old state.old }
    requires emitted { ops.old ≡ emitted_to graph.now emit_from position }
    ensures turned { (from : ℕ) → from ≤ position → WalkedTo graph.now from position line.old state.old → IfOk result (TurnsTo graph.now from position (length graph.now) line.new state.new) }
    ensures emitted { IfOk result (λ t. ops.new ≡ emitted_to graph.now emit_from (walked_to t)) }
    ensures steps { (from : ℕ) → from ≤ position → WalkedTo graph.now from position line.old state.old → IfOk result (λ t. steps.new + touches (take position graph.now) from ≡ steps.old + touches (take (judged_to t) graph.now) from) }
    ensures most { (from : ℕ) → from ≤ position → WalkedTo graph.now from position line.old state.old → steps.new + touches (take position graph.now) from ≤ steps.old + touches graph.now from }
{
    // The events of a graph are sound, and fewer than 2^32.
    let _count = graph.count();
    let changes = graph.rest_near(position, near);
    let run = RunAt {
        position,
        changes,
        count: changes.count(),
    };
    match reach(graph, state, *line, position, near, steps)? {
        Some(len) => pass_cut(
            alloc, graph, state, line, run, len, emit_from, ops, near, steps,
        ),
        None => apply_run(graph, state, run, emit_from, ops, near, steps),
    }
}
