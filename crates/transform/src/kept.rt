//! Walks that are kept: where events were appended since, a walk goes on from where it came.

ghost use Rattle.std.specs.Prelude.{◌≡◌, ℕ, ◌+◌, ◌<◌, ◌≤◌, length, take, drop, true, None, option_map, IfOk};
ghost use Rattle.ew_model.specs.Cuts.{is_critical};
ghost use Rattle.ew_model.specs.Operations.{operations};
ghost use Rattle.ew_model.specs.Touches.{touches};
ghost use Rattle.ew_model.specs.Verdicts.{first_bad};
ghost use Rattle.transform.specs.Keeping.{CountsFrom, IsFresh, IsWalkOf};
ghost use Rattle.transform.specs.Reaching.{GoesFrom};
ghost use Rattle.transform.specs.Running.{GoesTo, emitted_to, judged_to, walked_to};
ghost use Rattle.transform.specs.Walking.{bad_at, judged_of, walked_of};

use crate::answer::WalkedRuns;
use crate::run::{RunAt, Turns, apply_run};
use crate::turn::make_ready;
use advance_retreat::State;
use event_graph::{Graph, Near};
use ew_model::NoMem;
use ew_model::steps::Steps;
use operation_runs::OperationRuns;
use std::alloc::Global;
use std::sync::ledger::Ledger;

/// A walk from a critical cut on, which forgets none of the events behind it.
#[derive(Drop)]
pub struct KeptWalk {
    /// What is known of the events between the cut and where the walk came.
    pub state: State,
    /// Of the events below it the walk knows how long their text is, and nothing else.
    pub cut: u32,
    /// How many events are below where the walk came.
    pub reached: u32,
}

impl KeptWalk {
    /// Begins a walk at a cut, below which the text has so many characters.
    pub fn begin(alloc: Global, cut: u32, len: u32) -> Result<KeptWalk, NoMem>
        ensures { IfOk result (IsFresh cut len) }
    {
        let state = State::base(alloc, len)?;
        Ok(KeptWalk {
            state,
            cut,
            reached: cut,
        })
    }

    /// Goes on over the later events of a graph, in their order, and stops at the first that is out of range. The cut has to be critical
    /// still. Answers the operations of the events from the position `emit_from` on, which isn't below where the walk came. Each event
    /// walked, or stopped at, takes as many steps as it has touches.
    ///
    /// Where it stopped, and after an error for want of memory, nothing is said of the walk, and it can only be dropped.
    pub fn go_on<L: Ledger>(
        &mut self,
        alloc: Global,
        graph: &Graph,
        emit_from: u32,
        steps: &mut Steps<L>,
    ) -> Result<WalkedRuns, NoMem>
        requires walk { IsWalkOf graph.now self.old }
        requires cut { is_critical graph.now self.old.cut ≡ true }
        requires emit { self.old.reached ≤ emit_from }
        ensures stopped { IfOk result (λ w. option_map bad_at w.stopped ≡ first_bad graph.now) }
        ensures ops { IfOk result (λ w. w.ops ≡ drop emit_from (operations (walked_of graph.now w.stopped))) }
        ensures walk { IfOk result (λ w. w.stopped ≡ None → IsWalkOf graph.now self.new) }
        ensures cut { self.new.cut ≡ self.old.cut }
        ensures reached { IfOk result (λ w. w.stopped ≡ None → self.new.reached ≡ length graph.now) }
        ensures touches { (from : ℕ) → CountsFrom self.old.cut self.old.reached from → IfOk result (λ w. steps.new + touches (take self.old.reached graph.now) from ≡ steps.old + touches (judged_of graph.now w.stopped) from) }
        ensures most { (from : ℕ) → CountsFrom self.old.cut self.old.reached from → steps.new ≤ steps.old + touches graph.now from }
    {
        let walked = walk_on(
            alloc,
            graph,
            &mut self.state,
            self.cut,
            self.reached,
            emit_from,
            steps,
        )?;
        self.reached = graph.count();
        Ok(walked)
    }
}

/// Walks on over the events of a graph from a position on, where those from a cut on up to there were walked, and forgets none.
fn walk_on<L: Ledger>(
    alloc: Global,
    graph: &Graph,
    state: &mut State,
    cut: u32,
    position: u32,
    emit_from: u32,
    steps: &mut Steps<L>,
) -> Result<WalkedRuns, NoMem>
    requires within { position ≤ length graph.now }
    requires walked { GoesFrom graph.now cut position state.old }
    requires emit { position ≤ emit_from }
    ensures stopped { IfOk result (λ w. option_map bad_at w.stopped ≡ first_bad graph.now) }
    ensures ops { IfOk result (λ w. w.ops ≡ drop emit_from (operations (walked_of graph.now w.stopped))) }
    ensures walked { IfOk result (λ w. w.stopped ≡ None → GoesFrom graph.now cut (length graph.now) state.new) }
    ensures touches { (from : ℕ) → CountsFrom cut position from → IfOk result (λ w. steps.new + touches (take position graph.now) from ≡ steps.old + touches (judged_of graph.now w.stopped) from) }
    ensures most { (from : ℕ) → CountsFrom cut position from → steps.new ≤ steps.old + touches graph.now from }
{
    let mut ops = OperationRuns::new(alloc);
    let mut near = Near::start();
    let count = graph.count();
    let mut next = position;
    while next < count {
        match go_turns(
            graph, state, cut, next, emit_from, &mut ops, &mut near, steps,
        )? {
            Turns::To(position) => next = position,
            Turns::OutOfRange(position, len) => {
                return Ok(WalkedRuns {
                    ops,
                    stopped: Some((position, len)),
                });
            }
        }
    }
    Ok(WalkedRuns { ops, stopped: None })
}

/// Walks over the event at a position, and over others that come behind it in its run.
fn go_turns<L: Ledger>(
    graph: &Graph,
    state: &mut State,
    cut: u32,
    position: u32,
    emit_from: u32,
    ops: &mut OperationRuns,
    near: &mut Near,
    steps: &mut Steps<L>,
) -> Result<Turns, NoMem>
    requires within { position < length graph.now }
    requires walked { GoesFrom graph.now cut position state.old }
    requires emitted { ops.old ≡ emitted_to graph.now emit_from position }
    ensures turned { IfOk result (GoesTo graph.now cut position (length graph.now) state.new) }
    ensures emitted { IfOk result (λ t. ops.new ≡ emitted_to graph.now emit_from (walked_to t)) }
    ensures steps { (from : ℕ) → CountsFrom cut position from → IfOk result (λ t. steps.new + touches (take position graph.now) from ≡ steps.old + touches (take (judged_to t) graph.now) from) }
    ensures most { (from : ℕ) → CountsFrom cut position from → steps.new + touches (take position graph.now) from ≤ steps.old + touches graph.now from }
{
    // The events of a graph are sound, and fewer than 2^32.
    let _count = graph.count();
    make_ready(graph, state, cut, position, near, steps)?;
    let changes = graph.rest_near(position, near);
    let run = RunAt {
        position,
        changes,
        count: changes.count(),
    };
    apply_run(graph, state, run, emit_from, ops, near, steps)
}
