//! The turns of a walk at a critical cut: what is below is known by the length of its text alone.

ghost use Rattle.std.specs.Prelude.{◌≡◌, ℕ, ◌+◌, ◌-◌, ◌<◌, ◌≤◌, ◌^◌, [], length, map, take, slice_get, true, IfOk, OnOk, IsTrue, ◌↔◌};
ghost use Rattle.ew_model.specs.declared.event.Event.{Event};
ghost use Rattle.ew_model.specs.Cuts.{is_critical};
ghost use Rattle.ew_model.specs.Positions.{parent_positions};
ghost use Rattle.ew_model.specs.TextLaws.{own_change};
ghost use Rattle.ew_model.specs.Walks.{base_at};
ghost use Rattle.frontier.specs.Chains.{IsChain};
ghost use Rattle.advance_retreat.specs.Kept.{Kept};
ghost use Rattle.advance_retreat.specs.Standing.{StandsFor};
ghost use Rattle.operation_runs.specs.Runs.{run_ops, RunFits};
ghost use Rattle.transform.specs.Changing.{FitTo};
ghost use Rattle.transform.specs.Reaching.{InLine, IsBehind};
ghost use Rattle.transform.specs.Running.{IsRunAt, HasNoCut, StandAlone, TurnsTo, emitted_to, judged_to, walked_to};

use crate::emit::emit_run;
use crate::run::{RunAt, Turns, apply_run};
use advance_retreat::State;
use event_graph::{Graph, Near};
use ew_model::NoMem;
use ew_model::steps::Steps;
use operation_runs::{OperationRun, OperationRuns};
use std::alloc::Global;
use std::sync::ledger::Ledger;

/// Walks over events of a run from a critical cut on, before which the text has so many characters. Each that stands alone does to the
/// text what it says, and a mark does nothing: no state is kept then, and `line` is the length of the text behind it. Where the first
/// doesn't, the state begins anew.
pub fn pass_cut<L: Ledger>(
    alloc: Global,
    graph: &Graph,
    state: &mut State,
    line: &mut Option<u32>,
    run: RunAt<'_>,
    len: u32,
    emit_from: u32,
    ops: &mut OperationRuns,
    near: &mut Near,
    steps: &mut Steps<L>,
) -> Result<Turns, NoMem>
    requires run { IsRunAt graph.now run.position run.count (run_ops run.changes) }
    requires fits { RunFits run.changes }
    requires behind { IsBehind graph.now run.position run.position }
    requires long { len ≡ base_at graph.now run.position }
    requires emitted { ops.old ≡ emitted_to graph.now emit_from run.position }
    ensures turned { (from : ℕ) → from ≤ run.entry.position → IfOk result (TurnsTo graph.now from run.entry.position (run.entry.position + run.entry.count) line.new state.new) }
    ensures emitted { IfOk result (λ t. ops.new ≡ emitted_to graph.now emit_from (walked_to t)) }
    ensures steps { IfOk result (λ t. steps.new + run.entry.position ≡ steps.old + judged_to t) }
    ensures most { steps.new ≤ steps.old + run.entry.count }
{
    // The events of a graph are sound, and fewer than 2^32.
    let _count = graph.count();
    let alone = count_alone(graph, run.position, run.count, near);
    let passed = pass_alone(
        graph,
        run.position,
        run.changes,
        alone,
        len,
        emit_from,
        ops,
        steps,
    )?;
    let done = passed.count;
    if done > 0 {
        *line = Some(passed.len);
        return Ok(Turns::To(run.position + done));
    }
    begin_over(alloc, state, len)?;
    *line = None;
    let together = RunAt {
        count: count_together(alone, run.count),
        ..run
    };
    apply_run(graph, state, together, emit_from, ops, near, steps)
}

/// How many of so many events in a chain, from a critical cut on, stand alone.
fn count_alone(graph: &Graph, position: u32, count: u32, near: &mut Near) -> u32
    requires some { 0 < count }
    requires within { position + count ≤ length graph.now }
    requires chain { IsChain (parent_positions graph.now) position (position + count - 1) }
    requires critical { is_critical graph.now position ≡ true }
    ensures most { result ≤ count }
    ensures alone { StandAlone graph.now position result }
    ensures none { result ≡ 0 → HasNoCut graph.now position count }
{
    // The events of a graph are sound, and fewer than 2^32.
    let _count = graph.count();
    let last = position + count - 1;
    let cut = graph.latest_cut(last);
    if cut < last {
        return cut - position;
    }
    if stands_alone(graph, last, near) {
        count
    } else {
        last - position
    }
}

/// How many of so many events are applied together, the first so many of which stand alone.
fn count_together(alone: u32, count: u32) -> u32
    ensures some { 0 < alone → result ≡ 1 }
    ensures none { alone ≡ 0 → result ≡ count }
{
    if alone > 0 { 1 } else { count }
}

/// How many events were passed, and the length of the text behind them.
#[derive(Drop)]
pub struct Passed {
    pub count: u32,
    pub len: u32,
}

/// Walks over events of a run from a critical cut on, up to the first that is out of range. They stand alone.
fn pass_alone<L: Ledger>(
    graph: &Graph,
    position: u32,
    run: OperationRun<'_>,
    count: u32,
    len: u32,
    emit_from: u32,
    ops: &mut OperationRuns,
    steps: &mut Steps<L>,
) -> Result<Passed, NoMem>
    requires within { position + count ≤ length graph.now }
    requires fits { RunFits run }
    requires told { count ≤ length (run_ops run) }
    requires changes { (k : ℕ) → k < length (run_ops run) → slice_get (map (λ (e : Event). own_change e.op) graph.now) (position + k) ≡ slice_get (run_ops run) k }
    requires alone { StandAlone graph.now position count }
    requires behind { IsBehind graph.now position position }
    requires long { len ≡ base_at graph.now position }
    requires emitted { ops.old ≡ emitted_to graph.now emit_from position }
    ensures most { IfOk result (λ p. p.count ≤ count) }
    ensures line { IfOk result (λ p. (from : ℕ) (state : Kept) → from ≤ position → 0 < p.count → InLine graph.now from (position + p.count) p.len state) }
    ensures emitted { IfOk result (λ p. ops.new ≡ emitted_to graph.now emit_from (position + p.count)) }
    ensures steps { IfOk result (λ p. steps.new ≡ steps.old + p.count) }
    ensures most_steps { steps.new ≤ steps.old + count }
{
    // The events of a graph are sound, and fewer than 2^32.
    let _count = graph.count();
    let passed = passed_of(run, count, len);
    for _ in 0..passed.count {
        steps.tick();
    }
    emit_run(ops, position, emit_from, run, passed.count)?;
    Ok(passed)
}

/// How many of the first so many operations of a run are passed, none of them out of range where they are done one after another to a
/// text of `len` characters, and how long the text is behind them. More of them may be in range, too.
fn passed_of(run: OperationRun<'_>, most: u32, len: u32) -> Passed
    requires fits { RunFits run }
    requires within { most ≤ length (run_ops run) }
    requires room { len + most < 2 ^ 32 }
    ensures most { result.count ≤ most }
    ensures fit { FitTo len (take result.count (run_ops run.entry)) result.len }
{
    match run {
        OperationRun::Insertions { at, chars: _ } if at <= len => Passed {
            count: most,
            len: len + most,
        },
        OperationRun::Deletions { at, count: _ } if at < len => {
            let count = most.min(len - at);
            Passed {
                count,
                len: len - count,
            }
        }
        OperationRun::BackDeletions { at, count: _ } if at < len => Passed {
            count: most,
            len: len - most,
        },
        OperationRun::Nothings { count: _ } => Passed { count: most, len },
        _ => Passed { count: 0, len },
    }
}

/// Begins the state over a text of so many characters, where no event was applied.
// Seldom called: kept apart, so that what is done for each event stays short.
#[inline(never)]
fn begin_over(alloc: Global, state: &mut State, len: u32) -> Result<(), NoMem>
    ensures { OnOk result (StandsFor state.new len [] []) }
{
    *state = State::base(alloc, len)?;
    Ok(())
}

/// Whether there are events behind the one at a position, which all know all events up to it.
fn stands_alone(graph: &Graph, position: u32, near: &mut Near) -> bool
    requires { position < length graph.now }
    ensures { IsTrue result ↔ ((position + 1 < length graph.now) × (is_critical graph.now (position + 1) ≡ true)) }
{
    let count = graph.count();
    position + 1 < count && graph.is_cut_near(position + 1, near)
}
