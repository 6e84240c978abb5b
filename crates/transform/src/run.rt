//! Events of a run that are applied one after another, or in one go.

ghost use Rattle.std.specs.Prelude.{◌≡◌, ℕ, ◌+◌, ◌<◌, ◌≤◌, IfOk, replicate};
ghost use Rattle.character_runs.specs.Deleting.{deletion_op};
ghost use Rattle.operation_runs.specs.Runs.{run_ops, RunFits};
ghost use Rattle.transform.specs.Reaching.{IsReadyAt, Reached};
ghost use Rattle.transform.specs.Running.{GoesTo, IsRunOf, emitted_to, judged_to, walked_to};

use crate::apply::{Turn, apply};
use crate::emit::{emit, emit_run};
use advance_retreat::{Deleted, State};
use event_graph::{Graph, Near};
use ew_model::NoMem;
use ew_model::steps::Steps;
use operation_runs::{OperationRun, OperationRuns};
use std::sync::ledger::Ledger;

/// Where turns over events of a run end.
#[derive(Drop)]
pub enum Turns {
    /// All events before this position were walked.
    To(u32),
    /// The event at this position is out of range: the text at its parents has this length.
    OutOfRange(u32, u32),
}

/// Events that go on from one another: each but the first has the one before it as its only parent.
#[derive(Clone, Copy)]
pub struct RunAt<'a> {
    /// The position of the first.
    pub position: u32,
    /// What each does to the text at its parents. Behind these stand perhaps the changes of further events.
    pub changes: OperationRun<'a>,
    /// How many events there are.
    pub count: u32,
}

/// Applies the events of a run, the first of which is ready. Answers where that ends.
pub fn apply_run<L: Ledger>(
    graph: &Graph,
    state: &mut State,
    run: RunAt<'_>,
    emit_from: u32,
    ops: &mut OperationRuns,
    near: &mut Near,
    steps: &mut Steps<L>,
) -> Result<Turns, NoMem>
    requires run { IsRunOf graph.now run }
    requires ready { (cut : ℕ) × IsReadyAt graph.now cut run.position state.old }
    requires emitted { ops.old ≡ emitted_to graph.now emit_from run.position }
    ensures turned { (cut : ℕ) → IsReadyAt graph.now cut run.entry.position state.old → IfOk result (GoesTo graph.now cut run.entry.position (run.entry.position + run.entry.count) state.new) }
    ensures emitted { IfOk result (λ t. ops.new ≡ emitted_to graph.now emit_from (walked_to t)) }
    ensures steps { IfOk result (λ t. steps.new + run.entry.position ≡ steps.old + judged_to t) }
    ensures most { steps.new ≤ steps.old + run.entry.count }
{
    // The events of a graph are sound, and fewer than 2^32.
    let _count = graph.count();
    let mut place = 0;
    while place < run.count {
        match apply_some(graph, state, run, place, emit_from, ops, near, steps)? {
            Turns::To(next) => place = next - run.position,
            Turns::OutOfRange(at, len) => return Ok(Turns::OutOfRange(at, len)),
        }
    }
    Ok(Turns::To(run.position + run.count))
}

/// Applies the event at a place of a run, which is ready, and those behind it that can be applied in one go. Answers where that ends.
fn apply_some<L: Ledger>(
    graph: &Graph,
    state: &mut State,
    run: RunAt<'_>,
    place: u32,
    emit_from: u32,
    ops: &mut OperationRuns,
    near: &mut Near,
    steps: &mut Steps<L>,
) -> Result<Turns, NoMem>
    requires run { IsRunOf graph.now run }
    requires within { place < run.count }
    requires ready { (cut : ℕ) × IsReadyAt graph.now cut (run.position + place) state.old }
    requires emitted { ops.old ≡ emitted_to graph.now emit_from (run.position + place) }
    ensures turned { (cut : ℕ) → IsReadyAt graph.now cut (run.entry.position + place) state.old → IfOk result (GoesTo graph.now cut (run.entry.position + place) (run.entry.position + run.entry.count) state.new) }
    ensures emitted { IfOk result (λ t. ops.new ≡ emitted_to graph.now emit_from (walked_to t)) }
    ensures steps { IfOk result (λ t. steps.new + run.entry.position + place ≡ steps.old + judged_to t) }
    ensures most { steps.new + place ≤ steps.old + run.entry.count }
{
    // The events of a graph are sound, and fewer than 2^32.
    let _count = graph.count();
    let at = run.position + place;
    let deleted = delete_run(graph, state, run, place, emit_from, ops, steps)?;
    if deleted > 0 {
        return Ok(Turns::To(at + deleted));
    }
    match apply(graph, state, at, run.changes.get(place), near, steps)? {
        Turn::Applied(op) => emit(ops, at, emit_from, op)?,
        Turn::OutOfRange(len) => return Ok(Turns::OutOfRange(at, len)),
    }
    let next = place + 1;
    if next == run.count {
        return Ok(Turns::To(at + 1));
    }
    let typed = type_on(graph, state, run, next, emit_from, ops, near, steps)?;
    Ok(Turns::To(at + 1 + typed))
}

/// Applies insertions of a run from a place on, which isn't the first, in one go: those that have the next ids of one agent. Answers how
/// many: none where that can't be done.
fn type_on<L: Ledger>(
    graph: &Graph,
    state: &mut State,
    run: RunAt<'_>,
    place: u32,
    emit_from: u32,
    ops: &mut OperationRuns,
    near: &mut Near,
    steps: &mut Steps<L>,
) -> Result<u32, NoMem>
    requires run { IsRunOf graph.now run }
    requires behind { 0 < place }
    requires within { place ≤ run.count }
    requires walked { (cut : ℕ) × Reached graph.now cut (run.position + place) state.old }
    requires emitted { ops.old ≡ emitted_to graph.now emit_from (run.position + place) }
    ensures within { IfOk result (λ n. place + n ≤ run.entry.count) }
    ensures walked { (cut : ℕ) → Reached graph.now cut (run.entry.position + place) state.old → IfOk result (λ n. Reached graph.now cut (run.entry.position + place + n) state.new) }
    ensures emitted { IfOk result (λ n. ops.new ≡ emitted_to graph.now emit_from (run.entry.position + place + n)) }
    ensures steps { IfOk result (λ n. steps.new ≡ steps.old + n) }
    ensures most { steps.new + place ≤ steps.old + run.entry.count }
{
    // The events of a graph are sound, and fewer than 2^32.
    let _count = graph.count();
    let OperationRun::Insertions { at, chars } = run.changes else {
        return Ok(0);
    };
    let newest = run.position + place - 1;
    let more = graph.next_ids_near(newest, near).min(run.count - place);
    if more == 0 {
        return Ok(0);
    }
    let Some(first) = state.type_on(newest, more, at + place) else {
        return Ok(0);
    };
    for _ in 0..more {
        steps.tick();
    }
    let typed = OperationRun::Insertions {
        at: first,
        chars: &chars[place as usize..(place + more) as usize],
    };
    emit_run(ops, newest + 1, emit_from, typed, more)?;
    Ok(more)
}

/// Applies deletions of a run from a place on, the first of which is ready, in one go, as far as their characters are of one run. Answers
/// how many: none where that can't be done, and then nothing has changed.
fn delete_run<L: Ledger>(
    graph: &Graph,
    state: &mut State,
    run: RunAt<'_>,
    place: u32,
    emit_from: u32,
    ops: &mut OperationRuns,
    steps: &mut Steps<L>,
) -> Result<u32, NoMem>
    requires run { IsRunOf graph.now run }
    requires within { place < run.count }
    requires ready { (cut : ℕ) × IsReadyAt graph.now cut (run.position + place) state.old }
    requires emitted { ops.old ≡ emitted_to graph.now emit_from (run.position + place) }
    ensures within { IfOk result (λ n. place + n ≤ run.entry.count) }
    ensures walked { (cut : ℕ) → IsReadyAt graph.now cut (run.entry.position + place) state.old → IfOk result (λ n. 0 < n → Reached graph.now cut (run.entry.position + place + n) state.new) }
    ensures same { IfOk result (λ n. n ≡ 0 → state.new ≡ state.old) }
    ensures emitted { IfOk result (λ n. ops.new ≡ emitted_to graph.now emit_from (run.entry.position + place + n)) }
    ensures steps { IfOk result (λ n. steps.new ≡ steps.old + n) }
    ensures most { steps.new + place ≤ steps.old + run.entry.count }
{
    // The events of a graph are sound, and fewer than 2^32.
    let _count = graph.count();
    let OperationRun::Deletions { at, count: _ } = run.changes else {
        return Ok(0);
    };
    let first = run.position + place;
    let Some(deleted) = state.delete_run(first, run.count - place, at)? else {
        return Ok(0);
    };
    for _ in 0..deleted.count {
        steps.tick();
    }
    emit_run(ops, first, emit_from, operations_of(deleted), deleted.count)?;
    Ok(deleted.count)
}

/// The operations of deletions that were applied in one go.
fn operations_of(deleted: Deleted) -> OperationRun<'static>
    ensures is { run_ops result ≡ replicate deleted.count (deletion_op deleted.index) }
    ensures fits { RunFits result }
{
    let count = deleted.count;
    match deleted.index {
        Some(at) => OperationRun::Deletions { at, count },
        None => OperationRun::Nothings { count },
    }
}
