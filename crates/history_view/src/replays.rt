//! The replay of a replica.

ghost use Rattle.std.specs.Prelude.{◌≡◌, ◌+◌, ◌≤◌, ◌++◌, IfOk, OnOk};
ghost use Rattle.ew_model.specs.Operations.{operations};
ghost use Rattle.ew_model.specs.Touches.{touches};
ghost use Rattle.history_definitions.specs.Replays as model;
ghost use Rattle.operation_runs.specs.Runs.{run_ops, RunFits};

use crate::lines::push_change;
use ew_model::NoMem;
use ew_model::steps::Steps;
use operation_runs::{OperationRun, OperationRuns};
use replica::Replica;
use std::alloc::Global;
use std::sync::ledger::Ledger;
use transform::replay_runs;

/// The replay: what each event in the history's order does to the text of those before it, on a line, as `ins AT CH`, `del AT`
/// or `nothing`. The steps taken are the touches of the history, or fewer where memory is wanting.
pub fn replay_text<L: Ledger>(
    alloc: Global,
    replica: &Replica,
    steps: &mut Steps<L>,
) -> Result<Vec<u8>, NoMem>
    ensures text { IfOk result (λ text. text.items ≡ model.replay_text replica.now.held) }
    ensures exact { OnOk result (steps.new ≡ steps.old + touches replica.now.held 0) }
    ensures touches { steps.new ≤ steps.old + touches replica.now.held 0 }
{
    let ops = replay_runs(alloc, replica.graph(), steps)?;
    changes_text(alloc, &ops)
}

/// The same replay, of a replica that isn't needed any more. It is let go before the text is made, and where memory is wanting it is
/// gone too. The steps taken are at most the touches of the history.
pub fn into_replay_text<L: Ledger>(
    alloc: Global,
    replica: Replica,
    steps: &mut Steps<L>,
) -> Result<Vec<u8>, NoMem>
    ensures text { IfOk result (λ text. text.items ≡ model.replay_text replica.held) }
    ensures touches { steps.new ≤ steps.old + touches replica.held 0 }
{
    let ops = into_operations(alloc, replica, steps)?;
    changes_text(alloc, &ops)
}

/// What each event does: known already, or found by a walk. Nothing else of the replica is kept.
fn into_operations<L: Ledger>(
    alloc: Global,
    replica: Replica,
    steps: &mut Steps<L>,
) -> Result<OperationRuns, NoMem>
    ensures ops { IfOk result (λ ops. ops ≡ operations replica.held) }
    ensures touches { steps.new ≤ steps.old + touches replica.held 0 }
{
    match replica.into_operations() {
        Ok(ops) => Ok(ops),
        Err(replica) => replay_runs(alloc, replica.graph(), steps),
    }
}

/// Operations, each on a line.
fn changes_text(alloc: Global, ops: &OperationRuns) -> Result<Vec<u8>, NoMem>
    ensures { IfOk result (λ text. text.items ≡ model.change_lines ops.now) }
{
    let mut text = Vec::new(alloc);
    let mut reader = ops.reader();
    while let Some(run) = reader.next_run() {
        push_changes(&mut text, run)?;
    }
    Ok(text)
}

/// Writes the operations of a run, each on a line.
fn push_changes(text: &mut Vec<u8>, run: OperationRun<'_>) -> Result<(), NoMem>
    requires { RunFits run }
    ensures { OnOk result (text.new.items ≡ text.old.items ++ model.change_lines (run_ops run.entry)) }
{
    for place in 0..run.count() {
        push_change(text, &run.get(place))?;
    }
    Ok(())
}
