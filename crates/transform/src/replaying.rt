//! The replay.

ghost use Rattle.std.specs.Prelude.{◌≡◌, ◌+◌, ◌≤◌, IfOk, OnOk};
ghost use Rattle.ew_model.specs.Operations.{operations};
ghost use Rattle.ew_model.specs.Touches.{touches};
ghost use Rattle.ew_model.specs.Verdicts.{IsGood};

use crate::walking::walk_runs;
use advance_retreat::State;
use event_graph::Graph;
use ew_model::NoMem;
use ew_model::steps::Steps;
use ew_model::text_op::TextOp;
use operation_runs::OperationRuns;
use std::alloc::Global;
use std::sync::ledger::Ledger;

/// What each event of a good history does to the text of the events before it, in order: one walk over all of them.
pub fn replay<L: Ledger>(
    alloc: Global,
    graph: &Graph,
    steps: &mut Steps<L>,
) -> Result<Vec<TextOp>, NoMem>
    requires { IsGood graph.now }
    ensures ops { IfOk result (λ ops. ops.items ≡ operations graph.now) }
    ensures touches { OnOk result (steps.new ≡ steps.old + touches graph.now 0) }
    ensures most { steps.new ≤ steps.old + touches graph.now 0 }
{
    let ops = replay_runs(alloc, graph, steps)?;
    ops.to_vec(alloc)
}

/// The same walk. The operations are answered in runs, which mostly take less memory.
pub fn replay_runs<L: Ledger>(
    alloc: Global,
    graph: &Graph,
    steps: &mut Steps<L>,
) -> Result<OperationRuns, NoMem>
    requires { IsGood graph.now }
    ensures ops { IfOk result (λ ops. ops ≡ operations graph.now) }
    ensures touches { OnOk result (steps.new ≡ steps.old + touches graph.now 0) }
    ensures most { steps.new ≤ steps.old + touches graph.now 0 }
{
    let mut state = State::base(alloc, 0)?;
    let walked = walk_runs(alloc, graph, &mut state, 0, 0, steps)?;
    Ok(walked.ops)
}
