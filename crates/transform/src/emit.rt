//! The operations that a walk hands out.

ghost use Rattle.std.specs.Prelude.{◌≡◌, ◌-◌, ◌≤◌, ◌∷◌, ◌++◌, [], length, take, drop, nat_le, if◌then◌else◌, OnOk};
ghost use Rattle.operation_runs.specs.Runs.{run_ops, RunFits};

use ew_model::NoMem;
use ew_model::text_op::TextOp;
use operation_runs::{OperationRun, OperationRuns};

/// Puts the operation of the event at a position behind the others, if it is one of those asked for.
pub fn emit(ops: &mut OperationRuns, position: u32, emit_from: u32, op: TextOp) -> Result<(), NoMem>
    ensures { OnOk result (ops.new ≡ (if nat_le emit_from position then ops.old ++ op ∷ [] else ops.old)) }
{
    if position >= emit_from {
        ops.push(op)?;
    }
    Ok(())
}

/// Puts the first so many operations of a run behind the others, those that are asked for. They are those of the events from a position on.
pub fn emit_run(
    ops: &mut OperationRuns,
    position: u32,
    emit_from: u32,
    run: OperationRun<'_>,
    count: u32,
) -> Result<(), NoMem>
    requires fits { RunFits run }
    requires within { count ≤ length (run_ops run) }
    ensures { OnOk result (ops.new ≡ ops.old ++ drop (emit_from - position) (take count (run_ops run.entry))) }
{
    let from = emit_from.saturating_sub(position);
    if from >= count {
        return Ok(());
    }
    ops.push_run(run.part(from, count))
}
