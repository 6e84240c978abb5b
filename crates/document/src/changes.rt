//! What somebody who shows the text of a replica has to change in it when more events are held than before.

ghost use Rattle.std.specs.Prelude.{◌≡◌, ◌+◌, ◌≤◌, drop, length, take, IfOk, OnOk};
ghost use Rattle.ew_model.specs.Cuts.{latest_cut};
ghost use Rattle.ew_model.specs.Operations.{changed_by_all, operations};
ghost use Rattle.ew_model.specs.TextLaws.{AllFit};
ghost use Rattle.ew_model.specs.Texts.{text_of};
ghost use Rattle.ew_model.specs.Touches.{touches};

use ew_model::NoMem;
use ew_model::steps::Steps;
use ew_model::text_op::TextOp;
use replica::Replica;
use std::alloc::Global;
use std::sync::ledger::Ledger;
use transform::{State, walk};

/// What the events from number `count` on do to the text, one operation for each. Done in turn to the text of the first `count`
/// events, where each of them fits, they leave the text of all.
///
/// They are found by a walk from the latest critical cut that isn't above `count`.
pub fn changes_from<L: Ledger>(
    alloc: Global,
    replica: &Replica,
    count: u32,
    steps: &mut Steps<L>,
) -> Result<Vec<TextOp>, NoMem>
    requires { count ≤ length replica.now.held }
    ensures changes { IfOk result (λ ops. ops.items ≡ drop count (operations replica.now.held)) }
    ensures fit { IfOk result (λ ops. AllFit (text_of (take count replica.now.held)) ops.items) }
    ensures text { IfOk result (λ ops. changed_by_all ops.items (text_of (take count replica.now.held)) ≡ text_of replica.now.held) }
    ensures touches { OnOk result (steps.new ≡ steps.old + touches replica.now.held (latest_cut replica.now.held count)) }
    ensures most { steps.new ≤ steps.old + touches replica.now.held (latest_cut replica.now.held count) }
{
    let graph = replica.graph();
    let cut = graph.latest_cut(count);
    let base = replica.length_at(cut);
    let mut state = State::base(alloc, base)?;
    let walked = walk(alloc, graph, &mut state, cut, count, steps)?;
    Ok(walked.ops)
}

/// What the events from number `count` on do to the text, as `changes_from` says. No walk is made where these are just the events of the
/// latest round of `receive`.
pub fn known_changes<L: Ledger>(
    alloc: Global,
    replica: &Replica,
    count: u32,
    steps: &mut Steps<L>,
) -> Result<Vec<TextOp>, NoMem>
    requires { count ≤ length replica.now.held }
    ensures changes { IfOk result (λ ops. ops.items ≡ drop count (operations replica.now.held)) }
    ensures fit { IfOk result (λ ops. AllFit (text_of (take count replica.now.held)) ops.items) }
    ensures text { IfOk result (λ ops. changed_by_all ops.items (text_of (take count replica.now.held)) ≡ text_of replica.now.held) }
    ensures most { steps.new ≤ steps.old + touches replica.now.held (latest_cut replica.now.held count) }
{
    let _good = replica.graph();
    if let Some(known) = replica.recent_operations(count) {
        let ops = known.to_vec(alloc)?;
        return Ok(ops);
    }
    changes_from(alloc, replica, count, steps)
}
