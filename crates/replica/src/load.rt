//! From the events of a graph to what a replica keeps of them.

ghost use Rattle.std.specs.Prelude.{◌≡◌, ◌+◌, ◌≤◌, List, drop, length, None, option_map, IfOk, OnOk, IfErr};
ghost use Rattle.ew_model.specs.declared.event.Event.{Event};
ghost use Rattle.ew_model.specs.Answers.{ruling_of};
ghost use Rattle.ew_model.specs.Operations.{operations};
ghost use Rattle.ew_model.specs.Texts.{text_of};
ghost use Rattle.ew_model.specs.Touches.{touches};
ghost use Rattle.ew_model.specs.Verdicts.{first_bad};
ghost use Rattle.transform.specs.Walking.{bad_at, walked_of};
ghost use Rattle.replica.specs.Answers.{TellsBad};
ghost use Rattle.replica.specs.Fronts.{IsAdmittedFront};
ghost use Rattle.replica.specs.Keeping.{IsToldBy};
ghost use Rattle.replica.specs.Lengths.{prefix_lengths};

use crate::fault::LoadFault;
use crate::lazy_text::LazyText;
use crate::length_runs::LengthRuns;
use crate::lengths::written;
use event_graph::Graph;
use ew_model::NoMem;
use ew_model::steps::Steps;
use ew_model::verdict::Verdict;
use operation_runs::OperationRuns;
use std::alloc::Global;
use std::sync::ledger::Ledger;
use transform::{State, WalkedRuns, walk_runs};

/// The text of the events of a graph, and how long it is after each, or, as `walk_good` tells it, the first of all given events
/// that isn't good.
pub fn load<L: Ledger>(
    alloc: Global,
    graph: &Graph,
    refused: Option<Verdict>,
    steps: &mut Steps<L>,
) -> Result<(LazyText, LengthRuns), LoadFault>
    requires few { length graph.now ≤ 16777216 }
    ensures all { OnOk result (refused ≡ None) }
    ensures good { OnOk result (first_bad graph.now ≡ None) }
    ensures text { IfOk result (λ made. made.0.characters ≡ text_of graph.now) }
    ensures told { IfOk result (λ made. IsToldBy graph.now made.0.told) }
    ensures lengths { IfOk result (λ made. made.1 ≡ prefix_lengths graph.now) }
    ensures bad { IfErr result (λ fault. (events : List Event) → IsAdmittedFront graph.now (option_map ruling_of refused) events → TellsBad events fault) }
    ensures touches { steps.new ≤ steps.old + touches graph.now 0 }
{
    let ops = walk_good(alloc, graph, refused, 0, steps)?;
    let made = written(alloc, ops)?;
    Ok(made)
}

/// The operations of the events of a graph from a position on. Where others were given behind them, of which the first was refused,
/// or where one isn't good: tells the first of all that isn't. That is where the walk over the graph's events stops, or else the
/// one that was refused.
pub fn walk_good<L: Ledger>(
    alloc: Global,
    graph: &Graph,
    refused: Option<Verdict>,
    emit_from: u32,
    steps: &mut Steps<L>,
) -> Result<OperationRuns, LoadFault>
    ensures all { OnOk result (refused ≡ None) }
    ensures good { OnOk result (first_bad graph.now ≡ None) }
    ensures ops { IfOk result (λ ops. ops ≡ drop emit_from (operations graph.now)) }
    ensures bad { IfErr result (λ fault. (events : List Event) → IsAdmittedFront graph.now (option_map ruling_of refused) events → TellsBad events fault) }
    ensures touches { steps.new ≤ steps.old + touches graph.now 0 }
{
    let walked = walk_all(alloc, graph, emit_from, steps)?;
    if let Some((position, len)) = walked.stopped {
        let verdict = Verdict::OutOfRange { len };
        return Err(LoadFault::BadEvent { position, verdict });
    }
    if let Some(verdict) = refused {
        let position = graph.count();
        return Err(LoadFault::BadEvent { position, verdict });
    }
    Ok(walked.ops)
}

/// Walks over all events of a graph. The operations of those from a position on are listed.
fn walk_all<L: Ledger>(
    alloc: Global,
    graph: &Graph,
    emit_from: u32,
    steps: &mut Steps<L>,
) -> Result<WalkedRuns, NoMem>
    ensures stopped { IfOk result (λ w. option_map bad_at w.stopped ≡ first_bad graph.now) }
    ensures ops { IfOk result (λ w. w.ops ≡ drop emit_from (operations (walked_of graph.now w.stopped))) }
    ensures touches { steps.new ≤ steps.old + touches graph.now 0 }
{
    let mut state = State::base(alloc, 0)?;
    walk_runs(alloc, graph, &mut state, 0, emit_from, steps)
}
