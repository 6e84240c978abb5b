//! Events that are put behind those held.

ghost use Rattle.std.specs.Prelude.{◌≡◌, ◌+◌, ◌<◌, ◌^◌, ◌++◌, length, take, true, OnOk, OnErr};
ghost use Rattle.ew_model.specs.Cuts.{is_critical};
ghost use Rattle.ew_model.specs.Operations.{changed_by_all};
ghost use Rattle.ew_model.specs.TextLaws.{AllFit};
ghost use Rattle.event_graph.specs.Keeping.{AreAdmittedAfter};
ghost use Rattle.event_runs.specs.RunOps.{ops_of, IndicesFit};
ghost use Rattle.rope.specs.Lengths.{AllStayShort};
ghost use Rattle.replica.specs.Appending.{chain_from};
ghost use Rattle.replica.specs.Fronts.{IsFront};
ghost use Rattle.replica.specs.Later.{later_ops, LaterFit};
ghost use Rattle.replica.specs.Lengths.{lengths_through};

use crate::later::Later;
use crate::lazy_text::LazyText;
use crate::length_runs::LengthRuns;
use crate::lengths::write;
use event_graph::Graph;
use event_runs::RunOps;
use ew_model::NoMem;
use ew_model::event::{Event, Op};
use ew_model::text_op::TextOp;

/// Puts an event behind the others, which knows all of these, and those of operations that go on from it, changes the text, and puts
/// how long it is after each behind the other lengths: all of it or nothing.
pub fn extend(
    graph: &mut Graph,
    text: &mut LazyText,
    lengths: &mut LengthRuns,
    first: &Event,
    rest: Later<'_>,
    changes: &[TextOp],
) -> Result<(), NoMem>
    requires admitted { AreAdmittedAfter graph.old (chain_from first.now (later_ops rest)) }
    requires fit { LaterFit rest }
    requires room { length graph.old + 1 + length (later_ops rest) < 2 ^ 32 }
    requires cut { is_critical (graph.old ++ chain_from first.now (later_ops rest)) (length graph.old) ≡ true }
    requires text_fit { AllFit text.old.characters changes.now }
    requires short { AllStayShort text.old.characters changes.now }
    ensures graph { OnOk result (graph.new ≡ graph.old ++ chain_from first.now (later_ops rest.entry)) }
    ensures text { OnOk result (text.new.characters ≡ changed_by_all changes.now text.old.characters) }
    ensures told { OnOk result (text.new.told ≡ None) }
    ensures lengths { OnOk result (lengths.new ≡ lengths.old ++ lengths_through text.old.characters changes.now) }
    ensures same_graph { OnErr result (graph.new ≡ graph.old) }
    ensures same_text { OnErr result (text.new ≡ text.old) }
    ensures same_lengths { OnErr result (lengths.new ≡ lengths.old) }
{
    let held = graph.count();
    let count = lengths.count();
    if let Err(fault) = grow(graph, text, lengths, first, rest, changes) {
        graph.truncate(held);
        lengths.truncate(count);
        return Err(fault);
    }
    Ok(())
}

/// The same, but that some of the events and of the lengths may be there where memory is wanting.
fn grow(
    graph: &mut Graph,
    text: &mut LazyText,
    lengths: &mut LengthRuns,
    first: &Event,
    rest: Later<'_>,
    changes: &[TextOp],
) -> Result<(), NoMem>
    requires admitted { AreAdmittedAfter graph.old (chain_from first.now (later_ops rest)) }
    requires fit { LaterFit rest }
    requires room { length graph.old + 1 + length (later_ops rest) < 2 ^ 32 }
    requires cut { is_critical (graph.old ++ chain_from first.now (later_ops rest)) (length graph.old) ≡ true }
    requires text_fit { AllFit text.old.characters changes.now }
    requires short { AllStayShort text.old.characters changes.now }
    ensures graph { OnOk result (graph.new ≡ graph.old ++ chain_from first.now (later_ops rest.entry)) }
    ensures text { OnOk result (text.new.characters ≡ changed_by_all changes.now text.old.characters) }
    ensures told { OnOk result (text.new.told ≡ None) }
    ensures lengths { OnOk result (lengths.new ≡ lengths.old ++ lengths_through text.old.characters changes.now) }
    ensures front { OnErr result (IsFront graph.old graph.new) }
    ensures still_cut { OnErr result (is_critical graph.new (length graph.old) ≡ true) }
    ensures same_text { OnErr result (text.new ≡ text.old) }
    ensures length_front { OnErr result (take (length lengths.old) lengths.new ≡ lengths.old) }
{
    admit_chain(graph, first, rest)?;
    write(text, lengths, changes)
}

/// Puts an event behind the others, and those of operations that go on from it. Where memory is wanting, some of them may be in.
fn admit_chain(graph: &mut Graph, first: &Event, rest: Later<'_>) -> Result<(), NoMem>
    requires admitted { AreAdmittedAfter graph.old (chain_from first.now (later_ops rest)) }
    requires fit { LaterFit rest }
    requires room { length graph.old + 1 + length (later_ops rest) < 2 ^ 32 }
    requires cut { is_critical (graph.old ++ chain_from first.now (later_ops rest)) (length graph.old) ≡ true }
    ensures all { OnOk result (graph.new ≡ graph.old ++ chain_from first.now (later_ops rest.entry)) }
    ensures front { OnErr result (IsFront graph.old graph.new) }
    ensures still_cut { OnErr result (is_critical graph.new (length graph.old) ≡ true) }
{
    match rest {
        Later::Run(ops) => admit_run(graph, first, ops),
        Later::Each(ops) => admit_each(graph, first, ops),
    }
}

/// The same, where the operations take one step each. Where memory is wanting, the event alone may be in.
fn admit_run(graph: &mut Graph, first: &Event, rest: RunOps<'_>) -> Result<(), NoMem>
    requires admitted { AreAdmittedAfter graph.old (chain_from first.now (ops_of rest)) }
    requires fit { IndicesFit rest }
    requires room { length graph.old + 1 + length (ops_of rest) < 2 ^ 32 }
    requires cut { is_critical (graph.old ++ chain_from first.now (ops_of rest)) (length graph.old) ≡ true }
    ensures all { OnOk result (graph.new ≡ graph.old ++ chain_from first.now (ops_of rest.entry)) }
    ensures front { OnErr result (IsFront graph.old graph.new) }
    ensures still_cut { OnErr result (is_critical graph.new (length graph.old) ≡ true) }
{
    let _held = graph.count();
    graph.admit(first)?;
    if rest.count() > 0 {
        graph.go_on_run(rest)?;
    }
    Ok(())
}

/// The same, where they may be any.
fn admit_each(graph: &mut Graph, first: &Event, rest: &[Op]) -> Result<(), NoMem>
    requires admitted { AreAdmittedAfter graph.old (chain_from first.now rest.now) }
    requires room { length graph.old + 1 + length rest.now < 2 ^ 32 }
    requires cut { is_critical (graph.old ++ chain_from first.now rest.now) (length graph.old) ≡ true }
    ensures all { OnOk result (graph.new ≡ graph.old ++ chain_from first.now rest.now) }
    ensures front { OnErr result (IsFront graph.old graph.new) }
    ensures still_cut { OnErr result (is_critical graph.new (length graph.old) ≡ true) }
{
    let _held = graph.count();
    graph.admit(first)?;
    for op in rest {
        graph.go_on(*op)?;
    }
    Ok(())
}
