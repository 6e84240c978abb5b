//! The moves before a turn of the walk.

ghost use Rattle.std.specs.Prelude.{◌≡◌, ◌↔◌, ℕ, ◌+◌, ◌-◌, ◌<◌, ◌≤◌, ◌∷◌, [], false, length, take, slice_get, Some, None, IsTrue, IfOk, OnOk};
ghost use Rattle.ew_model.specs.declared.event.Event.{Event};
ghost use Rattle.ew_model.specs.Cuts.{is_critical};
ghost use Rattle.ew_model.specs.Positions.{parents_at, parent_positions};
ghost use Rattle.ew_model.specs.Touches.{touches};
ghost use Rattle.ancestors.specs.Spans.{positions_of};
ghost use Rattle.transform.specs.Moving.{alone};
ghost use Rattle.transform.specs.Keeping.{CountsFrom};
ghost use Rattle.transform.specs.Reaching.{GoesFrom, IsReadyAt, Reached, ReadyAt, StandsAt, WalkedTo, prepared_since, over_since};

use crate::moves::{advance_all, retreat_all};
use advance_retreat::State;
use ancestors::Spans;
use event_graph::{Graph, Near};
use ew_model::NoMem;
use ew_model::steps::Steps;
use frontier::Parentage;
use std::sync::ledger::Ledger;

/// Prepares the ancestors of the event at a position. Where these are all events before it, and each later event knows them
/// too, answers the length of their text.
pub fn reach<L: Ledger>(
    graph: &Graph,
    state: &mut State,
    line: Option<u32>,
    position: u32,
    near: &mut Near,
    steps: &mut Steps<L>,
) -> Result<Option<u32>, NoMem>
    requires within { position < length graph.now }
    requires walked { (from : ℕ) × (from ≤ position) × WalkedTo graph.now from position line state.old }
    ensures ready { (from : ℕ) → WalkedTo graph.now from position line state.old → IfOk result (λ at. ReadyAt graph.now position at state.new) }
    ensures line { IfOk result (λ at. at ≡ None → line ≡ None) }
    ensures apart { IfOk result (λ at. at ≡ None → is_critical graph.now position ≡ false) }
    ensures steps { (from : ℕ) → from ≤ position → WalkedTo graph.now from position line state.old → OnOk result (steps.new + touches (take position graph.now) from + 1 ≡ steps.old + touches (take (position + 1) graph.now) from) }
    ensures most { (from : ℕ) → from ≤ position → WalkedTo graph.now from position line state.old → steps.new + touches (take position graph.now) from + 1 ≤ steps.old + touches (take (position + 1) graph.now) from }
{
    // The events of a graph are sound, and fewer than 2^32.
    let _count = graph.count();
    if line.is_some() {
        return Ok(line);
    }
    prepare(graph, state, position, near, steps)?;
    if graph.is_cut_near(position, near) {
        Ok(Some(state.prepared_len()))
    } else {
        Ok(None)
    }
}

/// Prepares the ancestors of the event at a position, where those from a cut on up to there were walked. The first has none behind the cut.
pub fn make_ready<L: Ledger>(
    graph: &Graph,
    state: &mut State,
    cut: u32,
    position: u32,
    near: &mut Near,
    steps: &mut Steps<L>,
) -> Result<(), NoMem>
    requires within { position < length graph.now }
    requires walked { GoesFrom graph.now cut position state.old }
    ensures ready { OnOk result (IsReadyAt graph.now cut position state.new) }
    ensures steps { (from : ℕ) → CountsFrom cut position from → OnOk result (steps.new + touches (take position graph.now) from + 1 ≡ steps.old + touches (take (position + 1) graph.now) from) }
    ensures most { (from : ℕ) → CountsFrom cut position from → steps.new + touches (take position graph.now) from + 1 ≤ steps.old + touches (take (position + 1) graph.now) from }
{
    // The events of a graph are sound, and fewer than 2^32.
    let _count = graph.count();
    if position == cut {
        Ok(())
    } else {
        prepare(graph, state, position, near, steps)
    }
}

/// Prepares the ancestors of the event at a position. Where its one parent is the event before it, they are prepared already.
fn prepare<L: Ledger>(
    graph: &Graph,
    state: &mut State,
    position: u32,
    near: &mut Near,
    steps: &mut Steps<L>,
) -> Result<(), NoMem>
    requires within { position < length graph.now }
    requires reached { (cut : ℕ) × Reached graph.now cut position state.old }
    ensures moved { (cut : ℕ) (e : Event) → Reached graph.now cut position state.old → slice_get graph.now position ≡ Some e → OnOk result (StandsAt graph.now cut position (over_since (take position graph.now) cut e) state.new) }
    ensures steps { (from : ℕ) → from < position → OnOk result (steps.new + touches (take position graph.now) from + 1 ≡ steps.old + touches (take (position + 1) graph.now) from) }
    ensures most { (from : ℕ) → from < position → steps.new + touches (take position graph.now) from + 1 ≤ steps.old + touches (take (position + 1) graph.now) from }
{
    // The events of a graph are sound, and fewer than 2^32.
    let _count = graph.count();
    if follows(graph, position, near) {
        Ok(())
    } else {
        move_to(graph, state, position, steps)
    }
}

/// Whether the one parent of the event at a position is the event before it.
fn follows(graph: &Graph, position: u32, near: &mut Near) -> bool
    requires some { 0 < position }
    requires within { position < length graph.now }
    ensures { IsTrue result ↔ (parents_at (parent_positions graph.now) position ≡ (position - 1) ∷ []) }
{
    if graph.chain_start_near(position, near) < position {
        return true;
    }
    let parents = graph.parents_of(position);
    parents.as_slice() == [position - 1].as_slice()
}

/// Prepares the ancestors of the event at a position.
fn move_to<L: Ledger>(
    graph: &Graph,
    state: &mut State,
    position: u32,
    steps: &mut Steps<L>,
) -> Result<(), NoMem>
    requires within { position < length graph.now }
    requires reached { (cut : ℕ) × Reached graph.now cut position state.old }
    ensures moved { (cut : ℕ) (e : Event) → Reached graph.now cut position state.old → slice_get graph.now position ≡ Some e → OnOk result (StandsAt graph.now cut position (over_since (take position graph.now) cut e) state.new) }
    ensures steps { (from : ℕ) → from < position → OnOk result (steps.new + touches (take position graph.now) from + 1 ≡ steps.old + touches (take (position + 1) graph.now) from) }
    ensures most { (from : ℕ) → from < position → steps.new + touches (take position graph.now) from + 1 ≤ steps.old + touches (take (position + 1) graph.now) from }
{
    // The events of a graph are sound, and fewer than 2^32.
    let _count = graph.count();
    let (out, into) = differences(graph, position)?;
    retreat_all(state, &out, steps)?;
    advance_all(state, &into, steps)?;
    Ok(())
}

/// What is prepared behind the events before a position and isn't among the ancestors of the event there, and what is among
/// these and isn't prepared.
fn differences(graph: &Graph, position: u32) -> Result<(Spans, Spans), NoMem>
    requires some { 0 < position }
    requires within { position < length graph.now }
    ensures out { (e : Event) → slice_get graph.now position ≡ Some e → IfOk result (λ sides. positions_of sides.0 ≡ alone (prepared_since (take position graph.now) 0) (over_since (take position graph.now) 0 e)) }
    ensures into { (e : Event) → slice_get graph.now position ≡ Some e → IfOk result (λ sides. positions_of sides.1 ≡ alone (over_since (take position graph.now) 0 e) (prepared_since (take position graph.now) 0)) }
{
    // The events of a graph are sound, and fewer than 2^32.
    let _count = graph.count();
    let parents = graph.parents_of(position);
    graph.diff(&[position - 1], parents.as_slice(), 0)
}
