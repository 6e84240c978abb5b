//! The moves before an event is applied: what is prepared and isn't among its ancestors is taken out, from the highest
//! position down, and what is missing is put in, from the lowest up.

ghost use Rattle.std.specs.Prelude.{◌≡◌, ℕ, ◌+◌, ◌≤◌, List, length, reverse, OnOk, OnErr};
ghost use Rattle.ew_model.specs.Tree.{Applied};
ghost use Rattle.ew_model.specs.Moves.{after_advances, after_retreats};
ghost use Rattle.advance_retreat.specs.Standing.{StandsFor};
ghost use Rattle.advance_retreat.specs.Conditions.{MayRetreatEach, MayAdvanceEach, PartRetreated, PartAdvanced};
ghost use Rattle.ancestors.specs.Spans.{positions_of};

use advance_retreat::State;
use ancestors::Spans;
use ew_model::NoMem;
use ew_model::steps::Steps;
use std::sync::ledger::Ledger;

/// Takes the events at the positions of spans out of what is prepared, from the highest down. After an error for want of memory a
/// front of these moves was made, and not all.
pub fn retreat_all<L: Ledger>(
    state: &mut State,
    spans: &Spans,
    steps: &mut Steps<L>,
) -> Result<(), NoMem>
    requires { (b : ℕ) × (events : List (Applied ℕ)) × (prepared : List ℕ) × StandsFor state.old b events prepared × MayRetreatEach events prepared (reverse (positions_of spans.now)) }
    ensures ok { (b : ℕ) (events : List (Applied ℕ)) (prepared : List ℕ) → StandsFor state.old b events prepared → MayRetreatEach events prepared (reverse (positions_of spans.now)) → OnOk result (StandsFor state.new b events (after_retreats prepared (reverse (positions_of spans.now)))) }
    ensures err { (b : ℕ) (events : List (Applied ℕ)) (prepared : List ℕ) → StandsFor state.old b events prepared → MayRetreatEach events prepared (reverse (positions_of spans.now)) → OnErr result (PartRetreated state.new b events prepared (reverse (positions_of spans.now))) }
    ensures steps { OnOk result (steps.new ≡ steps.old + length (positions_of spans.now)) }
    ensures most { steps.new ≤ steps.old + length (positions_of spans.now) }
{
    for span in spans.as_slice() {
        state.retreat_span(span.from, span.to, steps)?;
    }
    Ok(())
}

/// Puts the events at the positions of spans into what is prepared, from the lowest up. After an error for want of memory a
/// front of these moves was made, and not all.
pub fn advance_all<L: Ledger>(
    state: &mut State,
    spans: &Spans,
    steps: &mut Steps<L>,
) -> Result<(), NoMem>
    requires { (b : ℕ) × (events : List (Applied ℕ)) × (prepared : List ℕ) × StandsFor state.old b events prepared × MayAdvanceEach events prepared (positions_of spans.now) }
    ensures ok { (b : ℕ) (events : List (Applied ℕ)) (prepared : List ℕ) → StandsFor state.old b events prepared → MayAdvanceEach events prepared (positions_of spans.now) → OnOk result (StandsFor state.new b events (after_advances prepared (positions_of spans.now))) }
    ensures err { (b : ℕ) (events : List (Applied ℕ)) (prepared : List ℕ) → StandsFor state.old b events prepared → MayAdvanceEach events prepared (positions_of spans.now) → OnErr result (PartAdvanced state.new b events prepared (positions_of spans.now)) }
    ensures steps { OnOk result (steps.new ≡ steps.old + length (positions_of spans.now)) }
    ensures most { steps.new ≤ steps.old + length (positions_of spans.now) }
{
    let items = spans.as_slice();
    let mut left = items.len();
    while left > 0 {
        left -= 1;
        let span = items[left];
        state.advance_span(span.from, span.to, steps)?;
    }
    Ok(())
}
