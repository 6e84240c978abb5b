//! The apply of one event, once its ancestors are prepared.

ghost use Rattle.std.specs.Prelude.{◌≡◌, ℕ, ◌+◌, ◌<◌, length, map, take, slice_get, Some, IfOk};
ghost use Rattle.ew_model.specs.declared.event.Event.{Event};
ghost use Rattle.ew_model.specs.TextLaws.{own_change};
ghost use Rattle.transform.specs.Reaching.{IsReadyAt, Turned};
ghost use Rattle.transform.specs.Answering.{turn_by};

use advance_retreat::{ApplyFault, State};
use event_graph::{Graph, Near};
use ew_model::NoMem;
use ew_model::steps::Steps;
use ew_model::text_op::TextOp;
use std::sync::ledger::Ledger;

/// What a turn of the walk answers.
#[derive(Drop)]
pub enum Turn {
    /// What the event does to the text.
    Applied(TextOp),
    /// The event is out of range: the text at its parents has this length.
    OutOfRange(u32),
}

/// Applies the event at a position, whose ancestors are prepared, and which does this to the text at its parents. `near` tells where in
/// the graph the last event was found.
pub fn apply<L: Ledger>(
    graph: &Graph,
    state: &mut State,
    position: u32,
    change: TextOp,
    near: &mut Near,
    steps: &mut Steps<L>,
) -> Result<Turn, NoMem>
    requires within { position < length graph.now }
    requires change { slice_get (map (λ (e : Event). own_change e.op) graph.now) position ≡ Some change }
    requires ready { (cut : ℕ) × IsReadyAt graph.now cut position state.old }
    ensures turned { (cut : ℕ) (e : Event) → IsReadyAt graph.now cut position state.old → slice_get graph.now position ≡ Some e → IfOk result (Turned (take position graph.now) cut e state.new) }
    ensures steps { steps.new ≡ steps.old + 1 }
{
    // The events of a graph are sound, and fewer than 2^32.
    let _count = graph.count();
    match change {
        TextOp::Ins { at, ch } => {
            let id = graph.id_near(position, near);
            turn_of(state.apply_ins(position, id, at, ch, steps))
        }
        TextOp::Del { at } => turn_of(state.apply_del(position, at, steps)),
        // A mark.
        TextOp::Nothing => Ok(Turn::Applied(state.apply_mark(position, steps)?)),
    }
}

/// The turn that an apply makes.
fn turn_of(answer: Result<TextOp, ApplyFault>) -> Result<Turn, NoMem>
    ensures { result ≡ turn_by answer }
{
    match answer {
        Ok(op) => Ok(Turn::Applied(op)),
        Err(ApplyFault::OutOfRange { len }) => Ok(Turn::OutOfRange(len)),
        Err(ApplyFault::OutOfMemory) => Err(NoMem),
    }
}
