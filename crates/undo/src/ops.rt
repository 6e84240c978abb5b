//! The operations of an undo.

ghost use Rattle.std.specs.Prelude.{◌≡◌, ◌+◌, ◌<◌, ◌≤◌, ◌&&◌, not, length, Some, IfOk, IsSome};
ghost use Rattle.ew_model.specs.Ids.{is_among};
ghost use Rattle.ew_model.specs.Touches.{touches};
ghost use Rattle.ew_model.specs.Verdicts.{IsGood};
ghost use Rattle.transform.specs.Placing.{order_ids, AreAt};
ghost use Rattle.undo.specs.Fates.{fates_of, letter_at, stays_deleted};
ghost use Rattle.undo.specs.Undone.{undone_ids};
ghost use Rattle.undo_definitions.specs.Undoing.{ops_of_undo};

use crate::fate::Fate;
use crate::fates::fates;
use crate::script::Script;
use crate::undone::Undone;
use event_graph::{Graph, Near};
use ew_model::NoMem;
use ew_model::event::Op;
use ew_model::id::Id;
use ew_model::steps::Steps;
use std::alloc::Global;
use std::sync::ledger::Ledger;
use transform::placed;

/// The operations that undo events of a good history, in the order of its text. It takes one walk over all events.
pub fn undo_ops<L: Ledger>(
    alloc: Global,
    graph: &Graph,
    undone: &Undone,
    steps: &mut Steps<L>,
) -> Result<Vec<Op>, NoMem>
    requires { IsGood graph.now }
    ensures ops { IfOk result (λ v. v.items ≡ ops_of_undo graph.now (undone_ids undone.now)) }
    ensures most { steps.new ≤ steps.old + touches graph.now 0 }
{
    let placed = placed(alloc, graph, steps)?;
    let fates = fates(alloc, graph, undone, placed.targets.as_slice())?;
    ops_along(
        alloc,
        graph,
        undone,
        placed.order.as_slice(),
        fates.as_slice(),
    )
}

/// The operations about the characters in the order of the tree, which the events at these positions inserted.
fn ops_along(
    alloc: Global,
    graph: &Graph,
    undone: &Undone,
    order: &[u32],
    fates: &[Fate],
) -> Result<Vec<Op>, NoMem>
    requires good { IsGood graph.now }
    requires order { AreAt graph.now order.now (order_ids graph.now) }
    requires fates { fates.now ≡ fates_of graph.now (undone_ids undone.now) }
    ensures { IfOk result (λ v. v.items ≡ ops_of_undo graph.now (undone_ids undone.now)) }
{
    let _count = graph.count();
    let mut script = Script::new(alloc);
    let mut near = Near::start();
    for position in order {
        let fate = fates[*position as usize];
        let id = graph.id_near(*position, &mut near);
        let ch = letter(graph, *position, &mut near);
        script.pass(ch, fate.is_deleted(), is_wanted(undone, &id, fate))?;
    }
    Ok(script.ops)
}

/// Whether the character that an event inserted is wanted: that event isn't undone, and the character doesn't stay deleted.
fn is_wanted(undone: &Undone, id: &Id, fate: Fate) -> bool
    ensures { result ≡ (not (is_among (undone_ids undone.now) id.now) && not (stays_deleted fate)) }
{
    !undone.has(id) && !fate.stays_deleted()
}

/// The character that the event at a position inserts.
pub fn letter(graph: &Graph, position: u32, near: &mut Near) -> char
    requires within { position < length graph.now }
    requires inserts { IsSome (letter_at graph.now position) }
    ensures { letter_at graph.now position ≡ Some result }
{
    match graph.op_near(position, near) {
        Op::Ins { at: _, ch } => ch,
        Op::Del { .. } | Op::Mark { .. } => unreachable!(),
    }
}
