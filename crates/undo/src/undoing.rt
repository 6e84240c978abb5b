//! Undoing events.

ghost use Rattle.std.specs.Prelude.{◌≡◌, ◌+◌, ◌≤◌, false, length, map, IfOk, OnOk};
ghost use Rattle.ew_model.specs.Kept.{is_awaited};
ghost use Rattle.ew_model.specs.Texts.{text_of};
ghost use Rattle.ew_model.specs.Touches.{touches};
ghost use Rattle.undo.specs.Answers.{Undoes};
ghost use Rattle.undo_definitions.specs.Wanted.{ids_from, restored, taken_out, wanted};

use crate::fault::UndoFault;
use crate::ops::undo_ops;
use crate::undone::Undone;
use ew_model::name::Name;
use ew_model::steps::Steps;
use replica::Replica;
use std::alloc::Global;
use std::sync::ledger::Ledger;

/// Undoes events by new ones of an agent: so many events, of the agent `whose`, from the number `first` on. The text is then what all
/// other events left: the characters of the undone insertions are deleted, and those are put in again, at their places, that only
/// undone events deleted. One event is made for each of them: all or none. Answers how many were made. It takes one walk over all
/// events.
pub fn undo<L: Ledger>(
    alloc: Global,
    replica: &mut Replica,
    agent: Name,
    whose: Name,
    first: u32,
    count: u32,
    steps: &mut Steps<L>,
) -> Result<u32, UndoFault>
    requires { is_awaited replica.old.held replica.old.waiting agent ≡ false }
    ensures undoes { Undoes agent (ids_from whose first count) replica.old replica.new result }
    ensures text { OnOk result (text_of replica.new.held ≡ map (λ z. z.ch) (wanted replica.old.held (ids_from whose first count))) }
    ensures made { IfOk result (λ n. n ≡ length (taken_out replica.old.held (ids_from whose first count)) + length (restored replica.old.held (ids_from whose first count))) }
    ensures most { steps.new ≤ steps.old + touches replica.old.held 0 }
{
    let undone = Undone {
        agent: whose,
        first,
        count,
    };
    if let Some(id) = undone.first_missing(replica.graph()) {
        return Err(UndoFault::NoEvent(id));
    }
    let ops = undo_ops(alloc, replica.graph(), &undone, steps)?;
    match replica.edit(agent, &ops, steps) {
        Ok(made) => Ok(made),
        Err(fault) => Err(UndoFault::of_edit(fault)),
    }
}
