//! Calls of a state in a long line.

ghost use Rattle.std.specs.Prelude.{◌≡◌, OnOk};
ghost use Rattle.walk_trials.specs.Calls.{IsInLine};

use crate::calls::Calls;
use crate::series::Answer;
use advance_retreat::{ApplyFault, State};
use ew_model::id::Id;
use ew_model::steps::Steps;
use std::sync::ledger::Ledger;
use trial_rows::fault::Fault;

/// Applies an insertion as the next event.
pub fn insert<L: Ledger>(
    state: &mut State,
    calls: &mut Calls,
    id: Id,
    at: u32,
    ch: char,
    steps: &mut Steps<L>,
) -> Result<Answer, Fault>
    requires { IsInLine state.old calls.old }
    ensures { OnOk result (IsInLine state.new calls.new) }
{
    if !calls.use_id(id)? {
        return Err(Fault::Unreadable);
    }
    match state.apply_ins(calls.next_position(), id, at, ch, steps) {
        Ok(op) => {
            calls.apply()?;
            Ok(Answer::of(op))
        }
        Err(ApplyFault::OutOfRange { len }) => Ok(Answer::past(len)),
        Err(ApplyFault::OutOfMemory) => Err(Fault::OutOfMemory),
    }
}

/// Applies a deletion as the next event.
pub fn delete<L: Ledger>(
    state: &mut State,
    calls: &mut Calls,
    at: u32,
    steps: &mut Steps<L>,
) -> Result<Answer, Fault>
    requires { IsInLine state.old calls.old }
    ensures { OnOk result (IsInLine state.new calls.new) }
{
    match state.apply_del(calls.next_position(), at, steps) {
        Ok(op) => {
            calls.apply()?;
            Ok(Answer::of(op))
        }
        Err(ApplyFault::OutOfRange { len }) => Ok(Answer::past(len)),
        Err(ApplyFault::OutOfMemory) => Err(Fault::OutOfMemory),
    }
}

/// Takes the last prepared event out.
pub fn retreat<L: Ledger>(
    state: &mut State,
    calls: &mut Calls,
    steps: &mut Steps<L>,
) -> Result<Answer, Fault>
    requires { IsInLine state.old calls.old }
    ensures { OnOk result (IsInLine state.new calls.new) }
{
    let position = calls.take_out()?;
    state.retreat(position, steps)?;
    Ok(Answer::DONE)
}

/// Brings the last one that was taken out back.
pub fn advance<L: Ledger>(
    state: &mut State,
    calls: &mut Calls,
    steps: &mut Steps<L>,
) -> Result<Answer, Fault>
    requires { IsInLine state.old calls.old }
    ensures { OnOk result (IsInLine state.new calls.new) }
{
    let position = calls.bring_back()?;
    state.advance(position, steps)?;
    Ok(Answer::DONE)
}
