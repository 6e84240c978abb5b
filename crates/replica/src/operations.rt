//! Operations that an agent does in a row.

ghost use Rattle.std.specs.Prelude.{◌≡◌, ◌+◌, ◌<◌, ◌^◌, List, ℕ, length, map, true, false, IfOk, IfSome, IfNone, OnOk};
ghost use Rattle.std.specs.Option.{option_and_then};
ghost use Rattle.ew_model.specs.Kept.{is_awaited};
ghost use Rattle.ew_model.specs.Operations.{changed_by, changed_by_all};
ghost use Rattle.ew_model.specs.TextLaws.{own_change};
ghost use Rattle.ew_model.specs.Texts.{text_of};
ghost use Rattle.ew_model.specs.Verdicts.{is_outside};
ghost use Rattle.replica.specs.Answers.{refusal_of};
ghost use Rattle.replica.specs.Operations.{DoesAll, first_outside, ops_refusal};

use crate::fault::EditFault;
use crate::later::Later;
use crate::made::event_by;
use crate::state::Replica;
use ew_model::NoMem;
use ew_model::event::Op;
use ew_model::name::Name;
use ew_model::steps::Steps;
use ew_model::text_op::TextOp;
use std::alloc::Global;
use std::sync::ledger::Ledger;

impl Replica {
    /// Does operations, one after another: the index of each is meant in the text that those before it leave. One event is made for
    /// each, on the event before it. All of them are done or none. Answers how many events were made.
    pub fn edit<L: Ledger>(
        &mut self,
        agent: Name,
        ops: &[Op],
        steps: &mut Steps<L>,
    ) -> Result<u32, EditFault>
        requires { is_awaited self.old.held self.old.waiting agent ≡ false }
        ensures edits { DoesAll agent ops.now self.old self.new result }
        ensures text { OnOk result (text_of self.new.held ≡ changed_by_all (map own_change ops.now) (text_of self.old.held)) }
        ensures steps { steps.new ≡ steps.old }
    {
        let _ = steps;
        if let Some(fault) = self.refusal_to_do(ops) {
            return Err(fault);
        }
        let Some((first, rest)) = ops.split_first() else {
            return Ok(0);
        };
        let _most = self.limits().events();
        let event = event_by(self.alloc(), self.graph(), agent, *first)?;
        let changes = changes_of(self.alloc(), ops)?;
        let n = self.append(&event, Later::Each(rest), changes.as_slice())?;
        Ok(n)
    }

    /// The first reason against operations.
    fn refusal_to_do(&self, ops: &[Op]) -> Option<EditFault>
        ensures { option_and_then refusal_of result ≡ ops_refusal self.now.limits self.now.held ops.now }
    {
        match length_outside(self.len(), ops) {
            Some(len) => Some(EditFault::OutOfRange { len }),
            None => self.refusal_to_make(ops.len() as u64),
        }
    }
}

/// How long a text of `len` characters is at the first operation that is out of range in it, where all those before it are done. None
/// where each is in range.
fn length_outside(len: u32, ops: &[Op]) -> Option<u32>
    ensures { (text : List ℕ) → length text ≡ len → result ≡ first_outside text ops.now }
{
    let mut now = u64::from(len);
    for op in ops {
        match length_after(now, op) {
            Some(after) => now = after,
            None => return Some(now as u32),
        }
    }
    None
}

/// How long a text of `len` characters is after an operation, where it is in range.
fn length_after(len: u64, op: &Op) -> Option<u64>
    requires { len + 1 < 2 ^ 64 }
    ensures outside { IfNone result (is_outside len op.now ≡ true) }
    ensures short { IfNone result (len < 2 ^ 32) }
    ensures inside { IfSome result (λ n. is_outside len op.now ≡ false) }
    ensures value { IfSome result (λ n. (text : List ℕ) → length text ≡ len → n ≡ length (changed_by (own_change op.now) text)) }
    ensures more { IfSome result (λ n. n < len + 2) }
{
    match op {
        Op::Ins { at, ch: _ } if u64::from(*at) <= len => Some(len + 1),
        Op::Del { at } if u64::from(*at) < len => Some(len - 1),
        Op::Mark { .. } => Some(len),
        Op::Ins { .. } | Op::Del { .. } => None,
    }
}

/// What operations do to the text.
fn changes_of(alloc: Global, ops: &[Op]) -> Result<Vec<TextOp>, NoMem>
    ensures { IfOk result (λ v. v.items ≡ map own_change ops.now) }
{
    ops.iter().map(|op| change_of(op)).collect(alloc)
}

/// What an operation does to the text.
fn change_of(op: &Op) -> TextOp
    ensures { result ≡ own_change op.now }
{
    match op {
        Op::Ins { at, ch } => TextOp::Ins { at: *at, ch: *ch },
        Op::Del { at } => TextOp::Del { at: *at },
        Op::Mark { label: _ } => TextOp::Nothing,
    }
}
