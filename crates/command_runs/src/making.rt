//! The command that makes a history.
ghost use Rattle.std.specs.Prelude.{◌≡◌, ◌≤◌, ◌+◌, IfErr, IfOk};
ghost use Rattle.command_table.specs.Table.{make_reply};
ghost use Rattle.peer_definitions.specs.Making.{made};
ghost use Rattle.peer_definitions.specs.Touches.{made_touches};
ghost use Rattle.ew_outside.specs.declared.fault.Fault.TheVariants.{OutOfMemory};
ghost use Rattle.opened_files.specs.Views.{IsTakenReply, reply_view};
ghost use Rattle.command_runs.specs.Making.{TellsStopped};

use command_texts::refusal::Refusal;
use ew_model::limits::Limits;
use ew_model::steps::Steps;
use ew_outside::Fault;
use generator::make;
use opened_files::reply::Reply;
use replica::EditFault;
use std::alloc::Global;
use std::sync::ledger::Ledger;

/// Makes a history by a seed and a number of edits, and tells of it, or why an edit was refused.
pub fn make_history<L: Ledger>(
    alloc: Global,
    limits: &Limits,
    seed: u64,
    count: u32,
    steps: &mut Steps<L>,
) -> Result<Reply, Fault>
    ensures told { IfOk result (λ p. reply_view p ≡ make_reply limits.now (made limits.now seed count)) }
    ensures plan { IfOk result IsTakenReply }
    ensures starved { IfErr result (λ fault. fault ≡ OutOfMemory) }
    ensures most { steps.new ≤ steps.old + made_touches limits.now seed count }
{
    match make(alloc, *limits, seed, count, steps) {
        Ok(text) => Ok(Reply::Prints(text)),
        Err(fault) => refuse(limits, fault),
    }
}

/// Why an edit is refused.
fn refuse(limits: &Limits, fault: EditFault) -> Result<Reply, Fault>
    ensures told { TellsStopped limits.now fault result }
    ensures plan { IfOk result IsTakenReply }
    ensures starved { IfErr result (λ fault. fault ≡ OutOfMemory) }
{
    match fault {
        EditFault::OutOfMemory => Err(Fault::OutOfMemory),
        EditFault::OutOfRange { len } => Ok(Reply::Refuses(Refusal::OutOfRange { len })),
        EditFault::TooManyHeads { heads } => Ok(Reply::Refuses(Refusal::TooManyHeads { heads })),
        EditFault::Full { .. } => Ok(Reply::Refuses(Refusal::TooManyEvents {
            most: limits.events(),
        })),
    }
}
