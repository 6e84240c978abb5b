//! The command that undoes events by new ones.
ghost use Rattle.std.specs.Prelude.{◌≡◌, ◌≢◌, ◌≤◌, ◌+◌, [], IfOk, IfSome};
ghost use Rattle.command_table.specs.Possible.{MayReplyTo};
ghost use Rattle.command_table.specs.Table as table;
ghost use Rattle.command_table.specs.Table.{open_file, over_events, undo_reply};
ghost use Rattle.ew_model.specs.Limits.{most_file_bytes};
ghost use Rattle.ew_model.specs.Touches.{touches};
ghost use Rattle.ew_outside.specs.Counts.{Asks, next};
ghost use Rattle.line_plans.specs.Undos.{UndoRefuses, first_id};
ghost use Rattle.opened_files.specs.Touches.{TouchesAtMost, file_touches, touches_over};
ghost use Rattle.opened_files.specs.Views.{IsTakenReply, FailedLoadsBy, MissesBy, ShelfCauses, reply_view, reply_status};

use crate::edit::made_plan;
use command_texts::refusal::Refusal;
use ew_model::NoMem;
use ew_model::id::Id;
use ew_model::limits::Limits;
use ew_model::name::Name;
use ew_model::steps::Steps;
use ew_outside::{Fault, Shelf};
use opened_files::open::{Found, open};
use opened_files::reply::Reply;
use replica::Replica;
use std::alloc::Global;
use std::sync::ledger::Ledger;
use undo::{UndoFault, Undone, undo};

/// Why an undo is refused.
fn refuse_undo(limits: &Limits, fault: UndoFault) -> Result<Reply, NoMem>
    ensures told { UndoRefuses limits.now fault result }
    ensures plan { IfOk result IsTakenReply }
    ensures found { IfOk result (λ p. reply_status p ≢ 3) }
{
    match fault {
        UndoFault::NoEvent(id) => Ok(Reply::Refuses(Refusal::Unknown(id))),
        UndoFault::TooManyHeads { heads } => Ok(Reply::Refuses(Refusal::TooManyHeads { heads })),
        UndoFault::Full { .. } => Ok(Reply::Refuses(Refusal::TooManyEvents {
            most: limits.events(),
        })),
        UndoFault::OutOfMemory => Err(NoMem),
    }
}

/// Undoes events of a replica, and plans what is to be stored and told.
fn undone_plan<L: Ledger>(
    alloc: Global,
    name: &str,
    agent: Name,
    undone: &Undone,
    replica: &mut Replica,
    steps: &mut Steps<L>,
) -> Result<Reply, NoMem>
    requires { replica.old.waiting ≡ [] }
    ensures told { IfOk result (λ p. reply_view p ≡ undo_reply name.now agent (first_id undone.now) undone.now.count replica.old.limits replica.old.held) }
    ensures plan { IfOk result IsTakenReply }
    ensures found { IfOk result (λ p. reply_status p ≢ 3) }
    ensures most { steps.new ≤ steps.old + touches replica.old.held 0 }
{
    let before = replica.count();
    let limits = replica.limits();
    match undo(
        alloc,
        replica,
        agent,
        undone.agent,
        undone.first,
        undone.count,
        steps,
    ) {
        Ok(_) => made_plan(alloc, name, replica, before),
        Err(fault) => refuse_undo(&limits, fault),
    }
}

/// Undoes so many events of a file, from one on, as an agent. The steps taken are at most those of loading the file, and of one walk over
/// all its events.
pub fn undo_events<H: Shelf, L: Ledger>(
    alloc: Global,
    name: &str,
    agent: Name,
    undone: &Undone,
    limits: &Limits,
    shelf: &mut H,
    steps: &mut Steps<L>,
) -> Result<Reply, Fault>
    ensures told { IfSome (H.seen shelf.old).files (λ m. IfOk result (λ p. reply_view p ≡ over_events (undo_reply name.now agent (first_id undone.now) undone.now.count limits.now) (open_file name.now limits.now m))) }
    ensures some { IfOk result (λ p. MayReplyTo (table.undo name.now agent (first_id undone.now) undone.now.count) limits.now (reply_view p)) }
    ensures plan { IfOk result IsTakenReply }
    ensures same { (H.seen shelf.new).files ≡ (H.seen shelf.old).files }
    ensures cause { ShelfCauses (H.seen shelf.old).faults (H.seen shelf.new).faults result }
    ensures misses { MissesBy (H.seen shelf.old).misses (H.seen shelf.new).misses result }
    ensures loads { (H.seen shelf.new).loads ≡ next (H.seen shelf.old).loads }
    ensures failed_loads { FailedLoadsBy (H.seen shelf.old).failed_loads (H.seen shelf.new).failed_loads result }
    ensures asked { Asks (most_file_bytes limits.now.events) (H.seen shelf.old).asked (H.seen shelf.new).asked }
    ensures stores { (H.seen shelf.new).stores ≡ (H.seen shelf.old).stores }
    ensures most { TouchesAtMost (λ m. file_touches name.now limits.now m + touches_over (λ events. touches events 0) (open_file name.now limits.now m)) (H.seen shelf.old).files steps.old steps.new }
{
    match open(alloc, name, limits, shelf, steps)? {
        Found::Refused(why) => Ok(Reply::Refuses(why)),
        Found::Open(mut replica) => {
            let plan = undone_plan(alloc, name, agent, undone, &mut replica, steps)?;
            Ok(plan)
        }
    }
}
