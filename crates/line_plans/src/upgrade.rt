//! The command that stores a file of version 1 as one of version 2.
ghost use Rattle.std.specs.FinMap.{get};
ghost use Rattle.std.specs.Prelude.{◌≡◌, ◌≢◌, IfOk, IfSome};
ghost use Rattle.command_table.specs.Loads.{whole_of};
ghost use Rattle.command_table.specs.Possible.{MayReplyTo};
ghost use Rattle.command_table.specs.Table as table;
ghost use Rattle.command_table.specs.Table.{upgrade_reply, upgraded_reply};
ghost use Rattle.ew_model.specs.Limits.{most_file_bytes};
ghost use Rattle.ew_outside.specs.Counts.{Asks, next};
ghost use Rattle.opened_files.specs.Touches.{TouchesAtMost, file_touches};
ghost use Rattle.opened_files.specs.Views.{IsTakenReply, FailedLoadsBy, MissesBy, ShelfCauses, reply_view, reply_status};

use command_texts::texts::upgraded_text;
use ew_model::NoMem;
use ew_model::limits::Limits;
use ew_model::steps::Steps;
use ew_outside::{Fault, Shelf};
use opened_files::open::{Found, Versioned, open_versioned};
use opened_files::reply::Reply;
use opened_files::store::store_reply;
use std::alloc::Global;
use std::sync::ledger::Ledger;

/// What is told of a file that is open, and stored of one of version 1.
fn upgraded_plan(alloc: Global, name: &str, file: &Versioned) -> Result<Reply, NoMem>
    ensures told { IfOk result (λ p. reply_view p ≡ upgraded_reply name.now file.now.replica.held file.now.version) }
    ensures plan { IfOk result IsTakenReply }
    ensures found { IfOk result (λ p. reply_status p ≢ 3) }
{
    let out = upgraded_text(alloc, file.version, file.replica.count())?;
    if file.version == 1 {
        store_reply(alloc, name, &file.replica, out)
    } else {
        Ok(Reply::Prints(out))
    }
}

/// Upgrades a file from the version that its bytes name. The steps taken are at most those of loading it.
pub fn upgrade<H: Shelf, L: Ledger>(
    alloc: Global,
    name: &str,
    limits: &Limits,
    shelf: &mut H,
    steps: &mut Steps<L>,
) -> Result<Reply, Fault>
    ensures told { IfSome (H.seen shelf.old).files (λ m. IfOk result (λ p. reply_view p ≡ upgrade_reply name.now limits.now (whole_of (most_file_bytes limits.now.events) (get m name.now)))) }
    ensures some { IfOk result (λ p. MayReplyTo (table.upgrade name.now) limits.now (reply_view p)) }
    ensures plan { IfOk result IsTakenReply }
    ensures same { (H.seen shelf.new).files ≡ (H.seen shelf.old).files }
    ensures cause { ShelfCauses (H.seen shelf.old).faults (H.seen shelf.new).faults result }
    ensures misses { MissesBy (H.seen shelf.old).misses (H.seen shelf.new).misses result }
    ensures loads { (H.seen shelf.new).loads ≡ next (H.seen shelf.old).loads }
    ensures failed_loads { FailedLoadsBy (H.seen shelf.old).failed_loads (H.seen shelf.new).failed_loads result }
    ensures asked { Asks (most_file_bytes limits.now.events) (H.seen shelf.old).asked (H.seen shelf.new).asked }
    ensures stores { (H.seen shelf.new).stores ≡ (H.seen shelf.old).stores }
    ensures most { TouchesAtMost (file_touches name.now limits.now) (H.seen shelf.old).files steps.old steps.new }
{
    match open_versioned(alloc, name, limits, shelf, steps)? {
        Found::Refused(why) => Ok(Reply::Refuses(why)),
        Found::Open(file) => {
            let plan = upgraded_plan(alloc, name, &file)?;
            Ok(plan)
        }
    }
}
