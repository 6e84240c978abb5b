//! The command that serves a peer with a file.
ghost use Rattle.std.specs.Prelude.{◌≡◌, ◌≢◌, ◌+◌, [], IfOk, IfSome};
ghost use Rattle.command_table.specs.Reads.{IfRefused, LeavesInput, TakesAtMost};
ghost use Rattle.command_table.specs.Table.{open_file};
ghost use Rattle.ew_model.specs.Limits.{most_file_bytes};
ghost use Rattle.ew_outside.specs.Counts.{Asks, RisesOnceAtMost, next};
ghost use Rattle.opened_files.specs.Views.{IsTakenReply, FailedLoadsBy, MissesBy, ReadsNone, reply_status};
ghost use Rattle.serve_plans.specs.Plans.{Causes, KeepsStreams, MayPlan, ReadsAll, ReadsOn, ReadsWithin, SendsReplies, Serves, StreamCauses};
ghost use Rattle.serve_plans.specs.Serving.{IsPieceBehind, PlansTalk};
ghost use Rattle.serve_plans.specs.SessionTouches.{SessionTakes, TalkTakes};

use crate::closing::close;
use crate::talk::talk;
use ew_model::limits::Limits;
use ew_model::steps::Steps;
use ew_outside::{Fault, Shelf, Sink, Source};
use opened_files::open::{Found, open};
use opened_files::reply::Reply;
use replica::Replica;
use std::alloc::Global;
use std::sync::ledger::Ledger;

/// Serves a peer with the events of a replica: they are to be stored at last, where some were received.
fn serve_events<S: Source, K: Sink, L: Ledger>(
    alloc: Global,
    name: &str,
    limits: &Limits,
    replica: &mut Replica,
    input: &mut S,
    out: &mut K,
    steps: &mut Steps<L>,
) -> Result<Reply, Fault>
    ensures told { PlansTalk name.now limits.now replica.old (S.seen input.old).left (S.seen input.new).left (K.seen out.old).taken (K.seen out.new).taken (K.seen out.old).flushed (K.seen out.new).flushed result }
    ensures prompt { IsPieceBehind limits.now replica.old (S.seen input.old).left (S.seen input.new).left (K.seen out.old).taken (K.seen out.new).taken }
    ensures cause { StreamCauses (S.seen input.old).faults (S.seen input.new).faults (K.seen out.old).faults (K.seen out.new).faults result }
    ensures ends { RisesOnceAtMost (S.seen input.old).ends (S.seen input.new).ends }
    ensures most { TalkTakes limits.now replica.old (S.seen input.old).left steps.old steps.new }
    ensures plan { IfOk result IsTakenReply }
    ensures found { IfOk result (λ p. reply_status p ≢ 3) }
{
    let before = replica.count();
    let closing = talk(alloc, limits, replica, input, out, steps)?;
    Ok(close(alloc, name, limits, replica, before, closing)?)
}

/// Serves a peer with a file: each frame of the input is answered before the next piece is read, and at last the events are to
/// be stored, where some were added. The steps taken are at most the touches of loading the file and of receiving what the frames
/// bring.
pub fn serve<H: Shelf, S: Source, K: Sink, L: Ledger>(
    alloc: Global,
    name: &str,
    limits: &Limits,
    shelf: &mut H,
    input: &mut S,
    out: &mut K,
    steps: &mut Steps<L>,
) -> Result<Reply, Fault>
    ensures told { Serves name.now limits.now (H.seen shelf.old).files (S.seen input.old).left (K.seen out.old).taken (K.seen out.new).taken (K.seen out.new).flushed result }
    ensures some { MayPlan name.now limits.now (K.seen out.old).taken (K.seen out.new).taken (K.seen out.new).flushed result }
    ensures replies { SendsReplies name.now limits.now (H.seen shelf.old).files (S.seen input.old).left (S.seen input.new).left (K.seen out.old).taken (K.seen out.new).taken (K.seen out.new).flushed result }
    ensures prompt { ReadsOn name.now limits.now (H.seen shelf.old).files (S.seen input.old).left (S.seen input.new).left (K.seen out.old).taken (K.seen out.new).taken }
    ensures end { ReadsAll limits.now (S.seen input.old).left (S.seen input.new).left result }
    ensures plan { IfOk result IsTakenReply }
    ensures same { (H.seen shelf.new).files ≡ (H.seen shelf.old).files }
    ensures cause { Causes (H.seen shelf.old).faults (H.seen shelf.new).faults (S.seen input.old).faults (S.seen input.new).faults (K.seen out.old).faults (K.seen out.new).faults result }
    ensures misses { MissesBy (H.seen shelf.old).misses (H.seen shelf.new).misses result }
    ensures loads { (H.seen shelf.new).loads ≡ next (H.seen shelf.old).loads }
    ensures failed_loads { FailedLoadsBy (H.seen shelf.old).failed_loads (H.seen shelf.new).failed_loads result }
    ensures asked { Asks (most_file_bytes limits.now.events) (H.seen shelf.old).asked (H.seen shelf.new).asked }
    ensures stores { (H.seen shelf.new).stores ≡ (H.seen shelf.old).stores }
    ensures ends { RisesOnceAtMost (S.seen input.old).ends (S.seen input.new).ends }
    ensures kept { KeepsStreams (S.seen input.old) (S.seen input.new) (K.seen out.old).taken (K.seen out.new).taken result }
    ensures few { TakesAtMost (limits.now.input + 1) (S.seen input.old).left (S.seen input.new).left }
    ensures within { ReadsWithin limits.now (S.seen input.old).left (S.seen input.new).left result }
    ensures refused { ReadsNone (S.seen input.old) (S.seen input.new) result }
    ensures most { SessionTakes name.now limits.now (H.seen shelf.old).files (S.seen input.old).left steps.old steps.new }
    ensures untouched { IfSome (H.seen shelf.old).files (λ m. IfRefused (open_file name.now limits.now m) (LeavesInput (S.seen input.old) (S.seen input.new))) }
{
    match open(alloc, name, limits, shelf, steps) {
        Err(fault) => Err(fault),
        Ok(Found::Refused(why)) => Ok(Reply::Refuses(why)),
        Ok(Found::Open(mut replica)) => {
            serve_events(alloc, name, limits, &mut replica, input, out, steps)
        }
    }
}
