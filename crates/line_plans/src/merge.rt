//! The command that merges another file into a file.
ghost use Rattle.std.specs.Prelude.{◌≡◌, ◌≢◌, ◌≤◌, ◌+◌, [], ◌∷◌, find, IfOk, IfSome};
ghost use Rattle.std.specs.List.{list_any};
ghost use Rattle.std.specs.Option.{option_copied};
ghost use Rattle.line_plans.specs.Merging.{took_reply};
ghost use Rattle.command_texts.specs.Told.{took_text};
ghost use Rattle.command_table.specs.Loads.{File};
ghost use Rattle.command_table.specs.Possible.{KeepsTo, MayReplyTo};
ghost use Rattle.command_table.specs.Table.{merge_reply, open_file, opened_as, over_both, over_events, received_reply};
ghost use Rattle.command_table.specs.Table as table;
ghost use Rattle.ew_model.specs.Limits.{most_file_bytes};
ghost use Rattle.ew_model.specs.Rounds.{most_touches};
ghost use Rattle.opened_files.specs.Touches.{TouchesAtMost, file_touches, merge_touches, touches_over};
ghost use Rattle.peer_definitions.specs.Answering as answering;
ghost use Rattle.opened_files.specs.Views.{IsTakenReply, LoadsDone, FailedLoadsBy, MissesBy, ShelfCauses, reply_view, reply_status};
ghost use Rattle.command_table.specs.Reads.{CountsLoads, LoadsFront};
ghost use Rattle.ew_outside.specs.Counts.{Asks, AsksAtMost, next};

use crate::taking::take;
use command_texts::refusal::Refusal;
use command_texts::texts::received_text;
use event_graph::Graph;
use ew_model::id::Id;
use ew_model::limits::Limits;
use ew_model::steps::Steps;
use ew_model::{NoMem, verdict};
use ew_outside::{Fault, Shelf};
use opened_files::open::{Found, open, open_graph};
use opened_files::reply::Reply;
use opened_files::store::store_reply;
use replica::{Replica, Took};
use std::alloc::Global;
use std::sync::ledger::Ledger;

fn is_clash(why: verdict::Refusal) -> bool
    ensures { result ≡ answering.is_clash why }
{
    matches!(why, verdict::Refusal::Clash)
}

fn is_graph_full(why: verdict::Refusal) -> bool
    ensures { result ≡ table.is_graph_full why }
{
    matches!(why, verdict::Refusal::GraphFull)
}

/// The first refused event that has the id of another.
fn first_clash(refused: &[(Id, verdict::Refusal)]) -> Option<&(Id, verdict::Refusal)>
    ensures { option_copied result ≡ find (λ p. answering.is_clash p.1) refused.now }
{
    refused.iter().find(|p| is_clash(p.1))
}

/// Whether an event was refused because the history is full.
fn any_graph_full(refused: &[(Id, verdict::Refusal)]) -> bool
    ensures { result ≡ list_any (λ p. table.is_graph_full p.1) refused.now }
{
    refused.iter().any(|p| is_graph_full(p.1))
}

/// What is told and stored of events of which none is a reason to refuse all.
fn received_plan(alloc: Global, name: &str, replica: &Replica, took: &Took) -> Result<Reply, NoMem>
    ensures told { IfOk result (λ p. reply_view p ≡ received_reply name.now replica.now.held took.now.accepted (took_text took.now)) }
    ensures plan { IfOk result IsTakenReply }
    ensures found { IfOk result (λ p. reply_status p ≢ 3) }
{
    let out = received_text(alloc, took)?;
    if took.accepted == 0 {
        Ok(Reply::Prints(out))
    } else {
        store_reply(alloc, name, replica, out)
    }
}

/// What is told and stored once the events are received.
fn took_plan(
    alloc: Global,
    name: &str,
    limits: &Limits,
    replica: &Replica,
    took: &Took,
) -> Result<Reply, NoMem>
    ensures told { IfOk result (λ p. reply_view p ≡ took_reply name.now limits.now replica.now.held took.now) }
    ensures plan { IfOk result IsTakenReply }
    ensures found { IfOk result (λ p. reply_status p ≢ 3) }
{
    if let Some((id, _)) = first_clash(&took.refused) {
        return Ok(Reply::Refuses(Refusal::Clash(*id)));
    }
    if any_graph_full(&took.refused) {
        return Ok(Reply::Refuses(Refusal::TooManyEvents {
            most: limits.events(),
        }));
    }
    received_plan(alloc, name, replica, took)
}

/// Receives the events of another file, and tells what became of them.
fn receive<L: Ledger>(
    alloc: Global,
    name: &str,
    limits: &Limits,
    replica: &mut Replica,
    other: Graph,
    steps: &mut Steps<L>,
) -> Result<Reply, NoMem>
    requires limits { replica.old.limits ≡ limits.now }
    requires none_waits { replica.old.waiting ≡ [] }
    ensures told { IfOk result (λ p. reply_view p ≡ merge_reply name.now limits.now replica.old.held other) }
    ensures plan { IfOk result IsTakenReply }
    ensures found { IfOk result (λ p. reply_status p ≢ 3) }
    ensures most { steps.new ≤ steps.old + most_touches limits.now replica.old.held [] other }
{
    let took = take(replica, other, steps)?;
    took_plan(alloc, name, limits, replica, &took)
}

/// Opens another file, and receives its events.
fn take_other<H: Shelf, L: Ledger>(
    alloc: Global,
    name: &str,
    other: &str,
    limits: &Limits,
    replica: &mut Replica,
    shelf: &mut H,
    steps: &mut Steps<L>,
) -> Result<Reply, Fault>
    requires limits { replica.old.limits ≡ limits.now }
    requires none_waits { replica.old.waiting ≡ [] }
    ensures told { IfSome (H.seen shelf.old).files (λ m. IfOk result (λ p. reply_view p ≡ over_events (merge_reply name.now limits.now replica.old.held) (open_file other.now limits.now m))) }
    ensures some { IfOk result (λ p. (file : File) × (reply_view p ≡ over_events (merge_reply name.now limits.now replica.old.held) (opened_as other.now limits.now file)) × KeepsTo (most_file_bytes limits.now.events) file) }
    ensures plan { IfOk result IsTakenReply }
    ensures same { (H.seen shelf.new).files ≡ (H.seen shelf.old).files }
    ensures cause { ShelfCauses (H.seen shelf.old).faults (H.seen shelf.new).faults result }
    ensures misses { MissesBy (H.seen shelf.old).misses (H.seen shelf.new).misses result }
    ensures loads { (H.seen shelf.new).loads ≡ next (H.seen shelf.old).loads }
    ensures failed_loads { FailedLoadsBy (H.seen shelf.old).failed_loads (H.seen shelf.new).failed_loads result }
    ensures asked { Asks (most_file_bytes limits.now.events) (H.seen shelf.old).asked (H.seen shelf.new).asked }
    ensures stores { (H.seen shelf.new).stores ≡ (H.seen shelf.old).stores }
    ensures most { TouchesAtMost (λ m. merge_touches other.now limits.now m replica.old.held) (H.seen shelf.old).files steps.old steps.new }
{
    match open_graph(alloc, other, limits, shelf, steps)? {
        Found::Refused(why) => Ok(Reply::Refuses(why)),
        Found::Open(other) => {
            let plan = receive(alloc, name, limits, replica, other, steps)?;
            Ok(plan)
        }
    }
}

/// Merges the events of another file into a file. The steps taken are at most those of loading both, and those of receiving.
pub fn merge<H: Shelf, L: Ledger>(
    alloc: Global,
    name: &str,
    other: &str,
    limits: &Limits,
    shelf: &mut H,
    steps: &mut Steps<L>,
) -> Result<Reply, Fault>
    ensures told { IfSome (H.seen shelf.old).files (λ m. IfOk result (λ p. reply_view p ≡ over_both (merge_reply name.now limits.now) (open_file name.now limits.now m) (open_file other.now limits.now m))) }
    ensures some { IfOk result (λ p. MayReplyTo (table.merge name.now other.now) limits.now (reply_view p)) }
    ensures plan { IfOk result IsTakenReply }
    ensures same { (H.seen shelf.new).files ≡ (H.seen shelf.old).files }
    ensures cause { ShelfCauses (H.seen shelf.old).faults (H.seen shelf.new).faults result }
    ensures misses { MissesBy (H.seen shelf.old).misses (H.seen shelf.new).misses result }
    ensures front { LoadsFront (name.now ∷ other.now ∷ []) (H.seen shelf.old).loads (H.seen shelf.new).loads }
    ensures loads { IfOk result (λ p. CountsLoads (name.now ∷ other.now ∷ []) limits.now (H.seen shelf.old).files (H.seen shelf.old).loads (H.seen shelf.new).loads) }
    ensures all { IfOk result (LoadsDone (name.now ∷ other.now ∷ []) (H.seen shelf.old).loads (H.seen shelf.new).loads) }
    ensures failed_loads { FailedLoadsBy (H.seen shelf.old).failed_loads (H.seen shelf.new).failed_loads result }
    ensures asked { AsksAtMost (most_file_bytes limits.now.events) (H.seen shelf.old).asked (H.seen shelf.new).asked }
    ensures stores { (H.seen shelf.new).stores ≡ (H.seen shelf.old).stores }
    ensures most { TouchesAtMost (λ m. file_touches name.now limits.now m + touches_over (merge_touches other.now limits.now m) (open_file name.now limits.now m)) (H.seen shelf.old).files steps.old steps.new }
{
    match open(alloc, name, limits, shelf, steps)? {
        Found::Refused(why) => Ok(Reply::Refuses(why)),
        Found::Open(mut replica) => {
            take_other(alloc, name, other, limits, &mut replica, shelf, steps)
        }
    }
}
