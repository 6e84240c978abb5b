//! From a line to what is to be done.
ghost use Rattle.std.specs.Prelude.{◌≡◌, ◌+◌, ℕ, List, Option, true, false, IfOk, IfSome, None, Some};
ghost use Rattle.std.specs.Option.{option_map};
ghost use Rattle.command_table.specs.Reads.{IfFileRefused, LeavesInput, CountsLoads, LoadsFront, TakesAtMost, makes_file, most_asked, needs_file, reads_input, shape_of, uses_journal};
ghost use Rattle.command_table.specs.Table.{MeansTo, does, reply_to};
ghost use Rattle.opened_files.specs.Touches.{CommandTakes};
ghost use Rattle.opened_files.specs.Views.{IsTakenReply, LoadsAll, FailedLoadsBy, ReadsNone, ShelfCauses};
ghost use Rattle.line_plans.specs.Sources.{KeepsInput, PlansBy};
ghost use Rattle.line_plans.specs.Sources as line;
ghost use Rattle.serve_plans.specs.Plans.{Causes, KeepsStreams};
ghost use Rattle.command_runs.specs.LineTouches.{LineTakes};
ghost use Rattle.command_runs.specs.Lines.{Heard, IsReplyOf, MakesBy, MayPlan, MissesFor, PlansAlone, PlansKnown, PlansSome, ReadsAll, ReadsFor, SendsNone};
ghost use Rattle.command_reader.specs.Words.{command_view, line_view};
ghost use Rattle.ew_outside.specs.Counts.{AsksAtMost, RisesOnceAtMost};

use crate::commands::{create, show};
use crate::making::make_history;
use command_reader::words::{Line, Taken};
use command_texts::refusal::Refusal;
use ew_model::limits::Limits;
use ew_model::steps::Steps;
use ew_outside::{Fault, Shelf, Sink, Source};
use line_plans::edit::edit;
use line_plans::merge::merge;
use line_plans::net::net;
use line_plans::undoing::undo_events;
use line_plans::upgrade::upgrade;
use opened_files::reply::Reply;
use serve_plans::serve::serve;
use std::alloc::Global;
use std::sync::ledger::Ledger;
use undo::Undone;

/// Reads what the line reads, and answers what is to be done. A session is served by then, up to what is to be stored and printed
/// at last; of another line nothing is stored or printed yet. The line has no use for the journal.
pub fn plan<H: Shelf, S: Source, K: Sink, L: Ledger>(
    alloc: Global,
    line: Option<Line<'_>>,
    limits: &Limits,
    shelf: &mut H,
    input: &mut S,
    out: &mut K,
    steps: &mut Steps<L>,
) -> Result<Reply, Fault>
    requires plain { uses_journal (option_map line_view line) ≡ false }
    ensures told { (journal : Option (List ℕ)) → PlansKnown (option_map line_view line.entry) limits.now (H.seen shelf.old) journal (S.seen input.old) (K.seen out.old) (K.seen out.new) result }
    ensures some { PlansSome (option_map line_view line.entry) limits.now (K.seen out.old) (K.seen out.new) result }
    ensures heard { Heard (option_map line_view line.entry) limits.now (H.seen shelf.old) (S.seen input.old) (S.seen input.new) (K.seen out.old) (K.seen out.new) result }
    ensures sends { SendsNone (option_map line_view line.entry) (K.seen out.old) (K.seen out.new) result }
    ensures line { IsReplyOf (option_map line_view line.entry) result }
    ensures same { (H.seen shelf.new).files ≡ (H.seen shelf.old).files }
    ensures read { ReadsAll (option_map line_view line.entry) limits.now (S.seen input.old) (S.seen input.new) result }
    ensures unread { reads_input (option_map line_view line.entry) ≡ false → LeavesInput (S.seen input.old) (S.seen input.new) }
    ensures cause { Causes (H.seen shelf.old).faults (H.seen shelf.new).faults (S.seen input.old).faults (S.seen input.new).faults (K.seen out.old).faults (K.seen out.new).faults result }
    ensures misses { MissesFor (needs_file (option_map line_view line.entry)) (H.seen shelf.old).misses (H.seen shelf.new).misses result }
    ensures few { TakesAtMost (limits.now.input + 1) (S.seen input.old).left (S.seen input.new).left }
    ensures kept { KeepsStreams (S.seen input.old) (S.seen input.new) (K.seen out.old).taken (K.seen out.new).taken result }
    ensures untouched { IfSome (H.seen shelf.old).files (λ m. IfFileRefused (shape_of (option_map line_view line.entry)) limits.now m (LeavesInput (S.seen input.old) (S.seen input.new))) }
    ensures front { LoadsFront (shape_of (option_map line_view line.entry)).files (H.seen shelf.old).loads (H.seen shelf.new).loads }
    ensures loads { IfOk result (λ p. CountsLoads (shape_of (option_map line_view line.entry)).files limits.now (H.seen shelf.old).files (H.seen shelf.old).loads (H.seen shelf.new).loads) }
    ensures failed_loads { FailedLoadsBy (H.seen shelf.old).failed_loads (H.seen shelf.new).failed_loads result }
    ensures all { LoadsAll (shape_of (option_map line_view line.entry)).files (H.seen shelf.old).loads (H.seen shelf.new).loads result }
    ensures makes { MakesBy (makes_file (option_map line_view line.entry)) (H.seen shelf.old).misses (H.seen shelf.new).misses result }
    ensures asked { AsksAtMost (most_asked (option_map line_view line.entry) limits.now) (H.seen shelf.old).asked (H.seen shelf.new).asked }
    ensures stores { (H.seen shelf.new).stores ≡ (H.seen shelf.old).stores }
    ensures ends { RisesOnceAtMost (S.seen input.old).ends (S.seen input.new).ends }
    ensures refused { needs_file (option_map line_view line.entry) ≡ true → ReadsNone (S.seen input.old) (S.seen input.new) result }
    ensures most { LineTakes (option_map line_view line.entry) limits.now (H.seen shelf.old).files None (S.seen input.old).left steps.old steps.new }
{
    match line {
        None => Ok(Reply::Refuses(Refusal::NotTaken)),
        Some(Line::Does(command)) => plan_command(alloc, command, limits, shelf, input, steps),
        Some(Line::Serves(file)) => serve(alloc, file, limits, shelf, input, out, steps),
        Some(Line::Watches(_) | Line::Exports(_)) => unreachable!(),
    }
}

/// Reads what a command reads.
fn plan_command<H: Shelf, S: Source, L: Ledger>(
    alloc: Global,
    command: Taken<'_>,
    limits: &Limits,
    shelf: &mut H,
    input: &mut S,
    steps: &mut Steps<L>,
) -> Result<Reply, Fault>
    ensures told { PlansBy (MeansTo (command_view command.entry)) (reply_to (command_view command.entry) limits.now) (H.seen shelf.old).files (S.seen input.old).left result }
    ensures alone { reads_input (Some (does (command_view command.entry))) ≡ false → PlansAlone (reply_to (command_view command.entry) limits.now) (H.seen shelf.old).files result }
    ensures some { MayPlan (command_view command.entry) limits.now result }
    ensures plan { IfOk result IsTakenReply }
    ensures same { (H.seen shelf.new).files ≡ (H.seen shelf.old).files }
    ensures read { ReadsFor (reads_input (Some (does (command_view command.entry)))) (S.seen input.old).left (S.seen input.new).left result }
    ensures quiet { reads_input (Some (does (command_view command.entry))) ≡ false → LeavesInput (S.seen input.old) (S.seen input.new) }
    ensures cause { line.Causes (H.seen shelf.old).faults (H.seen shelf.new).faults (S.seen input.old).faults (S.seen input.new).faults result }
    ensures misses { MissesFor (needs_file (Some (does (command_view command.entry)))) (H.seen shelf.old).misses (H.seen shelf.new).misses result }
    ensures few { TakesAtMost (limits.now.input + 1) (S.seen input.old).left (S.seen input.new).left }
    ensures kept { KeepsInput (S.seen input.old) (S.seen input.new) result }
    ensures untouched { IfSome (H.seen shelf.old).files (λ m. IfFileRefused (shape_of (Some (does (command_view command.entry)))) limits.now m (LeavesInput (S.seen input.old) (S.seen input.new))) }
    ensures front { LoadsFront (shape_of (Some (does (command_view command.entry)))).files (H.seen shelf.old).loads (H.seen shelf.new).loads }
    ensures loads { IfOk result (λ p. CountsLoads (shape_of (Some (does (command_view command.entry)))).files limits.now (H.seen shelf.old).files (H.seen shelf.old).loads (H.seen shelf.new).loads) }
    ensures failed_loads { FailedLoadsBy (H.seen shelf.old).failed_loads (H.seen shelf.new).failed_loads result }
    ensures all { LoadsAll (shape_of (Some (does (command_view command.entry)))).files (H.seen shelf.old).loads (H.seen shelf.new).loads result }
    ensures makes { MakesBy (makes_file (Some (does (command_view command.entry)))) (H.seen shelf.old).misses (H.seen shelf.new).misses result }
    ensures asked { AsksAtMost (most_asked (Some (does (command_view command.entry))) limits.now) (H.seen shelf.old).asked (H.seen shelf.new).asked }
    ensures stores { (H.seen shelf.new).stores ≡ (H.seen shelf.old).stores }
    ensures ends { RisesOnceAtMost (S.seen input.old).ends (S.seen input.new).ends }
    ensures refused { needs_file (Some (does (command_view command.entry))) ≡ true → ReadsNone (S.seen input.old) (S.seen input.new) result }
    ensures most { CommandTakes (command_view command.entry) limits.now (H.seen shelf.old).files steps.old steps.new }
{
    match command {
        Taken::Edit { file, agent } => edit(alloc, file, agent, limits, shelf, input, steps),
        Taken::Net => net(alloc, limits, input, steps),
        _ => plan_unread(alloc, command, limits, shelf, steps),
    }
}

/// Plans a command that reads no input.
fn plan_unread<H: Shelf, L: Ledger>(
    alloc: Global,
    command: Taken<'_>,
    limits: &Limits,
    shelf: &mut H,
    steps: &mut Steps<L>,
) -> Result<Reply, Fault>
    requires { reads_input (Some (does (command_view command))) ≡ false }
    ensures told { PlansAlone (reply_to (command_view command.entry) limits.now) (H.seen shelf.old).files result }
    ensures some { MayPlan (command_view command.entry) limits.now result }
    ensures plan { IfOk result IsTakenReply }
    ensures same { (H.seen shelf.new).files ≡ (H.seen shelf.old).files }
    ensures cause { ShelfCauses (H.seen shelf.old).faults (H.seen shelf.new).faults result }
    ensures misses { MissesFor (needs_file (Some (does (command_view command.entry)))) (H.seen shelf.old).misses (H.seen shelf.new).misses result }
    ensures front { LoadsFront (shape_of (Some (does (command_view command.entry)))).files (H.seen shelf.old).loads (H.seen shelf.new).loads }
    ensures loads { IfOk result (λ p. CountsLoads (shape_of (Some (does (command_view command.entry)))).files limits.now (H.seen shelf.old).files (H.seen shelf.old).loads (H.seen shelf.new).loads) }
    ensures failed_loads { FailedLoadsBy (H.seen shelf.old).failed_loads (H.seen shelf.new).failed_loads result }
    ensures all { LoadsAll (shape_of (Some (does (command_view command.entry)))).files (H.seen shelf.old).loads (H.seen shelf.new).loads result }
    ensures makes { MakesBy (makes_file (Some (does (command_view command.entry)))) (H.seen shelf.old).misses (H.seen shelf.new).misses result }
    ensures asked { AsksAtMost (most_asked (Some (does (command_view command.entry))) limits.now) (H.seen shelf.old).asked (H.seen shelf.new).asked }
    ensures stores { (H.seen shelf.new).stores ≡ (H.seen shelf.old).stores }
    ensures most { CommandTakes (command_view command.entry) limits.now (H.seen shelf.old).files steps.old steps.new }
{
    match command {
        Taken::New(name) => create(alloc, name, shelf),
        Taken::Show { listing, file } => show(alloc, listing, file, limits, shelf, steps),
        Taken::Merge { file, other } => merge(alloc, file, other, limits, shelf, steps),
        Taken::Upgrade(file) => upgrade(alloc, file, limits, shelf, steps),
        Taken::Undo {
            file,
            agent,
            first,
            count,
        } => {
            let undone = Undone {
                agent: first.agent,
                first: first.seq,
                count,
            };
            undo_events(alloc, file, agent, &undone, limits, shelf, steps)
        }
        Taken::Make { seed, count } => make_history(alloc, limits, seed, count, steps),
        Taken::Edit { .. } | Taken::Net => unreachable!(),
    }
}
