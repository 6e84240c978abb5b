//! The command that edits a file by a script.
ghost use Rattle.std.specs.Prelude.{◌≡◌, ◌≢◌, ◌<◌, ◌+◌, ◌^◌, [], length, IfOk, IfSome};
ghost use Rattle.ew_model.specs.Bytes.{AreBytes};
ghost use Rattle.script_reader.specs.Meaning.{edit_meant, numbered_edits};
ghost use Rattle.replica.specs.Answers.{EditsBy};
ghost use Rattle.line_plans.specs.Edits.{EditsTo, LineRefuses, MayScript, PlansInput, PlansScript, edits_reply};
ghost use Rattle.command_table.specs.Reads.{IfRefused, LeavesInput, TakesAtMost};
ghost use Rattle.command_table.specs.Possible.{MayEdit, MayReplyTo};
ghost use Rattle.command_table.specs.Scripts.{Means};
ghost use Rattle.command_table.specs.Table as table;
ghost use Rattle.command_table.specs.Table.{input_reply, made_reply, open_file, opened, over_events};
ghost use Rattle.opened_files.specs.Touches.{TouchesAtMost, file_touches};
ghost use Rattle.opened_files.specs.Views.{IsTakenReply, FailedLoadsBy, MissesBy, ReadsNone, reply_view, reply_status};
ghost use Rattle.line_plans.specs.Sources.{Causes, KeepsInput, PlansBy, ReadsAll, SourceCauses};
ghost use Rattle.ew_outside.specs.Counts.{Asks, RisesOnceAtMost, next};
ghost use Rattle.ew_model.specs.Limits.{most_file_bytes};

use crate::input::{Input, read_input};
use command_texts::refusal::Refusal;
use command_texts::texts::made_text;
use ew_model::NoMem;
use ew_model::limits::Limits;
use ew_model::name::Name;
use ew_model::steps::Steps;
use ew_outside::{Fault, Shelf, Source};
use opened_files::open::{Found, open};
use opened_files::reply::Reply;
use opened_files::store::store_reply;
use replica::{EditFault, Replica};
use script_reader::edit::Edit;
use script_reader::script::{ScriptFault, read_script};
use std::alloc::Global;
use std::sync::ledger::Ledger;

/// Does one edit.
pub fn do_edit<L: Ledger>(
    replica: &mut Replica,
    agent: Name,
    edit: &Edit,
    steps: &mut Steps<L>,
) -> Result<u32, EditFault>
    requires { replica.old.waiting ≡ [] }
    ensures done { EditsBy agent (edit_meant edit.now) replica.old replica.new result }
    ensures steps { steps.new ≡ steps.old }
{
    match edit {
        Edit::Ins { at, text } => replica.insert(agent, *at, text.as_str(), steps),
        Edit::Del { at, n } => replica.delete(agent, *at, *n, steps),
        Edit::Mark { label } => replica.mark(agent, *label, steps),
    }
}

/// Why a line is refused.
pub fn refuse_line(limits: &Limits, line: u32, fault: EditFault) -> Result<Reply, NoMem>
    ensures told { LineRefuses limits.now line fault result }
    ensures plan { IfOk result IsTakenReply }
{
    match fault {
        EditFault::OutOfMemory => Err(NoMem),
        EditFault::OutOfRange { len } => Ok(Reply::Refuses(Refusal::LineOutOfRange { line, len })),
        EditFault::TooManyHeads { heads } => Ok(Reply::Refuses(Refusal::TooManyHeads { heads })),
        EditFault::Full { .. } => Ok(Reply::Refuses(Refusal::TooManyEvents {
            most: limits.events(),
        })),
    }
}

/// Does the edits in order. None where all were done, else the plan that refuses a line.
fn do_edits<L: Ledger>(
    alloc: Global,
    replica: &mut Replica,
    agent: Name,
    edits: &[(u32, Edit)],
    steps: &mut Steps<L>,
) -> Result<Option<Reply>, NoMem>
    requires { replica.old.waiting ≡ [] }
    ensures done { EditsTo agent (numbered_edits edits.now) replica.old replica.new result }
    ensures plan { IfOk result (λ o. IfSome o IsTakenReply) }
    ensures steps { steps.new ≡ steps.old }
{
    let limits = replica.limits();
    for (line, edit) in edits {
        if let Err(fault) = do_edit(replica, agent, edit, steps) {
            return Ok(Some(refuse_line(&limits, *line, fault)?));
        }
    }
    Ok(None)
}

/// What is to be stored and told, once all edits are done.
pub(crate) fn made_plan(
    alloc: Global,
    name: &str,
    replica: &Replica,
    before: u32,
) -> Result<Reply, NoMem>
    ensures told { IfOk result (λ p. reply_view p ≡ made_reply name.now before replica.now.held) }
    ensures plan { IfOk result IsTakenReply }
{
    let count = replica.count();
    if before < count {
        let out = made_text(alloc, u64::from(count - before))?;
        store_reply(alloc, name, replica, out)
    } else {
        Ok(Reply::Prints(made_text(alloc, 0)?))
    }
}

/// Does the edits of a script over a replica, and plans what is to be stored and told.
fn run_edits<L: Ledger>(
    alloc: Global,
    name: &str,
    agent: Name,
    replica: &mut Replica,
    edits: &[(u32, Edit)],
    steps: &mut Steps<L>,
) -> Result<Reply, NoMem>
    requires { replica.old.waiting ≡ [] }
    ensures told { IfOk result (λ p. reply_view p ≡ edits_reply name.now agent replica.old (numbered_edits edits.now)) }
    ensures plan { IfOk result IsTakenReply }
    ensures found { IfOk result (λ p. reply_status p ≢ 3) }
    ensures good { IfOk result (λ p. reply_status p ≢ 4) }
    ensures steps { steps.new ≡ steps.old }
{
    let before = replica.count();
    match do_edits(alloc, replica, agent, edits, steps)? {
        Some(refusal) => Ok(refusal),
        None => made_plan(alloc, name, replica, before),
    }
}

/// Runs a script over a replica.
fn run_script<L: Ledger>(
    alloc: Global,
    name: &str,
    agent: Name,
    replica: &mut Replica,
    script: &[u8],
    steps: &mut Steps<L>,
) -> Result<Reply, NoMem>
    requires short { length script.now < 2 ^ 32 }
    requires none_waits { replica.old.waiting ≡ [] }
    ensures told { PlansScript name.now agent replica.old script.now result }
    ensures some { MayScript name.now agent replica.old script.now result }
    ensures fits { AreBytes script.now }
    ensures plan { IfOk result IsTakenReply }
    ensures found { IfOk result (λ p. reply_status p ≢ 3) }
    ensures good { IfOk result (λ p. reply_status p ≢ 4) }
    ensures steps { steps.new ≡ steps.old }
{
    let edits = match read_script(alloc, script) {
        Ok(edits) => edits,
        Err(ScriptFault::OutOfMemory) => return Err(NoMem),
        Err(ScriptFault::BadLine(line)) => {
            return Ok(Reply::Refuses(Refusal::Unreadable { line }));
        }
    };
    run_edits(alloc, name, agent, replica, &edits, steps)
}

/// Reads the input, and runs it as a script over a replica.
fn take_input<S: Source, L: Ledger>(
    alloc: Global,
    name: &str,
    agent: Name,
    limits: &Limits,
    replica: &mut Replica,
    input: &mut S,
    steps: &mut Steps<L>,
) -> Result<Reply, Fault>
    requires limits { replica.old.limits ≡ limits.now }
    requires none_waits { replica.old.waiting ≡ [] }
    ensures told { IfSome (S.seen input.old).left (λ xs. PlansInput name.now agent replica.old xs result) }
    ensures some { IfOk result (λ p. MayEdit name.now agent limits.now (opened replica.old.held) (reply_view p)) }
    ensures end { ReadsAll (S.seen input.old).left (S.seen input.new).left result }
    ensures few { TakesAtMost (limits.now.input + 1) (S.seen input.old).left (S.seen input.new).left }
    ensures cause { SourceCauses (S.seen input.old).faults (S.seen input.new).faults result }
    ensures ends { RisesOnceAtMost (S.seen input.old).ends (S.seen input.new).ends }
    ensures found { IfOk result (λ p. reply_status p ≢ 3) }
    ensures good { IfOk result (λ p. reply_status p ≢ 4) }
    ensures plan { IfOk result IsTakenReply }
    ensures steps { steps.new ≡ steps.old }
{
    let most = limits.input();
    match read_input(alloc, input, most)? {
        Input::TooLong => Ok(Reply::Refuses(Refusal::InputTooLong { most })),
        Input::Whole(script) => Ok(run_script(alloc, name, agent, replica, &script, steps)?),
    }
}

/// Edits a file by the script that the input is. The steps taken are at most those of loading the file.
pub fn edit<H: Shelf, S: Source, L: Ledger>(
    alloc: Global,
    name: &str,
    agent: Name,
    limits: &Limits,
    shelf: &mut H,
    input: &mut S,
    steps: &mut Steps<L>,
) -> Result<Reply, Fault>
    ensures told { PlansBy Means (λ files xs reading. over_events (input_reply name.now agent limits.now xs reading) (open_file name.now limits.now files)) (H.seen shelf.old).files (S.seen input.old).left result }
    ensures some { IfOk result (λ p. MayReplyTo (table.edit name.now agent) limits.now (reply_view p)) }
    ensures plan { IfOk result IsTakenReply }
    ensures same { (H.seen shelf.new).files ≡ (H.seen shelf.old).files }
    ensures end { ReadsAll (S.seen input.old).left (S.seen input.new).left result }
    ensures cause { Causes (H.seen shelf.old).faults (H.seen shelf.new).faults (S.seen input.old).faults (S.seen input.new).faults result }
    ensures misses { MissesBy (H.seen shelf.old).misses (H.seen shelf.new).misses result }
    ensures few { TakesAtMost (limits.now.input + 1) (S.seen input.old).left (S.seen input.new).left }
    ensures kept { KeepsInput (S.seen input.old) (S.seen input.new) result }
    ensures untouched { IfSome (H.seen shelf.old).files (λ m. IfRefused (open_file name.now limits.now m) (LeavesInput (S.seen input.old) (S.seen input.new))) }
    ensures loads { (H.seen shelf.new).loads ≡ next (H.seen shelf.old).loads }
    ensures failed_loads { FailedLoadsBy (H.seen shelf.old).failed_loads (H.seen shelf.new).failed_loads result }
    ensures asked { Asks (most_file_bytes limits.now.events) (H.seen shelf.old).asked (H.seen shelf.new).asked }
    ensures stores { (H.seen shelf.new).stores ≡ (H.seen shelf.old).stores }
    ensures ends { RisesOnceAtMost (S.seen input.old).ends (S.seen input.new).ends }
    ensures refused { ReadsNone (S.seen input.old) (S.seen input.new) result }
    ensures most { TouchesAtMost (file_touches name.now limits.now) (H.seen shelf.old).files steps.old steps.new }
{
    match open(alloc, name, limits, shelf, steps)? {
        Found::Refused(why) => Ok(Reply::Refuses(why)),
        Found::Open(mut replica) => {
            take_input(alloc, name, agent, limits, &mut replica, input, steps)
        }
    }
}
