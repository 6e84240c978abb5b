//! The command that keeps a script in the journal, line by line.
ghost use Rattle.std.specs.Prelude.{◌≡◌, ◌≢◌, ◌<◌, ◌≤◌, ◌+◌, ◌^◌, List, drop, length, ℕ, IfOk, IfSome, OnOk, Some};
ghost use Rattle.ew_model.specs.Bytes.{AreBytes};
ghost use Rattle.event_journal.specs.Disk.{TellsAlike};
ghost use Rattle.ew_outside.specs.Counts.{RisesOnceAtMost};
ghost use Rattle.script_reader.specs.Meaning.{numbered_edits};
ghost use Rattle.command_table.specs.Journals.{Journal, TellsJournal, open_journal, watch_script};
ghost use Rattle.command_table.specs.Journals as table;
ghost use Rattle.command_table.specs.Possible.{MayWatch, MayWatchOver};
ghost use Rattle.command_table.specs.Reads.{IfRefused, LeavesInput, TakesAtMost};
ghost use Rattle.command_table.specs.Scripts.{Means, Reading};
ghost use Rattle.command_table.specs.Sessions.{Session};
ghost use Rattle.command_table.specs.Table as lines;
ghost use Rattle.opened_files.specs.Views.{IsTakenReply, reply_status};
ghost use Rattle.journal_plans.specs.Adding.{IsReady};
ghost use Rattle.journal_plans.specs.Keeping.{EndsAs, KeepsLines, kept_edits, made_lines};
ghost use Rattle.journal_plans.specs.Opening.{IsFresh, JournalTakes};
ghost use Rattle.journal_plans.specs.Stops.{KeepCauses, WatchCauses};
ghost use Rattle.journal_plans.specs.Watching.{FollowsWatch, IsOfSource, KeepsInput, KeepsJournal, ReadsAll, ReadsNone};

use crate::keep::{events_from, keep};
use crate::open::{Opened, open};
use crate::stop::Stop;
use command_texts::refusal::Refusal;
use event_journal::Disk;
use ew_model::NoMem;
use ew_model::limits::Limits;
use ew_model::name::Name;
use ew_model::steps::Steps;
use ew_outside::{Sink, Source};
use line_plans::edit::{do_edit, refuse_line};
use line_plans::input::{Input, read_input};
use opened_files::open::Found;
use opened_files::reply::Reply;
use script_reader::edit::Edit;
use script_reader::script::{ScriptFault, read_script};
use std::alloc::Global;
use std::sync::ledger::Ledger;

/// Keeps the events that a line made, if it made any.
fn keep_made<D: Disk, K: Sink>(
    alloc: Global,
    opened: &mut Opened,
    before: u32,
    limits: &Limits,
    disk: &mut D,
    out: &mut K,
) -> Result<(), Stop>
    requires before { before ≤ length opened.old.replica.held }
    requires counted { opened.old.journal.count ≡ before }
    requires limits { (opened.old.journal.limits ≡ limits.now) × (opened.old.replica.limits ≡ limits.now) }
    requires ready { IsReady opened.old.journal (D.seen disk.old).bytes (D.may_leave disk.old) }
    ensures kept { KeepsLines D.may_leave D.moment D.left_since limits.now (made_lines (drop before opened.old.replica.held)) opened.old.journal opened.new.journal disk.old disk.new (D.seen disk.old).bytes (D.seen disk.new).bytes (K.seen out.old) (K.seen out.new) result }
    ensures ready { OnOk result (IsReady opened.new.journal (D.seen disk.new).bytes (D.may_leave disk.new)) }
    ensures limits { opened.new.journal.limits ≡ opened.old.journal.limits }
    ensures counted { OnOk result (opened.new.journal.count ≡ length opened.old.replica.held) }
    ensures replica { opened.new.replica ≡ opened.old.replica }
    ensures tells { TellsAlike (D.seen disk.old).bytes (D.seen disk.new).bytes }
    ensures cause { KeepCauses (D.seen disk.old).faults (D.seen disk.new).faults (K.seen out.old).faults (K.seen out.new).faults result }
{
    if before == opened.replica.count() {
        return Ok(());
    }
    let made = events_from(alloc, &opened.replica, before)?;
    keep(alloc, &mut opened.journal, disk, limits, &made, out)
}

/// Does the edits in order, and keeps what each made before the next. None where all were done, else the reply that refuses a line.
fn keep_edits<D: Disk, K: Sink, L: Ledger>(
    alloc: Global,
    agent: Name,
    limits: &Limits,
    opened: &mut Opened,
    edits: &[(u32, Edit)],
    disk: &mut D,
    out: &mut K,
    steps: &mut Steps<L>,
) -> Result<Option<Reply>, Stop>
    requires fresh { IsFresh limits.now opened.old }
    requires ready { IsReady opened.old.journal (D.seen disk.old).bytes (D.may_leave disk.old) }
    ensures ends { EndsAs limits.now (kept_edits agent opened.old.replica (numbered_edits edits.now)) result }
    ensures plan { IfOk result (λ o. IfSome o IsTakenReply) }
    ensures kept { KeepsLines D.may_leave D.moment D.left_since limits.now (kept_edits agent opened.old.replica (numbered_edits edits.now)).kept opened.old.journal opened.new.journal disk.old disk.new (D.seen disk.old).bytes (D.seen disk.new).bytes (K.seen out.old) (K.seen out.new) result }
    ensures limits { opened.new.journal.limits ≡ limits.now }
    ensures tells { TellsAlike (D.seen disk.old).bytes (D.seen disk.new).bytes }
    ensures cause { KeepCauses (D.seen disk.old).faults (D.seen disk.new).faults (K.seen out.old).faults (K.seen out.new).faults result }
    ensures steps { steps.new ≡ steps.old }
{
    for (line, edit) in edits {
        let before = opened.replica.count();
        if let Err(fault) = do_edit(&mut opened.replica, agent, edit, steps) {
            return Ok(Some(refuse_line(limits, *line, fault)?));
        }
        keep_made(alloc, opened, before, limits, disk, out)?;
    }
    Ok(None)
}

/// Runs a script over the journal that is open.
fn keep_script<D: Disk, K: Sink, L: Ledger>(
    alloc: Global,
    agent: Name,
    limits: &Limits,
    opened: &mut Opened,
    script: &[u8],
    disk: &mut D,
    out: &mut K,
    steps: &mut Steps<L>,
) -> Result<Reply, Stop>
    requires short { length script.now < 2 ^ 32 }
    requires fresh { IsFresh limits.now opened.old }
    requires ready { IsReady opened.old.journal (D.seen disk.old).bytes (D.may_leave disk.old) }
    // Whatever the script means, the session is the table's, and so is what stands.
    ensures told { (reading : Reading) → Means script.now reading → FollowsWatch (watch_script agent limits.now opened.old.replica.held reading).session (K.seen out.old) (K.seen out.new) result }
    ensures some { (reading : Reading) × Means script.now reading × FollowsWatch (watch_script agent limits.now opened.old.replica.held reading).session (K.seen out.old) (K.seen out.new) result }
    ensures kept { (reading : Reading) → Means script.now reading → KeepsLines D.may_leave D.moment D.left_since limits.now (watch_script agent limits.now opened.old.replica.held reading).kept opened.old.journal opened.new.journal disk.old disk.new (D.seen disk.old).bytes (D.seen disk.new).bytes (K.seen out.old) (K.seen out.new) result }
    ensures fits { AreBytes script.now }
    ensures plan { IfOk result IsTakenReply }
    ensures good { IfOk result (λ p. (reply_status p ≢ 3) × (reply_status p ≢ 4)) }
    ensures limits { opened.new.journal.limits ≡ limits.now }
    ensures tells { TellsAlike (D.seen disk.old).bytes (D.seen disk.new).bytes }
    ensures cause { KeepCauses (D.seen disk.old).faults (D.seen disk.new).faults (K.seen out.old).faults (K.seen out.new).faults result }
    ensures steps { steps.new ≡ steps.old }
{
    let edits = match read_script(alloc, script) {
        Ok(edits) => edits,
        Err(ScriptFault::OutOfMemory) => return Err(Stop::from(NoMem)),
        Err(ScriptFault::BadLine(line)) => {
            return Ok(Reply::Refuses(Refusal::Unreadable { line }));
        }
    };
    match keep_edits(alloc, agent, limits, opened, &edits, disk, out, steps)? {
        Some(refusal) => Ok(refusal),
        None => Ok(Reply::Prints(Vec::new(alloc))),
    }
}

/// Reads the input, and keeps it as a script.
fn keep_input<D: Disk, S: Source, K: Sink, L: Ledger>(
    alloc: Global,
    agent: Name,
    limits: &Limits,
    opened: &mut Opened,
    disk: &mut D,
    input: &mut S,
    out: &mut K,
    steps: &mut Steps<L>,
) -> Result<Reply, Stop>
    requires fresh { IsFresh limits.now opened.old }
    requires ready { IsReady opened.old.journal (D.seen disk.old).bytes (D.may_leave disk.old) }
    ensures told { KeepsInput D.may_leave D.moment D.left_since agent limits.now opened.old opened.new disk.old disk.new (D.seen disk.old).bytes (D.seen disk.new).bytes (S.seen input.old).left (K.seen out.old) (K.seen out.new) result }
    ensures some { (s : Session) × MayWatchOver agent limits.now (lines.opened opened.old.replica.held) s × FollowsWatch s (K.seen out.old) (K.seen out.new) result }
    ensures unread { IsOfSource result → (K.seen out.new ≡ K.seen out.old) × (disk.new ≡ disk.old) }
    ensures end { ReadsAll (S.seen input.old).left (S.seen input.new).left result }
    ensures few { TakesAtMost (limits.now.input + 1) (S.seen input.old).left (S.seen input.new).left }
    ensures ends { RisesOnceAtMost (S.seen input.old).ends (S.seen input.new).ends }
    ensures plan { IfOk result IsTakenReply }
    ensures good { IfOk result (λ p. (reply_status p ≢ 3) × (reply_status p ≢ 4)) }
    ensures limits { opened.new.journal.limits ≡ limits.now }
    ensures tells { TellsAlike (D.seen disk.old).bytes (D.seen disk.new).bytes }
    ensures cause { WatchCauses (D.seen disk.old).faults (D.seen disk.new).faults (S.seen input.old).faults (S.seen input.new).faults (K.seen out.old).faults (K.seen out.new).faults result }
    ensures steps { steps.new ≡ steps.old }
{
    let most = limits.input();
    match read_input(alloc, input, most)? {
        Input::TooLong => Ok(Reply::Refuses(Refusal::InputTooLong { most })),
        Input::Whole(script) => {
            keep_script(alloc, agent, limits, opened, &script, disk, out, steps)
        }
    }
}

/// Keeps the script that the input is in the journal of a disk: each line's events are appended, and then it is told how many they
/// are. The steps taken are at most the touches of the journal's events.
pub fn watch<D: Disk, S: Source, K: Sink, L: Ledger>(
    alloc: Global,
    agent: Name,
    limits: &Limits,
    disk: &mut D,
    input: &mut S,
    out: &mut K,
    steps: &mut Steps<L>,
) -> Result<Reply, Stop>
    // Over a journal and an input that are known the session is the table's, and so is what is kept.
    ensures told { (j : Journal) → TellsJournal limits.now (D.seen disk.old).bytes j → (xs : List ℕ) (reading : Reading) → (S.seen input.old).left ≡ Some xs → Means xs reading → FollowsWatch (table.watch agent limits.now j xs reading).session (K.seen out.old) (K.seen out.new) result }
    ensures some { (s : Session) × MayWatch agent limits.now s × FollowsWatch s (K.seen out.old) (K.seen out.new) result }
    ensures kept { (j : Journal) → TellsJournal limits.now (D.seen disk.old).bytes j → (xs : List ℕ) (reading : Reading) → (S.seen input.old).left ≡ Some xs → Means xs reading → KeepsJournal D.may_leave D.moment D.left_since limits.now j (table.watch agent limits.now j xs reading).kept disk.old disk.new (D.seen disk.old).bytes (D.seen disk.new).bytes (K.seen out.old) (K.seen out.new) result }
    ensures plan { IfOk result IsTakenReply }
    ensures found { IfOk result (λ p. reply_status p ≢ 3) }
    ensures end { ReadsAll (S.seen input.old).left (S.seen input.new).left result }
    ensures few { TakesAtMost (limits.now.input + 1) (S.seen input.old).left (S.seen input.new).left }
    ensures ends { RisesOnceAtMost (S.seen input.old).ends (S.seen input.new).ends }
    ensures unread { IsOfSource result → K.seen out.new ≡ K.seen out.old }
    ensures untouched { (j : Journal) → TellsJournal limits.now (D.seen disk.old).bytes j → IfRefused (open_journal limits.now j) (LeavesInput (S.seen input.old) (S.seen input.new)) }
    ensures refused { ReadsNone (S.seen input.old) (S.seen input.new) result }
    ensures tells { TellsAlike (D.seen disk.old).bytes (D.seen disk.new).bytes }
    ensures cause { WatchCauses (D.seen disk.old).faults (D.seen disk.new).faults (S.seen input.old).faults (S.seen input.new).faults (K.seen out.old).faults (K.seen out.new).faults result }
    ensures most { JournalTakes limits.now (D.seen disk.old).bytes steps.old steps.new }
{
    match open(alloc, limits, disk, steps)? {
        Found::Refused(why) => Ok(Reply::Refuses(why)),
        Found::Open(mut opened) => {
            keep_input(alloc, agent, limits, &mut opened, disk, input, out, steps)
        }
    }
}
