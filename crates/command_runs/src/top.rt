//! The top call.
ghost use Rattle.std.specs.Prelude.{◌≡◌, false, None, Some, map, string_bytes};
ghost use Rattle.std.specs.Option.{option_map};
ghost use Rattle.command_table.specs.Crashes.{OutlastsCrashes};
ghost use Rattle.command_table.specs.Headline.{IsRun, IsRunOf};
ghost use Rattle.command_table.specs.Reads.{uses_journal};
ghost use Rattle.event_journal.specs.Disk.{DiskSeen};
ghost use Rattle.journal_plans.specs.Opening.{JournalTakes};
ghost use Rattle.command_runs.specs.Endings.{EndsKept};
ghost use Rattle.command_table.specs.Seen.{seen};
ghost use Rattle.command_table.specs.Table.{exports, line_of, watches};
ghost use Rattle.command_reader.specs.Words.{line_view};
ghost use Rattle.command_runs.specs.LineTouches.{LineTakes};

use crate::ending::{carry_out, tell, tell_disk};
use crate::plan::plan;
use command_reader::words::{Line, read_words};
use event_journal::Disk;
use ew_model::NoMem;
use ew_model::limits::Limits;
use ew_model::name::Name;
use ew_model::steps::Steps;
use ew_outside::{Fault, Shelf, Sink, Source};
use journal_plans::export::export;
use journal_plans::stop::Stop;
use journal_plans::watch::watch;
use opened_files::reply::Reply;
use std::alloc::Global;
use std::sync::ledger::Ledger;

/// Carries out what was planned over the journal, and tells what there is to tell.
fn end_kept<H: Shelf, K: Sink, E: Sink>(
    alloc: Global,
    planned: Result<Reply, Stop>,
    shelf: &mut H,
    out: &mut K,
    err: &mut E,
) -> u8
    ensures ends { EndsKept planned (H.seen shelf.old) (H.seen shelf.new) (K.seen out.old) (K.seen out.new) (E.seen err.old) (E.seen err.new) result }
{
    match planned {
        Err(Stop::Disk) => tell_disk(err),
        Err(Stop::Fault(fault)) => tell(Err(fault), err),
        Ok(reply) => tell(carry_out(alloc, Ok(reply), shelf, out), err),
    }
}

/// Keeps a script in the journal.
fn run_watch<H: Shelf, D: Disk, S: Source, K: Sink, E: Sink, L: Ledger>(
    alloc: Global,
    agent: Name,
    limits: &Limits,
    shelf: &mut H,
    disk: &mut D,
    input: &mut S,
    out: &mut K,
    err: &mut E,
    steps: &mut Steps<L>,
) -> u8
    ensures run { IsRunOf (Some (watches agent)) limits.now (seen (H.seen shelf.old) (D.seen disk.old) (S.seen input.old) (K.seen out.old) (E.seen err.old)) (seen (H.seen shelf.new) (D.seen disk.new) (S.seen input.new) (K.seen out.new) (E.seen err.new)) result }
    ensures crashes { OutlastsCrashes D.may_leave D.moment D.left_since (Some (watches agent)) limits.now (seen (H.seen shelf.old) (D.seen disk.old) (S.seen input.old) (K.seen out.old) (E.seen err.old)) (seen (H.seen shelf.new) (D.seen disk.new) (S.seen input.new) (K.seen out.new) (E.seen err.new)) disk.old disk.new result }
    ensures most { JournalTakes limits.now (D.seen disk.old).bytes steps.old steps.new }
{
    // A limit that is read tells the range of all of them.
    let _ = limits.body();
    let planned = watch(alloc, agent, limits, disk, input, out, steps);
    end_kept(alloc, planned, shelf, out, err)
}

/// Makes a file of the journal's events.
fn run_export<H: Shelf, D: Disk, S: Source, K: Sink, E: Sink, L: Ledger>(
    alloc: Global,
    file: &str,
    limits: &Limits,
    shelf: &mut H,
    disk: &mut D,
    input: &mut S,
    out: &mut K,
    err: &mut E,
    steps: &mut Steps<L>,
) -> u8
    ensures run { IsRunOf (Some (exports file.now)) limits.now (seen (H.seen shelf.old) (D.seen disk.old) (S.seen input.old) (K.seen out.old) (E.seen err.old)) (seen (H.seen shelf.new) (D.seen disk.new) (S.seen input.new) (K.seen out.new) (E.seen err.new)) result }
    ensures crashes { OutlastsCrashes D.may_leave D.moment D.left_since (Some (exports file.now)) limits.now (seen (H.seen shelf.old) (D.seen disk.old) (S.seen input.old) (K.seen out.old) (E.seen err.old)) (seen (H.seen shelf.new) (D.seen disk.new) (S.seen input.new) (K.seen out.new) (E.seen err.new)) disk.old disk.new result }
    ensures most { JournalTakes limits.now (D.seen disk.old).bytes steps.old steps.new }
{
    let planned = export(alloc, file, limits, shelf, disk, steps);
    end_kept(alloc, planned, shelf, out, err)
}

/// Runs a line that has no use for the journal, or answers the usage where there is none.
fn run_plain<H: Shelf, S: Source, K: Sink, E: Sink, L: Ledger>(
    alloc: Global,
    line: Option<Line<'_>>,
    limits: &Limits,
    shelf: &mut H,
    input: &mut S,
    out: &mut K,
    err: &mut E,
    steps: &mut Steps<L>,
) -> u8
    requires plain { uses_journal (option_map line_view line) ≡ false }
    ensures run { (disk : DiskSeen) → IsRunOf (option_map line_view line.entry) limits.now (seen (H.seen shelf.old) disk (S.seen input.old) (K.seen out.old) (E.seen err.old)) (seen (H.seen shelf.new) disk (S.seen input.new) (K.seen out.new) (E.seen err.new)) result }
    ensures most { LineTakes (option_map line_view line.entry) limits.now (H.seen shelf.old).files None (S.seen input.old).left steps.old steps.new }
{
    let planned = plan(alloc, line, limits, shelf, input, out, steps);
    let ending = carry_out(alloc, planned, shelf, out);
    tell(ending, err)
}

/// Runs a line, or answers the usage where there is none.
fn run_line<H: Shelf, D: Disk, S: Source, K: Sink, E: Sink, L: Ledger>(
    alloc: Global,
    line: Option<Line<'_>>,
    limits: &Limits,
    shelf: &mut H,
    disk: &mut D,
    input: &mut S,
    out: &mut K,
    err: &mut E,
    steps: &mut Steps<L>,
) -> u8
    ensures run { IsRunOf (option_map line_view line.entry) limits.now (seen (H.seen shelf.old) (D.seen disk.old) (S.seen input.old) (K.seen out.old) (E.seen err.old)) (seen (H.seen shelf.new) (D.seen disk.new) (S.seen input.new) (K.seen out.new) (E.seen err.new)) result }
    ensures crashes { OutlastsCrashes D.may_leave D.moment D.left_since (option_map line_view line.entry) limits.now (seen (H.seen shelf.old) (D.seen disk.old) (S.seen input.old) (K.seen out.old) (E.seen err.old)) (seen (H.seen shelf.new) (D.seen disk.new) (S.seen input.new) (K.seen out.new) (E.seen err.new)) disk.old disk.new result }
    ensures most { LineTakes (option_map line_view line.entry) limits.now (H.seen shelf.old).files (D.seen disk.old).bytes (S.seen input.old).left steps.old steps.new }
{
    match &line {
        Some(Line::Watches(agent)) => {
            run_watch(alloc, *agent, limits, shelf, disk, input, out, err, steps)
        }
        Some(Line::Exports(file)) => {
            run_export(alloc, file, limits, shelf, disk, input, out, err, steps)
        }
        _ => run_plain(alloc, line, limits, shelf, input, out, err, steps),
    }
}

/// Runs one command line, without the program's name, and answers the status. Over a shelf, a disk and an input that tell what they
/// hold, what it prints, says, stores, keeps and answers is what the command table says, except where a count of faults rose (status
/// 6) or memory ran out (status 8). Over others all that doesn't speak of what they hold is so too: `IsRun` has the clauses by name.
/// What a crash leaves of the journal, after the run and inside it, is in the clause `crashes`. The steps taken are at most the touches
/// of loading the files, or the journal, and of what the command walks after that.
pub fn run<H: Shelf, D: Disk, S: Source, K: Sink, E: Sink, L: Ledger>(
    alloc: Global,
    words: &[String],
    limits: &Limits,
    shelf: &mut H,
    disk: &mut D,
    input: &mut S,
    out: &mut K,
    err: &mut E,
    steps: &mut Steps<L>,
) -> u8
    ensures run { IsRun (map string_bytes words.now) limits.now (seen (H.seen shelf.old) (D.seen disk.old) (S.seen input.old) (K.seen out.old) (E.seen err.old)) (seen (H.seen shelf.new) (D.seen disk.new) (S.seen input.new) (K.seen out.new) (E.seen err.new)) result }
    ensures crashes { OutlastsCrashes D.may_leave D.moment D.left_since (line_of (map string_bytes words.now)) limits.now (seen (H.seen shelf.old) (D.seen disk.old) (S.seen input.old) (K.seen out.old) (E.seen err.old)) (seen (H.seen shelf.new) (D.seen disk.new) (S.seen input.new) (K.seen out.new) (E.seen err.new)) disk.old disk.new result }
    ensures most { LineTakes (line_of (map string_bytes words.now)) limits.now (H.seen shelf.old).files (D.seen disk.old).bytes (S.seen input.old).left steps.old steps.new }
{
    match read_words(alloc, words) {
        Err(NoMem) => tell(Err(Fault::OutOfMemory), err),
        Ok(line) => run_line(alloc, line, limits, shelf, disk, input, out, err, steps),
    }
}
