//! A run whose steps nobody counts, and what a process ends with.
ghost use Rattle.std.specs.Prelude.{◌≡◌, ◌<◌, map, string_bytes};
ghost use Rattle.std.specs.Process.{exit_status};
ghost use Rattle.command_table.specs.Headline.{IsRun};
ghost use Rattle.command_table.specs.Seen.{seen};
ghost use Rattle.ew_outside.specs.Bytes.{IsFlushed};
ghost use Rattle.ew_outside.specs.Counts.{IsQuiet};
ghost use Rattle.ew_outside.specs.Outputs.{Tells};
ghost use Rattle.command_table.specs.Text.{out_of_memory};

use crate::ending::tell;
use crate::top::run;
use event_journal::Disk;
use ew_model::limits::Limits;
use ew_model::steps::Steps;
use ew_outside::{Fault, Shelf, Sink, Source};
use std::alloc::Global;
use std::process::ExitCode;
use std::sync::ledger::{Blank, Ledger};

/// Runs a command line over a ledger of its own.
pub fn run_uncounted<L: Ledger, H: Shelf, D: Disk, S: Source, K: Sink, E: Sink>(
    alloc: Global,
    blank: Blank,
    words: &[String],
    limits: &Limits,
    shelf: &mut H,
    disk: &mut D,
    input: &mut S,
    out: &mut K,
    err: &mut E,
) -> u8
    requires name { blank.name ≡ L.name }
    requires parts { blank.parts ≡ L.parts }
    requires some { 0 < blank.parts }
    ensures run { IsRun (map string_bytes words.now) limits.now (seen (H.seen shelf.old) (D.seen disk.old) (S.seen input.old) (K.seen out.old) (E.seen err.old)) (seen (H.seen shelf.new) (D.seen disk.new) (S.seen input.new) (K.seen out.new) (E.seen err.new)) result }
{
    let mut steps = Steps::<L>::new(blank);
    run(
        alloc, words, limits, shelf, disk, input, out, err, &mut steps,
    )
}

/// Runs a command line, and answers its status as that of the process.
pub fn run_process<L: Ledger, H: Shelf, D: Disk, S: Source, K: Sink, E: Sink>(
    alloc: Global,
    blank: Blank,
    words: &[String],
    limits: &Limits,
    shelf: &mut H,
    disk: &mut D,
    input: &mut S,
    out: &mut K,
    err: &mut E,
) -> ExitCode
    requires name { blank.name ≡ L.name }
    requires parts { blank.parts ≡ L.parts }
    requires some { 0 < blank.parts }
    ensures { IsRun (map string_bytes words.now) limits.now (seen (H.seen shelf.old) (D.seen disk.old) (S.seen input.old) (K.seen out.old) (E.seen err.old)) (seen (H.seen shelf.new) (D.seen disk.new) (S.seen input.new) (K.seen out.new) (E.seen err.new)) (exit_status result) }
{
    ExitCode::from(run_uncounted::<L, H, D, S, K, E>(
        alloc, blank, words, limits, shelf, disk, input, out, err,
    ))
}

/// The end of a process that had no memory for its words.
pub fn end_starved<E: Sink>(err: &mut E) -> ExitCode
    ensures status { exit_status result ≡ 8 }
    ensures text { Tells (E.seen err.old).taken (E.seen err.new).taken (E.seen err.old).faults (E.seen err.new).faults out_of_memory }
    ensures flushed { IsQuiet (E.seen err.old).faults (E.seen err.new).faults → IsFlushed (E.seen err.new).taken (E.seen err.new).flushed }
{
    ExitCode::from(tell(Err(Fault::OutOfMemory), err))
}
