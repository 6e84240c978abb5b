//! Groups of rows, and the one way to run them.

use crate::fault::Fault;
use crate::input::{read_all, status};
use crate::report::Report;
use crate::words::first_word;
use ew_model::NoMem;
use std::alloc::Global;
use std::process::ExitCode;

/// A program of trials: it knows some kinds of groups.
pub trait Trials {
    /// Carries out the rows of a group: its kind, the words after it, and its rows.
    fn run<'a>(
        &mut self,
        kind: &str,
        words: &str,
        rows: &'a str,
        report: &mut Report<'a>,
    ) -> Result<(), Fault>;
}

/// Carries out all groups of the standard input, and prints what is told of them. Begins again, once, where memory ran out.
/// The status is 0, or 1 where a row differed, or 3 where receiving stopped on the way, and went on.
pub fn carry_out<T: Trials>(system: &HostRuntime, trials: &mut T) -> ExitCode {
    let Some(bytes) = read_all(system.alloc(), system.stdin()) else {
        return ExitCode::FAILURE;
    };
    let Ok(text) = str::from_utf8(bytes.as_slice()) else {
        return ExitCode::FAILURE;
    };
    for _ in 0..2 {
        if let Ok(report) = run_groups(system.alloc(), text, trials) {
            let _ = system.print(report.told());
            return status(&report);
        }
    }
    ExitCode::FAILURE
}

fn run_groups<'a, T: Trials>(
    alloc: Global,
    text: &'a str,
    trials: &mut T,
) -> Result<Report<'a>, NoMem> {
    let mut report = Report::new(alloc);
    for group in text.split("\n\n") {
        let (head, rows) = group.split_once('\n').unwrap_or((group, ""));
        run_group(trials, head, rows.trim_end_matches('\n'), &mut report)?;
    }
    Ok(report)
}

fn run_group<'a, T: Trials>(
    trials: &mut T,
    head: &'a str,
    rows: &'a str,
    report: &mut Report<'a>,
) -> Result<(), NoMem> {
    let (about, title) = head.split_once(": ").unwrap_or((head, ""));
    let (kind, words) = first_word(about);
    match trials.run(kind, words, rows, report) {
        Ok(()) => {}
        Err(Fault::Unreadable) => report.unreadable()?,
        Err(Fault::OutOfMemory) => return Err(NoMem),
    }
    report.end(title)
}
