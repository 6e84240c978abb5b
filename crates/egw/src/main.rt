//! `egw`: collaborative plain text in event files.
#![tactic(auto)]

use command_runs::start::{end_starved, run_process};
use event_journal::FileDisk;
use ew_model::NoMem;
use ew_model::limits::Limits;
use ew_outside::{DirShelf, StdSink, StdSource};
use std::env;
use std::io::ErrorKind;
use std::marker::Brand;
use std::process::ExitCode;
use std::sync::ledger::Blank;

/// The words behind the program's name. Words that can't be read, as one that isn't UTF-8, are no words.
fn read_arguments(rt: &HostRuntime) -> Result<Vec<String>, NoMem> {
    let mut words = Vec::new(rt.alloc());
    match env::args(rt) {
        Ok(args) => {
            for word in args.skip(1) {
                words.push(word)?;
            }
        }
        Err(fault) if fault.kind() == ErrorKind::OutOfMemory => return Err(NoMem),
        Err(_) => {}
    }
    Ok(words)
}

/// The file in the current folder that holds the journal.
const JOURNAL: &str = "egw.journal";

/// Makes the shelf, the disk and the streams of the process, and runs its words over them.
fn main(rt: HostRuntime) -> ExitCode {
    let alloc = rt.alloc();
    let mut err = StdSink::new(rt.stderr());
    let Ok(words) = read_arguments(&rt) else {
        return end_starved(&mut err);
    };
    let Ok(journal) = String::from_str(alloc, JOURNAL) else {
        return end_starved(&mut err);
    };
    let mut shelf = DirShelf::new(alloc, &rt);
    let mut disk = FileDisk::new(&rt, journal);
    let mut input = StdSource::new(rt.stdin());
    let mut out = StdSink::new(rt.stdout());
    run_process::<Brand, _, _, _, _, _>(
        alloc,
        Blank::new(1),
        &words,
        &Limits::program(),
        &mut shelf,
        &mut disk,
        &mut input,
        &mut out,
        &mut err,
    )
}
