//! Rows of a journal in a file of the system.

use crate::appending::append_all;
use crate::batches::Batches;
use event_journal::FileDisk;
use trial_rows::fault::Fault;
use trial_rows::report::Report;
use trial_rows::show;
use trial_rows::words::first_word;

/// `PATH EVENTS BODY BATCHES` appends the batches, and tells what each call answers and how many calls failed. With `two` before it a
/// second disk of the same path does so while the first is open.
pub fn run<'a>(system: &HostRuntime, rows: &'a str, report: &mut Report<'a>) -> Result<(), Fault> {
    for row in rows.split('\n') {
        let asked = report.ask(row)?;
        let answer = match asked.strip_prefix("two ") {
            Some(asked) => in_two_disks(system, asked)?,
            None => in_a_disk(system, asked)?,
        };
        report.compare(answer.as_str())?;
    }
    Ok(())
}

fn in_a_disk(system: &HostRuntime, asked: &str) -> Result<String, Fault> {
    let alloc = system.alloc();
    let (path, words) = first_word(asked);
    let batches = Batches::read(alloc, words)?;
    let mut disk = FileDisk::new(system, show::text(alloc, path)?);
    let told = append_all(alloc, &mut disk, &batches.limits, &batches.batches)?;
    let faults = disk.faults();
    Ok(format!(in alloc; "{told}; faults {faults}")?)
}

fn in_two_disks(system: &HostRuntime, asked: &str) -> Result<String, Fault> {
    let alloc = system.alloc();
    let (path, words) = first_word(asked);
    let batches = Batches::read(alloc, words)?;
    let mut first = FileDisk::new(system, show::text(alloc, path)?);
    let told = append_all(alloc, &mut first, &batches.limits, &batches.batches)?;
    let other = in_a_disk(system, asked)?;
    let faults = first.faults();
    Ok(format!(in alloc; "{told}; faults {faults}; at once {other}")?)
}
