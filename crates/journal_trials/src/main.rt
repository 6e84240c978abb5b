//! Rows of journals, on disks in memory and in files of the system. They are carried out, and compared.
#![tactic(auto)]

mod answers;
mod appending;
mod batches;
mod calls;
mod file_rows;
mod memory_rows;

use std::process::ExitCode;
use trial_rows::fault::Fault;
use trial_rows::groups::{Trials, carry_out};
use trial_rows::report::Report;

#[derive(Drop)]
struct JournalTrials<'s> {
    system: &'s HostRuntime,
}

impl<'s> Trials for JournalTrials<'s> {
    fn run<'a>(
        &mut self,
        kind: &str,
        words: &str,
        rows: &'a str,
        report: &mut Report<'a>,
    ) -> Result<(), Fault> {
        match kind {
            "journal" => memory_rows::run(self.system.alloc(), words, rows, report),
            "journals" => file_rows::run(self.system, rows, report),
            _ => Err(Fault::Unreadable),
        }
    }
}

fn main(rt: HostRuntime) -> ExitCode {
    let mut trials = JournalTrials { system: &rt };
    carry_out(&rt, &mut trials)
}
