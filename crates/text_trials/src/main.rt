//! Rows of what is made of bytes and characters: event files, the words of the editor, frames, runs of characters, texts, and files of
//! the system. They are carried out, and compared.
#![tactic(auto)]

mod file_rows;
mod frame_rows;
mod outside_rows;
mod rope_rows;
mod run_rows;
mod text_rows;
mod word_rows;

use std::alloc::Global;
use std::process::ExitCode;
use trial_rows::fault::Fault;
use trial_rows::groups::{Trials, carry_out};
use trial_rows::report::Report;

#[derive(Drop)]
struct TextTrials<'s> {
    system: &'s HostRuntime,
}

impl<'s> Trials for TextTrials<'s> {
    fn run<'a>(
        &mut self,
        kind: &str,
        words: &str,
        rows: &'a str,
        report: &mut Report<'a>,
    ) -> Result<(), Fault> {
        let alloc = self.system.alloc();
        match kind {
            "text" => text_rows::run(alloc, rows, report),
            "outside" => outside_rows::run(self.system, rows, report),
            _ => run_each(alloc, kind, words, rows, report),
        }
    }
}

/// Rows that stand each for itself.
fn run_each<'a>(
    alloc: Global,
    kind: &str,
    words: &str,
    rows: &'a str,
    report: &mut Report<'a>,
) -> Result<(), Fault> {
    for row in rows.split('\n') {
        let asked = report.ask(row)?;
        let answer = match kind {
            "file" => file_rows::answer(alloc, words, asked)?,
            "words" => word_rows::answer(alloc, asked)?,
            "frames" => frame_rows::answer(alloc, asked)?,
            "runs" => run_rows::answer(alloc, asked)?,
            "rope" => rope_rows::answer(alloc, asked)?,
            _ => return Err(Fault::Unreadable),
        };
        report.compare(answer.as_str())?;
    }
    Ok(())
}

fn main(rt: HostRuntime) -> ExitCode {
    let mut trials = TextTrials { system: &rt };
    carry_out(&rt, &mut trials)
}
