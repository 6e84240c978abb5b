//! Trials of command lines: rows are read from the standard input, each is run by `run` over files, a journal, an input and outputs in
//! memory, and what comes is compared with the answer that stands in the row. For each group it prints how many rows were compared, and
//! each row that differs with what came.
//!
//! Groups are parted by an empty line. The first line of a group tells its limits, `program` or four numbers, and behind a colon
//! its title; a group begins with an empty shelf and an empty journal. The other lines are rows, carried out in turn. In a text `%`
//! and two hexadecimal digits are a byte.
//!
//! These rows make ready, and have no answer:
//! - `bytes NAME TEXT` names bytes, for all that follows; `more NAME COUNT TEXT` puts a text so many times behind those of a name,
//!   `front NAME OF COUNT` names the first bytes of others, and `sealed NAME OF` others with their SHA-256 digest behind them;
//! - `file FILE NAME` stores named bytes, and `journal NAME` makes them the journal;
//! - `in TEXT` and `in_bytes NAME` are the input of the next run, and `slow N` lets it give at most so many bytes at a time;
//! - `fail OBJECT N..` lets the calls with these numbers of the next run fail, of `shelf`, `disk`, `source`, `out` or `err`, each counted
//!   from 0; `land N..` lets the bytes of a store that fails land all the same, and `tear N` so many of the first bytes of a write to
//!   the disk;
//! - `piece N` lets the output take at most so many bytes at a time in the next run, and `err_piece N` the error output;
//! - `room N` leaves the output of the next run room for so many bytes, and each write fails that finds none.
//!
//! These have an answer, behind ` =`:
//! - `run WORDS` runs a command line, with `|` between two words where one has a space. The answer is the status, ` out ` and what was
//!   printed, if anything was, and ` err ` and what was said;
//! - `ends WORDS` runs one too, and the answer is the status alone; `printed NAME` is whether these bytes were printed in the last run:
//!   `yes` or `no`;
//! - `calls` is how often the shelf, the disk, the source, the output and the error output were called in the last run, and how many
//!   bytes of the input were left;
//! - `flushed` is how many bytes of the output were flushed in the last run;
//! - `same FILE NAME` is whether the file has these bytes: `yes`, `no`, or `no file`;
//! - `kept NAME` is whether the journal has them: `yes` or `no`.
#![tactic(auto)]

mod groups;
mod narrow;
mod run;
mod setting;
mod slow;
mod words;
mod world;

use crate::groups::run_rows;
use crate::world::World;
use std::process::ExitCode;
use trial_rows::fault::Fault;
use trial_rows::groups::{Trials, carry_out};
use trial_rows::report::Report;

/// Named bytes stay from group to group.
#[derive(Drop)]
struct CommandTrials {
    world: World,
}

impl Trials for CommandTrials {
    fn run<'a>(
        &mut self,
        kind: &str,
        words: &str,
        rows: &'a str,
        report: &mut Report<'a>,
    ) -> Result<(), Fault> {
        run_rows(&mut self.world, kind, words, rows, report)
    }
}

fn main(rt: HostRuntime) -> ExitCode {
    let mut trials = CommandTrials {
        world: World::new(rt.alloc()),
    };
    carry_out(&rt, &mut trials)
}
