//! Rows of histories: definitions, graphs, the runs in which events, ids and cuts are kept, events that wait, and replicas that edit
//! and receive. They are carried out, and compared. It has to print the same whichever growth of memory is refused.
#![tactic(auto)]

mod conditions;
mod definition_rows;
mod graph_rows;
mod history_rows;
mod kept;
mod pieces;
mod plain;
mod pool_rows;
mod readback;
mod replica_rows;

ghost use Rattle.std.specs.Prelude.{◌≡◌, ◌<◌};

use ew_model::steps::Steps;
use std::alloc::Global;
use std::marker::Brand;
use std::process::ExitCode;
use std::sync::ledger::{Blank, Ledger};
use trial_rows::fault::Fault;
use trial_rows::groups::{Trials, carry_out};
use trial_rows::report::Report;

#[derive(Drop)]
struct HistoryTrials<L: Ledger> {
    alloc: Global,
    steps: Steps<L>,
}

impl<L: Ledger> Trials for HistoryTrials<L> {
    fn run<'a>(
        &mut self,
        kind: &str,
        words: &str,
        rows: &'a str,
        report: &mut Report<'a>,
    ) -> Result<(), Fault> {
        match kind {
            "definitions" => definition_rows::run(self.alloc, rows, report),
            "graph" => graph_rows::run(self.alloc, rows, report),
            "history" => history_rows::run(self.alloc, rows, report),
            "pool" => pool_rows::run(self.alloc, words, rows, report),
            "waiting" => pool_rows::run_alone(self.alloc, words, rows, report),
            "replica" => replica_rows::run(self.alloc, words, rows, report, &mut self.steps),
            _ => Err(Fault::Unreadable),
        }
    }
}

/// Carries all groups out, over a ledger.
fn carry_out_by<L: Ledger>(system: &HostRuntime, blank: Blank) -> ExitCode
    requires name { blank.name ≡ L.name }
    requires parts { blank.parts ≡ L.parts }
    requires some { 0 < blank.parts }
{
    let mut trials: HistoryTrials<L> = HistoryTrials {
        alloc: system.alloc(),
        steps: Steps::new(blank),
    };
    carry_out(system, &mut trials)
}

fn main(rt: HostRuntime) -> ExitCode {
    carry_out_by::<Brand>(&rt, Blank::new(1))
}
