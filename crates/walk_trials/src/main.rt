//! Rows of the walker: walks over histories and from their cuts, replays, lines of calls of its state, and of the counted tree below
//! it. They are carried out, and compared.
#![tactic(auto)]

mod calls;
mod cut_rows;
mod guarded;
mod line_calls;
mod line_rows;
mod order;
mod order_rows;
mod order_sizes;
mod series;
mod walk_rows;

ghost use Rattle.std.specs.Prelude.{◌≡◌, ◌<◌};

use ew_model::steps::Steps;
use std::alloc::Global;
use std::marker::Brand;
use std::process::ExitCode;
use std::sync::ledger::{Blank, Ledger};
use trial_rows::fault::Fault;
use trial_rows::groups::{Trials, carry_out};
use trial_rows::report::Report;

#[derive(Drop)]
struct WalkTrials<L: Ledger> {
    alloc: Global,
    steps: Steps<L>,
}

impl<L: Ledger> Trials for WalkTrials<L> {
    fn run<'a>(
        &mut self,
        kind: &str,
        words: &str,
        rows: &'a str,
        report: &mut Report<'a>,
    ) -> Result<(), Fault> {
        match kind {
            "walk" => walk_rows::run(self.alloc, words, rows, report, &mut self.steps),
            "replay" => walk_rows::run_replays(self.alloc, rows, report, &mut self.steps),
            "cut" => cut_rows::run(self.alloc, rows, report, &mut self.steps),
            "line" => line_rows::run(self.alloc, words, rows, report, &mut self.steps),
            "order" => order_rows::run(self.alloc, rows, report, &mut self.steps),
            _ => Err(Fault::Unreadable),
        }
    }
}

/// Carries all groups out, over a ledger.
fn carry_out_by<L: Ledger>(system: &HostRuntime, blank: Blank) -> ExitCode
    requires name { blank.name ≡ L.name }
    requires parts { blank.parts ≡ L.parts }
    requires some { 0 < blank.parts }
{
    let mut trials: WalkTrials<L> = WalkTrials {
        alloc: system.alloc(),
        steps: Steps::new(blank),
    };
    carry_out(system, &mut trials)
}

fn main(rt: HostRuntime) -> ExitCode {
    carry_out_by::<Brand>(&rt, Blank::new(1))
}
