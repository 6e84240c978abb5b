//! Whole net scripts.

ghost use Rattle.std.specs.Prelude.{◌<◌, length};
ghost use Rattle.net_core.specs.Answers.{RunsTo, told_bytes};

use crate::fault::NetFault;
use crate::net::Net;
use ew_model::limits::Limits;
use ew_model::steps::Steps;
use script_reader::net::step::NetStep;
use std::alloc::Global;
use std::sync::ledger::Ledger;

/// What all steps print, or the number of the first line that is refused, and why.
pub fn run_script<L: Ledger>(
    alloc: Global,
    script: &[(u32, NetStep)],
    limits: Limits,
    steps: &mut Steps<L>,
) -> Result<Vec<u8>, (u32, NetFault)>
    requires { length script.now < 4294967295 }
    ensures { RunsTo limits script.now (told_bytes result) }
{
    let mut out = Vec::new(alloc);
    let mut net = Net::empty(alloc, limits);
    for (line, step) in script {
        match net.step(step, steps) {
            Ok(printed) => {
                if out.extend_from_slice(&printed).is_err() {
                    return Err((*line, NetFault::OutOfMemory));
                }
            }
            Err(fault) => return Err((*line, fault)),
        }
    }
    Ok(out)
}
