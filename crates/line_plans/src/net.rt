//! The command that runs a net script.
ghost use Rattle.std.specs.Prelude.{◌≡◌, ◌<◌, ◌≤◌, ◌+◌, length, IfOk, IfSome};
ghost use Rattle.ew_model.specs.Bytes.{AreBytes};
ghost use Rattle.command_table.specs.Possible.{MayReplyTo};
ghost use Rattle.command_table.specs.Reads.{TakesAtMost};
ghost use Rattle.command_table.specs.Table as table;
ghost use Rattle.command_table.specs.Table.{net_run_reply};
ghost use Rattle.ew_outside.specs.Counts.{RisesOnceAtMost};
ghost use Rattle.line_plans.specs.Sources.{ReadsAll, SourceCauses};
ghost use Rattle.peer_definitions.specs.Runs.{net_run};
ghost use Rattle.peer_definitions.specs.Machine.{empty_network};
ghost use Rattle.line_plans.specs.Nets.{StepRefuses, MayNetScript, PlansNetInput, PlansNetScript};
ghost use Rattle.opened_files.specs.Views.{IsTakenReply, reply_view};

use crate::edit::refuse_line;
use crate::input::{Input, read_input};
use command_texts::refusal::Refusal;
use ew_model::NoMem;
use ew_model::limits::Limits;
use ew_model::steps::Steps;
use ew_outside::{Fault, Source};
use net_core::{NetFault, run_script};
use opened_files::reply::Reply;
use replica::EditFault;
use script_reader::net::script::read_net;
use script_reader::net::step::NetStep;
use script_reader::script::ScriptFault;
use std::alloc::Global;
use std::sync::ledger::Ledger;

/// Why a step is refused.
fn refuse_step(limits: &Limits, line: u32, fault: NetFault) -> Result<Reply, NoMem>
    ensures told { StepRefuses limits.now line fault result }
    ensures plan { IfOk result IsTakenReply }
{
    match fault {
        NetFault::NoPeer(name) => Ok(Reply::Refuses(Refusal::NoPeer { line, name })),
        NetFault::PeerTwice(name) => Ok(Reply::Refuses(Refusal::PeerThere { line, name })),
        NetFault::NoPacket(packet) => Ok(Reply::Refuses(Refusal::NoPacket { line, packet })),
        NetFault::NoEvent(id) => Ok(Reply::Refuses(Refusal::NoEvent { line, id })),
        NetFault::OutOfRange { len } => { refuse_line(limits, line, EditFault::OutOfRange { len }) }
        NetFault::TooManyHeads { heads } => {
            refuse_line(limits, line, EditFault::TooManyHeads { heads })
        }
        NetFault::Full { count } => refuse_line(limits, line, EditFault::Full { count }),
        NetFault::OutOfMemory => Err(NoMem),
    }
}

/// Runs the steps of a script, and plans what is printed, or why a line is refused.
fn run_steps<L: Ledger>(
    alloc: Global,
    limits: &Limits,
    script: &[(u32, NetStep)],
    steps: &mut Steps<L>,
) -> Result<Reply, NoMem>
    requires { length script.now < 4294967295 }
    ensures told { IfOk result (λ p. reply_view p ≡ net_run_reply limits.now (net_run (empty_network limits.now) script.now)) }
    ensures plan { IfOk result IsTakenReply }
{
    match run_script(alloc, script, *limits, steps) {
        Ok(printed) => Ok(Reply::Prints(printed)),
        Err((line, fault)) => refuse_step(limits, line, fault),
    }
}

/// Reads all lines of a script, and then runs them.
fn run_net<L: Ledger>(
    alloc: Global,
    limits: &Limits,
    input: &[u8],
    steps: &mut Steps<L>,
) -> Result<Reply, NoMem>
    requires { length input.now ≤ limits.now.input }
    ensures told { PlansNetScript limits.now input.now result }
    ensures some { MayNetScript limits.now input.now result }
    ensures fits { AreBytes input.now }
    ensures plan { IfOk result IsTakenReply }
{
    let _most = limits.input();
    let script = match read_net(alloc, input) {
        Ok(script) => script,
        Err(ScriptFault::OutOfMemory) => return Err(NoMem),
        Err(ScriptFault::BadLine(line)) => {
            return Ok(Reply::Refuses(Refusal::Unreadable { line }));
        }
    };
    run_steps(alloc, limits, &script, steps)
}

/// Runs the net script that the input is, over peers of its own. Every line is read before the first is run, and nothing is
/// printed unless all were run.
pub fn net<S: Source, L: Ledger>(
    alloc: Global,
    limits: &Limits,
    input: &mut S,
    steps: &mut Steps<L>,
) -> Result<Reply, Fault>
    ensures told { IfSome (S.seen input.old).left (λ xs. PlansNetInput limits.now xs result) }
    ensures some { IfOk result (λ p. MayReplyTo table.net limits.now (reply_view p)) }
    ensures plan { IfOk result IsTakenReply }
    ensures end { ReadsAll (S.seen input.old).left (S.seen input.new).left result }
    ensures few { TakesAtMost (limits.now.input + 1) (S.seen input.old).left (S.seen input.new).left }
    ensures cause { SourceCauses (S.seen input.old).faults (S.seen input.new).faults result }
    ensures ends { RisesOnceAtMost (S.seen input.old).ends (S.seen input.new).ends }
{
    let most = limits.input();
    match read_input(alloc, input, most)? {
        Input::TooLong => Ok(Reply::Refuses(Refusal::InputTooLong { most })),
        Input::Whole(bytes) => Ok(run_net(alloc, limits, &bytes, steps)?),
    }
}
