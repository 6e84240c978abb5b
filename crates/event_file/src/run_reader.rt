//! The events of a file in runs.

ghost use Rattle.std.specs.Prelude.{◌≡◌, ◌<◌, [], None, IfOk, OnErr, IfSome, IfNone};
ghost use Rattle.file_words.specs.FileRuns.{ops_count, ops_in};
ghost use Rattle.event_file.specs.OpenRuns.{CanGoOn};
ghost use Rattle.event_file.specs.Rest.{runs_rest, IsNext, GoesOnBy, GoOnBy};
ghost use Rattle.event_file.specs.Runs.{ops_as};

use crate::fault::{FileFault, fault_of};
use crate::input::Input;
use crate::open_run::{OpenRun, go_on_in, go_on_run_in, is_done, next_of};
use crate::progress::Progress;
use crate::run_ops::RunOps;
use ew_model::event::{Event, Op};
use ew_model::id::Id;
use std::alloc::Global;
use std::marker::Model;

/// The events of runs, one at a time. A record is read whole before its first event is handed out. Contracts see what is
/// still to come, and which events of it are of the run that was read last.
#[derive(Drop)]
pub(crate) struct RunReader<'a> {
    progress: Progress,
    input: Input<'a>,
    /// How many events are in records that aren't read yet.
    left: u32,
    /// How many bytes stand before the digest.
    len: usize,
    /// The run that was read last.
    last_run: Option<OpenRun<'a>>,
}

impl<'a> Model for RunReader<'a> {
    ghost use Rattle.std.specs.Prelude.{◌+◌, ◌<◌, ◌^◌, length};
    ghost use Rattle.event_file.specs.Rest.{RunsRest, runs_rest};

    ghost Value = { RunsRest };

    ghost view = { λ r. runs_rest r.progress r.last_run r.left r.len r.input.left.now };

    ghost invariant = { λ r. length r.progress.events + r.left < 2 ^ 32 };
}

impl<'a> RunReader<'a> {
    /// Records of so many events, of a content that has so many bytes.
    pub(crate) fn new(progress: Progress, input: Input<'a>, left: u32, len: usize) -> RunReader<'a>
        requires { progress.events ≡ [] }
        ensures { result ≡ runs_rest progress None left len input.entry.left.now }
    {
        RunReader {
            progress,
            input,
            left,
            len,
            last_run: None,
        }
    }

    /// Where its memory is taken from.
    pub(crate) fn allocator(&self) -> Global {
        self.progress.allocator()
    }

    /// The next event as `EventReader::next_in` hands it out.
    #[tactic(auto, using(crate::proofs::RunRest::count_step, crate::proofs::RunRest::count_none))]
    pub(crate) fn next_in(&mut self, room: Vec<Id>) -> Result<Option<Event>, FileFault>
        ensures next { IsNext result self.old.rest self.new.rest }
        ensures end { IfOk result (λ event. event ≡ None → self.new ≡ self.old) }
        ensures err { OnErr result (self.new ≡ self.old) }
    {
        if !is_done(&self.last_run) {
            let event = next_of(&mut self.last_run, room)?;
            return Ok(Some(event));
        }
        if self.left == 0 {
            if let Err(stop) = self.progress.end(&self.input) {
                return Err(fault_of(stop, self.len));
            }
            return Ok(None);
        }
        match self
            .progress
            .next_run(room, &self.last_run, self.left, &mut self.input)
        {
            Ok(run) => {
                self.left -= run.ops.count() as u32;
                let mut rest = run.ops.again();
                let Some(op) = rest.take_first() else {
                    unreachable!()
                };
                self.last_run = Some(OpenRun::new(run.id, &run.ops, &rest));
                Ok(Some(Event {
                    id: run.id,
                    parents: run.parents,
                    op,
                }))
            }
            Err(stop) => Err(fault_of(stop, self.len)),
        }
    }

    /// The next operation as `EventReader::go_on` hands it out: that of the next event of the run. None only where all its events
    /// were handed out.
    pub(crate) fn go_on(&mut self) -> Option<Op>
        ensures some { IfSome result (λ op. GoesOnBy op self.old.rest self.new.rest) }
        ensures none { IfNone result ((self.old.behind ≡ []) × (self.new ≡ self.old)) }
    {
        go_on_in(&mut self.last_run)
    }

    /// The operations as `EventReader::go_on_run` hands them out: those of all events of the run that are still behind. None only
    /// where all its events were handed out.
    pub(crate) fn go_on_run(&mut self) -> Option<RunOps<'a>>
        ensures all { IfSome result (λ ops. GoOnBy (ops_in (ops_as ops)) self.old.rest self.new.rest) }
        ensures some { IfSome result (λ ops. 0 < ops_count (ops_as ops)) }
        ensures sound { IfSome result (λ ops. CanGoOn (ops_as ops)) }
        ensures done { IfSome result (λ ops. self.new.behind ≡ []) }
        ensures none { IfNone result ((self.old.behind ≡ []) × (self.new ≡ self.old)) }
    {
        go_on_run_in(&mut self.last_run)
    }
}
