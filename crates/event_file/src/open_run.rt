//! A run whose events are handed out one at a time.

ghost use Rattle.std.specs.Prelude.{◌≡◌, ◌↔◌, ◌&&◌, [], ◌∷◌, ◌+◌, ◌<◌, ◌≤◌, ◌^◌, IsTrue, IfOk, IfSome, IfNone, OnErr};
ghost use Rattle.history_definitions.specs.Chains.{next_id, event_behind};
ghost use Rattle.file_words.specs.FileRuns.{ops_count, ops_in, takes_step, first_op, is_next_id, are_only, continues};
ghost use Rattle.event_file.specs.OpenRuns.{IsStepOf, IsNextOf, IsOpOf, IsRestOf, IsRestIn, CanGoOn, events_behind};
ghost use Rattle.event_file.specs.Runs.{ops_as};

use crate::run_ops::RunOps;
use ew_model::NoMem;
use ew_model::event::{Event, Op};
use ew_model::id::Id;
use ew_model::parents::Parents;
use std::marker::Model;
use std::mem;

/// A run of which at least one event was handed out. Contracts see the run, the id that was handed out last, and what the
/// events behind do.
#[derive(Drop)]
pub(crate) struct OpenRun<'a> {
    /// The number of its first event.
    seq: u32,
    ops: RunOps<'a>,
    /// The id that was handed out last.
    last: Id,
    /// What the events behind that do.
    rest: RunOps<'a>,
}

impl<'a> Model for OpenRun<'a> {
    ghost use Rattle.std.specs.Prelude.{◌+◌, ◌<◌, ◌≤◌, ◌^◌, []};
    ghost use Rattle.file_words.specs.FileRuns.{ops_count, ops_in};
    ghost use Rattle.event_file.specs.OpenRuns.{Opened, CanGoOn};

    ghost Value = { Opened };

    ghost use Rattle.event_file.specs.Runs.{ops_as};

    ghost view = { λ r. record { run = record { id = record { agent = r.last.agent; seq = r.seq }; parents = []; ops = ops_as r.ops }; last = r.last; rest = ops_in (ops_as r.rest) } };

    ghost invariant = { λ r. CanGoOn (ops_as r.rest) × (r.last.seq + ops_count (ops_as r.rest) < 2 ^ 32)
        × (0 < ops_count (ops_as r.ops)) × (r.seq + ops_count (ops_as r.ops) ≤ 2 ^ 32) };
}

impl<'a> OpenRun<'a> {
    /// A run of which the first event, with this id, was handed out, and `rest` tells what the events behind do.
    pub(crate) fn new(id: Id, ops: &RunOps<'a>, rest: &RunOps<'a>) -> OpenRun<'a>
        requires sound { CanGoOn (ops_as rest.now) }
        requires number { id.seq + ops_count (ops_as rest.now) < 2 ^ 32 }
        requires some { 0 < ops_count (ops_as ops.now) }
        requires fits { id.seq + ops_count (ops_as ops.now) ≤ 2 ^ 32 }
        ensures { result ≡ record { run = record { id = id; parents = []; ops = ops_as ops.now }; last = id; rest = ops_in (ops_as rest.now) } }
    {
        OpenRun {
            seq: id.seq,
            ops: ops.again(),
            last: id,
            rest: rest.again(),
        }
    }

    /// Whether all its events were handed out.
    pub(crate) fn is_done(&self) -> bool
        ensures { IsTrue result ↔ (self.now.rest ≡ []) }
    {
        self.rest.count() == 0
    }

    /// Hands out the operation of the next event, if there is one.
    pub(crate) fn go_on(&mut self) -> Option<Op>
        ensures some { IfSome result (λ op. IsStepOf op self.old self.new) }
        ensures none { IfNone result ((self.old.rest ≡ []) × (self.new ≡ self.old)) }
    {
        let op = self.rest.take_first()?;
        self.last.seq += 1;
        Some(op)
    }

    /// Hands out the operations of all events behind, if there is one.
    pub(crate) fn go_on_run(&mut self) -> Option<RunOps<'a>>
        ensures all { IfSome result (λ ops. IsRestOf (ops_in (ops_as ops)) self.old self.new) }
        ensures some { IfSome result (λ ops. 0 < ops_count (ops_as ops)) }
        ensures sound { IfSome result (λ ops. CanGoOn (ops_as ops)) }
        ensures none { IfNone result ((self.old.rest ≡ []) × (self.new ≡ self.old)) }
    {
        let count = self.rest.count();
        if count == 0 {
            return None;
        }
        self.last.seq += count as u32;
        Some(mem::replace(&mut self.rest, RunOps::Deletions { at: 0, count: 0 }))
    }

    /// Hands out the next event, of which there is one. Its parent is put into the room.
    pub(crate) fn next(&mut self, room: Vec<Id>) -> Result<Event, NoMem>
        requires { self.old.rest ≡ [] → ⊥ }
        ensures event { IfOk result (λ e. e ≡ event_behind self.old.last e.op) }
        ensures step { IfOk result (λ e. IsStepOf e.op self.old self.new) }
        ensures err { OnErr result (self.new ≡ self.old) }
    {
        let mut parents = room;
        parents.clear();
        parents.reserve_exact(1)?;
        parents.push_reserved(self.last);
        let Some(op) = self.go_on() else {
            unreachable!()
        };
        Ok(Event {
            id: self.last,
            parents: Parents::from_vec(parents),
            op,
        })
    }

    /// Whether an insertion or a deletion, by its kind, with this id and these parents continues the run.
    pub(crate) fn is_continued_by(&self, id: &Id, parents: &[Id], kind: u8, at: u32) -> bool
        ensures { result ≡ continues self.now.run (record { id = id.now; parents = parents.now; op = first_op kind at }) }
    {
        let last = Id {
            agent: self.last.agent,
            seq: self.seq + (self.ops.count() - 1) as u32,
        };
        goes_on(&last, &self.ops, id, parents, kind, at)
    }
}

/// Whether there is no run, or all its events were handed out.
pub(crate) fn is_done(opened: &Option<OpenRun>) -> bool
    ensures { IsTrue result ↔ (events_behind opened.now ≡ []) }
{
    match opened {
        Some(run) => run.is_done(),
        None => true,
    }
}

/// Hands out the next event of a run that has one, with its parent in the room.
pub(crate) fn next_of(opened: &mut Option<OpenRun>, room: Vec<Id>) -> Result<Event, NoMem>
    requires { events_behind opened.old ≡ [] → ⊥ }
    ensures ok { IfOk result (λ e. IsNextOf e opened.old opened.new) }
    ensures err { OnErr result (opened.new ≡ opened.old) }
{
    match opened {
        Some(run) => run.next(room),
        None => unreachable!(),
    }
}

/// Hands out the operation of the next event of a run, if there is one.
pub(crate) fn go_on_in(opened: &mut Option<OpenRun>) -> Option<Op>
    ensures some { IfSome result (λ op. IsOpOf op opened.old opened.new) }
    ensures none { IfNone result ((events_behind opened.old ≡ []) × (opened.new ≡ opened.old)) }
{
    match opened {
        Some(run) => run.go_on(),
        None => None,
    }
}

/// Hands out the operations of all events of a run that are still behind, if there is one.
pub(crate) fn go_on_run_in<'a>(opened: &mut Option<OpenRun<'a>>) -> Option<RunOps<'a>>
    ensures all { IfSome result (λ ops. IsRestIn (ops_in (ops_as ops)) opened.old opened.new) }
    ensures some { IfSome result (λ ops. 0 < ops_count (ops_as ops)) }
    ensures sound { IfSome result (λ ops. CanGoOn (ops_as ops)) }
    ensures none { IfNone result ((events_behind opened.old ≡ []) × (opened.new ≡ opened.old)) }
{
    match opened {
        Some(run) => run.go_on_run(),
        None => None,
    }
}

/// Whether an event goes on from the last of a run with these operations.
fn goes_on(last: &Id, ops: &RunOps, id: &Id, parents: &[Id], kind: u8, at: u32) -> bool
    ensures { result ≡ (is_next_id last.now id.now && are_only parents.now last.now && takes_step (ops_as ops.now) (first_op kind at)) }
{
    is_next(last, id) && are_only(parents, last) && ops.takes_step(kind, at)
}

/// Whether the second id is the next one of the first one's agent.
fn is_next(last: &Id, id: &Id) -> bool
    ensures { result ≡ is_next_id last.now id.now }
{
    is_behind(last, id)
}

/// The same. Names are compared only where the numbers fit.
fn is_behind(last: &Id, id: &Id) -> bool
    ensures { IsTrue result ↔ (id.now ≡ next_id last.now) }
{
    last.seq < id.seq && id.seq - last.seq == 1 && id.agent.is(&last.agent)
}

/// Whether there is one id, and it is this.
fn are_only(ids: &[Id], x: &Id) -> bool
    ensures { result ≡ are_only ids.now x.now }
{
    match ids {
        [id] => x.is(id),
        _ => false,
    }
}
