//! The events' operations and parents.

ghost use Rattle.std.specs.Prelude.{◌≡◌, ℕ, ◌+◌, ◌-◌, ◌<◌, ◌≤◌, ◌^◌, true, false, List, [], ◌∷◌, ◌++◌, map, length, take, drop, Some, slice_get, IfSome, IfNone, IfOk, OnOk, OnErr, IsOkAnd};
ghost use Rattle.ew_model.specs.Positions.{AreParents, IsHistoryOfParents, parents_at};
ghost use Rattle.ew_model.specs.TextLaws.{own_change};
ghost use Rattle.event_runs.specs.BareEvents.{BareEvent, bare, ops_in, parents_in};
ghost use Rattle.event_runs.specs.KeptRuns.{op_chars, op_labels, HasRoom};
ghost use Rattle.event_runs.specs.RunOps.{ops_of, IndicesFit, chain_on};
ghost use Rattle.event_runs.specs.Runs.{AreRunsOf, IsRunCount, IsRunEnd, IsRunStart};
ghost use Rattle.frontier.specs.Chains.{IsChain};
ghost use Rattle.operation_runs.specs.Runs.{run_ops, RunFits};

use crate::following::first_followed;
use crate::lists::NumberLists;
use crate::ops::RunOps;
use crate::runs::{Run, find_run, find_run_near, keep_below, last_takes, lengthen_last_by, put};
use crate::starts::Starts;
use ew_model::NoMem;
use ew_model::event::Op;
use ew_model::name::Name;
use ew_model::text_op::TextOp;
use frontier::{Chain, Parentage};
use operation_runs::OperationRun;
use smallvec::SmallVec;
use std::alloc::Global;
use std::marker::Model;

/// The events of a history without their ids. Contracts see the list of each one's operation and its parents' positions.
#[derive(Drop)]
pub struct EventRuns {
    runs: Vec<Run>,
    starts: Starts,
    /// The parents of each run's first event. Those of any other event are the event before it.
    parents: NumberLists,
    /// The characters of all insertions.
    chars: Vec<char>,
    /// The labels of all marks.
    labels: Vec<Name>,
    count: u32,
}

impl Model for EventRuns {
    ghost use Rattle.std.specs.Prelude.{List};
    ghost use Rattle.event_runs.specs.BareEvents.{BareEvent};
    ghost use Rattle.event_runs.specs.KeptRuns.{events_in, AreKept};

    ghost Value = { List BareEvent };

    ghost view = { λ r. events_in (record { chars = r.chars.items; labels = r.labels.items }) r.runs.items r.parents };

    ghost invariant = { λ r. AreKept r.runs.items r.parents (record { chars = r.chars.items; labels = r.labels.items }) r.count };
}

impl EventRuns {
    /// No events. It takes no memory, and never fails.
    pub fn new(alloc: Global) -> Result<EventRuns, NoMem>
        ensures { IsOkAnd result (λ events. events ≡ []) }
    {
        Ok(EventRuns {
            runs: Vec::new(alloc),
            starts: Starts::new(alloc),
            parents: NumberLists::new(alloc),
            chars: Vec::new(alloc),
            labels: Vec::new(alloc),
            count: 0,
        })
    }

    /// How many events there are.
    pub fn count(&self) -> u32
        ensures count { result ≡ length self.now }
        ensures history { IsHistoryOfParents (parents_in self.now) }
    {
        self.count
    }

    /// How many runs the events make, each as long as it goes on. It takes no memory.
    pub fn runs(&self) -> u32
        ensures count { IsRunCount self.now result }
        ensures only { (runs : List (List BareEvent)) → AreRunsOf self.now runs → length runs ≡ result }
    {
        let _count = self.count;
        self.runs.len() as u32
    }

    /// Puts one more event behind the others.
    pub fn append(&mut self, op: Op, parents: &[u32]) -> Result<(), NoMem>
        requires parents { AreParents (length self.old) parents.now }
        requires room { length self.old + 1 < 2 ^ 32 }
        ensures ok { OnOk result (self.new ≡ self.old ++ bare op parents.now ∷ []) }
        ensures err { OnErr result (self.new ≡ self.old) }
    {
        self.append_ref(&op, parents)
    }

    /// Puts one more event behind the others. Of its operation only what it holds is copied: a label is long.
    pub fn append_ref(&mut self, op: &Op, parents: &[u32]) -> Result<(), NoMem>
        requires parents { AreParents (length self.old) parents.now }
        requires room { length self.old + 1 < 2 ^ 32 }
        ensures ok { OnOk result (self.new ≡ self.old ++ bare op.now parents.now ∷ []) }
        ensures err { OnErr result (self.new ≡ self.old) }
    {
        // Behind `put` nothing fails.
        self.starts.set_count(self.count + 1, self.runs.len())?;
        reserve_for(&mut self.chars, &mut self.labels, op)?;
        let one = Run::of_one(
            self.count,
            op,
            self.chars.len() as u32,
            self.labels.len() as u32,
        );
        put(&mut self.runs, &mut self.parents, one, parents)?;
        put_reserved(&mut self.chars, &mut self.labels, op);
        self.count += 1;
        Ok(())
    }

    /// Puts the events of these operations behind the others: the first has the last event as its one parent, each further one the
    /// event before it. But for the characters it costs little more for many than for few: four bytes for each sixteen.
    pub fn append_run(&mut self, ops: RunOps<'_>) -> Result<(), NoMem>
        requires some { 0 < length self.old }
        requires fit { IndicesFit ops }
        requires room { length self.old + length (ops_of ops) < 2 ^ 32 }
        ensures ok { OnOk result (self.new ≡ self.old ++ chain_on (length self.old - 1) (ops_of ops.entry)) }
        ensures err { OnErr result (self.new ≡ self.old) }
    {
        let before = self.count;
        if let Err(fault) = self.put_run(ops) {
            self.truncate(before);
            return Err(fault);
        }
        Ok(())
    }

    /// The same. For want of memory the first of the events may stay.
    fn put_run(&mut self, ops: RunOps<'_>) -> Result<(), NoMem>
        requires some { 0 < length self.old }
        requires fit { IndicesFit ops }
        requires room { length self.old + length (ops_of ops) < 2 ^ 32 }
        ensures ok { OnOk result (self.new ≡ self.old ++ chain_on (length self.old - 1) (ops_of ops.entry)) }
        ensures err { OnErr result (take (length self.old) self.new ≡ self.old) }
    {
        // The first may go on with the run before it, and tell its kind or end it there. So the last run takes in all from the fourth on
        // at the latest.
        for done in 0..ops.count() {
            if self.take_in(ops, done)? {
                return Ok(());
            }
            self.append_ref(&ops.get(done), &[self.count - 1])?;
        }
        Ok(())
    }

    /// Puts the events of the operations from a place on behind the others, where the last run takes them all in. Says whether it
    /// does.
    fn take_in(&mut self, ops: RunOps<'_>, place: u32) -> Result<bool, NoMem>
        requires fit { IndicesFit ops }
        requires within { place < length (ops_of ops) }
        requires room { length self.old + length (drop place (ops_of ops)) < 2 ^ 32 }
        requires few { length (ops_of ops) < 2 ^ 32 }
        ensures all { IfOk result (λ b. b ≡ true → self.new ≡ self.old ++ chain_on (length self.old - 1) (drop place (ops_of ops.entry))) }
        ensures none { IfOk result (λ b. b ≡ false → self.new ≡ self.old) }
        ensures err { OnErr result (self.new ≡ self.old) }
    {
        let takes = last_takes(&self.runs, ops.kind(), ops.index(place));
        if takes {
            let more = ops.count() - place;
            self.starts.set_count(self.count + more, self.runs.len())?;
            self.chars.extend_from_slice(ops.chars_from(place))?;
            lengthen_last_by(&mut self.runs, more);
            self.count += more;
        }
        Ok(takes)
    }

    /// The operation of the event at a position.
    pub fn op_at(&self, lv: u32) -> Op
        requires { lv < length self.now }
        ensures { slice_get (ops_in self.now) lv ≡ Some result }
    {
        let mut near = 0;
        self.op_near(lv, &mut near)
    }

    /// The operation of the event at a position. The run at the place `near`, which is that of the run found last, and the next
    /// one are tried first.
    pub fn op_near(&self, lv: u32, near: &mut usize) -> Op
        requires { lv < length self.now }
        ensures { slice_get (ops_in self.now) lv ≡ Some result }
    {
        let _count = self.count;
        let place = find_run_near(&self.runs, &self.starts, lv, *near);
        *near = place;
        let run = self.runs[place];
        run.op_behind(lv - run.start, &self.chars, &self.labels)
    }

    /// What the event at a position does to the text at its parents. The run at the place `near`, which is that of the run found
    /// last, and the next one are tried first.
    pub fn change_near(&self, lv: u32, near: &mut usize) -> TextOp
        requires { lv < length self.now }
        ensures { slice_get (map own_change (ops_in self.now)) lv ≡ Some result }
    {
        let _count = self.count;
        let place = find_run_near(&self.runs, &self.starts, lv, *near);
        *near = place;
        let run = self.runs[place];
        run.change_behind(lv - run.start, &self.chars)
    }

    /// The position of the first event in the run of an event. The run at the place `near`, which is that of the run found last,
    /// and the next one are tried first.
    pub fn chain_start_near(&self, lv: u32, near: &mut usize) -> u32
        requires { lv < length self.now }
        ensures chain { IsChain (parents_in self.now) result lv }
        ensures start { IsRunStart self.now lv result }
        ensures only { (start : ℕ) → IsRunStart self.now lv start → start ≡ result }
    {
        let _count = self.count;
        let place = find_run_near(&self.runs, &self.starts, lv, *near);
        *near = place;
        self.runs[place].start
    }

    /// The event at a position with all that come behind it in its run: each of these has the one before it as its only parent. The run
    /// at the place `near`, which is that of the run found last, and the next one are tried first.
    pub fn rest_near(&self, lv: u32, near: &mut usize) -> OperationRun<'_>
        requires { lv < length self.now }
        ensures some { 0 < length (run_ops result) }
        ensures fit { RunFits result }
        ensures changes { (k : ℕ) → k < length (run_ops result) → slice_get (map own_change (ops_in self.now)) (lv + k) ≡ slice_get (run_ops result) k }
        ensures chain { IsChain (parents_in self.now) lv (lv + length (run_ops result) - 1) }
        ensures end { IsRunEnd self.now lv (lv + length (run_ops result)) }
        ensures within { lv + length (run_ops result) ≤ length self.now }
    {
        let _count = self.count;
        let place = find_run_near(&self.runs, &self.starts, lv, *near);
        *near = place;
        let run = self.runs[place];
        run.rest(lv - run.start, &self.chars)
    }

    /// The parents of the event at a position, rising.
    pub fn parents_at(&self, lv: u32) -> SmallVec<u32, 16>
        requires { lv < length self.now }
        ensures value { result.items ≡ parents_at (parents_in self.now) lv }
        ensures lower { AreParents lv result.items }
    {
        let _count = self.count;
        let alloc = *self.runs.allocator();
        let place = find_run(&self.runs, &self.starts, lv);
        if self.runs[place].start == lv {
            inline_from(alloc, self.parents.get(place))
        } else {
            inline_from(alloc, &[lv - 1])
        }
    }

    /// A chain to the event at a position: through its run, and through the runs before it as far as they follow one another, and through
    /// thirty-two runs at most.
    pub fn chain_at(&self, lv: u32) -> Chain<'_>
        requires { lv < length self.now }
        ensures chain { IsChain (parents_in self.now) result.first lv }
        ensures value { result.parents.now ≡ parents_at (parents_in self.now) result.first }
        ensures lower { AreParents result.first result.parents.now }
    {
        let _count = self.count;
        let last = find_run(&self.runs, &self.starts, lv);
        let first = first_followed(&self.runs, &self.parents, last);
        Chain {
            first: self.runs[first].start,
            parents: self.parents.get(first),
        }
    }

    /// The operation and the parents of the event at a position: its run is sought once for both. The run at the place `near`,
    /// which is that of the run found last, and the next one are tried first.
    pub fn event_near(&self, lv: u32, near: &mut usize) -> (Op, SmallVec<u32, 16>)
        requires { lv < length self.now }
        ensures op { slice_get (ops_in self.now) lv ≡ Some result.0 }
        ensures parents { result.1.items ≡ parents_at (parents_in self.now) lv }
        ensures lower { AreParents lv result.1.items }
    {
        let _count = self.count;
        let alloc = *self.runs.allocator();
        let place = find_run_near(&self.runs, &self.starts, lv, *near);
        *near = place;
        let run = self.runs[place];
        let op = run.op_behind(lv - run.start, &self.chars, &self.labels);
        if run.start == lv {
            (op, inline_from(alloc, self.parents.get(place)))
        } else {
            (op, inline_from(alloc, &[lv - 1]))
        }
    }

    /// Leaves the first n events.
    pub fn truncate(&mut self, n: u32)
        ensures { self.new ≡ take n self.old }
    {
        if n < self.count {
            let chars = keep_below(&mut self.runs, &mut self.labels, n);
            self.parents.truncate(self.runs.len());
            self.chars.truncate(chars);
            self.starts.truncate(n);
            self.count = n;
        }
    }
}

impl Parentage for EventRuns {
    ghost use Rattle.std.specs.Prelude.{◌≡◌, ℕ, ◌<◌, length};
    ghost use Rattle.event_runs.specs.BareEvents.{parents_in};

    ghost parents = { λ events. parents_in events };

    fn count(&self) -> u32 {
        EventRuns::count(self)
    }

    fn parents_of(&self, lv: u32) -> SmallVec<u32, 16> {
        self.parents_at(lv)
    }

    /// The position of the first event in the run of an event.
    fn chain_start(&self, lv: u32) -> u32
        requires { lv < length (parents_in self.now) }
        ensures chain { IsChain (parents_in self.now) result lv }
        ensures start { IsRunStart self.now lv result }
        ensures only { (start : ℕ) → IsRunStart self.now lv start → start ≡ result }
    {
        let mut near = 0;
        self.chain_start_near(lv, &mut near)
    }

    fn chain_to(&self, lv: u32) -> Option<Chain<'_>> {
        Some(self.chain_at(lv))
    }
}

/// Makes room for the operation's character or label, if it has one.
fn reserve_for(chars: &mut Vec<char>, labels: &mut Vec<Name>, op: &Op) -> Result<(), NoMem>
    ensures chars { chars.new.items ≡ chars.old.items }
    ensures labels { labels.new.items ≡ labels.old.items }
    ensures room { OnOk result (HasRoom op.now chars.new labels.new) }
{
    match op {
        Op::Ins { .. } => chars.reserve(1)?,
        Op::Del { .. } => (),
        Op::Mark { .. } => labels.reserve(1)?,
    }
    Ok(())
}

/// Puts the operation's character or label, if it has one, behind the others, where there is room for it.
fn put_reserved(chars: &mut Vec<char>, labels: &mut Vec<Name>, op: &Op)
    requires { HasRoom op.now chars.old labels.old }
    ensures chars { chars.new.items ≡ chars.old.items ++ op_chars op.now }
    ensures labels { labels.new.items ≡ labels.old.items ++ op_labels op.now }
{
    match op {
        Op::Ins { ch, .. } => chars.push_reserved(*ch),
        Op::Del { .. } => (),
        Op::Mark { label } => labels.push_reserved(*label),
    }
}

/// A short list, in place.
fn inline_from(alloc: Global, list: &[u32]) -> SmallVec<u32, 16>
    requires { length list.now ≤ 16 }
    ensures { result.items ≡ list.now }
{
    match SmallVec::from_slice(alloc, list) {
        Ok(short) => short,
        Err(_) => unreachable!(),
    }
}
