//! Ids in runs.

ghost use Rattle.std.specs.Prelude.{◌≡◌, ◌↔◌, ℕ, suc, ◌+◌, ◌<◌, ◌≤◌, ◌^◌, Bool, true, List, [], ◌∷◌, ◌++◌, take, length, Some, slice_get, IsTrue, IsSomeAnd, OnOk, OnErr};
ghost use Rattle.std.specs.List.{AllWithin};
ghost use Rattle.ew_model.specs.declared.id.Id.{Id};
ghost use Rattle.agent_ids.specs.declared.runs.IdRun.{IdRun};
ghost use Rattle.agent_ids.specs.IdRuns.{id_runs, id_with, last_in, ids_in, AreRuns, goes_on, with_more, with_more_by, shortened, ids_from, AreNextFrom, IsHeldAt};

use ew_model::NoMem;
use ew_model::id::Id;
use ew_model::name::Name;
use sorted_search::count_passing;
use std::alloc::Global;
use std::marker::Model;

/// Neighbouring ids of one agent.
#[derive(Clone, Copy)]
pub struct IdRun {
    /// The place of the first id.
    pub start: u32,
    pub agent: Name,
    /// The number of the first id.
    pub seq: u32,
    /// How many more there are.
    pub more: u32,
}

/// A list of ids, kept in runs. Contracts see the list.
#[derive(Drop)]
pub struct IdRuns {
    runs: Vec<IdRun>,
    count: u32,
}

impl Model for IdRuns {
    ghost use Rattle.std.specs.Prelude.{List};
    ghost use Rattle.ew_model.specs.declared.id.Id.{Id};
    ghost use Rattle.agent_ids.specs.IdRuns.{ids_in, AreRuns};

    ghost Value = { List Id };

    ghost view = { λ r. ids_in r.runs.items };

    ghost invariant = { λ r. AreRuns 0 r.runs.items r.count };
}

impl IdRuns {
    /// No ids.
    pub fn new(alloc: Global) -> IdRuns
        ensures { result ≡ [] }
    {
        IdRuns {
            runs: Vec::new(alloc),
            count: 0,
        }
    }

    /// How many ids there are.
    pub fn len(&self) -> u32
        ensures { result ≡ length self.now }
    {
        self.count
    }

    /// How many runs there are.
    pub fn runs(&self) -> u32
        ensures { result ≡ id_runs self.now }
    {
        let _count = self.count;
        self.runs.len() as u32
    }

    /// The id at a place. The run at the place `near`, which is that of the run found last, and the next one are tried first.
    pub fn get_near(&self, place: u32, near: &mut usize) -> Id
        requires { place < length self.now }
        ensures { slice_get self.now place ≡ Some result }
    {
        let _count = self.count;
        let found = find_run_near(&self.runs, place, *near);
        *near = found;
        let run = self.runs[found];
        Id {
            agent: run.agent,
            seq: run.seq + (place - run.start),
        }
    }

    /// A number of ids right behind the one at a place that are all the next ones of its agent: those of its run. It is sought as by `get_near`.
    pub fn next_near(&self, place: u32, near: &mut usize) -> u32
        requires { place < length self.now }
        ensures { AreNextFrom self.now place result }
    {
        let _count = self.count;
        let found = find_run_near(&self.runs, place, *near);
        *near = found;
        let run = self.runs[found];
        run.more - (place - run.start)
    }

    /// Puts one more id behind the others.
    pub fn push(&mut self, id: &Id) -> Result<(), NoMem>
        requires room { length self.old + 1 < 2 ^ 32 }
        ensures ok { OnOk result (self.new ≡ self.old ++ id.now ∷ []) }
        ensures err { OnErr result (self.new ≡ self.old) }
    {
        put(&mut self.runs, self.count, id)?;
        self.count += 1;
        Ok(())
    }

    /// The last id, if there is one.
    pub fn last(&self) -> Option<Id>
        ensures { result ≡ last_in self.now }
    {
        let _count = self.count;
        let run = self.runs.last()?;
        Some(Id {
            agent: run.agent,
            seq: run.seq + run.more,
        })
    }

    /// Puts the next id of the last one's agent behind the others.
    pub fn push_next(&mut self)
        requires some { 0 < length self.old }
        requires room { length self.old + 1 < 2 ^ 32 }
        requires number { (x : Id) → last_in self.old ≡ Some x → x.seq + 1 < 2 ^ 32 }
        ensures { (x : Id) × (last_in self.old ≡ Some x) × (self.new ≡ self.old ++ id_with x.agent (suc x.seq) ∷ []) }
    {
        lengthen_last(&mut self.runs);
        self.count += 1;
    }

    /// Puts so many next ids of the last one's agent behind the others.
    pub fn push_next_run(&mut self, more: u32)
        requires some { 0 < length self.old }
        requires room { length self.old + more < 2 ^ 32 }
        requires numbers { (x : Id) → last_in self.old ≡ Some x → x.seq + more < 2 ^ 32 }
        ensures { (x : Id) × (last_in self.old ≡ Some x) × (self.new ≡ self.old ++ ids_from (id_with x.agent (suc x.seq)) more) }
    {
        lengthen_last_by(&mut self.runs, more);
        self.count += more;
    }

    /// Takes out the ids of the last run that stand at a place or behind it, and gives the first of them.
    pub fn cut_run(&mut self, n: u32) -> Option<Id>
        requires { n < length self.old }
        ensures some { IsSomeAnd result (λ x. (more : ℕ) × (self.old ≡ self.new ++ ids_from x (suc more))) }
        ensures front { n ≤ length self.new }
    {
        let run = *self.runs.last()?;
        let cut = n.max(run.start);
        shorten_last(&mut self.runs, cut);
        self.count = cut;
        Some(Id {
            agent: run.agent,
            seq: run.seq + (cut - run.start),
        })
    }
}

/// The place of the run that has the id at a place. The run at the place `near` and the next one are tried first.
fn find_run_near(runs: &[IdRun], place: u32, near: usize) -> usize
    requires { (end : ℕ) × AreRuns 0 runs.now end × (place < end) }
    ensures { IsHeldAt runs.now result place }
{
    if is_held_at(runs, near, place) {
        return near;
    }
    let next = near.wrapping_add(1);
    if is_held_at(runs, next, place) {
        return next;
    }
    count_to(runs, place) - 1
}

/// Whether the run at one place has the id at another.
fn is_held_at(runs: &[IdRun], at: usize, place: u32) -> bool
    ensures { IsTrue result → IsHeldAt runs.now at place }
{
    match runs.get(at) {
        Some(run) => run.start <= place && place - run.start <= run.more,
        None => false,
    }
}

/// How many of the runs begin at a place or before it. It isn't inlined, since most ids are found without it.
#[inline(never)]
fn count_to(runs: &[IdRun], place: u32) -> usize
    requires { (end : ℕ) × AreRuns 0 runs.now end }
    ensures bound { result ≤ length runs.now }
    ensures to { AllWithin (λ r. r.start ≤ place) runs.now 0 result }
    ensures behind { AllWithin (λ r. place < r.start) runs.now result (length runs.now) }
{
    if all_begin_to(runs, place) {
        return runs.len();
    }
    count_passing(runs, |run| run.start <= place)
}

/// Whether there are runs, and all of them begin at a place or before it.
fn all_begin_to(runs: &[IdRun], place: u32) -> bool
    requires { (end : ℕ) × AreRuns 0 runs.now end }
    ensures { IsTrue result → AllWithin (λ r. r.start ≤ place) runs.now 0 (length runs.now) }
{
    match runs.last() {
        Some(run) => run.start <= place,
        None => false,
    }
}

/// Puts an id behind the others: into the last run, where that goes on with it, or else into a run of its own.
fn put(runs: &mut Vec<IdRun>, start: u32, id: &Id) -> Result<(), NoMem>
    requires { AreRuns 0 runs.old.items start }
    ensures ok { OnOk result (ids_in runs.new.items ≡ ids_in runs.old.items ++ id.now ∷ []) }
    ensures runs { OnOk result (AreRuns 0 runs.new.items (start + 1)) }
    ensures err { OnErr result (runs.new.items ≡ runs.old.items) }
{
    fits(id);
    if goes_on(runs, id) {
        lengthen_last(runs);
    } else {
        runs.push(IdRun {
            start,
            agent: id.agent,
            seq: id.seq,
            more: 0,
        })?;
    }
    Ok(())
}

/// The number of an id is in the range of its type.
fn fits(id: &Id)
    ensures { id.now.seq < 2 ^ 32 }
{
    let _number = id.seq;
}

/// Whether the last run goes on with an id.
fn goes_on(runs: &[IdRun], id: &Id) -> bool
    requires { (end : ℕ) × AreRuns 0 runs.now end }
    ensures { result ≡ goes_on runs.now id.now }
{
    match runs.last() {
        Some(run) => is_behind(run, id),
        None => false,
    }
}

/// Whether the id is the one right behind those of a run. Names are compared only where the numbers fit.
fn is_behind(run: &IdRun, id: &Id) -> bool
    requires { run.now.seq + run.now.more < 2 ^ 32 }
    ensures { IsTrue result ↔ (id.now ≡ id_with run.now.agent (suc (run.now.seq + run.now.more))) }
{
    let last = run.seq + run.more;
    last < id.seq && id.seq - last == 1 && id.agent.is(&run.agent)
}

/// Gives the last run one id more.
fn lengthen_last(runs: &mut Vec<IdRun>)
    requires { (end : ℕ) × AreRuns 0 runs.old.items end × (end < 2 ^ 32) }
    ensures { runs.new.items ≡ with_more runs.old.items }
{
    let count = runs.len();
    if count > 0 {
        runs[count - 1].more += 1;
    }
}

/// Gives the last run so many ids more.
fn lengthen_last_by(runs: &mut Vec<IdRun>, more: u32)
    requires { (end : ℕ) × AreRuns 0 runs.old.items end × (end + more < 2 ^ 32) }
    ensures { runs.new.items ≡ with_more_by runs.old.items more }
{
    let count = runs.len();
    if count > 0 {
        runs[count - 1].more += more;
    }
}

/// Leaves of the last run the ids before a place.
fn shorten_last(runs: &mut Vec<IdRun>, place: u32)
    ensures { runs.new.items ≡ shortened runs.old.items place }
{
    let count = runs.len();
    if count > 0 {
        let start = runs[count - 1].start;
        if start < place {
            runs[count - 1].more = place - 1 - start;
        } else {
            runs.pop();
        }
    }
}
