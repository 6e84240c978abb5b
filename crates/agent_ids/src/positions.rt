//! The positions of one agent's ids, in runs.

ghost use Rattle.std.specs.Prelude.{◌≡◌, ℕ, ◌+◌, ◌-◌, ◌<◌, ◌≤◌, ◌^◌, List, [], ◌∷◌, ◌++◌, take, length, Some, slice_get, IfOk, OnOk, OnErr};
ghost use Rattle.std.specs.List.{AllWithin, range_with_len};
ghost use Rattle.agent_ids.specs.declared.positions.PositionRun.{PositionRun};
ghost use Rattle.agent_ids.specs.PositionRuns.{positions_in, ArePositionRuns, goes_on_at};

use ew_model::NoMem;
use sorted_search::count_passing;
use std::alloc::Global;
use std::marker::Model;

/// Neighbouring positions of one agent's ids.
#[derive(Clone, Copy)]
pub struct PositionRun {
    /// The number of the first id.
    pub seq: u32,
    /// The position of the first id.
    pub start: u32,
}

/// The positions of one agent's ids, kept in runs of neighbours. Contracts see the list of the positions: the one of
/// the id number n stands at place n.
#[derive(Drop)]
pub struct PositionRuns {
    runs: Vec<PositionRun>,
    count: u32,
}

impl Model for PositionRuns {
    ghost use Rattle.std.specs.Prelude.{ℕ, List};
    ghost use Rattle.agent_ids.specs.PositionRuns.{positions_in, ArePositionRuns};

    ghost Value = { List ℕ };

    ghost view = { λ p. positions_in p.runs.items p.count };

    ghost invariant = { λ p. ArePositionRuns 0 p.runs.items p.count };
}

impl PositionRuns {
    /// One position.
    pub fn of_one(alloc: Global, position: u32) -> Result<PositionRuns, NoMem>
        ensures { IfOk result (λ p. p ≡ position ∷ []) }
    {
        let mut runs = Vec::with_capacity(alloc, 1)?;
        runs.push_reserved(PositionRun {
            seq: 0,
            start: position,
        });
        Ok(PositionRuns { runs, count: 1 })
    }

    /// How many positions there are.
    pub fn len(&self) -> u32
        ensures { result ≡ length self.now }
    {
        self.count
    }

    /// The position of the id with this number, if there is one.
    pub fn get(&self, seq: u32) -> Option<u32>
        ensures { result ≡ slice_get self.now seq }
    {
        if seq < self.count {
            Some(position_at(&self.runs, self.count, seq))
        } else {
            None
        }
    }

    /// Puts one more position behind the others.
    pub fn push(&mut self, position: u32) -> Result<(), NoMem>
        requires room { length self.old + 1 < 2 ^ 32 }
        ensures ok { OnOk result (self.new ≡ self.old ++ position ∷ []) }
        ensures err { OnErr result (self.new ≡ self.old) }
    {
        put(&mut self.runs, self.count, position)?;
        self.count += 1;
        Ok(())
    }

    /// Puts so many neighbouring positions behind the others, from one on.
    pub fn push_run(&mut self, position: u32, count: u32) -> Result<(), NoMem>
        requires room { length self.old + count < 2 ^ 32 }
        requires positions { position + count ≤ 2 ^ 32 }
        ensures ok { OnOk result (self.new ≡ self.old ++ range_with_len position count) }
        ensures err { OnErr result (self.new ≡ self.old) }
    {
        if count == 0 {
            return Ok(());
        }
        // The last run goes up to the count, whatever that is.
        put(&mut self.runs, self.count, position)?;
        self.count += count;
        Ok(())
    }

    /// Leaves the first n positions.
    pub fn truncate(&mut self, n: u32)
        ensures { self.new ≡ take n self.old }
    {
        if n < self.count {
            leave(&mut self.runs, self.count, n);
            self.count = n;
        }
    }
}

/// How many of the runs begin below a number.
fn count_below(runs: &[PositionRun], seq: u32) -> usize
    requires { (count : ℕ) × ArePositionRuns 0 runs.now count }
    ensures bound { result ≤ length runs.now }
    ensures below { AllWithin (λ r. r.seq < seq) runs.now 0 result }
    ensures behind { AllWithin (λ r. seq ≤ r.seq) runs.now result (length runs.now) }
{
    count_passing(runs, |run| run.seq < seq)
}

/// The position of the id with this number, by halving.
fn position_at(runs: &[PositionRun], count: u32, seq: u32) -> u32
    requires runs { ArePositionRuns 0 runs.now count }
    requires within { seq < count }
    ensures { slice_get (positions_in runs.now count) seq ≡ Some result }
{
    let below = count_below(runs, seq + 1);
    let run = runs[below - 1];
    run.start + (seq - run.seq)
}

/// Puts a position behind the others: into the last run, where that goes on with it, or else into a run of its own.
fn put(runs: &mut Vec<PositionRun>, count: u32, position: u32) -> Result<(), NoMem>
    requires { ArePositionRuns 0 runs.old.items count }
    ensures ok { OnOk result (positions_in runs.new.items (count + 1) ≡ positions_in runs.old.items count ++ position ∷ []) }
    ensures runs { OnOk result (ArePositionRuns 0 runs.new.items (count + 1)) }
    ensures err { OnErr result (runs.new.items ≡ runs.old.items) }
{
    if !goes_on_at(runs, count, position) {
        runs.push(PositionRun {
            seq: count,
            start: position,
        })?;
    }
    Ok(())
}

/// Whether the last run goes on with a position.
fn goes_on_at(runs: &[PositionRun], count: u32, position: u32) -> bool
    requires { ArePositionRuns 0 runs.now count }
    ensures { result ≡ goes_on_at runs.now count position }
{
    match runs.last() {
        Some(run) => run.start <= position && position - run.start == count - run.seq,
        None => false,
    }
}

/// Leaves the runs of the first n positions.
fn leave(runs: &mut Vec<PositionRun>, count: u32, n: u32)
    requires runs { ArePositionRuns 0 runs.old.items count }
    requires within { n < count }
    ensures positions { positions_in runs.new.items n ≡ take n (positions_in runs.old.items count) }
    ensures runs { ArePositionRuns 0 runs.new.items n }
{
    let kept = count_below(runs, n);
    runs.truncate(kept);
}
