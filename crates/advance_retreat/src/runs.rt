//! Applied events in runs of neighbours.

ghost use Rattle.std.specs.Prelude.{◌≡◌, ◌+◌, ◌-◌, ◌≤◌, ◌<◌, ◌^◌, ℕ, List, [], ◌∷◌, ◌++◌, false, IsTrue, IfSome, IfNone, IfOk, OnOk, OnErr, length};
ghost use Rattle.std.specs.List.{AllWithin};
ghost use Rattle.std.specs.Option.{option_to_list};
ghost use Rattle.advance_retreat.specs.declared.target.Target.{Target};
ghost use Rattle.advance_retreat.specs.Kept.{target_at, typed_targets, AreWithin};
ghost use Rattle.advance_retreat.specs.Runs.{events_in, EndIn, AreRuns, AreBelow, HasAt, IsPlaceOf, Tells, TellNone, HaveMore, HaveFewer};

use crate::run::Run;
use character_runs::Positions;
use ew_model::NoMem;
use ew_model::node::Node;
use sorted_search::count_passing;
use std::alloc::Global;
use std::marker::Model;

/// Runs, one behind the other, which are found by position. Contracts see a list of them.
#[derive(Drop)]
pub struct Runs {
    /// Those before the last.
    before: Vec<Run>,
    last: Option<Run>,
    /// How many events they have.
    count: usize,
    /// Where a run was sought last, among those in `before`. It may be any number.
    near: usize,
}

impl Model for Runs {
    ghost use Rattle.std.specs.Prelude.{◌≡◌, ◌++◌, List, length};
    ghost use Rattle.std.specs.Option.{option_to_list};
    ghost use Rattle.advance_retreat.specs.declared.run.Run.{Run};
    ghost use Rattle.advance_retreat.specs.Runs.{AreRuns, EndIn, events_in};

    ghost Value = { List Run };

    ghost view = { λ r. r.before.items ++ option_to_list r.last };

    ghost invariant = { λ r. AreRuns 0 (r.before.items ++ option_to_list r.last) × EndIn r.before.items r.last × (r.count ≡ length (events_in (r.before.items ++ option_to_list r.last))) };
}

impl Runs {
    /// No events.
    pub fn new(alloc: Global) -> Runs
        ensures { result ≡ [] }
    {
        Runs {
            before: Vec::new(alloc),
            last: None,
            count: 0,
            near: 0,
        }
    }

    /// How many events they have.
    pub fn len(&self) -> usize
        ensures value { result ≡ length (events_in self.now) }
        ensures few { result ≤ 2 ^ 32 }
    {
        self.count
    }

    /// The run that has the event at a position.
    pub fn at(&self, lv: u32) -> Option<Run>
        ensures some { IfSome result (Tells self.now lv) }
        ensures none { IfNone result (TellNone self.now lv) }
    {
        let run = self.last?;
        if lv < run.first {
            let place = place_of(&self.before, lv);
            return run_at(&self.before, place, lv);
        }
        run.held(lv)
    }

    /// The run that has the event at a position. Where it isn't the last run, the place where one was sought last is tried first, and
    /// then those beside it.
    pub fn at_near(&mut self, lv: u32) -> Option<Run>
        ensures some { IfSome result (Tells self.old lv) }
        ensures none { IfNone result (TellNone self.old lv) }
        ensures same { self.new ≡ self.old }
    {
        let run = self.last?;
        if lv < run.first {
            let place = place_near(&self.before, lv, self.near);
            self.near = place;
            return run_at(&self.before, place, lv);
        }
        run.held(lv)
    }

    /// Whether a position lies behind all of them.
    pub fn is_behind(&self, lv: u32) -> bool
        ensures { IsTrue result → AreBelow lv self.now }
    {
        match self.last {
            Some(run) => run.is_before(lv),
            None => true,
        }
    }

    /// Whether each event is at one of these positions.
    pub fn are_within(&self, at: Positions) -> bool
        ensures { IsTrue result → AreWithin at (target_at (events_in self.now)) }
    {
        self.start_from(at.from) && self.is_behind(at.to)
    }

    /// Whether none begins before a position.
    fn start_from(&self, lv: u32) -> bool
        ensures { IsTrue result → AreRuns lv self.now }
    {
        match self.before.first() {
            Some(run) => lv <= run.first,
            None => match self.last {
                Some(run) => lv <= run.first,
                None => true,
            },
        }
    }

    /// Puts an event behind them, where it goes on with the last run. Answers whether it does.
    pub fn lengthen(&mut self, lv: u32, node: Node) -> bool
        ensures yes { IsTrue result → events_in self.new ≡ events_in self.old ++ record { lv = lv; node = node } ∷ [] }
        ensures no { result ≡ false → self.new ≡ self.old }
    {
        let Some(run) = &mut self.last else {
            return false;
        };
        if !run.goes_on(lv, node) {
            return false;
        }
        run.more += 1;
        self.count += 1;
        true
    }

    /// Puts so many insertions behind them, at the positions behind this one, where they go on with the last run. Answers whether they
    /// do.
    pub fn lengthen_by(&mut self, newest: u32, count: u32) -> bool
        requires few { newest + count < 2 ^ 32 }
        ensures yes { IsTrue result → events_in self.new ≡ events_in self.old ++ typed_targets newest count }
        ensures no { result ≡ false → self.new ≡ self.old }
    {
        let Some(run) = &mut self.last else {
            return false;
        };
        if !run.is_typed_to(newest) {
            return false;
        }
        run.more += count;
        self.count += count as usize;
        true
    }

    /// Puts an event behind them: into the last run, where that has one event and leads to it the other way, or else into a run of
    /// its own.
    pub fn push(&mut self, lv: u32, node: Node) -> Result<(), NoMem>
        requires { AreBelow lv self.old }
        ensures ok { OnOk result (events_in self.new ≡ events_in self.old ++ record { lv = lv; node = node } ∷ []) }
        ensures err { OnErr result (self.new ≡ self.old) }
    {
        let next = next_run(&mut self.before, self.last, lv, node)?;
        self.last = Some(next);
        self.count += 1;
        Ok(())
    }

    /// Takes back the last event.
    pub fn take_back(&mut self)
        ensures { (events : List Target) (last : Target) → events_in self.old ≡ events ++ last ∷ [] → events_in self.new ≡ events }
    {
        let Some(run) = self.last else {
            return;
        };
        self.last = fewer(&mut self.before, run);
        self.count = self.count.saturating_sub(1);
    }
}

/// The run that has the event at a position, if one has it. No other run has it than the one at this place.
fn run_at(runs: &[Run], place: usize, lv: u32) -> Option<Run>
    requires order { AreRuns 0 runs.now }
    requires place { IsPlaceOf runs.now place lv }
    ensures some { IfSome result (Tells runs.now lv) }
    ensures none { IfNone result (TellNone runs.now lv) }
{
    runs.get(place)?.held(lv)
}

/// The place of the run that has the event at a position, if one has it. The run at the place `near` is tried first, and those beside
/// it.
fn place_near(runs: &[Run], lv: u32, near: usize) -> usize
    requires { AreRuns 0 runs.now }
    ensures { IsPlaceOf runs.now result lv }
{
    if has_at(runs, near, lv) {
        return near;
    }
    let next = near.wrapping_add(1);
    if has_at(runs, next, lv) {
        return next;
    }
    let before = near.wrapping_sub(1);
    if has_at(runs, before, lv) {
        return before;
    }
    place_of(runs, lv)
}

/// Whether the run at a place has the event at a position.
fn has_at(runs: &[Run], place: usize, lv: u32) -> bool
    ensures yes { IsTrue result → HasAt runs.now place lv }
    ensures no { result ≡ false → HasAt runs.now place lv → ⊥ }
{
    match runs.get(place) {
        Some(run) => run.has(lv),
        None => false,
    }
}

/// The place of the run that has the event at a position, if one has it.
fn place_of(runs: &[Run], lv: u32) -> usize
    requires { AreRuns 0 runs.now }
    ensures { IsPlaceOf runs.now result lv }
{
    count_to(runs, lv).saturating_sub(1)
}

/// How many of the runs begin at a position or before it.
fn count_to(runs: &[Run], lv: u32) -> usize
    requires { AreRuns 0 runs.now }
    ensures bound { result ≤ length runs.now }
    ensures to { AllWithin (λ r. r.first ≤ lv) runs.now 0 result }
    ensures behind { AllWithin (λ r. lv < r.first) runs.now result (length runs.now) }
{
    count_passing(runs, |run| run.first <= lv)
}

/// The last run with one more event behind it. Where the event has a run of its own, the last is put to those before.
fn next_run(before: &mut Vec<Run>, last: Option<Run>, lv: u32, node: Node) -> Result<Run, NoMem>
    requires runs { AreRuns 0 (before.old.items ++ option_to_list last) }
    requires ends { EndIn before.old.items last }
    requires below { AreBelow lv (before.old.items ++ option_to_list last) }
    ensures ok { IfOk result (λ r. HaveMore (before.new.items ++ r ∷ []) (before.old.items ++ option_to_list last) lv node) }
    ensures err { OnErr result (before.new.items ≡ before.old.items) }
{
    let Some(run) = last else {
        return Ok(Run::alone(lv, node));
    };
    let turned = run.turned();
    if run.more == 0 && turned.goes_on(lv, node) {
        return Ok(Run { more: 1, ..turned });
    }
    before.push(run)?;
    Ok(Run::alone(lv, node))
}

/// The last run without its last event. Where it had one, the last of those before, if there is one.
fn fewer(before: &mut Vec<Run>, last: Run) -> Option<Run>
    requires { AreRuns 0 (before.old.items ++ last ∷ []) }
    ensures events { HaveFewer (before.new.items ++ option_to_list result) (before.old.items ++ last ∷ []) }
    ensures ends { EndIn before.new.items result }
{
    if last.more == 0 {
        return before.pop();
    }
    Some(Run {
        more: last.more - 1,
        ..last
    })
}
