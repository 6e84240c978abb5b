//! How long a text was after each of its events, kept in runs.

ghost use Rattle.std.specs.Prelude.{◌≡◌, ℕ, ◌+◌, ◌<◌, ◌≤◌, ◌^◌, [], ◌++◌, length, take, slice_get, Some, IsTrue, OnOk, OnErr};
ghost use Rattle.std.specs.List.{AllWithin};
ghost use Rattle.replica.specs.LengthRuns.{course_length, course_lengths, CourseFits, lengths_in, AreLengthRuns, LastEndsAt, AreGrown};

use ew_model::NoMem;
use sorted_search::count_passing;
use std::alloc::Global;
use std::marker::Model;

/// How the length of a text goes on from one operation to the next.
#[derive(Clone, Copy, PartialEq, Eq)]
pub enum Course {
    /// It is one more.
    Rises,
    /// It is one less.
    Falls,
    /// It is the same.
    Stays,
}

impl Course {
    /// How long a text is after so many operations, by its length before them.
    pub fn after(self, before: u32, many: u32) -> u32
        requires { CourseFits self before many }
        ensures { result ≡ course_length self before many }
    {
        match self {
            Course::Rises => before + many,
            Course::Falls => before - many,
            Course::Stays => before,
        }
    }
}

/// Lengths in a row. They end where those of the next run begin.
#[derive(Clone, Copy)]
struct LengthRun {
    /// How many lengths come before these.
    start: u32,
    /// How long the text was before the first of its operations.
    before: u32,
    course: Course,
}

/// Lengths of a text, one behind the other. Contracts see their list.
#[derive(Drop)]
pub struct LengthRuns {
    runs: Vec<LengthRun>,
    count: u32,
}

impl Model for LengthRuns {
    ghost use Rattle.std.specs.Prelude.{ℕ, List};
    ghost use Rattle.replica.specs.LengthRuns.{lengths_in, AreLengthRuns};

    ghost Value = { List ℕ };

    ghost view = { λ l. lengths_in l.runs.items l.count };

    ghost invariant = { λ l. AreLengthRuns l.runs.items l.count };
}

impl LengthRuns {
    /// No lengths.
    pub fn new(alloc: Global) -> LengthRuns
        ensures { result ≡ [] }
    {
        LengthRuns {
            runs: Vec::new(alloc),
            count: 0,
        }
    }

    /// How many lengths there are.
    pub fn count(&self) -> u32
        ensures { result ≡ length self.now }
    {
        self.count
    }

    /// The length at a place.
    pub fn get(&self, place: u32) -> u32
        requires { place < length self.now }
        ensures { slice_get self.now place ≡ Some result }
    {
        let _count = self.count;
        length_at(&self.runs, place)
    }

    /// Puts so many lengths behind the others, those that a text of `before` characters takes on this course. Where memory is
    /// wanting, or there would be more than 4294967295 lengths, all stays as it is.
    pub fn push(&mut self, course: Course, before: u32, many: u32) -> Result<(), NoMem>
        requires { CourseFits course before many }
        ensures ok { OnOk result (self.new ≡ self.old ++ course_lengths course before many) }
        ensures err { OnErr result (self.new ≡ self.old) }
    {
        if many == 0 {
            return Ok(());
        }
        let Some(count) = self.count.checked_add(many) else {
            return Err(NoMem);
        };
        begin(&mut self.runs, self.count, course, before)?;
        self.count = count;
        Ok(())
    }

    /// Leaves the first so many.
    pub fn truncate(&mut self, count: u32)
        ensures { self.new ≡ take count self.old }
    {
        if count < self.count {
            let kept = count_below(&self.runs, count);
            self.runs.truncate(kept);
            self.count = count;
        }
    }
}

/// How many of the runs begin below a place.
fn count_below(runs: &[LengthRun], end: u32) -> usize
    requires { (count : ℕ) × AreLengthRuns runs.now count }
    ensures bound { result ≤ length runs.now }
    ensures below { AllWithin (λ r. r.start < end) runs.now 0 result }
    ensures above { AllWithin (λ r. end ≤ r.start) runs.now result (length runs.now) }
{
    count_passing(runs, |run| run.start < end)
}

/// The length at a place.
fn length_at(runs: &[LengthRun], place: u32) -> u32
    requires { (count : ℕ) × AreLengthRuns runs.now count × (place < count) × (count < 2 ^ 32) }
    ensures { (count : ℕ) → AreLengthRuns runs.now count → place < count → slice_get (lengths_in runs.now count) place ≡ Some result }
{
    let run = runs[count_below(runs, place + 1) - 1];
    run.course.after(run.before, place - run.start + 1)
}

/// Begins a run of its own for lengths behind the others, unless the last run goes on with them.
fn begin(runs: &mut Vec<LengthRun>, end: u32, course: Course, before: u32) -> Result<(), NoMem>
    requires { AreLengthRuns runs.old.items end }
    ensures ok { OnOk result ((many : ℕ) → 0 < many → CourseFits course before many → AreGrown runs.old.items runs.new.items end course before many) }
    ensures err { OnErr result (runs.new.items ≡ runs.old.items) }
{
    if goes_on(runs, end, course, before) {
        return Ok(());
    }
    runs.push(LengthRun {
        start: end,
        before,
        course,
    })?;
    Ok(())
}

/// Whether the last run takes this course, and ends at this length.
fn goes_on(runs: &[LengthRun], end: u32, course: Course, length: u32) -> bool
    requires { AreLengthRuns runs.now end }
    ensures { IsTrue result → LastEndsAt runs.now end course length }
{
    match runs.last() {
        Some(run) => run.course == course
            && run.course.after(run.before, end - run.start) == length,
        None => false,
    }
}
