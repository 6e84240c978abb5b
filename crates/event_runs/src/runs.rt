//! Runs of neighbouring events.

ghost use Rattle.std.specs.Prelude.{◌≡◌, ◌↔◌, ℕ, suc, ◌+◌, ◌<◌, ◌≤◌, ◌^◌, List, [], ◌∷◌, ◌++◌, length, take, slice_set, slice_get, Some, IsTrue, IfSome, IfNone, OnOk, OnErr};
ghost use Rattle.std.specs.List.{AllWithin, find};
ghost use Rattle.std.specs.Option.{option_copied};
ghost use Rattle.ew_model.specs.TextLaws.{own_change};
ghost use Rattle.event_runs.specs.declared.runs.Run.{Run};
ghost use Rattle.event_runs.specs.declared.runs.RunKind.{RunKind};
ghost use Rattle.event_runs.specs.Steps.{LastTakes, longer_by};
ghost use Rattle.event_runs.specs.Rests.{changes_from, IsRest};
ghost use Rattle.operation_runs.specs.Runs.{run_ops, RunFits};
ghost use Rattle.event_runs.specs.KeptRuns.{op_in, run_of_one, sort_of, is_mark, other_kind, longer, shorter, chars_to_end, IsNext, JoinsAs, LastJoinsAs, Fits, HasLabel, AreRuns, AreLabelled, first_label, IsHeldAt, GrowBy, AreCutAt};

use crate::lists::NumberLists;
use crate::starts::Starts;
use ew_model::NoMem;
use ew_model::event::Op;
use ew_model::name::Name;
use ew_model::text_op::TextOp;
use operation_runs::OperationRun;
use sorted_search::count_passing;

/// How the operations of a run go on from one another.
#[derive(Clone, Copy, PartialEq, Eq)]
pub enum RunKind {
    /// Insertions, each right behind the one before.
    Insertions,
    /// Deletions at one index.
    Deletions,
    /// Deletions, each at the index right before that of the one before.
    BackDeletions,
    /// One mark: none goes on from another.
    Marks,
}

/// What the events of a run do: only runs of one sort can be one.
#[derive(Clone, Copy, PartialEq, Eq)]
pub enum Sort {
    Inserting,
    Deleting,
    Marking,
}

/// Neighbouring events, each on the one before, of one kind.
#[derive(Clone, Copy)]
pub struct Run {
    /// The position of the first event.
    pub start: u32,
    /// How many more there are.
    pub more: u32,
    pub kind: RunKind,
    /// The index of the first operation; of a mark, the place of its label.
    pub at: u32,
    /// How many characters the runs before this one insert: the place of its own first one.
    pub chars_before: u32,
}

impl RunKind {
    /// What the events of a run of the kind do.
    fn sort(self) -> Sort
        ensures { result ≡ sort_of self }
    {
        match self {
            RunKind::Insertions => Sort::Inserting,
            RunKind::Deletions => Sort::Deleting,
            RunKind::BackDeletions => Sort::Deleting,
            RunKind::Marks => Sort::Marking,
        }
    }

    fn is_mark(self) -> bool
        ensures { result ≡ is_mark self }
    {
        self.sort() == Sort::Marking
    }

    /// The kind that a run of one event could be of as well.
    fn other(self) -> RunKind
        ensures { result ≡ other_kind self }
    {
        match self {
            RunKind::Insertions => RunKind::Insertions,
            RunKind::Deletions => RunKind::BackDeletions,
            RunKind::BackDeletions => RunKind::Deletions,
            RunKind::Marks => RunKind::Marks,
        }
    }

    /// Whether an index is the one behind those of a first operation and so many more of the kind.
    fn has_next(self, at: u32, more: u32, next: u32) -> bool
        ensures { IsTrue result ↔ IsNext self at more next }
    {
        match self {
            RunKind::Insertions => next > at && next - at - 1 == more,
            RunKind::Deletions => next == at,
            RunKind::BackDeletions => at > next && at - next - 1 == more,
            RunKind::Marks => false,
        }
    }
}

impl Run {
    /// The run of one event, so many characters being inserted before it, and so many marks standing there.
    pub fn of_one(start: u32, op: &Op, chars_before: u32, marks_before: u32) -> Run
        ensures { result ≡ run_of_one start op.now chars_before marks_before }
    {
        let (kind, at) = match op {
            Op::Ins { at, .. } => (RunKind::Insertions, *at),
            Op::Del { at } => (RunKind::Deletions, *at),
            Op::Mark { .. } => (RunKind::Marks, marks_before),
        };
        Run {
            start,
            more: 0,
            kind,
            at,
            chars_before,
        }
    }

    /// How many characters there are up to the end of the run.
    pub fn chars_to_end(&self) -> usize
        ensures { result ≡ chars_to_end self.now }
    {
        let before = self.chars_before as usize;
        match self.kind {
            RunKind::Insertions => before + self.more as usize + 1,
            RunKind::Deletions => before,
            RunKind::BackDeletions => before,
            RunKind::Marks => before,
        }
    }

    /// What the event so many places behind the first one does to the text at its parents.
    pub fn change_behind(&self, offset: u32, chars: &[char]) -> TextOp
        requires within { offset ≤ self.now.more }
        requires fits { Fits self.now.kind self.now.at self.now.more }
        requires chars { chars_to_end self.now ≤ length chars.now }
        ensures { (labels : List (List ℕ)) → result ≡ own_change (op_in self.now.kind self.now.at self.now.chars_before (record { chars = chars.now; labels = labels }) offset) }
    {
        match self.kind {
            RunKind::Insertions => TextOp::Ins {
                at: self.at + offset,
                ch: chars[self.chars_before as usize + offset as usize],
            },
            RunKind::Deletions => TextOp::Del { at: self.at },
            RunKind::BackDeletions => TextOp::Del {
                at: self.at - offset,
            },
            RunKind::Marks => TextOp::Nothing,
        }
    }

    /// What its events but for so many at its beginning do to the texts at their parents.
    pub fn rest<'a>(&self, before: u32, chars: &'a [char]) -> OperationRun<'a>
        requires { IsRest self.now chars.now before }
        ensures changes { run_ops result ≡ changes_from self.now chars.now before }
        ensures fit { RunFits result }
    {
        let count = self.more - before + 1;
        match self.kind {
            RunKind::Insertions => {
                let from = self.chars_before as usize + before as usize;
                OperationRun::Insertions {
                    at: self.at + before,
                    chars: &chars[from..from + count as usize],
                }
            }
            RunKind::Deletions => OperationRun::Deletions { at: self.at, count },
            RunKind::BackDeletions => OperationRun::BackDeletions {
                at: self.at - before,
                count,
            },
            RunKind::Marks => OperationRun::Nothings { count },
        }
    }

    /// The operation so many places behind the first one.
    pub fn op_behind(&self, offset: u32, chars: &[char], labels: &[Name]) -> Op
        requires within { offset ≤ self.now.more }
        requires fits { Fits self.now.kind self.now.at self.now.more }
        requires chars { chars_to_end self.now ≤ length chars.now }
        requires label { HasLabel self.now.kind self.now.at (length labels.now) }
        ensures { result ≡ op_in self.now.kind self.now.at self.now.chars_before (record { chars = chars.now; labels = labels.now }) offset }
    {
        match self.change_behind(offset, chars) {
            TextOp::Ins { at, ch } => Op::Ins { at, ch },
            TextOp::Del { at } => Op::Del { at },
            TextOp::Nothing => Op::Mark {
                label: labels[self.at as usize],
            },
        }
    }

    /// The kind that the run is of once it has the event of another one behind its own.
    fn kind_with(&self, one: &Run) -> Option<RunKind>
        ensures some { IfSome result (λ kind. JoinsAs self.now one.now kind) }
        ensures none { IfNone result ((kind : RunKind) → JoinsAs self.now one.now kind → ⊥) }
    {
        if self.kind.sort() != one.kind.sort() {
            None
        } else if self.kind.has_next(self.at, self.more, one.at) {
            Some(self.kind)
        } else if self.more == 0 && self.kind.other().has_next(self.at, self.more, one.at) {
            Some(self.kind.other())
        } else {
            None
        }
    }
}

/// How many of the runs begin below a position.
fn count_below(runs: &[Run], end: u32) -> usize
    requires { (lists : List (List ℕ)) × (count : ℕ) × (chars : ℕ) × AreRuns 0 0 runs.now lists count chars }
    ensures bound { result ≤ length runs.now }
    ensures below { AllWithin (λ r. r.start < end) runs.now 0 result }
    ensures above { AllWithin (λ r. end ≤ r.start) runs.now result (length runs.now) }
{
    if all_begin_below(runs, end) {
        return runs.len();
    }
    count_passing(runs, |run| run.start < end)
}

/// Whether there are runs, and all of them begin below a position.
fn all_begin_below(runs: &[Run], end: u32) -> bool
    requires { (lists : List (List ℕ)) × (count : ℕ) × (chars : ℕ) × AreRuns 0 0 runs.now lists count chars }
    ensures { IsTrue result → AllWithin (λ r. r.start < end) runs.now 0 (length runs.now) }
{
    match runs.last() {
        Some(run) => run.start < end,
        None => false,
    }
}

/// The place of the run that has the event at a position, sought among all runs by halving.
fn search_runs(runs: &[Run], position: u32) -> usize
    requires { (lists : List (List ℕ)) × (count : ℕ) × (chars : ℕ) × AreRuns 0 0 runs.now lists count chars × (position < count) × (count < 2 ^ 32) }
    ensures { IsHeldAt runs.now result position }
{
    count_below(runs, position + 1) - 1
}

/// The place of the run that has the event at a position. Runs are looked at one after another from a place on, or all are
/// searched by halving where the one there begins behind the event.
fn find_run_from(runs: &[Run], position: u32, from: usize) -> usize
    requires { (lists : List (List ℕ)) × (count : ℕ) × (chars : ℕ) × AreRuns 0 0 runs.now lists count chars × (position < count) × (count < 2 ^ 32) }
    ensures { IsHeldAt runs.now result position }
{
    if begins_by(runs, from, position) {
        for place in from..runs.len() {
            if is_held_at(runs, place, position) {
                return place;
            }
        }
    }
    search_runs(runs, position)
}

/// Whether there is a run at a place, and it begins at a position or before it.
fn begins_by(runs: &[Run], place: usize, position: u32) -> bool
    ensures { IsTrue result → (run : Run) × (slice_get runs.now place ≡ Some run) × (run.start ≤ position) }
{
    match runs.get(place) {
        Some(run) => run.start <= position,
        None => false,
    }
}

/// The place of the run that has the event at a position. The search begins at the place that is kept for the event, if there is one.
pub fn find_run(runs: &[Run], starts: &Starts, position: u32) -> usize
    requires { (lists : List (List ℕ)) × (count : ℕ) × (chars : ℕ) × AreRuns 0 0 runs.now lists count chars × (position < count) × (count < 2 ^ 32) }
    ensures { IsHeldAt runs.now result position }
{
    match starts.get(position) {
        Some(from) => find_run_from(runs, position, from),
        None => search_runs(runs, position),
    }
}

/// The place of the run that has the event at a position. The run at the place `near` and the next one are tried first.
pub fn find_run_near(runs: &[Run], starts: &Starts, position: u32, near: usize) -> usize
    requires { (lists : List (List ℕ)) × (count : ℕ) × (chars : ℕ) × AreRuns 0 0 runs.now lists count chars × (position < count) × (count < 2 ^ 32) }
    ensures { IsHeldAt runs.now result position }
{
    if is_held_at(runs, near, position) {
        return near;
    }
    let next = near.wrapping_add(1);
    if is_held_at(runs, next, position) {
        return next;
    }
    find_run(runs, starts, position)
}

/// Whether the run at a place has the event at a position.
fn is_held_at(runs: &[Run], place: usize, position: u32) -> bool
    ensures { IsTrue result → IsHeldAt runs.now place position }
{
    match runs.get(place) {
        Some(run) => run.start <= position && position - run.start <= run.more,
        None => false,
    }
}

/// Puts the event of a run of one behind the others: into the last run, where the two go together, or else as a run of
/// its own.
pub fn put(
    runs: &mut Vec<Run>,
    lists: &mut NumberLists,
    one: Run,
    parents: &[u32],
) -> Result<(), NoMem>
    requires runs { AreRuns 0 0 runs.old.items lists.old one.start one.chars_before }
    requires one { one.more ≡ 0 }
    requires fits { one.at < 2 ^ 32 }
    requires room { one.start + 1 < 2 ^ 32 }
    ensures ok { OnOk result (GrowBy runs.old.items runs.new.items lists.old lists.new one parents.now) }
    ensures same_runs { OnErr result (runs.new.items ≡ runs.old.items) }
    ensures same_lists { OnErr result (lists.new ≡ lists.old) }
{
    match kind_of_last(runs, &one, parents) {
        Some(kind) => {
            lengthen_last(runs, kind);
            Ok(())
        }
        None => start_run(runs, lists, one, parents),
    }
}

/// The kind that the last run is of once it has the event of another one, with these parents, behind its own.
fn kind_of_last(runs: &[Run], one: &Run, parents: &[u32]) -> Option<RunKind>
    requires { (lists : List (List ℕ)) × (count : ℕ) × (chars : ℕ) × AreRuns 0 0 runs.now lists count chars × (count < 2 ^ 32) }
    ensures some { IfSome result (λ kind. LastJoinsAs runs.now one.now parents.now kind) }
    ensures none { IfNone result ((kind : RunKind) → LastJoinsAs runs.now one.now parents.now kind → ⊥) }
{
    let run = runs.last()?;
    if is_only(parents, run.start + run.more) {
        run.kind_with(one)
    } else {
        None
    }
}

/// Whether the position stands in the list alone.
fn is_only(positions: &[u32], position: u32) -> bool
    ensures { IsTrue result ↔ (positions.now ≡ position ∷ []) }
{
    positions.len() == 1 && positions[0] == position
}

/// Gives the last run an event more, and a kind.
fn lengthen_last(runs: &mut Vec<Run>, kind: RunKind)
    requires { (lists : List (List ℕ)) × (count : ℕ) × (chars : ℕ) × AreRuns 0 0 runs.old.items lists count chars × (count < 2 ^ 32) }
    ensures { (place : ℕ) (r : Run) → length runs.old.items ≡ suc place → slice_get runs.old.items place ≡ Some r → runs.new.items ≡ slice_set runs.old.items place (longer r kind) }
{
    let count = runs.len();
    if count > 0 {
        let run = runs[count - 1];
        runs[count - 1] = Run {
            more: run.more + 1,
            kind,
            ..run
        };
    }
}

/// Whether the last run is of a kind, and the next operation of its kind has this index.
pub fn last_takes(runs: &[Run], kind: RunKind, next: u32) -> bool
    ensures { IsTrue result → LastTakes runs.now kind next }
{
    match runs.last() {
        Some(run) => run.kind == kind && kind.has_next(run.at, run.more, next),
        None => false,
    }
}

/// Gives the last run so many events more.
pub fn lengthen_last_by(runs: &mut Vec<Run>, more: u32)
    requires { (lists : List (List ℕ)) × (count : ℕ) × (chars : ℕ) × AreRuns 0 0 runs.old.items lists count chars × (count + more < 2 ^ 32) }
    ensures { (place : ℕ) (r : Run) → length runs.old.items ≡ suc place → slice_get runs.old.items place ≡ Some r → runs.new.items ≡ slice_set runs.old.items place (longer_by r more) }
{
    let count = runs.len();
    if count > 0 {
        let run = runs[count - 1];
        runs[count - 1] = Run {
            more: run.more + more,
            ..run
        };
    }
}

/// Puts a run behind the others, and the parents of its first event.
fn start_run(
    runs: &mut Vec<Run>,
    lists: &mut NumberLists,
    one: Run,
    parents: &[u32],
) -> Result<(), NoMem>
    ensures runs { OnOk result (runs.new.items ≡ runs.old.items ++ one ∷ []) }
    ensures lists { OnOk result (lists.new ≡ lists.old ++ parents.now ∷ []) }
    ensures same_runs { OnErr result (runs.new.items ≡ runs.old.items) }
    ensures same_lists { OnErr result (lists.new ≡ lists.old) }
{
    runs.reserve(1)?;
    lists.push(parents)?;
    runs.push_reserved(one);
    Ok(())
}

/// Leaves the events below a position with their labels, and says how many characters they insert.
pub fn keep_below(runs: &mut Vec<Run>, labels: &mut Vec<Name>, end: u32) -> usize
    requires { (lists : List (List ℕ)) × (count : ℕ) × (chars : ℕ) × AreRuns 0 0 runs.old.items lists count chars }
    ensures events { (lists : List (List ℕ)) (count chars : ℕ) → AreRuns 0 0 runs.old.items lists count chars → end ≤ count → AreCutAt runs.old.items runs.new.items lists chars end result }
    ensures labels { AreLabelled 0 runs.old.items (length labels.old.items) → AreLabelled 0 runs.new.items (length labels.new.items) }
    ensures front { (n : ℕ) × (labels.new.items ≡ take n labels.old.items) }
{
    let kept = count_below(runs, end);
    labels.truncate(first_label(&runs[kept..], labels.len()));
    runs.truncate(kept);
    shorten_last(runs, end)
}

/// The place of the first mark's label, or else the one behind the last.
fn first_label(runs: &[Run], all: usize) -> usize
    ensures { result ≡ first_label runs.now all }
{
    match first_mark(runs) {
        Some(run) => run.at as usize,
        None => all,
    }
}

fn first_mark(runs: &[Run]) -> Option<&Run>
    ensures { option_copied result ≡ find (λ r. is_mark r.kind) runs.now }
{
    runs.iter().find(|run| run.kind.is_mark())
}

/// Leaves the events of the last run below a position, and says how many characters there are up to their end.
fn shorten_last(runs: &mut Vec<Run>, end: u32) -> usize
    requires { AllWithin (λ r. r.start < end) runs.old.items 0 (length runs.old.items) }
    ensures last { (place : ℕ) (r : Run) → length runs.old.items ≡ suc place → slice_get runs.old.items place ≡ Some r → (runs.new.items ≡ slice_set runs.old.items place (shorter r end)) × (result ≡ chars_to_end (shorter r end)) }
    ensures none { runs.old.items ≡ [] → (runs.new.items ≡ []) × (result ≡ 0) }
{
    let count = runs.len();
    if count > 0 {
        let run = Run {
            more: end - runs[count - 1].start - 1,
            ..runs[count - 1]
        };
        runs[count - 1] = run;
        run.chars_to_end()
    } else {
        0
    }
}
