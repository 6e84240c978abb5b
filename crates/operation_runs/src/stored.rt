//! What is kept of runs.

ghost use Rattle.std.specs.Prelude.{◌≡◌, ◌+◌, ◌<◌, List, [], ◌∷◌, ℕ, length, vec_len, vec_capacity, IsTrue, IfSome};
ghost use Rattle.operation_runs.specs.Runs.{run_ops, RunFits};
ghost use Rattle.operation_runs.specs.Stored.{IsStored, AreStored, GoesOn, GoesBack, IsBoth, AreGrown, IsKeptOf, op_chars, run_chars, stored_chars, stored_ops};

use crate::run::OperationRun;
use ew_model::text_op::TextOp;

/// How the operations of a run go on from one another.
#[derive(Clone, Copy, PartialEq, Eq)]
pub enum RunKind {
    /// Insertions, each right behind the one before.
    Insertions,
    /// Deletions at one index.
    Deletions,
    /// Deletions, each at the index before.
    BackDeletions,
    /// Operations that change nothing.
    Nothings,
}

/// A run without the characters of its insertions.
#[derive(Clone, Copy)]
pub struct StoredRun {
    pub kind: RunKind,
    /// The index of the first operation, if it has one.
    pub at: u32,
    /// How many operations there are: one at least.
    pub count: u32,
}

impl StoredRun {
    /// What is kept of one operation.
    pub fn of_one(op: TextOp) -> StoredRun
        ensures { IsKeptOf (op ∷ []) (op_chars op) result }
    {
        let (kind, at) = match op {
            TextOp::Ins { at, ch: _ } => (RunKind::Insertions, at),
            TextOp::Del { at } => (RunKind::Deletions, at),
            TextOp::Nothing => (RunKind::Nothings, 0),
        };
        StoredRun { kind, at, count: 1 }
    }

    /// What is kept of a run.
    pub fn of(run: OperationRun<'_>) -> StoredRun
        requires fits { RunFits run }
        requires some { 0 < length (run_ops run) }
        ensures { IsKeptOf (run_ops run.entry) (run_chars run.entry) result }
    {
        let count = run.count();
        let (kind, at) = match run {
            OperationRun::Insertions { at, chars: _ } => (RunKind::Insertions, at),
            OperationRun::Deletions { at, count: _ } => (RunKind::Deletions, at),
            OperationRun::BackDeletions { at, count: _ } => (RunKind::BackDeletions, at),
            OperationRun::Nothings { count: _ } => (RunKind::Nothings, 0),
        };
        StoredRun { kind, at, count }
    }

    /// How many characters its operations insert.
    pub fn char_count(&self) -> usize
        ensures { result ≡ stored_chars self.now }
    {
        match self.kind {
            RunKind::Insertions => self.count as usize,
            RunKind::Deletions | RunKind::BackDeletions | RunKind::Nothings => 0,
        }
    }

    /// The run, whose insertions have these characters.
    pub fn with_chars<'a>(&self, chars: &'a [char]) -> OperationRun<'a>
        requires stored { IsStored self.now }
        requires chars { length chars.now ≡ stored_chars self.now }
        ensures ops { run_ops result ≡ stored_ops self.now chars.now }
        ensures fits { RunFits result }
    {
        let StoredRun { kind, at, count } = *self;
        match kind {
            RunKind::Insertions => OperationRun::Insertions { at, chars },
            RunKind::Deletions => OperationRun::Deletions { at, count },
            RunKind::BackDeletions => OperationRun::BackDeletions { at, count },
            RunKind::Nothings => OperationRun::Nothings { count },
        }
    }

    /// The run with the operations of another one behind its own, where they go on from these.
    fn joined(self, next: StoredRun) -> Option<StoredRun>
        requires first { IsStored self }
        requires next { IsStored next }
        ensures { IfSome result (λ both. IsBoth self next both) }
    {
        let kind = self.kind_with(next)?;
        let count = self.count.checked_add(next.count)?;
        Some(StoredRun {
            kind,
            at: self.at,
            count,
        })
    }

    /// The kind that the run is of once it has the operations of another one behind its own.
    fn kind_with(self, next: StoredRun) -> Option<RunKind>
        requires first { IsStored self }
        requires next { IsStored next }
        ensures { IfSome result (λ kind. GoesOn self next kind) }
    {
        match (self.kind, next.kind) {
            (RunKind::Insertions, RunKind::Insertions) if self.ends_before(next.at) => {
                Some(RunKind::Insertions)
            }
            (RunKind::Deletions, RunKind::Deletions) if self.at == next.at => {
                Some(RunKind::Deletions)
            }
            (RunKind::Nothings, RunKind::Nothings) => Some(RunKind::Nothings),
            _ if self.goes_back_to(next) => Some(RunKind::BackDeletions),
            _ => None,
        }
    }

    /// Whether an index is so many behind that of the first operation as there are operations.
    fn ends_before(self, index: u32) -> bool
        ensures { IsTrue result → index ≡ self.at + self.count }
    {
        u64::from(index) == u64::from(self.at) + u64::from(self.count)
    }

    /// Whether both are deletions, each at the index before, and those of the other one go on from these.
    fn goes_back_to(self, next: StoredRun) -> bool
        requires first { IsStored self }
        requires next { IsStored next }
        ensures { IsTrue result → GoesOn self next RunKind.BackDeletions }
    {
        if !self.goes_back() || !next.goes_back() {
            return false;
        }
        u64::from(next.at) + u64::from(self.count) == u64::from(self.at)
    }

    /// Whether the operations are deletions, each at the index before.
    fn goes_back(self) -> bool
        requires { IsStored self }
        ensures { IsTrue result → GoesBack self }
    {
        match self.kind {
            RunKind::BackDeletions => true,
            RunKind::Deletions => self.count == 1,
            RunKind::Insertions | RunKind::Nothings => false,
        }
    }
}

/// Puts a run behind the others, into the last of these where it goes on from it.
pub fn put(runs: &mut Vec<StoredRun>, one: StoredRun)
    requires room { vec_len runs.old < vec_capacity runs.old }
    requires runs { (chars : List ℕ) × AreStored runs.old.items chars }
    requires stored { IsStored one }
    ensures { (chars more : List ℕ) → AreStored runs.old.items chars → length more ≡ stored_chars one → AreGrown runs.old.items chars one more runs.new.items }
{
    let count = runs.len();
    if count == 0 {
        runs.push_reserved(one);
        return;
    }
    match runs[count - 1].joined(one) {
        Some(both) => runs[count - 1] = both,
        None => runs.push_reserved(one),
    }
}
