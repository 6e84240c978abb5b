//! Operations that go on from one another.

ghost use Rattle.std.specs.Prelude.{◌≡◌, ◌<◌, ◌≤◌, ◌++◌, length, drop, take, slice_get, Some, OnOk, OnErr};
ghost use Rattle.operation_runs.specs.Runs.{run_ops, RunFits};

use ew_model::NoMem;
use ew_model::text_op::TextOp;

/// Operations on a text, each of which goes on from the one before it.
#[derive(Clone, Copy)]
pub enum OperationRun<'a> {
    /// Insertions of the characters: the first at the index, each further one right behind the one before.
    Insertions { at: u32, chars: &'a [char] },
    /// Deletions at one index.
    Deletions { at: u32, count: u32 },
    /// Deletions: the first at the index, each further one at the index before.
    BackDeletions { at: u32, count: u32 },
    /// Operations that change nothing.
    Nothings { count: u32 },
}

impl<'a> OperationRun<'a> {
    /// How many operations there are.
    pub fn count(&self) -> u32
        requires { RunFits self.now }
        ensures { result ≡ length (run_ops self.now) }
    {
        match *self {
            OperationRun::Insertions { at: _, chars } => chars.len() as u32,
            OperationRun::Deletions { at: _, count } => count,
            OperationRun::BackDeletions { at: _, count } => count,
            OperationRun::Nothings { count } => count,
        }
    }

    /// The operation at a place.
    pub fn get(&self, place: u32) -> TextOp
        requires fit { RunFits self.now }
        requires within { place < length (run_ops self.now) }
        ensures { slice_get (run_ops self.now) place ≡ Some result }
    {
        match *self {
            OperationRun::Insertions { at, chars } => TextOp::Ins {
                at: at + place,
                ch: chars[place as usize],
            },
            OperationRun::Deletions { at, count: _ } => TextOp::Del { at },
            OperationRun::BackDeletions { at, count: _ } => TextOp::Del { at: at - place },
            OperationRun::Nothings { count: _ } => TextOp::Nothing,
        }
    }

    /// The operations from a place on, up to another one.
    pub fn part(&self, from: u32, to: u32) -> OperationRun<'a>
        requires fit { RunFits self.now }
        requires some { from < to }
        requires within { to ≤ length (run_ops self.now) }
        ensures ops { run_ops result ≡ drop from (take to (run_ops self.now)) }
        ensures fit { RunFits result }
    {
        let count = to - from;
        match *self {
            OperationRun::Insertions { at, chars } => OperationRun::Insertions {
                at: at + from,
                chars: &chars[from as usize..to as usize],
            },
            OperationRun::Deletions { at, count: _ } => OperationRun::Deletions { at, count },
            OperationRun::BackDeletions { at, count: _ } => OperationRun::BackDeletions {
                at: at - from,
                count,
            },
            OperationRun::Nothings { count: _ } => OperationRun::Nothings { count },
        }
    }

    /// Puts the operations behind others, one by one. Where memory is wanting, the others stay as they are.
    pub fn push_to(&self, ops: &mut Vec<TextOp>) -> Result<(), NoMem>
        requires { RunFits self.now }
        ensures ok { OnOk result (ops.new.items ≡ ops.old.items ++ run_ops self.now) }
        ensures err { OnErr result (ops.new.items ≡ ops.old.items) }
    {
        let count = self.count();
        ops.reserve(count as usize)?;
        for place in 0..count {
            ops.push_reserved(self.get(place));
        }
        Ok(())
    }
}
