//! Operations that take one step.

ghost use Rattle.std.specs.Prelude.{◌≡◌, ◌<◌, ◌≤◌, ◌^◌, drop, length, slice_get, Some};
ghost use Rattle.event_runs.specs.RunOps.{ops_of, IndicesFit};
ghost use Rattle.event_runs.specs.Steps.{kind_of, index_in, chars_in};

use crate::runs::RunKind;
use ew_model::event::Op;

/// Operations in order, each of which takes the same step from the index of the one before.
#[derive(Clone, Copy)]
pub enum RunOps<'a> {
    /// Characters are put in from an index on, each right behind the one before.
    Insertions { at: u32, text: &'a [char] },
    /// So many deletions at one index.
    Deletions { at: u32, count: u32 },
    /// So many deletions from an index down, each right before the one before.
    BackDeletions { at: u32, count: u32 },
}

impl<'a> RunOps<'a> {
    /// How many operations there are.
    pub fn count(self) -> u32
        requires { length (ops_of self) < 2 ^ 32 }
        ensures { result ≡ length (ops_of self.entry) }
    {
        match self {
            RunOps::Insertions { at: _, text } => text.len() as u32,
            RunOps::Deletions { at: _, count } => count,
            RunOps::BackDeletions { at: _, count } => count,
        }
    }

    /// The operation at a place.
    pub fn get(self, place: u32) -> Op
        requires fit { IndicesFit self }
        requires within { place < length (ops_of self) }
        ensures { slice_get (ops_of self.entry) place ≡ Some result }
    {
        let at = self.index(place);
        match self {
            RunOps::Insertions { at: _, text } => Op::Ins {
                at,
                ch: text[place as usize],
            },
            RunOps::Deletions { .. } => Op::Del { at },
            RunOps::BackDeletions { .. } => Op::Del { at },
        }
    }

    /// The index of the operation at a place.
    pub(crate) fn index(self, place: u32) -> u32
        requires fit { IndicesFit self }
        requires within { place < length (ops_of self) }
        ensures { result ≡ index_in self.entry place }
    {
        match self {
            RunOps::Insertions { at, text: _ } => at + place,
            RunOps::Deletions { at, count: _ } => at,
            RunOps::BackDeletions { at, count: _ } => at - place,
        }
    }

    /// The kind of runs that the operations go on in.
    pub(crate) fn kind(self) -> RunKind
        ensures { result ≡ kind_of self.entry }
    {
        match self {
            RunOps::Insertions { .. } => RunKind::Insertions,
            RunOps::Deletions { .. } => RunKind::Deletions,
            RunOps::BackDeletions { .. } => RunKind::BackDeletions,
        }
    }

    /// The characters that the operations from a place on put in.
    pub(crate) fn chars_from(self, place: u32) -> &'a [char]
        requires { place ≤ length (ops_of self) }
        ensures { result.now ≡ drop place (chars_in self.entry) }
    {
        match self {
            RunOps::Insertions { at: _, text } => &text[place as usize..],
            RunOps::Deletions { .. } => &[],
            RunOps::BackDeletions { .. } => &[],
        }
    }
}
