//! What the events of a run do.

ghost use Rattle.std.specs.Prelude.{◌≡◌, [], ◌∷◌, ◌<◌, ◌^◌, length, IfSome, IfNone};
ghost use Rattle.file_words.specs.FileRuns.{ops_count, ops_in, takes_step, first_op, read_ops_of};
ghost use Rattle.event_file.specs.Reading.{Gives};
ghost use Rattle.event_file.specs.OpenRuns.{CanGoOn};
ghost use Rattle.event_file.specs.Runs.{numbers_in, ops_as};

use crate::fault::Stop;
use crate::format::{DELETION, INSERTION};
use crate::input::Input;
use ew_model::event::Op;
use ew_model::id::Id;
use ew_model::name::Name;
use ew_model::parents::Parents;

/// A run of a file: the id and the parents of its first event, and what its events do.
#[derive(Drop)]
pub(crate) struct FileRun<'a> {
    pub(crate) id: Id,
    pub(crate) parents: Parents,
    pub(crate) ops: RunOps<'a>,
}

/// Operations that take one step. Contracts see them by `ops_as`.
#[derive(Drop)]
pub enum RunOps<'a> {
    /// The characters stand at rising indices. Each has four bytes, the lowest first.
    Insertions { at: u32, text: &'a [u8] },
    /// All at one index.
    Deletions { at: u32, count: u32 },
    /// At falling indices.
    BackDeletions { at: u32, count: u32 },
    Mark { label: Name },
}

impl<'a> RunOps<'a> {
    /// The same operations a second time.
    pub(crate) fn again(&self) -> RunOps<'a>
        ensures { ops_as result ≡ ops_as self.now }
    {
        match self {
            RunOps::Insertions { at, text } => RunOps::Insertions { at: *at, text },
            RunOps::Deletions { at, count } => RunOps::Deletions {
                at: *at,
                count: *count,
            },
            RunOps::BackDeletions { at, count } => RunOps::BackDeletions {
                at: *at,
                count: *count,
            },
            RunOps::Mark { label } => RunOps::Mark { label: *label },
        }
    }

    /// How many operations these are.
    pub fn count(&self) -> usize
        ensures { result ≡ ops_count (ops_as self.now) }
    {
        match self {
            RunOps::Insertions { text, .. } => characters(text),
            RunOps::Deletions { count, .. } => *count as usize,
            RunOps::BackDeletions { count, .. } => *count as usize,
            RunOps::Mark { .. } => 1,
        }
    }

    /// Whether an operation takes their step: an insertion or a deletion, by its kind, at an index.
    pub(crate) fn takes_step(&self, kind: u8, at: u32) -> bool
        ensures { result ≡ takes_step (ops_as self.now) (first_op kind at) }
    {
        let is_insertion = kind == INSERTION;
        let at = at as usize;
        match self {
            RunOps::Insertions { at: first, text } => {
                is_insertion && at == *first as usize + characters(text)
            }
            RunOps::Deletions { at: first, count } => {
                !is_insertion && (at == *first as usize || *count == 1 && at + 1 == *first as usize)
            }
            RunOps::BackDeletions { at: first, count } => {
                !is_insertion && at + *count as usize == *first as usize
            }
            RunOps::Mark { .. } => false,
        }
    }

    /// Takes off the first operation. None where there is none.
    pub(crate) fn take_first(&mut self) -> Option<Op>
        requires { CanGoOn (ops_as self.old) }
        ensures some { IfSome result (λ op. ops_in (ops_as self.old) ≡ op ∷ ops_in (ops_as self.new)) }
        ensures none { IfNone result ((ops_in (ops_as self.old) ≡ []) × (self.new ≡ self.old)) }
        ensures go_on { CanGoOn (ops_as self.new) }
    {
        match self {
            RunOps::Insertions { at, text } => {
                let [a, b, c, d, left @ ..] = *text else {
                    return None;
                };
                let Some(ch) = char::from_u32(u32::from_le_bytes([*a, *b, *c, *d])) else {
                    unreachable!()
                };
                let op = Op::Ins { at: *at, ch };
                *text = left;
                if left.len() >= 4 {
                    *at += 1;
                }
                Some(op)
            }
            RunOps::Deletions { at, count } => {
                if *count == 0 {
                    return None;
                }
                *count -= 1;
                Some(Op::Del { at: *at })
            }
            RunOps::BackDeletions { at, count } => {
                if *count == 0 {
                    return None;
                }
                let op = Op::Del { at: *at };
                *count -= 1;
                *at = at.saturating_sub(1);
                Some(op)
            }
            RunOps::Mark { label } => {
                let op = Op::Mark { label: *label };
                *self = RunOps::Deletions { at: 0, count: 0 };
                Some(op)
            }
        }
    }
}

/// How many characters stand in the bytes.
fn characters(text: &[u8]) -> usize
    ensures value { result ≡ length (numbers_in text.now) }
    ensures small { result < 2 ^ 62 }
{
    text.len() / 4
}

/// The operations of a kind that isn't a mark, so many from an index on. The characters of insertions follow.
pub(crate) fn read_ops_of<'a>(
    kind: u8,
    at: u32,
    count: u32,
    input: &mut Input<'a>,
) -> Result<RunOps<'a>, Stop>
    ensures { Gives (λ ops. (ops_as ops, input.new.left.now)) result (read_ops_of kind at count input.old.left.now) }
{
    if kind == INSERTION {
        let text = input.text(count)?;
        return Ok(RunOps::Insertions { at, text });
    }
    if kind == DELETION {
        return Ok(RunOps::Deletions { at, count });
    }
    Ok(RunOps::BackDeletions { at, count })
}
