//! What the events of a run do, as the run is written.

ghost use Rattle.std.specs.Prelude.{◌≡◌, ℕ, ◌-◌, ◌<◌, ◌^◌, [], ◌∷◌, ◌++◌, List, length, vec_capacity, OnOk, OnErr, if◌then◌else◌, ◌==◌};
ghost use Rattle.ew_model.specs.Bytes.{four_bytes};
ghost use Rattle.file_words.specs.FileRuns.{ops_count, op_alone, takes_step, with_op, run_ops_bytes};
ghost use Rattle.file_words.specs.FileRuns as model;
ghost use Rattle.event_file.specs.LastRuns.{are_only_last, goes_on};
ghost use Rattle.event_file.specs.Steps.{ops_of, counted, run_of, with_character};

use crate::format::{BACK_DELETIONS, DELETION, INSERTION, MARK};
use crate::writing::{put_name, put_number};
use ew_model::NoMem;
use ew_model::event::Op;
use ew_model::name::Name;

/// What the events of a run do. The characters of insertions stand apart, in a room that all runs share.
#[derive(Clone, Copy)]
pub(crate) enum Steps {
    /// They insert characters at rising indices.
    Insertions { at: u32 },
    /// They delete at one index.
    Deletions { at: u32, count: u32 },
    /// They delete at falling indices.
    BackDeletions { at: u32, count: u32 },
    /// It is one mark.
    OneMark { label: Name },
}

/// A run that the next event may continue: the place of its agent, the number of its first event, and what its events do.
#[derive(Clone, Copy)]
pub(crate) struct LastRun {
    pub(crate) agent: u32,
    pub(crate) seq: u32,
    pub(crate) steps: Steps,
}

impl LastRun {
    /// Whether an event continues the run, which has these characters, and whose last event is the last of so many.
    pub(crate) fn is_gone_on(
        &self,
        text: &[char],
        count: u32,
        agent: u32,
        seq: u32,
        parents: &[u32],
        op: &Op,
    ) -> bool
        requires { ops_count (ops_of self.now.steps text.now) < 2 ^ 32 }
        ensures { result ≡ goes_on count (run_of text.now self.now) agent seq parents.now op.now }
    {
        self.agent == agent
            && seq as usize == self.seq as usize + self.steps.count(text)
            && are_only_last(count, parents)
            && self.steps.are_gone_on(text, op)
    }
}

/// Whether there is one place, and it is that of the last of so many events.
fn are_only_last(count: u32, parents: &[u32]) -> bool
    ensures { result ≡ are_only_last count parents.now }
{
    match parents {
        [parent] => *parent as u64 + 1 == count as u64,
        _ => false,
    }
}

impl Steps {
    /// What one event does.
    pub(crate) fn alone(op: &Op) -> Steps
        ensures { ops_of result (with_character [] op.now) ≡ op_alone op.now }
    {
        match op {
            Op::Ins { at, ch: _ } => Steps::Insertions { at: *at },
            Op::Del { at } => Steps::Deletions { at: *at, count: 1 },
            Op::Mark { label } => Steps::OneMark { label: *label },
        }
    }

    /// How many events there are, with these characters.
    pub(crate) fn count(&self, text: &[char]) -> usize
        ensures { result ≡ ops_count (ops_of self.now text.now) }
    {
        match self {
            Steps::Insertions { at: _ } => text.len(),
            Steps::Deletions { at: _, count } => *count as usize,
            Steps::BackDeletions { at: _, count } => *count as usize,
            Steps::OneMark { label: _ } => 1,
        }
    }

    /// Whether the operation takes the step of those before it.
    pub(crate) fn are_gone_on(&self, text: &[char], op: &Op) -> bool
        ensures { result ≡ takes_step (ops_of self.now text.now) op.now }
    {
        match self {
            Steps::Insertions { at } => match op {
                Op::Ins { at: index, ch: _ } => *index as usize == *at as usize + text.len(),
                Op::Del { at: _ } => false,
                Op::Mark { label: _ } => false,
            },
            Steps::Deletions { at, count } => match op {
                Op::Ins { at: _, ch: _ } => false,
                Op::Del { at: index } => {
                    *index == *at || (*count == 1 && *index as u64 + 1 == *at as u64)
                }
                Op::Mark { label: _ } => false,
            },
            Steps::BackDeletions { at, count } => match op {
                Op::Ins { at: _, ch: _ } => false,
                Op::Del { at: index } => *index as u64 + *count as u64 == *at as u64,
                Op::Mark { label: _ } => false,
            },
            Steps::OneMark { label: _ } => false,
        }
    }

    /// The same with one operation more, which takes their step.
    pub(crate) fn longer(&self, op: &Op) -> Steps
        requires { counted self.now < 2 ^ 32 - 1 }
        ensures { (text : List ℕ) → ops_of result (with_character text op.now) ≡ with_op (ops_of self.now text) op.now }
    {
        match self {
            Steps::Insertions { at } => Steps::Insertions { at: *at },
            Steps::Deletions { at, count } => match op {
                Op::Ins { at: _, ch: _ } => *self,
                Op::Del { at: index } => deleted(*at, *count + 1, *index),
                Op::Mark { label: _ } => *self,
            },
            Steps::BackDeletions { at, count } => Steps::BackDeletions {
                at: *at,
                count: *count + 1,
            },
            Steps::OneMark { label } => Steps::OneMark { label: *label },
        }
    }

    /// Puts what the events do behind other bytes.
    pub(crate) fn put(&self, out: &mut Vec<u8>, text: &[char]) -> Result<(), NoMem>
        requires { ops_count (ops_of self.now text.now) < 2 ^ 32 }
        ensures { OnOk result (out.new.items ≡ out.old.items ++ run_ops_bytes (ops_of self.now text.now)) }
    {
        match self {
            Steps::Insertions { at } => put_insertions(out, *at, text),
            Steps::Deletions { at, count } => put_deletions(out, DELETION, *at, *count),
            Steps::BackDeletions { at, count } => put_deletions(out, BACK_DELETIONS, *at, *count),
            Steps::OneMark { label } => {
                out.push(MARK)?;
                put_name(out, label)
            }
        }
    }
}

/// Deletions from an index on, of which the last but one was at that index, and the last is at this one.
fn deleted(at: u32, count: u32, last: u32) -> Steps
    ensures { (text : List ℕ) → ops_of result text ≡ (if last == at then model.Deletions at count else model.BackDeletions at count) }
{
    if last == at {
        Steps::Deletions { at, count }
    } else {
        Steps::BackDeletions { at, count }
    }
}

fn put_insertions(out: &mut Vec<u8>, at: u32, text: &[char]) -> Result<(), NoMem>
    requires { length text.now < 2 ^ 32 }
    ensures { OnOk result (out.new.items ≡ out.old.items ++ run_ops_bytes (model.Insertions at text.now)) }
{
    out.push(INSERTION)?;
    put_number(out, at)?;
    put_number(out, text.len() as u32)?;
    for ch in text {
        put_number(out, *ch as u32)?;
    }
    Ok(())
}

fn put_deletions(out: &mut Vec<u8>, kind: u8, at: u32, count: u32) -> Result<(), NoMem>
    ensures { OnOk result (out.new.items ≡ out.old.items ++ (kind ∷ four_bytes at ++ four_bytes count)) }
{
    out.push(kind)?;
    put_number(out, at)?;
    put_number(out, count)
}

/// Keeps the character of one operation more, if it has one.
pub(crate) fn keep_character(text: &mut Vec<char>, op: &Op) -> Result<(), NoMem>
    ensures ok { OnOk result (text.new.items ≡ with_character text.old.items op.now) }
    ensures err { OnErr result (text.new.items ≡ text.old.items) }
{
    match op {
        Op::Ins { at: _, ch } => {
            text.push(*ch)?;
            Ok(())
        }
        Op::Del { at: _ } => Ok(()),
        Op::Mark { label: _ } => Ok(()),
    }
}

/// Keeps the character of a first operation, if it has one, and no other.
pub(crate) fn begin_text(text: &mut Vec<char>, op: &Op)
    requires { 0 < vec_capacity text.old }
    ensures { text.new.items ≡ with_character [] op.now }
{
    text.clear();
    if let Op::Ins { at: _, ch } = op {
        text.push_reserved(*ch);
    }
}
