//! Local edits, the operations that they make, and what these do to the text.

ghost use Rattle.std.specs.Prelude.{◌≡◌, ◌+◌, ◌<◌, ◌^◌, ◌∷◌, length, map, IfOk};
ghost use Rattle.std.specs.Str.{chars};
ghost use Rattle.ew_model.specs.Edits as model;
ghost use Rattle.ew_model.specs.TextLaws.{own_change};
ghost use Rattle.event_runs.specs.RunOps.{ops_of, IndicesFit};

use event_runs::RunOps;
use ew_model::NoMem;
use ew_model::event::Op;
use ew_model::text_op::TextOp;
use std::alloc::Global;

/// An edit of the whole text.
#[derive(Drop)]
pub enum Edit {
    /// Puts the characters at the index.
    Insert { at: u32, text: Vec<char> },
    /// Deletes n characters from the index on.
    Delete { at: u32, n: u32 },
}

impl Edit {
    ghost use Rattle.ew_model.specs.EditLaws.{size_of};
    ghost use Rattle.replica.specs.Editing.{edit_view};

    /// How many characters the text has to have.
    pub fn needed(&self) -> u64
        ensures { result ≡ model.needed_length (edit_view self.now) }
    {
        match self {
            Edit::Insert { at, text: _ } => u64::from(*at),
            Edit::Delete { at, n } => u64::from(*at) + u64::from(*n),
        }
    }

    /// How many characters it inserts or deletes.
    pub fn size(&self) -> u64
        ensures { result ≡ size_of (edit_view self.now) }
    {
        match self {
            Edit::Insert { at: _, text } => text.len() as u64,
            Edit::Delete { at: _, n } => u64::from(*n),
        }
    }

    /// Its operations: the first, and the others, which go on from it by one step each.
    pub fn ops(&self) -> (Op, RunOps<'_>)
        requires some { 0 < size_of (edit_view self.now) }
        requires small { model.needed_length (edit_view self.now) + size_of (edit_view self.now) < 2 ^ 32 }
        ensures ops { result.0 ∷ ops_of result.1 ≡ model.ops_of (edit_view self.now) }
        ensures fit { IndicesFit result.1 }
    {
        match self {
            Edit::Insert { at, text } => insertions(*at, text.as_slice()),
            Edit::Delete { at, n } => deletions(*at, *n),
        }
    }

    /// What its operations do to the text, in order.
    pub fn changes(&self, alloc: Global) -> Result<Vec<TextOp>, NoMem>
        requires small { model.needed_length (edit_view self.now) + size_of (edit_view self.now) < 2 ^ 32 }
        ensures { IfOk result (λ v. v.items ≡ map own_change (model.ops_of (edit_view self.now))) }
    {
        match self {
            Edit::Insert { at, text } => typed(alloc, *at, text.as_slice()),
            Edit::Delete { at, n } => taken_out(alloc, *at, *n),
        }
    }
}

/// The insertions of the characters, one behind the other: the first, and the others.
#[tactic(auto, using(crate::proofs::EditOps::first_insertion))]
fn insertions(at: u32, text: &[char]) -> (Op, RunOps<'_>)
    requires some { 0 < length text.now }
    requires small { at + length text.now < 2 ^ 32 }
    ensures ops { result.0 ∷ ops_of result.1 ≡ model.insertions_at at text.now }
    ensures fit { IndicesFit result.1 }
{
    let first = Op::Ins { at, ch: text[0] };
    let rest = RunOps::Insertions {
        at: at + 1,
        text: &text[1..],
    };
    (first, rest)
}

/// As many deletions, each at the index: the first, and the others.
#[tactic(auto, using(crate::proofs::EditOps::first_deletion))]
fn deletions<'a>(at: u32, n: u32) -> (Op, RunOps<'a>)
    requires { 0 < n }
    ensures ops { result.0 ∷ ops_of result.1 ≡ model.deletions_at at n }
    ensures fit { IndicesFit result.1 }
{
    (Op::Del { at }, RunOps::Deletions { at, count: n - 1 })
}

/// What insertions of the characters do to the text, one behind the other.
#[tactic(auto, using(crate::proofs::EditOps::typed_more))]
fn typed(alloc: Global, at: u32, text: &[char]) -> Result<Vec<TextOp>, NoMem>
    requires { at + length text.now < 2 ^ 32 }
    ensures { IfOk result (λ v. v.items ≡ map own_change (model.insertions_at at text.now)) }
{
    let mut changes = Vec::with_capacity(alloc, text.len())?;
    for (i, ch) in text.iter().enumerate() {
        let place = at + i as u32;
        changes.push(TextOp::Ins { at: place, ch: *ch })?;
    }
    Ok(changes)
}

/// What as many deletions do to the text, each at the index.
fn taken_out(alloc: Global, at: u32, n: u32) -> Result<Vec<TextOp>, NoMem>
    ensures { IfOk result (λ v. v.items ≡ map own_change (model.deletions_at at n)) }
{
    let mut changes = Vec::new(alloc);
    changes.resize(n as usize, TextOp::Del { at })?;
    Ok(changes)
}

/// The characters of a text.
pub fn characters(alloc: Global, text: &str) -> Result<Vec<char>, NoMem>
    ensures { IfOk result (λ v. v.items ≡ chars text.now) }
{
    text.chars().collect(alloc)
}
