//! A text that is changed at an index.

ghost use Rattle.std.specs.Prelude.{◌≡◌, ◌+◌, ◌*◌, ◌^◌, ◌<◌, ◌≤◌, [], ◌++◌, length, insert, remove, take, drop, slice_get, Some, encode_utf8_all, IfOk, OnOk, OnErr};
ghost use Rattle.ew_model.specs.Operations.{changed_by_all};
ghost use Rattle.ew_model.specs.TextLaws.{AllFit};
ghost use Rattle.rope.specs.Lengths.{most_chars, AllStayShort};
ghost use Rattle.rope.specs.Changes.{room_for_all};
ghost use Rattle.rope.specs.Counts.{Reaches};
ghost use Rattle.rope.specs.Extents.{extent, IsIndexBehind};
ghost use Rattle.rope.specs.Typed.{IsTyped};

use crate::branch::Branch;
use crate::extents::Measure;
use crate::root::{MOST_BLOCKS, change_all, change_by_runs, copy_root, insert_typed, remove_chars};
use crate::spares::Spares;
use crate::typed::typed_at;
use ew_model::NoMem;
use ew_model::text_op::TextOp;
use operation_runs::OperationRuns;
use std::alloc::Global;
use std::marker::Model;

/// Operations with up to this share of the number of leaves are done in place.
const FEW_SHARE: usize = 16;

/// The nodes of a text, counted.
#[derive(Clone, Copy, Debug, PartialEq, Eq)]
pub struct Shape {
    /// The leaves, each of one to sixty-four characters.
    pub leaves: u32,
    /// The levels of nodes, leaves included.
    pub depth: u32,
}

/// A text of at most 16,777,216 characters. Contracts see the list of its characters, and the numbers of leaves and of levels that
/// its tree has.
#[derive(Drop)]
pub struct Rope {
    alloc: Global,
    root: Option<Branch>,
}

impl Model for Rope {
    ghost use Rattle.std.specs.Prelude.{length, ◌≤◌};
    ghost use Rattle.rope.specs.Lengths.{most_chars};
    ghost use Rattle.rope.specs.Whole.{Tree, chars_of_root, leaves_of, depth_of, IsRoot};

    ghost Value = { Tree };

    ghost view = { λ r. record { chars = chars_of_root r.root; leaves = leaves_of r.root; depth = depth_of r.root } };

    ghost invariant = { λ r. IsRoot r.root × (length (chars_of_root r.root) ≤ most_chars) };
}

impl Rope {
    /// The empty text.
    pub fn new(alloc: Global) -> Result<Rope, NoMem>
        ensures { IfOk result (λ r. r ≡ record { chars = []; leaves = 0; depth = 0 }) }
    {
        Ok(Rope { alloc, root: None })
    }

    /// The text that operations make of the empty one.
    pub fn written(alloc: Global, ops: &OperationRuns) -> Result<Rope, NoMem>
        requires fit { AllFit [] ops.now }
        requires short { AllStayShort [] ops.now }
        ensures { IfOk result (λ r. r.chars ≡ changed_by_all ops.now []) }
    {
        let mut root = None;
        change_by_runs(alloc, &mut root, ops)?;
        Ok(Rope { alloc, root })
    }

    /// How many characters the text has.
    pub fn len(&self) -> u32
        ensures count { result ≡ length self.now.chars }
        ensures short { length self.now.chars ≤ most_chars }
    {
        match &self.root {
            None => 0,
            Some(branch) => branch.len(),
        }
    }

    /// The number of leaves and of levels of the tree's nodes.
    pub fn shape(&self) -> Shape
        ensures leaves { result.leaves ≡ self.now.leaves }
        ensures depth { result.depth ≡ self.now.depth }
        ensures enough { length self.now.chars ≤ 64 * result.leaves }
        ensures bound { 0 < length self.now.chars → 2 ^ result.depth ≤ 2 * result.leaves }
        ensures some { result.leaves ≤ length self.now.chars }
        ensures most { result.leaves ≤ most_chars }
        ensures none { self.now.chars ≡ [] → result.depth ≡ 0 }
    {
        match &self.root {
            None => Shape {
                leaves: 0,
                depth: 0,
            },
            Some(branch) => Shape {
                leaves: branch.leaves(),
                depth: branch.depth(),
            },
        }
    }

    /// The number of leaves of the tree: 0 without characters.
    pub fn leaves(&self) -> u32
        ensures value { result ≡ self.now.leaves }
        ensures enough { length self.now.chars ≤ 64 * result }
        ensures some { result ≤ length self.now.chars }
        ensures most { result ≤ most_chars }
    {
        self.shape().leaves
    }

    /// The number of levels of nodes, leaves included: 0 without characters.
    pub fn depth(&self) -> u32
        ensures value { result ≡ self.now.depth }
        ensures bound { 0 < length self.now.chars → 2 ^ result ≤ 2 * self.now.leaves }
        ensures enough { length self.now.chars ≤ 64 * self.now.leaves }
        ensures some { self.now.leaves ≤ length self.now.chars }
        ensures none { self.now.chars ≡ [] → result ≡ 0 }
    {
        self.shape().depth
    }

    /// The character at the index.
    pub fn char_at(&self, i: u32) -> char
        requires { i < length self.now.chars }
        ensures { slice_get self.now.chars i ≡ Some result }
    {
        let Some(branch) = &self.root else {
            unreachable!()
        };
        branch.char_at(i)
    }

    /// Puts the character at the index, before what stands there.
    pub fn insert(&mut self, at: u32, ch: char) -> Result<(), NoMem>
        requires within { at ≤ length self.old.chars }
        requires short { length self.old.chars < most_chars }
        ensures ok { OnOk result (self.new.chars ≡ insert self.old.chars at ch) }
        ensures err { OnErr result (self.new ≡ self.old) }
    {
        let mut spares = Spares::new(self.alloc);
        insert_typed(&mut self.root, at, &[TextOp::Ins { at, ch }], &mut spares)
    }

    /// Takes the character at the index out.
    pub fn remove(&mut self, at: u32) -> Result<(), NoMem>
        requires within { at < length self.old.chars }
        ensures ok { OnOk result (self.new.chars ≡ remove self.old.chars at) }
        ensures err { OnErr result (self.new ≡ self.old) }
    {
        remove_chars(&mut self.root, at, 1);
        Ok(())
    }

    /// Does the operations one after another. All room is made first, so a refusal comes before any of them is done.
    pub fn apply(&mut self, ops: &[TextOp]) -> Result<(), NoMem>
        requires fit { AllFit self.old.chars ops.now }
        requires short { AllStayShort self.old.chars ops.now }
        ensures ok { OnOk result (self.new.chars ≡ changed_by_all ops.now self.old.chars) }
        ensures err { OnErr result (self.new ≡ self.old) }
    {
        if let Some(at) = typed_at(ops) {
            return self.change_typed(at, ops);
        }
        let insertions = count_insertions(ops);
        if insertions <= self.leaves() as usize / FEW_SHARE {
            self.change_here(insertions as u32, ops)
        } else {
            self.change_copy(ops)
        }
    }

    /// How much of a measure the characters below an index take, or all where there are fewer.
    pub fn extent_before(&self, measure: Measure, at: u32) -> u64
        ensures { result ≡ extent measure (take at self.now.chars) }
    {
        match &self.root {
            None => 0,
            Some(branch) => branch.extent_before(measure, at),
        }
    }

    /// The index before which the characters take just so much of a measure. There is none within a character, nor behind the end.
    pub fn index_behind(&self, measure: Measure, much: u64) -> Option<u32>
        ensures { IsIndexBehind measure self.now.chars much result }
    {
        let (at, rest) = self.reach(measure, much);
        if rest == 0 { Some(at) } else { None }
    }

    /// Puts the UTF-8 of so many characters from an index on, or of as many as there are, behind the bytes of the vector. A refusal leaves
    /// the vector as it was.
    pub fn write_range(&self, from: u32, n: u32, to: &mut Vec<u8>) -> Result<(), NoMem>
        ensures ok { OnOk result (to.new.items ≡ to.old.items ++ encode_utf8_all (take n (drop from self.now.chars))) }
        ensures err { OnErr result (to.new.items ≡ to.old.items) }
    {
        match &self.root {
            None => Ok(()),
            Some(branch) => branch.write_range(from, n, to),
        }
    }

    /// Puts the UTF-8 of all characters behind the bytes of the vector. A refusal leaves the vector as it was.
    pub fn write_to(&self, to: &mut Vec<u8>) -> Result<(), NoMem>
        ensures ok { OnOk result (to.new.items ≡ to.old.items ++ encode_utf8_all self.now.chars) }
        ensures err { OnErr result (to.new.items ≡ to.old.items) }
    {
        match &self.root {
            None => Ok(()),
            Some(branch) => branch.write_to(to),
        }
    }
}

impl Rope {
    /// The index at which so much of a measure ends, or of the character in which it does, and how much of it is left there.
    fn reach(&self, measure: Measure, much: u64) -> (u32, u64)
        ensures { Reaches measure self.now.chars much result.0 result.1 }
    {
        match &self.root {
            None => (0, much),
            Some(branch) => branch.reach(measure, much),
        }
    }

    /// Puts the characters of typed operations in, by one way down.
    fn change_typed(&mut self, at: u32, ops: &[TextOp]) -> Result<(), NoMem>
        requires some { 0 < length ops.now }
        requires few { length ops.now ≤ 32 }
        requires typed { IsTyped at ops.now }
        requires fit { AllFit self.old.chars ops.now }
        requires short { AllStayShort self.old.chars ops.now }
        ensures ok { OnOk result (self.new.chars ≡ changed_by_all ops.now self.old.chars) }
        ensures err { OnErr result (self.new ≡ self.old) }
    {
        let mut spares = Spares::new(self.alloc);
        insert_typed(&mut self.root, at, ops, &mut spares)?;
        Ok(())
    }

    /// Does operations with few insertions, for all of which leaves and blocks are held first.
    fn change_here(&mut self, insertions: u32, ops: &[TextOp]) -> Result<(), NoMem>
        requires fit { AllFit self.old.chars ops.now }
        requires short { AllStayShort self.old.chars ops.now }
        requires few { insertions ≤ most_chars }
        requires counted { insertions ≡ room_for_all ops.now }
        ensures ok { OnOk result (self.new.chars ≡ changed_by_all ops.now self.old.chars) }
        ensures err { OnErr result (self.new ≡ self.old) }
    {
        let mut spares = Spares::new(self.alloc);
        spares.hold(insertions, MOST_BLOCKS * insertions)?;
        let Ok(()) = change_all(&mut self.root, ops, &mut spares) else {
            unreachable!()
        };
        Ok(())
    }

    /// Does operations with so many insertions that a copy of the nodes costs no more: it takes what it needs on the way, and stands in
    /// the place of the old nodes once all is done.
    fn change_copy(&mut self, ops: &[TextOp]) -> Result<(), NoMem>
        requires fit { AllFit self.old.chars ops.now }
        requires short { AllStayShort self.old.chars ops.now }
        ensures ok { OnOk result (self.new.chars ≡ changed_by_all ops.now self.old.chars) }
        ensures err { OnErr result (self.new ≡ self.old) }
    {
        let mut spares = Spares::new(self.alloc);
        let mut changed = copy_root(&self.root, self.alloc)?;
        change_all(&mut changed, ops, &mut spares)?;
        self.root = changed;
        Ok(())
    }
}

fn count_insertions(ops: &[TextOp]) -> usize
    ensures { result ≡ room_for_all ops.now }
{
    ops.iter()
        .filter(|op| matches!(op, TextOp::Ins { .. }))
        .count()
}
