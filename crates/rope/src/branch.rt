//! A branch of the tree: a node, and what is kept of the characters below it.

ghost use Rattle.std.specs.Prelude.{◌≡◌, ◌+◌, ◌^◌, ◌<◌, ◌≤◌, ◌↔◌, IsTrue, Some, ◌++◌, length, take, drop, slice_get, encode_utf8_all, vec_capacity, IfOk, IsOk, OnOk, OnErr};
ghost use Rattle.rope.specs.Blocks.{IsRoomy};
ghost use Rattle.rope.specs.Counts.{wide_chars, utf8_bytes, Reaches};
ghost use Rattle.rope.specs.Deletions.{without};
ghost use Rattle.rope.specs.Extents.{extent};
ghost use Rattle.rope.specs.Nodes.{all_chars};
ghost use Rattle.rope.specs.Shape.{AllBelow, IsSound, least};
ghost use Rattle.rope.specs.Rights.{chars_of_right, IsLike, IsLeft, IsGrown, IsLastOf};
ghost use Rattle.rope.specs.Typed.{typed};

use crate::extents::Measure;
use crate::halves::{insert_in_leaf, put_kid, settle};
use crate::kids::{Sizes, above_kids, kid_at, kid_open, needed, sizes_in};
use crate::leaf::Leaf;
use crate::mend::mend;
use crate::spares::{MOST_KIDS, Spares};
use ew_model::NoMem;
use ew_model::text_op::TextOp;
use std::alloc::Global;
use std::marker::Model;

/// A branch: the node at its top, with the number of its levels, of the characters below it and of the leaves, and with how many of the
/// characters take two code units of UTF-16 and how many bytes of UTF-8 all take. The heap block of a node has room for sixteen branches,
/// or for the characters of a leaf.
#[cycle(tree)]
#[derive(Drop)]
pub struct Branch {
    depth: u32,
    count: u32,
    leaves: u32,
    wide: u32,
    bytes: u64,
    node: Node,
}

#[cycle(tree)]
#[derive(Drop)]
enum Node {
    Leaf(Leaf),
    Inner(Vec<Branch>),
}

impl Model for Branch {
    ghost use Rattle.rope.specs.Nodes.{Seen};

    ghost Value = { Seen };

    ghost use Rattle.rope.specs.Shape.{chars_in, parts_in, IsBranch};

    ghost view = { λ b. record { chars = chars_in b.node; depth = b.depth; leaves = b.leaves; parts = parts_in b.node } };

    ghost invariant = { λ b. IsBranch b.depth b.count b.leaves b.wide b.bytes b.node };

    ghost size = { λ t. t.depth };

    ghost use Rattle.rope.specs.Falls.{depth_falls};

    ghost size_decreases = { λ b h. depth_falls b.depth b.count b.leaves b.wide b.bytes b.node h };
}

impl Branch {
    /// A leaf.
    pub fn leaf(leaf: Leaf) -> Branch
        requires { 0 < length leaf }
        ensures chars { result.chars ≡ leaf }
        ensures depth { result.depth ≡ 1 }
        ensures sound { IsSound result }
    {
        let extents = leaf.extents();
        Branch {
            depth: 1,
            count: leaf.len(),
            leaves: 1,
            wide: extents.wide,
            bytes: extents.bytes,
            node: Node::Leaf(leaf),
        }
    }

    /// A node above branches.
    pub fn inner(depth: u32, kids: Vec<Branch>) -> Branch
        requires below { AllBelow depth kids.items }
        requires some { 2 ≤ length kids.items }
        requires few { length kids.items ≤ 16 }
        requires room { 16 ≤ vec_capacity kids }
        requires small { length (all_chars kids.items) < 2 ^ 32 }
        ensures chars { result.chars ≡ all_chars kids.items }
        ensures depth { result.depth ≡ depth }
        ensures sound { IsSound result }
    {
        let sizes = sizes_in(depth, kids.as_slice());
        Branch {
            depth,
            count: sizes.chars,
            leaves: sizes.leaves,
            wide: sizes.wide,
            bytes: sizes.bytes,
            node: Node::Inner(kids),
        }
    }

    /// The number of characters.
    pub fn len(&self) -> u32
        ensures { result ≡ length self.now.chars }
    {
        let _ = &self.node;
        self.count
    }

    /// How many of the characters take two code units of UTF-16.
    pub fn wide(&self) -> u32
        ensures { result ≡ wide_chars self.now.chars }
    {
        let _ = &self.node;
        self.wide
    }

    /// How many bytes of UTF-8 the characters take.
    pub fn bytes(&self) -> u64
        ensures { result ≡ utf8_bytes self.now.chars }
    {
        let _ = &self.node;
        self.bytes
    }

    /// What is kept of the characters and leaves.
    pub fn sizes(&self) -> Sizes
        ensures chars { result.chars ≡ length self.now.chars }
        ensures leaves { result.leaves ≡ self.now.leaves }
        ensures wide { result.wide ≡ wide_chars self.now.chars }
        ensures bytes { result.bytes ≡ utf8_bytes self.now.chars }
    {
        Sizes {
            chars: self.len(),
            leaves: self.leaves(),
            wide: self.wide(),
            bytes: self.bytes(),
        }
    }

    /// How much of a measure the characters take.
    pub fn extent(&self, measure: Measure) -> u64
        ensures { result ≡ extent measure self.now.chars }
    {
        match measure {
            Measure::Utf16 => u64::from(self.len()) + u64::from(self.wide()),
            Measure::Utf8 => self.bytes(),
        }
    }

    /// How much of a measure the characters below an index take.
    pub fn extent_before(&self, measure: Measure, at: u32) -> u64
        ensures { result ≡ extent measure (take at self.now.chars) }
    {
        match &self.node {
            Node::Leaf(leaf) => leaf.extent_before(measure, at),
            Node::Inner(kids) => {
                let mut rest = at;
                let mut before = 0;
                for kid in kids {
                    if rest < kid.len() {
                        return before + kid.extent_before(measure, rest);
                    }
                    rest -= kid.len();
                    before += kid.extent(measure);
                }
                before
            }
        }
    }

    /// The index at which so much of a measure ends, or of the character in which it does, and how much of it is left there.
    pub fn reach(&self, measure: Measure, much: u64) -> (u32, u64)
        ensures { Reaches measure self.now.chars much result.0 result.1 }
    {
        match &self.node {
            Node::Leaf(leaf) => leaf.reach(measure, much),
            Node::Inner(kids) => {
                let end = self.len();
                let mut rest = much;
                let mut before = 0;
                for kid in kids {
                    let here = kid.extent(measure);
                    if rest < here {
                        let (at, left) = kid.reach(measure, rest);
                        return (before + at, left);
                    }
                    rest -= here;
                    before += kid.len();
                }
                (end, rest)
            }
        }
    }

    /// The number of leaves.
    pub fn leaves(&self) -> u32
        ensures { result ≡ self.now.leaves }
    {
        self.leaves
    }

    /// The number of levels of nodes, leaves included.
    pub fn depth(&self) -> u32
        ensures { result ≡ self.now.depth }
    {
        self.depth
    }

    /// Whether there are parts enough: a character of a leaf, two branches of another node.
    pub fn is_sound(&self) -> bool
        ensures enough { IsTrue result ↔ (least self.now.depth ≤ self.now.parts) }
        ensures sound { IsTrue result → IsSound self.now }
    {
        match &self.node {
            Node::Leaf(leaf) => leaf.len() > 0,
            Node::Inner(kids) => kids.len() > 1,
        }
    }

    /// The character at an index.
    pub fn char_at(&self, i: u32) -> char
        requires { i < length self.now.chars }
        ensures { slice_get self.now.chars i ≡ Some result }
    {
        match &self.node {
            Node::Leaf(leaf) => leaf.char_at(i),
            Node::Inner(kids) => {
                let (k, rest) = kid_at(kids.as_slice(), i);
                kids[k].char_at(rest)
            }
        }
    }

    /// A branch with the same nodes.
    pub fn copy(&self, alloc: Global) -> Result<Branch, NoMem>
        ensures { IfOk result (λ b. b ≡ self.now) }
    {
        match &self.node {
            Node::Leaf(leaf) => {
                let copy = leaf.copy(alloc)?;
                Ok(Branch {
                    depth: self.depth,
                    count: self.count,
                    leaves: self.leaves,
                    wide: self.wide,
                    bytes: self.bytes,
                    node: Node::Leaf(copy),
                })
            }
            Node::Inner(kids) => {
                let mut copies = Vec::with_capacity(alloc, MOST_KIDS)?;
                for kid in kids {
                    copies.push(kid.copy(alloc)?)?;
                }
                Ok(Branch {
                    depth: self.depth,
                    count: self.count,
                    leaves: self.leaves,
                    wide: self.wide,
                    bytes: self.bytes,
                    node: Node::Inner(copies),
                })
            }
        }
    }

    /// Puts the UTF-8 of all characters behind the bytes of the vector. A refusal leaves the vector as it was.
    pub fn write_to(&self, to: &mut Vec<u8>) -> Result<(), NoMem>
        ensures ok { OnOk result (to.new.items ≡ to.old.items ++ encode_utf8_all self.now.chars) }
        ensures err { OnErr result (to.new.items ≡ to.old.items) }
    {
        match &self.node {
            Node::Leaf(leaf) => leaf.write_to(to),
            Node::Inner(kids) => {
                let before = to.len();
                for kid in kids {
                    if let Err(e) = kid.write_to(to) {
                        to.truncate(before);
                        return Err(e);
                    }
                }
                Ok(())
            }
        }
    }

    /// Puts the UTF-8 of so many characters from an index on, or of as many as there are, behind the bytes of the vector. A refusal leaves
    /// the vector as it was.
    pub fn write_range(&self, from: u32, n: u32, to: &mut Vec<u8>) -> Result<(), NoMem>
        ensures ok { OnOk result (to.new.items ≡ to.old.items ++ encode_utf8_all (take n (drop from self.now.chars))) }
        ensures err { OnErr result (to.new.items ≡ to.old.items) }
    {
        if n == 0 {
            return Ok(());
        }
        if from >= self.len() {
            return Ok(());
        }
        match &self.node {
            Node::Leaf(leaf) => leaf.write_range(from, n, to),
            Node::Inner(kids) => {
                let before = to.len();
                let mut skip = from;
                let mut left = n;
                for kid in kids {
                    if let Err(e) = kid.write_range(skip, left, to) {
                        to.truncate(before);
                        return Err(e);
                    }
                    left = left.saturating_sub(kid.len().saturating_sub(skip));
                    skip = skip.saturating_sub(kid.len());
                }
                Ok(())
            }
        }
    }

    /// Puts the characters of typed operations in at an index. Where the node was full, its second part is the answer. What is wanting
    /// for the nodes that are cut in two is taken before the first change: so many full nodes stand right above.
    pub fn insert(
        &mut self,
        at: u32,
        ops: &[TextOp],
        above: u32,
        spares: &mut Spares,
    ) -> Result<Option<Branch>, NoMem>
        requires within { at ≤ length self.old.chars }
        requires sound { IsSound self.old }
        requires small { length self.old.chars + length (typed ops.now) < 2 ^ 32 }
        requires above { above + self.old.depth < 2 ^ 32 }
        requires some { 0 < length (typed ops.now) }
        requires few { length ops.now ≤ 32 }
        ensures grown { IfOk result (λ right. IsGrown self.old self.new right at (typed ops.now)) }
        ensures left { IfOk result (λ right. IsLeft above right spares.new.nodes) }
        ensures err { OnErr result (self.new ≡ self.old) }
        ensures leaves { spares.old.leaves ≤ spares.new.leaves + 1 }
        ensures nodes { spares.old.nodes + 1 ≤ spares.new.nodes + self.old.depth }
        ensures sure { 1 ≤ spares.old.leaves → above + self.old.depth ≤ spares.old.nodes + 1 → IsOk result }
    {
        match &mut self.node {
            Node::Leaf(leaf) => {
                let right = insert_in_leaf(leaf, at, ops, above, spares)?;
                if right.is_none() {
                    let more = leaf.extents_from(at, leaf.len() - self.count);
                    self.count = leaf.len();
                    self.wide += more.wide;
                    self.bytes += more.bytes;
                    return Ok(None);
                }
                let extents = leaf.extents();
                self.count = leaf.len();
                self.wide = extents.wide;
                self.bytes = extents.bytes;
                Ok(right)
            }
            Node::Inner(kids) => {
                let (k, rest) = kid_open(kids.as_slice(), at);
                let above_kids = above_kids(kids.as_slice(), above);
                let before = kids[k].sizes();
                let right = kids[k].insert(rest, ops, above_kids, spares)?;
                if right.is_none() {
                    let after = kids[k].sizes();
                    self.count = self.count - before.chars + after.chars;
                    self.leaves = self.leaves - before.leaves + after.leaves;
                    self.wide = self.wide - before.wide + after.wide;
                    self.bytes = self.bytes - before.bytes + after.bytes;
                    return Ok(None);
                }
                let right = settle(self.depth, kids, k + 1, right, spares);
                let sizes = sizes_in(self.depth, kids.as_slice());
                self.count = sizes.chars;
                self.leaves = sizes.leaves;
                self.wide = sizes.wide;
                self.bytes = sizes.bytes;
                Ok(right)
            }
        }
    }

    /// Takes characters out of the leaf with an index, from there on: so many, or all that it has there. Answers how many. A leaf may be
    /// left without characters, and another node with one branch.
    pub fn remove(&mut self, at: u32, most: u32) -> u32
        requires within { at < length self.old.chars }
        requires sound { IsSound self.old }
        requires small { length self.old.chars < 2 ^ 32 }
        requires some { 1 ≤ most }
        ensures chars { self.new.chars ≡ without self.old.chars at result }
        ensures depth { self.new.depth ≡ self.old.depth }
        ensures some { 1 ≤ result }
        ensures most { result ≤ most }
        ensures inside { at + result ≤ length self.old.chars }
    {
        match &mut self.node {
            Node::Leaf(leaf) => {
                let gone = leaf.extents_from(at, most);
                let many = leaf.remove(at, most);
                self.count = leaf.len();
                self.wide -= gone.wide;
                self.bytes -= gone.bytes;
                many
            }
            Node::Inner(kids) => {
                let (k, rest) = kid_at(kids.as_slice(), at);
                let before = kids[k].sizes();
                let many = kids[k].remove(rest, most);
                if kids[k].is_sound() {
                    let after = kids[k].sizes();
                    self.count = self.count - before.chars + after.chars;
                    self.leaves = self.leaves - before.leaves + after.leaves;
                    self.wide = self.wide - before.wide + after.wide;
                    self.bytes = self.bytes - before.bytes + after.bytes;
                    return many;
                }
                mend(self.depth, kids, k);
                let sizes = sizes_in(self.depth, kids.as_slice());
                self.count = sizes.chars;
                self.leaves = sizes.leaves;
                self.wide = sizes.wide;
                self.bytes = sizes.bytes;
                many
            }
        }
    }

    /// The last branch of a node that has too few parts, with the node's empty block; None of a leaf without characters.
    pub fn into_last(self) -> Option<(Branch, Vec<Branch>)>
        requires { self.parts < least self.depth }
        ensures { IsLastOf self result }
    {
        match self.node {
            Node::Leaf(_) => None,
            Node::Inner(mut kids) => {
                let Some(kid) = kids.pop() else {
                    unreachable!()
                };
                Some((kid, kids))
            }
        }
    }

    /// Takes a branch behind its own. Where the node is full, its second half goes into the block, and is the answer.
    pub fn adopt_last(&mut self, kid: Branch, block: Vec<Branch>) -> Option<Branch>
        requires sound { IsSound self.old }
        requires lower { kid.depth + 1 ≡ self.old.depth }
        requires kid { IsSound kid }
        requires block { IsRoomy block }
        requires small { length self.old.chars + length kid.chars < 2 ^ 32 }
        ensures chars { self.new.chars ++ chars_of_right result ≡ self.old.chars ++ kid.chars }
        ensures depth { self.new.depth ≡ self.old.depth }
        ensures sound { IsSound self.new }
        ensures like { IsLike self.old.depth result }
    {
        match &mut self.node {
            Node::Leaf(_) => unreachable!(),
            Node::Inner(kids) => {
                let block = needed(kids.as_slice(), block);
                let end = kids.len();
                let right = put_kid(self.depth, kids, end, kid, block);
                let sizes = sizes_in(self.depth, kids.as_slice());
                self.count = sizes.chars;
                self.leaves = sizes.leaves;
                self.wide = sizes.wide;
                self.bytes = sizes.bytes;
                right
            }
        }
    }

    /// The same before its own.
    pub fn adopt_first(&mut self, kid: Branch, block: Vec<Branch>) -> Option<Branch>
        requires sound { IsSound self.old }
        requires lower { kid.depth + 1 ≡ self.old.depth }
        requires kid { IsSound kid }
        requires block { IsRoomy block }
        requires small { length self.old.chars + length kid.chars < 2 ^ 32 }
        ensures chars { self.new.chars ++ chars_of_right result ≡ kid.chars ++ self.old.chars }
        ensures depth { self.new.depth ≡ self.old.depth }
        ensures sound { IsSound self.new }
        ensures like { IsLike self.old.depth result }
    {
        match &mut self.node {
            Node::Leaf(_) => unreachable!(),
            Node::Inner(kids) => {
                let block = needed(kids.as_slice(), block);
                let right = put_kid(self.depth, kids, 0, kid, block);
                let sizes = sizes_in(self.depth, kids.as_slice());
                self.count = sizes.chars;
                self.leaves = sizes.leaves;
                self.wide = sizes.wide;
                self.bytes = sizes.bytes;
                right
            }
        }
    }
}
