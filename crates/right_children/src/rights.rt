//! How many right children of each node are known.

ghost use Rattle.std.specs.Prelude.{◌≡◌, ◌+◌, ◌-◌, ◌<◌, ◌≤◌, ◌^◌, ℕ, List, Bool, None, Some, OnOk, OnErr, IsSome, false, nat_eq, nat_lt, if◌then◌else◌};
ghost use Rattle.std.specs.BTreeMap.{get, is_at};
ghost use Rattle.ew_model.specs.declared.node.Node.{Node as Nodes};
ghost use Rattle.ew_model.specs.declared.node.Node.TheVariants as nodes;
ghost use Rattle.fugue_place.specs.declared.child.Attached.{Attached};
ghost use Rattle.fugue_place.specs.declared.child.Side.TheVariants.{Right as right};
ghost use Rattle.fugue_place.specs.Neighbours.{side_eq};
ghost use Rattle.fugue_place.specs.Spots.{node_cmp};
ghost use Rattle.right_children.specs.Chains.{AreLinked, IsApart, HangInLine};
ghost use Rattle.right_children.specs.Rows.{stepped, MayStep};
ghost use Rattle.right_children.specs.Rights.{or_none, counted, AreRights, HasCount, IsWhole, Shifts, ShiftEach, MayShift, Resets, HangWithin, none_known};

use crate::parents::Parents;
use crate::rows::{Rows, stepped};
use ew_model::NoMem;
use ew_model::node::Node;
use fugue_place::Side;
use std::alloc::Global;
use std::collections::BTreeMap;

/// The parents of right children, and how many of a node's right children are known.
#[derive(Drop)]
pub struct Rights {
    parents: Parents,
    /// How many for the nodes of events.
    rows: Rows,
    /// How many for the root and for base characters. Each parent of a right child has a row, or a count here.
    counts: BTreeMap<Node, u32>,
}

impl Rights {
    /// No children.
    pub fn new(alloc: Global) -> Rights
        ensures parents { (n : ℕ) → (counted result).parent_at n ≡ None }
        ensures counts { (v : Nodes) → (counted result).count v ≡ 0 }
    {
        Rights {
            parents: Parents::new(alloc),
            rows: Rows::new(alloc),
            counts: BTreeMap::new(alloc),
        }
    }

    /// Whether a right child of the node is known.
    pub fn has_known(&self, node: Node) -> bool
        ensures { result ≡ nat_lt 0 ((counted self.now).count node) }
    {
        self.count(node) > 0
    }

    /// Notes where an event's new node hangs. An error for want of memory leaves what is told of it, if anything, as it was.
    pub fn note(&mut self, position: u32, parent: Node, side: Side) -> Result<(), NoMem>
        requires { IsWhole self.old }
        ensures whole { IsWhole self.new }
        ensures parent { OnOk result ((counted self.new).parent_at position ≡ (if side_eq side right then Some parent else None)) }
        ensures others { (n : ℕ) → nat_eq position n ≡ false → (counted self.new).parent_at n ≡ (counted self.old).parent_at n }
        ensures counts { (v : Nodes) → (counted self.new).count v ≡ (counted self.old).count v }
    {
        match side {
            Side::Left => self.parents.note(position, None),
            Side::Right => {
                self.begin(parent)?;
                self.parents.note(position, Some(parent))
            }
        }
    }

    /// Notes that the new nodes of so many events behind one hang, each on the right of the node of the event before it. An error for
    /// want of memory leaves what is told of the others as it was.
    pub fn note_heirs(&mut self, newest: u32, count: u32) -> Result<(), NoMem>
        requires few { newest + count < 2 ^ 32 }
        requires whole { IsWhole self.old }
        ensures whole { IsWhole self.new }
        ensures parents { OnOk result (HangInLine (counted self.new).parent_at newest count) }
        ensures others { (n : ℕ) → IsApart newest count n → (counted self.new).parent_at n ≡ (counted self.old).parent_at n }
        ensures counts { (v : Nodes) → (counted self.new).count v ≡ (counted self.old).count v }
    {
        self.rows.begin_each(newest, count)?;
        self.parents.note_heirs(newest, count)
    }

    /// Notes whether a node is known now (`is`), which was known before or not (`was`).
    pub fn shift(&mut self, node: Node, was: bool, is: bool)
        requires whole { IsWhole self.old }
        requires may { MayShift (counted self.old) node was is }
        ensures whole { IsWhole self.new }
        ensures shifts { Shifts (counted self.old) (counted self.new) node was is }
    {
        if was == is {
            return;
        }
        let Node::Event(position) = node else {
            return;
        };
        let (parent, _) = self.parents.find(position);
        if let Some(parent) = parent {
            self.shift_under(position, parent, was, is);
        }
    }

    /// The same for the node of the event at a position. Answers up to where the nodes behind it are each a right child of the one
    /// before.
    fn shift_first(&mut self, position: u32, was: bool, is: bool) -> u32
        requires whole { IsWhole self.old }
        requires may { MayShift (counted self.old) (nodes.Event position) was is }
        ensures whole { IsWhole self.new }
        ensures shifts { Shifts (counted self.old) (counted self.new) (nodes.Event position) was is }
        ensures linked { AreLinked (counted self.new).parent_at (position + 1) result }
    {
        let (parent, linked) = self.parents.find(position);
        if let Some(parent) = parent {
            self.shift_under(position, parent, was, is);
        }
        linked
    }

    /// The same for the node of the event at a position, where it is a right child of this node.
    fn shift_under(&mut self, position: u32, parent: Node, was: bool, is: bool)
        requires whole { IsWhole self.old }
        requires may { MayShift (counted self.old) (nodes.Event position) was is }
        requires parent { (counted self.old).parent_at position ≡ Some parent }
        ensures whole { IsWhole self.new }
        ensures shifts { Shifts (counted self.old) (counted self.new) (nodes.Event position) was is }
    {
        if was == is {
            return;
        }
        self.shift_count(parent, is);
    }

    /// Notes whether the nodes of the events at the positions from `from` on that are below `to` are known now (`is`). Before, they
    /// all were known, or none was (`was`).
    pub fn shift_each(&mut self, from: u32, to: u32, was: bool, is: bool)
        requires order { from ≤ to }
        requires whole { IsWhole self.old }
        requires may { (old : Nodes → Bool) × (new : Nodes → Bool) × (attached : List Attached) × AreRights old attached (counted self.old) × ShiftEach old new attached from to was is }
        ensures whole { IsWhole self.new }
        ensures rights { (old new : Nodes → Bool) (attached : List Attached) → AreRights old attached (counted self.old) → ShiftEach old new attached from to was is
            → AreRights new attached (counted self.new) }
    {
        if was == is {
            return;
        }
        let mut at = from;
        while at < to {
            let linked = self.shift_first(at, was, is);
            let end = linked.clamp(at + 1, to);
            self.rows.shift_each(at, end - 1, is);
            at = end;
        }
    }

    /// No node of an event is known any more. Those that hang are of the events at the positions from `from` on that are below `to`.
    pub fn rest(&mut self, from: u32, to: u32)
        requires order { from ≤ to }
        requires whole { IsWhole self.old }
        ensures whole { IsWhole self.new }
        ensures rights { (known : Nodes → Bool) (attached : List Attached) → AreRights known attached (counted self.old) → HangWithin from to attached → AreRights none_known attached (counted self.new) }
    {
        let mut linked = 0;
        for position in from..to {
            linked = self.reset_next(position, linked);
        }
    }

    /// If the node of the event at a position is a right child, notes that its parent has no known right child any more. The nodes from
    /// that position up to `linked` are each a right child of the one before. Answers up to where the nodes behind the position are so.
    fn reset_next(&mut self, position: u32, linked: u32) -> u32
        requires whole { IsWhole self.old }
        requires linked { AreLinked (counted self.old).parent_at position linked }
        ensures whole { IsWhole self.new }
        ensures resets { Resets (counted self.old) (counted self.new) (nodes.Event position) }
        ensures linked { AreLinked (counted self.new).parent_at (position + 1) result }
    {
        if position < linked {
            self.reset_under(position, Node::Event(position - 1));
            return linked;
        }
        let (parent, next) = self.parents.find(position);
        if let Some(parent) = parent {
            self.reset_under(position, parent);
        }
        next
    }

    /// The same for the node of the event at a position, where it is a right child of this node.
    fn reset_under(&mut self, position: u32, parent: Node)
        requires whole { IsWhole self.old }
        requires parent { (counted self.old).parent_at position ≡ Some parent }
        ensures whole { IsWhole self.new }
        ensures resets { Resets (counted self.old) (counted self.new) (nodes.Event position) }
    {
        self.reset_count(parent);
    }

    /// How many right children of a node are known.
    fn count(&self, node: Node) -> u32
        ensures { result ≡ (counted self.now).count node }
    {
        match node {
            Node::Event(position) => self.rows.at(position),
            Node::Root | Node::Base(_) => count_at(&self.counts, node),
        }
    }

    /// Sees to it that a node has a count.
    fn begin(&mut self, node: Node) -> Result<(), NoMem>
        ensures begun { OnOk result (HasCount self.new node) }
        ensures kept { (v : Nodes) → HasCount self.old v → HasCount self.new v }
        ensures parents { (n : ℕ) → (counted self.new).parent_at n ≡ (counted self.old).parent_at n }
        ensures counts { (v : Nodes) → (counted self.new).count v ≡ (counted self.old).count v }
    {
        match node {
            Node::Event(position) => self.rows.begin(position),
            Node::Root | Node::Base(_) => begin(&mut self.counts, node),
        }
    }

    /// Notes that one more right child of a node that has a count is known, or one fewer.
    fn shift_count(&mut self, node: Node, is: bool)
        requires has { HasCount self.old node }
        requires may { MayStep ((counted self.old).count node) is }
        ensures kept { (v : Nodes) → HasCount self.old v → HasCount self.new v }
        ensures parents { (n : ℕ) → (counted self.new).parent_at n ≡ (counted self.old).parent_at n }
        ensures counts { (v : Nodes) → (counted self.new).count v ≡ (if is_at (node_cmp node) v then stepped ((counted self.old).count node) is else (counted self.old).count v) }
    {
        match node {
            Node::Event(position) => self.rows.shift(position, is),
            Node::Root | Node::Base(_) => {
                let count = stepped(count_at(&self.counts, node), is);
                set_count(&mut self.counts, node, count);
            }
        }
    }

    /// Notes that no right child of a node that has a count is known.
    fn reset_count(&mut self, node: Node)
        requires { HasCount self.old node }
        ensures kept { (v : Nodes) → HasCount self.old v → HasCount self.new v }
        ensures parents { (n : ℕ) → (counted self.new).parent_at n ≡ (counted self.old).parent_at n }
        ensures counts { (v : Nodes) → (counted self.new).count v ≡ (if is_at (node_cmp node) v then 0 else (counted self.old).count v) }
    {
        match node {
            Node::Event(position) => self.rows.reset(position),
            Node::Root | Node::Base(_) => set_count(&mut self.counts, node, 0),
        }
    }
}

/// A node's count, which is 0 where none is kept.
fn count_at(counts: &BTreeMap<Node, u32>, node: Node) -> u32
    ensures { result ≡ or_none (get node_cmp counts.now node) }
{
    match counts.get(&node) {
        Some(count) => *count,
        None => 0,
    }
}

/// Sees to it that a node has a count.
fn begin(counts: &mut BTreeMap<Node, u32>, node: Node) -> Result<(), NoMem>
    ensures begun { OnOk result (IsSome (get node_cmp counts.new node)) }
    ensures kept { (v : Nodes) → IsSome (get node_cmp counts.old v) → IsSome (get node_cmp counts.new v) }
    ensures same { (v : Nodes) → or_none (get node_cmp counts.new v) ≡ or_none (get node_cmp counts.old v) }
{
    if counts.contains_key(&node) {
        return Ok(());
    }
    put_count(counts, node, 0)
}

/// Gives a node that has a count another.
fn set_count(counts: &mut BTreeMap<Node, u32>, node: Node, count: u32)
    requires { IsSome (get node_cmp counts.old node) }
    ensures { (v : Nodes) → get node_cmp counts.new v ≡ (if is_at (node_cmp node) v then Some count else get node_cmp counts.old v) }
{
    let Ok(()) = put_count(counts, node, count) else {
        unreachable!()
    };
}

fn put_count(counts: &mut BTreeMap<Node, u32>, node: Node, count: u32) -> Result<(), NoMem>
    ensures ok { OnOk result ((v : Nodes) → get node_cmp counts.new v ≡ (if is_at (node_cmp node) v then Some count else get node_cmp counts.old v)) }
    ensures err { OnErr result ((v : Nodes) → get node_cmp counts.new v ≡ get node_cmp counts.old v) }
    ensures absent { OnErr result (get node_cmp counts.old node ≡ None) }
{
    match counts.insert(node, count) {
        Ok(_) => Ok(()),
        Err(_) => Err(NoMem),
    }
}
