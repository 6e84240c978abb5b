//! Labels of nodes in two maps.

ghost use Rattle.std.specs.Prelude.{◌≡◌, true, Some, None, IfSome, IfNone, OnOk, OnErr};
ghost use Rattle.ew_model.specs.declared.node.Node.{Node as Nodes};
ghost use Rattle.ew_model.specs.declared.node.Node.TheVariants as nodes;
ghost use Rattle.character_runs.specs.Kept.{kept_label, numbered, is_up_to, IsLastOf, AreLastOf, Keeps};

use ew_model::NoMem;
use ew_model::node::Node;
use predecessor_map::PredecessorMap;
use std::alloc::Global;

/// A label for each of some nodes.
#[derive(Drop)]
pub struct Kept {
    base: PredecessorMap,
    events: PredecessorMap,
}

/// A node with its label.
#[derive(Clone, Copy)]
pub struct Tag {
    pub node: Node,
    pub label: u64,
}

impl Kept {
    /// No labels.
    pub fn new(alloc: Global) -> Kept
        ensures { (v : Nodes) → kept_label result v ≡ None }
    {
        Kept {
            base: PredecessorMap::new(alloc),
            events: PredecessorMap::new(alloc),
        }
    }

    /// The last node up to this one, with its label.
    pub fn last_up_to(&self, node: Node) -> Option<Tag>
        ensures { AreLastOf (kept_label self.now) node result }
    {
        let (key, label) = self.last_number(node)?;
        let node = numbered(node, key);
        Some(Tag { node, label })
    }

    /// The number of that node, and its label.
    fn last_number(&self, node: Node) -> Option<(u32, u64)>
        ensures some { IfSome result (λ e. IsLastOf (kept_label self.now) node (record { node = numbered node e.0; label = e.1 })) }
        ensures none { IfNone result ((v : Nodes) → is_up_to v node ≡ true → kept_label self.now v ≡ None) }
    {
        match node {
            Node::Root => None,
            Node::Base(i) => self.base.last_up_to(i),
            Node::Event(i) => self.events.last_up_to(i),
        }
    }

    /// Gives a node a label.
    pub fn insert(&mut self, node: Node, label: u64) -> Result<(), NoMem>
        requires { node ≡ nodes.Root → ⊥ }
        ensures ok { OnOk result (Keeps self.old self.new node (Some label)) }
        ensures err { OnErr result ((v : Nodes) → kept_label self.new v ≡ kept_label self.old v) }
        ensures absent { OnErr result (kept_label self.old node ≡ None) }
    {
        match node {
            Node::Root => unreachable!(),
            Node::Base(i) => self.base.insert(i, label),
            Node::Event(i) => self.events.insert(i, label),
        }
    }

    /// Takes a node's label away, if it has one.
    pub fn remove(&mut self, node: Node)
        ensures { Keeps self.old self.new node None }
    {
        match node {
            Node::Root => {}
            Node::Base(i) => self.base.remove(i),
            Node::Event(i) => self.events.remove(i),
        }
    }
}

/// The node of the same kind with this number.
fn numbered(node: Node, number: u32) -> Node
    ensures { result ≡ numbered node number }
{
    match node {
        Node::Root => Node::Root,
        Node::Base(_) => Node::Base(number),
        Node::Event(_) => Node::Event(number),
    }
}
