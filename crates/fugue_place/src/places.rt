//! Where children stand in the list of all, by their nodes.

ghost use Rattle.std.specs.Prelude.{◌≡◌, ◌+◌, ◌<◌, ◌^◌, true, false, [], ◌∷◌, ◌++◌, length, Some, IfSome, IfNone, IsTrue, OnOk, OnErr, if◌then◌else◌};
ghost use Rattle.std.specs.BTreeMap.{get, is_at};
ghost use Rattle.ew_model.specs.declared.node.Node.{Node as Nodes};
ghost use Rattle.fugue_place.specs.Attachments.{is_attached};
ghost use Rattle.fugue_place.specs.Places.{HasNodeAt, ArePlaces, is_above_newest, with_rising};
ghost use Rattle.fugue_place.specs.Spots.{node_cmp};

use crate::child::{Attached, is_newest};
use crate::children::Children;
use ew_model::NoMem;
use ew_model::node::Node;
use std::alloc::Global;
use std::collections::BTreeMap;

/// The places of children by their nodes. The nodes of the first children rise, up to the first that doesn't, and those
/// children are found by halving. Only the places of the others are kept.
#[derive(Drop)]
pub struct Places {
    /// How many children stand ahead of the first whose node doesn't rise.
    pub rising: usize,
    /// The places of the others.
    pub others: BTreeMap<Node, usize>,
}

impl Places {
    /// Those of no children.
    pub fn new(alloc: Global) -> Places
        ensures { ArePlaces [] result }
    {
        Places {
            rising: 0,
            others: BTreeMap::new(alloc),
        }
    }

    /// The place of the child with this node, if there is one.
    pub fn find(&self, children: &Children, node: Node) -> Option<usize>
        requires { ArePlaces children.now.items self.now }
        ensures some { IfSome result (HasNodeAt children.now.items node) }
        ensures none { IfNone result (is_attached children.now.items node ≡ false) }
    {
        if is_newest(children, node) {
            return Some(children.len() - 1);
        }
        if let Some(place) = children.place_by_halving(self.rising, node) {
            return Some(place);
        }
        self.others.get(&node).copied()
    }

    /// Keeps the place of one more child behind these.
    pub fn add(&mut self, children: &Children, child: &Attached) -> Result<(), NoMem>
        requires places { ArePlaces children.now.items self.old }
        requires new { is_attached children.now.items child.now.node ≡ false }
        ensures ok { OnOk result (ArePlaces (children.now.items ++ child.now ∷ []) self.new) }
        ensures err { OnErr result (ArePlaces children.now.items self.new) }
    {
        let count = children.len();
        if self.rising == count && is_above_newest(children, child.node) {
            self.rising += 1;
        } else {
            self.keep(child.node, count)?;
        }
        Ok(())
    }

    /// Whether the nodes of all children rise.
    pub fn all_rise(&self, children: &Children) -> bool
        ensures { IsTrue result → self.now.rising ≡ length children.now.items }
    {
        self.rising == children.len()
    }

    /// Keeps the places of so many more children, whose nodes rise behind those of all others.
    pub fn add_rising(&mut self, count: u32)
        requires few { self.old.rising + count < 2 ^ 32 }
        ensures { self.new ≡ with_rising self.old count }
    {
        self.rising += count as usize;
    }

    /// Keeps the place of a node that doesn't rise.
    // Seldom called: kept apart, so that what is done for each character stays short.
    #[inline(never)]
    fn keep(&mut self, node: Node, place: usize) -> Result<(), NoMem>
        ensures ok { OnOk result ((v : Nodes) → get node_cmp self.new.others v ≡ (if is_at (node_cmp node) v then Some place else get node_cmp self.old.others v)) }
        ensures err { OnErr result ((v : Nodes) → get node_cmp self.new.others v ≡ get node_cmp self.old.others v) }
        ensures rising { self.new.rising ≡ self.old.rising }
    {
        self.others.insert(node, place)?;
        Ok(())
    }
}

/// Whether the node is above that of the child that was attached last.
fn is_above_newest(children: &Children, node: Node) -> bool
    ensures { result ≡ is_above_newest children.now.items node }
{
    match children.newest_node() {
        Some(newest) => newest < node,
        None => true,
    }
}
