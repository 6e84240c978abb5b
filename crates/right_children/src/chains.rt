//! Right children of the events before them, in chains.

ghost use Rattle.std.specs.Prelude.{◌≡◌, ◌≤◌, ◌<◌, ◌+◌, ◌^◌, ℕ, [], None, Some, IsTrue, OnOk, OnErr, IfSome, IfNone, length, nat_eq, if◌then◌else◌};
ghost use Rattle.std.specs.List.{AllWithin};
ghost use Rattle.ew_model.specs.declared.node.Node.TheVariants as nodes;
ghost use Rattle.right_children.specs.Chains.{parent_by, parent_in, AreInOrder, AreBelow, HasAt, IsPlaceOf, IsHeldBy, Tells, IsNextOf, HangOn};

use ew_model::NoMem;
use ew_model::node::Node;
use sorted_search::count_passing;
use std::alloc::Global;
use std::marker::Model;

/// Events at positions one after another. The node of the first is a right child of a node, that of each other one is a right
/// child of the node of the event before it.
#[derive(Clone, Copy)]
pub struct Chain {
    /// The position of the first event.
    pub first: u32,
    pub last: u32,
    /// Of the first one's node.
    pub parent: Node,
}

/// Chains, which are found by position. Contracts see a list of them.
#[derive(Drop)]
pub struct Chains {
    chains: Vec<Chain>,
    /// The place of the one that was found last.
    near: usize,
}

impl Model for Chains {
    ghost use Rattle.std.specs.Prelude.{List};
    ghost use Rattle.right_children.specs.declared.chains.Chain.{Chain};
    ghost use Rattle.right_children.specs.Chains.{AreInOrder};

    ghost Value = { List Chain };

    ghost view = { λ c. c.chains.items };

    ghost invariant = { λ c. AreInOrder 0 c.chains.items };
}

impl Chains {
    /// No chains.
    pub fn new(alloc: Global) -> Chains
        ensures { result ≡ [] }
    {
        Chains {
            chains: Vec::new(alloc),
            near: 0,
        }
    }

    /// The chain that has a position. The one that was found last and the next one are tried first.
    pub fn find(&mut self, position: u32) -> Option<Chain>
        ensures some { IfSome result (Tells self.old position) }
        ensures none { IfNone result (parent_in self.old position ≡ None) }
        ensures same { self.new ≡ self.old }
    {
        let place = place_near(&self.chains, position, self.near);
        self.near = place;
        chain_at(&self.chains, place, position)
    }

    /// Whether a position lies behind all chains.
    pub fn is_behind(&self, position: u32) -> bool
        ensures { IsTrue result → AreBelow position self.now }
    {
        match self.chains.last() {
            Some(chain) => chain.last < position,
            None => true,
        }
    }

    /// Puts a right child of a node behind the chains.
    pub fn put(&mut self, position: u32, parent: Node) -> Result<(), NoMem>
        requires { AreBelow position self.old }
        ensures ok { OnOk result ((n : ℕ) → parent_in self.new n ≡ (if nat_eq position n then Some parent else parent_in self.old n)) }
        ensures err { OnErr result (self.new ≡ self.old) }
    {
        put(&mut self.chains, position, parent)?;
        self.near = self.chains.len().saturating_sub(1);
        Ok(())
    }

    /// Puts so many positions behind one behind the chains: the node of each is a right child of that of the position before it.
    pub fn put_heirs(&mut self, newest: u32, count: u32) -> Result<(), NoMem>
        requires some { 0 < count }
        requires few { newest + count < 2 ^ 32 }
        requires below { AreBelow (newest + 1) self.old }
        ensures ok { OnOk result (HangOn (parent_in self.old) (parent_in self.new) newest count) }
        ensures err { OnErr result (self.new ≡ self.old) }
    {
        put_heirs(&mut self.chains, newest, count)?;
        self.near = self.chains.len().saturating_sub(1);
        Ok(())
    }
}

impl Chain {
    /// What the node of one of its events is a right child of.
    pub fn parent(self, position: u32) -> Node
        requires { (self.first ≤ position) × (position ≤ self.last) }
        ensures { result ≡ parent_by self position }
    {
        if position == self.first {
            self.parent
        } else {
            Node::Event(position - 1)
        }
    }

    /// Whether a right child of a node, of the event at a position, goes on with it.
    fn goes_on(self, position: u32, parent: Node) -> bool
        ensures { IsTrue result → IsNextOf self position parent }
    {
        position > self.last && position - 1 == self.last && is_event(parent, self.last)
    }
}

/// Whether the node is that of the event at a position.
fn is_event(node: Node, position: u32) -> bool
    ensures { IsTrue result → node ≡ nodes.Event position }
{
    match node {
        Node::Event(n) => n == position,
        Node::Root | Node::Base(_) => false,
    }
}

/// The place of the chain that has a position, if one has it. The chain at the place `near` and the next one are tried first.
fn place_near(chains: &[Chain], position: u32, near: usize) -> usize
    requires { AreInOrder 0 chains.now }
    ensures { IsPlaceOf chains.now position result }
{
    if has_at(chains, near, position) {
        return near;
    }
    let next = near.wrapping_add(1);
    if has_at(chains, next, position) {
        return next;
    }
    count_to(chains, position).saturating_sub(1)
}

/// Whether the chain at a place has a position.
fn has_at(chains: &[Chain], place: usize, position: u32) -> bool
    ensures { IsTrue result → HasAt chains.now position place }
{
    match chains.get(place) {
        Some(chain) => chain.first <= position && position <= chain.last,
        None => false,
    }
}

/// The chain at a place, if that is the place of the one that has a position, and one has it.
fn chain_at(chains: &[Chain], place: usize, position: u32) -> Option<Chain>
    requires { IsPlaceOf chains.now position place }
    ensures some { IfSome result (IsHeldBy chains.now position) }
    ensures none { IfNone result (parent_in chains.now position ≡ None) }
{
    match chains.get(place) {
        Some(chain) => held(*chain, position),
        None => None,
    }
}

/// The chain, if it has a position.
fn held(chain: Chain, position: u32) -> Option<Chain>
    ensures some { IfSome result (λ c. (c ≡ chain) × (chain.first ≤ position) × (position ≤ chain.last)) }
    ensures none { IfNone result (chain.first ≤ position → position ≤ chain.last → ⊥) }
{
    if chain.first <= position && position <= chain.last {
        Some(chain)
    } else {
        None
    }
}

/// How many of the chains begin at a position or before it.
fn count_to(chains: &[Chain], position: u32) -> usize
    requires { AreInOrder 0 chains.now }
    ensures bound { result ≤ length chains.now }
    ensures to { AllWithin (λ c. c.first ≤ position) chains.now 0 result }
    ensures behind { AllWithin (λ c. position < c.first) chains.now result (length chains.now) }
{
    if all_begin_to(chains, position) {
        return chains.len();
    }
    count_passing(chains, |chain| chain.first <= position)
}

/// Whether there are chains, and all of them begin at a position or before it.
fn all_begin_to(chains: &[Chain], position: u32) -> bool
    requires { AreInOrder 0 chains.now }
    ensures { IsTrue result → AllWithin (λ c. c.first ≤ position) chains.now 0 (length chains.now) }
{
    match chains.last() {
        Some(chain) => chain.first <= position,
        None => false,
    }
}

/// Puts right children, each of the node of the position before it, behind the chains: into the last one, where that ends there, or
/// else into one of their own.
fn put_heirs(chains: &mut Vec<Chain>, newest: u32, count: u32) -> Result<(), NoMem>
    requires some { 0 < count }
    requires few { newest + count < 2 ^ 32 }
    requires order { AreInOrder 0 chains.old.items }
    requires below { AreBelow (newest + 1) chains.old.items }
    ensures ok { OnOk result (HangOn (parent_in chains.old.items) (parent_in chains.new.items) newest count) }
    ensures err { OnErr result (chains.new.items ≡ chains.old.items) }
    ensures order { AreInOrder 0 chains.new.items }
{
    let first = newest + 1;
    let last = newest + count;
    let parent = Node::Event(newest);
    let len = chains.len();
    if len > 0 && chains[len - 1].goes_on(first, parent) {
        chains[len - 1].last = last;
        return Ok(());
    }
    chains.push(Chain {
        first,
        last,
        parent,
    })?;
    Ok(())
}

/// Puts a right child of a node behind the chains: into the last one, where that goes on with it, or else into one of its own.
fn put(chains: &mut Vec<Chain>, position: u32, parent: Node) -> Result<(), NoMem>
    requires order { AreInOrder 0 chains.old.items }
    requires below { AreBelow position chains.old.items }
    ensures ok { OnOk result ((n : ℕ) → parent_in chains.new.items n ≡ (if nat_eq position n then Some parent else parent_in chains.old.items n)) }
    ensures err { OnErr result (chains.new.items ≡ chains.old.items) }
    ensures order { AreInOrder 0 chains.new.items }
{
    let len = chains.len();
    if len > 0 && chains[len - 1].goes_on(position, parent) {
        chains[len - 1].last = position;
        return Ok(());
    }
    chains.push(Chain {
        first: position,
        last: position,
        parent,
    })?;
    Ok(())
}
