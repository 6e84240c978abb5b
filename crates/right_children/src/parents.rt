//! The parents of right children, by the positions of the events whose nodes they are.

ghost use Rattle.std.specs.Prelude.{◌≡◌, ◌⊎◌, ◌+◌, ◌≤◌, ◌<◌, ◌^◌, ℕ, None, Some, OnOk, OnErr, nat_eq, if◌then◌else◌};
ghost use Rattle.std.specs.Ordering.{nat_cmp};
ghost use Rattle.std.specs.BTreeMap.{get};
ghost use Rattle.right_children.specs.Chains.{AreBelow, AreLinked, HangInLine, AreToldOn};
ghost use Rattle.right_children.specs.Parents.{parent_at};

use crate::chains::{Chain, Chains};
use ew_model::NoMem;
use ew_model::node::Node;
use std::alloc::Global;
use std::collections::BTreeMap;

/// The parents of right children.
#[derive(Drop)]
pub struct Parents {
    chains: Chains,
    /// What is noted of positions before the end of the chains. It counts, whatever the chains say.
    others: BTreeMap<u32, Option<Node>>,
}

impl Parents {
    /// No node is a right child.
    pub fn new(alloc: Global) -> Parents
        ensures { (n : ℕ) → parent_at result n ≡ None }
    {
        Parents {
            chains: Chains::new(alloc),
            others: BTreeMap::new(alloc),
        }
    }

    /// The parent of the node of the event at a position, if it is a right child; and a position up to which the nodes behind it are
    /// each a right child of the one before.
    pub fn find(&mut self, position: u32) -> (Option<Node>, u32)
        ensures parent { result.0 ≡ parent_at self.old position }
        ensures linked { AreLinked (parent_at self.old) (position + 1) result.1 }
        ensures same { self.new ≡ self.old }
    {
        if let Some(parent) = other(&self.others, position) {
            return (parent, 0);
        }
        match self.chains.find(position) {
            Some(chain) => (Some(chain.parent(position)), self.end(chain)),
            None => (None, 0),
        }
    }

    /// The position behind a chain. It is 0 where something is noted beside the chains: that might be about positions of the chain.
    fn end(&self, chain: Chain) -> u32
        ensures { (result ≡ 0) ⊎ ((result ≤ chain.last + 1) × ((n : ℕ) → get nat_cmp self.now.others n ≡ None)) }
    {
        if self.others.is_empty() {
            chain.last.saturating_add(1)
        } else {
            0
        }
    }

    /// Notes the parent of the node of a position, or that it is no right child.
    pub fn note(&mut self, position: u32, parent: Option<Node>) -> Result<(), NoMem>
        ensures ok { OnOk result ((n : ℕ) → parent_at self.new n ≡ (if nat_eq position n then parent else parent_at self.old n)) }
        ensures err { OnErr result ((n : ℕ) → parent_at self.new n ≡ parent_at self.old n) }
    {
        if self.chains.is_behind(position) && other(&self.others, position).is_none() {
            self.put(position, parent)
        } else {
            keep(&mut self.others, position, parent)
        }
    }

    /// Notes of the nodes of so many positions behind one that each is a right child of the one of the position before it.
    pub fn note_heirs(&mut self, newest: u32, count: u32) -> Result<(), NoMem>
        requires few { newest + count < 2 ^ 32 }
        ensures ok { OnOk result (HangInLine (parent_at self.new) newest count) }
        ensures told { AreToldOn (parent_at self.old) (parent_at self.new) newest count }
    {
        if count > 0 && self.chains.is_behind(newest + 1) && self.others.is_empty() {
            return self.chains.put_heirs(newest, count);
        }
        self.note_each(newest, count)
    }

    /// The same, one position after another.
    #[inline(never)]
    fn note_each(&mut self, newest: u32, count: u32) -> Result<(), NoMem>
        requires few { newest + count < 2 ^ 32 }
        ensures ok { OnOk result (HangInLine (parent_at self.new) newest count) }
        ensures told { AreToldOn (parent_at self.old) (parent_at self.new) newest count }
    {
        for k in 0..count {
            self.note(newest + k + 1, Some(Node::Event(newest + k)))?;
        }
        Ok(())
    }

    /// The same for a position behind the chains, of which nothing else is noted.
    fn put(&mut self, position: u32, parent: Option<Node>) -> Result<(), NoMem>
        requires below { AreBelow position self.old.chains }
        requires new { get nat_cmp self.old.others position ≡ None }
        ensures ok { OnOk result ((n : ℕ) → parent_at self.new n ≡ (if nat_eq position n then parent else parent_at self.old n)) }
        ensures err { OnErr result ((n : ℕ) → parent_at self.new n ≡ parent_at self.old n) }
    {
        match parent {
            Some(parent) => self.chains.put(position, parent),
            None => Ok(()),
        }
    }
}

fn other(others: &BTreeMap<u32, Option<Node>>, position: u32) -> Option<Option<Node>>
    ensures { result ≡ get nat_cmp others.now position }
{
    others.get(&position).copied()
}

/// Keeps what is noted of a position.
fn keep(
    others: &mut BTreeMap<u32, Option<Node>>,
    position: u32,
    parent: Option<Node>,
) -> Result<(), NoMem>
    ensures ok { OnOk result ((k : ℕ) → get nat_cmp others.new k ≡ (if nat_eq position k then Some parent else get nat_cmp others.old k)) }
    ensures err { OnErr result ((k : ℕ) → get nat_cmp others.new k ≡ get nat_cmp others.old k) }
{
    match others.insert(position, parent) {
        Ok(_) => Ok(()),
        Err(_) => Err(NoMem),
    }
}
