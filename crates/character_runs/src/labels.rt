//! The labels of runs, by their first nodes.

ghost use Rattle.std.specs.Prelude.{◌≡◌, ℕ, Option, true, false, Some, None, IsSome, IfSome, IfNone, OnOk, OnErr};
ghost use Rattle.std.specs.Option.{ForSome};
ghost use Rattle.ew_model.specs.declared.node.Node.{Node as Nodes};
ghost use Rattle.ew_model.specs.declared.node.Node.TheVariants as nodes;
ghost use Rattle.fugue_place.specs.Attachments.{node_eq};
ghost use Rattle.character_runs.specs.Kept.{kept_label, label_by, is_up_to, is_tagged, AreLastOf};

use crate::kept::{Kept, Tag};
use ew_model::NoMem;
use ew_model::node::Node;
use std::alloc::Global;

/// A label for each of some nodes. The one that was given last may stand beside the maps, so that it goes over to another node
/// without a change of these.
#[derive(Drop)]
pub struct Labels {
    kept: Kept,
    late: Option<Tag>,
    ghost apart: { ForSome late (λ e. kept_label kept e.node ≡ None) },
    ghost rooted: { ForSome late (λ e. node_eq e.node nodes.Root ≡ false) },
}

impl Labels {
    ghost use Rattle.character_runs.specs.Labelled.{label_of, IsLast, Sets, GoesOver};

    /// No labels.
    pub fn new(alloc: Global) -> Labels
        ensures { (v : Nodes) → label_of result v ≡ None }
    {
        Labels {
            kept: Kept::new(alloc),
            late: None,
        }
    }

    /// The label of the last node up to this one.
    pub fn last_up_to(&self, node: Node) -> Option<u64>
        ensures some { IfSome result (IsLast self.now node) }
        ensures none { IfNone result ((v : Nodes) → is_up_to v node ≡ true → label_of self.now v ≡ None) }
    {
        let kept = self.kept.last_up_to(node);
        match later(kept, self.late, node) {
            Some(last) => Some(last.label),
            None => None,
        }
    }

    /// Has the maps tell of all labels.
    fn settle(&mut self) -> Result<(), NoMem>
        ensures late { OnOk result (self.new.late ≡ None) }
        ensures same { (v : Nodes) → label_of self.new v ≡ label_of self.old v }
    {
        let Some(late) = self.late else {
            return Ok(());
        };
        self.kept.insert(late.node, late.label)?;
        self.late = None;
        Ok(())
    }

    /// Gives a node that has no label one.
    pub fn insert(&mut self, node: Node, label: u64) -> Result<(), NoMem>
        requires some { node ≡ nodes.Root → ⊥ }
        requires bare { label_of self.old node ≡ None }
        ensures ok { OnOk result (Sets self.old self.new node (Some label)) }
        ensures err { OnErr result ((v : Nodes) → label_of self.new v ≡ label_of self.old v) }
    {
        self.settle()?;
        self.late = Some(Tag { node, label });
        Ok(())
    }

    /// Gives a node that has a label this one for it.
    pub fn set(&mut self, node: Node, label: u64)
        requires { IsSome (label_of self.old node) }
        ensures { Sets self.old self.new node (Some label) }
    {
        if is_at(self.late, node) {
            self.late = Some(Tag { node, label });
            return;
        }
        let Ok(()) = self.kept.insert(node, label) else {
            unreachable!()
        };
    }

    /// Takes a node's label away, if it has one.
    pub fn remove(&mut self, node: Node)
        ensures { Sets self.old self.new node None }
    {
        if is_at(self.late, node) {
            self.late = None;
            return;
        }
        self.kept.remove(node);
    }

    /// Gives a node that has no label this one, and takes that of another away, if it has one.
    pub fn shift(&mut self, from: Node, to: Node, label: u64) -> Result<(), NoMem>
        requires some { to ≡ nodes.Root → ⊥ }
        requires bare { label_of self.old to ≡ None }
        ensures ok { OnOk result (GoesOver self.old self.new from to label) }
        ensures err { OnErr result ((v : Nodes) → label_of self.new v ≡ label_of self.old v) }
    {
        if is_same(from, to) {
            return Ok(());
        }
        if is_at(self.late, from) {
            self.late = Some(Tag { node: to, label });
            return Ok(());
        }
        self.settle()?;
        self.kept.remove(from);
        self.late = Some(Tag { node: to, label });
        Ok(())
    }
}

/// Whether the node is the one with the label.
fn is_at(late: Option<Tag>, node: Node) -> bool
    ensures { result ≡ is_tagged late node }
{
    match late {
        Some(late) => is_same(late.node, node),
        None => false,
    }
}

/// Whether two nodes are one.
fn is_same(first: Node, second: Node) -> bool
    ensures { result ≡ node_eq first second }
{
    first == second
}

/// Which of two nodes up to this one is the last: the one that has a label in the maps, or the one whose label stands beside them.
fn later(kept: Option<Tag>, late: Option<Tag>, node: Node) -> Option<Tag>
    // whatever labels the maps have
    ensures { (has : Nodes → Option ℕ) → AreLastOf has node kept → ForSome late (λ e. has e.node ≡ None) → AreLastOf (label_by late has) node result }
{
    let Some(tag) = late else {
        return kept;
    };
    if !is_up_to(tag.node, node) {
        return kept;
    }
    match kept {
        Some(last) if is_up_to(tag.node, last.node) => Some(last),
        _ => Some(tag),
    }
}

/// Whether the first node is one of those up to the second.
fn is_up_to(first: Node, second: Node) -> bool
    ensures { result ≡ is_up_to first second }
{
    match (first, second) {
        (Node::Base(i), Node::Base(j)) | (Node::Event(i), Node::Event(j)) => i <= j,
        _ => false,
    }
}
