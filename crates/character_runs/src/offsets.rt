//! Nodes of a run, by their numbers in it.

ghost use Rattle.std.specs.Prelude.{◌≡◌, ◌<◌, ◌+◌, ◌^◌, ◌≤◌, ℕ, IfSome, IfNone};
ghost use Rattle.walker_record.specs.Stretches.{node_on, HasNumbers};
ghost use Rattle.character_runs.specs.Laid.{IsOffset};

use ew_model::node::Node;
use walker_record::Record;

/// The number of a node in a run, where it is there.
pub fn offset_in(run: &Record, node: Node) -> Option<u32>
    ensures some { IfSome result (IsOffset run.now node) }
    ensures none { IfNone result ((n : ℕ) → IsOffset run.now node n → ⊥) }
{
    let offset = steps_between(run.from, node)?;
    if offset < run.len { Some(offset) } else { None }
}

/// How many places the second node is on from the first.
fn steps_between(from: Node, node: Node) -> Option<u32>
    ensures some { IfSome result (λ n. node_on from n ≡ node) }
    ensures one { IfSome result (λ n. (m : ℕ) → node_on from m ≡ node → HasNumbers from (m + 1) → m ≡ n) }
    ensures none { IfNone result ((n : ℕ) → node_on from n ≡ node → HasNumbers from (n + 1) → ⊥) }
{
    match (from, node) {
        (Node::Base(i), Node::Base(j)) | (Node::Event(i), Node::Event(j)) => j.checked_sub(i),
        _ => None,
    }
}

/// The node so many places on.
pub fn node_on(node: Node, n: u32) -> Node
    requires { HasNumbers node (n + 1) }
    ensures { result ≡ node_on node n }
{
    match node {
        Node::Root => Node::Root,
        Node::Base(i) => Node::Base(i + n),
        Node::Event(i) => Node::Event(i + n),
    }
}

/// The node with this number in a run.
pub fn node_at(run: &Record, offset: u32) -> Node
    requires { offset < run.now.len }
    ensures { result ≡ node_on run.now.from offset }
{
    node_on(run.from, offset)
}

/// The node behind the one with this number in a run, where it is in the run too.
pub fn node_behind(run: &Record, offset: u32) -> Option<Node>
    requires { offset < run.now.len }
    ensures some { IfSome result (λ v. v ≡ node_on run.now.from (offset + 1)) }
    ensures inside { IfSome result (λ _. offset + 1 < run.now.len) }
    ensures none { IfNone result (run.now.len ≡ offset + 1) }
{
    if run.len > offset + 1 {
        Some(node_on(run.from, offset + 1))
    } else {
        None
    }
}
