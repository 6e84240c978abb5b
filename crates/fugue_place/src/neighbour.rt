//! Places in the order of all nodes.

use ew_model::node::Node;

/// A place right beside a node.
#[derive(Clone, Copy, Debug, PartialEq, Eq)]
pub enum Place {
    /// Right behind it.
    After(Node),
    /// Right ahead of it.
    Before(Node),
}
