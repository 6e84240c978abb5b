//! Children of the tree's nodes.

ghost use Rattle.std.specs.Prelude.{◌≡◌};
ghost use Rattle.fugue_place.specs.Attachments.{is_newest};
ghost use Rattle.fugue_place.specs.Heirs.{is_heir};

use crate::children::Children;
use ew_model::id::Id;
use ew_model::node::Node;

/// Where a child stands to its parent.
#[derive(Clone, Copy, Debug, PartialEq, Eq, PartialOrd, Ord)]
pub enum Side {
    Left,
    Right,
}

/// A node that was attached as a child of another.
#[derive(Clone, Copy)]
pub struct Attached {
    pub parent: Node,
    pub side: Side,
    /// The id of the event that inserted the node: children on one side go by it.
    pub id: Id,
    pub node: Node,
}

/// Whether the node is that of the child that was attached last.
pub fn is_newest(children: &Children, node: Node) -> bool
    ensures { result ≡ is_newest children.now.items node }
{
    match children.newest_node() {
        Some(newest) => newest == node,
        None => false,
    }
}

/// Whether the child is an heir behind these: it hangs, on the right, on the one that was attached last.
pub fn is_heir(children: &Children, child: &Attached) -> bool
    ensures { result ≡ is_heir children.now.items child.now }
{
    is_newest(children, child.parent) && child.side == Side::Right
}
