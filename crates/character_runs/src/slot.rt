//! Where a new character hangs.

ghost use Rattle.std.specs.Prelude.{◌≡◌, Option, None, Bool, true, false, IsTrue};
ghost use Rattle.ew_model.specs.declared.node.Node.{Node as Nodes};
ghost use Rattle.ew_model.specs.declared.node.Node.TheVariants as nodes;
ghost use Rattle.character_runs.specs.Spots.{slot_by};

use ew_model::node::Node;
use fugue_place::Side;

/// Where a new node hangs: the node that it becomes a child of, and on which side.
#[derive(Clone, Copy)]
pub struct Slot {
    pub parent: Node,
    pub side: Side,
}

impl Slot {
    /// A right child of the node, as where it has none.
    pub fn right_of(node: Node) -> Slot
        ensures { (next : Option Nodes) → result ≡ slot_by false next node }
    {
        Slot {
            parent: node,
            side: Side::Right,
        }
    }

    /// Whether it is on the right of the node of the event at a position.
    pub fn is_right_of_event(self, position: u32) -> bool
        ensures { IsTrue result → self ≡ slot_by false None (nodes.Event position) }
    {
        self.side == Side::Right && self.parent == Node::Event(position)
    }

    /// Behind a node that has a right child: a left child of the node that follows in what is prepared, where one does.
    pub fn behind(node: Node, next: Option<Node>) -> Slot
        ensures { result ≡ slot_by true next node }
    {
        match next {
            Some(next) => Slot {
                parent: next,
                side: Side::Left,
            },
            None => Slot::right_of(node),
        }
    }
}

/// What tells of each node whether it has a right child in what is prepared.
pub trait KnownRights {
    /// The nodes that have one.
    ghost has_right: { Self → Nodes → Bool };

    /// Whether the node has one.
    fn has_known_right(&self, node: Node) -> bool
        ensures { result ≡ has_right self.now node };
}
