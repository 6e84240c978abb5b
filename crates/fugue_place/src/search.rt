//! The search for the neighbour of a new child.

ghost use Rattle.std.specs.Prelude.{◌≡◌, ℕ, ◌<◌, true, false, [], length};
ghost use Rattle.std.specs.BTreeMap.{get};
ghost use Rattle.fugue_place.specs.declared.child.Side.TheVariants.{Left, Right};
ghost use Rattle.fugue_place.specs.Attachments.{side_of, is_attached, is_there, has_id, path_of, AreAttached};
ghost use Rattle.fugue_place.specs.Neighbours.{IsPlaceOfNew, beside};
ghost use Rattle.fugue_place.specs.Places.{ArePlaces};
ghost use Rattle.fugue_place.specs.Spots.{spot_cmp, IsIndex};
ghost use Rattle.fugue_place.specs.Subtrees.{node_at, HasBase, tree_nodes, EndsBelow};
ghost use Rattle.fugue_place.specs.Ways.{LeadOutward};

use crate::child::{Side, is_newest};
use crate::children::Children;
use crate::line::{Line, outermost_child};
use crate::neighbour::Place;
use crate::places::Places;
use crate::spot::Spot;
use crate::ways::Ways;
use ew_model::id::Id;
use ew_model::node::Node;
use std::collections::BTreeMap;

/// The place of a new child of the node on the side, under the id. `left` and `right` lead outward.
pub fn place_of_new(
    children: &Children,
    spots: &BTreeMap<Spot, usize>,
    places: &Places,
    left: &Ways,
    right: &Ways,
    parent: Node,
    side: Side,
    id: Id,
) -> Place
    requires attached { AreAttached [] children.now.items }
    requires indexed { IsIndex children.now.items (get spot_cmp spots.now) }
    requires places { ArePlaces children.now.items places.now }
    requires left { LeadOutward Left children.now.items left.now }
    requires right { LeadOutward Right children.now.items right.now }
    requires parent { is_there children.now.items parent ≡ true }
    requires unused { has_id children.now.items id ≡ false }
    ensures { IsPlaceOfNew children.now.items parent side id result }
{
    // No child hangs on the one that was attached last.
    if is_newest(children, parent) {
        return beside(parent, side);
    }
    let all = Line {
        parent,
        side,
        below: None,
    };
    let Some(lowest) = outermost_child(children, spots, places, &all, Side::Left) else {
        return beside(parent, side);
    };
    let lower = Line {
        parent,
        side,
        below: Some(id),
    };
    if let Some(k) = outermost_child(children, spots, places, &lower, Side::Right) {
        let last = outermost_node(children, right, k, Side::Right);
        return Place::After(last);
    }
    let first = outermost_node(children, left, lowest, Side::Left);
    Place::Before(first)
}

/// The place right beside a node on the side.
fn beside(node: Node, side: Side) -> Place
    ensures { result ≡ beside side node }
{
    match side {
        Side::Left => Place::Before(node),
        Side::Right => Place::After(node),
    }
}

/// The outermost node on the side `end` of the subtree of the child at a place: the last on the right, the first on the
/// left. The ways lead outward there.
fn outermost_node(children: &Children, ways: &Ways, from: usize, end: Side) -> Node
    requires attached { AreAttached [] children.now.items }
    requires ways { LeadOutward end children.now.items ways.now }
    requires within { from < length children.now.items }
    ensures there { is_attached children.now.items result ≡ true }
    ensures ends { (b : ℕ) → HasBase children.now.items b → EndsBelow (side_of end) (tree_nodes b children.now.items) (path_of children.now.items (node_at children.now.items from)) (path_of children.now.items result) }
{
    children.get(ways.end_of(from)).node
}
