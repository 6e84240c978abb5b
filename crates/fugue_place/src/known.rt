//! The search for a right child that is known.

ghost use Rattle.std.specs.Prelude.{◌≡◌, true, false, []};
ghost use Rattle.std.specs.BTreeMap.{get};
ghost use Rattle.fugue_place.specs.Attachments.{AreAttached};
ghost use Rattle.fugue_place.specs.Heirs.{EveryOther};
ghost use Rattle.fugue_place.specs.Lines.{line_of};
ghost use Rattle.fugue_place.specs.Neighbours.{SomeRightChild, EveryRightChild};
ghost use Rattle.fugue_place.specs.Places.{ArePlaces};
ghost use Rattle.fugue_place.specs.Spots.{spot_cmp, IsIndex};

use crate::child::Side;
use crate::children::Children;
use crate::line::{Line, heir_in};
use crate::places::Places;
use crate::spot::Spot;
use ew_model::node::Node;
use std::collections::BTreeMap;

/// Whether an attached right child of the node is known: the one that stands right behind the node, or one of the others.
pub fn has_known_right<F: Fn(Node) -> bool>(
    children: &Children,
    spots: &BTreeMap<Spot, usize>,
    places: &Places,
    node: Node,
    known: F,
) -> bool
    requires attached { AreAttached [] children.now.items }
    requires indexed { IsIndex children.now.items (get spot_cmp spots.now) }
    requires places { ArePlaces children.now.items places.now }
    requires known { EveryRightChild (F.pre known) children.now.items node }
    ensures one { result ≡ true → SomeRightChild (λ v. F.post known v true) children.now.items node }
    ensures none { result ≡ false → EveryRightChild (λ v. F.post known v false) children.now.items node }
{
    let line = Line {
        parent: node,
        side: Side::Right,
        below: None,
    };
    let Some(place) = heir_in(children, places, &line) else {
        return is_other_known(children, spots, &line, known);
    };
    if known(children.get(place).node) {
        return true;
    }
    is_other_known(children, spots, &line, known)
}

/// Whether a child in the line of all right children of a node is known, but for an heir.
fn is_other_known<F: Fn(Node) -> bool>(
    children: &Children,
    spots: &BTreeMap<Spot, usize>,
    line: &Line,
    known: F,
) -> bool
    requires line { line.now ≡ line_of line.now.parent Side.Right }
    requires indexed { IsIndex children.now.items (get spot_cmp spots.now) }
    requires known { EveryRightChild (F.pre known) children.now.items line.now.parent }
    ensures one { result ≡ true → SomeRightChild (λ v. F.post known v true) children.now.items line.now.parent }
    ensures none { result ≡ false → EveryOther (λ v. F.post known v false) children.now.items line.now.parent }
{
    for (_, place) in spots.range(line.ahead()..line.behind()) {
        if known(children.get(*place).node) {
            return true;
        }
    }
    false
}
