//! The order in which children are found.

ghost use Rattle.std.specs.Prelude.{◌≡◌, false, [], ◌∷◌, ◌++◌, OnOk, OnErr};
ghost use Rattle.std.specs.BTreeMap.{get};
ghost use Rattle.fugue_place.specs.Attachments.{is_attached, has_id};
ghost use Rattle.fugue_place.specs.Places.{ArePlaces};
ghost use Rattle.fugue_place.specs.Spots.{spot_cmp, IsIndex};

use crate::child::{Attached, Side};
use crate::children::Children;
use crate::places::Places;
use ew_model::NoMem;
use ew_model::id::Id;
use ew_model::node::Node;
use std::collections::BTreeMap;

/// Where a child is found: those of one parent on one side stand together, by their ids.
#[derive(Clone, Copy, PartialEq, Eq, PartialOrd, Ord)]
pub struct Spot {
    pub parent: Node,
    pub side: Side,
    pub rank: Rank,
}

/// A place among the children of one parent on one side.
#[derive(Clone, Copy, PartialEq, Eq, PartialOrd, Ord)]
pub enum Rank {
    /// Ahead of all of them.
    First,
    /// That of the child with this id.
    Of(Id),
    /// Behind all of them.
    Last,
}

/// Keeps the place of one more child behind these: under its spot, and by its node.
pub fn enlist(
    spots: &mut BTreeMap<Spot, usize>,
    places: &mut Places,
    children: &Children,
    child: &Attached,
) -> Result<(), NoMem>
    requires spots { IsIndex children.now.items (get spot_cmp spots.old) }
    requires places { ArePlaces children.now.items places.old }
    requires new { is_attached children.now.items child.now.node ≡ false }
    requires unused { has_id children.now.items child.now.id ≡ false }
    ensures spots { OnOk result (IsIndex (children.now.items ++ child.now ∷ []) (get spot_cmp spots.new)) }
    ensures places { OnOk result (ArePlaces (children.now.items ++ child.now ∷ []) places.new) }
    ensures same_spots { OnErr result (IsIndex children.now.items (get spot_cmp spots.new)) }
    ensures same_places { OnErr result (ArePlaces children.now.items places.new) }
{
    let rank = Rank::Of(child.id);
    let spot = Spot {
        parent: child.parent,
        side: child.side,
        rank,
    };
    spots.insert(spot, children.len())?;
    match places.add(children, child) {
        Ok(()) => Ok(()),
        Err(_) => {
            spots.remove(&spot);
            Err(NoMem)
        }
    }
}
