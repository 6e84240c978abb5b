//! What is kept of one more child.

ghost use Rattle.std.specs.Prelude.{◌≡◌, false, [], ◌∷◌, ◌++◌, ◌<◌, IfSome, OnOk, OnErr};
ghost use Rattle.std.specs.BTreeMap.{get};
ghost use Rattle.fugue_place.specs.Attachments.{is_attached, has_id};
ghost use Rattle.fugue_place.specs.Places.{ArePlaces};
ghost use Rattle.fugue_place.specs.Spots.{spot_cmp, IsIndex};
ghost use Rattle.fugue_place.specs.Ways.{IsWays, IsReady, IsSameWays};

use crate::child::Attached;
use crate::children::Children;
use crate::places::Places;
use crate::spot::{Spot, enlist};
use crate::ways::Ways;
use ew_model::NoMem;
use std::collections::BTreeMap;

/// Keeps the place of one more child behind these, and prepares the ways on its side for it.
pub fn enlist_behind(
    ways: &mut Ways,
    behind: Option<usize>,
    spots: &mut BTreeMap<Spot, usize>,
    places: &mut Places,
    children: &Children,
    child: &Attached,
) -> Result<(), NoMem>
    requires ways { IsWays ways.old }
    requires behind { IfSome behind (λ k. k < ways.old.count) }
    requires spots { IsIndex children.now.items (get spot_cmp spots.old) }
    requires places { ArePlaces children.now.items places.old }
    requires new { is_attached children.now.items child.now.node ≡ false }
    requires unused { has_id children.now.items child.now.id ≡ false }
    ensures ways { OnOk result (IsReady ways.old ways.new behind) }
    ensures spots { OnOk result (IsIndex (children.now.items ++ child.now ∷ []) (get spot_cmp spots.new)) }
    ensures places { OnOk result (ArePlaces (children.now.items ++ child.now ∷ []) places.new) }
    ensures same_ways { OnErr result (IsSameWays ways.old ways.new) }
    ensures same_spots { OnErr result (IsIndex children.now.items (get spot_cmp spots.new)) }
    ensures same_places { OnErr result (ArePlaces children.now.items places.new) }
{
    let before = ways.prepare(behind)?;
    match enlist(spots, places, children, child) {
        Ok(()) => Ok(()),
        Err(_) => {
            ways.give_up(behind, before);
            Err(NoMem)
        }
    }
}
