//! Which child has a new one as its outermost.

ghost use Rattle.std.specs.Prelude.{◌≡◌, [], IfSome, IfNone};
ghost use Rattle.fugue_place.specs.Attachments.{AreAttached};
ghost use Rattle.fugue_place.specs.Lines.{is_further, IsNewOutermost, IsNoOutermost};
ghost use Rattle.fugue_place.specs.Neighbours.{side_eq};
ghost use Rattle.fugue_place.specs.Places.{ArePlaces};
ghost use Rattle.fugue_place.specs.Ways.{way_of, LeadOutward};

use crate::child::{Attached, Side};
use crate::children::Children;
use crate::places::Places;
use crate::ways::Ways;
use ew_model::id::Id;

/// The place of the new child's parent, where that is a child of which the new one is the outermost child on its side. The
/// ways lead outward there.
pub fn leader_of(
    children: &Children,
    places: &Places,
    ways: &Ways,
    child: &Attached,
) -> Option<usize>
    requires attached { AreAttached [] children.now.items }
    requires places { ArePlaces children.now.items places.now }
    requires ways { LeadOutward child.now.side children.now.items ways.now }
    ensures some { IfSome result (IsNewOutermost child.now.side children.now.items (way_of ways.now) child.now) }
    ensures none { IfNone result (IsNoOutermost child.now.side children.now.items (way_of ways.now) child.now) }
{
    let at = places.find(children, child.parent)?;
    if let Some(k) = ways.follower(at) {
        let rival = children.get(k as usize);
        if !is_further(child.side, &child.id, &rival.id) {
            return None;
        }
    }
    Some(at)
}

/// Whether the two are one side.
pub fn is_side(side: Side, other: Side) -> bool
    ensures { result ≡ side_eq side other }
{
    side == other
}

/// Whether the first id stands further out on the side.
pub fn is_further(side: Side, id: &Id, other: &Id) -> bool
    ensures { result ≡ is_further side id.now other.now }
{
    match side {
        Side::Left => id < other,
        Side::Right => other < id,
    }
}
