//! Searches among the children of one node on one side.

ghost use Rattle.std.specs.Prelude.{◌≡◌, List, [], length, IfSome, IfNone};
ghost use Rattle.std.specs.BTreeMap.{get};
ghost use Rattle.std.specs.BTreeMap.Range.{IsLeBy};
ghost use Rattle.fugue_place.specs.declared.child.Attached.{Attached};
ghost use Rattle.fugue_place.specs.Attachments.{AreAttached};
ghost use Rattle.fugue_place.specs.Heirs.{IsHeirIn, HasNoHeir, IsBestOfOthers};
ghost use Rattle.fugue_place.specs.Lines.{is_below, is_in_line, IsBest};
ghost use Rattle.fugue_place.specs.Places.{ArePlaces};
ghost use Rattle.fugue_place.specs.Spots.{spot_cmp, ahead_of, behind, IsIndex, IsFirstBetween, IsLastBetween, IsNoneBetween};

use crate::child::{Attached, Side};
use crate::children::Children;
use crate::leaders::{is_further, is_side};
use crate::places::Places;
use crate::spot::{Rank, Spot};
use ew_model::id::Id;
use ew_model::node::Node;
use std::collections::BTreeMap;

/// The children of a node on one side: all, or those with ids below one.
#[derive(Drop)]
pub struct Line {
    pub parent: Node,
    pub side: Side,
    pub below: Option<Id>,
}

impl Line {
    /// The spot ahead of all its children.
    pub fn ahead(&self) -> Spot
        ensures { result ≡ ahead_of self.now }
    {
        Spot {
            parent: self.parent,
            side: self.side,
            rank: Rank::First,
        }
    }

    /// The spot behind all its children.
    pub fn behind(&self) -> Spot
        ensures { result ≡ behind self.now }
    {
        let rank = match self.below {
            None => Rank::Last,
            Some(limit) => Rank::Of(limit),
        };
        Spot {
            parent: self.parent,
            side: self.side,
            rank,
        }
    }

    /// Whether the child is in the line.
    fn has(&self, child: &Attached) -> bool
        ensures { result ≡ is_in_line self.now child.now }
    {
        child.parent == self.parent && child.side == self.side && self.reaches(&child.id)
    }

    /// Whether the line takes in the id.
    fn reaches(&self, id: &Id) -> bool
        ensures { result ≡ is_below self.now.below id.now }
    {
        match &self.below {
            None => true,
            Some(limit) => id < limit,
        }
    }
}

/// The place of the child in the line that stands outermost on the side `end`.
pub fn outermost_child(
    children: &Children,
    spots: &BTreeMap<Spot, usize>,
    places: &Places,
    line: &Line,
    end: Side,
) -> Option<usize>
    requires attached { AreAttached [] children.now.items }
    requires indexed { IsIndex children.now.items (get spot_cmp spots.now) }
    requires places { ArePlaces children.now.items places.now }
    ensures { IsBest line.now end children.now.items (length children.now.items) result }
{
    let other = outermost_of_others(spots, line, end);
    let Some(heir) = heir_in(children, places, line) else {
        return other;
    };
    let Some(place) = other else {
        return Some(heir);
    };
    let first = children.get(heir);
    let second = children.get(place);
    if is_further(end, &first.id, &second.id) {
        Some(heir)
    } else {
        Some(place)
    }
}

/// The place of the child in the line that stands outermost on the side, but for an heir.
fn outermost_of_others(spots: &BTreeMap<Spot, usize>, line: &Line, end: Side) -> Option<usize>
    // of any children that are found by these spots
    ensures { (children : List Attached) → IsIndex children (get spot_cmp spots.now) → IsBestOfOthers line.now end children result }
{
    let from = line.ahead();
    let to = line.behind();
    match end {
        Side::Left => first_between(spots, from, to),
        Side::Right => last_between(spots, from, to),
    }
}

/// The place of the heir in the line, if there is one: it stands right behind the parent.
pub fn heir_in(children: &Children, places: &Places, line: &Line) -> Option<usize>
    requires attached { AreAttached [] children.now.items }
    requires places { ArePlaces children.now.items places.now }
    ensures some { IfSome result (IsHeirIn line.now children.now.items) }
    ensures none { IfNone result (HasNoHeir line.now children.now.items) }
{
    if !is_side(line.side, Side::Right) {
        return None;
    }
    let count = children.len();
    let place = places.find(children, line.parent)? + 1;
    if place == count {
        return None;
    }
    let child = children.get(place);
    if line.has(&child) { Some(place) } else { None }
}

/// What is kept at the first spot of those from the one up to the other.
fn first_between(spots: &BTreeMap<Spot, usize>, from: Spot, to: Spot) -> Option<usize>
    requires { IsLeBy spot_cmp from to }
    ensures some { IfSome result (λ k. IsFirstBetween (get spot_cmp spots.now) from to k) }
    ensures none { IfNone result (IsNoneBetween (get spot_cmp spots.now) from to) }
{
    let mut found = spots.range(from..to);
    match found.next() {
        Some((_, place)) => Some(*place),
        None => None,
    }
}

/// What is kept at the last spot of those from the one up to the other.
fn last_between(spots: &BTreeMap<Spot, usize>, from: Spot, to: Spot) -> Option<usize>
    requires { IsLeBy spot_cmp from to }
    ensures some { IfSome result (λ k. IsLastBetween (get spot_cmp spots.now) from to k) }
    ensures none { IfNone result (IsNoneBetween (get spot_cmp spots.now) from to) }
{
    let mut found = spots.range(from..to);
    match found.next_back() {
        Some((_, place)) => Some(*place),
        None => None,
    }
}
