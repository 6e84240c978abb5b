//! What either of two versions knows alone.

ghost use Rattle.std.specs.Prelude.{◌≡◌, ℕ, ◌<◌, ◌≤◌, ◌&&◌, ◌||◌, not, true, nat_eq, if◌then◌else◌, ◌++◌, length, IfOk, OnOk};
ghost use Rattle.std.specs.List.{All};
ghost use Rattle.ew_model.specs.Graph.{is_named};
ghost use Rattle.ew_model.specs.Positions.{parents_at, known_alone};
ghost use Rattle.ancestors.specs.Spans.{positions_in, positions_of, AreDescending};
ghost use Rattle.ancestors.specs.Floors.{HasAllBelow};
ghost use Rattle.ancestors.specs.Sides.{has_left, has_right, on_left, on_right};
ghost use Rattle.frontier.specs.Chains.{IsChain};

use crate::sides::{Side, Sides};
use crate::spans::{Span, Spans};
use ew_model::NoMem;
use frontier::Parentage;
use std::alloc::Global;

/// The events that version `a` knows and `b` doesn't, and those that `b` knows and `a` doesn't. Both know all events
/// below the floor. The walk takes a whole chain of events at each step. It ends where all that is pending from the floor
/// on was put in for both at once, and begins no chain below the floor.
pub fn diff<G: Parentage>(
    alloc: Global,
    g: &G,
    a: &[u32],
    b: &[u32],
    floor: u32,
) -> Result<(Spans, Spans), NoMem>
    requires a { All (λ v. v < length (G.parents g.now)) a.now }
    requires b { All (λ v. v < length (G.parents g.now)) b.now }
    requires floor_a { HasAllBelow (G.parents g.now) a.now floor }
    requires floor_b { HasAllBelow (G.parents g.now) b.now floor }
    ensures left { IfOk result (λ sides. positions_of sides.0 ≡ known_alone (G.parents g.now) a.now b.now) }
    ensures right { IfOk result (λ sides. positions_of sides.1 ≡ known_alone (G.parents g.now) b.now a.now) }
    ensures left_order { IfOk result (λ sides. AreDescending sides.0) }
    ensures right_order { IfOk result (λ sides. AreDescending sides.1) }
{
    let _count = g.count();
    let mut sides = Sides::new(alloc);
    sides.put_all(Side::Left, a)?;
    sides.put_all(Side::Right, b)?;
    let mut left = Spans::new(alloc);
    let mut right = Spans::new(alloc);
    while let Some((n, side)) = sides.pop_from(floor) {
        let first = take_chain(g, n, &mut sides, side)?;
        let chain = Span {
            from: first,
            to: n + 1,
        };
        put_alone(&mut left, &mut right, side, chain)?;
    }
    Ok((left, right))
}

/// Puts positions below all others into the spans of the one version that has them alone, if one does.
fn put_alone(left: &mut Spans, right: &mut Spans, side: Side, chain: Span) -> Result<(), NoMem>
    requires filled { chain.from < chain.to }
    requires left { All (λ p. chain.to ≤ p) (positions_of left.old) }
    requires right { All (λ p. chain.to ≤ p) (positions_of right.old) }
    requires left_order { AreDescending left.old }
    requires right_order { AreDescending right.old }
    ensures left { OnOk result (positions_of left.new ≡ (if has_left side && not (has_right side) then positions_in chain ++ positions_of left.old else positions_of left.old)) }
    ensures right { OnOk result (positions_of right.new ≡ (if has_right side && not (has_left side) then positions_in chain ++ positions_of right.old else positions_of right.old)) }
    ensures left_order { AreDescending left.new }
    ensures right_order { AreDescending right.new }
{
    match side {
        Side::Left => left.push_lower(chain),
        Side::Right => right.push_lower(chain),
        Side::Both => Ok(()),
    }
}

/// Where a chain to an event begins, above all that are pending. Puts in the parents of its first event.
fn take_chain<G: Parentage>(g: &G, lv: u32, sides: &mut Sides, side: Side) -> Result<u32, NoMem>
    requires within { lv < length (G.parents g.now) }
    requires lower { (q : ℕ) → (on_left sides.old q || on_right sides.old q) ≡ true → q < lv }
    ensures chain { IfOk result (λ first. IsChain (G.parents g.now) first lv) }
    ensures above { IfOk result (λ first. (q : ℕ) → (on_left sides.old q || on_right sides.old q) ≡ true → q < first) }
    ensures left { IfOk result (λ first. (q : ℕ) → on_left sides.new q ≡ (on_left sides.old q || (has_left side && is_named nat_eq (parents_at (G.parents g.now) first) q))) }
    ensures right { IfOk result (λ first. (q : ℕ) → on_right sides.new q ≡ (on_right sides.old q || (has_right side && is_named nat_eq (parents_at (G.parents g.now) first) q))) }
{
    let Some(chain) = g.chain_to(lv) else {
        sides.put_all(side, &g.parents_of(lv))?;
        return Ok(lv);
    };
    match sides.highest() {
        Some(other) if chain.first <= other => {
            sides.put(side, other)?;
            Ok(other + 1)
        }
        _ => {
            sides.put_all(side, chain.parents)?;
            Ok(chain.first)
        }
    }
}
