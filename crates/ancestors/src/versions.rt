//! What one version knows.

ghost use Rattle.std.specs.Prelude.{◌≡◌, ◌<◌, ◌&&◌, length, nat_le, IfOk};
ghost use Rattle.std.specs.List.{All, list_any};
ghost use Rattle.std.specs.List.Sorted.{IsStrictlyIncreasing};
ghost use Rattle.ew_model.specs.Positions.{known_positions, is_known_at, is_reduced_at};
ghost use Rattle.ancestors.specs.Spans.{positions_of, AreDescending};

use crate::pending::Pending;
use crate::spans::{Span, Spans};
use ew_model::NoMem;
use frontier::Parentage;
use std::alloc::Global;

/// Whether an event is one of the version or an ancestor of one. The walk takes a whole chain of events at each step, and
/// begins none below that event.
pub fn contains<G: Parentage>(alloc: Global, g: &G, version: &[u32], lv: u32) -> Result<bool, NoMem>
    requires version { All (λ v. v < length (G.parents g.now)) version.now }
    requires position { lv < length (G.parents g.now) }
    ensures { IfOk result (λ known. known ≡ is_known_at (G.parents g.now) version.now lv) }
{
    let _count = g.count();
    let mut pending = Pending::new(alloc);
    pending.put_from(lv, version)?;
    while let Some(n) = pending.pop_highest() {
        let first = pending.take_chain(g, n, lv)?;
        if first <= lv {
            return Ok(true);
        }
    }
    Ok(false)
}

/// Whether none of these rising positions is an ancestor of another. The walk takes a whole chain of events at each step,
/// and begins none below the lowest of them.
pub fn is_reduced<G: Parentage>(alloc: Global, g: &G, parents: &[u32]) -> Result<bool, NoMem>
    requires rising { IsStrictlyIncreasing parents.now }
    requires parents { All (λ p. p < length (G.parents g.now)) parents.now }
    ensures { IfOk result (λ reduced. reduced ≡ is_reduced_at (G.parents g.now) parents.now) }
{
    let _count = g.count();
    let Some((lowest, others)) = parents.split_first() else {
        return Ok(true);
    };
    let mut pending = Pending::new(alloc);
    for position in others {
        pending.put_from(*lowest, g.parents_of(*position).as_slice())?;
    }
    while let Some(n) = pending.pop_highest() {
        let first = pending.take_chain(g, n, *lowest)?;
        if any_within(parents, first, n) {
            return Ok(false);
        }
    }
    Ok(true)
}

/// Whether one of the positions is neither below the first nor above the last.
fn any_within(positions: &[u32], first: u32, last: u32) -> bool
    ensures { result ≡ list_any (λ p. nat_le first p && nat_le p last) positions.now }
{
    positions
        .iter()
        .any(|position| first <= *position && *position <= last)
}

/// The events of a version and all their ancestors. The walk takes a whole chain of events at each step.
pub fn closure<G: Parentage>(alloc: Global, g: &G, version: &[u32]) -> Result<Spans, NoMem>
    requires { All (λ v. v < length (G.parents g.now)) version.now }
    ensures positions { IfOk result (λ spans. positions_of spans ≡ known_positions (G.parents g.now) version.now) }
    ensures order { IfOk result (λ spans. AreDescending spans) }
{
    let _count = g.count();
    let mut pending = Pending::new(alloc);
    pending.put_from(0, version)?;
    let mut found = Spans::new(alloc);
    while let Some(n) = pending.pop_highest() {
        let first = pending.take_chain(g, n, 0)?;
        found.push_lower(Span {
            from: first,
            to: n + 1,
        })?;
    }
    Ok(found)
}
