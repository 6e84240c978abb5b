//! The events of one graph, looked up in another. Nothing here takes memory.

ghost use Rattle.std.specs.Prelude.{◌≡◌, ◌↔◌, ◌<◌, ◌++◌, IfNone, IfSome, IsTrue, Some, length, position, slice_get};
ghost use Rattle.std.specs.List.{All};
ghost use Rattle.ew_model.specs.declared.event.Event.{Event};
ghost use Rattle.ew_model.specs.declared.id.Id.{Id};
ghost use Rattle.ew_model.specs.Ancestors.{ids_of};
ghost use Rattle.ew_model.specs.ArrivalLaw.{OneEach};
ghost use Rattle.ew_model.specs.Cuts.{are_among};
ghost use Rattle.ew_model.specs.Ids.{id_eq, is_among};
ghost use Rattle.ew_model.specs.Sets.{Among, SameElements};
ghost use Rattle.event_graph.specs.Keeping.{IsAdmitted, id_of};
ghost use Rattle.agreement.specs.Sharing.{AreSharedTo, Fits, FitTo, HaveSameParents, IsShared, ids_at};

use crate::alike::going_on_alike;
use crate::nears::Nears;
use event_graph::Graph;
use frontier::Parentage;

/// Whether the two graphs hold equal sets of events, in whatever order these came.
pub fn agrees(a: &Graph, b: &Graph) -> bool
    ensures { IsTrue result ↔ SameElements a.now b.now }
{
    a.count() == b.count() && holds_all(b, a)
}

/// Whether each event of `a` is among those of `b`.
fn holds_all(b: &Graph, a: &Graph) -> bool
    requires { IsAdmitted b.now }
    ensures { IsTrue result ↔ ((e : Event) → Among e a.now → Among e b.now) }
{
    let mut nears = Nears::start();
    let mut position = 0;
    while position < a.count() {
        match shared_to(a, position, b, &mut nears) {
            Some(next) => position = next,
            None => return false,
        }
    }
    true
}

/// Whether the two graphs hold one event for each id: no event of the one has the id of another event of the other.
pub fn are_consistent(a: &Graph, b: &Graph) -> bool
    ensures { IsTrue result ↔ OneEach (a.now ++ b.now) }
{
    // Asked for what its clauses tell: the events of a graph are sound, and fewer than 2^32.
    let _count = b.count();
    let mut nears = Nears::start();
    let mut position = 0;
    while position < a.count() {
        match fitting_to(a, position, b, &mut nears) {
            Some(next) => position = next,
            None => return false,
        }
    }
    true
}

/// The position of `a` up to which the events from this one on are seen at once to be among those of `b`. None where the first isn't.
fn shared_to(a: &Graph, position: u32, b: &Graph, nears: &mut Nears) -> Option<u32>
    requires within { position < length a.now }
    requires admitted_a { IsAdmitted a.now }
    requires admitted_b { IsAdmitted b.now }
    ensures some { IfSome result (λ next. AreSharedTo a.now position next b.now) }
    ensures none { IfNone result (IsShared a.now position b.now → ⊥) }
{
    let other = b.find(&a.id_near(position, &mut nears.ours))?;
    same_to(a, position, b, other, nears)
}

/// The position of `a` up to which the events from this one on are seen at once to be among those of `b`, where `b` holds their ids.
/// None where the first isn't.
fn fitting_to(a: &Graph, position: u32, b: &Graph, nears: &mut Nears) -> Option<u32>
    requires within { position < length a.now }
    requires admitted_a { IsAdmitted a.now }
    requires admitted_b { IsAdmitted b.now }
    ensures some { IfSome result (λ next. FitTo a.now position next b.now) }
    ensures none { IfNone result (Fits a.now position b.now → ⊥) }
{
    // Asked for what its clauses tell: the events of a graph are sound, and fewer than 2^32.
    let _count = a.count();
    match b.find(&a.id_near(position, &mut nears.ours)) {
        Some(other) => same_to(a, position, b, other, nears),
        None => Some(position + 1),
    }
}

/// The position of `a` up to which the events from the one on are seen at once to be among those of `b`, where the id of the first
/// stands at the other position. None where the first isn't.
fn same_to(a: &Graph, one: u32, b: &Graph, other: u32, nears: &mut Nears) -> Option<u32>
    requires within_a { one < length a.now }
    requires within_b { other < length b.now }
    requires admitted_a { IsAdmitted a.now }
    requires admitted_b { IsAdmitted b.now }
    requires found { (x : Id) → slice_get (ids_of a.now) one ≡ Some x → position (id_eq x) (ids_of b.now) ≡ Some other }
    ensures some { IfSome result (λ next. AreSharedTo a.now one next b.now) }
    ensures none { IfNone result (IsShared a.now one b.now → ⊥) }
{
    // Asked for what its clauses tell: the events of a graph are sound, and fewer than 2^32.
    let _count = a.count();
    match going_on_alike(a, one, b, other, nears) {
        Some(count) => have_same_parents(a, one, b, other, nears).then_some(one + count),
        None => is_same(a, one, b, other, nears).then_some(one + 1),
    }
}

/// Whether the event of `a` at the one position is that of `b` with its id, which stands at the other.
fn is_same(a: &Graph, one: u32, b: &Graph, other: u32, nears: &mut Nears) -> bool
    requires within_a { one < length a.now }
    requires within_b { other < length b.now }
    requires admitted_a { IsAdmitted a.now }
    requires admitted_b { IsAdmitted b.now }
    requires found { (x : Id) → slice_get (ids_of a.now) one ≡ Some x → position (id_eq x) (ids_of b.now) ≡ Some other }
    ensures { IsTrue result ↔ IsShared a.now one b.now }
{
    let ours = a.op_near(one, &mut nears.ours);
    let theirs = b.op_near(other, &mut nears.theirs);
    ours.same(&theirs) && have_same_parents(a, one, b, other, nears)
}

/// Whether the event of `a` at the one position has the parents of the event of `b` at the other. Where both have the event before
/// them as their only parent, the ids of these tell it.
fn have_same_parents(a: &Graph, one: u32, b: &Graph, other: u32, nears: &mut Nears) -> bool
    requires within_a { one < length a.now }
    requires within_b { other < length b.now }
    requires admitted_a { IsAdmitted a.now }
    requires admitted_b { IsAdmitted b.now }
    ensures { IsTrue result ↔ HaveSameParents a.now one b.now other }
{
    if a.chain_start_near(one, &mut nears.ours) < one
        && b.chain_start_near(other, &mut nears.theirs) < other
    {
        let ours = a.id_near(one - 1, &mut nears.ours);
        ours.is(&b.id_near(other - 1, &mut nears.theirs))
    } else {
        have_same_ids(a, one, b, other)
    }
}

/// The same, by the ids of all parents.
fn have_same_ids(a: &Graph, one: u32, b: &Graph, other: u32) -> bool
    requires within_a { one < length a.now }
    requires within_b { other < length b.now }
    requires admitted_a { IsAdmitted a.now }
    requires admitted_b { IsAdmitted b.now }
    ensures { IsTrue result ↔ HaveSameParents a.now one b.now other }
{
    let ours = a.parents_of(one);
    let theirs = b.parents_of(other);
    ours.len() == theirs.len() && stand_at(b, theirs.as_slice(), a, ours.as_slice())
}

/// Whether the ids at some positions of `a` are all at these positions of `b`.
fn stand_at(b: &Graph, theirs: &[u32], a: &Graph, ours: &[u32]) -> bool
    requires within_a { All (λ p. p < length a.now) ours.now }
    requires within_b { All (λ p. p < length b.now) theirs.now }
    requires admitted { IsAdmitted b.now }
    ensures { result ≡ are_among (ids_at b.now theirs.now) (ids_at a.now ours.now) }
{
    ours.iter().all(|p| stands_at(b, theirs, a, *p))
}

/// Whether the id at a position of `a` is at one of these positions of `b`.
fn stands_at(b: &Graph, theirs: &[u32], a: &Graph, ours: u32) -> bool
    requires within_a { ours < length a.now }
    requires within_b { All (λ p. p < length b.now) theirs.now }
    requires admitted { IsAdmitted b.now }
    ensures { result ≡ is_among (ids_at b.now theirs.now) (id_of (ids_of a.now) ours) }
{
    match b.find(&a.id_at(ours)) {
        Some(other) => theirs.contains(&other),
        None => false,
    }
}
