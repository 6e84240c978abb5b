//! The heads of a history.

ghost use Rattle.std.specs.Prelude.{◌≡◌, ◌↔◌, ℕ, ◌+◌, ◌<◌, not, List, [], ◌∷◌, ◌++◌, filter, length, nat_eq, IsTrue, IfOk, IsOkAnd, OnOk, OnErr};
ghost use Rattle.std.specs.List.{All};
ghost use Rattle.std.specs.List.Sorted.{IsStrictlyIncreasing};
ghost use Rattle.ew_model.specs.Graph.{is_named};
ghost use Rattle.ew_model.specs.Positions.{AreParents, IsHistoryOfParents, frontier_of};
ghost use Rattle.frontier.specs.Heads.{without, heads_after};

use ew_model::NoMem;
use smallvec::SmallVec;
use std::alloc::Global;
use std::marker::Model;

/// The positions of the events that have no child, rising. Contracts see the list.
#[derive(Drop)]
pub struct Frontier {
    heads: SmallVec<u32, 16>,
}

impl Model for Frontier {
    ghost use Rattle.std.specs.Prelude.{ℕ, List};
    ghost use Rattle.std.specs.List.Sorted.{IsStrictlyIncreasing};

    ghost Value = { List ℕ };

    ghost view = { λ f. f.heads.items };

    ghost invariant = { λ f. IsStrictlyIncreasing f.heads.items };
}

impl Frontier {
    /// The frontier of no events. It takes no memory, and never fails.
    pub fn new(alloc: Global) -> Result<Frontier, NoMem>
        ensures { IsOkAnd result (λ f. f ≡ []) }
    {
        Ok(Frontier {
            heads: SmallVec::new(alloc),
        })
    }

    /// The frontier of these heads. It takes no memory.
    pub fn from_rising(heads: SmallVec<u32, 16>) -> Frontier
        requires { IsStrictlyIncreasing heads.items }
        ensures { result ≡ heads.items }
    {
        Frontier { heads }
    }

    /// Puts in an event that stands behind all others: its parents are no heads any more, and it is one.
    pub fn insert_event(&mut self, lv: u32, parents: &[u32]) -> Result<(), NoMem>
        requires next { All (λ h. h < lv) self.old }
        ensures ok { OnOk result (self.new ≡ heads_after self.old lv parents.now) }
        ensures below { OnOk result (All (λ h. h < lv + 1) self.new) }
        ensures err { OnErr result (self.new ≡ self.old) }

        // So it stays the frontier of the history that it is the frontier of.
        ensures frontier { OnOk result ((history : List (List ℕ)) → IsHistoryOfParents history → lv ≡ length history → AreParents lv parents.now → self.old ≡ frontier_of history → self.new ≡ frontier_of (history ++ parents.now ∷ [])) }
    {
        self.heads.reserve(1)?;
        take_out_all(&mut self.heads, parents);
        self.heads.push_reserved(lv);
        Ok(())
    }

    /// Whether these are the heads, in their order.
    pub fn equals(&self, other: &[u32]) -> bool
        ensures { IsTrue result ↔ (self.now ≡ other.now) }
    {
        self.heads.as_slice() == other
    }

    /// The heads.
    pub fn as_slice(&self) -> &[u32]
        ensures heads { result.now ≡ self.now }
        ensures rising { IsStrictlyIncreasing self.now }
    {
        self.heads.as_slice()
    }

    /// A second frontier of the same heads.
    pub fn copy(&self) -> Result<Frontier, NoMem>
        ensures { IfOk result (λ f. f ≡ self.now) }
    {
        let heads = SmallVec::from_slice(*self.heads.allocator(), self.heads.as_slice())?;
        Ok(Frontier { heads })
    }
}

/// Takes these positions out of rising ones.
fn take_out_all(heads: &mut SmallVec<u32, 16>, positions: &[u32])
    requires rising { IsStrictlyIncreasing heads.old.items }
    ensures items { heads.new.items ≡ filter (λ h. not (is_named nat_eq positions.now h)) heads.old.items }
    ensures capacity { heads.new.capacity ≡ heads.old.capacity }
{
    for position in positions {
        take_out(heads, *position);
    }
}

/// Takes a position out of rising ones, if it is there.
fn take_out(heads: &mut SmallVec<u32, 16>, position: u32)
    requires rising { IsStrictlyIncreasing heads.old.items }
    ensures items { heads.new.items ≡ without position heads.old.items }
    ensures capacity { heads.new.capacity ≡ heads.old.capacity }
{
    if let Ok(i) = heads.as_slice().binary_search(&position) {
        heads.remove(i);
    }
}
