//! A history as its events' parents.

ghost use Rattle.std.specs.Prelude.{◌≡◌, ℕ, ◌<◌, List, length, IfSome};
ghost use Rattle.ew_model.specs.Positions.{AreParents, IsHistoryOfParents, parents_at};
ghost use Rattle.frontier.specs.Chains.{IsChain};

use smallvec::SmallVec;

/// A chain of events, in which each has exactly the one before it as its parents, with what its first event has.
#[derive(Clone, Copy)]
pub struct Chain<'a> {
    /// The position of the first event.
    pub first: u32,
    /// The parents of the first event, rising.
    pub parents: &'a [u32],
}

/// A history whose events are known by their positions, and by the positions of their parents. The calls take no memory.
pub trait Parentage {
    /// The parents of each event, the oldest event first.
    ghost parents: { Self → List (List ℕ) };

    /// How many events there are.
    fn count(&self) -> u32
        ensures count { result ≡ length (parents self.now) }
        ensures history { IsHistoryOfParents (parents self.now) };

    /// The parents of the event at a position, rising.
    fn parents_of(&self, lv: u32) -> SmallVec<u32, 16>
        requires { lv < length (parents self.now) }
        ensures value { result.items ≡ parents_at (parents self.now) lv }
        ensures lower { AreParents lv result.items };

    /// The position of an event from which a chain goes to the one at this position: each event behind the first has exactly the one
    /// before it as its parents. Which chain it is isn't promised. Where none is known, it is the event alone, and the answer its own
    /// position.
    fn chain_start(&self, lv: u32) -> u32
        requires { lv < length (parents self.now) }
        ensures { IsChain (parents self.now) result lv }
    {
        lv
    }

    /// A chain to the event at a position, or none. It may begin anywhere. A walk that is given none goes on by that event alone: what
    /// it answers doesn't depend on the chains, only how much it has to do.
    fn chain_to(&self, lv: u32) -> Option<Chain<'_>>
        requires { lv < length (parents self.now) }
        ensures chain { IfSome result (λ chain. IsChain (parents self.now) chain.first lv) }
        ensures value { IfSome result (λ chain. chain.parents.now ≡ parents_at (parents self.now) chain.first) }
        ensures lower { IfSome result (λ chain. AreParents chain.first chain.parents.now) }
    {
        None
    }
}
