//! Positions that a walk still has to come to.

ghost use Rattle.std.specs.Prelude.{◌≡◌, ℕ, ◌<◌, ◌≤◌, ◌||◌, ◌&&◌, true, false, [], ◌∷◌, if◌then◌else◌, nat_eq, nat_le, IfSome, IfNone, IfOk, OnOk, length, All, IsPermutation};
ghost use Rattle.ew_model.specs.Graph.{is_named};
ghost use Rattle.ew_model.specs.Positions.{parents_at};
ghost use Rattle.frontier.specs.Chains.{IsChain};

use ew_model::NoMem;
use frontier::Parentage;
use std::alloc::Global;
use std::collections::BinaryHeap;
use std::marker::Model;

/// Positions that a walk still has to come to. The highest is taken first, and one may stand there several times. Contracts
/// see a list of them, whose order means nothing.
#[derive(Drop)]
pub struct Pending {
    positions: BinaryHeap<u32>,
}

impl Model for Pending {
    ghost use Rattle.std.specs.Prelude.{List, ℕ};
    ghost use Rattle.std.specs.Ordering.{nat_cmp};
    ghost use Rattle.std.specs.BinaryHeap.{IsHeap, heap_items};

    ghost Value = { List ℕ };

    ghost view = { λ p. heap_items p.positions };

    ghost invariant = { λ p. IsHeap nat_cmp (heap_items p.positions) };
}

impl Pending {
    /// Nothing is pending. It takes no memory.
    pub fn new(alloc: Global) -> Pending
        ensures { result ≡ [] }
    {
        Pending {
            positions: BinaryHeap::new(alloc),
        }
    }

    /// Puts in a position.
    pub fn put(&mut self, position: u32) -> Result<(), NoMem>
        ensures { OnOk result ((q : ℕ) → is_named nat_eq self.new q ≡ (is_named nat_eq self.old q || nat_eq q position)) }
    {
        self.positions.push(position)?;
        Ok(())
    }

    /// Puts in those of the positions that aren't below the floor.
    pub fn put_from(&mut self, floor: u32, positions: &[u32]) -> Result<(), NoMem>
        ensures { OnOk result ((q : ℕ) → is_named nat_eq self.new q ≡ (is_named nat_eq self.old q || (nat_le floor q && is_named nat_eq positions.now q))) }
    {
        for position in positions {
            if floor <= *position {
                self.put(*position)?;
            }
        }
        Ok(())
    }

    /// The highest position.
    pub fn highest(&self) -> Option<u32>
        ensures none { IfNone result ((q : ℕ) → is_named nat_eq self.now q ≡ false) }
        ensures member { IfSome result (λ n. is_named nat_eq self.now n ≡ true) }
        ensures greatest { IfSome result (λ n. (q : ℕ) → is_named nat_eq self.now q ≡ true → q ≤ n) }
    {
        self.positions.peek().copied()
    }

    /// Takes out the highest position, as often as it stands there.
    pub fn pop_highest(&mut self) -> Option<u32>
        ensures none { IfNone result ((q : ℕ) → is_named nat_eq self.old q ≡ false) }
        ensures member { IfSome result (λ n. is_named nat_eq self.old n ≡ true) }
        ensures greatest { IfSome result (λ n. (q : ℕ) → is_named nat_eq self.old q ≡ true → q ≤ n) }
        ensures left { IfSome result (λ n. (q : ℕ) → is_named nat_eq self.new q ≡ (if nat_eq n q then false else is_named nat_eq self.old q)) }
    {
        let highest = self.highest()?;
        self.strike(highest);
        Some(highest)
    }

    /// Takes a position out as often as it stands there, where none is above it. Says whether it stood there.
    pub fn strike(&mut self, position: u32) -> bool
        requires { (q : ℕ) → is_named nat_eq self.old q ≡ true → q ≤ position }
        ensures was { result ≡ is_named nat_eq self.old position }
        ensures left { (q : ℕ) → is_named nat_eq self.new q ≡ (if nat_eq position q then false else is_named nat_eq self.old q) }
    {
        let mut found = false;
        while self.highest() == Some(position) {
            self.pop_once();
            found = true;
        }
        found
    }

    /// Takes out the highest position once.
    fn pop_once(&mut self) -> Option<u32>
        ensures none { IfNone result (self.old ≡ []) }
        ensures taken { IfSome result (λ n. IsPermutation self.old (n ∷ self.new)) }
        ensures greatest { IfSome result (λ n. All (λ q. q ≤ n) self.old) }
    {
        self.positions.pop()
    }

    /// Where a chain to an event begins, above all that are pending. Puts in the parents of its first event, but for those
    /// below the floor.
    pub fn take_chain<G: Parentage>(&mut self, g: &G, lv: u32, floor: u32) -> Result<u32, NoMem>
        requires within { lv < length (G.parents g.now) }
        requires lower { (q : ℕ) → is_named nat_eq self.old q ≡ true → q < lv }
        ensures chain { IfOk result (λ first. IsChain (G.parents g.now) first lv) }
        ensures above { IfOk result (λ first. (q : ℕ) → is_named nat_eq self.old q ≡ true → q < first) }
        ensures put { IfOk result (λ first. (q : ℕ) → is_named nat_eq self.new q ≡ (is_named nat_eq self.old q || (nat_le floor q && is_named nat_eq (parents_at (G.parents g.now) first) q))) }
    {
        let Some(chain) = g.chain_to(lv) else {
            self.put_from(floor, &g.parents_of(lv))?;
            return Ok(lv);
        };
        match self.highest() {
            Some(other) if chain.first <= other => Ok(other + 1),
            _ => {
                self.put_from(floor, chain.parents)?;
                Ok(chain.first)
            }
        }
    }
}
