//! Positions that two walks still have to come to, side by side.

ghost use Rattle.std.specs.Prelude.{◌≡◌, ℕ, ◌<◌, ◌≤◌, ◌||◌, ◌&&◌, ◌⊎◌, true, false, nat_eq, if◌then◌else◌, Some, None, IfSome, IfNone, OnOk};
ghost use Rattle.ew_model.specs.Graph.{is_named};
ghost use Rattle.ancestors.specs.Sides.{has_left, has_right, on_left, on_right, AgreeFrom, IsHighest};

use crate::pending::Pending;
use ew_model::NoMem;
use std::alloc::Global;

/// Which of the two walks has a position pending.
#[derive(Clone, Copy)]
pub enum Side {
    Left,
    Right,
    Both,
}

/// The positions that are pending. One that both walks put in at once is kept apart. Where only such are left, nothing
/// tells the walks from each other, and that is seen without a comparison. A position may stand in several of the three.
#[derive(Drop)]
pub struct Sides {
    left: Pending,
    right: Pending,
    both: Pending,
}

impl Sides {
    /// Nothing is pending.
    pub fn new(alloc: Global) -> Sides
        ensures left { (q : ℕ) → on_left result q ≡ false }
        ensures right { (q : ℕ) → on_right result q ≡ false }
    {
        Sides {
            left: Pending::new(alloc),
            right: Pending::new(alloc),
            both: Pending::new(alloc),
        }
    }

    /// Puts in positions.
    pub fn put_all(&mut self, side: Side, positions: &[u32]) -> Result<(), NoMem>
        ensures left { OnOk result ((q : ℕ) → on_left self.new q ≡ (on_left self.old q || (has_left side && is_named nat_eq positions.now q))) }
        ensures right { OnOk result ((q : ℕ) → on_right self.new q ≡ (on_right self.old q || (has_right side && is_named nat_eq positions.now q))) }
    {
        for position in positions {
            self.put(side, *position)?;
        }
        Ok(())
    }

    /// Puts in a position.
    pub fn put(&mut self, side: Side, lv: u32) -> Result<(), NoMem>
        ensures left { OnOk result ((q : ℕ) → on_left self.new q ≡ (on_left self.old q || (has_left side && nat_eq q lv))) }
        ensures right { OnOk result ((q : ℕ) → on_right self.new q ≡ (on_right self.old q || (has_right side && nat_eq q lv))) }
    {
        match side {
            Side::Left => self.left.put(lv),
            Side::Right => self.right.put(lv),
            Side::Both => self.both.put(lv),
        }
    }

    /// Takes out the highest position. None where all that is left from the floor on was put in for both walks at once: both have
    /// the same pending there.
    pub fn pop_from(&mut self, floor: u32) -> Option<(u32, Side)>
        ensures none { IfNone result (AgreeFrom floor (on_left self.old) (on_right self.old)) }
        ensures highest { IfSome result (λ top. IsHighest (on_left self.old) (on_right self.old) top.0) }
        ensures floor { IfSome result (λ top. floor ≤ top.0) }
        ensures was_left { IfSome result (λ top. has_left top.1 ≡ on_left self.old top.0) }
        ensures was_right { IfSome result (λ top. has_right top.1 ≡ on_right self.old top.0) }
        ensures left { IfSome result (λ top. (q : ℕ) → on_left self.new q ≡ (if nat_eq top.0 q then false else on_left self.old q)) }
        ensures right { IfSome result (λ top. (q : ℕ) → on_right self.new q ≡ (if nat_eq top.0 q then false else on_right self.old q)) }
    {
        let highest = self.highest_from(floor)?;
        let side = self.take(highest);
        Some((highest, side))
    }

    /// The highest position.
    pub fn highest(&self) -> Option<u32>
        ensures none { IfNone result ((q : ℕ) → (on_left self.now q || on_right self.now q) ≡ false) }
        ensures highest { IfSome result (λ n. IsHighest (on_left self.now) (on_right self.now) n) }
    {
        let apart = higher(self.left.highest(), self.right.highest());
        higher(apart, self.both.highest())
    }

    /// The highest position. None where all that is left from the floor on was put in for both walks at once: both have the same
    /// pending there.
    fn highest_from(&self, floor: u32) -> Option<u32>
        ensures none { IfNone result (AgreeFrom floor (on_left self.now) (on_right self.now)) }
        ensures highest { IfSome result (λ n. IsHighest (on_left self.now) (on_right self.now) n) }
        ensures floor { IfSome result (λ n. floor ≤ n) }
    {
        let apart = higher(self.left.highest(), self.right.highest())?;
        if apart < floor {
            return None;
        }
        higher(Some(apart), self.both.highest())
    }

    /// Takes the highest position out, and tells which of the walks had it.
    fn take(&mut self, lv: u32) -> Side
        requires { IsHighest (on_left self.old) (on_right self.old) lv }
        ensures was_left { has_left result ≡ on_left self.old lv }
        ensures was_right { has_right result ≡ on_right self.old lv }
        ensures left { (q : ℕ) → on_left self.new q ≡ (if nat_eq lv q then false else on_left self.old q) }
        ensures right { (q : ℕ) → on_right self.new q ≡ (if nat_eq lv q then false else on_right self.old q) }
    {
        let left = self.left.strike(lv);
        let right = self.right.strike(lv);
        let both = self.both.strike(lv);
        side_of(left || both, right || both)
    }
}

/// The side of a position that is on the left, on the right or on both.
fn side_of(left: bool, right: bool) -> Side
    requires { (left || right) ≡ true }
    ensures left { has_left result ≡ left }
    ensures right { has_right result ≡ right }
{
    match (left, right) {
        (true, false) => Side::Left,
        (false, _) => Side::Right,
        (true, true) => Side::Both,
    }
}

/// The higher one of two positions, of those that there are.
fn higher(a: Option<u32>, b: Option<u32>) -> Option<u32>
    ensures none { IfNone result ((a ≡ None) × (b ≡ None)) }
    ensures either { IfSome result (λ n. (a ≡ Some n) ⊎ (b ≡ Some n)) }
    ensures first { IfSome result (λ n. IfSome a (λ x. x ≤ n)) }
    ensures second { IfSome result (λ n. IfSome b (λ y. y ≤ n)) }
{
    match (a, b) {
        (Some(x), Some(y)) => Some(if x < y { y } else { x }),
        (Some(x), None) => Some(x),
        (None, y) => y,
    }
}
