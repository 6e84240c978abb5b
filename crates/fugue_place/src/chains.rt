//! Chains of numbers, in which each is followed by at most one other.

ghost use Rattle.std.specs.Prelude.{◌≡◌, ℕ, ◌<◌, ◌+◌, ◌-◌, ◌^◌, length, set, None, Some, IfSome, IfNone, OnOk, IsTrue};
ghost use Rattle.fugue_place.specs.Chains.{follower, entry_at, IsChains, IsEndOf, IsLedBy, AreAligned, IsSame, TellsSame, HasFreeRows, HasRoom, HasRows, IsLone, KeepsLinks, IsOuterRenumbered, IsInnerRenumbered};

use ew_model::NoMem;
use std::alloc::Global;

/// So many numbers are kept at most.
const MOST: u32 = u32::MAX;

/// Numbers from 0 on, in chains: each is followed by one other or by none. The heads of `Ways` are numbered so. The tables have
/// rows up to the last number that was put behind another at least: those further on are alone.
#[derive(Drop)]
pub struct Chains {
    /// How many there are.
    pub count: usize,
    /// What follows each: the end of a chain is followed by itself.
    pub outer: Vec<u32>,
    /// What each followed when it was added: one that was alone follows itself.
    pub inner: Vec<u32>,
    /// The number of each one's chain.
    pub numbers: Vec<u32>,
    /// The end of the chain with each number.
    pub ends: Vec<u32>,
}

impl Chains {
    /// No chains.
    pub fn new(alloc: Global) -> Chains
        ensures chains { IsChains result }
        ensures none { result.count ≡ 0 }
    {
        Chains {
            count: 0,
            outer: Vec::new(alloc),
            inner: Vec::new(alloc),
            numbers: Vec::new(alloc),
            ends: Vec::new(alloc),
        }
    }

    /// Makes room for one more, behind another or alone, while each has a number.
    pub fn reserve(&mut self, behind: Option<usize>) -> Result<(), NoMem>
        requires { IsChains self.old }
        ensures same { IsSame self.old self.new }
        ensures room { OnOk result (HasRoom self.new behind) }
    {
        if self.count >= MOST as usize {
            return Err(NoMem);
        }
        if behind.is_none() || self.has_room() {
            return Ok(());
        }
        self.grow()
    }

    /// What follows this one.
    pub fn follower(&self, at: usize) -> Option<u32>
        ensures { result ≡ follower self.now.outer.items at }
    {
        linked(&self.outer, at)
    }

    /// The end of the chain that this one is in.
    pub fn end_of(&self, at: usize) -> usize
        requires chains { IsChains self.now }
        requires within { at < self.now.count }
        ensures end { IsEndOf (follower self.now.outer.items) at result }
        ensures within { result < self.now.count }
    {
        let number = entry_at(&self.numbers, at);
        entry_at(&self.ends, number)
    }

    /// Adds the next one: behind another, in the place of what followed that one, or alone.
    pub fn add(&mut self, behind: Option<usize>)
        requires chains { IsChains self.old }
        requires room { HasRoom self.old behind }
        requires behind { IfSome behind (λ k. k < self.old.count) }
        ensures chains { IsChains self.new }
        ensures count { self.new.count ≡ self.old.count + 1 }
        ensures led { IsLedBy self.old.count (follower self.old.outer.items) behind (follower self.new.outer.items) }
    {
        let new = self.count as u32;
        self.count += 1;
        if let Some(at) = narrow(behind) {
            self.fill();
            self.inner[new as usize] = at;
            self.lead(at, new);
        }
    }
}

impl Chains {
    /// Whether a row for one more fits into each table.
    fn has_room(&self) -> bool
        ensures { IsTrue result → HasFreeRows self.now }
    {
        let count = self.count;
        count < self.outer.capacity()
            && count < self.inner.capacity()
            && count < self.numbers.capacity()
            && count < self.ends.capacity()
    }

    /// Makes room for the rows of all and of one more.
    // Seldom called: kept apart, so that what is done for each character stays short.
    #[inline(never)]
    fn grow(&mut self) -> Result<(), NoMem>
        requires chains { IsChains self.old }
        requires few { self.old.count < 2 ^ 32 }
        ensures same { IsSame self.old self.new }
        ensures room { OnOk result (HasFreeRows self.new) }
    {
        let more = self.count + 1 - self.outer.len();
        self.outer.reserve(more)?;
        self.inner.reserve(more)?;
        self.numbers.reserve(more)?;
        self.ends.reserve(more)
    }

    /// Gives a row to each that has none: it is alone.
    fn fill(&mut self)
        requires aligned { AreAligned self.old }
        requires room { HasRows self.old }
        ensures same { TellsSame self.old self.new }
        ensures aligned { AreAligned self.new }
        ensures full { length self.new.outer.items ≡ self.new.count }
    {
        while self.outer.len() < self.count {
            self.put_alone();
        }
    }

    /// Gives a row to the first that has none.
    fn put_alone(&mut self)
        requires aligned { AreAligned self.old }
        requires room { HasRows self.old }
        requires short { length self.old.outer.items < self.old.count }
        ensures same { TellsSame self.old self.new }
        ensures aligned { AreAligned self.new }
        ensures room { HasRows self.new }
        ensures longer { length self.new.outer.items ≡ length self.old.outer.items + 1 }
    {
        let next = self.outer.len() as u32;
        self.outer.push_reserved(next);
        self.inner.push_reserved(next);
        self.numbers.push_reserved(next);
        self.ends.push_reserved(next);
    }

    /// Has the newest one, which is alone in the chain of its own number, follow another in the place of what followed that
    /// one. Where nothing followed that one, its chain grows; else, of the two parts of the chain there, the shorter one gets a
    /// new number.
    fn lead(&mut self, at: u32, new: u32)
        requires { IsLone self.old at new }
        ensures chains { IsChains self.new }
        ensures count { self.new.count ≡ self.old.count }
        ensures outer { self.new.outer.items ≡ set self.old.outer.items at new }
    {
        if self.follower(at as usize).is_none() {
            self.lengthen(at, new);
        } else if self.is_outer_part_shorter(at) {
            self.move_outer_part(at, new);
        } else {
            self.move_inner_part(at, new);
        }
    }

    /// Has the newest one follow another that is the end of its chain.
    fn lengthen(&mut self, at: u32, new: u32)
        requires lone { IsLone self.old at new }
        requires last { follower self.old.outer.items at ≡ None }
        ensures chains { IsChains self.new }
        ensures count { self.new.count ≡ self.old.count }
        ensures outer { self.new.outer.items ≡ set self.old.outer.items at new }
    {
        let chain = self.numbers[at as usize];
        self.numbers[new as usize] = chain;
        self.ends[chain as usize] = new;
        self.outer[at as usize] = new;
    }

    /// Gives the number of the newest one to all that follow the other.
    fn move_outer_part(&mut self, at: u32, new: u32)
        requires { IsLone self.old at new }
        ensures chains { IsChains self.new }
        ensures count { self.new.count ≡ self.old.count }
        ensures outer { self.new.outer.items ≡ set self.old.outer.items at new }
    {
        self.renumber_outer_part(at, new);
        let number = self.numbers[at as usize];
        self.numbers[new as usize] = number;
        self.ends[new as usize] = self.ends[number as usize];
        self.ends[number as usize] = new;
        self.outer[at as usize] = new;
    }

    /// Gives the number of the newest one to the other and all that it follows.
    fn move_inner_part(&mut self, at: u32, new: u32)
        requires { IsLone self.old at new }
        ensures chains { IsChains self.new }
        ensures count { self.new.count ≡ self.old.count }
        ensures outer { self.new.outer.items ≡ set self.old.outer.items at new }
    {
        self.renumber_inner_part(at, new);
        self.outer[at as usize] = new;
    }

    /// Whether fewer follow this one than it follows and itself: it decides only what a change costs.
    fn is_outer_part_shorter(&self, at: u32) -> bool
        requires { (new : ℕ) × IsLone self.now at new }
    {
        let mut outer = at;
        let mut inner = at;
        while let Some(k) = self.follower(outer as usize) {
            let Some(j) = self.leader(inner) else {
                return false;
            };
            outer = k;
            inner = j;
        }
        true
    }

    /// Gives all that follow this one the number.
    fn renumber_outer_part(&mut self, at: u32, new: u32)
        requires { IsLone self.old at new }
        ensures same { KeepsLinks self.old self.new }
        ensures numbers { IsOuterRenumbered new (follower self.old.outer.items) (entry_at self.old.numbers.items) (entry_at self.new.numbers.items) at }
    {
        let mut last = at;
        while let Some(k) = self.follower(last as usize) {
            self.numbers[k as usize] = new;
            last = k;
        }
    }

    /// Gives this one and all that it follows the number.
    fn renumber_inner_part(&mut self, at: u32, new: u32)
        requires { IsLone self.old at new }
        ensures same { KeepsLinks self.old self.new }
        ensures numbers { IsInnerRenumbered new (follower self.old.outer.items) (entry_at self.old.numbers.items) (entry_at self.new.numbers.items) at }
    {
        let mut first = at;
        self.numbers[first as usize] = new;
        while let Some(k) = self.leader(first) {
            self.numbers[k as usize] = new;
            first = k;
        }
    }

    /// What this one follows.
    fn leader(&self, at: u32) -> Option<u32>
        ensures some { IfSome result (λ k. (follower self.now.inner.items at ≡ Some k) × (follower self.now.outer.items k ≡ Some at)) }
        ensures none { IfNone result ((k : ℕ) → follower self.now.inner.items at ≡ Some k → follower self.now.outer.items k ≡ Some at → ⊥) }
    {
        let k = linked(&self.inner, at as usize)?;
        match self.follower(k as usize) {
            Some(j) if j == at => Some(k),
            _ => None,
        }
    }
}

/// What a place is linked to, if not to itself.
fn linked(links: &[u32], at: usize) -> Option<u32>
    ensures { result ≡ follower links.now at }
{
    let link = *links.get(at)?;
    if link as usize == at {
        None
    } else {
        Some(link)
    }
}

/// What a table tells of a place: the place itself, where it tells nothing.
fn entry_at(table: &[u32], at: usize) -> usize
    ensures { result ≡ entry_at table.now at }
{
    match table.get(at) {
        Some(entry) => *entry as usize,
        None => at,
    }
}

/// The place, in fewer bits.
fn narrow(place: Option<usize>) -> Option<u32>
    requires { IfSome place (λ k. k < 2 ^ 32) }
    ensures { result ≡ place }
{
    match place {
        Some(k) => Some(k as u32),
        None => None,
    }
}
