//! Where the subtrees of children end on one side, told by few of the children.

ghost use Rattle.std.specs.Prelude.{◌≡◌, ℕ, ◌<◌, ◌≤◌, ◌+◌, ◌-◌, ◌^◌, length, None, Some, IfSome, IfNone, IfOk, OnErr};
ghost use Rattle.fugue_place.specs.declared.child.Side.TheVariants.{Left, Right};
ghost use Rattle.fugue_place.specs.declared.ways.Ways.{Ways as AnyWays};
ghost use Rattle.fugue_place.specs.Chains.{IsEndOf};
ghost use Rattle.fugue_place.specs.Ways.{head_at, link_at, stop_of, next_head, next_in_run, way_of, IsWays, IsSound, IsFirstLink, KnowsLinks, IsInRun, IsInNoRun, IsFirstIn, IsFirstInNone, IsSameWays, IsPrepared, IsReady, IsOneMore, with_heirs};

use crate::chains::Chains;
use crate::child::Side;
use crate::heads::heads_to;
use crate::links::{first_link, link_of, put_link, take_back};
use ew_model::NoMem;
use std::alloc::Global;
use std::collections::BTreeMap;

/// Children that lead outward on one side: each is followed by its outermost child there, if it has one, and so its subtree
/// ends where its way ends. They are told by their places in the list of all children. A head is a child that is no heir.
/// On the right a run is a head with the heirs behind it, on the left it is the head alone.
#[derive(Drop)]
pub struct Ways {
    /// The side.
    pub end: Side,
    /// How many children there are.
    pub count: usize,
    /// The places of the heads.
    pub heads: Vec<u32>,
    /// The number of the head that follows each linked place. A place that isn't linked is followed by the next one of its run, if
    /// there is one.
    pub links: BTreeMap<u32, u32>,
    /// No place from this one on is linked.
    pub free: usize,
    /// The heads in chains: each is followed by the head that follows the first linked place of its run.
    pub chains: Chains,
}

impl Ways {
    /// Those of no children.
    pub fn new(end: Side, alloc: Global) -> Ways
        ensures ways { IsWays result }
        ensures end { result.end ≡ end }
        ensures none { result.count ≡ 0 }
    {
        Ways {
            end,
            count: 0,
            heads: Vec::new(alloc),
            links: BTreeMap::new(alloc),
            free: 0,
            chains: Chains::new(alloc),
        }
    }

    /// What follows this one.
    pub fn follower(&self, at: usize) -> Option<u32>
        requires ways { IsWays self.now }
        requires within { at < self.now.count }
        ensures { result ≡ way_of self.now at }
    {
        match self.link(at) {
            Some(head) => Some(self.heads[head as usize]),
            None => self.next_in_run(at),
        }
    }

    /// Where the way of this one ends.
    pub fn end_of(&self, at: usize) -> usize
        requires ways { IsWays self.now }
        requires within { at < self.now.count }
        ensures end { IsEndOf (way_of self.now) at result }
        ensures within { result < self.now.count }
    {
        let stop = self.stop(at);
        match self.first_link(at, stop) {
            None => stop - 1,
            Some(head) => {
                let last = self.chains.end_of(head as usize);
                self.stop(self.heads[last] as usize) - 1
            }
        }
    }

    /// Adds an heir of the newest one, which nothing follows.
    pub fn go_on(&mut self)
        requires ways { IsWays self.old }
        requires few { self.old.count + 1 < 2 ^ 32 }
        requires some { 0 < self.old.count }
        requires last { way_of self.old (self.old.count - 1) ≡ None }
        ensures left { self.old.end ≡ Left → IsOneMore self.old self.new None }
        ensures right { self.old.end ≡ Right → IsOneMore self.old self.new (Some (self.old.count - 1)) }
    {
        self.count += 1;
    }

    /// Adds so many heirs, the first of the newest one, which nothing follows, and each other one of the one before.
    pub fn go_on_by(&mut self, count: u32)
        requires few { self.old.count + count < 2 ^ 32 }
        ensures { self.new ≡ with_heirs self.old count }
    {
        self.count += count as usize;
    }

    /// Makes room for one more head, and links to it the place that it is to follow, if any. It gives what that place was linked
    /// to.
    pub fn prepare(&mut self, behind: Option<usize>) -> Result<Option<u32>, NoMem>
        requires ways { IsWays self.old }
        requires behind { IfSome behind (λ k. k < self.old.count) }
        ensures ok { IfOk result (IsPrepared self.old self.new behind) }
        ensures err { OnErr result (IsSameWays self.old self.new) }
    {
        self.heads.reserve(1)?;
        self.chains.reserve(behind)?;
        let Some(at) = behind else {
            return Ok(None);
        };
        let head = self.heads.len() as u32;
        let before = put_link(&mut self.links, at as u32, head)?;
        Ok(before)
    }

    /// Takes that link back.
    pub fn give_up(&mut self, behind: Option<usize>, was: Option<u32>)
        requires { (w : AnyWays) × IsWays w × IsPrepared w self.old behind was }
        ensures { (w : AnyWays) → IsPrepared w self.old behind was → IsSameWays w self.new }
    {
        if let Some(at) = behind {
            take_back(&mut self.links, at as u32, was);
        }
    }

    /// Adds the next head: behind another place, in the place of what followed that one, or alone.
    pub fn begin(&mut self, behind: Option<usize>)
        requires ready { (w : AnyWays) × IsWays w × IsReady w self.old behind }
        requires few { self.old.count + 1 < 2 ^ 32 }
        ensures { (w : AnyWays) → IsWays w → IsReady w self.old behind → IsOneMore w self.new behind }
    {
        let head = self.leading_head(behind);
        self.heads.push_reserved(self.count as u32);
        self.chains.add(head);
        self.count += 1;
        self.free = above(self.free, behind);
    }

    /// The head of the run that a place is in, where no place ahead of it there is linked.
    fn leading_head(&self, place: Option<usize>) -> Option<usize>
        requires sound { IsSound self.now }
        requires place { IfSome place (λ k. (k < self.now.count) × KnowsLinks self.now k) }
        ensures some { IfSome result (IsFirstIn self.now place) }
        ensures none { IfNone result (IsFirstInNone self.now place) }
    {
        let at = place?;
        let run = self.run_of(at)?;
        match self.first_link(self.heads[run] as usize, at) {
            Some(_) => None,
            None => Some(run),
        }
    }

    /// The number of the head whose run a place is in.
    fn run_of(&self, at: usize) -> Option<usize>
        requires sound { IsSound self.now }
        requires within { at < self.now.count }
        ensures some { IfSome result (IsInRun self.now at) }
        ensures none { IfNone result (IsInNoRun self.now at) }
    {
        let to = heads_to(&self.heads, at as u32);
        if to == 0 {
            return None;
        }
        let run = to - 1;
        match self.end {
            Side::Left => self.run_at(run, at),
            Side::Right => Some(run),
        }
    }

    /// The number of a head, if that is the place.
    fn run_at(&self, run: usize, at: usize) -> Option<usize>
        requires { run < length self.now.heads.items }
        ensures some { IfSome result (λ r. (r ≡ run) × (head_at self.now run ≡ at)) }
        ensures none { IfNone result (head_at self.now run ≡ at → ⊥) }
    {
        if self.heads[run] as usize == at {
            Some(run)
        } else {
            None
        }
    }

    /// The place behind the run that this one is in.
    fn stop(&self, at: usize) -> usize
        requires sound { IsSound self.now }
        requires within { at < self.now.count }
        ensures { result ≡ stop_of self.now at }
    {
        match self.end {
            Side::Left => at + 1,
            Side::Right => self.next_head(at),
        }
    }

    /// The first head behind this one, or how many children there are.
    fn next_head(&self, at: usize) -> usize
        requires sound { IsSound self.now }
        requires within { at < self.now.count }
        ensures { result ≡ next_head self.now.heads.items self.now.count at }
    {
        match self.heads.get(heads_to(&self.heads, at as u32)) {
            Some(head) => *head as usize,
            None => self.count,
        }
    }

    /// The next place of the run that this one is in.
    fn next_in_run(&self, at: usize) -> Option<u32>
        requires sound { IsSound self.now }
        requires within { at < self.now.count }
        ensures { result ≡ next_in_run self.now at }
    {
        let next = at + 1;
        if next < self.stop(at) {
            Some(next as u32)
        } else {
            None
        }
    }

    /// What this one is linked to.
    fn link(&self, at: usize) -> Option<u32>
        requires ways { IsWays self.now }
        requires within { at < self.now.count }
        ensures { result ≡ link_at self.now at }
    {
        // Most often it is a late one.
        if at < self.free {
            link_of(&self.links, at as u32)
        } else {
            None
        }
    }

    /// What the first linked place of those from the one up to the other is linked to.
    fn first_link(&self, from: usize, to: usize) -> Option<u32>
        requires order { from ≤ to }
        requires few { to < 2 ^ 32 }
        requires known { KnowsLinks self.now to }
        ensures { IsFirstLink (link_at self.now) from to result }
    {
        if from < self.free {
            first_link(&self.links, from as u32, to as u32)
        } else {
            None
        }
    }
}

/// The place behind this one, or the bound, if that is further on.
fn above(bound: usize, place: Option<usize>) -> usize
    requires { IfSome place (λ k. k < 2 ^ 32) }
    ensures bound { bound ≤ result }
    ensures behind { IfSome place (λ k. k < result) }
    ensures near { (n : ℕ) → bound ≤ n → IfSome place (λ k. k < n) → result ≤ n }
{
    let Some(at) = place else {
        return bound;
    };
    if bound <= at { at + 1 } else { bound }
}
