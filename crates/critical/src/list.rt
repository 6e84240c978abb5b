//! The list of the critical cuts.

ghost use Rattle.std.specs.Prelude.{◌≡◌, ◌≢◌, ℕ, suc, ◌+◌, ◌-◌, ◌<◌, ◌≤◌, ◌^◌, Bool, true, List, [], ◌∷◌, ◌++◌, filter, take, drop, length, nat_eq, nat_lt, IfOk, IsOkAnd, OnOk, OnErr};
ghost use Rattle.ew_model.specs.Graph.{is_named};
ghost use Rattle.ew_model.specs.Sets.{Among};
ghost use Rattle.ew_model.specs.CutChange.{stays_behind};
ghost use Rattle.ew_model.specs.Positions.{AreParents, IsHistoryOfParents, frontier_of, is_reduced_at, is_cut_at, latest_cut_at, cuts_at};
ghost use Rattle.ew_model.specs.PositionCuts.{past_parents};
ghost use Rattle.critical.specs.CutRuns.{cut_runs};
ghost use Rattle.critical.specs.KeptCuts.{kept_for, chain_parents, with_chain, with_count, with_whole, with_below};
ghost use Rattle.critical.specs.Searches.{TellsHeads, IsGreatestTo};
ghost use Rattle.critical.specs.Spans.{cuts_in, RiseFrom};

use crate::older::Older;
use crate::spans::{
    CutSpan, add_cut, add_cuts, copy_heads, find_span_near, first_of, greatest_to, has_heads,
    keep_below, list_spans, runs_before, runs_below,
};
use ew_model::NoMem;
use frontier::Frontier;
use smallvec::SmallVec;
use std::alloc::Global;
use std::marker::Model;

/// The critical cuts of a history, with what tells which of them stay critical when an event comes. The number of the
/// events, which is a critical cut too, stands by itself. Contracts see the lists and that number.
#[derive(Drop)]
pub struct Cuts {
    /// The spans of the critical cuts below the limit. A copy of the list holds the same.
    older: Older,
    /// The older cuts from here on aren't critical any more.
    limit: u32,
    /// The critical cuts from the limit on, and below the number of the events, rising, as spans of neighbours.
    spans: Vec<CutSpan>,
    /// For each span the heads of the events below its first cut. Below a further one the cut before it is the only head.
    heads: Vec<SmallVec<u32, 4>>,
    count: u32,
}

impl Model for Cuts {
    ghost use Rattle.std.specs.Prelude.{map};
    ghost use Rattle.critical.specs.KeptCuts.{KeptCuts, AreKept};
    ghost use Rattle.critical.specs.Older.{all_cuts, all_heads};

    ghost Value = { KeptCuts };

    ghost view = { λ c. record { cuts = all_cuts c.older c.limit c.spans.items; heads = all_heads c.older c.limit c.spans.items (map (λ v. v.items) c.heads.items); count = c.count } };

    ghost invariant = { λ c. AreKept c.older c.limit c.spans.items (map (λ v. v.items) c.heads.items) c.count };
}

impl Cuts {
    /// The cuts of no events. It takes no memory, and never fails.
    pub fn new(alloc: Global) -> Result<Cuts, NoMem>
        ensures { IsOkAnd result (λ c. c ≡ kept_for []) }
    {
        Ok(Cuts {
            older: Older::none(),
            limit: 0,
            spans: Vec::new(alloc),
            heads: Vec::new(alloc),
            count: 0,
        })
    }

    /// Takes in one more event. `before` is the frontier of the events so far.
    pub fn push(&mut self, parents: &[u32], before: &Frontier) -> Result<(), NoMem>
        requires parents { AreParents self.old.count parents.now }
        requires room { self.old.count + 1 < 2 ^ 32 }

        // Where these were the cuts of a history, they are those of the history with the event.
        ensures ok { OnOk result ((history : List (List ℕ)) → IsHistoryOfParents history → self.old ≡ kept_for history → before.now ≡ frontier_of history → is_reduced_at history parents.now ≡ true → self.new ≡ kept_for (history ++ parents.now ∷ [])) }
        ensures count { OnOk result (self.new.count ≡ self.old.count + 1) }
        ensures err { OnErr result (self.new ≡ self.old) }
    {
        let past = past_last(parents, self.count);
        if past == self.count && before.equals(parents) {
            self.keep_whole(parents)
        } else {
            self.stop_cuts(parents);
            Ok(())
        }
    }

    /// Takes in one more event, whose one parent is the last event so far. What follows is said where that is the only head.
    pub fn push_on_last(&mut self) -> Result<(), NoMem>
        requires some { 0 < self.old.count }
        requires room { self.old.count + 1 < 2 ^ 32 }

        // Where these were the cuts of a history, they are those of the history with the event.
        ensures ok { OnOk result ((history : List (List ℕ)) → IsHistoryOfParents history → self.old ≡ kept_for history → frontier_of history ≡ (self.old.count - 1) ∷ [] → is_reduced_at history ((self.old.count - 1) ∷ []) ≡ true → self.new ≡ kept_for (history ++ ((self.old.count - 1) ∷ []) ∷ [])) }
        ensures count { OnOk result (self.new.count ≡ self.old.count + 1) }
        ensures err { OnErr result (self.new ≡ self.old) }
    {
        let last = self.count - 1;
        self.keep_whole(&[last])
    }

    /// Takes in one more event, whose parents aren't the frontier of the events so far. It takes no memory.
    pub fn push_apart(&mut self, parents: &[u32])
        requires parents { AreParents self.old.count parents.now }
        requires room { self.old.count + 1 < 2 ^ 32 }

        // Where these were the cuts of a history, they are those of the history with the event.
        ensures cuts { (history : List (List ℕ)) → IsHistoryOfParents history → self.old ≡ kept_for history → parents.now ≢ frontier_of history → is_reduced_at history parents.now ≡ true → self.new ≡ kept_for (history ++ parents.now ∷ []) }
        ensures count { self.new.count ≡ self.old.count + 1 }
    {
        self.stop_cuts(parents);
    }

    /// Takes in so many more events in a chain: the first one's one parent is the last event so far, each further one's the event
    /// before it. What follows is said where the last event so far is the only head. It costs the same however many they are.
    pub fn push_on_last_run(&mut self, count: u32) -> Result<(), NoMem>
        requires some { 0 < self.old.count }
        requires room { self.old.count + count < 2 ^ 32 }

        // Where these were the cuts of a history, they are those of the history with the events.
        ensures ok { OnOk result ((history : List (List ℕ)) → IsHistoryOfParents history → self.old ≡ kept_for history → frontier_of history ≡ (self.old.count - 1) ∷ [] → self.new ≡ kept_for (history ++ chain_parents (self.old.count - 1) count)) }
        ensures count { OnOk result (self.new.count ≡ self.old.count + count) }
        ensures err { OnErr result (self.new ≡ self.old) }
    {
        self.keep_chain(count)
    }

    /// Takes in so many more events in a chain: the first one's one parent is the last event so far, each further one's the event
    /// before it. What follows is said where the last event so far isn't the only head. It takes no memory.
    pub fn push_apart_run(&mut self, count: u32)
        requires some { 0 < self.old.count }
        requires room { self.old.count + count < 2 ^ 32 }

        // Where these were the cuts of a history, they are those of the history with the events.
        ensures cuts { (history : List (List ℕ)) → IsHistoryOfParents history → self.old ≡ kept_for history → frontier_of history ≢ (self.old.count - 1) ∷ [] → self.new ≡ kept_for (history ++ chain_parents (self.old.count - 1) count) }
        ensures count { self.new.count ≡ self.old.count + count }
    {
        self.count_chain(count);
    }

    /// Takes out the events from a critical cut on. It takes no memory.
    pub fn truncate(&mut self, cut: u32)
        // Where these were the cuts of a history, they are those of the events below the cut.
        ensures { (history : List (List ℕ)) → IsHistoryOfParents history → self.old ≡ kept_for history → is_cut_at history cut ≡ true → self.new ≡ kept_for (take cut history) }
    {
        keep_below(&mut self.spans, &mut self.heads, cut);
        self.limit = self.limit.min(cut);
        self.count = cut;
    }

    /// Takes in an event that keeps the cuts up to its last parent, perhaps the one right behind that, and no others.
    fn stop_cuts(&mut self, parents: &[u32])
        requires parents { AreParents self.old.count parents.now }
        requires room { self.old.count + 1 < 2 ^ 32 }
        ensures cuts { (history : List (List ℕ)) → IsHistoryOfParents history → self.old ≡ kept_for history → (past_parents parents.now ≡ length history → parents.now ≢ frontier_of history) → is_reduced_at history parents.now ≡ true → self.new ≡ kept_for (history ++ parents.now ∷ []) }
        ensures count { self.new.count ≡ self.old.count + 1 }
    {
        let past = past_last(parents, self.count);
        let same = self.has_heads(past, parents);
        let end = end_of_kept(past, same);
        self.keep_cuts_below(end);
    }

    /// Takes in an event that keeps all cuts: the whole length so far has these heads, which are its parents.
    fn keep_whole(&mut self, heads: &[u32]) -> Result<(), NoMem>
        requires room { self.old.count + 1 < 2 ^ 32 }
        // Where the number before is a cut too, it must be the only head.
        ensures ok { OnOk result (((k : ℕ) → suc k ≡ self.old.count → Among k self.old.cuts → heads.now ≡ k ∷ []) → self.new ≡ with_whole self.old heads.now) }
        ensures count { OnOk result (self.new.count ≡ self.old.count + 1) }
        ensures err { OnErr result (self.new ≡ self.old) }
    {
        add_cut(&mut self.spans, &mut self.heads, self.count, heads)?;
        self.count += 1;
        Ok(())
    }

    /// Takes in events in a chain on the last one that keep all cuts: below each new cut the event before it is the only head.
    fn keep_chain(&mut self, count: u32) -> Result<(), NoMem>
        requires some { 0 < self.old.count }
        requires room { self.old.count + count < 2 ^ 32 }
        ensures ok { OnOk result (self.new ≡ with_chain self.old count) }
        ensures err { OnErr result (self.new ≡ self.old) }
    {
        add_cuts(&mut self.spans, &mut self.heads, self.count, count)?;
        self.count += count;
        Ok(())
    }

    /// Takes in events that keep all cuts so far, and add none.
    fn count_chain(&mut self, count: u32)
        requires room { self.old.count + count < 2 ^ 32 }
        ensures { self.new ≡ with_count self.old count }
    {
        self.count += count;
    }

    /// Takes in an event that keeps the cuts below a number, and not the whole length so far.
    fn keep_cuts_below(&mut self, end: u32)
        requires room { self.old.count + 1 < 2 ^ 32 }
        ensures { self.new ≡ with_below self.old end }
    {
        keep_below(&mut self.spans, &mut self.heads, end);
        self.limit = self.limit.min(end);
        self.count += 1;
    }

    /// Whether these are the heads below the cut, if that is critical and isn't the number of the events.
    fn has_heads(&self, cut: u32, positions: &[u32]) -> bool
        requires { cut + 1 < 2 ^ 32 }
        ensures { TellsHeads self.now.cuts self.now.heads cut positions.now result }
    {
        if cut < self.limit {
            has_heads(self.older.spans(), self.older.heads(), cut, positions)
        } else {
            has_heads(&self.spans, &self.heads, cut, positions)
        }
    }

    /// The greatest critical cut that is at most this.
    pub fn latest(&self, at_most: u32) -> u32
        ensures { (history : List (List ℕ)) → self.now ≡ kept_for history → result ≡ latest_cut_at history at_most }
    {
        if at_most >= self.count {
            self.count
        } else {
            self.greatest_to(at_most)
        }
    }

    /// The greatest critical cut but for the number of the events that is at most this, or 0.
    fn greatest_to(&self, at_most: u32) -> u32
        requires { at_most + 1 < 2 ^ 32 }
        ensures { IsGreatestTo self.now.cuts at_most result }
    {
        let greatest = greatest_to(&self.spans, at_most);
        if greatest > 0 {
            return greatest;
        }
        match self.limit.checked_sub(1) {
            Some(last) => greatest_to(self.older.spans(), at_most.min(last)),
            None => greatest,
        }
    }

    /// Whether the cut is critical.
    pub fn is_cut(&self, k: u32) -> bool
        ensures { (history : List (List ℕ)) → self.now ≡ kept_for history → result ≡ is_cut_at history k }
    {
        let mut near = 0;
        self.is_cut_near(k, &mut near)
    }

    /// Whether the cut is critical. The span at the place `near`, which is that of the span found last, and the next one are tried
    /// first.
    pub fn is_cut_near(&self, k: u32, near: &mut usize) -> bool
        ensures { (history : List (List ℕ)) → self.now ≡ kept_for history → result ≡ is_cut_at history k }
    {
        if k >= self.count {
            return k == self.count;
        }
        match find_span_near(self.spans_for(k), k, *near) {
            Some(place) => {
                *near = place;
                true
            }
            None => false,
        }
    }

    /// Those of the spans in which a number stands, if it is one of the cuts.
    fn spans_for(&self, k: u32) -> &[CutSpan]
        ensures rising { RiseFrom 0 result.now }
        ensures named { is_named nat_eq (cuts_in result.now) k ≡ is_named nat_eq self.now.cuts k }
    {
        if k < self.limit {
            self.older.spans()
        } else {
            self.spans.as_slice()
        }
    }

    /// The critical cuts, rising.
    pub fn list_cuts(&self) -> Result<Vec<u32>, NoMem>
        ensures { IfOk result (λ v. (history : List (List ℕ)) → self.now ≡ kept_for history → v.items ≡ cuts_at history) }
    {
        let count = self.count;
        let mut cuts = Vec::new(*self.spans.allocator());
        list_spans(&mut cuts, self.older.spans())?;
        leave_below(&mut cuts, self.limit);
        list_spans(&mut cuts, &self.spans)?;
        cuts.push(count)?;
        Ok(cuts)
    }

    /// How many spans of neighbouring critical cuts there are. It takes no memory.
    pub fn runs(&self) -> u32
        ensures { (history : List (List ℕ)) → self.now ≡ kept_for history → result ≡ cut_runs history }
    {
        let count = self.count;
        let next = first_of(&self.spans, count);
        runs_below(self.older.spans(), self.limit, next) + runs_before(&self.spans, count)
    }

    /// A second one of the same cuts. It costs by what was taken in since the last copy, and not by how many cuts there are, where no
    /// other copy is left.
    pub fn copy(&mut self) -> Result<Cuts, NoMem>
        ensures copy { IfOk result (λ c. c ≡ self.old) }
        ensures same { self.new ≡ self.old }
    {
        self.settle()?;
        let alloc = *self.spans.allocator();
        Ok(Cuts {
            older: self.older.share()?,
            limit: self.limit,
            spans: Vec::from_slice(alloc, &self.spans)?,
            heads: copy_heads(alloc, &self.heads)?,
            count: self.count,
        })
    }

    /// Moves all spans but the last one to the older ones, unless a copy holds these too.
    fn settle(&mut self) -> Result<(), NoMem>
        ensures { self.new ≡ self.old }
    {
        let count = self.spans.len();
        if count < 2 {
            return Ok(());
        }
        let alloc = *self.spans.allocator();
        let others = count - 1;
        if self.older.take_in(
            alloc,
            self.limit,
            &self.spans[..others],
            &self.heads[..others],
        )? {
            self.limit = self.spans[others].first;
            leave_last(&mut self.spans);
            leave_last(&mut self.heads);
        }
        Ok(())
    }
}

/// Leaves the numbers below a limit.
fn leave_below(numbers: &mut Vec<u32>, limit: u32)
    ensures { numbers.new.items ≡ filter (λ k. nat_lt k limit) numbers.old.items }
{
    numbers.retain(|k| *k < limit);
}

/// Leaves the last one alone.
fn leave_last<T: Drop>(items: &mut Vec<T>)
    requires { 0 < length items.old.items }
    ensures { items.new.items ≡ drop (length items.old.items - 1) items.old.items }
{
    let others = items.len() - 1;
    items.rotate_left(others);
    items.truncate(1);
}

/// The number that the cuts that stay are below: all that are below `past`, and that one too if `same` holds.
fn end_of_kept(past: u32, same: bool) -> u32
    requires { past + 1 < 2 ^ 32 }
    ensures { (k : ℕ) → nat_lt k result ≡ stays_behind past same k }
{
    if same { past + 1 } else { past }
}

/// The position behind the last of the parents.
fn past_last(parents: &[u32], count: u32) -> u32
    requires { AreParents count parents.now }
    ensures value { result ≡ past_parents parents.now }
    ensures within { result ≤ count }
{
    match parents.last() {
        Some(last) => *last + 1,
        None => 0,
    }
}
