//! A branch of the tree: a node, and what is kept of the runs below it.

ghost use Rattle.std.specs.Prelude.{◌≡◌, ℕ, ◌+◌, ◌*◌, ◌^◌, ◌<◌, ◌≤◌, Some, ◌++◌, length, Contains, vec_capacity, IfOk, OnErr};
ghost use Rattle.order_tree.specs.Pairs.{labels, runs, IsRising, EndsWith, total, lower, up_to, next_label, first_label, counted_after, IsPlace, SumsFit, changed};
ghost use Rattle.order_tree.specs.Parts.{first_or_zero, last_known, sums_of, summary_of, all_pairs, IsMoved, IsKnownAfter};
ghost use Rattle.order_tree.specs.Counts.{count_of};
ghost use Rattle.order_tree.specs.Shape.{AllBelow, pairs_in};
ghost use Rattle.order_tree.specs.Edits.{IsPlaced, IsFree, StaysFit};
ghost use Rattle.order_tree.specs.Relabels.{relabelled, renamed, reached};
ghost use Rattle.order_tree.specs.Rights.{IsBranchEdit};
ghost use Rattle.order_tree.specs.Alterations.{IsAnswer, WasKept};
ghost use Rattle.order_tree.specs.Abouts.{IsTried, IsWithin, IsIdle};

use crate::about::{Tried, count_beside, place_about, step_for};
use crate::change::{Alteration, Moved, Taken, alter_entry, change_entry};
use crate::count::Count;
use crate::edit::Edit;
use crate::entries::{effect_up_to_in, known_after_in, last_free_in, last_in, place_in, run_in};
use crate::finish::{edit_entries, finish};
use crate::halves::{inner_summary, leaf_summary, way_down};
use crate::kids::{kid_at, kid_before, kid_known_after, kid_last, kid_up_to, kid_with};
use crate::leaf::Way;
use crate::part::{Part, last_known_in, place_of, summary_with};
use crate::relabel::{Reached, relabel_entries};
use crate::spares::Spares;
use crate::summary::{Summary, Sums};
use crate::visible::{Visible, kid_visible, visible_in};
use ew_model::NoMem;
use ew_model::run::Run;
use ew_model::steps::Steps;
use std::alloc::Global;
use std::marker::Model;
use std::sync::ledger::Ledger;

/// A branch: the node at its top, with what is kept of all runs below. The heap block of a node has room for sixteen parts,
/// and what is kept of a branch stands in the block of the node above, so no node is opened only to be summed.
#[cycle(tree)]
#[derive(Drop)]
pub struct Branch<R: Run> {
    depth: u32,
    summary: Summary,
    node: Node<R>,
}

#[cycle(tree)]
#[derive(Drop)]
enum Node<R: Run> {
    Leaf(Vec<(u64, R)>),
    Inner(Vec<Branch<R>>),
}

impl<R: Run> Model for Branch<R> {
    ghost use Rattle.order_tree.specs.Pairs.{Tree};

    ghost Value = { Tree R };

    ghost use Rattle.order_tree.specs.Shape.{pairs_in, IsBranch};

    ghost view = { λ b. record { pairs = pairs_in b.node; depth = b.depth } };

    ghost invariant = { λ b. IsBranch R.Run b.depth b.summary b.node };

    ghost size = { λ t. t.depth };

    ghost use Rattle.order_tree.specs.Falls.{depth_falls};

    ghost size_decreases = { λ b h. depth_falls R.Run b.depth b.summary b.node h };
}

impl<R: Run> Part<R> for Branch<R> {
    ghost pairs = { λ b. b.pairs };

    fn first(&self) -> u64 {
        let _ = &self.node;
        self.summary.first
    }

    fn last_known(&self) -> u64 {
        let _ = &self.node;
        self.summary.last_known
    }

    fn sums(&self) -> Sums {
        let _ = &self.node;
        self.summary.sums
    }
}

impl<R: Run> Branch<R> {
    /// The number of levels of nodes, leaves included.
    pub fn depth(&self) -> u32
        ensures value { result ≡ self.now.depth }
        ensures bound { 2 ^ result ≤ 2 * length self.now.pairs }
        ensures wide { length self.now.pairs ≤ 16 ^ result }
    {
        let _ = &self.node;
        self.depth
    }

    /// The run at a label.
    pub fn locate<L: Ledger>(&self, label: u64, visits: &mut Steps<L>) -> &R
        requires rising { IsRising self.now.pairs }
        requires held { (r : R) × Contains self.now.pairs (label, r) }
        ensures run { Contains self.now.pairs (label, result.now) }
        ensures cost { visits.new ≡ visits.old + self.now.depth }
    {
        visits.tick();
        match &self.node {
            Node::Leaf(entries) => run_in(entries.as_slice(), label),
            Node::Inner(kids) => kid_with(kids.as_slice(), self.depth, label).locate(label, visits),
        }
    }

    /// The last run up to a label, with its own, where the first run is up to it.
    pub fn last_up_to<L: Ledger>(&self, label: u64, visits: &mut Steps<L>) -> (u64, &R)
        requires rising { IsRising self.now.pairs }
        requires first { first_or_zero self.now.pairs ≤ label }
        ensures last { EndsWith (up_to self.now.pairs label) result.0 result.1.now }
        ensures cost { visits.new ≡ visits.old + self.now.depth }
    {
        visits.tick();
        match &self.node {
            Node::Leaf(entries) => last_in(entries.as_slice(), label),
            Node::Inner(kids) => {
                kid_last(kids.as_slice(), self.depth, label).last_up_to(label, visits)
            }
        }
    }

    /// The label of the run that has the i-th of the characters counted, and the character's number in that run.
    pub fn find<L: Ledger>(&self, count: Count, i: u32, visits: &mut Steps<L>) -> (u64, u32)
        requires rising { IsRising self.now.pairs }
        requires within { i < total (count_of R.Run count) self.now.pairs }
        ensures place { IsPlace (count_of R.Run count) self.now.pairs i result.0 result.1 }
        ensures cost { visits.new ≡ visits.old + self.now.depth }
    {
        visits.tick();
        match &self.node {
            Node::Leaf(entries) => place_in(entries.as_slice(), count, i),
            Node::Inner(kids) => {
                let (kid, rest) = kid_at(kids.as_slice(), self.depth, count, i);
                kid.find(count, rest, visits)
            }
        }
    }

    /// The i-th character that is visible in what is prepared.
    pub fn visible<L: Ledger>(&self, i: u32, visits: &mut Steps<L>) -> Visible<'_, R>
        requires rising { IsRising self.now.pairs }
        requires within { i < total R.prepared self.now.pairs }
        requires small { total R.effect self.now.pairs < 2 ^ 32 }
        ensures place { IsPlace R.prepared self.now.pairs i result.label result.place }
        ensures run { Contains self.now.pairs (result.label, result.run.now) }
        ensures before { result.before ≡ total R.effect (lower self.now.pairs result.label) }
        ensures cost { visits.new ≡ visits.old + self.now.depth }
    {
        visits.tick();
        match &self.node {
            Node::Leaf(entries) => visible_in(entries.as_slice(), i),
            Node::Inner(kids) => {
                let (kid, before, rest) = kid_visible(kids.as_slice(), self.depth, i);
                let found = kid.visible(rest, visits);
                Visible {
                    before: before + found.before,
                    ..found
                }
            }
        }
    }

    /// How many characters of the text are in runs up to a label.
    pub fn effect_up_to<L: Ledger>(&self, label: u64, visits: &mut Steps<L>) -> u32
        requires rising { IsRising self.now.pairs }
        requires small { total R.effect self.now.pairs < 2 ^ 32 }
        ensures effect { result ≡ total R.effect (up_to self.now.pairs label) }
        ensures cost { visits.new ≡ visits.old + self.now.depth }
    {
        visits.tick();
        match &self.node {
            Node::Leaf(entries) => effect_up_to_in(entries.as_slice(), label),
            Node::Inner(kids) => {
                let (kid, before) = kid_up_to(kids.as_slice(), self.depth, label);
                before + kid.effect_up_to(label, visits)
            }
        }
    }

    /// The least greater label of a run with a known character, which there is.
    pub fn next_known<L: Ledger>(&self, label: u64, visits: &mut Steps<L>) -> u64
        requires rising { IsRising self.now.pairs }
        requires some { label < last_known R.known self.now.pairs }
        ensures next { first_label (counted_after R.known self.now.pairs label) ≡ Some result }
        ensures cost { visits.new ≡ visits.old + self.now.depth }
    {
        visits.tick();
        match &self.node {
            Node::Leaf(entries) => known_after_in(entries.as_slice(), label),
            Node::Inner(kids) => {
                kid_known_after(kids.as_slice(), self.depth, label).next_known(label, visits)
            }
        }
    }

    /// The greatest label that is free before the next run, where `most` is that behind all runs here.
    pub fn last_free<L: Ledger>(&self, label: u64, most: u64, visits: &mut Steps<L>) -> u64
        requires rising { IsRising self.now.pairs }
        ensures free { result + 1 ≡ next_label (most + 1) self.now.pairs label }
        ensures cost { visits.new ≡ visits.old + self.now.depth }
    {
        visits.tick();
        match &self.node {
            Node::Leaf(entries) => last_free_in(entries.as_slice(), label, most),
            Node::Inner(kids) => {
                let (kid, most) = kid_before(kids.as_slice(), self.depth, label, most);
                kid.last_free(label, most, visits)
            }
        }
    }
}

impl<R: Run> Branch<R> {
    /// A leaf.
    pub fn leaf(entries: Vec<(u64, R)>) -> Branch<R>
        requires some { 1 ≤ length entries.items }
        requires few { length entries.items ≤ 16 }
        requires room { 16 ≤ vec_capacity entries }
        requires fit { SumsFit R.Run entries.items }
        ensures pairs { result.pairs ≡ entries.items }
        ensures depth { result.depth ≡ 1 }
    {
        let summary = leaf_summary(entries.as_slice());
        Branch {
            depth: 1,
            summary,
            node: Node::Leaf(entries),
        }
    }

    /// A node above branches.
    pub fn inner(depth: u32, kids: Vec<Branch<R>>) -> Branch<R>
        requires below { AllBelow depth kids.items }
        requires some { 2 ≤ length kids.items }
        requires few { length kids.items ≤ 16 }
        requires room { 16 ≤ vec_capacity kids }
        requires fit { SumsFit R.Run (all_pairs (λ k. k.pairs) kids.items) }
        ensures pairs { result.pairs ≡ all_pairs (λ k. k.pairs) kids.items }
        ensures depth { result.depth ≡ depth }
    {
        let summary = inner_summary(depth, kids.as_slice());
        Branch {
            depth,
            summary,
            node: Node::Inner(kids),
        }
    }
}

/// What an edit did: the label of its new run, the sums lost and gained, and the second half of the node where it was cut in two.
#[derive(Drop)]
pub struct Edited<R: Run> {
    pub own: u64,
    pub lost: Sums,
    pub gained: Sums,
    pub right: Option<Branch<R>>,
}

impl<R: Run + Drop> Branch<R> {
    /// Does an edit. Blocks for the nodes that it cuts in two are taken before the first change.
    pub fn edit<L: Ledger>(
        &mut self,
        edit: Edit<R>,
        way: Way,
        spares: &mut Spares<R>,
        visits: &mut Steps<L>,
    ) -> Result<Edited<R>, NoMem>
        requires rising { IsRising self.old.pairs }
        requires placed { IsPlaced R.Run edit way.label self.old.pairs }
        requires label { IsFree edit (way.most + 1) self.old.pairs way.label }
        requires fits { StaysFit R.Run edit way.label self.old.pairs }
        requires spares { spares.old ≡ 0 }
        requires above { way.above + self.old.depth < 2 ^ 32 }
        ensures edited { IfOk result (λ d. IsBranchEdit R.Run edit (way.most + 1) way.label way.above self.old self.new d.right d.own d.lost d.gained spares.new) }
        ensures err { OnErr result (self.new ≡ self.old) }
        ensures cost { visits.new ≡ visits.old + self.old.depth }
    {
        visits.tick();
        match &mut self.node {
            Node::Leaf(entries) => {
                let (summary, done) = edit_entries(entries, self.summary.sums, edit, way, spares)?;
                self.summary = summary;
                Ok(done)
            }
            Node::Inner(kids) => {
                let (k, down) = way_down(self.depth, kids.as_slice(), way);
                let done = kids[k].edit(edit, down, spares, visits)?;
                let (summary, done) = finish(
                    self.depth,
                    way.above,
                    kids,
                    k + 1,
                    self.summary.sums,
                    done,
                    spares,
                );
                self.summary = summary;
                Ok(done)
            }
        }
    }
}

impl<R: Run> Node<R> {
    /// The label of the last run with a known character below the node, after a change of the run at a label, from the one before.
    fn last_known_after(&self, old: u64, label: u64, gained: u32) -> u64
        requires { IsKnownAfter old label gained (last_known R.known (pairs_in self.now)) }
        ensures { result ≡ last_known R.known (pairs_in self.now) }
    {
        if label < old {
            return old;
        }
        if gained > 0 {
            return label;
        }
        match self {
            Node::Leaf(entries) => last_known_in(entries.as_slice()),
            Node::Inner(kids) => last_known_in(kids.as_slice()),
        }
    }

    /// What is kept of the node after a change of the run at a label, from what was kept before.
    fn kept_after(&self, old: Summary, label: u64, moved: Moved) -> Summary
        requires first { old.first ≡ first_or_zero (pairs_in self.now) }
        requires known { IsKnownAfter old.last_known label moved.gained.known (last_known R.known (pairs_in self.now)) }
        requires fit { SumsFit R.Run (pairs_in self.now) }
        requires moved { IsMoved old.sums moved.lost moved.gained (sums_of R.Run (pairs_in self.now)) }
        ensures { result ≡ summary_of R.Run (pairs_in self.now) }
    {
        let known = moved.gained.known;
        Summary {
            first: old.first,
            last_known: self.last_known_after(old.last_known, label, known),
            sums: old.sums.minus(moved.lost).plus(moved.gained),
        }
    }
}

impl<R: Run + Drop> Branch<R> {
    /// Puts another run in the place of a label's.
    pub fn change<L: Ledger>(&mut self, label: u64, run: R, visits: &mut Steps<L>) -> Moved
        requires rising { IsRising self.old.pairs }
        requires held { (r : R) × Contains self.old.pairs (label, r) }
        requires fit { SumsFit R.Run (changed self.old.pairs label run) }
        ensures pairs { self.new.pairs ≡ changed self.old.pairs label run }
        ensures depth { self.new.depth ≡ self.old.depth }
        ensures moved { IsMoved (sums_of R.Run self.old.pairs) result.lost result.gained (sums_of R.Run self.new.pairs) }
        ensures gained { result.gained.known ≡ R.known run }
        ensures cost { visits.new ≡ visits.old + self.old.depth }
    {
        visits.tick();
        match &mut self.node {
            Node::Leaf(entries) => {
                let moved = change_entry(entries, label, run);
                self.summary = self.node.kept_after(self.summary, label, moved);
                moved
            }
            Node::Inner(kids) => {
                let k = place_of(kids.as_slice(), label);
                let moved = kids[k].change(label, run, visits);
                self.summary = self.node.kept_after(self.summary, label, moved);
                moved
            }
        }
    }
}

impl<R: Run + Copy> Node<R> {
    /// What is kept of the node where the run at a label may have taken a change, from what was kept before.
    fn kept_if(&self, old: Summary, label: u64, taken: &Option<Taken<R>>) -> Summary
        requires { WasKept R.Run label (pairs_in self.now) old taken.now }
        ensures { result ≡ summary_of R.Run (pairs_in self.now) }
    {
        match taken {
            Some(taken) => self.kept_after(old, label, taken.moved),
            None => old,
        }
    }
}

impl<R: Run + Copy + Drop> Branch<R> {
    /// Tries a change on the run of a label. Writes what it did into `taken`, or None where the run refused it.
    // Written there and not answered, so that it isn't copied on each level.
    pub fn alter<A: Alteration<R>, L: Ledger>(
        &mut self,
        label: u64,
        alteration: &A,
        taken: &mut Option<Taken<R>>,
        visits: &mut Steps<L>,
    )
        requires rising { IsRising self.old.pairs }
        requires held { (r : R) × Contains self.old.pairs (label, r) }
        requires suits { (run : R) → Contains self.old.pairs (label, run) → A.suits alteration.now run }
        requires fit { (run after : R) → Contains self.old.pairs (label, run) → A.makes alteration.now run (Some after) → SumsFit R.Run (changed self.old.pairs label after) }
        ensures taken { IsAnswer R.Run (A.makes alteration.now) label self.old.pairs self.new.pairs taken.new }
        ensures depth { self.new.depth ≡ self.old.depth }
        ensures cost { visits.new ≡ visits.old + self.old.depth }
    {
        visits.tick();
        match &mut self.node {
            Node::Leaf(entries) => {
                *taken = alter_entry(entries, label, alteration);
                self.summary = self.node.kept_if(self.summary, label, taken);
            }
            Node::Inner(kids) => {
                let k = place_of(kids.as_slice(), label);
                kids[k].alter(label, alteration, taken, visits);
                self.summary = self.node.kept_if(self.summary, label, taken);
            }
        }
    }
}

impl<R: Run + Copy> Branch<R> {
    /// Gives the runs new labels, each a step above the one before, and notes of each the old label and the new, and the run.
    pub fn relabel<L: Ledger>(
        &mut self,
        before: u64,
        step: u64,
        given: &mut Vec<(u64, (u64, R))>,
        visits: &mut Steps<L>,
    ) -> Reached
        requires room { length given.old.items + length self.old.pairs ≤ vec_capacity given.old }
        requires small { reached step before self.old.pairs < 2 ^ 64 }
        ensures pairs { self.new.pairs ≡ relabelled step before self.old.pairs }
        ensures depth { self.new.depth ≡ self.old.depth }
        ensures given { given.new.items ≡ given.old.items ++ renamed step before self.old.pairs }
        ensures capacity { vec_capacity given.old ≤ vec_capacity given.new }
        ensures last { result.last ≡ reached step before self.old.pairs }
        ensures known { result.last_known ≡ last_known R.known self.new.pairs }
        ensures onward { length self.old.pairs + 16 * visits.old ≤ 16 * visits.new }
        ensures cost { visits.new + 1 ≤ visits.old + 2 * length self.old.pairs }
    {
        visits.tick();
        let sums = self.summary.sums;
        match &mut self.node {
            Node::Leaf(entries) => {
                let reached = relabel_entries(entries, before, step, given);
                self.summary = Summary {
                    first: before + step,
                    last_known: reached.last_known,
                    sums,
                };
                reached
            }
            Node::Inner(kids) => {
                let mut reached = Reached {
                    last: before,
                    last_known: 0,
                };
                for kid in kids.iter_mut() {
                    let next = kid.relabel(reached.last, step, given, visits);
                    reached = reached.then(next);
                }
                self.summary = Summary {
                    first: before + step,
                    last_known: reached.last_known,
                    sums,
                };
                reached
            }
        }
    }
}

impl<R: Run> Branch<R> {
    /// The number of runs.
    pub fn count<L: Ledger>(&self, visits: &mut Steps<L>) -> usize
        requires { length self.now.pairs < 2 ^ 32 }
        ensures count { result ≡ length self.now.pairs }
        ensures onward { length self.now.pairs + 16 * visits.old ≤ 16 * visits.new }
        ensures cost { visits.new + 1 ≤ visits.old + 2 * length self.now.pairs }
    {
        visits.tick();
        match &self.node {
            Node::Leaf(entries) => entries.len(),
            Node::Inner(kids) => {
                let mut count = 0;
                for kid in kids.as_slice() {
                    count += kid.count(visits);
                }
                count
            }
        }
    }
}

impl<R: Run + Copy> Branch<R> {
    /// Gives the runs of the smallest part about a label's run that has room enough new labels, spread evenly in its room. `most`
    /// is the greatest label that is free behind all runs here.
    pub fn relabel_about<L: Ledger>(
        &mut self,
        label: u64,
        most: u64,
        alloc: Global,
        visits: &mut Steps<L>,
    ) -> Tried<R>
        requires rising { IsRising self.old.pairs }
        requires held { Contains (labels self.old.pairs) label }
        requires few { length self.old.pairs < 2 ^ 32 }
        ensures tried { IsTried (most + 1) label self.old self.new result }
        ensures runs { runs self.new.pairs ≡ runs self.old.pairs }
        ensures depth { self.new.depth ≡ self.old.depth }
        ensures onward { visits.old + self.old.depth ≤ visits.new }
        ensures cost { IsWithin self.old visits.old visits.new result }
    {
        visits.tick();
        match &mut self.node {
            Node::Leaf(entries) => {
                let count = entries.len();
                self.spread(label, most, count, alloc, visits)
            }
            Node::Inner(kids) => {
                let (k, down) = place_about(kids.as_slice(), self.depth, label, most);
                let tried = kids[k].relabel_about(label, down, alloc, visits);
                self.summary = summary_with(kids.as_slice(), self.summary.sums);
                match tried {
                    Tried::Crowded(count) => {
                        let count = count + count_beside(kids, k, visits);
                        self.spread(label, most, count, alloc, visits)
                    }
                    Tried::Given(given) => Tried::Given(given),
                    Tried::NoMemory => Tried::NoMemory,
                }
            }
        }
    }

    /// Gives all runs here, which are so many, new labels, where there is room enough.
    fn spread<L: Ledger>(
        &mut self,
        label: u64,
        most: u64,
        count: usize,
        alloc: Global,
        visits: &mut Steps<L>,
    ) -> Tried<R>
        requires rising { IsRising self.old.pairs }
        requires held { Contains (labels self.old.pairs) label }
        requires few { length self.old.pairs < 2 ^ 32 }
        requires count { count ≡ length self.old.pairs }
        ensures tried { IsTried (most + 1) label self.old self.new result }
        ensures runs { runs self.new.pairs ≡ runs self.old.pairs }
        ensures depth { self.new.depth ≡ self.old.depth }
        ensures onward { visits.old ≤ visits.new }
        ensures cost { visits.new ≤ visits.old + 2 * length self.old.pairs }
        ensures crowded { IsIdle visits.old visits.new result }
    {
        let low = self.first() - 1;
        let Some(step) = step_for(low, most, count, self.depth) else {
            return Tried::Crowded(count);
        };
        let Ok(mut given) = Vec::with_capacity(alloc, count) else {
            return Tried::NoMemory;
        };
        let _ = self.relabel(low, step, &mut given, visits);
        Tried::Given(given)
    }
}
