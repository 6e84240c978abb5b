//! What is read of the runs of a state.

ghost use Rattle.std.specs.Prelude.{◌≡◌, ◌<◌, ◌+◌, ◌^◌, ℕ, All, IfSome, IfNone, ◌++◌, length, drop, Contains};
ghost use Rattle.walker_record.specs.Stretches.{known_of, prepared_of, effect_of};
ghost use Rattle.order_tree.specs.Pairs.{IsRising, total, labels, lower, greater, IsPlace};
ghost use Rattle.character_runs.specs.Laid.{Stands, IsOffset, AreLabelled, records_of, chars_in};
ghost use Rattle.character_runs.specs.Spots.{first_known};

use crate::offsets::{node_behind, offset_in};
use crate::runs::{Counted, Runs, Spot};
use ew_model::node::Node;
use ew_model::steps::Steps;
use std::sync::ledger::Ledger;
use walker_record::Record;

/// A character that was found: the label of its run, its run, and its number in that.
#[derive(Clone, Copy)]
pub struct Found {
    pub label: u64,
    pub run: Record,
    pub offset: u32,
}

impl Found {
    /// Where the character stands.
    pub fn spot(&self) -> Spot
        ensures { result ≡ record { label = self.now.label; offset = self.now.offset } }
    {
        Spot {
            label: self.label,
            offset: self.offset,
        }
    }
}

impl Runs {
    /// How many runs there are.
    pub fn count(&self) -> u32
        ensures value { result ≡ length self.now.tree.pairs }
        ensures rising { IsRising self.now.tree.pairs }
    {
        self.tree.runs()
    }

    /// Does nothing: it says to the prover what is so of all runs. There are few of them, their labels rise and are below 2^64, and
    /// their sums fit. The code calls it where a proof needs one of these, before a change or after it.
    pub fn facts(&self)
        ensures few { length self.now.tree.pairs < 2 ^ 32 }
        ensures rising { IsRising self.now.tree.pairs }
        ensures below { All (λ p. p.0 < 2 ^ 64) self.now.tree.pairs }
        ensures known { total known_of self.now.tree.pairs < 2 ^ 32 }
        ensures prepared { total prepared_of self.now.tree.pairs < 2 ^ 32 }
        ensures effect { total effect_of self.now.tree.pairs < 2 ^ 32 }
    {
        let _runs = self.tree.runs();
    }

    /// The run at a label.
    pub fn record<L: Ledger>(&self, label: u64, visits: &mut Steps<L>) -> Record
        requires { Contains (labels self.now.tree.pairs) label }
        ensures { Contains self.now.tree.pairs (label, result) }
    {
        *self.tree.locate(label, visits)
    }

    /// The run of a node's character, where it has one.
    pub fn run_of<L: Ledger>(&self, node: Node, visits: &mut Steps<L>) -> Option<Found>
        requires { AreLabelled self.now.tree.pairs self.now.labels }
        ensures some { IfSome result (λ f. Stands self.now.tree.pairs f.label f.offset node) }
        ensures held { IfSome result (λ f. Contains self.now.tree.pairs (f.label, f.run)) }
        ensures offset { IfSome result (λ f. IsOffset f.run node f.offset) }
        ensures inside { IfSome result (λ f. f.offset < f.run.len) }
        ensures none { IfNone result ((label n : ℕ) → Stands self.now.tree.pairs label n node → ⊥) }
        ensures rising { IsRising self.now.tree.pairs }
    {
        self.facts();
        let label = self.labels.last_up_to(node)?;
        let run = self.tree.locate(label, visits);
        let offset = offset_in(run, node)?;
        Some(Found {
            label,
            run: *run,
            offset,
        })
    }

    /// Where a node's character stands.
    pub fn find<L: Ledger>(&self, node: Node, visits: &mut Steps<L>) -> Option<Spot>
        requires { AreLabelled self.now.tree.pairs self.now.labels }
        ensures some { IfSome result (λ s. Stands self.now.tree.pairs s.label s.offset node) }
        ensures none { IfNone result ((label n : ℕ) → Stands self.now.tree.pairs label n node → ⊥) }
    {
        let found = self.run_of(node, visits)?;
        Some(found.spot())
    }

    /// The visible character with this index.
    pub fn visible_at<L: Ledger>(&self, at: u32, visits: &mut Steps<L>) -> Counted
        requires { at < total prepared_of self.now.tree.pairs }
        ensures place { IsPlace prepared_of self.now.tree.pairs at result.spot.label result.spot.offset }
        ensures held { Contains self.now.tree.pairs (result.spot.label, result.run) }
        ensures inside { result.spot.offset < result.run.len }
        ensures before { result.before ≡ total effect_of (lower self.now.tree.pairs result.spot.label) }
    {
        self.facts();
        let visible = self.tree.find_visible(at, visits);
        Counted {
            spot: Spot {
                label: visible.label,
                offset: visible.place,
            },
            run: *visible.run,
            before: visible.before,
        }
    }

    /// The first node behind a label's run that is inserted in what is prepared.
    pub fn first_known<L: Ledger>(&self, label: u64, visits: &mut Steps<L>) -> Option<Node>
        ensures { result ≡ first_known (chars_in (greater self.now.tree.pairs label)) }
    {
        self.facts();
        let next = self.tree.next_known(label, visits)?;
        Some(self.tree.locate(next, visits).from)
    }

    /// The first node behind a character that is inserted in what is prepared.
    pub fn known_behind<L: Ledger>(&self, found: &Counted, visits: &mut Steps<L>) -> Option<Node>
        requires { found.now.spot.offset < found.now.run.len }
        ensures { result ≡ first_known (drop (found.now.spot.offset + 1) (records_of found.now.run) ++ chars_in (greater self.now.tree.pairs found.now.spot.label)) }
    {
        if found.run.prepared == 0 {
            return self.first_known(found.spot.label, visits);
        }
        match node_behind(&found.run, found.spot.offset) {
            Some(next) => Some(next),
            None => self.first_known(found.spot.label, visits),
        }
    }
}
