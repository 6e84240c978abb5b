//! The runs of a state: a counted tree of them, and the label of each by its first node.

ghost use Rattle.std.specs.Prelude.{◌≡◌, ◌+◌, ◌-◌, ◌<◌, ◌≤◌, ◌^◌, [], None, IfOk, length, min};
ghost use Rattle.ew_model.specs.declared.node.Node.{Node as Nodes};
ghost use Rattle.walker_record.specs.Stretches.{node_on, HasNumbers};
ghost use Rattle.character_runs.specs.States.{base_records, deletion_by};
ghost use Rattle.character_runs.specs.Deleting.{deletion_op};
ghost use Rattle.character_runs.specs.Labelled.{label_of};
ghost use Rattle.character_runs.specs.Laid.{AreLabelled, chars_in};

mod changing;
mod child;
mod entering;
mod event_positions;
mod exchanging;
mod inserting;
mod parting;
mod reading;
mod relabelling;
mod resting;
mod striking;

use crate::labels::Labels;
use crate::offsets::node_at;
pub use changing::Known;
pub use child::Child;
use ew_model::NoMem;
use ew_model::node::Node;
use ew_model::steps::Steps;
use ew_model::text_op::TextOp;
use order_tree::OrderTree;
use std::alloc::Global;
use std::sync::ledger::Ledger;
use walker_record::Record;

/// Runs of characters in order, with the label of each.
#[derive(Drop)]
pub struct Runs {
    tree: OrderTree<Record>,
    labels: Labels,
}

/// Where a character stands: the label of its run, and its number in it.
#[derive(Clone, Copy)]
pub struct Spot {
    pub label: u64,
    pub offset: u32,
}

/// A found character of which one more thing is known: how many characters of the text are in runs with lower labels.
#[derive(Clone, Copy)]
pub struct Counted {
    pub spot: Spot,
    pub run: Record,
    pub before: u32,
}

impl Counted {
    /// Its node.
    pub fn node(&self) -> Node
        requires { self.now.spot.offset < self.now.run.len }
        ensures { result ≡ node_on self.now.run.from self.now.spot.offset }
    {
        node_at(&self.run, self.spot.offset)
    }

    /// How many characters of its run there are from it on, at most so many.
    pub fn count(&self, most: u32) -> u32
        requires { self.now.spot.offset < self.now.run.len }
        ensures is { result ≡ min most (self.now.run.len - self.now.spot.offset) }
        ensures numbers { HasNumbers (node_on self.now.run.from self.now.spot.offset) result }
    {
        most.min(self.run.len - self.spot.offset)
    }

    /// Its index in the text. None where it isn't in the text.
    pub fn index(&self) -> Option<u32>
        requires { self.now.before + self.now.spot.offset < 2 ^ 32 }
        ensures { deletion_op result ≡ deletion_by self.now.run.effect (self.now.before + self.now.spot.offset) }
    {
        if self.run.effect {
            Some(self.before + self.spot.offset)
        } else {
            None
        }
    }

    /// What its deletion does to the text.
    pub fn deletion(&self) -> TextOp
        requires { self.now.before + self.now.spot.offset < 2 ^ 32 }
        ensures { result ≡ deletion_by self.now.run.effect (self.now.before + self.now.spot.offset) }
    {
        match self.index() {
            Some(at) => TextOp::Del { at },
            None => TextOp::Nothing,
        }
    }
}

impl Runs {
    /// One run of a base, or none where it has no characters.
    pub fn base<L: Ledger>(alloc: Global, len: u32, visits: &mut Steps<L>) -> Result<Runs, NoMem>
        ensures laid { IfOk result (λ r. AreLabelled r.tree.pairs r.labels) }
        ensures chars { IfOk result (λ r. chars_in r.tree.pairs ≡ base_records len) }
        ensures few { IfOk result (λ r. length r.tree.pairs ≤ 1) }
    {
        let none = Runs {
            tree: OrderTree::new(alloc)?,
            labels: Labels::new(alloc),
        };
        if len == 0 {
            return Ok(none);
        }
        none.begun(len, visits)
    }

    /// The first run, of so many base characters.
    fn begun<L: Ledger>(self, len: u32, visits: &mut Steps<L>) -> Result<Runs, NoMem>
        requires none { self.tree.pairs ≡ [] }
        requires unlabelled { (v : Nodes) → label_of self.labels v ≡ None }
        requires some { 0 < len }
        ensures laid { IfOk result (λ r. AreLabelled r.tree.pairs r.labels) }
        ensures chars { IfOk result (λ r. chars_in r.tree.pairs ≡ base_records len) }
        ensures few { IfOk result (λ r. length r.tree.pairs ≡ 1) }
    {
        let mut runs = self;
        let from = Node::Base(0);
        let run = Record {
            from,
            len,
            prepared: 1,
            effect: true,
        };
        let own = runs.tree.insert_after(0, run, visits)?;
        runs.labels.insert(from, own)?;
        Ok(runs)
    }
}
