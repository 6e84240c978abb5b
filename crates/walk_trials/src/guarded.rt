//! The counted tree of records, each call of which is made only where its conditions hold.

ghost use Rattle.std.specs.Prelude.{◌≡◌, ℕ, ◌+◌, ◌<◌, Contains, IsTrue, IfSome, length};
ghost use Rattle.order_tree.specs.Pairs.{labels, IsRising, HasRoom, total};
ghost use Rattle.walker_record.specs.Stretches.{known_of, prepared_of, effect_of};

use ew_model::NoMem;
use ew_model::run::Run;
use ew_model::steps::Steps;
use order_tree::{OrderTree, Relabelled};
use std::alloc::Global;
use std::sync::ledger::Ledger;
use walker_record::Record;

/// The characters of some runs, counted.
#[derive(Clone, Copy)]
struct Counts {
    known: u32,
    prepared: u32,
    effect: u32,
}

impl Counts {
    const NONE: Counts = Counts {
        known: 0,
        prepared: 0,
        effect: 0,
    };

    /// With a run more, where that fits.
    fn with(self, run: &Record) -> Option<Counts>
        ensures known { IfSome result (λ c. c.known ≡ self.known + known_of run.now) }
        ensures prepared { IfSome result (λ c. c.prepared ≡ self.prepared + prepared_of run.now) }
        ensures effect { IfSome result (λ c. c.effect ≡ self.effect + effect_of run.now) }
    {
        Some(Counts {
            known: self.known.checked_add(run.known_sum())?,
            prepared: self.prepared.checked_add(run.prepared_sum())?,
            effect: self.effect.checked_add(run.effect_sum())?,
        })
    }

    /// Without a run.
    fn without(self, run: &Record) -> Option<Counts>
        ensures known { IfSome result (λ c. c.known + known_of run.now ≡ self.known) }
        ensures prepared { IfSome result (λ c. c.prepared + prepared_of run.now ≡ self.prepared) }
        ensures effect { IfSome result (λ c. c.effect + effect_of run.now ≡ self.effect) }
    {
        Some(Counts {
            known: self.known.checked_sub(run.known_sum())?,
            prepared: self.prepared.checked_sub(run.prepared_sum())?,
            effect: self.effect.checked_sub(run.effect_sum())?,
        })
    }

    /// With a run in the place of another.
    fn changed(self, old: &Record, new: &Record) -> Option<Counts>
        ensures known { IfSome result (λ c. c.known + known_of old.now ≡ self.known + known_of new.now) }
        ensures prepared { IfSome result (λ c. c.prepared + prepared_of old.now ≡ self.prepared + prepared_of new.now) }
        ensures effect { IfSome result (λ c. c.effect + effect_of old.now ≡ self.effect + effect_of new.now) }
    {
        self.without(old)?.with(new)
    }
}

/// The tree, with the sums of its runs.
#[derive(Drop)]
pub struct Guarded {
    tree: OrderTree<Record>,
    counts: Counts,
    ghost known: { total known_of tree.pairs ≡ counts.known },
    ghost prepared: { total prepared_of tree.pairs ≡ counts.prepared },
    ghost effect: { total effect_of tree.pairs ≡ counts.effect },
}

/// Whether a label is that of a run: none is free between the label below it and the next.
fn is_held<L: Ledger>(tree: &OrderTree<Record>, label: u64, visits: &mut Steps<L>) -> bool
    ensures held { IsTrue result → Contains (labels tree.now.pairs) label }
    ensures rising { IsTrue result → IsRising tree.now.pairs }
{
    tree.runs() > 0 && label > 0 && !tree.has_room(label - 1, visits)
}

/// Whether one more run finds a label behind this one.
fn is_free<L: Ledger>(tree: &OrderTree<Record>, label: u64, visits: &mut Steps<L>) -> bool
    ensures room { IsTrue result → HasRoom tree.now.pairs label }
    ensures few { IsTrue result → length tree.now.pairs < 4294967295 }
{
    tree.runs() < u32::MAX && tree.has_room(label, visits)
}

impl Guarded {
    pub fn new(alloc: Global) -> Result<Guarded, NoMem> {
        Ok(Guarded {
            tree: OrderTree::new(alloc)?,
            counts: Counts::NONE,
        })
    }

    pub fn tree(&self) -> &OrderTree<Record> {
        &self.tree
    }

    /// How many characters are prepared.
    pub fn prepared(&self) -> u32 {
        self.counts.prepared
    }

    /// How many characters are in the text.
    pub fn effect(&self) -> u32 {
        self.counts.effect
    }

    pub fn locate<L: Ledger>(&self, label: u64, visits: &mut Steps<L>) -> Option<Record> {
        if !is_held(&self.tree, label, visits) {
            return None;
        }
        Some(*self.tree.locate(label, visits))
    }

    pub fn find_prepared<L: Ledger>(&self, i: u32, visits: &mut Steps<L>) -> Option<(u64, u32)> {
        if i >= self.counts.prepared {
            return None;
        }
        Some(self.tree.find_prepared(i, visits))
    }

    pub fn find_effect<L: Ledger>(&self, i: u32, visits: &mut Steps<L>) -> Option<(u64, u32)> {
        if i >= self.counts.effect {
            return None;
        }
        Some(self.tree.find_effect(i, visits))
    }

    /// Answers the label of the run, where there is one for it.
    pub fn insert_after<L: Ledger>(
        &mut self,
        label: u64,
        run: Record,
        visits: &mut Steps<L>,
    ) -> Result<Option<u64>, NoMem> {
        let Some(counts) = self.counts.with(&run) else {
            return Ok(None);
        };
        if !is_free(&self.tree, label, visits) {
            return Ok(None);
        }
        let own = self.tree.insert_after(label, run, visits)?;
        self.counts = counts;
        Ok(Some(own))
    }

    /// Answers the label of the second part, where the run can be cut there and there is a label.
    pub fn split<L: Ledger>(
        &mut self,
        label: u64,
        at: u32,
        visits: &mut Steps<L>,
    ) -> Result<Option<u64>, NoMem> {
        if !is_held(&self.tree, label, visits) {
            return Ok(None);
        }
        let size = self.tree.locate(label, visits).size();
        if at == 0 || at >= size || !is_free(&self.tree, label, visits) {
            return Ok(None);
        }
        let own = self.tree.split(label, at, visits)?;
        Ok(Some(own))
    }

    /// The same, where the second part gets a free label that is asked for.
    pub fn split_shared<L: Ledger>(
        &mut self,
        label: u64,
        at: u32,
        visits: &mut Steps<L>,
    ) -> Result<Option<u64>, NoMem> {
        if !is_held(&self.tree, label, visits) {
            return Ok(None);
        }
        let size = self.tree.locate(label, visits).size();
        if at == 0 || at >= size || self.tree.runs() == u32::MAX {
            return Ok(None);
        }
        let Some(own) = self.tree.share_behind(label, at, size, visits) else {
            return Ok(None);
        };
        self.tree.split_under(label, at, own, visits)?;
        Ok(Some(own))
    }

    /// Answers whether the run was changed.
    pub fn change<L: Ledger>(&mut self, label: u64, run: Record, visits: &mut Steps<L>) -> bool {
        if !is_held(&self.tree, label, visits) {
            return false;
        }
        let old = *self.tree.locate(label, visits);
        let Some(counts) = self.counts.changed(&old, &run) else {
            return false;
        };
        self.tree.change(label, run, visits);
        self.counts = counts;
        true
    }

    /// Answers the old labels, with the new ones and the runs.
    pub fn relabel<L: Ledger>(
        &mut self,
        visits: &mut Steps<L>,
    ) -> Result<Vec<(u64, (u64, Record))>, NoMem> {
        Ok(self.tree.relabel(visits)?)
    }

    /// Answers the same of the runs about a label, where there is such a run, and room for new labels.
    pub fn relabel_about<L: Ledger>(
        &mut self,
        label: u64,
        visits: &mut Steps<L>,
    ) -> Result<Option<Relabelled<Record>>, NoMem> {
        if !is_held(&self.tree, label, visits) {
            return Ok(None);
        }
        Ok(self.tree.relabel_about(label, visits)?)
    }
}
