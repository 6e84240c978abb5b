//! Runs that are cut.

ghost use Rattle.std.specs.Prelude.{◌≡◌, ◌<◌, ◌+◌, ◌^◌, ℕ, ◌++◌, ◌∷◌, IfSome, IfNone, IfOk, OnOk, OnErr, length, Contains};
ghost use Rattle.ew_model.specs.declared.node.Node.{Node as Nodes};
ghost use Rattle.walker_record.specs.Stretches.{Stretch, node_on, first_part, second_part};
ghost use Rattle.order_tree.specs.Pairs.{next_label, runs, lower, greater};
ghost use Rattle.character_runs.specs.Laid.{Stands, IsOffset, AreLabelled, chars_in, BeginsRun, EndsRun};
ghost use Rattle.character_runs.specs.Loose.{MayBeCut};

use crate::offsets::node_behind;
use crate::runs::reading::Found;
use crate::runs::{Runs, Spot};
use ew_model::NoMem;
use ew_model::node::Node;
use ew_model::steps::Steps;
use std::sync::ledger::Ledger;

impl Runs {
    /// Cuts the run of a spot right before its character, a node's. The second part gets a label that is free behind the run.
    /// After an error for want of memory the runs are the same.
    pub fn split<L: Ledger>(
        &mut self,
        spot: Spot,
        node: Node,
        own: u64,
        visits: &mut Steps<L>,
    ) -> Result<(), NoMem>
        requires laid { AreLabelled self.old.tree.pairs self.old.labels }
        requires stands { Stands self.old.tree.pairs spot.label spot.offset node }
        requires inside { 0 < spot.offset }
        requires above { spot.label < own }
        requires within { own < next_label (2 ^ 64) self.old.tree.pairs spot.label }
        requires few { length self.old.tree.pairs < 4294967295 }
        ensures laid { AreLabelled self.new.tree.pairs self.new.labels }
        ensures chars { chars_in self.new.tree.pairs ≡ chars_in self.old.tree.pairs }
        ensures first { OnOk result (BeginsRun self.new.tree.pairs node) }
        ensures begun { (v : Nodes) → BeginsRun self.old.tree.pairs v → BeginsRun self.new.tree.pairs v }
        ensures cut { MayBeCut (runs self.old.tree.pairs) (runs self.new.tree.pairs) node }
        ensures parts { OnOk result ((run : Stretch) → Contains self.old.tree.pairs (spot.label, run) → self.new.tree.pairs ≡ lower self.old.tree.pairs spot.label ++ (spot.label, first_part run spot.offset) ∷ (own, second_part run spot.offset) ∷ greater self.old.tree.pairs spot.label) }
        ensures err { OnErr result (self.new.tree ≡ self.old.tree) }
    {
        self.facts();
        self.labels.insert(node, own)?;
        match self.tree.split_under(spot.label, spot.offset, own, visits) {
            Ok(()) => Ok(()),
            Err(e) => {
                self.labels.remove(node);
                Err(e)
            }
        }
    }

    /// Cuts the run of a node that is not its first right before its character.
    fn cut_inside<L: Ledger>(&mut self, node: Node, visits: &mut Steps<L>) -> Result<(), NoMem>
        requires laid { AreLabelled self.old.tree.pairs self.old.labels }
        requires inside { (label n : ℕ) × Stands self.old.tree.pairs label n node × (0 < n) }
        ensures laid { AreLabelled self.new.tree.pairs self.new.labels }
        ensures chars { chars_in self.new.tree.pairs ≡ chars_in self.old.tree.pairs }
        ensures first { OnOk result (BeginsRun self.new.tree.pairs node) }
        ensures begun { (v : Nodes) → BeginsRun self.old.tree.pairs v → BeginsRun self.new.tree.pairs v }
        ensures cut { MayBeCut (runs self.old.tree.pairs) (runs self.new.tree.pairs) node }
    {
        let Some(spot) = self.make_room(node, visits)? else {
            unreachable!()
        };
        self.facts();
        let size = self.record(spot.label, visits).len;
        let Spot { label, offset } = spot;
        let Some(own) = self.tree.share_behind(label, offset, size, visits) else {
            unreachable!()
        };
        self.split(spot, node, own, visits)
    }

    /// Cuts a run that was found right before a character of it, a node's, where a label is free behind it and there are fewer
    /// than 2^32 - 1 runs. Answers the second part. After an error for want of memory, and after None, the runs are the same.
    fn cut_found<L: Ledger>(
        &mut self,
        found: Found,
        node: Node,
        visits: &mut Steps<L>,
    ) -> Result<Option<Found>, NoMem>
        requires laid { AreLabelled self.old.tree.pairs self.old.labels }
        requires held { Contains self.old.tree.pairs (found.label, found.run) }
        requires offset { IsOffset found.run node found.offset }
        requires inside { 0 < found.offset }
        ensures laid { AreLabelled self.new.tree.pairs self.new.labels }
        ensures chars { chars_in self.new.tree.pairs ≡ chars_in self.old.tree.pairs }
        ensures begins { IfOk result (λ o. IfSome o (λ _. BeginsRun self.new.tree.pairs node)) }
        ensures begun { (v : Nodes) → BeginsRun self.old.tree.pairs v → BeginsRun self.new.tree.pairs v }
        ensures cut { MayBeCut (runs self.old.tree.pairs) (runs self.new.tree.pairs) node }
        ensures first { IfOk result (λ o. IfSome o (λ _. Contains self.new.tree.pairs (found.label, first_part found.run found.offset))) }
        ensures second { IfOk result (λ o. IfSome o (λ f. Contains self.new.tree.pairs (f.label, f.run))) }
        ensures offset { IfOk result (λ o. IfSome o (λ f. IsOffset f.run node f.offset)) }
        ensures none { IfOk result (λ o. IfNone o (self.new.tree ≡ self.old.tree)) }
        ensures err { OnErr result (self.new.tree ≡ self.old.tree) }
    {
        if self.tree.runs() == u32::MAX {
            return Ok(None);
        }
        let spot = found.spot();
        let size = found.run.len;
        let Some(own) = self
            .tree
            .share_behind(spot.label, spot.offset, size, visits)
        else {
            return Ok(None);
        };
        self.split(spot, node, own, visits)?;
        let (_, run) = found.run.split(found.offset);
        Ok(Some(Found {
            label: own,
            run,
            offset: 0,
        }))
    }

    /// Cuts the run of a node right before its character, which was found. Answers the run that begins with it then; there is
    /// one, so that None never comes. After an error for want of memory the characters are the same.
    pub fn begin_found<L: Ledger>(
        &mut self,
        node: Node,
        found: Found,
        visits: &mut Steps<L>,
    ) -> Result<Option<Found>, NoMem>
        requires laid { AreLabelled self.old.tree.pairs self.old.labels }
        requires held { Contains self.old.tree.pairs (found.label, found.run) }
        requires offset { IsOffset found.run node found.offset }
        ensures laid { AreLabelled self.new.tree.pairs self.new.labels }
        ensures chars { chars_in self.new.tree.pairs ≡ chars_in self.old.tree.pairs }
        ensures first { OnOk result (BeginsRun self.new.tree.pairs node) }
        ensures begun { (v : Nodes) → BeginsRun self.old.tree.pairs v → BeginsRun self.new.tree.pairs v }
        ensures cut { MayBeCut (runs self.old.tree.pairs) (runs self.new.tree.pairs) node }
        ensures held { IfOk result (λ o. IfSome o (λ f. Contains self.new.tree.pairs (f.label, f.run))) }
        ensures offset { IfOk result (λ o. IfSome o (λ f. IsOffset f.run node f.offset)) }
        ensures none { IfOk result (λ o. IfNone o ((label n : ℕ) → Stands self.new.tree.pairs label n node → ⊥)) }
    {
        if found.offset == 0 {
            return Ok(Some(found));
        }
        match self.cut_found(found, node, visits)? {
            Some(begun) => Ok(Some(begun)),
            None => {
                self.cut_inside(node, visits)?;
                Ok(self.run_of(node, visits))
            }
        }
    }

    /// Cuts the run of a node right behind its character, which was found. Answers the run that ends with it then; there is one,
    /// so that None never comes. After an error for want of memory the characters are the same.
    pub fn end_found<L: Ledger>(
        &mut self,
        node: Node,
        found: Found,
        visits: &mut Steps<L>,
    ) -> Result<Option<Found>, NoMem>
        requires laid { AreLabelled self.old.tree.pairs self.old.labels }
        requires held { Contains self.old.tree.pairs (found.label, found.run) }
        requires offset { IsOffset found.run node found.offset }
        ensures laid { AreLabelled self.new.tree.pairs self.new.labels }
        ensures chars { chars_in self.new.tree.pairs ≡ chars_in self.old.tree.pairs }
        ensures last { OnOk result (EndsRun self.new.tree.pairs node) }
        ensures begun { (v : Nodes) → BeginsRun self.old.tree.pairs v → BeginsRun self.new.tree.pairs v }
        ensures cut { MayBeCut (runs self.old.tree.pairs) (runs self.new.tree.pairs) (node_on node 1) }
        ensures held { IfOk result (λ o. IfSome o (λ f. Contains self.new.tree.pairs (f.label, f.run))) }
        ensures offset { IfOk result (λ o. IfSome o (λ f. IsOffset f.run node f.offset)) }
        ensures none { IfOk result (λ o. IfNone o ((label n : ℕ) → Stands self.new.tree.pairs label n node → ⊥)) }
    {
        self.facts();
        let Found { label, run, offset } = found;
        let Some(next) = node_behind(&run, offset) else {
            return Ok(Some(found));
        };
        let behind = Found {
            label,
            run,
            offset: offset + 1,
        };
        match self.cut_found(behind, next, visits)? {
            Some(_) => {
                let (ended, _) = run.split(offset + 1);
                Ok(Some(Found {
                    label,
                    run: ended,
                    offset,
                }))
            }
            None => {
                self.cut_inside(next, visits)?;
                Ok(self.run_of(node, visits))
            }
        }
    }

    /// Cuts the run of a node right before its character, where it has one. Answers where that stands then. After an error for
    /// want of memory the characters are the same.
    pub fn cut<L: Ledger>(
        &mut self,
        node: Node,
        visits: &mut Steps<L>,
    ) -> Result<Option<Spot>, NoMem>
        requires { AreLabelled self.old.tree.pairs self.old.labels }
        ensures laid { AreLabelled self.new.tree.pairs self.new.labels }
        ensures chars { chars_in self.new.tree.pairs ≡ chars_in self.old.tree.pairs }
        ensures first { OnOk result (BeginsRun self.new.tree.pairs node) }
        ensures begun { (v : Nodes) → BeginsRun self.old.tree.pairs v → BeginsRun self.new.tree.pairs v }
        ensures cut { MayBeCut (runs self.old.tree.pairs) (runs self.new.tree.pairs) node }
        ensures spot { IfOk result (λ o. IfSome o (λ s. Stands self.new.tree.pairs s.label s.offset node)) }
        ensures none { IfOk result (λ o. IfNone o ((label n : ℕ) → Stands self.new.tree.pairs label n node → ⊥)) }
    {
        let Some(found) = self.run_of(node, visits) else {
            return Ok(None);
        };
        match self.begin_found(node, found, visits)? {
            Some(begun) => Ok(Some(begun.spot())),
            None => Ok(None),
        }
    }

    /// Cuts the run of a node right behind its character, where it has one. Answers where that stands then. After an error for
    /// want of memory the characters are the same.
    pub fn cut_behind<L: Ledger>(
        &mut self,
        node: Node,
        visits: &mut Steps<L>,
    ) -> Result<Option<Spot>, NoMem>
        requires { AreLabelled self.old.tree.pairs self.old.labels }
        ensures laid { AreLabelled self.new.tree.pairs self.new.labels }
        ensures chars { chars_in self.new.tree.pairs ≡ chars_in self.old.tree.pairs }
        ensures last { OnOk result (EndsRun self.new.tree.pairs node) }
        ensures begun { (v : Nodes) → BeginsRun self.old.tree.pairs v → BeginsRun self.new.tree.pairs v }
        ensures cut { MayBeCut (runs self.old.tree.pairs) (runs self.new.tree.pairs) (node_on node 1) }
        ensures spot { IfOk result (λ o. IfSome o (λ s. Stands self.new.tree.pairs s.label s.offset node)) }
        ensures none { IfOk result (λ o. IfNone o ((label n : ℕ) → Stands self.new.tree.pairs label n node → ⊥)) }
    {
        let Some(found) = self.run_of(node, visits) else {
            return Ok(None);
        };
        match self.end_found(node, found, visits)? {
            Some(ended) => Ok(Some(ended.spot())),
            None => Ok(None),
        }
    }
}
