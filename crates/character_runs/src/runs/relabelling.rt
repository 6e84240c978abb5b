//! New labels for the runs of a state.

ghost use Rattle.std.specs.Prelude.{◌≡◌, ◌<◌, ℕ, List, ◌⊎◌, zip, IfSome, IfNone, IfOk, OnOk, OnErr, IsTrue, IsSome, Some, ◌↔◌, length, Contains};
ghost use Rattle.order_tree.specs.Pairs.{labels, runs, IsRising, HasRoom, AreGivenIn};
ghost use Rattle.walker_record.specs.Stretches.{Stretch};
ghost use Rattle.character_runs.specs.Labelled.{label_of, Sets};
ghost use Rattle.character_runs.specs.Laid.{Stands, AreLabelled};

use crate::labels::Labels;
use crate::runs::{Runs, Spot};
use ew_model::NoMem;
use ew_model::node::Node;
use ew_model::steps::Steps;
use std::sync::ledger::Ledger;
use walker_record::Record;

impl Runs {
    /// Gives all runs new labels, and answers of each the old label, the new, and the run, in order. After an error for want of memory
    /// nothing has changed.
    pub fn relabel_each<L: Ledger>(
        &mut self,
        visits: &mut Steps<L>,
    ) -> Result<Vec<(u64, (u64, Record))>, NoMem>
        requires { AreLabelled self.old.tree.pairs self.old.labels }
        ensures laid { AreLabelled self.new.tree.pairs self.new.labels }
        ensures runs { runs self.new.tree.pairs ≡ runs self.old.tree.pairs }
        ensures given { IfOk result (λ given. given.items ≡ zip (labels self.old.tree.pairs) self.new.tree.pairs) }
        ensures room { OnOk result ((label : ℕ) → (label ≡ 0) ⊎ Contains (labels self.new.tree.pairs) label → HasRoom self.new.tree.pairs label) }
        ensures err { OnErr result (self.new ≡ self.old) }
    {
        self.facts();
        let given = self.tree.relabel(visits)?;
        note_each(&mut self.labels, &given);
        Ok(given)
    }

    /// Gives all runs new labels. After an error for want of memory nothing has changed.
    fn relabel<L: Ledger>(&mut self, visits: &mut Steps<L>) -> Result<(), NoMem>
        requires { AreLabelled self.old.tree.pairs self.old.labels }
        ensures laid { AreLabelled self.new.tree.pairs self.new.labels }
        ensures runs { runs self.new.tree.pairs ≡ runs self.old.tree.pairs }
        ensures room { OnOk result ((label : ℕ) → (label ≡ 0) ⊎ Contains (labels self.new.tree.pairs) label → HasRoom self.new.tree.pairs label) }
        ensures err { OnErr result (self.new ≡ self.old) }
    {
        self.relabel_each(visits)?;
        Ok(())
    }

    /// Gives some runs new labels, among them the one at this label, so that one is free behind it. Answers its new label. None where
    /// no part of them was found for that; nothing has changed then, nor after an error for want of memory.
    fn relabel_about<L: Ledger>(
        &mut self,
        label: u64,
        visits: &mut Steps<L>,
    ) -> Result<Option<u64>, NoMem>
        requires laid { AreLabelled self.old.tree.pairs self.old.labels }
        requires held { Contains (labels self.old.tree.pairs) label }
        ensures laid { AreLabelled self.new.tree.pairs self.new.labels }
        ensures runs { runs self.new.tree.pairs ≡ runs self.old.tree.pairs }
        ensures own { IfOk result (λ o. IfSome o (λ own. (run : Stretch) → Contains self.old.tree.pairs (label, run) → Contains self.new.tree.pairs (own, run))) }
        ensures room { IfOk result (λ o. IfSome o (λ own. HasRoom self.new.tree.pairs own)) }
        ensures none { IfOk result (λ o. IfNone o (self.new ≡ self.old)) }
        ensures err { OnErr result (self.new ≡ self.old) }
    {
        self.facts();
        let Some(about) = self.tree.relabel_about(label, visits)? else {
            return Ok(None);
        };
        note_each(&mut self.labels, &about.given);
        Ok(Some(about.own))
    }

    /// Whether a label is free behind the run of a spot, or before all runs.
    fn has_room_at<L: Ledger>(&self, spot: Option<Spot>, visits: &mut Steps<L>) -> bool
        ensures some { IfSome spot (λ s. IsTrue result ↔ HasRoom self.now.tree.pairs s.label) }
        ensures none { IfNone spot (IsTrue result ↔ HasRoom self.now.tree.pairs 0) }
    {
        match spot {
            Some(spot) => self.tree.has_room(spot.label, visits),
            None => self.tree.has_room(0, visits),
        }
    }

    /// Sees to it that a run may come behind that of a node, or before all runs. Answers where the node's character stands then.
    ///
    /// An error for want of memory, which is also the answer where there are 2^32 - 1 runs.
    pub fn make_room<L: Ledger>(
        &mut self,
        node: Node,
        visits: &mut Steps<L>,
    ) -> Result<Option<Spot>, NoMem>
        requires { AreLabelled self.old.tree.pairs self.old.labels }
        ensures laid { AreLabelled self.new.tree.pairs self.new.labels }
        ensures runs { runs self.new.tree.pairs ≡ runs self.old.tree.pairs }
        ensures few { OnOk result (length self.new.tree.pairs < 4294967295) }
        ensures spot { IfOk result (λ o. IfSome o (λ s. Stands self.new.tree.pairs s.label s.offset node)) }
        ensures none { IfOk result (λ o. IfNone o ((label n : ℕ) → Stands self.new.tree.pairs label n node → ⊥)) }
        ensures behind { IfOk result (λ o. IfSome o (λ s. HasRoom self.new.tree.pairs s.label)) }
        ensures before { IfOk result (λ o. IfNone o (HasRoom self.new.tree.pairs 0)) }
    {
        let spot = self.find(node, visits);
        self.make_room_at(spot, node, visits)
    }

    /// The same, where it is known already where the node's character stands, or that it has none.
    pub fn make_room_at<L: Ledger>(
        &mut self,
        spot: Option<Spot>,
        node: Node,
        visits: &mut Steps<L>,
    ) -> Result<Option<Spot>, NoMem>
        requires laid { AreLabelled self.old.tree.pairs self.old.labels }
        requires spot { IfSome spot (λ s. Stands self.old.tree.pairs s.label s.offset node) }
        requires none { IfNone spot ((label n : ℕ) → Stands self.old.tree.pairs label n node → ⊥) }
        ensures laid { AreLabelled self.new.tree.pairs self.new.labels }
        ensures runs { runs self.new.tree.pairs ≡ runs self.old.tree.pairs }
        ensures few { OnOk result (length self.new.tree.pairs < 4294967295) }
        ensures spot { IfOk result (λ o. IfSome o (λ s. Stands self.new.tree.pairs s.label s.offset node)) }
        ensures none { IfOk result (λ o. IfNone o ((label n : ℕ) → Stands self.new.tree.pairs label n node → ⊥)) }
        ensures behind { IfOk result (λ o. IfSome o (λ s. HasRoom self.new.tree.pairs s.label)) }
        ensures before { IfOk result (λ o. IfNone o (HasRoom self.new.tree.pairs 0)) }
    {
        if self.tree.runs() == u32::MAX {
            return Err(NoMem);
        }
        if self.has_room_at(spot, visits) {
            return Ok(spot);
        }
        if let Some(Spot { label, offset }) = spot {
            if let Some(label) = self.relabel_about(label, visits)? {
                return Ok(Some(Spot { label, offset }));
            }
        }
        self.relabel(visits)?;
        Ok(self.find(node, visits))
    }
}

/// The first nodes of runs that got new labels among others get these labels for theirs.
fn note_each(held: &mut Labels, given: &Vec<(u64, (u64, Record))>)
    requires { (ps qs : List (ℕ × Stretch)) × AreLabelled ps held.old × IsRising ps × (runs qs ≡ runs ps) × AreGivenIn ps qs given.now.items }
    ensures { (ps qs : List (ℕ × Stretch)) → AreLabelled ps held.old → IsRising ps → runs qs ≡ runs ps → AreGivenIn ps qs given.now.items → AreLabelled qs held.new }
{
    for k in 0..given.len() {
        let (_, (label, run)) = given[k];
        note(held, label, &run);
    }
}

/// The first node of a run, if the run has characters, gets this label for another.
fn note(held: &mut Labels, label: u64, run: &Record)
    requires { 0 < run.now.len → IsSome (label_of held.old run.now.from) }
    ensures set { 0 < run.now.len → Sets held.old held.new run.now.from (Some label) }
    ensures none { run.now.len ≡ 0 → held.new ≡ held.old }
{
    if run.len > 0 {
        held.set(run.from, label);
    }
}
