//! Runs that come in.

ghost use Rattle.std.specs.Prelude.{◌≡◌, ◌<◌, ◌+◌, ◌^◌, ℕ, Some, IfOk, OnErr, ◌++◌, ◌∷◌, length, Contains};
ghost use Rattle.ew_model.specs.declared.node.Node.TheVariants as nodes;
ghost use Rattle.walker_record.specs.Stretches.{Stretch};
ghost use Rattle.order_tree.specs.Pairs.{HasRoom, inserted, lower, greater, runs};
ghost use Rattle.character_runs.specs.declared.labels.Labels.{Labels as Table};
ghost use Rattle.character_runs.specs.Labelled.{Sets};
ghost use Rattle.character_runs.specs.Laid.{Stands, AreLabelled, chars_in};

use crate::runs::Runs;
use ew_model::NoMem;
use ew_model::steps::Steps;
use std::sync::ledger::Ledger;
use walker_record::Record;

impl Runs {
    /// Puts a run without characters right behind a label, where one is free. Answers its own.
    pub fn open_run<L: Ledger>(
        &mut self,
        label: u64,
        run: Record,
        visits: &mut Steps<L>,
    ) -> Result<u64, NoMem>
        requires laid { AreLabelled self.old.tree.pairs self.old.labels }
        requires empty { run.len ≡ 0 }
        requires some { run.from ≡ nodes.Root → ⊥ }
        requires room { HasRoom self.old.tree.pairs label }
        requires few { length self.old.tree.pairs < 4294967295 }
        ensures laid { AreLabelled self.new.tree.pairs self.new.labels }
        ensures chars { chars_in self.new.tree.pairs ≡ chars_in self.old.tree.pairs }
        ensures labels { self.new.labels ≡ self.old.labels }
        ensures pairs { IfOk result (λ own. self.new.tree.pairs ≡ inserted self.old.tree.pairs label own run) }
        ensures err { OnErr result (self.new.tree ≡ self.old.tree) }
    {
        self.facts();
        let own = self.tree.insert_after(label, run, visits)?;
        Ok(own)
    }

    /// Gives the run without characters at a label its first, a new node's, which has the label already.
    pub fn fill<L: Ledger>(&mut self, own: u64, run: Record, visits: &mut Steps<L>)
        requires laid { (t : Table) × AreLabelled self.old.tree.pairs t × Sets t self.old.labels run.from (Some own) }
        requires one { run.len ≡ 1 }
        requires some { run.from ≡ nodes.Root → ⊥ }
        requires held { (r : Stretch) × Contains self.old.tree.pairs (own, r) × (r.len ≡ 0) }
        requires new { (label n : ℕ) → Stands self.old.tree.pairs label n run.from → ⊥ }
        requires few { length (chars_in self.old.tree.pairs) + 1 < 2 ^ 32 }
        ensures laid { AreLabelled self.new.tree.pairs self.new.labels }
        ensures chars { chars_in self.new.tree.pairs ≡ chars_in (lower self.old.tree.pairs own) ++ run ∷ chars_in (greater self.old.tree.pairs own) }
        ensures lower { lower self.new.tree.pairs own ≡ lower self.old.tree.pairs own }
        ensures runs { runs self.new.tree.pairs ≡ runs (lower self.old.tree.pairs own) ++ run ∷ runs (greater self.old.tree.pairs own) }
    {
        self.facts();
        self.tree.change(own, run, visits);
    }
}
