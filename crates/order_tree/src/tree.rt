//! The counted tree.

ghost use Rattle.std.specs.Prelude.{◌≡◌, ℕ, ◌+◌, ◌-◌, ◌*◌, ◌^◌, ◌<◌, ◌≤◌, ◌↔◌, ◌⊎◌, IsTrue, Option, Some, None, [], length, zip, All, Contains, IfSome, IfNone, IfOk, OnOk, IsOkAnd, OnErr};
ghost use Rattle.order_tree.specs.Edits.{IsPlaced, IsBetween, IsFree};
ghost use Rattle.order_tree.specs.Pairs.{Tree, labels, runs, IsRising, EndsWith, lower, first_label, next_label, HasRoom, counted_after, total, SumsFit, IsPlace, changed, inserted, IsCut, AreSpread, AreGivenIn};

use crate::about::{Relabelled, Tried, own_of};
use crate::branch::Branch;
use crate::change::{Alteration, Altered};
use crate::count::Count;
use crate::edit::Edit;
use crate::label::{Recent, share};
use crate::part::Part;
use crate::root::{edit_root, insert_run, relabel_root};
use crate::spares::Spares;
use crate::visible::Visible;
use ew_model::NoMem;
use ew_model::run::Run;
use ew_model::steps::Steps;
use std::alloc::Global;
use std::marker::Model;
use std::sync::ledger::Ledger;

/// Runs of characters in order, each under a label. Labels are above 0 and rise along the list; 0 stands before all runs.
/// Contracts see the runs with their labels, and the number of levels of the tree's nodes, leaves included.
///
/// Each call but `new`, `runs` and `depth` counts one visit for each node that it opens.
#[derive(Drop)]
pub struct OrderTree<R: Run> {
    alloc: Global,
    root: Option<Branch<R>>,
    runs: u32,
    recent: Recent,
}

impl<R: Run> Model for OrderTree<R> {
    ghost use Rattle.order_tree.specs.Pairs.{Tree};

    ghost Value = { Tree R };

    ghost use Rattle.order_tree.specs.Whole.{tree_of, IsWhole};

    ghost view = { λ t. tree_of t.root };

    ghost invariant = { λ t. IsWhole R.Run t.runs (tree_of t.root) };
}

impl<R: Run> OrderTree<R> {
    /// A tree without runs. It takes no memory, and never fails.
    pub fn new(alloc: Global) -> Result<OrderTree<R>, NoMem>
        ensures { IsOkAnd result (λ t. t ≡ record { pairs = []; depth = 0 }) }
    {
        Ok(OrderTree {
            alloc,
            root: None,
            runs: 0,
            recent: Recent::NONE,
        })
    }

    /// The number of runs.
    pub fn runs(&self) -> u32
        ensures value { result ≡ length self.now.pairs }

        // So it is of every tree: labels rise and are below 2 ^ 64, and the sums fit.
        ensures rising { IsRising self.now.pairs }
        ensures below { All (λ p. p.0 < 2 ^ 64) self.now.pairs }
        ensures fit { SumsFit R.Run self.now.pairs }
    {
        self.runs
    }

    /// The number of levels of nodes, leaves included: 0 without runs.
    pub fn depth(&self) -> u32
        ensures value { result ≡ self.now.depth }
        ensures bound { 0 < length self.now.pairs → 2 ^ result ≤ 2 * length self.now.pairs }
        ensures wide { length self.now.pairs ≤ 16 ^ result }
        ensures none { self.now.pairs ≡ [] → result ≡ 0 }
    {
        match &self.root {
            None => 0,
            Some(root) => root.depth(),
        }
    }

    /// The run at a label.
    pub fn locate<L: Ledger>(&self, label: u64, visits: &mut Steps<L>) -> &R
        requires { Contains (labels self.now.pairs) label }
        ensures run { Contains self.now.pairs (label, result.now) }
        ensures cost { visits.new ≡ visits.old + self.now.depth }
    {
        let Some(root) = &self.root else {
            unreachable!()
        };
        root.locate(label, visits)
    }

    /// The last run with a lower label, and that label; None where there is none. The label need not be that of a run.
    pub fn ahead<L: Ledger>(&self, label: u64, visits: &mut Steps<L>) -> Option<(u64, &R)>
        ensures some { IfSome result (λ p. EndsWith (lower self.now.pairs label) p.0 p.1.now) }
        ensures none { IfNone result (lower self.now.pairs label ≡ []) }
        ensures cost { IfSome result (λ _. visits.new ≡ visits.old + self.now.depth) }
        ensures idle { IfNone result (visits.new ≡ visits.old) }
    {
        match &self.root {
            Some(root) if root.first() < label => Some(root.last_up_to(label - 1, visits)),
            _ => None,
        }
    }

    /// The label of the run with the i-th character, from 0, that is visible in what is prepared, and the character's place in it.
    pub fn find_prepared<L: Ledger>(&self, i: u32, visits: &mut Steps<L>) -> (u64, u32)
        requires { i < total R.prepared self.now.pairs }
        ensures place { IsPlace R.prepared self.now.pairs i result.0 result.1 }
        ensures cost { visits.new ≡ visits.old + self.now.depth }
    {
        let Some(root) = &self.root else {
            unreachable!()
        };
        root.find(Count::Prepared, i, visits)
    }

    /// The i-th character, from 0, that is visible in what is prepared: its run, its place in it, and how many characters of the
    /// text are in runs with lower labels.
    pub fn find_visible<L: Ledger>(&self, i: u32, visits: &mut Steps<L>) -> Visible<'_, R>
        requires { i < total R.prepared self.now.pairs }
        ensures place { IsPlace R.prepared self.now.pairs i result.label result.place }
        ensures run { Contains self.now.pairs (result.label, result.run.now) }
        ensures before { result.before ≡ total R.effect (lower self.now.pairs result.label) }
        ensures cost { visits.new ≡ visits.old + self.now.depth }
    {
        let Some(root) = &self.root else {
            unreachable!()
        };
        root.visible(i, visits)
    }

    /// The label of the run with the i-th character of the text, from 0, and the character's place in it.
    pub fn find_effect<L: Ledger>(&self, i: u32, visits: &mut Steps<L>) -> (u64, u32)
        requires { i < total R.effect self.now.pairs }
        ensures place { IsPlace R.effect self.now.pairs i result.0 result.1 }
        ensures cost { visits.new ≡ visits.old + self.now.depth }
    {
        let Some(root) = &self.root else {
            unreachable!()
        };
        root.find(Count::Effect, i, visits)
    }

    /// How many characters of the text are in runs with lower labels. The label need not be that of a run.
    pub fn effect_before<L: Ledger>(&self, label: u64, visits: &mut Steps<L>) -> u32
        ensures effect { result ≡ total R.effect (lower self.now.pairs label) }
        ensures cost { 0 < label → visits.new ≡ visits.old + self.now.depth }
        ensures idle { label ≡ 0 → visits.new ≡ visits.old }
    {
        match &self.root {
            Some(root) if label > 0 => root.effect_up_to(label - 1, visits),
            _ => 0,
        }
    }

    /// The least greater label of a run with a character that is inserted in what is prepared; None where there is none.
    pub fn next_known<L: Ledger>(&self, label: u64, visits: &mut Steps<L>) -> Option<u64>
        ensures next { result ≡ first_label (counted_after R.known self.now.pairs label) }
        ensures cost { IfSome result (λ _. visits.new ≡ visits.old + self.now.depth) }
        ensures idle { IfNone result (visits.new ≡ visits.old) }
    {
        match &self.root {
            Some(root) if label < root.last_known() => Some(root.next_known(label, visits)),
            _ => None,
        }
    }

    /// Whether a label is free between this one and the next, or behind it where there is no next.
    pub fn has_room<L: Ledger>(&self, label: u64, visits: &mut Steps<L>) -> bool
        ensures room { IsTrue result ↔ HasRoom self.now.pairs label }
        ensures cost { visits.new ≡ visits.old + self.now.depth }
    {
        label < self.last_free(label, visits)
    }

    /// A free label behind the run at a label, for its second part, where it is cut at `at` of `size` characters. None where no label
    /// is free there. Which of the free ones it is isn't promised, and `size` need not be the run's: the two only choose among them.
    pub fn share_behind<L: Ledger>(
        &self,
        label: u64,
        at: u32,
        size: u32,
        visits: &mut Steps<L>,
    ) -> Option<u64>
        requires inside { at < size }
        ensures above { IfSome result (λ own. label < own) }
        ensures within { IfSome result (λ own. own < next_label (2 ^ 64) self.now.pairs label) }
        ensures none { IfNone result (HasRoom self.now.pairs label → ⊥) }
        ensures cost { visits.new ≡ visits.old + self.now.depth }
    {
        let most = self.last_free(label, visits);
        if label < most {
            Some(share(label, most, at, size))
        } else {
            None
        }
    }

    /// The greatest label that is free before the next run.
    fn last_free<L: Ledger>(&self, label: u64, visits: &mut Steps<L>) -> u64
        ensures free { result + 1 ≡ next_label (2 ^ 64) self.now.pairs label }
        ensures cost { visits.new ≡ visits.old + self.now.depth }
    {
        match &self.root {
            None => u64::MAX,
            Some(root) => root.last_free(label, u64::MAX, visits),
        }
    }
}

impl<R: Run + Drop> OrderTree<R> {
    /// Puts a run right behind a label, or before all runs at label 0, and answers the run's own label.
    pub fn insert_after<L: Ledger>(
        &mut self,
        label: u64,
        run: R,
        visits: &mut Steps<L>,
    ) -> Result<u64, NoMem>
        requires room { HasRoom self.old.pairs label }
        requires few { length self.old.pairs < 4294967295 }
        requires known { total R.known self.old.pairs + R.known run < 2 ^ 32 }
        requires prepared { total R.prepared self.old.pairs + R.prepared run < 2 ^ 32 }
        requires effect { total R.effect self.old.pairs + R.effect run < 2 ^ 32 }
        ensures pairs { IfOk result (λ own. self.new.pairs ≡ inserted self.old.pairs label own run) }
        ensures between { IfOk result (λ own. (label < own) × (own < next_label (2 ^ 64) self.old.pairs label)) }
        ensures err { OnErr result (self.new ≡ self.old) }
        ensures cost { visits.new ≡ visits.old + self.old.depth }
    {
        let mut spares = Spares::new(self.alloc, self.recent);
        let own = insert_run(&mut self.root, label, run, &mut spares, visits)?;
        self.runs += 1;
        self.recent = spares.recent();
        Ok(own)
    }

    /// Cuts the run of a label in two at a place inside it, and answers the second part's own label.
    pub fn split<L: Ledger>(
        &mut self,
        label: u64,
        at: u32,
        visits: &mut Steps<L>,
    ) -> Result<u64, NoMem>
        requires inside { (run : R) × Contains self.old.pairs (label, run) × (0 < at) × (at < length (R.chars run)) }
        requires room { HasRoom self.old.pairs label }
        requires few { length self.old.pairs < 4294967295 }
        ensures pairs { IfOk result (λ own. IsCut R.Run self.old.pairs self.new.pairs label at own) }
        ensures between { IfOk result (λ own. (label < own) × (own < next_label (2 ^ 64) self.old.pairs label)) }
        ensures err { OnErr result (self.new ≡ self.old) }
        ensures cost { visits.new ≡ visits.old + self.old.depth }
    {
        self.cut(label, at, None, visits)
    }

    /// Cuts the run of a label in two at a place inside it. The second part gets this label, one that is free behind the run.
    pub fn split_under<L: Ledger>(
        &mut self,
        label: u64,
        at: u32,
        own: u64,
        visits: &mut Steps<L>,
    ) -> Result<(), NoMem>
        requires inside { (run : R) × Contains self.old.pairs (label, run) × (0 < at) × (at < length (R.chars run)) }
        requires above { label < own }
        requires within { own < next_label (2 ^ 64) self.old.pairs label }
        requires few { length self.old.pairs < 4294967295 }
        ensures pairs { OnOk result (IsCut R.Run self.old.pairs self.new.pairs label at own) }
        ensures err { OnErr result (self.new ≡ self.old) }
        ensures cost { visits.new ≡ visits.old + self.old.depth }
    {
        let _own = self.cut(label, at, Some(own), visits)?;
        Ok(())
    }

    /// Cuts the run of a label in two at a place inside it, and answers the second part's own label: the one that is given, or one
    /// that is free behind the run.
    fn cut<L: Ledger>(
        &mut self,
        label: u64,
        at: u32,
        given: Option<u64>,
        visits: &mut Steps<L>,
    ) -> Result<u64, NoMem>
        requires inside { IsPlaced R.Run (Edit.Split at given) label self.old.pairs }
        requires free { IsFree (Edit.Split at given) (2 ^ 64) self.old.pairs label }
        requires few { length self.old.pairs < 4294967295 }
        ensures pairs { IfOk result (λ own. IsCut R.Run self.old.pairs self.new.pairs label at own) }
        ensures between { IfOk result (λ own. IsBetween (2 ^ 64) label own self.old.pairs) }
        ensures given { IfOk result (λ own. IfSome given (λ n. own ≡ n)) }
        ensures err { OnErr result (self.new ≡ self.old) }
        ensures cost { visits.new ≡ visits.old + self.old.depth }
    {
        let mut spares = Spares::new(self.alloc, self.recent);
        let edit = Edit::Split { at, given };
        let own = edit_root(&mut self.root, label, edit, &mut spares, visits)?;
        self.runs += 1;
        Ok(own)
    }

    /// Puts another run in the place of a label's. It takes no memory.
    pub fn change<L: Ledger>(&mut self, label: u64, run: R, visits: &mut Steps<L>)
        requires held { Contains (labels self.old.pairs) label }
        requires fit { SumsFit R.Run (changed self.old.pairs label run) }
        ensures pairs { self.new.pairs ≡ changed self.old.pairs label run }
        ensures depth { self.new.depth ≡ self.old.depth }
        ensures cost { visits.new ≡ visits.old + self.old.depth }
    {
        let Some(root) = &mut self.root else {
            unreachable!()
        };
        let _ = root.change(label, run, visits);
    }
}

impl<R: Run + Copy + Drop> OrderTree<R> {
    /// Tries a change on the run of a label. None, and nothing changes, where the run doesn't take it. It takes no memory.
    pub fn alter<A: Alteration<R>, L: Ledger>(
        &mut self,
        label: u64,
        alteration: &A,
        visits: &mut Steps<L>,
    ) -> Option<Altered<R>>
        requires held { Contains (labels self.old.pairs) label }
        requires suits { (run : R) → Contains self.old.pairs (label, run) → A.suits alteration.now run }
        requires fit { (run after : R) → Contains self.old.pairs (label, run) → A.makes alteration.now run (Some after) → SumsFit R.Run (changed self.old.pairs label after) }
        ensures before { IfSome result (λ a. Contains self.old.pairs (label, a.before)) }
        ensures after { IfSome result (λ a. A.makes alteration.now a.before (Some a.after)) }
        ensures pairs { IfSome result (λ a. self.new.pairs ≡ changed self.old.pairs label a.after) }
        ensures refused { IfNone result ((run : R) → Contains self.old.pairs (label, run) → A.makes alteration.now run None) }
        ensures none { IfNone result (self.new ≡ self.old) }
        ensures depth { self.new.depth ≡ self.old.depth }
        ensures cost { visits.new ≡ visits.old + self.old.depth }
    {
        let Some(root) = &mut self.root else {
            unreachable!()
        };
        let mut taken = None;
        root.alter(label, alteration, &mut taken, visits);
        match taken {
            Some(taken) => Some(taken.altered),
            None => None,
        }
    }
}

impl<R: Run + Copy> OrderTree<R> {
    /// Gives all runs new labels, spread evenly, and answers of each the old label, the new, and the run, in order.
    pub fn relabel<L: Ledger>(
        &mut self,
        visits: &mut Steps<L>,
    ) -> Result<Vec<(u64, (u64, R))>, NoMem>
        ensures runs { runs self.new.pairs ≡ runs self.old.pairs }
        ensures spread { IfOk result (λ _. AreSpread self.new.pairs) }
        ensures room { IfOk result (λ _. (label : ℕ) → (label ≡ 0) ⊎ Contains (labels self.new.pairs) label → HasRoom self.new.pairs label) }
        ensures given { IfOk result (λ given. given.items ≡ zip (labels self.old.pairs) self.new.pairs) }
        ensures depth { self.new.depth ≡ self.old.depth }
        ensures err { OnErr result (self.new ≡ self.old) }
        ensures onward { IfOk result (λ _. length self.old.pairs + 16 * visits.old ≤ 16 * visits.new) }
        ensures idle { OnErr result (visits.new ≡ visits.old) }
        ensures cost { visits.new ≤ visits.old + 2 * length self.old.pairs }
    {
        let mut given = Vec::with_capacity(self.alloc, self.runs as usize)?;
        let step = u64::MAX / (u64::from(self.runs) + 1);
        relabel_root(&mut self.root, step, &mut given, visits);
        self.recent = Recent::NONE;
        Ok(given)
    }

    /// Gives the runs of a part of the tree new labels, among them the run at this one, so that a label is free behind it. None where
    /// it finds no part to relabel: nothing changes then. Which part is taken, and how the new labels lie in it, is not promised, nor
    /// that a part is found where one could be.
    pub fn relabel_about<L: Ledger>(
        &mut self,
        label: u64,
        visits: &mut Steps<L>,
    ) -> Result<Option<Relabelled<R>>, NoMem>
        requires held { Contains (labels self.old.pairs) label }
        ensures runs { runs self.new.pairs ≡ runs self.old.pairs }
        ensures given { IfOk result (λ o. IfSome o (λ r. AreGivenIn self.old.pairs self.new.pairs r.given.items)) }
        ensures own { IfOk result (λ o. IfSome o (λ r. (run : R) × Contains r.given.items (label, (r.own, run)))) }
        ensures stands { IfOk result (λ o. IfSome o (λ r. (run : R) → Contains self.old.pairs (label, run) → Contains self.new.pairs (r.own, run))) }
        ensures room { IfOk result (λ o. IfSome o (λ r. HasRoom self.new.pairs r.own)) }
        ensures none { IfOk result (λ o. IfNone o (self.new ≡ self.old)) }
        ensures err { OnErr result (self.new ≡ self.old) }
        ensures depth { self.new.depth ≡ self.old.depth }
        ensures onward { visits.old + self.old.depth ≤ visits.new }
        ensures cost { visits.new ≤ visits.old + (self.old.depth + 4 * length self.old.pairs) }
    {
        let Some(root) = &mut self.root else {
            unreachable!()
        };
        match root.relabel_about(label, u64::MAX, self.alloc, visits) {
            Tried::Crowded(_) => Ok(None),
            Tried::NoMemory => Err(NoMem),
            Tried::Given(given) => {
                let own = own_of(given.as_slice(), label);
                self.recent = Recent::NONE;
                Ok(Some(Relabelled { own, given }))
            }
        }
    }
}
