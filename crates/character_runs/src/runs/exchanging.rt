//! Runs that give way to characters ahead of them.

ghost use Rattle.std.specs.Prelude.{◌≡◌, ◌+◌, ◌<◌, ◌≤◌, ◌^◌, ℕ, Bool, true, Some, IsSome, [], ◌∷◌, ◌++◌, IfOk, OnOk, OnErr, length, insert, Contains};
ghost use Rattle.ew_model.specs.declared.node.Node.{Node as Nodes};
ghost use Rattle.ew_model.specs.declared.node.Node.TheVariants as nodes;
ghost use Rattle.walker_record.specs.Stretches.{Stretch};
ghost use Rattle.fugue_place.specs.declared.neighbour.Place.TheVariants as places;
ghost use Rattle.order_tree.specs.Pairs.{HasRoom, lower, runs};
ghost use Rattle.character_runs.specs.declared.labels.Labels.{Labels as Table};
ghost use Rattle.character_runs.specs.Entering.{attached_by, IsNewChild, EntersAt, HasPlaceBehind};
ghost use Rattle.character_runs.specs.Labelled.{label_of, Sets};
ghost use Rattle.character_runs.specs.Laid.{Stands, AreLabelled, chars_in};
ghost use Rattle.character_runs.specs.Loose.{loose_in, loose_parted};
ghost use Rattle.character_runs.specs.Spots.{Comes};

use crate::labels::Labels;
use crate::runs::{Child, Runs};
use ew_model::NoMem;
use ew_model::node::Node;
use ew_model::steps::Steps;
use fugue_place::{Place, Siblings};
use std::sync::ledger::Ledger;
use walker_record::Record;

impl Runs {
    /// The run at a label goes to the place right behind it, and a new node's character, which has the label already, comes in
    /// its place.
    fn give_way<L: Ledger>(&mut self, label: u64, own: u64, run: Record, visits: &mut Steps<L>)
        requires laid { (t : Table) × AreLabelled self.old.tree.pairs t × Sets t self.old.labels run.from (Some label) }
        requires place { HasPlaceBehind self.old.tree.pairs label own }
        requires one { run.len ≡ 1 }
        requires some { run.from ≡ nodes.Root → ⊥ }
        requires new { (l n : ℕ) → Stands self.old.tree.pairs l n run.from → ⊥ }
        requires few { length (chars_in self.old.tree.pairs) < 2 ^ 25 }
        ensures laid { AreLabelled self.new.tree.pairs self.new.labels }
        ensures chars { chars_in self.new.tree.pairs ≡ insert (chars_in self.old.tree.pairs) (length (chars_in (lower self.old.tree.pairs label))) run }
        ensures lower { lower self.new.tree.pairs label ≡ lower self.old.tree.pairs label }
        ensures runs { (p : HasPlaceBehind self.old.tree.pairs label own) → runs self.new.tree.pairs ≡ runs p.front ++ run ∷ p.run ∷ runs p.back }
    {
        self.facts();
        let moved = self.record(label, visits);
        move_label(&mut self.labels, &moved, own);
        self.tree.change(own, moved, visits);
        self.tree.change(label, run, visits);
    }

    /// Puts a new child's character ahead of the run of a label, behind which one is free. Answers its index in the text. After
    /// an error for want of memory the characters and the children are the same.
    fn prepend<L: Ledger>(
        &mut self,
        label: u64,
        siblings: &mut Siblings,
        child: &Child,
        visits: &mut Steps<L>,
    ) -> Result<u32, NoMem>
        requires laid { AreLabelled self.old.tree.pairs self.old.labels }
        requires new { IsNewChild (chars_in self.old.tree.pairs) siblings.old child.now }
        requires held { (r : Stretch) × Contains self.old.tree.pairs (label, r) × (0 < r.len) }
        requires room { HasRoom self.old.tree.pairs label }
        requires few { length self.old.tree.pairs < 4294967295 }
        ensures laid { AreLabelled self.new.tree.pairs self.new.labels }
        ensures enters { IfOk result (EntersAt (chars_in self.old.tree.pairs) (chars_in self.new.tree.pairs) child.now (length (chars_in (lower self.old.tree.pairs label)))) }
        ensures attached { OnOk result (siblings.new ≡ siblings.old ++ attached_by child.now ∷ []) }
        ensures err { OnErr result (chars_in self.new.tree.pairs ≡ chars_in self.old.tree.pairs) }
        ensures detached { OnErr result (siblings.new ≡ siblings.old) }
        ensures told { OnOk result ((among : Nodes → Bool) → among (nodes.Event child.now.position) ≡ true → loose_in among (runs self.new.tree.pairs) ≤ loose_parted among (runs self.old.tree.pairs) (length (lower self.old.tree.pairs label))) }
        ensures loose { OnErr result ((among : Nodes → Bool) → loose_in among (runs self.new.tree.pairs) ≤ loose_in among (runs self.old.tree.pairs) + 1) }
    {
        self.facts();
        let own = self.open_run(label, child.empty_run(), visits)?;
        self.facts();
        child.enlist(label, &mut self.labels, siblings)?;
        self.give_way(label, own, child.run(), visits);
        Ok(self.shown_before(label, visits))
    }

    /// Puts a new child's character right ahead of that of a node, or before all where it has none. Answers its index in the
    /// text. After an error for want of memory the characters and the children are the same.
    pub fn insert_ahead<L: Ledger>(
        &mut self,
        node: Node,
        siblings: &mut Siblings,
        child: &Child,
        visits: &mut Steps<L>,
    ) -> Result<u32, NoMem>
        requires laid { AreLabelled self.old.tree.pairs self.old.labels }
        requires new { IsNewChild (chars_in self.old.tree.pairs) siblings.old child.now }
        ensures laid { AreLabelled self.new.tree.pairs self.new.labels }
        ensures comes { IfOk result (Comes (chars_in self.old.tree.pairs) (chars_in self.new.tree.pairs) (places.Before node) child.now.position) }
        ensures attached { OnOk result (siblings.new ≡ siblings.old ++ attached_by child.now ∷ []) }
        ensures err { OnErr result (chars_in self.new.tree.pairs ≡ chars_in self.old.tree.pairs) }
        ensures detached { OnErr result (siblings.new ≡ siblings.old) }
        ensures told { OnOk result ((among : Nodes → Bool) → among (nodes.Event child.now.position) ≡ true → loose_in among (runs self.new.tree.pairs) ≤ loose_in among (runs self.old.tree.pairs)) }
        ensures loose { OnErr result ((among : Nodes → Bool) → loose_in among (runs self.new.tree.pairs) ≤ loose_in among (runs self.old.tree.pairs) + 2) }
    {
        let begun = self.cut(node, visits)?;
        let room = self.make_room_at(begun, node, visits)?;
        self.facts();
        match room {
            Some(spot) => self.prepend(spot.label, siblings, child, visits),
            None => self.insert_run(0, siblings, child, visits),
        }
    }
}

impl Runs {
    /// Puts a new child's character at its place. Answers its index in the text. After an error for want of memory the characters
    /// and the children are the same.
    pub fn insert<L: Ledger>(
        &mut self,
        siblings: &mut Siblings,
        child: &Child,
        place: Place,
        visits: &mut Steps<L>,
    ) -> Result<u32, NoMem>
        requires laid { AreLabelled self.old.tree.pairs self.old.labels }
        requires new { IsNewChild (chars_in self.old.tree.pairs) siblings.old child.now }
        ensures laid { AreLabelled self.new.tree.pairs self.new.labels }
        ensures comes { IfOk result (Comes (chars_in self.old.tree.pairs) (chars_in self.new.tree.pairs) place child.now.position) }
        ensures attached { OnOk result (siblings.new ≡ siblings.old ++ attached_by child.now ∷ []) }
        ensures err { OnErr result (chars_in self.new.tree.pairs ≡ chars_in self.old.tree.pairs) }
        ensures detached { OnErr result (siblings.new ≡ siblings.old) }
        ensures told { OnOk result ((among : Nodes → Bool) → among (nodes.Event child.now.position) ≡ true → loose_in among (runs self.new.tree.pairs) ≤ loose_in among (runs self.old.tree.pairs)) }
        ensures loose { OnErr result ((among : Nodes → Bool) → loose_in among (runs self.new.tree.pairs) ≤ loose_in among (runs self.old.tree.pairs) + 2) }
    {
        match place {
            Place::After(node) => self.insert_behind(node, siblings, child, visits),
            Place::Before(node) => self.insert_ahead(node, siblings, child, visits),
        }
    }
}

/// Gives the first node of a run, which has a label, another.
fn move_label(labels: &mut Labels, run: &Record, label: u64)
    requires { IsSome (label_of labels.old run.now.from) }
    ensures { Sets labels.old labels.new run.now.from (Some label) }
{
    labels.set(run.from, label);
}
