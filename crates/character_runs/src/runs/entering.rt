//! Characters of new children that come in.

ghost use Rattle.std.specs.Prelude.{◌≡◌, ◌+◌, ◌<◌, ◌≤◌, ◌^◌, Bool, true, [], ◌∷◌, ◌++◌, IfOk, IfSome, Some, OnOk, OnErr, length, Contains};
ghost use Rattle.ew_model.specs.declared.node.Node.{Node as Nodes};
ghost use Rattle.ew_model.specs.declared.node.Node.TheVariants as nodes;
ghost use Rattle.walker_record.specs.Stretches.{effect_of, is_continued, joined_of};
ghost use Rattle.fugue_place.specs.declared.neighbour.Place.TheVariants as place;
ghost use Rattle.order_tree.specs.Pairs.{HasRoom, changed, total, lower, up_to, runs};
ghost use Rattle.character_runs.specs.Cursors.{IsCursor, settled};
ghost use Rattle.character_runs.specs.Entering.{run_of, attached_by, IsNewChild, EntersAt};
ghost use Rattle.character_runs.specs.Laid.{Stands, AreLabelled, chars_in};
ghost use Rattle.character_runs.specs.Loose.{loose_in, loose_parted};
ghost use Rattle.character_runs.specs.Spots.{Comes};

use crate::cursor::Cursor;
use crate::runs::{Child, Counted, Runs, Spot};
use ew_model::NoMem;
use ew_model::node::Node;
use ew_model::steps::Steps;
use fugue_place::Siblings;
use std::sync::ledger::Ledger;
use walker_record::Record;

impl Runs {
    /// How many characters of the text are in runs with lower labels.
    pub fn shown_before<L: Ledger>(&self, label: u64, visits: &mut Steps<L>) -> u32
        ensures { result ≡ total effect_of (lower self.now.tree.pairs label) }
    {
        self.tree.effect_before(label, visits)
    }

    /// Puts a new child's character behind the run of a label, behind which one is free, or before all at label 0. Answers its
    /// index in the text. After an error for want of memory the characters and the children are the same.
    pub fn insert_run<L: Ledger>(
        &mut self,
        label: u64,
        siblings: &mut Siblings,
        child: &Child,
        visits: &mut Steps<L>,
    ) -> Result<u32, NoMem>
        requires laid { AreLabelled self.old.tree.pairs self.old.labels }
        requires new { IsNewChild (chars_in self.old.tree.pairs) siblings.old child.now }
        requires room { HasRoom self.old.tree.pairs label }
        requires few { length self.old.tree.pairs < 4294967295 }
        ensures laid { AreLabelled self.new.tree.pairs self.new.labels }
        ensures enters { IfOk result (EntersAt (chars_in self.old.tree.pairs) (chars_in self.new.tree.pairs) child.now (length (chars_in (up_to self.old.tree.pairs label)))) }
        ensures attached { OnOk result (siblings.new ≡ siblings.old ++ attached_by child.now ∷ []) }
        ensures err { OnErr result (chars_in self.new.tree.pairs ≡ chars_in self.old.tree.pairs) }
        ensures detached { OnErr result (siblings.new ≡ siblings.old) }
        ensures told { OnOk result ((among : Nodes → Bool) → among (nodes.Event child.now.position) ≡ true → loose_in among (runs self.new.tree.pairs) ≤ loose_parted among (runs self.old.tree.pairs) (length (up_to self.old.tree.pairs label))) }
        ensures loose { OnErr result ((among : Nodes → Bool) → loose_in among (runs self.new.tree.pairs) ≤ loose_in among (runs self.old.tree.pairs) + 1) }
    {
        self.facts();
        let own = self.open_run(label, child.empty_run(), visits)?;
        self.facts();
        child.enlist(own, &mut self.labels, siblings)?;
        self.fill(own, child.run(), visits);
        Ok(self.shown_before(own, visits))
    }

    /// Has a cursor's run stand under its label as the cursor has it, and so what was deleted from its end.
    pub fn take_in<L: Ledger>(&mut self, cursor: &Cursor, visits: &mut Steps<L>)
        requires at { IsCursor (settled self.old.tree.pairs (Some cursor.now)) cursor.now }
        requires few { length (chars_in (settled self.old.tree.pairs (Some cursor.now))) ≤ 2 ^ 25 }
        requires own { length (chars_in self.old.tree.pairs) ≤ 2 ^ 25 }
        ensures pairs { self.new.tree.pairs ≡ settled self.old.tree.pairs (Some cursor.now) }
        ensures labels { self.new.labels ≡ self.old.labels }
    {
        self.facts();
        if let Some(struck) = &cursor.struck {
            self.tree.change(struck.label, struck.run, visits);
        }
        self.tree.change(cursor.label, cursor.run, visits);
    }

    /// Puts a new child's character behind those of a run that it goes on. Answers its index in the text. After an error for
    /// want of memory nothing has changed.
    fn lengthen<L: Ledger>(
        &mut self,
        label: u64,
        front: &Record,
        before: u32,
        siblings: &mut Siblings,
        child: &Child,
        visits: &mut Steps<L>,
    ) -> Result<u32, NoMem>
        requires laid { AreLabelled self.old.tree.pairs self.old.labels }
        requires new { IsNewChild (chars_in self.old.tree.pairs) siblings.old child.now }
        requires held { Contains self.old.tree.pairs (label, front.now) }
        requires some { 0 < front.now.len }
        requires before { before ≡ total effect_of (lower self.old.tree.pairs label) }
        requires goes_on { is_continued front.now (run_of child.now 1) ≡ true }
        ensures laid { AreLabelled self.new.tree.pairs self.new.labels }
        ensures enters { IfOk result (EntersAt (chars_in self.old.tree.pairs) (chars_in self.new.tree.pairs) child.now (length (chars_in (up_to self.old.tree.pairs label)))) }
        ensures pairs { OnOk result (self.new.tree.pairs ≡ changed self.old.tree.pairs label (joined_of front.now (run_of child.now 1))) }
        ensures attached { OnOk result (siblings.new ≡ siblings.old ++ attached_by child.now ∷ []) }
        ensures err { OnErr result (self.new.tree ≡ self.old.tree) }
        ensures detached { OnErr result (siblings.new ≡ siblings.old) }
        ensures told { OnOk result ((among : Nodes → Bool) → among (nodes.Event child.now.position) ≡ true → loose_in among (runs self.new.tree.pairs) ≤ loose_parted among (runs self.old.tree.pairs) (length (up_to self.old.tree.pairs label))) }
    {
        child.attach(siblings)?;
        self.facts();
        let joined = front.join(&child.run());
        self.tree.change(label, joined, visits);
        let at = before + front.len;
        Ok(at)
    }

    /// A node's character, where it is the last of its run and a new child's goes on with that run.
    fn going_on<L: Ledger>(
        &self,
        node: Node,
        child: &Child,
        visits: &mut Steps<L>,
    ) -> Option<Counted>
        requires { AreLabelled self.now.tree.pairs self.now.labels }
        ensures some { IfSome result (λ f. Stands self.now.tree.pairs f.spot.label f.spot.offset node) }
        ensures held { IfSome result (λ f. Contains self.now.tree.pairs (f.spot.label, f.run)) }
        ensures last { IfSome result (λ f. f.run.len ≡ f.spot.offset + 1) }
        ensures before { IfSome result (λ f. f.before ≡ total effect_of (lower self.now.tree.pairs f.spot.label)) }
        ensures goes_on { IfSome result (λ f. is_continued f.run (run_of child.now 1) ≡ true) }
    {
        let found = self.run_of(node, visits)?;
        let is_last = found.run.len - found.offset == 1;
        let goes_on = found.run.joinable(&child.run());
        if is_last && goes_on {
            Some(Counted {
                spot: Spot {
                    label: found.label,
                    offset: found.offset,
                },
                run: found.run,
                before: self.shown_before(found.label, visits),
            })
        } else {
            None
        }
    }

    /// Puts a new child's character right behind that of a node, or before all where it has none, as a run of its own. Answers
    /// its index in the text. After an error for want of memory the characters and the children are the same.
    fn insert_apart<L: Ledger>(
        &mut self,
        node: Node,
        siblings: &mut Siblings,
        child: &Child,
        visits: &mut Steps<L>,
    ) -> Result<u32, NoMem>
        requires laid { AreLabelled self.old.tree.pairs self.old.labels }
        requires new { IsNewChild (chars_in self.old.tree.pairs) siblings.old child.now }
        ensures laid { AreLabelled self.new.tree.pairs self.new.labels }
        ensures comes { IfOk result (Comes (chars_in self.old.tree.pairs) (chars_in self.new.tree.pairs) (place.After node) child.now.position) }
        ensures attached { OnOk result (siblings.new ≡ siblings.old ++ attached_by child.now ∷ []) }
        ensures err { OnErr result (chars_in self.new.tree.pairs ≡ chars_in self.old.tree.pairs) }
        ensures detached { OnErr result (siblings.new ≡ siblings.old) }
        ensures told { OnOk result ((among : Nodes → Bool) → among (nodes.Event child.now.position) ≡ true → loose_in among (runs self.new.tree.pairs) ≤ loose_in among (runs self.old.tree.pairs)) }
        ensures loose { OnErr result ((among : Nodes → Bool) → loose_in among (runs self.new.tree.pairs) ≤ loose_in among (runs self.old.tree.pairs) + 2) }
    {
        let ended = self.cut_behind(node, visits)?;
        let room = self.make_room_at(ended, node, visits)?;
        self.facts();
        match room {
            Some(spot) => self.insert_run(spot.label, siblings, child, visits),
            None => self.insert_run(0, siblings, child, visits),
        }
    }

    /// Puts a new child's character right behind that of a node, or before all where it has none. Answers its index in the text.
    /// After an error for want of memory the characters and the children are the same.
    pub fn insert_behind<L: Ledger>(
        &mut self,
        node: Node,
        siblings: &mut Siblings,
        child: &Child,
        visits: &mut Steps<L>,
    ) -> Result<u32, NoMem>
        requires laid { AreLabelled self.old.tree.pairs self.old.labels }
        requires new { IsNewChild (chars_in self.old.tree.pairs) siblings.old child.now }
        ensures laid { AreLabelled self.new.tree.pairs self.new.labels }
        ensures comes { IfOk result (Comes (chars_in self.old.tree.pairs) (chars_in self.new.tree.pairs) (place.After node) child.now.position) }
        ensures attached { OnOk result (siblings.new ≡ siblings.old ++ attached_by child.now ∷ []) }
        ensures err { OnErr result (chars_in self.new.tree.pairs ≡ chars_in self.old.tree.pairs) }
        ensures detached { OnErr result (siblings.new ≡ siblings.old) }
        ensures told { OnOk result ((among : Nodes → Bool) → among (nodes.Event child.now.position) ≡ true → loose_in among (runs self.new.tree.pairs) ≤ loose_in among (runs self.old.tree.pairs)) }
        ensures loose { OnErr result ((among : Nodes → Bool) → loose_in among (runs self.new.tree.pairs) ≤ loose_in among (runs self.old.tree.pairs) + 2) }
    {
        self.facts();
        match self.going_on(node, child, visits) {
            Some(found) => {
                let label = found.spot.label;
                self.lengthen(label, &found.run, found.before, siblings, child, visits)
            }
            None => self.insert_apart(node, siblings, child, visits),
        }
    }
}
