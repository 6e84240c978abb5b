//! The characters that a state keeps, in order.

ghost use Rattle.std.specs.Prelude.{◌≡◌, ℕ, ◌+◌, ◌-◌, ◌*◌, ◌<◌, ◌≤◌, ◌^◌, Bool, List, true, false, ◌∷◌, [], ◌++◌, length, map, Contains, IfSome, IfNone, IfOk, IsTrue, OnOk, OnErr, Some};
ghost use Rattle.std.specs.List.{AllByRecursion, list_any};
ghost use Rattle.ew_model.specs.declared.node.Node.{Node as Nodes};
ghost use Rattle.ew_model.specs.declared.node.Node.TheVariants as nodes;
ghost use Rattle.fugue_place.specs.declared.neighbour.Place.TheVariants as places;
ghost use Rattle.walker_record.specs.Stretches.{Stretch, HasNumbers, node_on, is_continued, prepared_of, effect_of};
ghost use Rattle.fugue_place.specs.Attachments.{is_attached, is_there, has_id, node_eq};
ghost use Rattle.fugue_place.specs.Heirs.{AreNew, HaveHeirs};
ghost use Rattle.order_tree.specs.Pairs.{IsPlace, changed, lower, total};
ghost use Rattle.character_runs.specs.declared.change.Change.TheVariants as changes;
ghost use Rattle.character_runs.specs.Cursors.{IsCursor, MayBeCursor, GaveEnd, SettleSame, last_of, shorter, with_end, settled};
ghost use Rattle.character_runs.specs.States.{is_of, knows, sees, visible_in, shown_in, base_records, changed_at, HasRoom};
ghost use Rattle.character_runs.specs.Deleting.{struck_each, AreDeletions, AreAllAmong};
ghost use Rattle.character_runs.specs.Entering.{attached_by, run_of, IsNewChild};
ghost use Rattle.character_runs.specs.EventPositions.{event_positions};
ghost use Rattle.character_runs.specs.Laid.{AreLabelled, IsOffset, chars_in, records_in};
ghost use Rattle.character_runs.specs.Loose.{loose_in, is_one, AreAmong};
ghost use Rattle.character_runs.specs.Replacing.{ArePart, LiesWithin, node_by, changed_in};
ghost use Rattle.character_runs.specs.Resting.{rested};
ghost use Rattle.character_runs.specs.Spots.{IsSlot, IsDeletion, Comes, ComeEach};

use crate::change::{Change, Kind, Positions};
use crate::cursor::{Cursor, Struck};
use crate::runs::{Child, Counted, Known, Runs};
use crate::slot::{KnownRights, Slot};
use ew_model::NoMem;
use ew_model::id::Id;
use ew_model::node::Node;
use ew_model::steps::Steps;
use ew_model::text_op::TextOp;
use fugue_place::{Place, Siblings};
use std::alloc::Global;
use std::marker::{Brand, Model};
use std::sync::ledger::{Blank, Ledger};

/// The characters in order, each with its states. Contracts see a record for each of them, and the runs that they are kept in.
#[derive(Drop)]
pub struct Characters {
    runs: Runs,
    visible: u32,
    shown: u32,
    cursor: Option<Cursor>,
    /// Whether characters were typed or deleted at the cursor that the runs don't tell of.
    pending: bool,
}

impl Model for Characters {
    ghost use Rattle.character_runs.specs.Cursors.{AreKept, settled};
    ghost use Rattle.character_runs.specs.Laid.{InRuns, in_runs};

    ghost Value = { InRuns };

    ghost view = { λ s. in_runs (settled s.runs.tree.pairs s.cursor) };

    ghost invariant = { λ s. AreKept s.runs.tree.pairs s.runs.labels s.visible s.shown s.cursor s.pending };
}

/// The deletion of a character, and what that does to the text.
#[derive(Clone, Copy)]
pub struct Deletion {
    pub node: Node,
    pub op: TextOp,
}

/// Deletions of characters one after another, the node of each next to that of the one before.
#[derive(Clone, Copy)]
pub struct Deletions {
    /// The node of the first.
    pub first: Node,
    /// How many.
    pub count: u32,
    /// The index of each in the text when it is deleted, which is the same for all. None where they aren't in the text.
    pub index: Option<u32>,
}

impl Characters {
    /// The characters of a base.
    pub fn base(alloc: Global, len: u32) -> Result<Characters, NoMem>
        requires { len ≤ 2 ^ 24 }
        ensures records { IfOk result (λ cs. cs.records ≡ base_records len) }
        ensures few { IfOk result (λ cs. length cs.runs ≤ 1) }
    {
        base_by::<Brand>(alloc, len, Blank::new(1))
    }

    /// How many are visible in what is prepared.
    pub fn visible(&self) -> u32
        ensures { result ≡ visible_in self.now.records }
    {
        self.visible
    }

    /// How many are in the text.
    pub fn shown(&self) -> u32
        ensures { result ≡ shown_in self.now.records }
    {
        self.shown
    }

    /// How many runs they are kept in: at most two for each of some characters, and those that stand apart for none.
    pub fn runs(&self) -> u32
        ensures value { result ≡ length self.now.runs }
        ensures kept { self.now.records ≡ records_in self.now.runs }
        ensures few { (among : List Nodes) → result ≤ loose_in (is_one node_eq among) self.now.runs + 2 * length among }
    {
        self.runs.count()
    }

    /// What a new character hangs on at an index of what is prepared, where it is told which nodes have right children. None
    /// where the index is past the end.
    pub fn slot_at<R: KnownRights>(&mut self, rights: &R, at: u32) -> Option<Slot>
        ensures some { IfSome result (IsSlot (R.has_right rights.now) self.old.records at) }
        ensures none { IfNone result (visible_in self.old.records < at) }
        ensures same { self.new ≡ self.old }
    {
        if at > self.visible {
            None
        } else if at == 0 {
            Some(self.first_slot::<Brand, R>(rights, Blank::new(1)))
        } else {
            Some(self.slot_behind::<Brand, R>(rights, at - 1, Blank::new(1)))
        }
    }

    /// The deletion of the character at an index of what is prepared. None where no character is there.
    pub fn deletion_at(&mut self, at: u32) -> Option<Deletion>
        ensures some { IfSome result (IsDeletion self.old.records at) }
        ensures none { IfNone result (visible_in self.old.records ≤ at) }
        ensures same { self.new ≡ self.old }
    {
        if at < self.visible {
            Some(self.deletion_by::<Brand>(at, Blank::new(1)))
        } else {
            None
        }
    }

    /// The deletions of at most so many characters, one after another at an index of what is prepared. None where no character is
    /// there.
    pub fn deletions_at(&mut self, at: u32, most: u32) -> Option<Deletions>
        ensures some { IfSome result (AreDeletions self.old.records at) }
        ensures most { IfSome result (λ ds. ds.count ≤ most) }
        ensures one { IfSome result (λ ds. 0 < most → 0 < ds.count) }
        ensures numbers { IfSome result (λ ds. HasNumbers ds.first ds.count) }
        ensures none { IfNone result (visible_in self.old.records ≤ at) }
        ensures same { self.new ≡ self.old }
    {
        if at < self.visible {
            Some(self.deletions_by::<Brand>(at, most, Blank::new(1)))
        } else {
            None
        }
    }

    /// Deletes so many characters from a node's on, one after another. Answers whether that was done. It is where they are of one run
    /// and visible in what is prepared; where not, nothing has changed.
    pub fn delete_run(&mut self, first: Node, count: u32) -> Result<bool, NoMem>
        requires { AllByRecursion HasRoom self.old.records }
        ensures yes { IfOk result (λ done. IsTrue done → self.new.records ≡ struck_each self.old.records first count) }
        ensures visible { IfOk result (λ done. IsTrue done → (k : ℕ) → k < count → sees self.old.records (node_on first k) ≡ true) }
        ensures no { IfOk result (λ done. done ≡ false → self.new ≡ self.old) }
        ensures err { OnErr result (self.new.records ≡ self.old.records) }
        ensures known { (v : Nodes) → knows self.new.records v ≡ knows self.old.records v }
        ensures loose { (among : Nodes → Bool) → loose_in among self.new.runs ≤ loose_in among self.old.runs + 2 }
        ensures told { (among : Nodes → Bool) → AreAllAmong among first count → loose_in among self.new.runs ≤ loose_in among self.old.runs }
    {
        self.delete_run_by::<Brand>(first, count, Blank::new(1))
    }

    /// Changes the states of a character. Answers whether it is inserted, before and after.
    pub fn change(&mut self, node: Node, change: Change) -> Result<Known, NoMem>
        requires { AllByRecursion HasRoom self.old.records }
        ensures ok { OnOk result (self.new.records ≡ map (changed_at node change) self.old.records) }
        ensures was { IfOk result (λ k. k.was ≡ knows self.old.records node) }
        ensures is { IfOk result (λ k. k.is ≡ knows self.new.records node) }
        ensures err { OnErr result (self.new.records ≡ self.old.records) }
        ensures loose { (among : Nodes → Bool) → loose_in among self.new.runs ≤ loose_in among self.old.runs + 2 }
        ensures told { (among : Nodes → Bool) → among node ≡ true → loose_in among self.new.runs ≤ loose_in among self.old.runs }
    {
        self.change_by::<Brand>(node, change, Blank::new(1))
    }

    /// Changes the states of the run of the character of a kind with a number, where all of its characters are of that kind, and
    /// their numbers within these. Answers the numbers of those characters, and whether they are inserted before and after. None,
    /// and nothing changes, where there is no such run.
    pub fn change_run(
        &mut self,
        kind: Kind,
        number: u32,
        within: Positions,
        change: Change,
    ) -> Option<(Positions, Known)>
        requires { AllByRecursion HasRoom self.old.records }
        ensures part { IfSome result (λ r. ArePart number r.0 within) }
        ensures told { IfSome result (λ r. (n : ℕ) → r.0.from ≤ n → n < r.0.to → list_any (is_of (node_by kind n)) self.old.records ≡ true) }
        ensures records { IfSome result (λ r. self.new.records ≡ map (changed_in kind r.0 change) self.old.records) }
        ensures was { IfSome result (λ r. (n : ℕ) → r.0.from ≤ n → n < r.0.to → knows self.old.records (node_by kind n) ≡ r.1.was) }
        ensures is { IfSome result (λ r. (n : ℕ) → r.0.from ≤ n → n < r.0.to → knows self.new.records (node_by kind n) ≡ r.1.is) }
        ensures none { IfNone result (self.new ≡ self.old) }
        ensures refused { IfNone result ((run : Stretch) (n : ℕ) → Contains self.old.runs run → IsOffset run (node_by kind number) n → LiesWithin kind run within → ⊥) }
        ensures loose { (among : Nodes → Bool) → loose_in among self.new.runs ≡ loose_in among self.old.runs }
    {
        self.change_run_by::<Brand>(kind, number, within, change, Blank::new(1))
    }

    /// Puts the character of a new event at a place, and attaches its node. Answers its index in the text.
    pub fn insert(
        &mut self,
        siblings: &mut Siblings,
        slot: Slot,
        id: Id,
        position: u32,
        place: Place,
    ) -> Result<u32, NoMem>
        requires parent { is_there siblings.old slot.parent ≡ true }
        requires unused { has_id siblings.old id ≡ false }
        requires new { is_attached siblings.old (nodes.Event position) ≡ false }
        requires unrecorded { list_any (is_of (nodes.Event position)) self.old.records ≡ false }
        requires room { length self.old.records < 2 ^ 25 }
        ensures comes { IfOk result (Comes self.old.records self.new.records place position) }
        ensures attached { OnOk result (siblings.new ≡ siblings.old ++ record { parent = slot.parent; side = slot.side; id = id; node = nodes.Event position } ∷ []) }
        ensures err { OnErr result (self.new.records ≡ self.old.records) }
        ensures detached { OnErr result (siblings.new ≡ siblings.old) }
        ensures told { OnOk result ((among : Nodes → Bool) → among (nodes.Event position) ≡ true → loose_in among self.new.runs ≤ loose_in among self.old.runs) }
        ensures loose { OnErr result ((among : Nodes → Bool) → loose_in among self.new.runs ≤ loose_in among self.old.runs + 2) }
    {
        let child = Child { slot, id, position };
        self.insert_by::<Brand>(siblings, &child, place, Blank::new(1))
    }

    /// Attaches the nodes of so many new events behind one, each on the right of that of the event before it, and puts their characters
    /// right behind that one's, the first at an index of what is prepared. Answers its index in the text. None where the cursor
    /// isn't there, or the siblings don't take the nodes in one go (`attach_heirs`): then nothing has changed.
    pub fn type_on(
        &mut self,
        siblings: &mut Siblings,
        newest: u32,
        count: u32,
        at: u32,
    ) -> Option<u32>
        requires few { newest + count < 2 ^ 32 }
        requires new { AreNew siblings.old newest count }
        requires unrecorded { (k : ℕ) → k < count → list_any (is_of (nodes.Event (newest + k + 1))) self.old.records ≡ false }
        requires room { length self.old.records + count ≤ 2 ^ 25 }
        ensures come { IfSome result (ComeEach self.old.records self.new.records newest at count) }
        ensures few { IfSome result (λ first. first ≤ 2 ^ 25) }
        ensures attached { IfSome result (λ first. HaveHeirs siblings.old siblings.new newest count) }
        ensures told { IfSome result (λ first. (among : Nodes → Bool) → AreAmong among newest count → loose_in among self.new.runs ≤ loose_in among self.old.runs) }
        ensures same { IfNone result (self.new ≡ self.old) }
        ensures detached { IfNone result (siblings.new ≡ siblings.old) }
    {
        self.type_on_by::<Brand>(siblings, newest, count, at, Blank::new(1))
    }

    /// Has the states of all characters as they are where no event is prepared.
    pub fn rest(&mut self)
        ensures records { self.new.records ≡ map rested self.old.records }
        ensures loose { (among : Nodes → Bool) → loose_in among self.new.runs ≡ loose_in among self.old.runs }
    {
        self.rest_by::<Brand>(Blank::new(1));
    }

    /// The positions of the events whose characters these are, in order.
    pub fn event_positions(&mut self) -> Result<Vec<u32>, NoMem>
        ensures positions { IfOk result (λ ps. ps.items ≡ event_positions self.old.records) }
        ensures same { self.new ≡ self.old }
    {
        self.event_positions_by::<Brand>(Blank::new(1))
    }
}

fn base_by<L: Ledger>(alloc: Global, len: u32, blank: Blank) -> Result<Characters, NoMem>
    requires name { blank.name ≡ L.name }
    requires parts { blank.parts ≡ L.parts }
    requires some { 0 < blank.parts }
    requires short { len ≤ 2 ^ 24 }
    ensures records { IfOk result (λ cs. cs.records ≡ base_records len) }
    ensures few { IfOk result (λ cs. length cs.runs ≤ 1) }
{
    let mut visits: Steps<L> = Steps::new(blank);
    Ok(Characters {
        runs: Runs::base(alloc, len, &mut visits)?,
        visible: len,
        shown: len,
        cursor: None,
        pending: false,
    })
}

impl Characters {
    fn first_slot<L: Ledger, R: KnownRights>(&mut self, rights: &R, blank: Blank) -> Slot
        requires name { blank.name ≡ L.name }
        requires parts { blank.parts ≡ L.parts }
        requires some { 0 < blank.parts }
        ensures slot { IsSlot (R.has_right rights.now) self.old.records 0 result }
        ensures same { self.new ≡ self.old }
    {
        if !rights.has_known_right(Node::Root) {
            return Slot::right_of(Node::Root);
        }
        let mut visits: Steps<L> = Steps::new(blank);
        settle(&mut self.runs, &self.cursor, &mut self.pending, &mut visits);
        self.runs.facts();
        Slot::behind(Node::Root, self.runs.first_known(0, &mut visits))
    }

    fn slot_behind<L: Ledger, R: KnownRights>(&mut self, rights: &R, at: u32, blank: Blank) -> Slot
        requires name { blank.name ≡ L.name }
        requires parts { blank.parts ≡ L.parts }
        requires some { 0 < blank.parts }
        requires within { at < visible_in self.old.records }
        ensures slot { IsSlot (R.has_right rights.now) self.old.records (at + 1) result }
        ensures same { self.new ≡ self.old }
    {
        let mut visits: Steps<L> = Steps::new(blank);
        let found = find(
            &mut self.runs,
            &mut self.cursor,
            &mut self.pending,
            at,
            &mut visits,
        );
        self.runs.facts();
        let left = found.node();
        if !rights.has_known_right(left) {
            return Slot::right_of(left);
        }
        settle(&mut self.runs, &self.cursor, &mut self.pending, &mut visits);
        Slot::behind(left, self.runs.known_behind(&found, &mut visits))
    }

    fn deletion_by<L: Ledger>(&mut self, at: u32, blank: Blank) -> Deletion
        requires name { blank.name ≡ L.name }
        requires parts { blank.parts ≡ L.parts }
        requires some { 0 < blank.parts }
        requires within { at < visible_in self.old.records }
        ensures deletion { IsDeletion self.old.records at result }
        ensures same { self.new ≡ self.old }
    {
        let mut visits: Steps<L> = Steps::new(blank);
        self.runs.facts();
        let found = find(
            &mut self.runs,
            &mut self.cursor,
            &mut self.pending,
            at,
            &mut visits,
        );
        Deletion {
            node: found.node(),
            op: found.deletion(),
        }
    }

    fn deletions_by<L: Ledger>(&mut self, at: u32, most: u32, blank: Blank) -> Deletions
        requires name { blank.name ≡ L.name }
        requires parts { blank.parts ≡ L.parts }
        requires some { 0 < blank.parts }
        requires within { at < visible_in self.old.records }
        ensures deletions { AreDeletions self.old.records at result }
        ensures most { result.count ≤ most }
        ensures one { 0 < most → 0 < result.count }
        ensures numbers { HasNumbers result.first result.count }
        ensures same { self.new ≡ self.old }
    {
        let mut visits: Steps<L> = Steps::new(blank);
        self.runs.facts();
        let found = find(
            &mut self.runs,
            &mut self.cursor,
            &mut self.pending,
            at,
            &mut visits,
        );
        Deletions {
            first: found.node(),
            count: found.count(most),
            index: found.index(),
        }
    }

    fn delete_run_by<L: Ledger>(
        &mut self,
        first: Node,
        count: u32,
        blank: Blank,
    ) -> Result<bool, NoMem>
        requires name { blank.name ≡ L.name }
        requires parts { blank.parts ≡ L.parts }
        requires some { 0 < blank.parts }
        requires room { AllByRecursion HasRoom self.old.records }
        ensures yes { IfOk result (λ done. IsTrue done → self.new.records ≡ struck_each self.old.records first count) }
        ensures visible { IfOk result (λ done. IsTrue done → (k : ℕ) → k < count → sees self.old.records (node_on first k) ≡ true) }
        ensures no { IfOk result (λ done. done ≡ false → self.new ≡ self.old) }
        ensures err { OnErr result (self.new.records ≡ self.old.records) }
        ensures known { (v : Nodes) → knows self.new.records v ≡ knows self.old.records v }
        ensures loose { (among : Nodes → Bool) → loose_in among self.new.runs ≤ loose_in among self.old.runs + 2 }
        ensures told { (among : Nodes → Bool) → AreAllAmong among first count → loose_in among self.new.runs ≤ loose_in among self.old.runs }
    {
        let mut visits: Steps<L> = Steps::new(blank);
        settle(&mut self.runs, &self.cursor, &mut self.pending, &mut visits);
        self.cursor = None;
        let Some(altered) = self.runs.delete_part(first, count, &mut visits)? else {
            return Ok(false);
        };
        self.visible = altered.visible(self.visible);
        self.shown = altered.shown(self.shown);
        Ok(true)
    }

    fn change_by<L: Ledger>(
        &mut self,
        node: Node,
        change: Change,
        blank: Blank,
    ) -> Result<Known, NoMem>
        requires name { blank.name ≡ L.name }
        requires parts { blank.parts ≡ L.parts }
        requires some { 0 < blank.parts }
        requires room { AllByRecursion HasRoom self.old.records }
        ensures ok { OnOk result (self.new.records ≡ map (changed_at node change) self.old.records) }
        ensures was { IfOk result (λ k. k.was ≡ knows self.old.records node) }
        ensures is { IfOk result (λ k. k.is ≡ knows self.new.records node) }
        ensures err { OnErr result (self.new.records ≡ self.old.records) }
        ensures loose { (among : Nodes → Bool) → loose_in among self.new.runs ≤ loose_in among self.old.runs + 2 }
        ensures told { (among : Nodes → Bool) → among node ≡ true → loose_in among self.new.runs ≤ loose_in among self.old.runs }
    {
        let mut visits: Steps<L> = Steps::new(blank);
        match self.delete_last(node, change, &mut visits)? {
            Some(known) => Ok(known),
            None => self.change_found(node, change, &mut visits),
        }
    }

    /// Deletes a character, where the change is that and it is the last of the cursor's run, which has others. Else nothing has
    /// changed.
    fn delete_last<L: Ledger>(
        &mut self,
        node: Node,
        change: Change,
        visits: &mut Steps<L>,
    ) -> Result<Option<Known>, NoMem>
        ensures some { IfOk result (λ o. IfSome o (λ _. self.new.records ≡ map (changed_at node change) self.old.records)) }
        ensures was { IfOk result (λ o. IfSome o (λ k. k.was ≡ knows self.old.records node)) }
        ensures is { IfOk result (λ o. IfSome o (λ k. k.is ≡ knows self.new.records node)) }
        ensures none { IfOk result (λ o. IfNone o (self.new ≡ self.old)) }
        ensures err { OnErr result (self.new ≡ self.old) }
        ensures loose { (among : Nodes → Bool) → loose_in among self.new.runs ≤ loose_in among self.old.runs + 2 }
        ensures told { (among : Nodes → Bool) → among node ≡ true → loose_in among self.new.runs ≤ loose_in among self.old.runs }
    {
        let Some(cursor) = self.cursor else {
            return Ok(None);
        };
        if !cursor.gives_up(node, change) {
            return Ok(None);
        }
        self.runs.facts();
        let Some(struck) = strike_last(&mut self.runs, &cursor, &mut self.pending, visits)? else {
            return Ok(None);
        };
        self.runs.facts();
        self.visible -= 1;
        self.shown -= 1;
        self.cursor = Some(cursor.deleted(struck));
        Ok(Some(Known {
            was: true,
            is: true,
        }))
    }

    /// Changes the states of a character, which is searched for. There is no cursor after it.
    fn change_found<L: Ledger>(
        &mut self,
        node: Node,
        change: Change,
        visits: &mut Steps<L>,
    ) -> Result<Known, NoMem>
        requires { AllByRecursion HasRoom self.old.records }
        ensures ok { OnOk result (self.new.records ≡ map (changed_at node change) self.old.records) }
        ensures was { IfOk result (λ k. k.was ≡ knows self.old.records node) }
        ensures is { IfOk result (λ k. k.is ≡ knows self.new.records node) }
        ensures err { OnErr result (self.new.records ≡ self.old.records) }
        ensures loose { (among : Nodes → Bool) → loose_in among self.new.runs ≤ loose_in among self.old.runs + 2 }
        ensures told { (among : Nodes → Bool) → among node ≡ true → loose_in among self.new.runs ≤ loose_in among self.old.runs }
    {
        settle(&mut self.runs, &self.cursor, &mut self.pending, visits);
        self.cursor = None;
        let Some(altered) = self.runs.change(node, change, visits)? else {
            return Ok(Known {
                was: false,
                is: false,
            });
        };
        self.visible = altered.visible(self.visible);
        self.shown = altered.shown(self.shown);
        Ok(altered.known())
    }

    fn change_run_by<L: Ledger>(
        &mut self,
        kind: Kind,
        number: u32,
        within: Positions,
        change: Change,
        blank: Blank,
    ) -> Option<(Positions, Known)>
        requires name { blank.name ≡ L.name }
        requires parts { blank.parts ≡ L.parts }
        requires some { 0 < blank.parts }
        requires room { AllByRecursion HasRoom self.old.records }
        ensures part { IfSome result (λ r. ArePart number r.0 within) }
        ensures told { IfSome result (λ r. (n : ℕ) → r.0.from ≤ n → n < r.0.to → list_any (is_of (node_by kind n)) self.old.records ≡ true) }
        ensures records { IfSome result (λ r. self.new.records ≡ map (changed_in kind r.0 change) self.old.records) }
        ensures was { IfSome result (λ r. (n : ℕ) → r.0.from ≤ n → n < r.0.to → knows self.old.records (node_by kind n) ≡ r.1.was) }
        ensures is { IfSome result (λ r. (n : ℕ) → r.0.from ≤ n → n < r.0.to → knows self.new.records (node_by kind n) ≡ r.1.is) }
        ensures none { IfNone result (self.new ≡ self.old) }
        ensures refused { IfNone result ((run : Stretch) (n : ℕ) → Contains self.old.runs run → IsOffset run (node_by kind number) n → LiesWithin kind run within → ⊥) }
        ensures loose { (among : Nodes → Bool) → loose_in among self.new.runs ≡ loose_in among self.old.runs }
    {
        let mut visits: Steps<L> = Steps::new(blank);
        settle(&mut self.runs, &self.cursor, &mut self.pending, &mut visits);
        self.cursor = None;
        let recast = self
            .runs
            .change_run(kind, number, within, change, &mut visits)?;
        self.visible = recast.altered.visible(self.visible);
        self.shown = recast.altered.shown(self.shown);
        Some((recast.numbers, recast.altered.known()))
    }

    fn insert_by<L: Ledger>(
        &mut self,
        siblings: &mut Siblings,
        child: &Child,
        place: Place,
        blank: Blank,
    ) -> Result<u32, NoMem>
        requires name { blank.name ≡ L.name }
        requires parts { blank.parts ≡ L.parts }
        requires some { 0 < blank.parts }
        requires new { IsNewChild self.old.records siblings.old child.now }
        ensures comes { IfOk result (Comes self.old.records self.new.records place child.now.position) }
        ensures attached { OnOk result (siblings.new ≡ siblings.old ++ attached_by child.now ∷ []) }
        ensures err { OnErr result (self.new.records ≡ self.old.records) }
        ensures detached { OnErr result (siblings.new ≡ siblings.old) }
        ensures told { OnOk result ((among : Nodes → Bool) → among (nodes.Event child.now.position) ≡ true → loose_in among self.new.runs ≤ loose_in among self.old.runs) }
        ensures loose { OnErr result ((among : Nodes → Bool) → loose_in among self.new.runs ≤ loose_in among self.old.runs + 2) }
    {
        let mut visits: Steps<L> = Steps::new(blank);
        match self.type_behind(siblings, child, place, &mut visits)? {
            Some(at) => Ok(at),
            None => self.insert_found(siblings, child, place, &mut visits),
        }
    }

    /// Attaches a new child, and puts its character at the end of the cursor's run, where it goes on with that. The runs get it
    /// later. Answers its index in the text. Else nothing has changed.
    fn type_behind<L: Ledger>(
        &mut self,
        siblings: &mut Siblings,
        child: &Child,
        place: Place,
        visits: &mut Steps<L>,
    ) -> Result<Option<u32>, NoMem>
        requires new { IsNewChild self.old.records siblings.old child.now }
        ensures comes { IfOk result (λ o. IfSome o (Comes self.old.records self.new.records place child.now.position)) }
        ensures attached { IfOk result (λ o. IfSome o (λ _. siblings.new ≡ siblings.old ++ attached_by child.now ∷ [])) }
        ensures told { IfOk result (λ o. IfSome o (λ _. (among : Nodes → Bool) → among (nodes.Event child.now.position) ≡ true → loose_in among self.new.runs ≤ loose_in among self.old.runs)) }
        ensures none { IfOk result (λ o. IfNone o (self.new ≡ self.old)) }
        ensures unattached { IfOk result (λ o. IfNone o (siblings.new ≡ siblings.old)) }
        ensures err { OnErr result (self.new ≡ self.old) }
        ensures detached { OnErr result (siblings.new ≡ siblings.old) }
    {
        self.runs.facts();
        let Some(cursor) = cursor_for(&self.cursor, child, place) else {
            return Ok(None);
        };
        let at = cursor.shown();
        child.attach(siblings)?;
        settle_struck(&mut self.runs, &cursor, &mut self.pending, visits);
        self.visible += 1;
        self.shown += 1;
        self.cursor = Some(cursor.typed(child));
        self.pending = true;
        Ok(Some(at))
    }

    fn type_on_by<L: Ledger>(
        &mut self,
        siblings: &mut Siblings,
        newest: u32,
        count: u32,
        at: u32,
        blank: Blank,
    ) -> Option<u32>
        requires name { blank.name ≡ L.name }
        requires parts { blank.parts ≡ L.parts }
        requires some { 0 < blank.parts }
        requires few { newest + count < 2 ^ 32 }
        requires new { AreNew siblings.old newest count }
        requires unrecorded { (k : ℕ) → k < count → list_any (is_of (nodes.Event (newest + k + 1))) self.old.records ≡ false }
        requires room { length self.old.records + count ≤ 2 ^ 25 }
        ensures come { IfSome result (ComeEach self.old.records self.new.records newest at count) }
        ensures few { IfSome result (λ first. first ≤ 2 ^ 25) }
        ensures attached { IfSome result (λ first. HaveHeirs siblings.old siblings.new newest count) }
        ensures told { IfSome result (λ first. (among : Nodes → Bool) → AreAmong among newest count → loose_in among self.new.runs ≤ loose_in among self.old.runs) }
        ensures same { IfNone result (self.new ≡ self.old) }
        ensures detached { IfNone result (siblings.new ≡ siblings.old) }
    {
        let mut visits: Steps<L> = Steps::new(blank);
        self.runs.facts();
        let cursor = cursor_behind(&self.cursor, newest, at)?;
        if !siblings.attach_heirs(newest, count) {
            return None;
        }
        let first = cursor.shown();
        settle_struck(&mut self.runs, &cursor, &mut self.pending, &mut visits);
        self.runs.facts();
        self.visible += count;
        self.shown += count;
        self.cursor = Some(cursor.longer(count));
        self.pending = true;
        Some(first)
    }

    /// Puts the character of a new child at a place, which is searched for, and attaches its node. There is no cursor after it.
    fn insert_found<L: Ledger>(
        &mut self,
        siblings: &mut Siblings,
        child: &Child,
        place: Place,
        visits: &mut Steps<L>,
    ) -> Result<u32, NoMem>
        requires new { IsNewChild self.old.records siblings.old child.now }
        ensures comes { IfOk result (Comes self.old.records self.new.records place child.now.position) }
        ensures attached { OnOk result (siblings.new ≡ siblings.old ++ attached_by child.now ∷ []) }
        ensures err { OnErr result (self.new.records ≡ self.old.records) }
        ensures detached { OnErr result (siblings.new ≡ siblings.old) }
        ensures told { OnOk result ((among : Nodes → Bool) → among (nodes.Event child.now.position) ≡ true → loose_in among self.new.runs ≤ loose_in among self.old.runs) }
        ensures loose { OnErr result ((among : Nodes → Bool) → loose_in among self.new.runs ≤ loose_in among self.old.runs + 2) }
    {
        settle(&mut self.runs, &self.cursor, &mut self.pending, visits);
        self.cursor = None;
        let at = self.runs.insert(siblings, child, place, visits)?;
        self.visible += 1;
        self.shown += 1;
        Ok(at)
    }

    fn rest_by<L: Ledger>(&mut self, blank: Blank)
        requires name { blank.name ≡ L.name }
        requires parts { blank.parts ≡ L.parts }
        requires some { 0 < blank.parts }
        ensures records { self.new.records ≡ map rested self.old.records }
        ensures loose { (among : Nodes → Bool) → loose_in among self.new.runs ≡ loose_in among self.old.runs }
    {
        let mut visits: Steps<L> = Steps::new(blank);
        settle(&mut self.runs, &self.cursor, &mut self.pending, &mut visits);
        self.cursor = None;
        self.visible = self.runs.rest(self.visible, &mut visits);
    }

    fn event_positions_by<L: Ledger>(&mut self, blank: Blank) -> Result<Vec<u32>, NoMem>
        requires name { blank.name ≡ L.name }
        requires parts { blank.parts ≡ L.parts }
        requires some { 0 < blank.parts }
        ensures positions { IfOk result (λ ps. ps.items ≡ event_positions self.old.records) }
        ensures same { self.new ≡ self.old }
    {
        let mut visits: Steps<L> = Steps::new(blank);
        settle(&mut self.runs, &self.cursor, &mut self.pending, &mut visits);
        self.cursor = None;
        self.runs.event_positions(&mut visits)
    }
}

/// Gives the runs what was typed or deleted at the cursor.
fn settle<L: Ledger>(
    runs: &mut Runs,
    cursor: &Option<Cursor>,
    pending: &mut bool,
    visits: &mut Steps<L>,
)
    requires few { length (chars_in (settled runs.old.tree.pairs cursor.now)) ≤ 2 ^ 25 }
    requires own { length (chars_in runs.old.tree.pairs) ≤ 2 ^ 25 }
    requires cursor { MayBeCursor (settled runs.old.tree.pairs cursor.now) cursor.now }
    requires told { pending.old ≡ false → settled runs.old.tree.pairs cursor.now ≡ runs.old.tree.pairs }
    ensures pairs { runs.new.tree.pairs ≡ settled runs.old.tree.pairs cursor.now }
    ensures labels { runs.new.labels ≡ runs.old.labels }
    ensures pending { pending.new ≡ false }
{
    if !*pending {
        return;
    }
    *pending = false;
    if let Some(cursor) = cursor {
        runs.take_in(cursor, visits);
    }
}

/// Gives the runs what is pending, where characters were deleted from the end of the cursor's run: the cursor lets go of these
/// when one is typed there.
fn settle_struck<L: Ledger>(
    runs: &mut Runs,
    cursor: &Cursor,
    pending: &mut bool,
    visits: &mut Steps<L>,
)
    requires few { length (chars_in (settled runs.old.tree.pairs (Some cursor.now))) ≤ 2 ^ 25 }
    requires own { length (chars_in runs.old.tree.pairs) ≤ 2 ^ 25 }
    requires cursor { IsCursor (settled runs.old.tree.pairs (Some cursor.now)) cursor.now }
    requires told { pending.old ≡ false → settled runs.old.tree.pairs (Some cursor.now) ≡ runs.old.tree.pairs }
    ensures end { changed runs.new.tree.pairs cursor.now.label cursor.now.run ≡ settled runs.old.tree.pairs (Some cursor.now) }
    ensures own { length (chars_in runs.new.tree.pairs) ≤ 2 ^ 25 }
    ensures labels { runs.new.labels ≡ runs.old.labels }
{
    if cursor.struck.is_some() {
        settle(runs, &Some(*cursor), pending, visits);
        runs.facts();
    }
}

/// Deletes the last character of a cursor's run, which has others: it goes over to the struck ones behind it, and that is
/// pending. The first of these becomes a run of its own among the runs, which get what is pending before. Answers the struck
/// ones, or None where the character has to be deleted in another way.
fn strike_last<L: Ledger>(
    runs: &mut Runs,
    cursor: &Cursor,
    pending: &mut bool,
    visits: &mut Steps<L>,
) -> Result<Option<Struck>, NoMem>
    requires laid { AreLabelled (settled runs.old.tree.pairs (Some cursor.now)) runs.old.labels }
    requires cursor { IsCursor (settled runs.old.tree.pairs (Some cursor.now)) cursor.now }
    requires long { 1 < cursor.now.run.len }
    requires few { length (chars_in (settled runs.old.tree.pairs (Some cursor.now))) ≤ 2 ^ 25 }
    requires own { length (chars_in runs.old.tree.pairs) ≤ 2 ^ 25 }
    requires told { pending.old ≡ false → settled runs.old.tree.pairs (Some cursor.now) ≡ runs.old.tree.pairs }
    ensures laid { IfOk result (λ o. IfSome o (λ s. AreLabelled (with_end runs.new.tree.pairs cursor.now.label (shorter cursor.now.run) (Some s)) runs.new.labels)) }
    ensures chars { IfOk result (λ o. IfSome o (λ s. chars_in (with_end runs.new.tree.pairs cursor.now.label (shorter cursor.now.run) (Some s)) ≡ map (changed_at (last_of cursor.now.run) changes.Strike) (chars_in (settled runs.old.tree.pairs (Some cursor.now))))) }
    ensures gave { IfOk result (λ o. IfSome o (λ s. GaveEnd (settled runs.old.tree.pairs (Some cursor.now)) (with_end runs.new.tree.pairs cursor.now.label (shorter cursor.now.run) (Some s)) cursor.now s)) }
    ensures told { IfOk result (λ o. IfSome o (λ s. pending.new ≡ false → with_end runs.new.tree.pairs cursor.now.label (shorter cursor.now.run) (Some s) ≡ runs.new.tree.pairs)) }
    ensures none { IfOk result (λ o. IfNone o (SettleSame runs.old.tree.pairs runs.new.tree.pairs runs.new.labels cursor.now pending.new)) }
    ensures err { OnErr result (SettleSame runs.old.tree.pairs runs.new.tree.pairs runs.new.labels cursor.now pending.new) }
    ensures own { length (chars_in runs.new.tree.pairs) ≤ 2 ^ 25 }
{
    match cursor.struck {
        Some(struck) => {
            let struck = runs.shift_end(cursor, struck)?;
            *pending = true;
            Ok(Some(struck))
        }
        None => {
            settle(runs, &Some(*cursor), pending, visits);
            runs.facts();
            let struck = runs.cut_end(cursor, visits)?;
            runs.facts();
            Ok(struck)
        }
    }
}

/// The visible character with this index: the cursor's, or else one that is searched for, and the cursor comes to it where it is
/// the last of its run and in the text. Else there is none.
fn find<L: Ledger>(
    runs: &mut Runs,
    cursor: &mut Option<Cursor>,
    pending: &mut bool,
    at: u32,
    visits: &mut Steps<L>,
) -> Counted
    requires within { at < total prepared_of (settled runs.old.tree.pairs cursor.old) }
    requires index { at + 1 < 2 ^ 32 }
    requires few { length (chars_in (settled runs.old.tree.pairs cursor.old)) ≤ 2 ^ 25 }
    requires own { length (chars_in runs.old.tree.pairs) ≤ 2 ^ 25 }
    requires cursor { MayBeCursor (settled runs.old.tree.pairs cursor.old) cursor.old }
    requires told { pending.old ≡ false → settled runs.old.tree.pairs cursor.old ≡ runs.old.tree.pairs }
    ensures same { settled runs.new.tree.pairs cursor.new ≡ settled runs.old.tree.pairs cursor.old }
    ensures labels { runs.new.labels ≡ runs.old.labels }
    ensures cursor { MayBeCursor (settled runs.old.tree.pairs cursor.old) cursor.new }
    ensures told { pending.new ≡ false → settled runs.old.tree.pairs cursor.old ≡ runs.new.tree.pairs }
    ensures own { length (chars_in runs.new.tree.pairs) ≤ 2 ^ 25 }
    ensures place { IsPlace prepared_of (settled runs.old.tree.pairs cursor.old) at result.spot.label result.spot.offset }
    ensures held { Contains (settled runs.old.tree.pairs cursor.old) (result.spot.label, result.run) }
    ensures inside { result.spot.offset < result.run.len }
    ensures before { result.before ≡ total effect_of (lower (settled runs.old.tree.pairs cursor.old) result.spot.label) }
{
    if let Some(found) = at_cursor(cursor, at) {
        return found;
    }
    settle(runs, cursor, pending, visits);
    runs.facts();
    let found = runs.visible_at(at, visits);
    *cursor = Cursor::behind(&found, at);
    found
}

/// The visible character with this index, where the cursor is right behind it.
fn at_cursor(cursor: &Option<Cursor>, at: u32) -> Option<Counted>
    requires few { at + 1 < 2 ^ 32 }
    // among whichever runs the cursor is
    ensures place { IfSome result (λ f. (ps : List (ℕ × Stretch)) → MayBeCursor ps cursor.now → IsPlace prepared_of ps at f.spot.label f.spot.offset) }
    ensures held { IfSome result (λ f. (ps : List (ℕ × Stretch)) → MayBeCursor ps cursor.now → Contains ps (f.spot.label, f.run)) }
    ensures inside { IfSome result (λ f. f.spot.offset < f.run.len) }
    ensures before { IfSome result (λ f. (ps : List (ℕ × Stretch)) → MayBeCursor ps cursor.now → f.before ≡ total effect_of (lower ps f.spot.label)) }
{
    match cursor {
        Some(cursor) if cursor.index == at + 1 && cursor.run.len > 0 => Some(cursor.last()),
        _ => None,
    }
}

/// The cursor, where it stands behind the character of an event, at an index of what is prepared.
fn cursor_behind(cursor: &Option<Cursor>, event: u32, at: u32) -> Option<Cursor>
    requires { IfSome cursor.now (λ c. 0 < c.run.len) }
    ensures is { IfSome result (λ c. cursor.now ≡ Some c) }
    ensures last { IfSome result (λ c. last_of c.run ≡ nodes.Event event) }
    ensures index { IfSome result (λ c. c.index ≡ at) }
{
    match cursor {
        Some(cursor) if cursor.index == at && cursor.last_node() == Node::Event(event) => {
            Some(*cursor)
        }
        _ => None,
    }
}

/// The cursor, where a new child's character goes on with its run.
fn cursor_for(cursor: &Option<Cursor>, child: &Child, place: Place) -> Option<Cursor>
    requires { IfSome cursor.now (λ c. 0 < c.run.len) }
    ensures is { IfSome result (λ c. cursor.now ≡ Some c) }
    ensures place { IfSome result (λ c. place ≡ places.After (last_of c.run)) }
    ensures goes_on { IfSome result (λ c. is_continued c.run (run_of child.now 1) ≡ true) }
{
    match cursor {
        Some(cursor) if cursor.takes(child, place) => Some(*cursor),
        _ => None,
    }
}
