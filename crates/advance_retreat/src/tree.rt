//! The characters of a state, and the tree that their nodes hang in.

ghost use Rattle.std.specs.Prelude.{◌≡◌, ℕ, ◌+◌, ◌*◌, ◌<◌, ◌≤◌, ◌^◌, Bool, List, true, false, ◌∷◌, [], ◌++◌, length, map, IfSome, IfNone, IfOk, IsTrue, OnOk, OnErr};
ghost use Rattle.std.specs.List.{AllByRecursion, list_any};
ghost use Rattle.ew_model.specs.declared.node.Node.{Node as Nodes};
ghost use Rattle.ew_model.specs.declared.node.Node.TheVariants as nodes;
ghost use Rattle.walker_record.specs.Stretches.{HasNumbers, node_on};
ghost use Rattle.fugue_place.specs.declared.child.Side.TheVariants as sides;
ghost use Rattle.fugue_place.specs.declared.neighbour.Place.{Place};
ghost use Rattle.fugue_place.specs.Attachments.{is_attached, is_there, has_id, AreAttached};
ghost use Rattle.fugue_place.specs.Heirs.{AreNew, HaveHeirs};
ghost use Rattle.fugue_place.specs.Neighbours.{has_beyond, IsPlaceOfNew};
ghost use Rattle.advance_retreat.specs.declared.target.Target.{Target};
ghost use Rattle.character_runs.specs.Deleting.{struck_each, AreDeletions, AreAllAmong};
ghost use Rattle.character_runs.specs.EventPositions.{event_positions};
ghost use Rattle.character_runs.specs.States.{is_of, sees, visible_in, shown_in, base_records, changed_at, HasRoom};
ghost use Rattle.character_runs.specs.Laid.{records_in};
ghost use Rattle.character_runs.specs.Loose.{loose_in, AreAmong};
ghost use Rattle.advance_retreat.specs.Refusals.{is_told};
ghost use Rattle.character_runs.specs.Replacing.{ArePart, node_by, changed_in};
ghost use Rattle.character_runs.specs.Resting.{rested};
ghost use Rattle.right_children.specs.Rights.{HangWithin};
ghost use Rattle.character_runs.specs.Spots.{IsSlot, IsDeletion, Comes, ComeEach};
ghost use Rattle.advance_retreat.specs.Hanging.{has_known_right, has_next_base};

use character_runs::{Change, Characters, Deletion, Deletions, Kind, KnownRights, Positions, Slot};
use ew_model::NoMem;
use ew_model::id::Id;
use ew_model::node::Node;
use fugue_place::Siblings;
use right_children::Rights;
use std::alloc::Global;
use std::marker::Model;

/// The characters, the tree of their nodes, and how many right children of each node are inserted in what is prepared.
#[derive(Drop)]
pub struct Tree {
    characters: Characters,
    siblings: Siblings,
    rights: Rights,
}

impl Model for Tree {
    ghost use Rattle.advance_retreat.specs.Hanging.{InTree, KeepRights};

    ghost Value = { InTree };

    ghost view = { λ t. record { records = t.characters.records; runs = t.characters.runs; attached = t.siblings } };

    ghost invariant = { λ t. KeepRights t.characters.records t.siblings t.rights };
}

/// The right children of nodes, over a base of so many characters.
#[derive(Clone, Copy)]
struct OverBase<'a> {
    base: u32,
    rights: &'a Rights,
}

impl<'a> KnownRights for OverBase<'a> {
    ghost use Rattle.right_children.specs.Rights.{counted};
    ghost use Rattle.advance_retreat.specs.Hanging.{has_counted_right};

    ghost has_right = { λ over v. has_counted_right over.base (counted over.rights.now) v };

    fn has_known_right(&self, node: Node) -> bool {
        has_next_base(self.base, node) || self.rights.has_known(node)
    }
}

/// Whether a base character is the right child of the node.
fn has_next_base(base: u32, node: Node) -> bool
    ensures { result ≡ has_next_base base node }
{
    match node {
        Node::Root => base > 0,
        Node::Base(i) => base > 1 && i < base - 1,
        Node::Event(_) => false,
    }
}

impl Tree {
    /// The characters of a base.
    pub fn base(alloc: Global, len: u32) -> Result<Tree, NoMem>
        requires { len ≤ 2 ^ 24 }
        ensures records { IfOk result (λ t. t.records ≡ base_records len) }
        ensures attached { IfOk result (λ t. t.attached ≡ []) }
        ensures few { IfOk result (λ t. length t.runs ≤ 1) }
    {
        Ok(Tree {
            characters: Characters::base(alloc, len)?,
            siblings: Siblings::new(alloc)?,
            rights: Rights::new(alloc),
        })
    }

    /// How many characters are visible in what is prepared.
    pub fn visible(&self) -> u32
        ensures { result ≡ visible_in self.now.records }
    {
        self.characters.visible()
    }

    /// How many are in the text.
    pub fn shown(&self) -> u32
        ensures { result ≡ shown_in self.now.records }
    {
        self.characters.shown()
    }

    /// How many runs they are kept in: at most two for the character of each of some events, and those that stand apart for none.
    pub fn runs(&self) -> u32
        ensures value { result ≡ length self.now.runs }
        ensures kept { self.now.records ≡ records_in self.now.runs }
        ensures few { (targets : List Target) → result ≤ loose_in (is_told targets) self.now.runs + 2 * length targets }
    {
        self.characters.runs()
    }

    /// What a new character hangs on at an index of what is prepared, over a base of so many characters. None where the index is
    /// past the end.
    pub fn slot_at(&mut self, base: u32, at: u32) -> Option<Slot>
        ensures some { IfSome result (IsSlot (has_known_right base self.old.records self.old.attached) self.old.records at) }
        ensures none { IfNone result (visible_in self.old.records < at) }
        ensures same { self.new ≡ self.old }
    {
        let over = OverBase {
            base,
            rights: &self.rights,
        };
        self.characters.slot_at(&over, at)
    }

    /// The deletion of the character at an index of what is prepared. None where no character is there.
    pub fn deletion_at(&mut self, at: u32) -> Option<Deletion>
        ensures some { IfSome result (IsDeletion self.old.records at) }
        ensures none { IfNone result (visible_in self.old.records ≤ at) }
        ensures same { self.new ≡ self.old }
    {
        self.characters.deletion_at(at)
    }

    /// The deletions of at most so many characters, one after another at an index of what is prepared. None where no character is
    /// there.
    pub fn deletions_at(&mut self, at: u32, most: u32) -> Option<Deletions>
        ensures some { IfSome result (AreDeletions self.old.records at) }
        ensures most { IfSome result (λ ds. ds.count ≤ most) }
        ensures one { IfSome result (λ ds. 0 < most → 0 < ds.count) }
        ensures numbers { IfSome result (λ ds. HasNumbers ds.first ds.count) }
        ensures none { IfNone result (visible_in self.old.records ≤ at) }
        ensures same { self.new ≡ self.old }
    {
        self.characters.deletions_at(at, most)
    }

    /// Deletes so many characters from a node's on, one after another. Answers whether that was done. It is where they are of one run
    /// and visible in what is prepared; where not, nothing has changed.
    pub fn delete_run(&mut self, first: Node, count: u32) -> Result<bool, NoMem>
        requires { AllByRecursion HasRoom self.old.records }
        ensures yes { IfOk result (λ done. IsTrue done → self.new.records ≡ struck_each self.old.records first count) }
        ensures visible { IfOk result (λ done. IsTrue done → (k : ℕ) → k < count → sees self.old.records (node_on first k) ≡ true) }
        ensures no { IfOk result (λ done. done ≡ false → self.new ≡ self.old) }
        ensures err { OnErr result (self.new.records ≡ self.old.records) }
        ensures attached { self.new.attached ≡ self.old.attached }
        ensures loose { (among : Nodes → Bool) → loose_in among self.new.runs ≤ loose_in among self.old.runs + 2 }
        ensures told { (among : Nodes → Bool) → AreAllAmong among first count → loose_in among self.new.runs ≤ loose_in among self.old.runs }
    {
        self.characters.delete_run(first, count)
    }

    /// Changes the states of a character.
    pub fn change(&mut self, node: Node, change: Change) -> Result<(), NoMem>
        requires room { AllByRecursion HasRoom self.old.records }
        requires few { length self.old.records ≤ 2 ^ 25 }
        requires sound { AreAttached [] self.old.attached }
        requires there { is_there self.old.attached node ≡ true }
        ensures ok { OnOk result (self.new.records ≡ map (changed_at node change) self.old.records) }
        ensures err { OnErr result (self.new.records ≡ self.old.records) }
        ensures attached { self.new.attached ≡ self.old.attached }
        ensures loose { (among : Nodes → Bool) → loose_in among self.new.runs ≤ loose_in among self.old.runs + 2 }
        ensures told { (among : Nodes → Bool) → among node ≡ true → loose_in among self.new.runs ≤ loose_in among self.old.runs }
    {
        let known = self.characters.change(node, change)?;
        self.rights.shift(node, known.was, known.is);
        Ok(())
    }

    /// Changes the states of the run of the character of a kind with a number, where all of its characters are of that kind, and
    /// their numbers within these. Answers the numbers of those characters.
    pub fn change_run(
        &mut self,
        kind: Kind,
        number: u32,
        within: Positions,
        change: Change,
    ) -> Option<Positions>
        requires room { AllByRecursion HasRoom self.old.records }
        requires few { length self.old.records ≤ 2 ^ 25 }
        requires sound { AreAttached [] self.old.attached }
        requires there { (n : ℕ) → list_any (is_of (nodes.Event n)) self.old.records ≡ true → is_there self.old.attached (nodes.Event n) ≡ true }
        ensures part { IfSome result (λ p. ArePart number p within) }
        ensures told { IfSome result (λ p. (n : ℕ) → p.from ≤ n → n < p.to → list_any (is_of (node_by kind n)) self.old.records ≡ true) }
        ensures records { IfSome result (λ p. self.new.records ≡ map (changed_in kind p change) self.old.records) }
        ensures none { IfNone result (self.new ≡ self.old) }
        ensures attached { self.new.attached ≡ self.old.attached }
        ensures loose { (among : Nodes → Bool) → loose_in among self.new.runs ≡ loose_in among self.old.runs }
    {
        let (numbers, known) = self.characters.change_run(kind, number, within, change)?;
        match kind {
            // The nodes of base characters hang nowhere.
            Kind::OfBase => Some(numbers),
            Kind::OfEvents => {
                self.rights
                    .shift_each(numbers.from, numbers.to, known.was, known.is);
                Some(numbers)
            }
        }
    }

    /// Takes all events out of what is prepared. Those whose nodes hang are at these positions.
    pub fn rest(&mut self, at: Positions)
        requires order { at.from ≤ at.to }
        requires within { HangWithin at.from at.to self.old.attached }
        ensures records { self.new.records ≡ map rested self.old.records }
        ensures attached { self.new.attached ≡ self.old.attached }
        ensures loose { (among : Nodes → Bool) → loose_in among self.new.runs ≡ loose_in among self.old.runs }
    {
        self.characters.rest();
        self.rights.rest(at.from, at.to);
    }

    /// The positions of the events whose characters these are, in order.
    pub fn event_positions(&mut self) -> Result<Vec<u32>, NoMem>
        ensures positions { IfOk result (λ ps. ps.items ≡ event_positions self.old.records) }
        ensures same { self.new ≡ self.old }
    {
        self.characters.event_positions()
    }

    /// Attaches the nodes of so many new events behind one, each on the right of that of the event before it, and puts their characters
    /// right behind that one's, the first at an index of what is prepared. Answers its index in the text. None where it can't be done in
    /// one go: then nothing has changed.
    pub fn type_on(&mut self, newest: u32, count: u32, at: u32) -> Option<u32>
        requires few { newest + count + 1 < 2 ^ 32 }
        requires new { AreNew self.old.attached newest count }
        requires unrecorded { (k : ℕ) → k < count → list_any (is_of (nodes.Event (newest + k + 1))) self.old.records ≡ false }
        requires room { length self.old.records + count ≤ 2 ^ 25 }
        requires sound { AreAttached [] self.old.attached }
        ensures come { IfSome result (ComeEach self.old.records self.new.records newest at count) }
        ensures few { IfSome result (λ first. first ≤ 2 ^ 25) }
        ensures attached { IfSome result (λ first. HaveHeirs self.old.attached self.new.attached newest count) }
        ensures told { IfSome result (λ first. (among : Nodes → Bool) → AreAmong among newest count → loose_in among self.new.runs ≤ loose_in among self.old.runs) }
        ensures same { IfNone result (self.new ≡ self.old) }
    {
        let Ok(()) = self.rights.note_heirs(newest, count) else {
            return None;
        };
        let characters = &mut self.characters;
        let first = characters.type_on(&mut self.siblings, newest, count, at)?;
        self.rights
            .shift_each(newest + 1, newest + count + 1, false, true);
        Some(first)
    }

    /// Attaches the node of a new event, and puts its character beside its neighbour. Answers its index in the text.
    pub fn insert(&mut self, slot: Slot, id: Id, lv: u32) -> Result<u32, NoMem>
        requires parent { is_there self.old.attached slot.parent ≡ true }
        requires unused { has_id self.old.attached id ≡ false }
        requires new { is_attached self.old.attached (nodes.Event lv) ≡ false }
        requires unrecorded { list_any (is_of (nodes.Event lv)) self.old.records ≡ false }
        requires last { slot.side ≡ sides.Right → has_beyond self.old.attached slot.parent ≡ false }
        requires room { length self.old.records < 2 ^ 25 }
        requires sound { AreAttached [] self.old.attached }
        ensures comes { IfOk result (λ at. (place : Place) × IsPlaceOfNew self.old.attached slot.parent slot.side id place × Comes self.old.records self.new.records place lv at) }
        ensures attached { OnOk result (self.new.attached ≡ self.old.attached ++ record { parent = slot.parent; side = slot.side; id = id; node = nodes.Event lv } ∷ []) }
        ensures err { OnErr result (self.new.records ≡ self.old.records) }
        ensures detached { OnErr result (self.new.attached ≡ self.old.attached) }
        ensures told { OnOk result ((among : Nodes → Bool) → among (nodes.Event lv) ≡ true → loose_in among self.new.runs ≤ loose_in among self.old.runs) }
        ensures loose { OnErr result ((among : Nodes → Bool) → loose_in among self.new.runs ≤ loose_in among self.old.runs + 2) }
    {
        let own = Id {
            agent: id.agent,
            seq: id.seq,
        };
        let place = self.siblings.position(slot.parent, slot.side, own);
        self.rights.note(lv, slot.parent, slot.side)?;
        let characters = &mut self.characters;
        let at = characters.insert(&mut self.siblings, slot, id, lv, place)?;
        self.rights.shift(Node::Event(lv), false, true);
        Ok(at)
    }
}
