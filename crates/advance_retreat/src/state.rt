//! The state of a walker.

ghost use Rattle.std.specs.Prelude.{◌≡◌, ℕ, None, ◌+◌, ◌-◌, ◌*◌, ◌<◌, ◌≤◌, ◌^◌, ◌↔◌, nat_eq, nat_lt, ◌&&◌, true, false, List, [], ◌∷◌, ◌++◌, length, reverse, Err, IfSome, IfNone, IsTrue, IfOk, OnOk, OnErr};
ghost use Rattle.std.specs.List.{AllByRecursion, list_any, range_with_len};
ghost use Rattle.ew_model.specs.Operations.{next_operation};
ghost use Rattle.ew_model.specs.Entries.{visible};
ghost use Rattle.ew_model.specs.Places.Act.{InsertAs, DeleteAt, MarkAs};
ghost use Rattle.ew_model.specs.Tree.{Applied, tree_of};
ghost use Rattle.ew_model.specs.Moves.{after_advances, after_retreats};
ghost use Rattle.ew_model.specs.Records.{next_of, without, prepared_entries, applied_entries};
ghost use Rattle.walker_record.specs.Stretches.{Stretch, HasNumbers};
ghost use Rattle.fugue_place.specs.Attachments.{is_there, AreAttached};
ghost use Rattle.fugue_place.specs.Heirs.{AreNew};
ghost use Rattle.ew_model.specs.declared.node.Node.TheVariants as nodes;
ghost use Rattle.advance_retreat.specs.declared.fault.ApplyFault.TheVariants as apply;
ghost use Rattle.advance_retreat.specs.Kept.{with_lost, with_deletion, with_deletions, with_mark, target_at, AreWithin};
ghost use Rattle.character_runs.specs.Deleting.{deletion_op};
ghost use Rattle.character_runs.specs.States.{HasRoom, is_of, shown_in};
ghost use Rattle.character_runs.specs.Laid.{records_in};
ghost use Rattle.advance_retreat.specs.declared.line.Way.TheVariants as lines;
ghost use Rattle.advance_retreat.specs.Lines.{IsLineFrom};
ghost use Rattle.advance_retreat.specs.Standing.{most, StandsFor};
ghost use Rattle.advance_retreat.specs.Placing.{AreInOrder, DeletesOf, IsNoDeletion};
ghost use Rattle.advance_retreat.specs.Refusals.{lost_after, one_more};
ghost use Rattle.advance_retreat.specs.Conditions.{MayInsert, MayDelete, MayMark, MayAdvanceTo, MayRetreatFrom, MayAdvanceEach, MayRetreatEach, Advanced, Retreated, PartAdvanced, PartRetreated, AllPrepared};
ghost use Rattle.advance_retreat.specs.Deleting.{MayDeleteEach, DeletedEach};
ghost use Rattle.advance_retreat.specs.Hanging.{MayHang, Puts, IsNewest, PutEach};
ghost use Rattle.advance_retreat.specs.Typing.{MayType, TypedEach};

use crate::fault::ApplyFault;
use crate::line::{Line, Way, behind};
use crate::target::Targets;
use crate::tree::Tree;
use character_runs::{Change, Positions, Slot};
use ew_model::NoMem;
use ew_model::id::Id;
use ew_model::node::Node;
use ew_model::steps::Steps;
use ew_model::text_op::TextOp;
use std::alloc::Global;
use std::marker::Model;
use std::sync::ledger::Ledger;

/// No base, history or text has more.
const MOST: u32 = 1 << 24;

/// What a walker knows of the events that it applied over a base: the text that they leave, and the version that is prepared.
pub struct State {
    base: u32,
    tree: Tree,
    targets: Targets,
    lost: u32,
}

/// Deletions that were applied in one go.
#[derive(Clone, Copy)]
pub struct Deleted {
    /// How many.
    pub count: u32,
    /// The index of each in the text when it is deleted, which is the same for all. None where they aren't in the text.
    pub index: Option<u32>,
}

impl Drop for State {
    fn drop(self) {
        let State {
            base: _,
            tree: _,
            targets: _,
            lost: _,
        } = self;
    }
}

impl Model for State {
    ghost use Rattle.advance_retreat.specs.Kept.{Kept};
    ghost use Rattle.advance_retreat.specs.Refusals.{FewLoose};

    ghost Value = { Kept };

    ghost view = { λ s. record { base = s.base; records = s.tree.records; attached = s.tree.attached; targets = s.targets; lost = s.lost } };

    ghost invariant = { λ s. FewLoose s.targets s.tree.runs s.lost };
}

impl State {
    /// The state over a text of `len` characters, where no event was applied.
    ///
    /// An error for want of memory, which is also the answer to a text of more than 2^24 characters.
    pub fn base(alloc: Global, len: u32) -> Result<State, NoMem>
        ensures stands { IfOk result (λ s. StandsFor s len [] []) }
        ensures lost { IfOk result (λ s. s.lost ≡ 0) }
    {
        if len > MOST {
            return Err(NoMem);
        }
        Ok(State {
            base: len,
            tree: Tree::base(alloc, len)?,
            targets: Targets::new(alloc),
            lost: 0,
        })
    }

    /// How many characters the prepared version's text has.
    pub fn prepared_len(&self) -> u32
        ensures { (b : ℕ) (events : List (Applied ℕ)) (prepared : List ℕ) → StandsFor self.now b events prepared → result ≡ length (visible (prepared_entries b events prepared)) }
    {
        self.tree.visible()
    }

    /// How many characters the text of all applied events has.
    pub fn effect_len(&self) -> u32
        ensures { (b : ℕ) (events : List (Applied ℕ)) (prepared : List ℕ) → StandsFor self.now b events prepared → result ≡ length (visible (applied_entries b events)) }
    {
        self.tree.shown()
    }

    /// How many runs of characters are kept: at most one, and two more for each applied event and each lost apply.
    pub fn runs(&self) -> u32
        ensures kept { (rs : List Stretch) × (result ≡ length rs) × (self.now.records ≡ records_in rs) }
        ensures few { (b : ℕ) (events : List (Applied ℕ)) (prepared : List ℕ) → StandsFor self.now b events prepared → result ≤ 1 + 2 * (length events + self.now.lost) }
    {
        self.tree.runs()
    }

    /// How many applies were refused for want of memory since the state was made or cleared. It stands still at 2^32 - 1.
    pub fn lost(&self) -> u32
        ensures { result ≡ self.now.lost }
    {
        self.lost
    }

    /// Whether the history may have one more event.
    fn has_room_for_event(&self) -> bool
        ensures { (b : ℕ) (events : List (Applied ℕ)) (prepared : List ℕ) → StandsFor self.now b events prepared → result ≡ nat_lt (length events) most }
    {
        self.targets.len() < MOST as usize
    }

    /// Whether the history may have one more event, and the text one more character.
    fn has_room_for_character(&self) -> bool
        ensures { (b : ℕ) (events : List (Applied ℕ)) (prepared : List ℕ) → StandsFor self.now b events prepared → result ≡ (nat_lt (length events) most && nat_lt (length (visible (applied_entries b events))) most) }
    {
        self.has_room_for_event() && self.effect_len() < MOST
    }

    /// Applies the insertion of a character at an index of the prepared version, and prepares it too. Answers what that does to
    /// the text.
    ///
    /// `OutOfRange` where the index is greater than the length of the prepared text. Else `OutOfMemory` for want of memory, or
    /// where the state holds 2^24 events or its text as many characters. After each of them the state is as it was before, but
    /// that `lost` counts each `OutOfMemory`.
    pub fn apply_ins<L: Ledger>(
        &mut self,
        lv: u32,
        id: Id,
        at: u32,
        ch: char,
        steps: &mut Steps<L>,
    ) -> Result<TextOp, ApplyFault>
        requires { (b : ℕ) × (events : List (Applied ℕ)) × (prepared : List ℕ) × StandsFor self.old b events prepared × MayInsert events lv id }
        ensures op { (b : ℕ) (events : List (Applied ℕ)) (prepared : List ℕ) → StandsFor self.old b events prepared → MayInsert events lv id → IfOk result (λ op. op ≡ next_operation nat_eq b (tree_of nat_eq b events) (next_of lv (InsertAs id at ch) prepared)) }
        ensures ok { (b : ℕ) (events : List (Applied ℕ)) (prepared : List ℕ) → StandsFor self.old b events prepared → MayInsert events lv id → OnOk result (StandsFor self.new b (events ++ next_of lv (InsertAs id at ch) prepared ∷ []) (lv ∷ prepared)) }
        ensures out_of_range { (b : ℕ) (events : List (Applied ℕ)) (prepared : List ℕ) → StandsFor self.old b events prepared → (len : ℕ) → (result ≡ Err (apply.OutOfRange len)) ↔ ((len ≡ length (visible (prepared_entries b events prepared))) × (len < at)) }
        ensures err { OnErr result (self.new ≡ with_lost self.old self.new.lost) }
        ensures lost { self.new.lost ≡ lost_after result self.old.lost }
        ensures steps { steps.new ≡ steps.old + 1 }
    {
        steps.tick();
        self.insert(lv, id, at, ch)
    }

    /// The same, with no step counted.
    fn insert(&mut self, lv: u32, id: Id, at: u32, ch: char) -> Result<TextOp, ApplyFault>
        requires { (b : ℕ) × (events : List (Applied ℕ)) × (prepared : List ℕ) × StandsFor self.old b events prepared × MayInsert events lv id }
        ensures op { (b : ℕ) (events : List (Applied ℕ)) (prepared : List ℕ) → StandsFor self.old b events prepared → MayInsert events lv id → IfOk result (λ op. op ≡ next_operation nat_eq b (tree_of nat_eq b events) (next_of lv (InsertAs id at ch) prepared)) }
        ensures ok { (b : ℕ) (events : List (Applied ℕ)) (prepared : List ℕ) → StandsFor self.old b events prepared → MayInsert events lv id → OnOk result (StandsFor self.new b (events ++ next_of lv (InsertAs id at ch) prepared ∷ []) (lv ∷ prepared)) }
        ensures out_of_range { (b : ℕ) (events : List (Applied ℕ)) (prepared : List ℕ) → StandsFor self.old b events prepared → (len : ℕ) → (result ≡ Err (apply.OutOfRange len)) ↔ ((len ≡ length (visible (prepared_entries b events prepared))) × (len < at)) }
        ensures err { OnErr result (self.new ≡ with_lost self.old self.new.lost) }
        ensures lost { self.new.lost ≡ lost_after result self.old.lost }
    {
        // A name has at least one byte.
        let _agent = id.agent.as_slice();
        let Some(slot) = self.tree.slot_at(self.base, at) else {
            return Err(ApplyFault::OutOfRange {
                len: self.prepared_len(),
            });
        };
        if !self.has_room_for_character() {
            self.lost = one_more(self.lost);
            return Err(ApplyFault::OutOfMemory);
        }
        let at = self.put(lv, id, slot)?;
        Ok(TextOp::Ins { at, ch })
    }

    /// Applies so many insertions behind the one at a position: the first at an index of the prepared version, each other one right
    /// behind the one before. Prepares them too. Answers the index of the first in the text. None where that event wasn't applied
    /// last, or they can't be applied in one go: then nothing has changed. No step is counted.
    pub fn type_on(&mut self, newest: u32, count: u32, at: u32) -> Option<u32>
        requires few { newest + count + 1 < 2 ^ 32 }
        requires may { (b : ℕ) × (events : List (Applied ℕ)) × (prepared : List ℕ) × (x : Id) × StandsFor self.old b events prepared × MayType events x newest count }
        ensures typed { (b : ℕ) (events : List (Applied ℕ)) (prepared : List ℕ) (x : Id) → StandsFor self.old b events prepared → MayType events x newest count → IfSome result (TypedEach self.old self.new x newest at count) }
        ensures few { IfSome result (λ n. n + count < 2 ^ 32) }
        ensures lost { self.new.lost ≡ self.old.lost }
        ensures none { IfNone result (self.new ≡ self.old) }
    {
        let slot = self.tree.slot_at(self.base, at)?;
        if !slot.is_right_of_event(newest) || !self.has_room_for(count) {
            return None;
        }
        self.put_typed(newest, count, at)
    }

    /// Puts the characters of so many new events into the tree, each right behind that of the event before it, the first at an index of
    /// the prepared version. Answers its index in the text. None where that can't be done in one go: then nothing has changed.
    fn put_typed(&mut self, newest: u32, count: u32, at: u32) -> Option<u32>
        requires few { newest + count + 1 < 2 ^ 32 }
        requires new { AreNew self.old.attached newest count }
        requires unrecorded { (k : ℕ) → k < count → list_any (is_of (nodes.Event (newest + k + 1))) self.old.records ≡ false }
        requires untold { (k : ℕ) → k < count → target_at self.old.targets (newest + k + 1) ≡ None }
        requires room { length self.old.records + count ≤ 2 ^ 25 }
        requires sound { AreAttached [] self.old.attached }
        ensures some { IfSome result (λ n. (x : Id) × IsNewest self.old.attached newest x × PutEach self.old self.new x newest at count n) }
        ensures few { IfSome result (λ n. n ≤ 2 ^ 25) }
        ensures lost { self.new.lost ≡ self.old.lost }
        ensures none { IfNone result (self.new ≡ self.old) }
    {
        if !self.targets.add_typed(newest, count) {
            return None;
        }
        match self.tree.type_on(newest, count, at) {
            Some(first) => Some(first),
            None => {
                self.targets.take_back_typed(newest, count);
                None
            }
        }
    }

    /// Whether the history may have so many more events.
    fn has_room_for_events(&self, count: u32) -> bool
        ensures { IsTrue result → length self.now.targets + count ≤ most }
    {
        count <= MOST && self.targets.len() <= (MOST - count) as usize
    }

    /// Whether the history may have so many more events, and the text as many more characters.
    fn has_room_for(&self, count: u32) -> bool
        ensures events { IsTrue result → length self.now.targets + count ≤ most }
        ensures text { IsTrue result → shown_in self.now.records + count ≤ most }
    {
        self.has_room_for_events(count) && self.tree.shown() <= MOST - count
    }

    /// Puts the character of a new event into the tree. Answers its index in the text. Counts a want of memory.
    fn put(&mut self, lv: u32, id: Id, slot: Slot) -> Result<u32, NoMem>
        requires hangs { MayHang self.old lv id slot }
        requires new { target_at self.old.targets lv ≡ None }
        requires sound { AreAttached [] self.old.attached }
        ensures ok { IfOk result (λ at. Puts self.old self.new lv id slot at) }
        ensures err { OnErr result (self.new ≡ with_lost self.old (one_more self.old.lost)) }
    {
        if let Err(e) = self.targets.add(lv, Node::Event(lv)) {
            self.lost = one_more(self.lost);
            return Err(e);
        }
        match self.tree.insert(slot, id, lv) {
            Ok(at) => Ok(at),
            Err(e) => {
                self.targets.take_back(lv);
                self.lost = one_more(self.lost);
                Err(e)
            }
        }
    }

    /// Applies the deletion of the character at an index of the prepared version, and prepares it too. Answers what that does to
    /// the text.
    ///
    /// `OutOfRange` where the prepared text has no character at the index. Else `OutOfMemory` for want of memory, or where the
    /// state holds 2^24 events. After each of them the state is as it was before, but that `lost` counts each `OutOfMemory`.
    pub fn apply_del<L: Ledger>(
        &mut self,
        lv: u32,
        at: u32,
        steps: &mut Steps<L>,
    ) -> Result<TextOp, ApplyFault>
        requires { (b : ℕ) × (events : List (Applied ℕ)) × (prepared : List ℕ) × StandsFor self.old b events prepared × MayDelete events lv }
        ensures op { (b : ℕ) (events : List (Applied ℕ)) (prepared : List ℕ) → StandsFor self.old b events prepared → MayDelete events lv → IfOk result (λ op. op ≡ next_operation nat_eq b (tree_of nat_eq b events) (next_of lv (DeleteAt at) prepared)) }
        ensures ok { (b : ℕ) (events : List (Applied ℕ)) (prepared : List ℕ) → StandsFor self.old b events prepared → MayDelete events lv → OnOk result (StandsFor self.new b (events ++ next_of lv (DeleteAt at) prepared ∷ []) (lv ∷ prepared)) }
        ensures out_of_range { (b : ℕ) (events : List (Applied ℕ)) (prepared : List ℕ) → StandsFor self.old b events prepared → (len : ℕ) → (result ≡ Err (apply.OutOfRange len)) ↔ ((len ≡ length (visible (prepared_entries b events prepared))) × (len ≤ at)) }
        ensures err { OnErr result (self.new ≡ with_lost self.old self.new.lost) }
        ensures lost { self.new.lost ≡ lost_after result self.old.lost }
        ensures steps { steps.new ≡ steps.old + 1 }
    {
        steps.tick();
        self.delete(lv, at)
    }

    /// The same, with no step counted.
    fn delete(&mut self, lv: u32, at: u32) -> Result<TextOp, ApplyFault>
        requires { (b : ℕ) × (events : List (Applied ℕ)) × (prepared : List ℕ) × StandsFor self.old b events prepared × MayDelete events lv }
        ensures op { (b : ℕ) (events : List (Applied ℕ)) (prepared : List ℕ) → StandsFor self.old b events prepared → MayDelete events lv → IfOk result (λ op. op ≡ next_operation nat_eq b (tree_of nat_eq b events) (next_of lv (DeleteAt at) prepared)) }
        ensures ok { (b : ℕ) (events : List (Applied ℕ)) (prepared : List ℕ) → StandsFor self.old b events prepared → MayDelete events lv → OnOk result (StandsFor self.new b (events ++ next_of lv (DeleteAt at) prepared ∷ []) (lv ∷ prepared)) }
        ensures out_of_range { (b : ℕ) (events : List (Applied ℕ)) (prepared : List ℕ) → StandsFor self.old b events prepared → (len : ℕ) → (result ≡ Err (apply.OutOfRange len)) ↔ ((len ≡ length (visible (prepared_entries b events prepared))) × (len ≤ at)) }
        ensures err { OnErr result (self.new ≡ with_lost self.old self.new.lost) }
        ensures lost { self.new.lost ≡ lost_after result self.old.lost }
    {
        let Some(deletion) = self.tree.deletion_at(at) else {
            return Err(ApplyFault::OutOfRange {
                len: self.prepared_len(),
            });
        };
        if !self.has_room_for_event() {
            self.lost = one_more(self.lost);
            return Err(ApplyFault::OutOfMemory);
        }
        self.strike(lv, deletion.node)?;
        Ok(deletion.op)
    }

    /// Applies deletions by the events at the positions from this on, one after another, each of the character at an index of the
    /// prepared version: at most so many, and at least two. Prepares them too. Answers how many they are, and their index in the text.
    /// None may come at any time: then nothing has changed, and the deletions are to be applied one by one. No step is counted.
    ///
    /// After an error for want of memory the state is as it was before, but that `lost` counts it.
    pub fn delete_run(&mut self, lv: u32, most: u32, at: u32) -> Result<Option<Deleted>, NoMem>
        requires few { lv + most < 2 ^ 32 }
        requires may { (b : ℕ) × (events : List (Applied ℕ)) × (prepared : List ℕ) × StandsFor self.old b events prepared × MayDeleteEach events lv most }
        ensures deleted { IfOk result (λ o. IfSome o (λ d. DeletedEach self.old self.new lv at (deletion_op d.index) d.count)) }
        ensures some { IfOk result (λ o. IfSome o (λ d. 1 < d.count)) }
        ensures most { IfOk result (λ o. IfSome o (λ d. d.count ≤ most)) }
        ensures none { IfOk result (λ o. IfNone o (self.new ≡ self.old)) }
        ensures err { OnErr result (self.new ≡ with_lost self.old (one_more self.old.lost)) }
        ensures lost { OnOk result (self.new.lost ≡ self.old.lost) }
    {
        if most < 2 {
            return Ok(None);
        }
        let Some(deletions) = self.tree.deletions_at(at, most) else {
            return Ok(None);
        };
        if deletions.count < 2 || !self.has_room_for_events(deletions.count) {
            return Ok(None);
        }
        let done = self.strike_run(lv, deletions.first, deletions.count)?;
        if done {
            Ok(Some(Deleted {
                count: deletions.count,
                index: deletions.index,
            }))
        } else {
            Ok(None)
        }
    }

    /// Notes the deletions of so many characters from a node's on, one after another. Answers whether that was done. It is where they are
    /// of one run and visible in what is prepared; where not, nothing has changed. Counts a want of memory.
    fn strike_run(&mut self, lv: u32, first: Node, count: u32) -> Result<bool, NoMem>
        requires few { lv + count < 2 ^ 32 }
        requires numbers { HasNumbers first count }
        requires room { AllByRecursion HasRoom self.old.records }
        requires new { (k : ℕ) → k < count → target_at self.old.targets (lv + k) ≡ None }
        ensures yes { IfOk result (λ done. IsTrue done → self.new ≡ with_deletions self.old lv first count) }
        ensures no { IfOk result (λ done. done ≡ false → self.new ≡ self.old) }
        ensures err { OnErr result (self.new ≡ with_lost self.old (one_more self.old.lost)) }
    {
        if let Err(e) = self.targets.add_deletions(lv, first, count) {
            self.lost = one_more(self.lost);
            return Err(e);
        }
        match self.tree.delete_run(first, count) {
            Ok(true) => Ok(true),
            Ok(false) => {
                self.targets.take_back_deletions(lv, first, count);
                Ok(false)
            }
            Err(e) => {
                self.targets.take_back_deletions(lv, first, count);
                self.lost = one_more(self.lost);
                Err(e)
            }
        }
    }

    /// Notes the deletion of a character. Counts a want of memory.
    fn strike(&mut self, lv: u32, node: Node) -> Result<(), NoMem>
        requires room { AllByRecursion HasRoom self.old.records }
        requires new { target_at self.old.targets lv ≡ None }
        requires few { length self.old.records ≤ 2 ^ 25 }
        requires sound { AreAttached [] self.old.attached }
        requires there { is_there self.old.attached node ≡ true }
        ensures ok { OnOk result (self.new ≡ with_deletion self.old lv node) }
        ensures err { OnErr result (self.new ≡ with_lost self.old (one_more self.old.lost)) }
    {
        if let Err(e) = self.targets.add(lv, node) {
            self.lost = one_more(self.lost);
            return Err(e);
        }
        match self.tree.change(node, Change::Strike) {
            Ok(()) => Ok(()),
            Err(e) => {
                self.targets.take_back(lv);
                self.lost = one_more(self.lost);
                Err(e)
            }
        }
    }

    /// Applies a mark, and prepares it too. Answers that it does nothing to the text.
    ///
    /// An error for want of memory, or where the state holds 2^24 events. After it the state is as it was before, but that
    /// `lost` counts it.
    pub fn apply_mark<L: Ledger>(&mut self, lv: u32, steps: &mut Steps<L>) -> Result<TextOp, NoMem>
        requires { (b : ℕ) × (events : List (Applied ℕ)) × (prepared : List ℕ) × StandsFor self.old b events prepared × MayMark events lv }
        ensures op { (b : ℕ) (events : List (Applied ℕ)) (prepared : List ℕ) → StandsFor self.old b events prepared → MayMark events lv → IfOk result (λ op. op ≡ next_operation nat_eq b (tree_of nat_eq b events) (next_of lv MarkAs prepared)) }
        ensures ok { (b : ℕ) (events : List (Applied ℕ)) (prepared : List ℕ) → StandsFor self.old b events prepared → MayMark events lv → OnOk result (StandsFor self.new b (events ++ next_of lv MarkAs prepared ∷ []) (lv ∷ prepared)) }
        ensures err { OnErr result (self.new ≡ with_lost self.old (one_more self.old.lost)) }
        ensures lost { OnOk result (self.new.lost ≡ self.old.lost) }
        ensures steps { steps.new ≡ steps.old + 1 }
    {
        steps.tick();
        self.note_mark(lv)?;
        Ok(TextOp::Nothing)
    }

    /// Notes a mark. Counts a want of memory.
    fn note_mark(&mut self, lv: u32) -> Result<(), NoMem>
        requires { (b : ℕ) × (events : List (Applied ℕ)) × (prepared : List ℕ) × StandsFor self.old b events prepared × MayMark events lv }
        ensures ok { OnOk result (self.new ≡ with_mark self.old lv) }
        ensures room { (b : ℕ) (events : List (Applied ℕ)) (prepared : List ℕ) → StandsFor self.old b events prepared → OnOk result (length events < most) }
        ensures err { OnErr result (self.new ≡ with_lost self.old (one_more self.old.lost)) }
    {
        if !self.has_room_for_event() {
            self.lost = one_more(self.lost);
            return Err(NoMem);
        }
        if let Err(e) = self.targets.add(lv, Node::Root) {
            self.lost = one_more(self.lost);
            return Err(e);
        }
        Ok(())
    }

    /// Puts an applied event into the prepared version.
    pub fn advance<L: Ledger>(&mut self, lv: u32, steps: &mut Steps<L>) -> Result<(), NoMem>
        requires { (b : ℕ) × (events : List (Applied ℕ)) × (prepared : List ℕ) × StandsFor self.old b events prepared × MayAdvanceTo events prepared lv }
        ensures ok { (b : ℕ) (events : List (Applied ℕ)) (prepared : List ℕ) → StandsFor self.old b events prepared → MayAdvanceTo events prepared lv → OnOk result (StandsFor self.new b events (lv ∷ prepared)) }
        ensures err { OnErr result (self.new ≡ self.old) }
        ensures lost { self.new.lost ≡ self.old.lost }
        ensures steps { steps.new ≡ steps.old + 1 }
    {
        steps.tick();
        if let Some(node) = self.targets.node(lv) {
            // A mark is about no character.
            if node != Node::Root {
                self.tree.change(node, Change::Raise)?;
            }
        }
        Ok(())
    }

    /// Takes an event out of the prepared version.
    pub fn retreat<L: Ledger>(&mut self, lv: u32, steps: &mut Steps<L>) -> Result<(), NoMem>
        requires { (b : ℕ) × (events : List (Applied ℕ)) × (prepared : List ℕ) × StandsFor self.old b events prepared × MayRetreatFrom events prepared lv }
        ensures ok { (b : ℕ) (events : List (Applied ℕ)) (prepared : List ℕ) → StandsFor self.old b events prepared → MayRetreatFrom events prepared lv → OnOk result (StandsFor self.new b events (without lv prepared)) }
        ensures err { OnErr result (self.new ≡ self.old) }
        ensures lost { self.new.lost ≡ self.old.lost }
        ensures steps { steps.new ≡ steps.old + 1 }
    {
        steps.tick();
        if let Some(node) = self.targets.node(lv) {
            // A mark is about no character.
            if node != Node::Root {
                self.tree.change(node, Change::Lower)?;
            }
        }
        Ok(())
    }

    /// Puts the events at the positions from `from` on that are below `to` into the prepared version, one after another from the
    /// lowest position up. After an error for want of memory a front of these moves was made, and not all: the events
    /// below some position of the span came in, and those from there on didn't.
    pub fn advance_span<L: Ledger>(
        &mut self,
        from: u32,
        to: u32,
        steps: &mut Steps<L>,
    ) -> Result<(), NoMem>
        requires order { from ≤ to }
        requires may { (b : ℕ) × (events : List (Applied ℕ)) × (prepared : List ℕ) × StandsFor self.old b events prepared × MayAdvanceEach events prepared (range_with_len from (to - from)) }
        ensures ok { (b : ℕ) (events : List (Applied ℕ)) (prepared : List ℕ) → StandsFor self.old b events prepared → MayAdvanceEach events prepared (range_with_len from (to - from)) → OnOk result (StandsFor self.new b events (after_advances prepared (range_with_len from (to - from)))) }
        ensures err { (b : ℕ) (events : List (Applied ℕ)) (prepared : List ℕ) → StandsFor self.old b events prepared → MayAdvanceEach events prepared (range_with_len from (to - from)) → OnErr result (PartAdvanced self.new b events prepared (range_with_len from (to - from))) }
        ensures lost { self.new.lost ≡ self.old.lost }
        ensures steps { OnOk result (steps.new ≡ steps.old + (to - from)) }
        ensures most { steps.new ≤ steps.old + (to - from) }
    {
        let mut at = from;
        let mut line = None;
        while at < to {
            let here = self.line_on(line, at, Way::Up, to - at);
            let next = self.advance_some(Positions { from: at, to }, here, steps)?;
            line = behind(here, Way::Up, next - at);
            at = next;
        }
        Ok(())
    }

    /// Puts the first of the events at these positions into the prepared version, and with it those behind it whose characters
    /// are one run with its own. Answers the position of the next.
    fn advance_some<L: Ledger>(
        &mut self,
        at: Positions,
        line: Option<Line>,
        steps: &mut Steps<L>,
    ) -> Result<u32, NoMem>
        requires some { at.from < at.to }
        requires may { (b : ℕ) × (events : List (Applied ℕ)) × (prepared : List ℕ) × StandsFor self.old b events prepared × MayAdvanceEach events prepared (range_with_len at.from (at.to - at.from)) }
        requires line { IfSome line (IsLineFrom lines.Up self.old.targets at.from (at.to - at.from)) }
        ensures low { IfOk result (λ next. at.from < next) }
        ensures high { IfOk result (λ next. next ≤ at.to) }
        ensures ok { (b : ℕ) (events : List (Applied ℕ)) (prepared : List ℕ) → StandsFor self.old b events prepared → MayAdvanceEach events prepared (range_with_len at.from (at.to - at.from))
            → IfOk result (λ next. Advanced self.new b events prepared (range_with_len at.from (at.to - at.from)) (range_with_len next (at.to - next))) }
        ensures err { OnErr result (self.new ≡ self.old) }
        ensures lost { self.new.lost ≡ self.old.lost }
        ensures steps { IfOk result (λ next. steps.new + at.from ≡ steps.old + next) }
        ensures most { OnErr result (steps.new ≡ steps.old + 1) }
    {
        match self.raise(at, line) {
            Some(count) => {
                tick_each(count, steps);
                Ok(at.from + count)
            }
            None => {
                self.advance(at.from, steps)?;
                Ok(at.from + 1)
            }
        }
    }

    /// The line, if there is one, or else one that begins with an event and has at most so many.
    fn line_on(&mut self, line: Option<Line>, event: u32, order: Way, most: u32) -> Option<Line>
        requires { IfSome line (IsLineFrom order self.old.targets event most) }
        ensures line { IfSome result (IsLineFrom order self.old.targets event most) }
        ensures same { self.new ≡ self.old }
    {
        self.targets.line_on(line, event, order, most)
    }

    /// Puts the first of the events at these positions into the prepared version, and with it those events of the line behind it whose
    /// characters are one run with its own. Answers how many they are. None, and nothing changes, where there is no line, or where that
    /// run has a character that isn't one of the line's.
    fn raise(&mut self, at: Positions, line: Option<Line>) -> Option<u32>
        requires some { at.from < at.to }
        requires may { (b : ℕ) × (events : List (Applied ℕ)) × (prepared : List ℕ) × StandsFor self.old b events prepared × MayAdvanceEach events prepared (range_with_len at.from (at.to - at.from)) }
        requires line { IfSome line (IsLineFrom lines.Up self.old.targets at.from (at.to - at.from)) }
        ensures some { IfSome result (λ n. 0 < n) }
        ensures most { IfSome result (λ n. at.from + n ≤ at.to) }
        ensures ok { (b : ℕ) (events : List (Applied ℕ)) (prepared : List ℕ) → StandsFor self.old b events prepared → MayAdvanceEach events prepared (range_with_len at.from (at.to - at.from))
            → IfSome result (λ n. Advanced self.new b events prepared (range_with_len at.from (at.to - at.from)) (range_with_len (at.from + n) (at.to - (at.from + n)))) }
        ensures none { IfNone result (self.new ≡ self.old) }
        ensures lost { self.new.lost ≡ self.old.lost }
    {
        let line = line?;
        let characters = line.characters()?;
        let moved = self
            .tree
            .change_run(line.kind, line.character, characters, Change::Raise)?;
        Some(moved.to - moved.from)
    }

    /// Takes the events at the positions from `from` on that are below `to` out of the prepared version, one after another from
    /// the highest position down. Where they are all that was applied, one way over the runs takes them out. After an error for
    /// want of memory a front of these moves was made, and not all: the events above some position of the span went out, and
    /// those up to there didn't.
    pub fn retreat_span<L: Ledger>(
        &mut self,
        from: u32,
        to: u32,
        steps: &mut Steps<L>,
    ) -> Result<(), NoMem>
        requires order { from ≤ to }
        requires may { (b : ℕ) × (events : List (Applied ℕ)) × (prepared : List ℕ) × StandsFor self.old b events prepared × MayRetreatEach events prepared (reverse (range_with_len from (to - from))) }
        ensures ok { (b : ℕ) (events : List (Applied ℕ)) (prepared : List ℕ) → StandsFor self.old b events prepared → MayRetreatEach events prepared (reverse (range_with_len from (to - from))) → OnOk result (StandsFor self.new b events (after_retreats prepared (reverse (range_with_len from (to - from))))) }
        ensures err { (b : ℕ) (events : List (Applied ℕ)) (prepared : List ℕ) → StandsFor self.old b events prepared → MayRetreatEach events prepared (reverse (range_with_len from (to - from))) → OnErr result (PartRetreated self.new b events prepared (reverse (range_with_len from (to - from)))) }
        ensures lost { self.new.lost ≡ self.old.lost }
        ensures steps { OnOk result (steps.new ≡ steps.old + (to - from)) }
        ensures most { steps.new ≤ steps.old + (to - from) }
    {
        let all = Positions { from, to };
        if self.targets.are_within(all) {
            self.rest(all, steps);
            return Ok(());
        }
        let mut at = to;
        let mut line = None;
        while from < at {
            let here = self.line_on(line, at - 1, Way::Down, at - from);
            let next = self.retreat_some(Positions { from, to: at }, here, steps)?;
            line = behind(here, Way::Down, at - next);
            at = next;
        }
        Ok(())
    }

    /// Takes all applied events, which are at these positions, out of the prepared version. Counts a step for each position.
    fn rest<L: Ledger>(&mut self, at: Positions, steps: &mut Steps<L>)
        requires order { at.from ≤ at.to }
        requires stands { (b : ℕ) × (events : List (Applied ℕ)) × (prepared : List ℕ) × StandsFor self.old b events prepared }
        requires within { AreWithin at (target_at self.old.targets) }
        ensures rests { (b : ℕ) (events : List (Applied ℕ)) (prepared : List ℕ) → StandsFor self.old b events prepared → StandsFor self.new b events [] }
        ensures lost { self.new.lost ≡ self.old.lost }
        ensures steps { steps.new ≡ steps.old + (at.to - at.from) }
    {
        tick_each(at.to - at.from, steps);
        self.tree.rest(at);
    }

    /// Takes the last of the events at these positions out of the prepared version, and with it those before it whose characters
    /// are one run with its own. Answers the first position that was taken out.
    fn retreat_some<L: Ledger>(
        &mut self,
        at: Positions,
        line: Option<Line>,
        steps: &mut Steps<L>,
    ) -> Result<u32, NoMem>
        requires some { at.from < at.to }
        requires may { (b : ℕ) × (events : List (Applied ℕ)) × (prepared : List ℕ) × StandsFor self.old b events prepared × MayRetreatEach events prepared (reverse (range_with_len at.from (at.to - at.from))) }
        requires line { IfSome line (IsLineFrom lines.Down self.old.targets (at.to - 1) (at.to - at.from)) }
        ensures low { IfOk result (λ next. at.from ≤ next) }
        ensures high { IfOk result (λ next. next < at.to) }
        ensures ok { (b : ℕ) (events : List (Applied ℕ)) (prepared : List ℕ) → StandsFor self.old b events prepared → MayRetreatEach events prepared (reverse (range_with_len at.from (at.to - at.from)))
            → IfOk result (λ next. Retreated self.new b events prepared (reverse (range_with_len at.from (at.to - at.from))) (reverse (range_with_len at.from (next - at.from)))) }
        ensures err { OnErr result (self.new ≡ self.old) }
        ensures lost { self.new.lost ≡ self.old.lost }
        ensures steps { IfOk result (λ next. steps.new + next ≡ steps.old + at.to) }
        ensures most { OnErr result (steps.new ≡ steps.old + 1) }
    {
        let last = at.to - 1;
        match self.lower(at, line) {
            Some(count) => {
                tick_each(count, steps);
                Ok(at.to - count)
            }
            None => {
                self.retreat(last, steps)?;
                Ok(last)
            }
        }
    }

    /// Takes the last of the events at these positions out of the prepared version, and with it those events of the line before it whose
    /// characters are one run with its own. Answers how many they are. None, and nothing changes, where there is no line, or where that
    /// run has a character that isn't one of the line's.
    fn lower(&mut self, at: Positions, line: Option<Line>) -> Option<u32>
        requires some { at.from < at.to }
        requires may { (b : ℕ) × (events : List (Applied ℕ)) × (prepared : List ℕ) × StandsFor self.old b events prepared × MayRetreatEach events prepared (reverse (range_with_len at.from (at.to - at.from))) }
        requires line { IfSome line (IsLineFrom lines.Down self.old.targets (at.to - 1) (at.to - at.from)) }
        ensures some { IfSome result (λ n. 0 < n) }
        ensures most { IfSome result (λ n. at.from + n ≤ at.to) }
        ensures ok { (b : ℕ) (events : List (Applied ℕ)) (prepared : List ℕ) → StandsFor self.old b events prepared → MayRetreatEach events prepared (reverse (range_with_len at.from (at.to - at.from)))
            → IfSome result (λ n. Retreated self.new b events prepared (reverse (range_with_len at.from (at.to - at.from))) (reverse (range_with_len at.from ((at.to - n) - at.from)))) }
        ensures none { IfNone result (self.new ≡ self.old) }
        ensures lost { self.new.lost ≡ self.old.lost }
    {
        let line = line?;
        let characters = line.characters()?;
        let moved = self
            .tree
            .change_run(line.kind, line.character, characters, Change::Lower)?;
        Some(moved.to - moved.from)
    }

    /// The positions of the inserted characters, deleted ones too, in the order of the tree: where the base has no characters.
    pub fn order(&mut self) -> Result<Vec<u32>, NoMem>
        requires { (events : List (Applied ℕ)) × (prepared : List ℕ) × StandsFor self.old 0 events prepared }
        ensures order { (events : List (Applied ℕ)) (prepared : List ℕ) → StandsFor self.old 0 events prepared → IfOk result (λ ps. AreInOrder (tree_of nat_eq 0 events) ps.items) }
        ensures same { self.new ≡ self.old }
    {
        self.tree.event_positions()
    }

    /// The position of the insertion whose character the deletion at a position deletes, where the base has no characters. None
    /// exactly where no applied event at the position is a deletion.
    pub fn target_of(&self, lv: u32) -> Option<u32>
        requires { (events : List (Applied ℕ)) × (prepared : List ℕ) × StandsFor self.now 0 events prepared }
        ensures some { (events : List (Applied ℕ)) (prepared : List ℕ) → StandsFor self.now 0 events prepared → IfSome result (DeletesOf (tree_of nat_eq 0 events) lv) }
        ensures none { (events : List (Applied ℕ)) (prepared : List ℕ) → StandsFor self.now 0 events prepared → IfNone result (IsNoDeletion (tree_of nat_eq 0 events) lv) }
    {
        self.targets.other(lv)
    }

    /// Forgets all events: what they leave of the text is the base from now on.
    pub fn clear(&mut self) -> Result<(), NoMem>
        requires { (b : ℕ) × (events : List (Applied ℕ)) × (prepared : List ℕ) × StandsFor self.old b events prepared × AllPrepared events prepared }
        ensures ok { (b : ℕ) (events : List (Applied ℕ)) (prepared : List ℕ) → StandsFor self.old b events prepared → OnOk result (StandsFor self.new (length (visible (applied_entries b events))) [] []) }
        ensures err { OnErr result (self.new ≡ self.old) }
        ensures lost { OnOk result (self.new.lost ≡ 0) }
    {
        let alloc = self.targets.allocator();
        *self = State::base(alloc, self.effect_len())?;
        Ok(())
    }
}

/// One more, up to the last number.
fn one_more(n: u32) -> u32
    ensures { result ≡ one_more n }
{
    n.saturating_add(1)
}

/// Counts so many steps.
fn tick_each<L: Ledger>(count: u32, steps: &mut Steps<L>)
    ensures { steps.new ≡ steps.old + count }
{
    for _ in 0..count {
        steps.tick();
    }
}
