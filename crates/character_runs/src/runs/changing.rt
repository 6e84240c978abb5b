//! Runs that get other states.

ghost use Rattle.std.specs.Prelude.{◌≡◌, ◌+◌, ◌-◌, ◌<◌, ◌≤◌, ◌^◌, ℕ, List, map, length, Contains, Bool, true, IfOk, OnOk, OnErr, IfSome, IfNone};
ghost use Rattle.std.specs.List.{AllByRecursion, list_any};
ghost use Rattle.ew_model.specs.declared.node.Node.{Node as Nodes};
ghost use Rattle.walker_record.specs.Stretches.{Stretch, node_on, prepared_of, effect_of};
ghost use Rattle.order_tree.specs.Pairs.{runs, IsRising, changed as with_run};
ghost use Rattle.character_runs.specs.States.{is_inserted, is_of, knows, sees, changed, changed_at, HasRoom};
ghost use Rattle.character_runs.specs.Deleting.{struck_each, AreAllAmong};
ghost use Rattle.character_runs.specs.Laid.{Stands, IsOffset, AreLabelled, chars_in};
ghost use Rattle.character_runs.specs.Loose.{loose_in, MayBeCut};
ghost use Rattle.character_runs.specs.Replacing.{StaysOr, AreNodesOf, ArePart, Recounted, node_by, changed_among, changed_in, were_inserted, are_inserted, LiesWithin, Recasts, MayRecast};

use crate::change::{Change, Kind, Positions, changed};
use crate::offsets::{node_at, offset_in};
use crate::runs::Runs;
use crate::runs::reading::Found;
use ew_model::NoMem;
use ew_model::node::Node;
use ew_model::run::Run;
use ew_model::steps::Steps;
use order_tree::Alteration;
use std::sync::ledger::Ledger;
use walker_record::Record;

/// A run before a change of its characters' states, and after it.
#[derive(Clone, Copy)]
pub struct Altered {
    pub before: Record,
    pub after: Record,
}

/// Whether characters are inserted in what is prepared, before a change of their states and after it.
#[derive(Clone, Copy)]
pub struct Known {
    pub was: bool,
    pub is: bool,
}

/// The numbers of a run's characters, and the run before a change of their characters' states and after it.
#[derive(Clone, Copy)]
pub struct Recast {
    pub numbers: Positions,
    pub altered: Altered,
}

impl Altered {
    /// How many characters are visible in what is prepared, where so many were before the change.
    pub fn visible(&self, count: u32) -> u32
        requires some { prepared_of self.now.before ≤ count }
        requires few { count + prepared_of self.now.after < 2 ^ 32 }
        ensures { result + prepared_of self.now.before ≡ count + prepared_of self.now.after }
    {
        count - self.before.prepared_sum() + self.after.prepared_sum()
    }

    /// How many are in the text, where so many were before the change.
    pub fn shown(&self, count: u32) -> u32
        requires some { effect_of self.now.before ≤ count }
        requires few { count + effect_of self.now.after < 2 ^ 32 }
        ensures { result + effect_of self.now.before ≡ count + effect_of self.now.after }
    {
        count - self.before.effect_sum() + self.after.effect_sum()
    }

    /// Whether its characters are inserted, before the change and after it.
    pub fn known(&self) -> Known
        ensures { result ≡ record { was = is_inserted self.now.before; is = is_inserted self.now.after } }
    {
        Known {
            was: self.before.prepared > 0,
            is: self.after.prepared > 0,
        }
    }
}

/// The numbers of a run's characters, where all of them are of a kind, and their numbers within these.
fn numbers_within(kind: Kind, run: &Record, within: Positions) -> Option<Positions>
    ensures from { IfSome result (λ p. run.now.from ≡ node_by kind p.from) }
    ensures to { IfSome result (λ p. p.from + run.now.len ≡ p.to) }
    ensures first { IfSome result (λ p. within.from ≤ p.from) }
    ensures last { IfSome result (λ p. p.to ≤ within.to) }
    ensures none { IfNone result (LiesWithin kind run.now within → ⊥) }
{
    let from = kind.number(run.from)?;
    if from < within.from || from > within.to || run.len > within.to - from {
        return None;
    }
    Some(Positions {
        from,
        to: from + run.len,
    })
}

/// A change of the states of the run with a node's character, where all of its characters are of a kind, and their numbers within
/// these.
#[derive(Clone, Copy)]
struct Recasting {
    kind: Kind,
    node: Node,
    within: Positions,
    change: Change,
}

impl Alteration<Record> for Recasting {
    ghost suits = { λ a. MayRecast };

    ghost makes = { Recasts };

    fn alter(&self, run: &Record) -> Option<Record> {
        offset_in(run, self.node)?;
        numbers_within(self.kind, run, self.within)?;
        Some(changed(*run, self.change))
    }
}

impl Runs {
    /// Makes a run of a node's character alone, which was found. Answers that run; there is one, so that None never comes. After an
    /// error for want of memory the characters are the same.
    fn lone<L: Ledger>(
        &mut self,
        node: Node,
        found: Found,
        visits: &mut Steps<L>,
    ) -> Result<Option<Found>, NoMem>
        requires laid { AreLabelled self.old.tree.pairs self.old.labels }
        requires held { Contains self.old.tree.pairs (found.label, found.run) }
        requires offset { IsOffset found.run node found.offset }
        ensures laid { AreLabelled self.new.tree.pairs self.new.labels }
        ensures chars { chars_in self.new.tree.pairs ≡ chars_in self.old.tree.pairs }
        ensures held { IfOk result (λ o. IfSome o (λ f. Contains self.new.tree.pairs (f.label, f.run))) }
        ensures node { IfOk result (λ o. IfSome o (λ f. f.run.from ≡ node)) }
        ensures alone { IfOk result (λ o. IfSome o (λ f. f.run.len ≡ 1)) }
        ensures none { IfOk result (λ o. IfNone o ((label n : ℕ) → Stands self.new.tree.pairs label n node → ⊥)) }
        ensures cut { (mid : List Stretch) × MayBeCut (runs self.old.tree.pairs) mid node × MayBeCut mid (runs self.new.tree.pairs) (node_on node 1) }
        ensures rising { OnOk result (IsRising self.new.tree.pairs) }
    {
        let Some(begun) = self.begin_found(node, found, visits)? else {
            self.facts();
            return Ok(None);
        };
        let lone = self.end_found(node, begun, visits)?;
        self.facts();
        Ok(lone)
    }

    /// Makes a run of so many characters from the first on, which stand in a run that was found. Answers that run. After an error for
    /// want of memory the characters are the same.
    fn part<L: Ledger>(
        &mut self,
        first: Node,
        count: u32,
        found: Found,
        visits: &mut Steps<L>,
    ) -> Result<Found, NoMem>
        requires laid { AreLabelled self.old.tree.pairs self.old.labels }
        requires held { Contains self.old.tree.pairs (found.label, found.run) }
        requires offset { IsOffset found.run first found.offset }
        requires some { 0 < count }
        requires inside { found.offset + count ≤ found.run.len }
        ensures laid { AreLabelled self.new.tree.pairs self.new.labels }
        ensures chars { chars_in self.new.tree.pairs ≡ chars_in self.old.tree.pairs }
        ensures held { IfOk result (λ f. Contains self.new.tree.pairs (f.label, f.run)) }
        ensures first { IfOk result (λ f. f.run.from ≡ first) }
        ensures long { IfOk result (λ f. f.run.len ≡ count) }
        ensures prepared { IfOk result (λ f. f.run.prepared ≡ found.run.prepared) }
        ensures cut { (mid : List Stretch) × MayBeCut (runs self.old.tree.pairs) mid first × MayBeCut mid (runs self.new.tree.pairs) (node_on (node_on first (count - 1)) 1) }
    {
        self.facts();
        let Some(begun) = self.begin_found(first, found, visits)? else {
            unreachable!()
        };
        self.facts();
        let last = node_at(&begun.run, count - 1);
        let behind = Found {
            offset: count - 1,
            ..begun
        };
        let Some(part) = self.end_found(last, behind, visits)? else {
            unreachable!()
        };
        self.facts();
        Ok(part)
    }

    /// Deletes so many characters from a node's on, one after another. Answers the run that they were and the one that they are then.
    /// It is done where they are of one run and visible in what is prepared; where not, nothing has changed. After an error for want of
    /// memory the characters are the same.
    pub fn delete_part<L: Ledger>(
        &mut self,
        first: Node,
        count: u32,
        visits: &mut Steps<L>,
    ) -> Result<Option<Altered>, NoMem>
        requires laid { AreLabelled self.old.tree.pairs self.old.labels }
        requires room { AllByRecursion HasRoom (chars_in self.old.tree.pairs) }
        requires few { length (chars_in self.old.tree.pairs) < 2 ^ 32 }
        ensures laid { AreLabelled self.new.tree.pairs self.new.labels }
        ensures chars { IfOk result (λ o. IfSome o (λ _. chars_in self.new.tree.pairs ≡ struck_each (chars_in self.old.tree.pairs) first count)) }
        ensures visible { IfOk result (λ o. IfSome o (λ _. (k : ℕ) → k < count → sees (chars_in self.old.tree.pairs) (node_on first k) ≡ true)) }
        ensures recounted { IfOk result (λ o. IfSome o (Recounted (chars_in self.old.tree.pairs) (chars_in self.new.tree.pairs))) }
        ensures none { IfOk result (λ o. IfNone o (self.new ≡ self.old)) }
        ensures err { OnErr result (chars_in self.new.tree.pairs ≡ chars_in self.old.tree.pairs) }
        ensures known { (v : Nodes) → knows (chars_in self.new.tree.pairs) v ≡ knows (chars_in self.old.tree.pairs) v }
        ensures loose { (among : Nodes → Bool) → loose_in among (runs self.new.tree.pairs) ≤ loose_in among (runs self.old.tree.pairs) + 2 }
        ensures told { (among : Nodes → Bool) → AreAllAmong among first count → loose_in among (runs self.new.tree.pairs) ≤ loose_in among (runs self.old.tree.pairs) }
    {
        let Some(found) = self.run_of(first, visits) else {
            return Ok(None);
        };
        if count == 0 || count > found.run.len - found.offset || found.run.prepared != 1 {
            return Ok(None);
        }
        let part = self.part(first, count, found, visits)?;
        Ok(Some(self.recast(part, Change::Strike, visits)))
    }

    /// Changes the states of a run's characters.
    fn recast<L: Ledger>(&mut self, found: Found, change: Change, visits: &mut Steps<L>) -> Altered
        requires laid { AreLabelled self.old.tree.pairs self.old.labels }
        requires held { Contains self.old.tree.pairs (found.label, found.run) }
        requires some { 0 < found.run.len }
        requires room { AllByRecursion HasRoom (chars_in self.old.tree.pairs) }
        requires few { length (chars_in self.old.tree.pairs) < 2 ^ 32 }
        ensures altered { result ≡ record { before = found.run; after = changed change found.run } }
        ensures pairs { self.new.tree.pairs ≡ with_run self.old.tree.pairs found.label (changed change found.run) }
        ensures laid { AreLabelled self.new.tree.pairs self.new.labels }
        ensures chars { (among : Nodes → Bool) → AreNodesOf found.run among → chars_in self.new.tree.pairs ≡ map (changed_among among change) (chars_in self.old.tree.pairs) }
        ensures recounted { Recounted (chars_in self.old.tree.pairs) (chars_in self.new.tree.pairs) result }
        ensures was { (v : Nodes) (n : ℕ) → IsOffset found.run v n → knows (chars_in self.old.tree.pairs) v ≡ is_inserted result.before }
        ensures is { (v : Nodes) (n : ℕ) → IsOffset found.run v n → knows (chars_in self.new.tree.pairs) v ≡ is_inserted result.after }
        ensures loose { (among : Nodes → Bool) → loose_in among (runs self.new.tree.pairs) ≡ loose_in among (runs self.old.tree.pairs) }
    {
        self.facts();
        let after = changed(found.run, change);
        self.tree.change(found.label, after, visits);
        self.facts();
        Altered {
            before: found.run,
            after,
        }
    }

    /// Changes the states of a node's character, which was found, once it is a run of its own. After an error for want of memory the
    /// characters are the same.
    fn change_lone<L: Ledger>(
        &mut self,
        node: Node,
        found: Found,
        change: Change,
        visits: &mut Steps<L>,
    ) -> Result<Option<Altered>, NoMem>
        requires laid { AreLabelled self.old.tree.pairs self.old.labels }
        requires held { Contains self.old.tree.pairs (found.label, found.run) }
        requires offset { IsOffset found.run node found.offset }
        requires room { AllByRecursion HasRoom (chars_in self.old.tree.pairs) }
        requires few { length (chars_in self.old.tree.pairs) < 2 ^ 32 }
        ensures laid { AreLabelled self.new.tree.pairs self.new.labels }
        ensures chars { OnOk result (chars_in self.new.tree.pairs ≡ map (changed_at node change) (chars_in self.old.tree.pairs)) }
        ensures one { IfOk result (StaysOr (chars_in self.old.tree.pairs) (chars_in self.new.tree.pairs)) }
        ensures recounted { IfOk result (λ o. IfSome o (Recounted (chars_in self.old.tree.pairs) (chars_in self.new.tree.pairs))) }
        ensures was { IfOk result (λ o. knows (chars_in self.old.tree.pairs) node ≡ were_inserted o) }
        ensures is { IfOk result (λ o. knows (chars_in self.new.tree.pairs) node ≡ are_inserted o) }
        ensures err { OnErr result (chars_in self.new.tree.pairs ≡ chars_in self.old.tree.pairs) }
        ensures loose { (among : Nodes → Bool) → loose_in among (runs self.new.tree.pairs) ≤ loose_in among (runs self.old.tree.pairs) + 2 }
        ensures told { (among : Nodes → Bool) → among node ≡ true → loose_in among (runs self.new.tree.pairs) ≤ loose_in among (runs self.old.tree.pairs) }
    {
        let Some(found) = self.lone(node, found, visits)? else {
            return Ok(None);
        };
        Ok(Some(self.recast(found, change, visits)))
    }

    /// Changes the states of a node's character, where it has one. After an error for want of memory the characters are the same.
    pub fn change<L: Ledger>(
        &mut self,
        node: Node,
        change: Change,
        visits: &mut Steps<L>,
    ) -> Result<Option<Altered>, NoMem>
        requires laid { AreLabelled self.old.tree.pairs self.old.labels }
        requires room { AllByRecursion HasRoom (chars_in self.old.tree.pairs) }
        requires few { length (chars_in self.old.tree.pairs) < 2 ^ 32 }
        ensures laid { AreLabelled self.new.tree.pairs self.new.labels }
        ensures chars { OnOk result (chars_in self.new.tree.pairs ≡ map (changed_at node change) (chars_in self.old.tree.pairs)) }
        ensures one { IfOk result (StaysOr (chars_in self.old.tree.pairs) (chars_in self.new.tree.pairs)) }
        ensures recounted { IfOk result (λ o. IfSome o (Recounted (chars_in self.old.tree.pairs) (chars_in self.new.tree.pairs))) }
        ensures was { IfOk result (λ o. knows (chars_in self.old.tree.pairs) node ≡ were_inserted o) }
        ensures is { IfOk result (λ o. knows (chars_in self.new.tree.pairs) node ≡ are_inserted o) }
        ensures err { OnErr result (chars_in self.new.tree.pairs ≡ chars_in self.old.tree.pairs) }
        ensures loose { (among : Nodes → Bool) → loose_in among (runs self.new.tree.pairs) ≤ loose_in among (runs self.old.tree.pairs) + 2 }
        ensures told { (among : Nodes → Bool) → among node ≡ true → loose_in among (runs self.new.tree.pairs) ≤ loose_in among (runs self.old.tree.pairs) }
    {
        let Some(found) = self.run_of(node, visits) else {
            return Ok(None);
        };
        match self.struck_ahead(found, change, visits) {
            Some(struck) => Ok(Some(self.shift_first(found, struck, visits)?)),
            None => self.change_lone(node, found, change, visits),
        }
    }

    /// Changes the states of the run of the character of a kind with a number, where all of its characters are of that kind, and their
    /// numbers within these. None, and nothing changes, where there is no such run.
    pub fn change_run<L: Ledger>(
        &mut self,
        kind: Kind,
        number: u32,
        within: Positions,
        change: Change,
        visits: &mut Steps<L>,
    ) -> Option<Recast>
        requires laid { AreLabelled self.old.tree.pairs self.old.labels }
        requires room { AllByRecursion HasRoom (chars_in self.old.tree.pairs) }
        requires few { length (chars_in self.old.tree.pairs) < 2 ^ 32 }
        ensures laid { AreLabelled self.new.tree.pairs self.new.labels }
        ensures part { IfSome result (λ r. ArePart number r.numbers within) }
        ensures told { IfSome result (λ r. (n : ℕ) → r.numbers.from ≤ n → n < r.numbers.to → list_any (is_of (node_by kind n)) (chars_in self.old.tree.pairs) ≡ true) }
        ensures chars { IfSome result (λ r. chars_in self.new.tree.pairs ≡ map (changed_in kind r.numbers change) (chars_in self.old.tree.pairs)) }
        ensures recounted { IfSome result (λ r. Recounted (chars_in self.old.tree.pairs) (chars_in self.new.tree.pairs) r.altered) }
        ensures was { IfSome result (λ r. (n : ℕ) → r.numbers.from ≤ n → n < r.numbers.to → knows (chars_in self.old.tree.pairs) (node_by kind n) ≡ is_inserted r.altered.before) }
        ensures is { IfSome result (λ r. (n : ℕ) → r.numbers.from ≤ n → n < r.numbers.to → knows (chars_in self.new.tree.pairs) (node_by kind n) ≡ is_inserted r.altered.after) }
        ensures none { IfNone result (self.new ≡ self.old) }
        ensures refused { IfNone result ((label n : ℕ) (run : Stretch) → Contains self.old.tree.pairs (label, run) → IsOffset run (node_by kind number) n → LiesWithin kind run within → ⊥) }
        ensures loose { (among : Nodes → Bool) → loose_in among (runs self.new.tree.pairs) ≡ loose_in among (runs self.old.tree.pairs) }
    {
        self.facts();
        let node = kind.node(number);
        let label = self.labels.last_up_to(node)?;
        let recasting = Recasting {
            kind,
            node,
            within,
            change,
        };
        let taken = self.tree.alter(label, &recasting, visits)?;
        self.facts();
        // The run took the change, so all of its characters are of the kind, and their numbers within these.
        let Some(numbers) = numbers_within(kind, &taken.before, within) else {
            unreachable!()
        };
        Some(Recast {
            numbers,
            altered: Altered {
                before: taken.before,
                after: taken.after,
            },
        })
    }
}
