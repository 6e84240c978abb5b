//! Characters that are deleted from the end of a run, or from its front, and go over to others that were.

ghost use Rattle.std.specs.Prelude.{◌≡◌, ◌+◌, ◌≤◌, ◌<◌, ◌^◌, Bool, true, IfSome, IfNone, IfOk, OnOk, OnErr, IsTrue, Some, None, length, map, Contains};
ghost use Rattle.ew_model.specs.declared.node.Node.{Node as Nodes};
ghost use Rattle.ew_model.specs.declared.node.Node.TheVariants as nodes;
ghost use Rattle.order_tree.specs.Pairs.{runs};
ghost use Rattle.character_runs.specs.declared.change.Change.TheVariants as changes;
ghost use Rattle.character_runs.specs.Cursors.{IsCursor, GaveEnd, StandsAhead, last_of, shorter, struck_with, with_end, settled};
ghost use Rattle.character_runs.specs.States.{is_inserted, knows, changed_at};
ghost use Rattle.character_runs.specs.Labelled.{label_of, GoesOver};
ghost use Rattle.character_runs.specs.Laid.{AreLabelled, chars_in};
ghost use Rattle.character_runs.specs.Loose.{loose_in};
ghost use Rattle.character_runs.specs.Replacing.{Replaces, Recounted};

use crate::change::Change;
use crate::cursor::{Cursor, Struck};
use crate::labels::Labels;
use crate::runs::changing::Altered;
use crate::runs::reading::Found;
use crate::runs::{Runs, Spot};
use ew_model::NoMem;
use ew_model::steps::Steps;
use std::sync::ledger::Ledger;
use walker_record::Record;

impl Runs {
    /// Has the last character of a cursor's run, which has others, go over to the struck ones right behind it. Only the labels
    /// are told of that: the runs get the struck ones and the shorter run later. After an error for want of memory the runs are
    /// as before, and the labels are still theirs.
    pub fn shift_end(&mut self, cursor: &Cursor, struck: Struck) -> Result<Struck, NoMem>
        requires laid { AreLabelled (settled self.old.tree.pairs (Some cursor.now)) self.old.labels }
        requires at { IsCursor (settled self.old.tree.pairs (Some cursor.now)) cursor.now }
        requires behind { cursor.now.struck ≡ Some struck }
        requires long { 1 < cursor.now.run.len }
        requires few { length (chars_in (settled self.old.tree.pairs (Some cursor.now))) ≤ 2 ^ 25 }
        ensures same { self.new.tree ≡ self.old.tree }
        ensures laid { IfOk result (λ s. AreLabelled (with_end self.new.tree.pairs cursor.now.label (shorter cursor.now.run) (Some s)) self.new.labels) }
        ensures chars { IfOk result (λ s. chars_in (with_end self.new.tree.pairs cursor.now.label (shorter cursor.now.run) (Some s)) ≡ map (changed_at (last_of cursor.now.run) changes.Strike) (chars_in (settled self.old.tree.pairs (Some cursor.now)))) }
        ensures gave { IfOk result (λ s. GaveEnd (settled self.old.tree.pairs (Some cursor.now)) (with_end self.new.tree.pairs cursor.now.label (shorter cursor.now.run) (Some s)) cursor.now s) }
        ensures err { OnErr result (AreLabelled (settled self.new.tree.pairs (Some cursor.now)) self.new.labels) }
    {
        self.facts();
        let node = cursor.last_node();
        self.labels.shift(struck.run.from, node, struck.label)?;
        let run = Record {
            from: node,
            len: struck.run.len + 1,
            ..struck.run
        };
        Ok(Struck {
            label: struck.label,
            run,
        })
    }

    /// Makes a struck run of the last character of a cursor's run, which has others. Answers that run, or None, as where no
    /// label is free behind it: the character has to be deleted in another way then. After None, and after an error for want of
    /// memory, the tree is as before.
    pub fn cut_end<L: Ledger>(
        &mut self,
        cursor: &Cursor,
        visits: &mut Steps<L>,
    ) -> Result<Option<Struck>, NoMem>
        requires laid { AreLabelled self.old.tree.pairs self.old.labels }
        requires at { IsCursor self.old.tree.pairs cursor.now }
        requires first { cursor.now.struck ≡ None }
        requires long { 1 < cursor.now.run.len }
        requires few { length (chars_in self.old.tree.pairs) ≤ 2 ^ 25 }
        ensures laid { AreLabelled self.new.tree.pairs self.new.labels }
        ensures chars { IfOk result (λ o. IfSome o (λ _. chars_in self.new.tree.pairs ≡ map (changed_at (last_of cursor.now.run) changes.Strike) (chars_in self.old.tree.pairs))) }
        ensures gave { IfOk result (λ o. IfSome o (GaveEnd self.old.tree.pairs self.new.tree.pairs cursor.now)) }
        ensures none { IfOk result (λ o. IfNone o (self.new.tree ≡ self.old.tree)) }
        ensures err { OnErr result (self.new.tree ≡ self.old.tree) }
    {
        if self.tree.runs() == u32::MAX {
            return Ok(None);
        }
        let size = cursor.run.len;
        let last = Spot {
            label: cursor.label,
            offset: size - 1,
        };
        let Some(label) = self
            .tree
            .share_behind(last.label, last.offset, size, visits)
        else {
            return Ok(None);
        };
        let node = cursor.last_node();
        self.split(last, node, label, visits)?;
        self.facts();
        let run = Record {
            from: node,
            len: 1,
            prepared: 2,
            effect: false,
        };
        self.tree.change(label, run, visits);
        Ok(Some(Struck { label, run }))
    }
}

/// Whether the change deletes the first character of a run, which has others and is visible in what is prepared.
fn strikes_first(found: Found, change: Change) -> bool
    ensures change { IsTrue result → change ≡ changes.Strike }
    ensures first { IsTrue result → found.offset ≡ 0 }
    ensures long { IsTrue result → 1 < found.run.len }
    ensures prepared { IsTrue result → found.run.prepared ≡ 1 }
{
    match change {
        Change::Strike => found.offset == 0 && found.run.len > 1 && found.run.prepared == 1,
        Change::Raise | Change::Lower => false,
    }
}

/// The first character of a run, as it is once it was deleted.
fn struck_first(run: &Record) -> Record
    requires { 0 < run.now.len }
    ensures { result ≡ struck_with run.now.from 0 }
{
    Record {
        len: 1,
        prepared: 2,
        effect: false,
        ..*run
    }
}

/// Gives the first node of a run, which has no label, this one, and takes that of another run's away.
fn shift_label(labels: &mut Labels, from: &Record, to: &Record, label: u64) -> Result<(), NoMem>
    requires some { to.now.from ≡ nodes.Root → ⊥ }
    requires bare { label_of labels.old to.now.from ≡ None }
    ensures ok { OnOk result (GoesOver labels.old labels.new from.now.from to.now.from label) }
    ensures err { OnErr result ((v : Nodes) → label_of labels.new v ≡ label_of labels.old v) }
{
    labels.shift(from.from, to.from, label)
}

impl Runs {
    /// The struck run that a character goes over to, where the change deletes it: the character is the first of a run that has
    /// others, and the struck run stands right ahead of that one, and goes on with it. Else None.
    pub fn struck_ahead<L: Ledger>(
        &self,
        found: Found,
        change: Change,
        visits: &mut Steps<L>,
    ) -> Option<Struck>
        requires { Contains self.now.tree.pairs (found.label, found.run) }
        ensures change { IfSome result (λ _. change ≡ changes.Strike) }
        ensures first { IfSome result (λ _. found.offset ≡ 0) }
        ensures ahead { IfSome result (λ s. StandsAhead self.now.tree.pairs s found.label found.run) }
    {
        self.facts();
        if !strikes_first(found, change) {
            return None;
        }
        let one = struck_first(&found.run);
        let (label, run) = self.tree.ahead(found.label, visits)?;
        if run.len > 0 && run.joinable(&one) {
            Some(Struck { label, run: *run })
        } else {
            None
        }
    }

    /// Has the first character of a run go over to the struck ones right ahead of it.
    pub fn shift_first<L: Ledger>(
        &mut self,
        found: Found,
        struck: Struck,
        visits: &mut Steps<L>,
    ) -> Result<Altered, NoMem>
        requires laid { AreLabelled self.old.tree.pairs self.old.labels }
        requires ahead { StandsAhead self.old.tree.pairs struck found.label found.run }
        requires few { length (chars_in self.old.tree.pairs) < 2 ^ 32 }
        ensures laid { AreLabelled self.new.tree.pairs self.new.labels }
        ensures chars { OnOk result (chars_in self.new.tree.pairs ≡ map (changed_at found.run.from changes.Strike) (chars_in self.old.tree.pairs)) }
        ensures one { IfOk result (λ a. Replaces (chars_in self.old.tree.pairs) (chars_in self.new.tree.pairs) a.before a.after) }
        ensures recounted { IfOk result (Recounted (chars_in self.old.tree.pairs) (chars_in self.new.tree.pairs)) }
        ensures was { IfOk result (λ a. knows (chars_in self.old.tree.pairs) found.run.from ≡ is_inserted a.before) }
        ensures is { IfOk result (λ a. knows (chars_in self.new.tree.pairs) found.run.from ≡ is_inserted a.after) }
        ensures loose { OnOk result ((among : Nodes → Bool) → loose_in among (runs self.new.tree.pairs) ≤ loose_in among (runs self.old.tree.pairs) + 2) }
        ensures told { OnOk result ((among : Nodes → Bool) → among found.run.from ≡ true → loose_in among (runs self.new.tree.pairs) ≤ loose_in among (runs self.old.tree.pairs)) }
        ensures err { OnErr result (self.new.tree ≡ self.old.tree) }
    {
        self.facts();
        let one = struck_first(&found.run);
        let (first, rest) = found.run.split(1);
        shift_label(&mut self.labels, &found.run, &rest, found.label)?;
        self.tree.change(found.label, rest, visits);
        self.tree
            .change(struck.label, struck.run.join(&one), visits);
        self.facts();
        Ok(Altered {
            before: first,
            after: one,
        })
    }
}
