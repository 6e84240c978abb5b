//! The run at whose end characters are typed or deleted one after another.

ghost use Rattle.std.specs.Prelude.{◌≡◌, ◌+◌, ◌<◌, ◌^◌, ℕ, List, IsTrue, Contains, true};
ghost use Rattle.fugue_place.specs.declared.neighbour.Place.TheVariants as places;
ghost use Rattle.walker_record.specs.Stretches.{Stretch, HasNumbers, is_continued, joined_of, prepared_of, effect_of};
ghost use Rattle.order_tree.specs.Pairs.{IsPlace, lower, total};
ghost use Rattle.character_runs.specs.declared.change.Change.TheVariants as changes;
ghost use Rattle.character_runs.specs.Cursors.{MayBeCursor, last_of, shorter, longer_at};
ghost use Rattle.character_runs.specs.Entering.{run_of};

use crate::change::Change;
use crate::offsets::node_at;
use crate::runs::{Child, Counted, Spot};
use ew_model::node::Node;
use fugue_place::Place;
use walker_record::Record;

/// A run that was found, at whose end characters are typed or deleted one after another: all of its characters are visible in
/// what is prepared, and in the text.
#[derive(Clone, Copy)]
pub struct Cursor {
    pub label: u64,
    pub run: Record,
    /// How many characters of the text are in runs with lower labels.
    pub before: u32,
    /// How many characters are visible, in what is prepared, up to the end of the run.
    pub index: u32,
    /// What was deleted from its end.
    pub struck: Option<Struck>,
}

/// The run right behind another, from the end of which its characters were deleted.
#[derive(Clone, Copy)]
pub struct Struck {
    pub label: u64,
    pub run: Record,
}

impl Cursor {
    /// The cursor behind a character that was found at an index, where it is the last of its run and in the text.
    pub fn behind(found: &Counted, index: u32) -> Option<Cursor>
        requires inside { found.now.spot.offset < found.now.run.len }
        requires few { index + 1 < 2 ^ 32 }
        // among whichever runs it was found
        ensures { (ps : List (ℕ × Stretch)) → IsPlace prepared_of ps index found.now.spot.label found.now.spot.offset → Contains ps (found.now.spot.label, found.now.run)
            → found.now.before ≡ total effect_of (lower ps found.now.spot.label) → MayBeCursor ps result }
    {
        if found.run.len - found.spot.offset == 1 && found.run.prepared == 1 && found.run.effect {
            Some(Cursor {
                label: found.spot.label,
                run: found.run,
                before: found.before,
                index: index + 1,
                struck: None,
            })
        } else {
            None
        }
    }

    /// How many characters of the text there are up to the end of its run.
    pub fn shown(&self) -> u32
        requires few { self.now.before + self.now.run.len < 2 ^ 32 }
        ensures { result ≡ self.now.before + self.now.run.len }
    {
        self.before + self.run.len
    }

    /// The last character of its run.
    pub fn last(&self) -> Counted
        requires { 0 < self.now.run.len }
        ensures label { result.spot.label ≡ self.now.label }
        ensures offset { result.spot.offset + 1 ≡ self.now.run.len }
        ensures run { result.run ≡ self.now.run }
        ensures before { result.before ≡ self.now.before }
    {
        Counted {
            spot: Spot {
                label: self.label,
                offset: self.run.len - 1,
            },
            run: self.run,
            before: self.before,
        }
    }

    /// The node of the last character of its run.
    pub fn last_node(&self) -> Node
        requires { 0 < self.now.run.len }
        ensures { result ≡ last_of self.now.run }
    {
        node_at(&self.run, self.run.len - 1)
    }

    /// Whether a new child's character goes on with its run.
    pub fn takes(&self, child: &Child, place: Place) -> bool
        requires { 0 < self.now.run.len }
        ensures place { IsTrue result → place ≡ places.After (last_of self.now.run) }
        ensures goes_on { IsTrue result → is_continued self.now.run (run_of child.now 1) ≡ true }
    {
        match place {
            Place::After(node) => node == self.last_node() && self.run.joinable(&child.run()),
            Place::Before(_) => false,
        }
    }

    /// Where it is once a new child's character came to the end of its run.
    pub fn typed(&self, child: &Child) -> Cursor
        requires goes_on { is_continued self.now.run (run_of child.now 1) ≡ true }
        requires few { self.now.run.len + 1 < 2 ^ 32 }
        requires index { self.now.index + 1 < 2 ^ 32 }
        ensures label { result.label ≡ self.now.label }
        ensures run { result.run ≡ joined_of self.now.run (run_of child.now 1) }
        ensures before { result.before ≡ self.now.before }
        ensures index { result.index ≡ self.now.index + 1 }
        ensures struck { result.struck ≡ None }
    {
        Cursor {
            label: self.label,
            run: self.run.join(&child.run()),
            before: self.before,
            index: self.index + 1,
            struck: None,
        }
    }

    /// Where it is once so many characters of the next events came to the end of its run.
    pub fn longer(&self, count: u32) -> Cursor
        requires few { self.now.run.len + count < 2 ^ 32 }
        requires index { self.now.index + count < 2 ^ 32 }
        requires numbers { HasNumbers self.now.run.from (self.now.run.len + count) }
        ensures { result ≡ longer_at self.now count }
    {
        Cursor {
            label: self.label,
            run: Record {
                len: self.run.len + count,
                ..self.run
            },
            before: self.before,
            index: self.index + count,
            struck: None,
        }
    }

    /// Whether the change deletes the last character of its run, which has others.
    pub fn gives_up(&self, node: Node, change: Change) -> bool
        requires { 0 < self.now.run.len }
        ensures change { IsTrue result → change ≡ changes.Strike }
        ensures node { IsTrue result → node ≡ last_of self.now.run }
        ensures long { IsTrue result → 1 < self.now.run.len }
    {
        match change {
            Change::Strike => self.run.len > 1 && node == self.last_node(),
            Change::Raise | Change::Lower => false,
        }
    }

    /// Its run without the last character.
    pub fn shorter(&self) -> Record
        requires { 0 < self.now.run.len }
        ensures { result ≡ shorter self.now.run }
    {
        Record {
            len: self.run.len - 1,
            ..self.run
        }
    }

    /// Where it is once the last character of its run was deleted, and is the first of the struck ones.
    pub fn deleted(&self, struck: Struck) -> Cursor
        requires some { 0 < self.now.run.len }
        requires index { 0 < self.now.index }
        ensures label { result.label ≡ self.now.label }
        ensures run { result.run ≡ shorter self.now.run }
        ensures before { result.before ≡ self.now.before }
        ensures index { result.index + 1 ≡ self.now.index }
        ensures struck { result.struck ≡ Some struck }
    {
        Cursor {
            label: self.label,
            run: self.shorter(),
            before: self.before,
            index: self.index - 1,
            struck: Some(struck),
        }
    }
}
