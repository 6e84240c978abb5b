//! A counted tree of runs, which are told by their places, from 1. Place 0 stands before all.

use crate::guarded::Guarded;
use ew_model::NoMem;
use ew_model::node::Node;
use ew_model::run::Run;
use ew_model::steps::Steps;
use order_tree::OrderTree;
use std::alloc::Global;
use std::sync::ledger::Ledger;
use walker_record::Record;

/// What the characters of a run are in both states.
#[derive(Clone, Copy)]
pub struct States {
    pub prepared: u32,
    pub effect: bool,
}

impl States {
    /// Visible in both.
    pub const VISIBLE: States = States {
        prepared: 1,
        effect: true,
    };
}

/// The tree, the labels of its runs in their order, and how many characters were put in.
#[derive(Drop)]
pub struct Order {
    tree: Guarded,
    labels: Vec<u64>,
    characters: u32,
}

impl Order {
    pub fn new(alloc: Global) -> Result<Order, NoMem> {
        Ok(Order {
            tree: Guarded::new(alloc)?,
            labels: Vec::new(alloc),
            characters: 0,
        })
    }

    pub fn tree(&self) -> &OrderTree<Record> {
        self.tree.tree()
    }

    /// How many characters are prepared.
    pub fn prepared(&self) -> u32 {
        self.tree.prepared()
    }

    /// How many characters are in the text.
    pub fn effect(&self) -> u32 {
        self.tree.effect()
    }

    pub fn labels(&self) -> &[u64] {
        self.labels.as_slice()
    }

    /// The label of the run at a place, and 0 where there is none.
    pub fn label_at(&self, place: usize) -> u64 {
        match place.checked_sub(1) {
            Some(k) => self.labels.get(k).copied().unwrap_or(0),
            None => 0,
        }
    }

    /// The place of the run at a label.
    pub fn place_of(&self, label: u64) -> Option<usize> {
        for (k, held) in self.labels.iter().enumerate() {
            if label == *held {
                return Some(k + 1);
            }
        }
        None
    }

    pub fn run<L: Ledger>(&self, label: u64, steps: &mut Steps<L>) -> Option<Record> {
        self.tree.locate(label, steps)
    }

    /// The place of the run of a prepared character, and its number there.
    pub fn find_prepared<L: Ledger>(&self, i: u32, steps: &mut Steps<L>) -> Option<(usize, u32)> {
        let (label, number) = self.tree.find_prepared(i, steps)?;
        Some((self.place_of(label)?, number))
    }

    /// The same of a character of the text.
    pub fn find_effect<L: Ledger>(&self, i: u32, steps: &mut Steps<L>) -> Option<(usize, u32)> {
        let (label, number) = self.tree.find_effect(i, steps)?;
        Some((self.place_of(label)?, number))
    }

    /// Puts a run of so many new characters behind a place. Answers its place, where there is a label for it.
    pub fn put<L: Ledger>(
        &mut self,
        place: usize,
        len: u32,
        states: States,
        steps: &mut Steps<L>,
    ) -> Result<Option<usize>, NoMem> {
        let Some(end) = self.characters.checked_add(len) else {
            return Ok(None);
        };
        if len == 0 || place > self.labels.len() {
            return Ok(None);
        }
        let run = Record {
            from: Node::Event(self.characters),
            len,
            prepared: states.prepared,
            effect: states.effect,
        };
        let label = self.label_at(place);
        let own = self.tree.insert_after(label, run, steps)?;
        if own.is_some() {
            self.characters = end;
        }
        self.note(place, own)
    }

    /// Cuts the run at a place. Answers the place of the second part, where there is a label for it.
    pub fn split<L: Ledger>(
        &mut self,
        place: usize,
        at: u32,
        steps: &mut Steps<L>,
    ) -> Result<Option<usize>, NoMem> {
        let label = self.label_at(place);
        let own = self.tree.split(label, at, steps)?;
        self.note(place, own)
    }

    /// The same, where the second part gets a free label that is asked for.
    pub fn share<L: Ledger>(
        &mut self,
        place: usize,
        at: u32,
        steps: &mut Steps<L>,
    ) -> Result<Option<usize>, NoMem> {
        let label = self.label_at(place);
        let own = self.tree.split_shared(label, at, steps)?;
        self.note(place, own)
    }

    /// Notes the label of a new run behind a place. Answers the place of the new one.
    fn note(&mut self, place: usize, own: Option<u64>) -> Result<Option<usize>, NoMem> {
        let Some(own) = own else {
            return Ok(None);
        };
        if place > self.labels.len() {
            return Ok(None);
        }
        self.labels.insert(place, own)?;
        Ok(Some(place.saturating_add(1)))
    }

    /// Gives the characters of the run at a place other states. Answers whether there is such a run.
    pub fn change<L: Ledger>(
        &mut self,
        place: usize,
        states: States,
        steps: &mut Steps<L>,
    ) -> bool {
        let label = self.label_at(place);
        let Some(old) = self.tree.locate(label, steps) else {
            return false;
        };
        let run = Record {
            prepared: states.prepared,
            effect: states.effect,
            ..old
        };
        self.tree.change(label, run, steps)
    }

    /// Gives new labels to all runs.
    pub fn relabel<L: Ledger>(&mut self, steps: &mut Steps<L>) -> Result<(), NoMem> {
        let given = self.tree.relabel(steps)?;
        self.labels.clear();
        for (_, (label, _)) in &given {
            self.labels.push(*label)?;
        }
        Ok(())
    }

    /// Gives new labels to the runs about a place. Answers how many got one.
    pub fn relabel_about<L: Ledger>(
        &mut self,
        place: usize,
        steps: &mut Steps<L>,
    ) -> Result<Option<usize>, NoMem> {
        let label = self.label_at(place);
        let Some(about) = self.tree.relabel_about(label, steps)? else {
            return Ok(None);
        };
        let first = match about.given.first() {
            Some((old, _)) => self.place_of(*old).unwrap_or(0),
            None => 0,
        };
        for (k, (_, (new, _))) in about.given.iter().enumerate() {
            let at = first.saturating_sub(1).saturating_add(k);
            if at < self.labels.len() {
                self.labels[at] = *new;
            }
        }
        Ok(Some(about.given.len()))
    }

    /// How many runs have as many characters of the text before them as the runs ahead of them have, and are found by the first of
    /// their own.
    pub fn count_sound<L: Ledger>(&self, steps: &mut Steps<L>) -> u32 {
        let mut sound: u32 = 0;
        let mut before: u32 = 0;
        for label in &self.labels {
            if self.is_sound(*label, before, steps) {
                sound = sound.saturating_add(1);
            }
            if let Some(run) = self.tree.locate(*label, steps) {
                before = before.saturating_add(run.effect_sum());
            }
        }
        sound
    }

    fn is_sound<L: Ledger>(&self, label: u64, before: u32, steps: &mut Steps<L>) -> bool {
        let Some(run) = self.tree.locate(label, steps) else {
            return false;
        };
        let is_found = run.effect_sum() == 0
            || self.tree.find_effect(before, steps) == Some((label, 0));
        is_found && self.tree.tree().effect_before(label, steps) == before
    }
}
