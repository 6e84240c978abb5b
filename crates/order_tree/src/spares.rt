//! Blocks for the nodes that a split makes, taken before the first change.

ghost use Rattle.std.specs.Prelude.{◌≡◌, ◌+◌, ◌<◌, ◌≤◌, [], vec_capacity, OnOk, IfOk};
ghost use Rattle.order_tree.specs.Blocks.{IsRoomy};

use crate::branch::Branch;
use crate::label::Recent;
use ew_model::NoMem;
use ew_model::run::Run;
use std::alloc::Global;
use std::marker::Model;

/// How many parts a node has at most.
pub const MOST_PARTS: usize = 16;

/// What a new run can need: empty blocks with room for the branches of a node, and the streaks that went on last. Contracts see
/// the number of blocks.
#[derive(Drop)]
pub struct Spares<R: Run> {
    alloc: Global,
    recent: Recent,
    blocks: Vec<Vec<Branch<R>>>,
}

impl<R: Run> Model for Spares<R> {
    ghost use Rattle.std.specs.Prelude.{ℕ, length};

    ghost Value = { ℕ };

    ghost use Rattle.order_tree.specs.Blocks.{AllRoomy};

    ghost view = { λ s. length s.blocks.items };

    ghost invariant = { λ s. AllRoomy s.blocks.items };
}

impl<R: Run + Drop> Spares<R> {
    pub fn new(alloc: Global, recent: Recent) -> Spares<R>
        ensures { result ≡ 0 }
    {
        Spares {
            alloc,
            recent,
            blocks: Vec::new(alloc),
        }
    }

    /// A label above `label` and up to `most`, for a run that comes in.
    pub fn choose(&mut self, label: u64, most: u64) -> u64
        requires { label < most }
        ensures above { label < result }
        ensures within { result ≤ most }
        ensures spares { self.new ≡ self.old }
    {
        self.recent.choose(label, most)
    }

    /// The streaks that went on last.
    pub(crate) fn recent(&self) -> Recent {
        let _ = &self.blocks;
        self.recent
    }

    /// An empty block for the runs of a leaf, and `above` blocks for the nodes above it that are full.
    pub fn leaf_block(&mut self, above: u32) -> Result<Vec<(u64, R)>, NoMem>
        ensures block { IfOk result IsRoomy }
        ensures spares { OnOk result (self.new ≡ self.old + above) }
    {
        let block = Vec::with_capacity(self.alloc, MOST_PARTS)?;
        self.fill(above)?;
        Ok(block)
    }

    /// Takes `many` more blocks.
    fn fill(&mut self, many: u32) -> Result<(), NoMem>
        ensures { OnOk result (self.new ≡ self.old + many) }
    {
        let mut done = 0;
        while done < many {
            self.add()?;
            done += 1;
        }
        Ok(())
    }

    /// Takes one more.
    fn add(&mut self) -> Result<(), NoMem>
        ensures { OnOk result (self.new ≡ self.old + 1) }
    {
        let block = Vec::with_capacity(self.alloc, MOST_PARTS)?;
        self.blocks.push(block)?;
        Ok(())
    }

    /// Gives one of them.
    pub fn take(&mut self) -> Vec<Branch<R>>
        requires { 0 < self.old }
        ensures rest { self.new + 1 ≡ self.old }
        ensures empty { result.items ≡ [] }
        ensures room { 16 ≤ vec_capacity result }
    {
        let Some(block) = self.blocks.pop() else {
            unreachable!()
        };
        block
    }
}
