//! Leaves and blocks for the nodes that insertions make, taken before the first change.

ghost use Rattle.std.specs.Prelude.{◌≡◌, ◌+◌, ◌<◌, ◌≤◌, [], length, vec_capacity, IsOk, OnOk, OnErr};

use crate::branch::Branch;
use crate::leaf::Leaf;
use ew_model::NoMem;
use std::alloc::Global;
use std::marker::Model;

/// How many branches a node has at most.
pub const MOST_KIDS: usize = 16;

/// Empty leaves, and empty blocks with room for the branches of a node. Contracts see how many there are of each.
#[derive(Drop)]
pub struct Spares {
    alloc: Global,
    leaves: Vec<Leaf>,
    blocks: Vec<Vec<Branch>>,
}

impl Model for Spares {
    ghost use Rattle.std.specs.Prelude.{length, All};
    ghost use Rattle.rope.specs.Blocks.{Held, IsRoomy, IsBlank};

    ghost Value = { Held };

    ghost view = { λ s. record { leaves = length s.leaves.items; nodes = length s.blocks.items } };

    ghost invariant = { λ s. All IsBlank s.leaves.items × All IsRoomy s.blocks.items };
}

impl Spares {
    pub fn new(alloc: Global) -> Spares
        ensures { result ≡ record { leaves = 0; nodes = 0 } }
    {
        Spares {
            alloc,
            leaves: Vec::new(alloc),
            blocks: Vec::new(alloc),
        }
    }

    /// Takes as many as are wanting to so many leaves and blocks.
    pub fn hold(&mut self, leaves: u32, nodes: u32) -> Result<(), NoMem>
        ensures leaves { OnOk result (leaves ≤ self.new.leaves) }
        ensures nodes { OnOk result (nodes ≤ self.new.nodes) }
        ensures kept_leaves { self.old.leaves ≤ self.new.leaves }
        ensures kept_nodes { self.old.nodes ≤ self.new.nodes }
        ensures sure { leaves ≤ self.old.leaves → nodes ≤ self.old.nodes → IsOk result }
    {
        self.hold_leaves(leaves)?;
        self.hold_blocks(nodes)
    }

    fn hold_leaves(&mut self, many: u32) -> Result<(), NoMem>
        ensures enough { OnOk result (many ≤ self.new.leaves) }
        ensures kept { self.old.leaves ≤ self.new.leaves }
        ensures nodes { self.new.nodes ≡ self.old.nodes }
        ensures sure { many ≤ self.old.leaves → IsOk result }
    {
        let mut have = self.leaves.len();
        while have < many as usize {
            self.add_leaf()?;
            have += 1;
        }
        Ok(())
    }

    fn hold_blocks(&mut self, many: u32) -> Result<(), NoMem>
        ensures enough { OnOk result (many ≤ self.new.nodes) }
        ensures kept { self.old.nodes ≤ self.new.nodes }
        ensures leaves { self.new.leaves ≡ self.old.leaves }
        ensures sure { many ≤ self.old.nodes → IsOk result }
    {
        let mut have = self.blocks.len();
        while have < many as usize {
            self.add_block()?;
            have += 1;
        }
        Ok(())
    }

    /// Takes one more leaf.
    fn add_leaf(&mut self) -> Result<(), NoMem>
        ensures ok { OnOk result (self.new.leaves ≡ self.old.leaves + 1) }
        ensures err { OnErr result (self.new.leaves ≡ self.old.leaves) }
        ensures nodes { self.new.nodes ≡ self.old.nodes }
    {
        let leaf = Leaf::blank(self.alloc)?;
        self.leaves.push(leaf)?;
        Ok(())
    }

    /// Takes one more block.
    fn add_block(&mut self) -> Result<(), NoMem>
        ensures ok { OnOk result (self.new.nodes ≡ self.old.nodes + 1) }
        ensures err { OnErr result (self.new.nodes ≡ self.old.nodes) }
        ensures leaves { self.new.leaves ≡ self.old.leaves }
    {
        let block = Vec::with_capacity(self.alloc, MOST_KIDS)?;
        self.blocks.push(block)?;
        Ok(())
    }

    /// Gives an empty leaf.
    pub fn take_leaf(&mut self) -> Leaf
        requires { 0 < self.old.leaves }
        ensures empty { result ≡ [] }
        ensures rest { self.new.leaves + 1 ≡ self.old.leaves }
        ensures nodes { self.new.nodes ≡ self.old.nodes }
    {
        let Some(leaf) = self.leaves.pop() else {
            unreachable!()
        };
        leaf
    }

    /// Gives an empty block.
    pub fn take_block(&mut self) -> Vec<Branch>
        requires { 0 < self.old.nodes }
        ensures empty { result.items ≡ [] }
        ensures room { 16 ≤ vec_capacity result }
        ensures rest { self.new.nodes + 1 ≡ self.old.nodes }
        ensures leaves { self.new.leaves ≡ self.old.leaves }
    {
        let Some(block) = self.blocks.pop() else {
            unreachable!()
        };
        block
    }
}
