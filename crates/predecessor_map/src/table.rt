//! Labels of numbers in blocks that follow one another.

ghost use Rattle.std.specs.Prelude.{◌≡◌, ◌≤◌, ◌<◌, ◌+◌, ◌-◌, ◌*◌, ◌/◌, ℕ, Bool, true, false, [], length, Some, None, IsSome, IfSome, IfNone, IfOk, OnOk, OnErr, nat_eq, nat_lt, max, ◌⊎◌, if◌then◌else◌};
ghost use Rattle.std.specs.Ordering.{nat_cmp};
ghost use Rattle.std.specs.BTreeSet.{contains};
ghost use Rattle.predecessor_map.specs.Labels.{IsLastIn, AreLastIn};
ghost use Rattle.predecessor_map.specs.Entries.{label_in};
ghost use Rattle.predecessor_map.specs.Blocks.{entries_at, block_of};

use crate::block::{Block, WIDTH};
use ew_model::NoMem;
use std::alloc::Global;
use std::collections::BTreeSet;

/// A new block may lie so many blocks behind those that there are, and as many more as there are.
const NEAR: usize = 64;

/// Labels in blocks, of which the first has the number `first`, and the numbers of the blocks that have labels.
#[derive(Drop)]
pub struct Table {
    first: u32,
    blocks: Vec<Block>,
    filled: BTreeSet<u32>,
    ghost fits: { first + length blocks.items ≤ 67108864 },
    ghost marked: { (b : ℕ) → contains nat_cmp filled b ≡ nat_lt 0 (length (block_of first blocks.items b)) },
}

impl Table {
    ghost use Rattle.predecessor_map.specs.Tables.{label_of, HasBlock, IsLastBelow};

    /// No blocks.
    pub fn new(alloc: Global) -> Table
        ensures labels { (n : ℕ) → label_of result n ≡ None }
        ensures blocks { result.blocks.items ≡ [] }
    {
        Table {
            first: 0,
            blocks: Vec::new(alloc),
            filled: BTreeSet::new(alloc),
        }
    }

    /// The last number up to this one that has a label, with that.
    pub fn last_up_to(&self, n: u32) -> Option<(u32, u64)>
        ensures { AreLastIn (label_of self.now) n result }
    {
        let block = n / WIDTH;
        match self.near(block, n % WIDTH) {
            Some((offset, label)) => Some((block * WIDTH + offset, label)),
            None => self.before(block),
        }
    }

    /// The last offset up to this one in a block that has a label, with that.
    fn near(&self, block: u32, offset: u32) -> Option<(u32, u64)>
        ensures some { IfSome result (λ e. IsLastIn (label_in (block_of self.now.first self.now.blocks.items block)) offset e.0 e.1) }
        ensures none { IfNone result ((k : ℕ) → k ≤ offset → label_in (block_of self.now.first self.now.blocks.items block) k ≡ None) }
    {
        let place = self.place(block)?;
        self.blocks[place].last_up_to(offset)
    }

    /// The last number in blocks before this one that has a label, with that.
    fn before(&self, block: u32) -> Option<(u32, u64)>
        ensures some { IfSome result (λ e. IsLastBelow (label_of self.now) block e.0 e.1) }
        ensures none { IfNone result ((k : ℕ) → k / 64 < block → label_of self.now k ≡ None) }
    {
        let last = last_below(&self.filled, block)?;
        let (offset, label) = self.near(last, WIDTH - 1)?;
        Some((last * WIDTH + offset, label))
    }

    /// The place of the block with this number, if there is one.
    fn place(&self, block: u32) -> Option<usize>
        ensures bound { IfSome result (λ i. i < length self.now.blocks.items) }
        ensures some { IfSome result (λ i. self.now.first + i ≡ block) }
        ensures none { IfNone result (block_of self.now.first self.now.blocks.items block ≡ []) }
    {
        let place = block.checked_sub(self.first)? as usize;
        if place < self.blocks.len() {
            Some(place)
        } else {
            None
        }
    }

    /// Gives a number a block, unless it lies before the first block or far behind the last. Answers whether it has one.
    pub fn reach(&mut self, n: u32) -> Result<bool, NoMem>
        ensures same { (k : ℕ) → label_of self.new k ≡ label_of self.old k }
        ensures has { IfOk result (λ has. has ≡ true → HasBlock self.new n) }
        ensures lacks { IfOk result (λ has. has ≡ false → label_of self.old n ≡ None) }
        ensures err { OnErr result (label_of self.old n ≡ None) }
        ensures reach { length self.new.blocks.items ≤ max (length self.old.blocks.items) (n / 64 + 1) }
        ensures growth { length self.new.blocks.items ≤ 2 * length self.old.blocks.items + 65 }
    {
        let block = n / WIDTH;
        if self.place(block).is_some() {
            return Ok(true);
        }
        let first = self.start(block);
        let Some(ahead) = block.checked_sub(first) else {
            return Ok(false);
        };
        if ahead as usize > 2 * self.blocks.len() + NEAR {
            return Ok(false);
        }
        self.first = first;
        grow(&mut self.blocks, ahead as usize + 1)?;
        Ok(true)
    }

    /// The number of the first block: this one where there are none yet.
    fn start(&self, block: u32) -> u32
        ensures { (result ≡ self.now.first) ⊎ ((result ≡ block) × (self.now.blocks.items ≡ [])) }
    {
        if self.blocks.is_empty() {
            block
        } else {
            self.first
        }
    }

    /// Gives a number that has a block a label.
    pub fn insert(&mut self, n: u32, label: u64) -> Result<(), NoMem>
        requires { HasBlock self.old n }
        ensures ok { OnOk result ((k : ℕ) → label_of self.new k ≡ (if nat_eq n k then Some label else label_of self.old k)) }
        ensures err { OnErr result ((k : ℕ) → label_of self.new k ≡ label_of self.old k) }
        ensures absent { OnErr result (label_of self.old n ≡ None) }
        ensures blocks { length self.new.blocks.items ≡ length self.old.blocks.items }
    {
        let block = n / WIDTH;
        let place = (block - self.first) as usize;
        if !self.blocks[place].is_empty() {
            return self.blocks[place].insert(n % WIDTH, label);
        }
        mark(&mut self.filled, block)?;
        let done = self.blocks[place].insert(n % WIDTH, label);
        if done.is_err() {
            unmark(&mut self.filled, block);
        }
        done
    }

    /// Takes a number's label away, if it has one.
    pub fn remove(&mut self, n: u32)
        ensures labels { (k : ℕ) → label_of self.new k ≡ (if nat_eq n k then None else label_of self.old k) }
        ensures blocks { length self.new.blocks.items ≡ length self.old.blocks.items }
    {
        let block = n / WIDTH;
        let Some(place) = self.place(block) else {
            return;
        };
        self.blocks[place].remove(n % WIDTH);
        if self.blocks[place].is_empty() {
            unmark(&mut self.filled, block);
        }
    }
}

/// Makes the blocks so many, if they are fewer.
fn grow(blocks: &mut Vec<Block>, count: usize) -> Result<(), NoMem>
    ensures same { (i : ℕ) → entries_at blocks.new.items i ≡ entries_at blocks.old.items i }
    ensures bound { length blocks.new.items ≤ max (length blocks.old.items) count }
    ensures ok { OnOk result (count ≤ length blocks.new.items) }
{
    let alloc = *blocks.allocator();
    while blocks.len() < count {
        blocks.push(Block::new(alloc))?;
    }
    Ok(())
}

/// Puts a block among the filled ones.
fn mark(filled: &mut BTreeSet<u32>, block: u32) -> Result<(), NoMem>
    ensures ok { OnOk result ((b : ℕ) → contains nat_cmp filled.new b ≡ (if nat_eq block b then true else contains nat_cmp filled.old b)) }
    ensures err { OnErr result ((b : ℕ) → contains nat_cmp filled.new b ≡ contains nat_cmp filled.old b) }
{
    match filled.insert(block) {
        Ok(_) => Ok(()),
        Err(_) => Err(NoMem),
    }
}

/// Takes a block out of the filled ones.
fn unmark(filled: &mut BTreeSet<u32>, block: u32)
    ensures { (b : ℕ) → contains nat_cmp filled.new b ≡ (if nat_eq block b then false else contains nat_cmp filled.old b) }
{
    let _ = filled.remove(&block);
}

/// The last filled block before this one.
fn last_below(filled: &BTreeSet<u32>, block: u32) -> Option<u32>
    ensures some { IfSome result (λ last. (last < block) × (contains nat_cmp filled.now last ≡ true)) }
    ensures last { IfSome result (λ last. (b : ℕ) → b < block → contains nat_cmp filled.now b ≡ true → b ≤ last) }
    ensures none { IfNone result ((b : ℕ) → b < block → contains nat_cmp filled.now b ≡ false) }
{
    match filled.range(..block).next_back() {
        Some(last) => Some(*last),
        None => None,
    }
}
