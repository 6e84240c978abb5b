//! Labels of any numbers.

ghost use Rattle.std.specs.Prelude.{◌≡◌, ◌≤◌, ◌+◌, ◌*◌, ◌/◌, ℕ, max, Option, Some, None, IfSome, IfNone, OnOk, OnErr, nat_eq, if◌then◌else◌};
ghost use Rattle.predecessor_map.specs.Labels.{IsLastIn, AreLastIn, first_of};
ghost use Rattle.predecessor_map.specs.Maps.{label_at, blocks_of};

use crate::table::Table;
use crate::tree::{insert_in, last_in, remove_in};
use ew_model::NoMem;
use std::alloc::Global;
use std::collections::BTreeMap;

/// A label for each of some numbers. The last number up to another that has one is found by a look at its block, and by a search
/// among the blocks where that has none up to it.
///
/// The blocks follow one another, from that of the number that came first. Numbers that lie before them, or far behind, stand in
/// a map of their own, which is searched too where there are some. The blocks take memory for all numbers between the first and the
/// last of them, whether these have labels or not, and removals give none back. So there are never more blocks than the greatest number
/// that got a label has sixty-fours, and one; and one label makes at most twice as many of them, and sixty-five more.
#[derive(Drop)]
pub struct PredecessorMap {
    table: Table,
    others: BTreeMap<u32, u64>,
}

impl PredecessorMap {
    /// No labels. It takes no memory.
    pub fn new(alloc: Global) -> PredecessorMap
        ensures labels { (n : ℕ) → label_at result n ≡ None }
        ensures blocks { blocks_of result ≡ 0 }
    {
        PredecessorMap {
            table: Table::new(alloc),
            others: BTreeMap::new(alloc),
        }
    }

    /// The last number up to this one that has a label, with that.
    pub fn last_up_to(&self, n: u32) -> Option<(u32, u64)>
        ensures some { IfSome result (λ e. IsLastIn (label_at self.now) n e.0 e.1) }
        ensures none { IfNone result ((k : ℕ) → k ≤ n → label_at self.now k ≡ None) }
    {
        let found = self.table.last_up_to(n);
        if self.others.is_empty() {
            return found;
        }
        later(last_in(&self.others, n), found)
    }

    /// Gives a number a label. An error for want of memory comes only where the number has none, and then changes nothing.
    pub fn insert(&mut self, n: u32, label: u64) -> Result<(), NoMem>
        ensures ok { OnOk result ((k : ℕ) → label_at self.new k ≡ (if nat_eq n k then Some label else label_at self.old k)) }
        ensures err { OnErr result ((k : ℕ) → label_at self.new k ≡ label_at self.old k) }
        ensures absent { OnErr result (label_at self.old n ≡ None) }
        ensures reach { blocks_of self.new ≤ max (blocks_of self.old) (n / 64 + 1) }
        ensures growth { blocks_of self.new ≤ 2 * blocks_of self.old + 65 }
    {
        if !self.others.contains_key(&n) && self.table.reach(n)? {
            return self.table.insert(n, label);
        }
        insert_in(&mut self.others, n, label)
    }

    /// Takes a number's label away, if it has one.
    pub fn remove(&mut self, n: u32)
        ensures labels { (k : ℕ) → label_at self.new k ≡ (if nat_eq n k then None else label_at self.old k) }
        ensures blocks { blocks_of self.new ≡ blocks_of self.old }
    {
        remove_in(&mut self.others, n);
        self.table.remove(n);
    }
}

/// Which of the last numbers of two maps is the last one of both.
fn later(first: Option<(u32, u64)>, second: Option<(u32, u64)>) -> Option<(u32, u64)>
    // whatever labels the maps have
    ensures { (f g : ℕ → Option ℕ) (n : ℕ) → AreLastIn f n first → AreLastIn g n second → AreLastIn (first_of f g) n result }
{
    match (first, second) {
        (Some(e), Some(other)) if e.0 < other.0 => Some(other),
        (Some(e), _) => Some(e),
        (None, other) => other,
    }
}
