//! The labels in one block of numbers.

ghost use Rattle.std.specs.Prelude.{◌≡◌, ◌≤◌, ◌<◌, ◌==◌, ℕ, List, [], length, Some, None, IfSome, IfNone, IfOk, IfErr, OnOk, OnErr, nat_eq, slice_index_or, if◌then◌else◌};
ghost use Rattle.std.specs.List.{All, AllWithin};
ghost use Rattle.predecessor_map.specs.Labels.{IsLastIn};
ghost use Rattle.predecessor_map.specs.Entries.{label_in, IsRising, IsEntryOf, IsGapFor};

use ew_model::NoMem;
use sorted_search::count_passing;
use std::alloc::Global;

/// How many numbers a block has.
pub const WIDTH: u32 = 64;

/// A label for each of some offsets of a block.
#[derive(Drop)]
pub struct Block {
    entries: Vec<(u32, u64)>,
    ghost rising: { IsRising entries.items },
    ghost small: { All (λ e. e.0 < 64) entries.items },
}

impl Block {
    /// No labels.
    pub fn new(alloc: Global) -> Block
        ensures { result.entries.items ≡ [] }
    {
        Block {
            entries: Vec::new(alloc),
        }
    }

    /// Whether there are no labels.
    pub fn is_empty(&self) -> bool
        ensures { result ≡ (length self.now.entries.items == 0) }
    {
        self.entries.is_empty()
    }

    /// The last offset up to this one that has a label, with that.
    pub fn last_up_to(&self, offset: u32) -> Option<(u32, u64)>
        ensures some { IfSome result (λ e. IsLastIn (label_in self.now.entries.items) offset e.0 e.1) }
        ensures none { IfNone result ((k : ℕ) → k ≤ offset → label_in self.now.entries.items k ≡ None) }
    {
        let count = count_up_to(self.entries.as_slice(), offset);
        if count == 0 {
            return None;
        }
        Some(self.entries[count - 1])
    }

    /// Gives an offset a label.
    pub fn insert(&mut self, offset: u32, label: u64) -> Result<(), NoMem>
        requires { offset < 64 }
        ensures ok { OnOk result ((k : ℕ) → label_in self.new.entries.items k ≡ (if nat_eq offset k then Some label else label_in self.old.entries.items k)) }
        ensures err { OnErr result (self.new.entries.items ≡ self.old.entries.items) }
        ensures absent { OnErr result (label_in self.old.entries.items offset ≡ None) }
    {
        match place_of(self.entries.as_slice(), offset) {
            Ok(place) => {
                self.entries[place] = (offset, label);
                Ok(())
            }
            Err(place) => match self.entries.insert(place, (offset, label)) {
                Ok(()) => Ok(()),
                Err(_) => Err(NoMem),
            },
        }
    }

    /// Takes an offset's label away, if it has one.
    pub fn remove(&mut self, offset: u32)
        ensures { (k : ℕ) → label_in self.new.entries.items k ≡ (if nat_eq offset k then None else label_in self.old.entries.items k) }
    {
        if let Ok(place) = place_of(self.entries.as_slice(), offset) {
            let _ = self.entries.remove(place);
        }
    }
}

/// The place of the entry of an offset, or else the place where it would stand.
fn place_of(entries: &[(u32, u64)], offset: u32) -> Result<usize, usize>
    requires { IsRising entries.now }
    ensures ok { IfOk result (IsEntryOf entries.now offset) }
    ensures err { IfErr result (IsGapFor entries.now offset) }
{
    let count = count_up_to(entries, offset);
    if count == 0 {
        return Err(0);
    }
    if entries[count - 1].0 == offset {
        return Ok(count - 1);
    }
    Err(count)
}

/// How many entries are of offsets up to this one.
fn count_up_to(entries: &[(u32, u64)], offset: u32) -> usize
    requires { IsRising entries.now }
    ensures bound { result ≤ length entries.now }
    ensures to { AllWithin (λ e. e.0 ≤ offset) entries.now 0 result }
    ensures behind { AllWithin (λ e. offset < e.0) entries.now result (length entries.now) }
{
    count_passing(entries, |entry| entry.0 <= offset)
}
