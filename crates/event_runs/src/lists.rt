//! Lists of numbers in one vector.

ghost use Rattle.std.specs.Prelude.{◌≡◌, ℕ, ◌<◌, ◌≤◌, List, [], ◌∷◌, ◌++◌, length, take, slice_index_or, slice_range, OnOk, OnErr};
ghost use Rattle.event_runs.specs.Pieces.{start_of, pieces, AreEnds};

use ew_model::NoMem;
use std::alloc::Global;
use std::marker::Model;

/// Lists of numbers, one behind the other. Contracts see the list of the lists.
#[derive(Drop)]
pub struct NumberLists {
    numbers: Vec<u32>,
    /// The place behind the last number of each list.
    ends: Vec<usize>,
}

impl Model for NumberLists {
    ghost use Rattle.std.specs.Prelude.{ℕ, List, length};
    ghost use Rattle.event_runs.specs.Pieces.{pieces, AreEnds};

    ghost Value = { List (List ℕ) };

    ghost view = { λ l. pieces 0 l.ends.items l.numbers.items };

    ghost invariant = { λ l. AreEnds 0 l.ends.items (length l.numbers.items) };
}

impl NumberLists {
    /// No lists.
    pub fn new(alloc: Global) -> NumberLists
        ensures { result ≡ [] }
    {
        NumberLists {
            numbers: Vec::new(alloc),
            ends: Vec::new(alloc),
        }
    }

    /// How many lists there are.
    pub fn len(&self) -> usize
        ensures { result ≡ length self.now }
    {
        self.ends.len()
    }

    /// Puts one more list behind the others.
    pub fn push(&mut self, list: &[u32]) -> Result<(), NoMem>
        ensures ok { OnOk result (self.new ≡ self.old ++ list.now ∷ []) }
        ensures err { OnErr result (self.new ≡ self.old) }
    {
        self.ends.reserve(1)?;
        self.numbers.extend_from_slice(list)?;
        self.ends.push_reserved(self.numbers.len());
        Ok(())
    }

    /// The list at a place.
    pub fn get(&self, place: usize) -> &[u32]
        requires { place < length self.now }
        ensures { result.now ≡ slice_index_or self.now place [] }
    {
        let start = start(&self.ends, place);
        let end = self.ends[place];
        between(&self.numbers, start, end)
    }

    /// Leaves the first n lists.
    pub fn truncate(&mut self, n: usize)
        ensures { self.new ≡ take n self.old }
    {
        if n < self.ends.len() {
            self.numbers.truncate(start(&self.ends, n));
            self.ends.truncate(n);
        }
    }
}

/// The place of the first number of a list, which is the end of the list before.
fn start(ends: &[usize], place: usize) -> usize
    requires { place ≤ length ends.now }
    ensures { result ≡ start_of 0 ends.now place }
{
    if place == 0 { 0 } else { ends[place - 1] }
}

fn between(numbers: &[u32], start: usize, end: usize) -> &[u32]
    requires order { start ≤ end }
    requires within { end ≤ length numbers.now }
    ensures { result.now ≡ slice_range numbers.now start end }
{
    &numbers[start..end]
}
