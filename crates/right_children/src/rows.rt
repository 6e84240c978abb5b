//! How many right children of the nodes of events are known, by the events' positions.

ghost use Rattle.std.specs.Prelude.{◌≡◌, ◌+◌, ◌-◌, ◌≤◌, ◌<◌, ◌^◌, ℕ, true, None, Some, IsSome, OnOk, OnErr, length, map, slice_index, EachIndex, nat_eq, unwrap_or, if◌then◌else◌};
ghost use Rattle.std.specs.Ordering.{nat_cmp};
ghost use Rattle.std.specs.BTreeMap.{get};
ghost use Rattle.right_children.specs.Rows.{in_line, kept_at, row_at, stepped, KeepsRows, MayStep, StepsEach};

use ew_model::NoMem;
use std::alloc::Global;
use std::collections::BTreeMap;

/// The most positions without a row that the line goes on over at once.
const LONGEST_GAP: usize = 1 << 20;

/// A row by position: how many right children of the event's node are known. Those from some position on stand in line, one for
/// each position, so that a row is found by its place.
#[derive(Drop)]
pub struct Rows {
    /// The position of the first in line.
    first: u32,
    line: Vec<u32>,
    /// Those of positions before the line, or far behind it.
    others: BTreeMap<u32, u32>,
}

impl Rows {
    /// No rows.
    pub fn new(alloc: Global) -> Rows
        ensures { (n : ℕ) → kept_at result n ≡ None }
    {
        Rows {
            first: 0,
            line: Vec::new(alloc),
            others: BTreeMap::new(alloc),
        }
    }

    /// The row of a position, which is 0 where none is kept.
    pub fn at(&self, position: u32) -> u32
        ensures { result ≡ row_at self.now position }
    {
        self.get(position).unwrap_or(0)
    }

    /// The row that is kept of a position.
    fn get(&self, position: u32) -> Option<u32>
        ensures { result ≡ kept_at self.now position }
    {
        match in_line(self.first, &self.line, position) {
            Some(row) => Some(row),
            None => other(&self.others, position),
        }
    }

    /// Notes that one more right child of the node of a position that has a row is known, or one fewer.
    pub fn shift(&mut self, position: u32, is: bool)
        requires has { IsSome (kept_at self.old position) }
        requires may { MayStep (row_at self.old position) is }
        ensures { (n : ℕ) → kept_at self.new n ≡ (if nat_eq position n then Some (stepped (row_at self.old position) is) else kept_at self.old n) }
    {
        if in_line(self.first, &self.line, position).is_some() {
            let place = (position - self.first) as usize;
            self.line[place] = stepped(self.line[place], is);
        } else {
            let row = stepped(self.elsewhere(position), is);
            replace(&mut self.others, position, row);
        }
    }

    /// Notes that no right child of the node of a position that has a row is known.
    pub fn reset(&mut self, position: u32)
        requires { IsSome (kept_at self.old position) }
        ensures { (n : ℕ) → kept_at self.new n ≡ (if nat_eq position n then Some 0 else kept_at self.old n) }
    {
        if in_line(self.first, &self.line, position).is_some() {
            self.line[(position - self.first) as usize] = 0;
        } else {
            replace(&mut self.others, position, 0);
        }
    }

    /// Notes of each position from one on that is below another that one more right child of its node is known, or one fewer.
    pub fn shift_each(&mut self, from: u32, to: u32, is: bool)
        requires order { from ≤ to }
        requires have { (n : ℕ) → from ≤ n → n < to → IsSome (kept_at self.old n) }
        requires may { (n : ℕ) → from ≤ n → n < to → MayStep (row_at self.old n) is }
        ensures { StepsEach self.old self.new from to is }
    {
        if from >= self.first && (to - self.first) as usize <= self.line.len() {
            let low = (from - self.first) as usize;
            let high = (to - self.first) as usize;
            step_each(&mut self.line[low..high], is);
        } else {
            self.shift_in_turn(from, to, is);
        }
    }

    /// The same, one position after another.
    // Seldom called: kept apart, so that what is done for a chain stays short.
    #[inline(never)]
    fn shift_in_turn(&mut self, from: u32, to: u32, is: bool)
        requires order { from ≤ to }
        requires have { (n : ℕ) → from ≤ n → n < to → IsSome (kept_at self.old n) }
        requires may { (n : ℕ) → from ≤ n → n < to → MayStep (row_at self.old n) is }
        ensures { StepsEach self.old self.new from to is }
    {
        for position in from..to {
            self.shift(position, is);
        }
    }

    /// Sees to it that a position has a row.
    pub fn begin(&mut self, position: u32) -> Result<(), NoMem>
        ensures begun { OnOk result (IsSome (kept_at self.new position)) }
        ensures rows { KeepsRows self.old self.new }
    {
        if in_line(self.first, &self.line, position).is_some() {
            return Ok(());
        }
        if self.is_next(position) {
            return self.push(position);
        }
        self.begin_out_of_line(position)
    }

    /// Sees to it that so many positions from one on have rows.
    pub fn begin_each(&mut self, from: u32, count: u32) -> Result<(), NoMem>
        requires few { from + count < 2 ^ 32 }
        ensures begun { OnOk result ((k : ℕ) → k < count → IsSome (kept_at self.new (from + k))) }
        ensures rows { KeepsRows self.old self.new }
    {
        if count == 0 {
            return Ok(());
        }
        self.begin(from)?;
        if self.others.is_empty() && self.is_next(from + 1) {
            return self.lengthen_by(count - 1);
        }
        for k in 1..count {
            self.begin(from + k)?;
        }
        Ok(())
    }

    /// Sees to it that a position out of line has a row.
    // Seldom called: kept apart, so that what is done for each character stays short.
    #[inline(never)]
    fn begin_out_of_line(&mut self, position: u32) -> Result<(), NoMem>
        requires { in_line self.old.first self.old.line.items position ≡ None }
        ensures begun { OnOk result (IsSome (kept_at self.new position)) }
        ensures rows { KeepsRows self.old self.new }
    {
        if other(&self.others, position).is_some() {
            return Ok(());
        }
        if self.line.is_empty() {
            self.first = position;
        }
        if self.is_near(position) {
            self.lengthen(position)
        } else {
            keep(&mut self.others, position, 0)
        }
    }

    /// Whether a position lies right behind the line. It may say no: then the longer way is taken.
    fn is_next(&self, position: u32) -> bool
        ensures { result ≡ true → position ≡ self.now.first + length self.now.line.items }
    {
        self.first as usize + self.line.len() == position as usize
    }

    /// Whether a position lies behind the line, and not far.
    fn is_near(&self, position: u32) -> bool
        ensures { result ≡ true → (self.now.first ≤ position) × (length self.now.line.items ≤ position - self.now.first) }
    {
        let len = self.line.len();
        match position.checked_sub(self.first) {
            Some(place) => len <= place as usize && place as usize - len <= LONGEST_GAP,
            None => false,
        }
    }

    /// Lengthens the line up to a position behind it.
    fn lengthen(&mut self, position: u32) -> Result<(), NoMem>
        requires { (self.old.first ≤ position) × (length self.old.line.items ≤ position - self.old.first) }
        ensures begun { OnOk result (IsSome (kept_at self.new position)) }
        ensures rows { KeepsRows self.old self.new }
    {
        let next = self.first + self.line.len() as u32;
        for gap in next..position {
            self.push(gap)?;
        }
        self.push(position)
    }

    /// Lengthens the line by so many positions, where no rows are kept elsewhere.
    fn lengthen_by(&mut self, count: u32) -> Result<(), NoMem>
        requires few { self.old.first + length self.old.line.items + count < 2 ^ 32 }
        requires none { (n : ℕ) → get nat_cmp self.old.others n ≡ None }
        ensures begun { OnOk result ((k : ℕ) → k < count → IsSome (kept_at self.new (self.old.first + length self.old.line.items + k))) }
        ensures rows { KeepsRows self.old self.new }
    {
        let len = self.line.len() + count as usize;
        self.line.resize(len, 0)?;
        Ok(())
    }

    /// Lengthens the line by one position, whose row is the one that is kept elsewhere, if any.
    fn push(&mut self, position: u32) -> Result<(), NoMem>
        requires { position ≡ self.old.first + length self.old.line.items }
        ensures begun { OnOk result (IsSome (kept_at self.new position)) }
        ensures len { OnOk result (length self.new.line.items ≡ length self.old.line.items + 1) }
        ensures first { self.new.first ≡ self.old.first }
        ensures rows { KeepsRows self.old self.new }
    {
        let row = self.elsewhere(position);
        self.push_row(position, row)
    }

    /// Lengthens the line by one position, with its row.
    fn push_row(&mut self, position: u32, row: u32) -> Result<(), NoMem>
        requires { position ≡ self.old.first + length self.old.line.items }
        ensures ok { OnOk result ((n : ℕ) → kept_at self.new n ≡ (if nat_eq position n then Some row else kept_at self.old n)) }
        ensures err { OnErr result ((n : ℕ) → kept_at self.new n ≡ kept_at self.old n) }
        ensures len { OnOk result (length self.new.line.items ≡ length self.old.line.items + 1) }
        ensures first { self.new.first ≡ self.old.first }
    {
        self.line.push(row)?;
        Ok(())
    }

    /// The row of a position out of line, which is 0 where none is kept.
    fn elsewhere(&self, position: u32) -> u32
        ensures { result ≡ unwrap_or (get nat_cmp self.now.others position) 0 }
    {
        other(&self.others, position).unwrap_or(0)
    }
}

/// One more, or one fewer.
pub fn stepped(count: u32, more: bool) -> u32
    requires { MayStep count more }
    ensures { result ≡ stepped count more }
{
    if more { count + 1 } else { count - 1 }
}

/// One more of each, or one fewer.
fn step_each(rows: &mut [u32], more: bool)
    requires { EachIndex rows.old (λ k. MayStep (slice_index rows.old k) more) }
    ensures { rows.new ≡ map (λ row. stepped row more) rows.old }
{
    for row in rows.iter_mut() {
        *row = stepped(*row, more);
    }
}

/// The row of a position among rows in line, which begin at a position.
fn in_line(first: u32, line: &[u32], position: u32) -> Option<u32>
    ensures { result ≡ in_line first line.now position }
{
    if position < first {
        return None;
    }
    line.get((position - first) as usize).copied()
}

fn other(others: &BTreeMap<u32, u32>, position: u32) -> Option<u32>
    ensures { result ≡ get nat_cmp others.now position }
{
    others.get(&position).copied()
}

/// Keeps the row of a position, which may have one.
fn keep(others: &mut BTreeMap<u32, u32>, position: u32, row: u32) -> Result<(), NoMem>
    ensures ok { OnOk result ((k : ℕ) → get nat_cmp others.new k ≡ (if nat_eq position k then Some row else get nat_cmp others.old k)) }
    ensures err { OnErr result ((k : ℕ) → get nat_cmp others.new k ≡ get nat_cmp others.old k) }
    ensures absent { OnErr result (get nat_cmp others.old position ≡ None) }
{
    match others.insert(position, row) {
        Ok(_) => Ok(()),
        Err(_) => Err(NoMem),
    }
}

/// Gives a position that has a row another.
fn replace(others: &mut BTreeMap<u32, u32>, position: u32, row: u32)
    requires { IsSome (get nat_cmp others.old position) }
    ensures { (k : ℕ) → get nat_cmp others.new k ≡ (if nat_eq position k then Some row else get nat_cmp others.old k) }
{
    let Ok(()) = keep(others, position, row) else {
        unreachable!()
    };
}
