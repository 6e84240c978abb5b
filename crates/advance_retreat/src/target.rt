//! Which character each applied event is about. A mark is about none: the root stands in its place.

ghost use Rattle.std.specs.Prelude.{◌≡◌, ◌+◌, ◌<◌, ◌^◌, true, false, None, Some, [], ◌∷◌, ◌++◌, List, length, IfSome, IsTrue, OnOk, OnErr, ℕ, nat_eq, if◌then◌else◌};
ghost use Rattle.std.specs.Ordering.{nat_cmp};
ghost use Rattle.std.specs.BTreeMap.{get};
ghost use Rattle.walker_record.specs.Stretches.{HasNumbers, node_on};
ghost use Rattle.advance_retreat.specs.declared.target.Target.{Target as One};
ghost use Rattle.advance_retreat.specs.Kept.{target_at, deletion_targets, typed_targets, AreWithin};
ghost use Rattle.advance_retreat.specs.Lines.{IsLineFrom};
ghost use Rattle.advance_retreat.specs.Placing.{other_event};

use crate::line::{Line, Way};
use crate::runs::Runs;
use character_runs::Positions;
use ew_model::NoMem;
use ew_model::node::Node;
use std::alloc::Global;
use std::collections::BTreeMap;
use std::marker::Model;

/// An applied event, by its position, and the character that it inserts or deletes; the root for a mark.
#[derive(Clone, Copy)]
pub struct Target {
    pub lv: u32,
    pub node: Node,
}

/// The characters of the applied events, which are found by the events' positions. Contracts see a list of them, in the order
/// in which the events were applied.
#[derive(Drop)]
pub struct Targets {
    /// The events whose positions rise, up to the first whose position doesn't.
    runs: Runs,
    /// The events from that one on.
    later: Vec<Target>,
    /// Their characters.
    others: BTreeMap<u32, Node>,
}

impl Model for Targets {
    ghost use Rattle.std.specs.Prelude.{◌++◌, List};
    ghost use Rattle.std.specs.Ordering.{nat_cmp};
    ghost use Rattle.std.specs.BTreeMap.{get};
    ghost use Rattle.advance_retreat.specs.declared.target.Target.{Target};
    ghost use Rattle.advance_retreat.specs.Kept.{AreFound};
    ghost use Rattle.advance_retreat.specs.Runs.{events_in};

    ghost Value = { List Target };

    ghost view = { λ t. events_in t.runs ++ t.later.items };

    ghost invariant = { λ t. AreFound t.later.items (get nat_cmp t.others) };
}

impl Targets {
    /// No events.
    pub fn new(alloc: Global) -> Targets
        ensures { result ≡ [] }
    {
        Targets {
            runs: Runs::new(alloc),
            later: Vec::new(alloc),
            others: BTreeMap::new(alloc),
        }
    }

    /// Where the memory is from.
    pub(crate) fn allocator(&self) -> Global {
        *self.later.allocator()
    }

    /// How many events were applied.
    pub fn len(&self) -> usize
        ensures { result ≡ length self.now }
    {
        self.runs.len() + self.later.len()
    }

    /// The character that the event at a position is about; the root for a mark.
    pub fn node(&self, lv: u32) -> Option<Node>
        ensures { result ≡ target_at self.now lv }
    {
        match self.runs.at(lv) {
            Some(run) => Some(run.node_at(lv)),
            None => node_at(&self.others, lv),
        }
    }

    /// The event whose character the one at a position is about, where that is another: the event at the position deletes it.
    pub fn other(&self, lv: u32) -> Option<u32>
        ensures { result ≡ other_event lv (target_at self.now lv) }
    {
        match self.node(lv) {
            Some(node) => other_event(node, lv),
            None => None,
        }
    }

    /// Whether each applied event is at one of these positions. Says no, too, where the positions don't rise.
    pub fn are_within(&self, at: Positions) -> bool
        ensures { result ≡ true → AreWithin at (target_at self.now) }
    {
        self.later.is_empty() && self.runs.are_within(at)
    }

    /// The line, if there is one, or else one that begins with an event and has at most so many.
    pub fn line_on(&mut self, line: Option<Line>, event: u32, order: Way, most: u32) -> Option<Line>
        requires { IfSome line (IsLineFrom order self.old event most) }
        ensures line { IfSome result (IsLineFrom order self.old event most) }
        ensures same { self.new ≡ self.old }
    {
        if line.is_some() {
            line
        } else {
            self.line(event, order, most)
        }
    }

    /// Events from one on, at most so many, about characters of one kind with numbers one after another, forwards or backwards. None
    /// where they are about no characters.
    fn line(&mut self, event: u32, order: Way, most: u32) -> Option<Line>
        ensures line { IfSome result (IsLineFrom order self.old event most) }
        ensures same { self.new ≡ self.old }
    {
        let run = self.runs.at_near(event)?;
        run.line(event, order, most)
    }

    /// Adds an event with a new position.
    pub fn add(&mut self, lv: u32, node: Node) -> Result<(), NoMem>
        requires { target_at self.old lv ≡ None }
        ensures ok { OnOk result (self.new ≡ self.old ++ record { lv = lv; node = node } ∷ []) }
        ensures err { OnErr result (self.new ≡ self.old) }
    {
        if self.later.is_empty() && self.runs.lengthen(lv, node) {
            return Ok(());
        }
        self.add_apart(lv, node)
    }

    /// Adds so many insertions at the positions behind this one, where they go on with the last run. Answers whether they do.
    pub fn add_typed(&mut self, newest: u32, count: u32) -> bool
        requires few { newest + count < 2 ^ 32 }
        requires new { (k : ℕ) → k < count → target_at self.old (newest + k + 1) ≡ None }
        ensures yes { IsTrue result → self.new ≡ self.old ++ typed_targets newest count }
        ensures no { result ≡ false → self.new ≡ self.old }
    {
        self.later.is_empty() && self.runs.lengthen_by(newest, count)
    }

    /// Takes back so many insertions at the positions behind this one, which are the last events.
    pub fn take_back_typed(&mut self, newest: u32, count: u32)
        requires few { newest + count < 2 ^ 32 }
        requires last { (ts : List One) × (self.old ≡ ts ++ typed_targets newest count) × ((k : ℕ) → k < count → target_at ts (newest + k + 1) ≡ None) }
        ensures { (ts : List One) → self.old ≡ ts ++ typed_targets newest count → self.new ≡ ts }
    {
        let mut left = count;
        while left > 0 {
            left -= 1;
            self.take_back(newest + left + 1);
        }
    }

    /// Adds deletions of so many characters from a node's on, by the events at the positions from this on. Where there is no memory
    /// for them, none is added.
    pub fn add_deletions(&mut self, lv: u32, node: Node, count: u32) -> Result<(), NoMem>
        requires few { lv + count < 2 ^ 32 }
        requires numbers { HasNumbers node count }
        requires new { (k : ℕ) → k < count → target_at self.old (lv + k) ≡ None }
        ensures ok { OnOk result (self.new ≡ self.old ++ deletion_targets lv node count) }
        ensures err { OnErr result (self.new ≡ self.old) }
    {
        let mut place = 0;
        while place < count {
            if let Err(e) = self.add(lv + place, node_on(node, place)) {
                self.take_back_deletions(lv, node, place);
                return Err(e);
            }
            place += 1;
        }
        Ok(())
    }

    /// Takes back so many deletions at the positions from this on, which are the last events.
    pub fn take_back_deletions(&mut self, lv: u32, node: Node, count: u32)
        requires few { lv + count < 2 ^ 32 }
        requires last { (ts : List One) × (self.old ≡ ts ++ deletion_targets lv node count) × ((k : ℕ) → k < count → target_at ts (lv + k) ≡ None) }
        ensures { (ts : List One) → self.old ≡ ts ++ deletion_targets lv node count → self.new ≡ ts }
    {
        let mut left = count;
        while left > 0 {
            left -= 1;
            self.take_back(lv + left);
        }
    }

    /// Adds an event that doesn't go on with the last run.
    // Out of line: most events go on with the last run.
    #[inline(never)]
    fn add_apart(&mut self, lv: u32, node: Node) -> Result<(), NoMem>
        requires { target_at self.old lv ≡ None }
        ensures ok { OnOk result (self.new ≡ self.old ++ record { lv = lv; node = node } ∷ []) }
        ensures err { OnErr result (self.new ≡ self.old) }
    {
        if self.later.is_empty() && self.runs.is_behind(lv) {
            return self.runs.push(lv, node);
        }
        self.add_later(lv, node)
    }

    /// Adds an event behind those in runs.
    fn add_later(&mut self, lv: u32, node: Node) -> Result<(), NoMem>
        requires { target_at self.old lv ≡ None }
        ensures ok { OnOk result (self.new ≡ self.old ++ record { lv = lv; node = node } ∷ []) }
        ensures err { OnErr result (self.new ≡ self.old) }
    {
        self.later.reserve(1)?;
        keep(&mut self.others, lv, node)?;
        self.later.push_reserved(Target { lv, node });
        Ok(())
    }

    /// Takes back the last event, which is at this position.
    pub fn take_back(&mut self, lv: u32)
        requires { (ts : List One) × (t : One) × (self.old ≡ ts ++ t ∷ []) × (t.lv ≡ lv) × (target_at ts lv ≡ None) }
        ensures { (ts : List One) (t : One) → self.old ≡ ts ++ t ∷ [] → self.new ≡ ts }
    {
        if self.later.is_empty() {
            self.runs.take_back();
        } else {
            let _ = self.later.pop();
            forget(&mut self.others, lv);
        }
    }
}

/// The node so many places on.
fn node_on(node: Node, n: u32) -> Node
    requires { HasNumbers node (n + 1) }
    ensures { result ≡ node_on node n }
{
    match node {
        Node::Root => Node::Root,
        Node::Base(i) => Node::Base(i + n),
        Node::Event(i) => Node::Event(i + n),
    }
}

/// The event whose node it is, where that is another than the one at a position.
fn other_event(node: Node, lv: u32) -> Option<u32>
    ensures { result ≡ other_event lv (Some node) }
{
    match node {
        Node::Root | Node::Base(_) => None,
        Node::Event(n) => { if n == lv { None } else { Some(n) } }
    }
}

pub fn node_at(nodes: &BTreeMap<u32, Node>, lv: u32) -> Option<Node>
    ensures { result ≡ get nat_cmp nodes.now lv }
{
    match nodes.get(&lv) {
        Some(node) => Some(*node),
        None => None,
    }
}

pub fn keep(nodes: &mut BTreeMap<u32, Node>, lv: u32, node: Node) -> Result<(), NoMem>
    ensures ok { OnOk result ((k : ℕ) → get nat_cmp nodes.new k ≡ (if nat_eq lv k then Some node else get nat_cmp nodes.old k)) }
    ensures err { OnErr result ((k : ℕ) → get nat_cmp nodes.new k ≡ get nat_cmp nodes.old k) }
{
    match nodes.insert(lv, node) {
        Ok(_) => Ok(()),
        Err(_) => Err(NoMem),
    }
}

pub fn forget(nodes: &mut BTreeMap<u32, Node>, lv: u32)
    ensures { (k : ℕ) → get nat_cmp nodes.new k ≡ (if nat_eq lv k then None else get nat_cmp nodes.old k) }
{
    let _ = nodes.remove(&lv);
}
