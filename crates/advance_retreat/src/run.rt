//! A run of applied events.

ghost use Rattle.std.specs.Prelude.{◌≡◌, ◌+◌, ◌-◌, ◌≤◌, ◌<◌, ℕ, suc, List, false, IsTrue, IfSome, IfNone};
ghost use Rattle.advance_retreat.specs.declared.target.Target.{Target};
ghost use Rattle.advance_retreat.specs.Runs.{number_from, node_from, HasSteps, HasNodes, HasEvent, HasRun, IsNextCharacter, GoesOn, IsTypedTo, way_in, count_from, alone};
ghost use Rattle.advance_retreat.specs.declared.line.Way.TheVariants as lines;
ghost use Rattle.advance_retreat.specs.Lines.{IsLineFrom};

use crate::line::{Line, Way};
use character_runs::Kind;
use ew_model::node::Node;

/// Events at positions one after another. Each is about the character that is one further on its way than that of the event
/// before it, all of the base, or all of events. (Marks are about none.)
#[derive(Clone, Copy)]
pub struct Run {
    /// The position of the first event.
    pub first: u32,
    /// How many more there are.
    pub more: u32,
    /// What the first event is about.
    pub node: Node,
    /// Up for one event alone, until a second one shows it.
    pub way: Way,
}

impl Run {
    /// One event alone.
    pub fn alone(lv: u32, node: Node) -> Run
        ensures is { result ≡ alone lv node }
        ensures nodes { HasNodes lines.Up node 0 }
    {
        Run {
            first: lv,
            more: 0,
            node,
            way: Way::Up,
        }
    }

    /// Whether it ends before a position.
    pub fn is_before(self, lv: u32) -> bool
        ensures { IsTrue result → self.first + self.more < lv }
    {
        self.first < lv && self.more < lv - self.first
    }

    /// Whether it has the event at a position.
    pub fn has(self, lv: u32) -> bool
        ensures yes { IsTrue result → HasEvent self lv }
        ensures no { result ≡ false → HasEvent self lv → ⊥ }
    {
        self.first <= lv && lv - self.first <= self.more
    }

    /// The run, if it has the event at a position.
    pub fn held(self, lv: u32) -> Option<Run>
        ensures some { IfSome result (λ r. (r ≡ self) × HasEvent self lv) }
        ensures none { IfNone result (HasEvent self lv → ⊥) }
    {
        if self.has(lv) { Some(self) } else { None }
    }

    /// What the event at a position is about.
    pub fn node_at(self, lv: u32) -> Node
        requires some { self.first ≤ lv }
        requires most { lv - self.first ≤ self.more }
        requires nodes { HasNodes self.way self.node self.more }
        ensures { result ≡ node_from self.way self.node (lv - self.first) }
    {
        let steps = lv - self.first;
        match (self.node, self.way) {
            (Node::Root, _) => Node::Root,
            (Node::Base(n), Way::Up) => Node::Base(n + steps),
            (Node::Base(n), Way::Down) => Node::Base(n - steps),
            (Node::Event(n), Way::Up) => Node::Event(n + steps),
            (Node::Event(n), Way::Down) => Node::Event(n - steps),
        }
    }

    /// Its events from one on, at most so many. None where they are about no characters.
    pub fn line(self, event: u32, order: Way, most: u32) -> Option<Line>
        requires some { self.first ≤ event }
        requires most { event - self.first ≤ self.more }
        requires nodes { HasNodes self.way self.node self.more }
        ensures { (targets : List Target) → HasRun targets self → IfSome result (IsLineFrom order targets event most) }
    {
        let (kind, character) = Kind::of(self.node_at(event))?;
        Some(Line {
            event,
            way: self.way_in(order),
            kind,
            character,
            count: most.min(self.count_from(event, order)),
        })
    }

    /// The way of the characters, where the events are on this way.
    fn way_in(self, order: Way) -> Way
        ensures { result ≡ way_in order self.way }
    {
        match (order, self.way) {
            (Way::Up, Way::Up) | (Way::Down, Way::Down) => Way::Up,
            (Way::Up, Way::Down) | (Way::Down, Way::Up) => Way::Down,
        }
    }

    /// How many of its events there are from one on, on this way.
    fn count_from(self, event: u32, order: Way) -> u32
        requires some { self.first ≤ event }
        requires most { event - self.first ≤ self.more }
        ensures { result ≤ count_from order self event }
    {
        let more = match order {
            Way::Up => self.more - (event - self.first),
            Way::Down => event - self.first,
        };
        more.saturating_add(1)
    }

    /// Whether an event at a position goes on with it.
    pub fn goes_on(self, lv: u32, node: Node) -> bool
        ensures { IsTrue result → GoesOn self lv node }
    {
        lv > self.first && lv - self.first - 1 == self.more && self.leads_to(node)
    }

    /// Whether its events are insertions, and its last is at a position.
    pub fn is_typed_to(self, newest: u32) -> bool
        ensures { IsTrue result → IsTypedTo self newest }
    {
        match (self.node, self.way) {
            (Node::Event(first), Way::Up) => {
                first == self.first && newest >= first && newest - first == self.more
            }
            _ => false,
        }
    }

    /// Whether a character is the one behind its last.
    fn leads_to(self, node: Node) -> bool
        ensures { IsTrue result → IsNextCharacter self node }
    {
        match (self.node, node) {
            (Node::Base(first), Node::Base(next)) | (Node::Event(first), Node::Event(next)) => {
                is_one_further(self.way, first, self.more, next)
            }
            _ => false,
        }
    }

    /// The same on the other way, which is the same run where it has one event.
    pub fn turned(self) -> Run
        ensures first { result.first ≡ self.first }
        ensures more { result.more ≡ self.more }
        ensures node { result.node ≡ self.node }
    {
        let way = match self.way {
            Way::Up => Way::Down,
            Way::Down => Way::Up,
        };
        Run { way, ..self }
    }
}

/// Whether a number is one step further away from another than so many.
fn is_one_further(way: Way, first: u32, more: u32, next: u32) -> bool
    ensures number { IsTrue result → next ≡ number_from way first (suc more) }
    ensures steps { IsTrue result → HasSteps way first (suc more) }
{
    match way {
        Way::Up => next > first && next - first - 1 == more,
        Way::Down => next < first && first - next - 1 == more,
    }
}
