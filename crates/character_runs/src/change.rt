//! Changes of one record.

ghost use Rattle.std.specs.Prelude.{◌≡◌, ◌<◌, ◌^◌, ℕ, IfSome, IfNone, map};
ghost use Rattle.std.specs.List.{AllByRecursion};
ghost use Rattle.character_runs.specs.States.{changed, changed_at, is_of, HasRoom};
ghost use Rattle.character_runs.specs.Replacing.{node_by};

use ew_model::node::Node;
use walker_record::Record;

/// What an event does to the record of its character.
#[derive(Clone, Copy)]
pub enum Change {
    /// It comes into what is prepared.
    Raise,
    /// It is taken out of it.
    Lower,
    /// It deletes the character, in what is prepared and in the text.
    Strike,
}

/// The positions from `from` on that are below `to`, or the indexes in a base.
#[derive(Clone, Copy)]
pub struct Positions {
    pub from: u32,
    pub to: u32,
}

/// Which characters are meant by their numbers.
#[derive(Clone, Copy)]
pub enum Kind {
    /// Those of the base, by their indexes in it.
    OfBase,
    /// Those that events inserted, by the events' positions.
    OfEvents,
}

impl Kind {
    /// The kind of a node's character, and its number. None for the root, which has no character.
    pub fn of(node: Node) -> Option<(Kind, u32)>
        ensures { IfSome result (λ k. node ≡ node_by k.0 k.1) }
    {
        match node {
            Node::Root => None,
            Node::Base(i) => Some((Kind::OfBase, i)),
            Node::Event(n) => Some((Kind::OfEvents, n)),
        }
    }

    /// The node with a number.
    pub fn node(self, number: u32) -> Node
        ensures { result ≡ node_by self number }
    {
        match self {
            Kind::OfBase => Node::Base(number),
            Kind::OfEvents => Node::Event(number),
        }
    }

    /// The number of a node, where it is of this kind.
    pub fn number(self, node: Node) -> Option<u32>
        ensures some { IfSome result (λ n. node ≡ node_by self n) }
        ensures none { IfNone result ((n : ℕ) → node ≡ node_by self n → ⊥) }
    {
        match (self, node) {
            (Kind::OfBase, Node::Base(i)) => Some(i),
            (Kind::OfEvents, Node::Event(n)) => Some(n),
            _ => None,
        }
    }
}

/// A record after a change.
pub fn changed(before: Record, change: Change) -> Record
    requires { HasRoom before }
    ensures { result ≡ changed change before }
{
    match change {
        Change::Raise => Record {
            prepared: before.prepared + 1,
            ..before
        },
        Change::Lower => Record {
            prepared: before.prepared.saturating_sub(1),
            ..before
        },
        Change::Strike => Record {
            prepared: before.prepared + 1,
            effect: false,
            ..before
        },
    }
}
