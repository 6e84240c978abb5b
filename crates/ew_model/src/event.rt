//! Events and their operations.

ghost use Rattle.std.specs.Prelude.{◌≡◌, ◌↔◌, IfOk, IsTrue};

use crate::NoMem;
use crate::id::Id;
use crate::name::Name;
use crate::parents::Parents;

/// What an event does: it changes the text at its parents, or it is a named save. Indices count Unicode scalar values.
#[derive(Clone, Copy, Debug, PartialEq, Eq)]
pub enum Op {
    /// Puts the character at the index.
    Ins { at: u32, ch: char },
    /// Deletes the character at the index.
    Del { at: u32 },
    /// Changes nothing: a save under a name. Its parents may be heads that it joins.
    Mark { label: Name },
}

impl Op {
    /// Whether the two are one operation.
    pub fn same(&self, other: &Op) -> bool
        ensures { IsTrue result ↔ (self.now ≡ other.now) }
    {
        *self == *other
    }
}

/// An event: its id, the ids that its maker had last seen, and its operation.
#[derive(Drop)]
pub struct Event {
    pub id: Id,
    pub parents: Parents,
    pub op: Op,
}

impl Event {
    /// Whether the two have the same id, the same parents in the same order, and the same operation.
    pub fn same(&self, other: &Event) -> bool
        ensures { IsTrue result ↔ (self.now ≡ other.now) }
    {
        self.id.is(&other.id) && self.parents.same(&other.parents) && self.op.same(&other.op)
    }

    /// A second event that is the same.
    pub fn copy(&self) -> Result<Event, NoMem>
        ensures { IfOk result (λ e. e ≡ self.now) }
    {
        let parents = self.parents.copy()?;
        Ok(Event {
            id: self.id,
            parents,
            op: self.op,
        })
    }
}
