//! The ids of events: an agent's name and a sequence number.

ghost use Rattle.std.specs.Prelude.{◌≡◌, ◌↔◌, IsTrue, Some};
ghost use Rattle.ew_model.specs.Scripts.{id_text};

use crate::name::Name;
use std::cmp::Ordering;
use std::fmt;

/// The id of an event. Ids are ordered by the bytes of the agent's name, a proper prefix being lower, and then by the
/// sequence number.
#[derive(Clone, Copy, PartialEq, Eq, PartialOrd, Ord, Hash)]
pub struct Id {
    pub agent: Name,
    /// How many events of the agent stand before this one.
    pub seq: u32,
}

impl Id {
    ghost use Rattle.ew_model.specs.Ids.{id_cmp, id_eq};

    /// How the two ids stand in their order: what `cmp` answers, in the definitions' words.
    pub fn compare(&self, other: &Id) -> Ordering
        ensures { result ≡ id_cmp self.now other.now }
    {
        self.cmp(other)
    }

    /// Whether the two are one id.
    pub fn is(&self, other: &Id) -> bool
        ensures same { IsTrue result ↔ (self.now ≡ other.now) }
        ensures value { result ≡ id_eq self.now other.now }
    {
        self.cmp(other).is_eq()
    }
}

impl fmt::Display for Id {
    ghost output = { λ x. Some (id_text x) };

    fn fmt<W: fmt::Write>(&self, f: &mut fmt::Formatter<W>) -> fmt::Result {
        let agent = self.agent;
        let seq = self.seq;
        write!(f, "{agent}:{seq}")
    }
}

impl fmt::Debug for Id {
    ghost debug_output = { λ x. Some (id_text x) };

    fn fmt<W: fmt::Write>(&self, f: &mut fmt::Formatter<W>) -> fmt::Result {
        fmt::Display::fmt(self, f)
    }
}
