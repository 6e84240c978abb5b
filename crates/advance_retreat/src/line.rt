//! Events one after another that are about characters with numbers one after another, forwards or backwards: events' characters
//! by the positions of their insertions, base characters by their indexes.

ghost use Rattle.std.specs.Prelude.{◌≡◌, ℕ, ◌+◌, ◌<◌, ◌≤◌, List, IfSome};
ghost use Rattle.advance_retreat.specs.declared.target.Target.{Target};
ghost use Rattle.advance_retreat.specs.Lines.{IsAway, IsLineFrom, AreOf};

use character_runs::{Kind, Positions};

/// Which way positions go.
#[derive(Clone, Copy)]
pub enum Way {
    Up,
    Down,
}

impl Way {
    /// The position so many steps away, if there is one.
    pub fn from(self, position: u32, steps: u32) -> Option<u32>
        ensures { IfSome result (IsAway self position steps) }
    {
        match self {
            Way::Up => position.checked_add(steps),
            Way::Down => position.checked_sub(steps),
        }
    }
}

/// So many events, from one on, and the characters that they are about, all of one kind, from the first one's on.
#[derive(Clone, Copy)]
pub struct Line {
    pub event: u32,
    pub way: Way,
    pub kind: Kind,
    pub character: u32,
    pub count: u32,
}

impl Line {
    /// The numbers of its characters.
    pub fn characters(self) -> Option<Positions>
        ensures { IfSome result (AreOf self.way self.character self.count) }
    {
        span(self.way, self.character, self.count)
    }

    /// What is left of it behind so many of its first events, where the events are on this way.
    fn behind(self, order: Way, passed: u32) -> Option<Line>
        ensures { (targets : List Target) (first next most left : ℕ) → IsLineFrom order targets first most self → (0 < left → IsAway order first passed next) → most ≡ left + passed → IfSome result (IsLineFrom order targets next left) }
    {
        if self.count <= passed {
            return None;
        }
        let event = order.from(self.event, passed)?;
        let character = self.way.from(self.character, passed)?;
        Some(Line {
            event,
            way: self.way,
            kind: self.kind,
            character,
            count: self.count - passed,
        })
    }
}

/// What is left of a line, if there is one, behind so many of its first events, where the events are on this way.
pub fn behind(line: Option<Line>, order: Way, passed: u32) -> Option<Line>
    ensures { (targets : List Target) (first next most left : ℕ) → IfSome line (IsLineFrom order targets first most) → (0 < left → IsAway order first passed next) → most ≡ left + passed → IfSome result (IsLineFrom order targets next left) }
{
    match line {
        Some(line) => line.behind(order, passed),
        None => None,
    }
}

/// The numbers of so many characters, from one on, which go this way.
fn span(way: Way, character: u32, count: u32) -> Option<Positions>
    ensures { IfSome result (AreOf way character count) }
{
    match way {
        Way::Up => {
            let to = character.checked_add(count)?;
            Some(Positions {
                from: character,
                to,
            })
        }
        Way::Down => {
            let to = character.checked_add(1)?;
            let from = to.checked_sub(count)?;
            Some(Positions { from, to })
        }
    }
}
