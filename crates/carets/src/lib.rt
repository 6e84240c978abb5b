//! Carets: places in a text that stay where they are meant while the history grows.
#![tactic(auto)]

ghost use Rattle.carets.specs.SideLaws.{CaretsAreAtTheirIndex, CaretsKeepTheirOrder, CharactersKeepTheirSide, EqualSetsHaveEqualSides};

mod caret;

pub use caret::Caret;

/// A caret that was taken at an index of a history's text is at this index.
pub fn law_own_index()
    ensures { CaretsAreAtTheirIndex }
{}

/// Two carets that were taken in one version keep their order in each good history that holds all events of the first.
pub fn law_order()
    ensures { CaretsKeepTheirOrder }
{}

/// A character that is visible in a history and in one that holds its events is on the same side of a caret in both.
pub fn law_sides()
    ensures { CharactersKeepTheirSide }
{}

/// In histories with the same events a caret is at the same index.
pub fn law_equal_sets()
    ensures { EqualSetsHaveEqualSides }
{}
