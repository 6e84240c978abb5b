//! What ancestors are, and what a history tells that is known by its events' positions alone.

ghost use Rattle.ew_model.specs.PositionCuts.{CutsStepAt};
ghost use Rattle.ew_model.specs.PositionLaws.{PositionsAgree, PositionsGrow};
ghost use Rattle.ew_model.specs.ReachLaws.{AncestorsAreReached};

/// The positions of a good history's parents tell its versions, its heads, which ids are reduced, and its cuts.
pub fn law_positions()
    ensures { PositionsAgree }
{}

/// One more event adds the positions of its parents and changes no others.
pub fn law_positions_grow()
    ensures { PositionsGrow }
{}

/// By positions too, the cuts up to the last parent stay critical, the one behind it where the parents are the frontier
/// there, and no further one but the new whole length.
pub fn law_position_cuts()
    ensures { CutsStepAt }
{}

/// Ancestors are what is reached from the named ids by going from events to parents.
pub fn law_reached()
    ensures { AncestorsAreReached }
{}
