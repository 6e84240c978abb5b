//! The orders of ids and of paths.

ghost use Rattle.ew_model.specs.OrderLaws.{IdsAreOrdered, PathsAreOrdered};

/// Ids are totally ordered, and the test of ids tells whether two are one.
pub fn law_ids()
    ensures { IdsAreOrdered }
{}

/// The order of the walk is total.
pub fn law_paths()
    ensures { PathsAreOrdered }
{}
