//! What a walk may forget at a critical cut.

ghost use Rattle.ew_model.specs.ClearingLaws.{CutsClear, CutsKeepLengths, WalksAnswer, WalksKnowLengths};

/// What is below a critical cut can be forgotten but for its length.
pub fn law_clearing()
    ensures { CutsClear }
{}

/// Versions that hold what is below the cut keep their lengths.
pub fn law_lengths()
    ensures { CutsKeepLengths }
{}

/// A walk from a critical cut has the operations of the history.
pub fn law_walk()
    ensures { WalksAnswer }
{}

/// A walk from a critical cut knows which index is out of range.
pub fn law_walk_lengths()
    ensures { WalksKnowLengths }
{}
