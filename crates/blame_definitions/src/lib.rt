//! Who inserted which part of a text: into which pieces a text is cut, how much of each is shown, and the laws on that. The
//! definitions stand in the crate's folder `specs`.
#![tactic(auto)]

ghost use Rattle.blame_definitions.specs.BlameLaws.{EqualSetsBlameAlike, EscapesAreEscapedText, PiecesMakeText, ShownIsLongest, VersionsBlameAlone};

/// The characters of the pieces, joined, are the text of the version.
pub fn law_text()
    ensures { PiecesMakeText }
{}

/// Histories with the same events have the same blame.
pub fn law_equal_sets()
    ensures { EqualSetsBlameAlike }
{}

/// The blame of a version is that of its events alone.
pub fn law_versions()
    ensures { VersionsBlameAlone }
{}

/// What is shown of a text is the longest front of it that fits into the columns.
pub fn law_shown()
    ensures { ShownIsLongest }
{}

/// The columns are those of the escaped form that is printed.
pub fn law_escaped()
    ensures { EscapesAreEscapedText }
{}
