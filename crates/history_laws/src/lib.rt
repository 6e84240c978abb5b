//! Laws on histories. On versions: a version's text is that of its own events, whatever else is held. On receiving events: what stands
//! where it stops between two judgements, which events may be left out, and that a list may be received in parts.
#![tactic(auto)]

ghost use Rattle.history_laws.specs.Accounts.{EachHasOneLastAnswer, JudgementsAccountForAll};
ghost use Rattle.history_laws.specs.Parts.{PartsAreTheWhole};
ghost use Rattle.history_laws.specs.Repeats.{HeldEventsAreRepeats, HeldEventsChangeNothing};
ghost use Rattle.history_laws.specs.Versions.{EventsMeanWhatWasSeen, HeldVersionsKeepText, VersionsAreHistories, VersionsKeepText};

/// The events answered Good, in order, stand behind the old history. Each received event was judged once as it came, in order, or
/// is still to come. Each that waited, or was told to, was judged once after that, with another answer, or still waits. There are
/// no other answers.
pub fn law_accounts()
    ensures { JudgementsAccountForAll }
{}

/// Each event that waited and each that was received has one last answer, or waits, or is still to come.
pub fn law_last_answers()
    ensures { EachHasOneLastAnswer }
{}

/// Where no waiting event is ready, receiving only those events whose ids aren't held leaves the same events held, and the same
/// waiting, as receiving all, and takes as many touches at most.
pub fn law_held()
    ensures { HeldEventsChangeNothing }
{}

/// Where there is one event for each id, and no waiting event is ready, those events that are left out then are repeats: the others
/// are answered as they would be, and there are as many repeats fewer.
pub fn law_repeats()
    ensures { HeldEventsAreRepeats }
{}

/// Events that are received in two parts, one after the other, leave and are answered what all of them are at once.
pub fn law_parts()
    ensures { PartsAreTheWhole }
{}

/// Versions with the same events have one text, whatever else their histories hold.
pub fn law_version_texts()
    ensures { VersionsKeepText }
{}

/// The events of a version are a good history of their own, and its text is the version's.
pub fn law_version_histories()
    ensures { VersionsAreHistories }
{}

/// A version has one text in all good histories that hold it, where one id names one event.
pub fn law_held_versions()
    ensures { HeldVersionsKeepText }
{}

/// An index is meant in the text that its maker saw: where one id names one event, each good history that holds the event has that
/// text at the event's parents, and at the version that ends with the event that text with the event's own change.
pub fn law_seen()
    ensures { EventsMeanWhatWasSeen }
{}
