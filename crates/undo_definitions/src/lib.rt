//! Undoing by new events: what a text is to show once events are undone, which events an undo makes, why it is refused, and the laws
//! on that. The definitions stand in the crate's folder `specs`.
#![tactic(auto)]

ghost use Rattle.undo_definitions.specs.UndoLaws.{EqualSetsUndoAlike, UndosAreUndone, UndosGoBack, UndosKeep, UndosLeaveOthersText, UndosLeaveOthersWork, UndosLeaveWanted, UndosShowWanted, WantedIsLeftByOthers};

/// What an undo wants is what would be shown if the undone events had left nothing, and all others what they left.
pub fn law_wanted()
    ensures { WantedIsLeftByOthers }
{}

/// An undo that isn't refused makes good events, and no more than there is room for. The text is then the wanted characters. One event
/// is made for each character that goes, and for each that is put in again.
pub fn law_undo()
    ensures { UndosLeaveWanted }
{}

/// After an undo each wanted character is shown at its place: by itself where it was shown before, else by a new one; and nothing else
/// is shown.
pub fn law_places()
    ensures { UndosShowWanted }
{}

/// After an undo no character of the undone events is shown, and all those of others that were shown still are.
pub fn law_others_work()
    ensures { UndosLeaveOthersWork }
{}

/// Where the events that aren't undone are a good history of their own, an undo leaves the text of that history.
pub fn law_others_text()
    ensures { UndosLeaveOthersText }
{}

/// An undo of the last events of a history leaves the text from before them.
pub fn law_last_events()
    ensures { UndosGoBack }
{}

/// An undo of all that an undo made gives back the text from before, whoever makes it.
pub fn law_undo_of_undo()
    ensures { UndosAreUndone }
{}

/// In histories with the same events an undo wants the same, and makes the same operations.
pub fn law_equal_sets()
    ensures { EqualSetsUndoAlike }
{}

/// A replica keeps what it keeps where an agent undoes for which no waiting event waits.
pub fn law_kept()
    ensures { UndosKeep }
{}
