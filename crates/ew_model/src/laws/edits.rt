//! What local edits make.

ghost use Rattle.ew_model.specs.EditLaws.{EditsAreGood, EditsChangeText, EditsKeep, HeadsAfterEdit, MarksJoinHeads, NumbersRunOn};

/// In a good history the events of each agent have the numbers 0, 1, 2, .. in order, so the number at its count is free.
pub fn law_numbers()
    ensures { NumbersRunOn }
{}

/// An edit that is not refused makes good events, and no more than there is room for.
pub fn law_edits()
    ensures { EditsAreGood }
{}

/// An edit keeps what a replica keeps, where no waiting event waits for the agent.
pub fn law_edits_keep()
    ensures { EditsKeep }
{}

/// An edit puts its characters in, or takes them out, at its index, with one event for each. A mark changes no text; over h heads
/// it makes 1 + (h - 2) / 15 events.
pub fn law_edit_text()
    ensures { EditsChangeText }
{}

/// After an edit the last event made is the only head.
pub fn law_edit_heads()
    ensures { HeadsAfterEdit }
{}

/// Over at most 16 heads a mark is one event, on all of them in order.
pub fn law_marks()
    ensures { MarksJoinHeads }
{}
